//! Journals and what is told of them. Each row of the table has what is told of one journal, and behind five bytes the
//! journal: `good`, or the line on which it ends and the number of what is wrong there. Rows of remarks begin with
//! `--`. In a journal `|` is a line feed, `'` a quote, `@` the first line of a ring of `a` alone, `$` nothing, `?` the
//! byte 255, and `%` fills its line with spaces up to 2,000 bytes.
use crate::{Verdict, check, write_journal};
use ring_names::{Body, CreditSpec, Name, Position};
use ring_rules::{Client, Event};
use std::alloc::Global;
use std::test::Fail;

const JOURNALS: &str = "\
-- A journal of a run, with two lines exchanged, cut in a line, and none.
good @|['cast','a','hi']|['put','a']|['take','a']|
3 17 @|['cast','a','hi']|['take','a']|['put','a']|
4 70 @|['cast','a','hi']|['put','a']|['ta
1 72 $
-- All words.
good {'credit':[8,1],'members':['a','b'],'v':1}|\
['cast','a','hi']|['put','a']|['take','b']|['gain','a']|\
['publish','a','x']|['get','a']|['requeue','a',1]|['get','a']|['ack','a',1]|\
['publish','a','y']|['pop','a']|['refuse',28,'get','a']|\
['admit','a','c']|['take','c']|['gain','a']|['refresh','c',2]|\
['depth','a']|['put','a']|['take','c']|['synced','c']|\
['takeend','b']|['refresh','b',3]|['pick','b']|['take','b']|\
['stop','a']|['takeend','c']|['mark','b','a']|['refresh','c',4]|['pick','c']|['take','c']|\
['put','c']|['take','b']|['put','b']|['take','c']|['put','c']|['take','b']|['put','b']|['take','c']|\
['erase','c','a']|['refresh','b',5]|['start','b']|
-- Other JSON of the same values.
good { 'v' : 1, 'members' : ['\\u0061'], 'credit' : [1, 1] }|[ 'cast' , 'a' , '' ]
good {'v':2,'credit':[8,4],'members':['a'],'v':1}
1 73 {'v':1,'credit':[8,4],'members':['a'],'v':2}
-- No JSON.
1 70 |
2 70 @||
2 70 @|['put','a']]
2 70 @|['cast','a','?']
2 70 @|['cast','a','\\ud800']
-- JSON, and no event.
2 71 @|{}
2 71 @|'put'
2 71 @|[]
2 71 @|[1,'a']
2 71 @|['fly','a']
2 71 @|['put']
2 71 @|['put','a','a']
2 71 @|['put',1]
2 71 @|['put','A']
2 71 @|['cast','a','\u{e9}']
2 71 @|['refresh','a',0]
2 71 @|['refresh','a',1.0]
2 71 @|['refresh','a',1000001]
2 71 @|['ack','a',0]
2 71 @|['ack','a',-1]
2 71 @|['ack','a',1e0]
2 71 @|['ack','a','1']
2 71 @|['ack','a',1000001]
2 71 @|['refuse',100,'stop','a']
2 71 @|['refuse',28,'depth','a']
2 71 @|['refuse',28,'get','a','b']
2 71 @|['sync','a']
2 71 @|['sync','a','B']
2 71 @|['syncput','a','b']
2 71 @|['synctake']
2 71 @|['syncgain',1]
2 71 @|['refuse',31,'sync','a']
2 71 @|['refuse',31,'syncput','a']
-- The first line: its shape, its version, and then what it says.
1 72 ['put','a']
1 72 {'credit':[8,4],'members':['a']}
1 72 {'credit':[8,4],'members':['a'],'v':1,'w':1}
1 72 {'credit':[8,4,4],'members':['a'],'v':2}
1 72 {'credit':[8.0,4],'members':['a'],'v':2}
1 72 {'credit':[8,4],'members':[1],'v':2}
1 72 {'credit':[8,4],'members':['a'],'v':1.0}
1 73 {'credit':[0,9],'members':[],'v':2}
1 73 {'credit':[8,4],'members':['a'],'v':-3}
1 72 {'credit':[4,8],'members':['a'],'v':1}
1 72 {'credit':[65,4],'members':['a'],'v':1}
1 72 {'credit':[8,0],'members':['a'],'v':1}
1 72 {'credit':[-8,4],'members':['a'],'v':1}
1 72 {'credit':[8,4],'members':[],'v':1}
1 72 {'credit':[8,4],'members':['a','a'],'v':1}
1 72 {'credit':[8,4],'members':['A'],'v':1}
-- Long lines, whatever they say.
good @%|['cast','a','x']%|
1 74 @% |
2 74 @|['cast','a','x']% |
2 74 @|['take','a']% |
2 74 @|{% |
-- Line by line, each for its text and then for its event.
2 17 @|['take','a']|{
2 70 @|{|['take','a']
2 29 @|['ack','a',1000000]
2 06 @|['refuse',12,'stop','b']
2 44 @|['refuse',12,'stop','a']
2 06 @|['sync','b','a']
2 06 @|['syncput','b']
2 06 @|['synctake','b']
2 06 @|['syncgain','b']
2 06 @|['refuse',31,'sync','b','a']
";

const ALONE: &[u8] = b"{\"credit\":[8,4],\"members\":[\"a\"],\"v\":1}";

/// A journal that is cut after each of its bytes.
const CUT: &[u8] =
    b"{\"credit\":[8,4],\"members\":[\"a\"],\"v\":1}\n[\"cast\",\"a\",\"hi\"]\n[\"put\",\"a\"]\n[\"take\",\"a\"]\n";

const WRITTEN: &[u8] =
    b"{\"credit\":[8,4],\"members\":[\"a\"],\"v\":1}\n[\"publish\",\"a\",\"say \\\"hi\\\" \\\\\"]\n\
[\"ack\",\"a\",1000000]\n[\"mark\",\"a\",\"b\"]\n[\"refresh\",\"a\",7]\n[\"synced\",\"a\"]\n\
[\"refuse\",28,\"get\",\"a\"]\n[\"refuse\",29,\"requeue\",\"a\",3]\n[\"refuse\",12,\"cast\",\"a\",\"\"]\n\
[\"sync\",\"a\",\"b\"]\n[\"syncput\",\"a\"]\n[\"synctake\",\"b\"]\n[\"syncgain\",\"a\"]\n[\"refuse\",31,\"sync\",\"a\",\"b\"]\n";

fn told(alloc: Global, journal: &[u8]) -> [u8; 4] {
    match check(alloc, journal) {
        Ok(Verdict::Legal { .. }) => *b"good",
        Ok(Verdict::Illegal { line, reason }) => on_line(line, reason.code()),
        Ok(Verdict::Unreadable { line, kind }) => on_line(line, kind),
        Err(_) => *b"full",
    }
}

/// The line's last digit, and the number's last two.
fn on_line(line: u32, number: u32) -> [u8; 4] {
    [digit(line), b' ', digit(number / 10), digit(number)]
}

fn digit(number: u32) -> u8 {
    b'0' + (number % 10) as u8
}

/// The bytes that a row writes so.
fn spelt(alloc: Global, text: &[u8]) -> Result<Vec<u8>, Fail> {
    let mut bytes = Vec::new(alloc);
    let mut start = 0;
    for byte in text {
        match *byte {
            b'|' => {
                bytes.push(b'\n')?;
                start = bytes.len();
            }
            b'\'' => bytes.push(b'"')?,
            b'@' => bytes.extend_from_slice(ALONE)?,
            b'$' => {}
            b'?' => bytes.push(255)?,
            b'%' => {
                for _ in bytes.len().saturating_sub(start)..2_000 {
                    bytes.push(b' ')?;
                }
            }
            plain => bytes.push(plain)?,
        }
    }
    Ok(bytes)
}

#[test]
fn tells_what_journals_are(rt: HostRuntime) -> Result<(), Fail> {
    for row in JOURNALS.lines() {
        let bytes = row.as_bytes();
        if !bytes.starts_with(b"--") {
            let journal = spelt(rt.alloc(), bytes.get(5..).unwrap_or(b""))?;
            let told = told(rt.alloc(), &journal);
            assert!(rt; bytes.starts_with(&told), "at {row}");
        }
    }
    Ok(())
}

/// Cut in a line it is no JSON there, cut behind one a journal, and with nothing left it has no first line.
#[test]
fn tells_where_a_journal_is_cut(rt: HostRuntime) -> Result<(), Fail> {
    let mut line = 1u32;
    let mut start = 0;
    for cut in 0..CUT.len() {
        if cut > 0 && CUT[cut - 1] == b'\n' {
            line = line.saturating_add(1);
            start = cut;
        }
        let wanted = if cut == 0 {
            *b"1 72"
        } else if cut == start || CUT[cut] == b'\n' {
            *b"good"
        } else {
            on_line(line, 70)
        };
        assert_eq!(rt; told(rt.alloc(), &CUT[..cut]), wanted, "at {cut}");
    }
    Ok(())
}

#[test]
fn writes_each_event_on_a_line(rt: HostRuntime) -> Result<(), Fail> {
    let alloc = rt.alloc();
    let a = Name::read(b"a")?;
    let b = Name::read(b"b")?;
    let credit = CreditSpec::new(8, 4).ok_or("no credit")?;
    let events = [
        Event::Publish {
            by: a,
            body: Body::read(alloc, b"say \"hi\" \\")?,
        },
        Event::Ack {
            by: a,
            at: Position(1_000_000),
        },
        Event::Mark { by: a, dead: b },
        Event::Refresh { by: a, view: 7 },
        Event::Synced { by: a },
        Event::Refuse {
            code: 28,
            inner: Client::Get { by: a },
        },
        Event::Refuse {
            code: 29,
            inner: Client::Requeue {
                by: a,
                at: Position(3),
            },
        },
        Event::Refuse {
            code: 12,
            inner: Client::Cast {
                by: a,
                body: Body::read(alloc, b"")?,
            },
        },
        Event::Sync { by: a, target: b },
        Event::SyncPut { by: a },
        Event::SyncTake { by: b },
        Event::SyncGain { by: a },
        Event::Refuse {
            code: 31,
            inner: Client::Sync { by: a, target: b },
        },
    ];
    let names = [a];
    let text = write_journal(alloc, names.as_slice(), credit, events.as_slice())?;
    assert!(rt; text.as_slice() == WRITTEN);
    Ok(())
}
