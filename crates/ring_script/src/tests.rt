//! Texts and what is told of them. Each row of a table has what is told of one text, in four bytes, and behind a
//! space the text. Rows of remarks begin with `--`. In a text `|` is a line feed, `$` is nothing, `@` is 64 names,
//! each behind a space, `&` is 20,000 lines `cast a x`, and `;` is 63 lines, by which `a` has the other 63 names join.
//! The byte before a `^` stands there 256 times, and the one before a `%` fills its line up to 2,000 bytes.
use crate::*;
use ring_names::{Body, CreditSpec, Name};
use ring_rules::{Client, Event};
use std::alloc::Global;
use std::process::Abort;
use std::test::Fail;

/// Of scripts and of step files.
const OPENINGS: &str = "\
-- Members, and a credit.
good members a
good members b a 0 z9|
good members a aa ab b|
good members abcdefghijklmnop|
good members cast credit members|
good members@
good members a|credit 64 64|
good members a|credit 64 1|
good members a|credit 1 1
good members a||  |# x|credit 9 2
-- Comments start with their first byte, and say nothing.
good #|##|# settle|members a|#cast A x
1 61  # members a|
-- Spaces round words, and between them.
good    members   a    b   |
good members a|  credit   5   3  |
-- The line behind the last, where none is used.
1 61
2 61 |
3 61 ||
2 61 # members a
2 61 # members a|
5 61 #|   ||  |
-- The first used line names the members.
1 61 settle|members a
3 61 |# x|cast a x|members a|
1 61 credit 8 4|members a|
1 61 cast|
1 61 join a n|
1 61 go 0 1|
1 61 fly|
1 61 member a|
1 61 Members a|
-- And no other.
2 62 members a|members b|
3 62 members a||members|
3 62 members a|credit 8 4|members A|
-- A credit stands directly behind them.
3 62 members a|credit 8 4|credit 8 4|
3 62 members a|cast a x|credit 8 4|
5 62 members a|# x|cast a||credit|
3 62 members a|cast a|credit 1 2 3|
-- Words are missing, or too many, before what stands there is judged.
1 53 members
1 53 members   |
2 53 members a|credit
2 53 members a|credit 8
2 53 members a|credit x  |
2 54 members a|credit 8 4 4
2 54 members a|credit x 0 z
-- Credits.
2 55 members a|credit 65 4
2 55 members a|credit 65 65
2 55 members a|credit 64 65
2 55 members a|credit 8 9
2 55 members a|credit 8 0
2 55 members a|credit 0 0
2 55 members a|credit 08 4
2 55 members a|credit 8 04
2 55 members a|credit x 4
2 55 members a|credit 8 -4
-- Names, judged from left to right, and each as a name, as a further one, and by its place.
1 56 members A
1 56 members a b-c
1 56 members a #
1 56 members abcdefghijklmnopq|
1 58 members a a|
1 58 members a b a
1 58 members ab a b ab c
1 59 members@ b0|
1 59 members@ b0 b1
1 56 members A a a
1 56 members a A a
1 58 members a a A
1 58 members@ a|
1 56 members@ A|
1 59 members@ b0 A|
";

/// Of scripts and of step files.
const BYTES: &str = "\
-- Lines of 2,000 bytes and of 2,001.
2 61 #x%
1 51 #x%x
good #x%|members a
2 51 |#x%x|members a
good | %|members a|
2 51 | % |members a|
good members a %|
1 51 members a % |
-- A byte that is no text, also in a comment, and in lines that end as elsewhere.
1 50 #\0
1 50 #\x1f
2 61 # |
2 61 #~
1 50 #\x7f
1 50 #\u{80}
2 50 members a|# \u{c8}\u{8a}
1 50 #\u{ff}|members a
1 50    \t|members a
1 50 members a\r|cast a\r|
2 50 members a|\r|
2 50 members a|cast a \t
2 50 members a|cast a \x7f
good members a|cast a ~
-- The length is judged first, then the bytes, then all that words can have.
1 50 #\t%|members a
1 51 #\t%\t|members a
1 61 mx%|
1 51 mx%x|
1 50 cast\t
1 50 members A\0
2 50 members a|members\x7f
2 51 members a|members % |
2 50 members a|fly\x7f
2 51 members a|fly % |
2 60 members a|cast a x%
2 51 members a|cast a x%x
2 50 members a|cast a \tx%
";

/// Of scripts.
const COMMANDS: &str = "\
-- The first word is no command, whatever follows.
2 52 members a|fly
2 52 members a|fly A 0 x
2 52 members a|Cast a x
2 52 members a|casts a x
2 52 members a|cas a x
2 52 members a|settle. |
2 52 members a| # x
2 52 members a|Publish a x
2 52 members a|publ a x
2 52 members a|gets a
2 52 members a|popp a
2 52 members a|acks a 1
2 52 members a|re a 1
2 52 members a|depth a
2 52 members a|start a
2 52 members a|synced a
2 52 members a|joins a n
2 52 members a|Join a n
2 52 members a|admit a n
2 52 members a|kills a
2 52 members a|stop a
2 52 members a|sync a b
2 52 members a|syncput a
2 52 members a|synctake a
2 52 members a|syncgain a
2 52 members a|put a
2 52 members a|refresh a 1
-- Words are missing, or too many, before what stands there is judged.
2 53 members a|cast
2 53 members a|cast   |
2 53 members a|publish
2 53 members a|publish   |
2 53 members a|get
2 53 members a|pop   |
2 53 members a|ack
2 53 members a|ack A
2 53 members a|requeue a   |
2 53 members a|join
2 53 members a|join A
2 53 members a|join a   |
2 53 members a|kill
2 53 members a|kill   |
2 53 members a|go
2 53 members a| go |
2 54 members a|get a a
2 54 members a|pop B! z
2 54 members a|ack a 1 1
2 54 members a|requeue z 0 1
2 54 members a|join a n n
2 54 members a|join z A !
2 54 members a|kill a a
2 54 members a|kill B! z
2 54 members a|go 5 5
2 54 members a|go x y
2 54 members a|settle a
2 54 members a|settle 1 2
-- Turns.
good members a|go 1|go 1000|
2 55 members a|go 0
2 55 members a|go 1001
2 55 members a|go 007
2 55 members a|go +5
2 55 members a|go 1x
2 55 members a|go 18446744073709551617
-- Positions.
good members a|ack a 1|requeue a 1|ack a 1000000|requeue a 1000000
2 55 members a|ack a 0
2 55 members a|ack a 1000001
2 55 members a|ack a 01
2 55 members a|ack a +1
2 55 members a|ack a a
2 55 members a|ack a 18446744073709551617
2 55 members a|requeue a 0
2 55 members a|requeue a 1000001
2 55 members a|requeue a 007
-- A name is judged as such, then as that of a member, and then comes the body.
good members a b|kill b|kill b|cast b x|
good members a b|credit 5 3|cast a x|publish a x|get a|pop a|ack a 1|requeue a 2|join a n|kill b|go 7|settle
2 56 members a|kill B!
2 57 members a|kill z
2 56 members a|get B!
2 57 members a|get z
2 56 members a|pop A
2 57 members a|pop aa
2 56 members a|ack A 0
2 57 members a|ack z 0
2 56 members a|requeue a_ 1000001
2 57 members a|requeue z 1000001
2 56 members a|publish A x
2 57 members a|publish z x
2 56 members a|cast A x
2 56 members a|cast a_ x
2 56 members a|cast ~
2 56 members a|cast abcdefghijklmnopq x
2 57 members a|cast abcdefghijklmnop x
2 57 members a|cast c x
2 57 members a|cast aa x
2 57 members a|cast 0
3 57 members@|cast a1 x|cast b0 x
2 56 members a|cast A x^x
2 57 members a|cast z x^x
2 56 members a|publish A x^x
2 57 members a|publish z x^x
-- Who has someone join is known, and who joins is new; then it is known too.
good members a|join a n|cast n x|join n o|kill n|join n p|kill o
good members a|join a 0|join 0 abcdefghijklmnop|cast abcdefghijklmnop x
good members a|join a n|publish n x|get n|pop n|ack n 1|requeue n 1
2 57 members a|get n|join a n
2 56 members a|join A n
2 56 members a|join A N
2 57 members a|join z n
2 57 members a|join n n
2 57 members a|join z a
2 57 members a|join z N
2 56 members a|join a N
2 56 members a|join a abcdefghijklmnopq
2 58 members a|join a a
2 58 members a b|join a b
3 58 members a b|kill b|join a b
3 58 members a|join a n|join a n
3 58 members a|join a n|join n a
3 58 members a|join a n|join n n
2 57 members a|cast n x|join a n
2 57 members a|kill n
3 57 members a|# join a n|kill n
3 57 members a|join a n|kill o
3 57 members a|join a n|cast nn x
3 57 members a|join a n|join o p
3 62 members a|join a n|credit 8 4
-- The 65th name, of the members or of those who join.
2 59 members@|join a b0
2 59 members@|join a1 b0
2 56 members@|join a B
2 57 members@|join b0 b1
2 58 members@|join a b
good members a|;
good members a|;kill a1|cast z x
5 59 members a|;join a b0
5 59 members a|;join a1 b0
5 58 members a|;join a a1
5 57 members a|;cast b0 x
-- A body of 256 bytes, and of 257.
good members a|cast a x^|
2 60 members a|cast a x^x|
2 60 members a|cast a x^x
good members a|cast a  ^|
2 60 members a|cast a  ^ |
2 60 members a|cast a x ^|
good members a|  cast   a ~^|
2 60 members a|  cast   a ~^~|
good members a|publish a x^|
2 60 members a|publish a x^x|
-- Of several bad lines the first is told, whatever its kind.
good members a|&
2 52 members a|&fly
7 57 members a|cast a x|cast a x|cast a x|cast a x|cast a x|cast z x|
2 55 members a|go 0|fly\x01|
2 52 members a|fly|members b|
1 56 members A|\x01|
";

/// Of step files.
const EVENTS: &str = "\
-- The first word is no event, whatever follows.
2 52 members a|fly
2 52 members a|fly A 0 x
2 52 members a|Put a
2 52 members a|puts a
2 52 members a|pu a
2 52 members a|take. a
2 52 members a| # x
2 52 members a|go 1
2 52 members a|settle
2 52 members a|Publish a x
2 52 members a|join a n
2 52 members a|Admit a n
2 52 members a|admits a n
2 52 members a|syn a b
2 52 members a|syncs a b
2 52 members a|Sync a b
2 52 members a|syncpu a
-- Nor have step files the words of copies, which no member makes yet.
2 52 members a|sync a n
2 52 members a b|sync a b
2 52 members a|sync
2 52 members a|sync A B c
2 52 members a|syncput a
2 52 members a|syncput   |
2 52 members a|synctake n
2 52 members a|synctake A b
2 52 members a|syncgain a
2 52 members a|syncgain abcdefghijklmnopq
-- Nor is what was refused what a client asks for.
2 52 members a|refuse a n
2 52 members a|refuse 12 put a
2 52 members a|refuse 12 depth a
2 52 members a|refuse x start A
2 52 members a|refuse 12 synced a
2 52 members a|refuse x kill A
2 52 members a|refuse 12 refuse 12 stop a
2 52 members a|refuse 31 sync a n
2 52 members a b|refuse 31 sync a b
2 52 members a|refuse 0 sync A B
2 52 members a|refuse x sync A
2 52 members a|refuse x sync A b c
2 52 members a|refuse 31 syncput a
2 52 members a|refuse x synctake A
2 52 members a|refuse 37 syncgain a
2 52 members a|kill a
-- Words are missing, or too many, before what stands there is judged.
2 53 members a|cast
2 53 members a|cast   |
2 53 members a|put
2 53 members a|pick   |
2 53 members a|mark
2 53 members a|mark A
2 53 members a|erase
2 53 members a|erase A
2 53 members a|admit
2 53 members a|admit A
2 53 members a|admit a   |
2 53 members a|refuse
2 53 members a|refuse x   |
2 53 members a|refuse x cast
2 53 members a|refuse x stop   |
2 53 members a|refuse x admit A
2 53 members a|refresh
2 53 members a|refresh A
2 53 members a|publish
2 53 members a|ack A
2 53 members a|synced
2 53 members a|refuse x requeue A
2 54 members a|put A b
2 54 members a|take a b
2 54 members a|takeend a b
2 54 members a|gain a b
2 54 members a|stop a b
2 54 members a|pick a b
2 54 members a|mark A b c
2 54 members a|erase A b c
2 54 members a|admit a n n
2 54 members a|admit A B c
2 54 members a|refuse x stop A b
2 54 members a|refuse x admit A b c
2 54 members a|refresh A 0 1
2 54 members a|get A b
2 54 members a|ack A 0 1
2 54 members a|start a b
2 54 members a|refuse x pop A b
-- Versions.
good members a|refresh a 1|refresh a 1000000
2 55 members a|refresh a 0
2 55 members a|refresh a 1000001
2 55 members a|refresh a 02
2 55 members a|refresh a +2
2 55 members a|refresh a a
2 55 members a|refresh a 18446744073709551617
-- Positions.
good members a|ack a 1|requeue z 1000000|refuse 29 ack a 1
2 55 members a|ack a 0
2 55 members a|requeue a 1000001
2 55 members a|refuse 30 requeue a 01
-- Numbers of refusals.
good members a|refuse 1 stop a|refuse 99 stop a
2 55 members a|refuse 0 stop A
2 55 members a|refuse 100 cast A x^x
2 55 members a|refuse 012 admit A B
2 55 members a|refuse x stop a
-- Names, whether the ring has them or not, and then what stands behind them.
good members a|put z|mark abcdefghijklmnop 0|erase y z|refuse 6 admit y z
good members a b|admit a n|admit a n|admit a b|admit z a|admit a a|admit abcdefghijklmnop 0
good members@|admit a b0|admit b0 b1
2 56 members a|put A
2 56 members a|publish A x^x
2 56 members a|ack A 0
2 56 members a|refuse 28 get A
2 56 members a|stop abcdefghijklmnopq
2 56 members a|cast ~
2 56 members a|cast A x^x
2 56 members a|mark A b
2 56 members a|mark a B
2 56 members a|mark a abcdefghijklmnopq
2 56 members a|erase A b
2 56 members a|erase a B
2 56 members a|admit A n
2 56 members a|admit A B
2 56 members a|admit a B
2 56 members a|admit a abcdefghijklmnopq
2 56 members a|refuse 12 cast A x^x
2 56 members a|refuse 12 stop B!
2 56 members a|refuse 12 admit A b
2 56 members a|refuse 12 admit a B
2 56 members a|refresh A 0
-- A body of 256 bytes, and of 257.
good members a|cast a x^|
2 60 members a|cast a x^x|
good members a|cast a  ^|
2 60 members a|cast z  ^ |
good members a|refuse 12 cast a x^|
2 60 members a|refuse 12 cast z x^x|
good members a|publish a x^|
2 60 members a|publish a x^x|
2 60 members a|refuse 26 publish z x^x|
-- Of several bad lines the first is told, whatever its kind.
good members a|&
2 52 members a|&fly
3 55 members a|put z|refresh a 0|fly\x01|
2 52 members a|go 1|members b|
1 56 members A|\x01|
";

const LINES: &str = "\
-- A line feed ends a line, and a last run of bytes is one too.
0000
0001 a
0001 a|
0002 a|b
0003 a||b
0001 |
0002 ||
0002 \r|\r$
0003 &||a
";

const FIRST_WORDS: &str = "\
none
none    $
0006 settle
0204   go   12 $
0001 a b
0004 a\tb\0 x
";

const SECOND_WORDS: &str = "\
none settle
0709   go   12 $
0203 a b  c $
0507 a\tb\0 \u{ff}
";

const THIRD_WORDS: &str = "\
none   go   12 $
0506 a b  c $
";

const RESTS: &str = "\
0000
0103    $
0001 a
";

const RESTS_BEHIND_ONE: &str = "\
0000
0303    $
0606 settle
0101 a
0202 a $
0203 a  $
0203 a b
";

const RESTS_BEHIND_TWO: &str = "\
0719 cast a  two  words $
";

const NUMBERS: &str = "\
1615 18446744073709551615
none 18446744073709551616
none 100000000000000000000
-- A number begins with a digit from 1 to 9, and has only digits.
0007 7
0010 10
none 0
none
none 007
none 00
none +5
none -5
none 5a
none a5
none 5 $
none  5
none 1.5
none 5\u{ff}
";

const NUMBERS_TO_1000: &str = "\
0999 999
1000 1000
none 1001
";

const SCRIPT_OPENINGS: &str = "\
1a84 members a
4z84 members b a 0 z9|
4b84 members a aa ab b|settle
4a84 members@|
2b84 members a b|join a n|join n o
1a93 members a|credit 9 3|;
1a92 members a||  |# x|credit 9 2|
1a41 members a|credit 64 1
";

const STEPS_OPENINGS: &str = "\
4z84 members b a 0 z9|
1a92 members a||  |# x|credit 9 2|put a
";

const LAST_COMMANDS: &str = "\
-- Lines that say nothing are counted.
cb25 # x||members a b|   |cast b hi|#
g-77 # x||members a b|   |cast b hi|#|go 7|
s--0 # x||members a b|   |cast b hi|#|go 7|||settle
ub25 # x||members a b|   |publish b hi|#
hb-2 members a b|get b
ob-2 members a b|pop b
ab72 members a b|ack b 7
qa42 members a b|requeue a 14
un23 members a|join a n|publish n hi
jan2 members a|join a n
jno3 members a|join a n|join n o
jaa4 members a|;
cn23 members a|join a n|cast n hi
kn-4 members a|join a n|join n o|kill n
kb-2 members a b|kill b
-- Spaces round words.
jan2 members a|  join   a   n  |
kb-2 members a b|  kill   b  |
hb-2 members a b|  get   b  |
qb72 members a b|  requeue   b   7  |
g-22 members a|  go   12  |
s--2 members a|  settle  |
-- A body is all that follows one space.
ca02 members a|cast a
ca02 members a|cast a |
ca12 members a|cast a  |
ca42 members a|cast a   hi
ca82 members a|  cast   a hi  you |
ca92 members a|cast a cast a !~
ca22 members a|cast a #1
ua02 members a|publish a
ua02 members a|publish a |
ua42 members a|publish a   hi
ua82 members a|  publish   a hi  you |
";

const LAST_EVENTS: &str = "\
cb25 # x||members a b|   |cast b hi|#
pa-2 members a b|put a
tb-2 members a b|take b
ea-2 members a b|takeend a
gz-2 members a b|gain z
sa-2 members a b|stop a
mab2 members a b|mark a b
rb72 members a b|refresh b 7
kb-2 members a b|pick b
xab2 members a b|erase a b
nan2 members a b|admit a n
nzb2 members a b|admit z b
f2b- members a b|refuse 12 stop b
f9bn members a b|refuse 9 admit b n
f2b2 members a b|refuse 12 cast b hi
ub22 members a b|publish b hi
hb-2 members a b|get b
ob-2 members a b|pop b
az72 members a b|ack z 7
qb42 members a b|requeue b 14
da-2 members a b|depth a
bb-2 members a b|start b
yb-2 members a b|synced b
f6u2 members a b|refuse 26 publish b hi
f8hb members a b|refuse 28 get b
f8ob members a b|refuse 28 pop b
f9a7 members a b|refuse 29 ack b 7
f0q4 members a b|refuse 30 requeue b 14
-- Spaces round words.
mab2 members a|  mark   a   b  |
nbn2 members a|  admit   b   n  |
f2b- members a b|  refuse   12   stop   b  |
-- A body is all that follows one space.
ca02 members a|cast a
ca02 members a|cast a |
ca42 members a|cast a   hi
ca82 members a|  cast   a hi  you |
ua82 members a|  publish   a hi  you |
f2b0 members a b|refuse 12 cast b
f2b0 members a b|refuse 12 cast b |
f2b8 members a b|  refuse  12  cast   b hi  you |
";

const NAMES: &str = " a b c d e f g h i j k l m n o p q r s t u v w x y z 0 1 2 3 4 5 6 7 8 9 \
    aa ab ac ad ae af ag ah ai aj ak al am an ao ap aq ar as at au av aw ax ay az a0 a1";

/// What is told of a text.
#[derive(Clone, Copy)]
enum Ask {
    /// As a script, or as a step file: its first bad line, and the number of the first fault there, or `good`.
    Script,
    Steps,
    /// What a script opens with, or a step file: how many members, the first letter of the last one, and the credit.
    ScriptOpening,
    StepsOpening,
    /// The last command of a script, or the last event of a step file: a letter for its word, its member's first,
    /// then the length of its body, its number or its second name, and its line. Of a refusal its number for the line.
    Command,
    Event,
    /// How many lines it has.
    Lines,
    /// Behind so many words: where the next one stands, or where the rest does.
    Word(u32),
    Rest(u32),
    /// The number that it is, up to this one.
    Number(u64),
}

/// That of each text of the table is told what its row says. Of numbers the last digits are told.
fn expect<R: Abort + AllocGlobal>(rt: &R, ask: Ask, table: &str) -> Result<(), Fail> {
    for row in table.lines() {
        let bytes = row.as_bytes();
        if !bytes.starts_with(b"--") {
            let text = spelt(rt.alloc(), bytes.get(5..).unwrap_or(b""))?;
            let told = told(rt.alloc(), ask, &text);
            assert!(rt; bytes.starts_with(&told), "at {row}");
        }
    }
    Ok(())
}

fn told(alloc: Global, ask: Ask, text: &[u8]) -> [u8; 4] {
    match ask {
        Ask::Script => fault_of(read_script(alloc, text)),
        Ask::Steps => fault_of(read_steps(alloc, text)),
        Ask::ScriptOpening => match read_script(alloc, text) {
            Ok(script) => opening(script.members.as_slice(), script.credit),
            Err(_) => *b"none",
        },
        Ask::StepsOpening => match read_steps(alloc, text) {
            Ok(steps) => opening(steps.members.as_slice(), steps.credit),
            Err(_) => *b"none",
        },
        Ask::Command => match read_script(alloc, text) {
            Ok(script) => last_command(script.lines.as_slice()),
            Err(_) => *b"none",
        },
        Ask::Event => match read_steps(alloc, text) {
            Ok(steps) => last_event(steps.lines.as_slice()),
            Err(_) => *b"none",
        },
        Ask::Lines => four_digits(line_count(text)),
        Ask::Word(count) => match behind(text, count).next() {
            Some((start, end)) => two_places(start, end),
            None => *b"none",
        },
        Ask::Rest(count) => {
            let (start, end) = behind(text, count).rest();
            two_places(start, end)
        }
        Ask::Number(most) => match number(text, most) {
            Some(value) => four_digits(value),
            None => *b"none",
        },
    }
}

fn fault_of<T: Drop>(read: Result<T, ScriptFault>) -> [u8; 4] {
    match read {
        Ok(_) => *b"good",
        Err(ScriptFault::At { line, kind }) => {
            let [_, _, tens, ones] = four_digits(u64::from(kind));
            [digit(u64::from(line)), b' ', tens, ones]
        }
        Err(ScriptFault::OutOfMemory) => *b"full",
    }
}

fn opening(members: &[Name], credit: CreditSpec) -> [u8; 4] {
    let last = match members.last() {
        Some(name) => letter(name),
        None => b'-',
    };
    [
        digit(members.len() as u64),
        last,
        digit(u64::from(credit.initial)),
        digit(u64::from(credit.more)),
    ]
}

fn last_command(lines: &[(u32, Command)]) -> [u8; 4] {
    let Some((line, command)) = lines.last() else {
        return *b"none";
    };
    match command.copy() {
        Ok(copy) => command_on(digit(u64::from(*line)), &copy),
        Err(_) => *b"full",
    }
}

fn command_on(line: u8, command: &Command) -> [u8; 4] {
    match command {
        Command::Cast { by, body } => [b'c', letter(by), length(body), line],
        Command::Publish { by, body } => [b'u', letter(by), length(body), line],
        Command::Get { by } => [b'h', letter(by), b'-', line],
        Command::Pop { by } => [b'o', letter(by), b'-', line],
        Command::Ack { by, at } => [b'a', letter(by), digit(at.0), line],
        Command::Requeue { by, at } => [b'q', letter(by), digit(at.0), line],
        Command::Join { by, name } => [b'j', letter(by), letter(name), line],
        Command::Kill { by } => [b'k', letter(by), b'-', line],
        Command::Go { turns } => [b'g', b'-', digit(u64::from(*turns)), line],
        Command::Settle => [b's', b'-', b'-', line],
    }
}

fn last_event(lines: &[(u32, Event)]) -> [u8; 4] {
    let Some((line, event)) = lines.last() else {
        return *b"none";
    };
    let line = digit(u64::from(*line));
    match event {
        Event::Cast { by, body } => [b'c', letter(by), length(body), line],
        Event::Put { by } => [b'p', letter(by), b'-', line],
        Event::Take { by } => [b't', letter(by), b'-', line],
        Event::TakeEnd { by } => [b'e', letter(by), b'-', line],
        Event::Gain { by } => [b'g', letter(by), b'-', line],
        Event::Stop { by } => [b's', letter(by), b'-', line],
        Event::Mark { by, dead } => [b'm', letter(by), letter(dead), line],
        Event::Refresh { by, view } => [b'r', letter(by), digit(u64::from(*view)), line],
        Event::Pick { by } => [b'k', letter(by), b'-', line],
        Event::Erase { by, origin } => [b'x', letter(by), letter(origin), line],
        Event::Admit { by, name } => [b'n', letter(by), letter(name), line],
        Event::Refuse { code, inner } => refused(digit(u64::from(*code)), inner),
        Event::Publish { by, body } => [b'u', letter(by), length(body), line],
        Event::Get { by } => [b'h', letter(by), b'-', line],
        Event::Pop { by } => [b'o', letter(by), b'-', line],
        Event::Ack { by, at } => [b'a', letter(by), digit(at.0), line],
        Event::Requeue { by, at } => [b'q', letter(by), digit(at.0), line],
        Event::Depth { by } => [b'd', letter(by), b'-', line],
        Event::Start { by } => [b'b', letter(by), b'-', line],
        Event::Synced { by } => [b'y', letter(by), b'-', line],
        Event::Sync { by, target } => [b'v', letter(by), letter(target), line],
        Event::SyncPut { by } => [b'i', letter(by), b'-', line],
        Event::SyncTake { by } => [b'w', letter(by), b'-', line],
        Event::SyncGain { by } => [b'l', letter(by), b'-', line],
    }
}

/// Of what was refused with this number its member's first letter, and the length of its body or its second name. Where
/// that was asked of the queue, a letter for its word, and that length, its position, its second name or its member.
fn refused(code: u8, inner: &Client) -> [u8; 4] {
    match inner {
        Client::Cast { by, body } => [b'f', code, letter(by), length(body)],
        Client::Stop { by } => [b'f', code, letter(by), b'-'],
        Client::Admit { by, name } => [b'f', code, letter(by), letter(name)],
        Client::Publish { by: _, body } => [b'f', code, b'u', length(body)],
        Client::Get { by } => [b'f', code, b'h', letter(by)],
        Client::Pop { by } => [b'f', code, b'o', letter(by)],
        Client::Ack { by: _, at } => [b'f', code, b'a', digit(at.0)],
        Client::Requeue { by: _, at } => [b'f', code, b'q', digit(at.0)],
        Client::Sync { by: _, target } => [b'f', code, b'v', letter(target)],
    }
}

fn letter(name: &Name) -> u8 {
    match name.bytes().first() {
        Some(byte) => *byte,
        None => b'-',
    }
}

fn length(body: &Body) -> u8 {
    digit(body.bytes().len() as u64)
}

/// The words of a line, of which so many are read.
fn behind(line: &[u8], count: u32) -> Words<'_> {
    let mut words = Words::of(line);
    for _ in 0..count {
        words.next();
    }
    words
}

fn two_places(start: usize, end: usize) -> [u8; 4] {
    let [_, _, tens, ones] = four_digits(start as u64);
    let [_, _, end_tens, end_ones] = four_digits(end as u64);
    [tens, ones, end_tens, end_ones]
}

fn four_digits(n: u64) -> [u8; 4] {
    [digit(n / 1000), digit(n / 100), digit(n / 10), digit(n)]
}

/// The last digit.
fn digit(n: u64) -> u8 {
    b'0' + (n % 10) as u8
}

/// The bytes that a row writes so.
fn spelt(alloc: Global, text: &[u8]) -> Result<Vec<u8>, Fail> {
    let mut bytes = Vec::new(alloc);
    let mut start = 0;
    let mut before = b' ';
    for byte in text {
        match *byte {
            b'|' => {
                bytes.push(b'\n')?;
                start = bytes.len();
            }
            b'$' => {}
            b'@' => bytes.extend_from_slice(NAMES.as_bytes())?,
            b';' => push_joins(&mut bytes)?,
            b'&' => push_times(&mut bytes, 20_000, b"cast a x\n")?,
            b'^' => push_times(&mut bytes, 255, &[before])?,
            b'%' => {
                let so_far = bytes.len().saturating_sub(start);
                push_times(&mut bytes, 2_000usize.saturating_sub(so_far), &[before])?;
            }
            plain => bytes.push(plain)?,
        }
        before = *byte;
    }
    Ok(bytes)
}

fn push_joins(bytes: &mut Vec<u8>) -> Result<(), Fail> {
    for name in NAMES.split_whitespace().skip(1) {
        bytes.extend_from_slice(b"join a ")?;
        bytes.extend_from_slice(name.as_bytes())?;
        bytes.push(b'\n')?;
    }
    Ok(())
}

fn push_times(bytes: &mut Vec<u8>, times: usize, piece: &[u8]) -> Result<(), Fail> {
    for _ in 0..times {
        bytes.extend_from_slice(piece)?;
    }
    Ok(())
}

#[test]
fn reads_what_texts_say(rt: HostRuntime) -> Result<(), Fail> {
    expect(&rt, Ask::ScriptOpening, SCRIPT_OPENINGS)?;
    expect(&rt, Ask::StepsOpening, STEPS_OPENINGS)?;
    expect(&rt, Ask::Command, LAST_COMMANDS)?;
    expect(&rt, Ask::Event, LAST_EVENTS)
}

#[test]
fn tells_first_faults(rt: HostRuntime) -> Result<(), Fail> {
    assert_eq!(rt; Kind::Misplaced.code(), 62);
    expect(&rt, Ask::Script, OPENINGS)?;
    expect(&rt, Ask::Steps, OPENINGS)?;
    expect(&rt, Ask::Script, BYTES)?;
    expect(&rt, Ask::Steps, BYTES)?;
    expect(&rt, Ask::Script, COMMANDS)?;
    expect(&rt, Ask::Steps, EVENTS)
}

#[test]
fn reads_words_and_numbers(rt: HostRuntime) -> Result<(), Fail> {
    expect(&rt, Ask::Lines, LINES)?;
    expect(&rt, Ask::Word(0), FIRST_WORDS)?;
    expect(&rt, Ask::Word(1), SECOND_WORDS)?;
    expect(&rt, Ask::Word(2), THIRD_WORDS)?;
    expect(&rt, Ask::Rest(0), RESTS)?;
    expect(&rt, Ask::Rest(1), RESTS_BEHIND_ONE)?;
    expect(&rt, Ask::Rest(2), RESTS_BEHIND_TWO)?;
    expect(&rt, Ask::Number(u64::MAX), NUMBERS)?;
    expect(&rt, Ask::Number(1000), NUMBERS_TO_1000)?;
    expect(&rt, Ask::Number(0), "none 1")
}

/// The load of two blocks and the seed 0.
const LOAD: &str = "\
members m0 m1 m2
cast m2 c1
publish m0 p1a
publish m0 p1b
get m0
ack m0 1
get m0
settle
kill m0
settle
cast m1 c2
publish m1 p2a
publish m1 p2b
get m1
ack m1 2
";

/// All that a script has, line by line.
fn told_of(alloc: Global, script: &Script) -> Result<String, Fail> {
    Ok(format!(in alloc; "{script:?}")?)
}

#[test]
fn makes_the_load(rt: HostRuntime) -> Result<(), Fail> {
    let load = load_script(rt.alloc(), 2, 0)?;
    let read = read_script(rt.alloc(), LOAD.as_bytes())?;
    let told = told_of(rt.alloc(), &load)?;
    assert_eq!(rt; told, told_of(rt.alloc(), &read)?);
    Ok(())
}
