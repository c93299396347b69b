//! What member 1 of the ring 1, 2, 3 sends to member 2, and what that one makes of it, with ample memory.
ghost use Rattle.activity.specs.Diff.{IsNotAbove};
ghost use Rattle.std.specs.Prelude.{OnOk, IfOk};

use crate::*;
use group_view::View;
use queue_core::Message;
use ring_names::{Body, MemberId, Name, Stamp};
use std::alloc::Global;
use std::str::from_utf8;
use std::test::Fail;

/// What is published before each of two packets, as an origin and a body; the two packets, each line as its origin,
/// `lo`, the messages and `forgot`; and what member 2 keeps of 1, 2 and 3 once it took both: what it has forgotten,
/// the messages, and what has come round.
struct Row {
    before: &'static str,
    between: &'static str,
    packets: [&'static str; 2],
    kept: &'static str,
}

const ROWS: [Row; 4] = [
    Row {
        before: "1 a,3 x,1 b",
        between: "1 c",
        packets: ["1 0 a b 0;3 0 x 0;", "1 2 c 0;"],
        kept: "0 a b c 0;0 0;0 x 0;",
    },
    Row {
        before: "1 a",
        between: "",
        packets: ["1 0 a 0;", ""],
        kept: "0 a 0;0 0;0 0;",
    },
    Row {
        before: "",
        between: "3 x,3 y",
        packets: ["", "3 0 x y 0;"],
        kept: "0 0;0 0;0 x y 0;",
    },
    Row {
        before: "2 q",
        between: "3 x",
        packets: ["2 0 q 0;", "3 0 x 0;"],
        kept: "0 0;0 0;0 x 0;",
    },
];

const STAMP: Stamp = Stamp {
    round: 1,
    time: 4,
    party: 1,
};

fn publish(
    alloc: Global,
    sent: &Sent,
    tables: &mut Tables,
    origin: MemberId,
    body: &str,
) -> Result<(), Fail>
    requires { IsNotAbove sent.now tables.old }
    ensures { OnOk result (IsNotAbove sent.now tables.new) }
{
    let message = Message::Cast(Body::read(alloc, body.as_bytes())?);
    tables.make_room_for(origin)?;
    if tables.numbers(origin).got < 1 << 63 {
        tables.push(origin, message);
    }
    Ok(())
}

fn publish_all(alloc: Global, sent: &Sent, tables: &mut Tables, text: &str) -> Result<(), Fail>
    requires { IsNotAbove sent.now tables.old }
    ensures { OnOk result (IsNotAbove sent.now tables.new) }
{
    for one in text.split(',') {
        if let Some((origin, body)) = one.split_once(' ') {
            publish(alloc, sent, tables, MemberId(origin.parse()?), body)?;
        }
    }
    Ok(())
}

fn send(alloc: Global, sent: &mut Sent, tables: &Tables, first: bool) -> Result<Packet, Fail>
    requires { IsNotAbove sent.old tables.now }
    ensures { IfOk result (λ _. IsNotAbove sent.new tables.now) }
{
    let packet = diff(alloc, sent, tables, STAMP, 1, first)?;
    sent.make_room(&packet)?;
    sent.note(&packet);
    Ok(packet)
}

fn push_messages(text: &mut String, messages: &[Message]) -> Result<(), Fail> {
    for message in messages {
        let Message::Cast(body) = message else {
            return Err(Fail::new("no cast"));
        };
        text.push_str(from_utf8(body.bytes()).map_err(|_| "no text")?)?;
        text.push(' ')?;
    }
    Ok(())
}

fn shown(alloc: Global, packet: &Packet) -> Result<String, Fail> {
    let mut text = String::new(alloc);
    for line in packet.lines() {
        let start = format!(in alloc; "{} {} ", line.origin.0, line.lo)?;
        text.push_str(&start)?;
        push_messages(&mut text, line.messages.as_slice())?;
        let end = format!(in alloc; "{};", line.forgot)?;
        text.push_str(&end)?;
    }
    Ok(text)
}

fn kept(alloc: Global, tables: &Tables) -> Result<String, Fail> {
    let mut text = String::new(alloc);
    for id in 1..4 {
        let numbers = tables.numbers(MemberId(id));
        let start = format!(in alloc; "{} ", numbers.forgot)?;
        text.push_str(&start)?;
        if let Some(table) = tables.table(MemberId(id)) {
            let (forgot, got) = (table.store.forgot(), table.store.got());
            if forgot <= got {
                push_messages(&mut text, &table.store.slice(forgot, got)?)?;
            }
        }
        let end = format!(in alloc; "{};", numbers.retired)?;
        text.push_str(&end)?;
    }
    Ok(text)
}

/// Member 2 takes a packet of member 1.
fn take(alloc: Global, view: &View, tables: &mut Tables, packet: Packet) -> Result<(), Fail> {
    let changes = plan(alloc, &packet, tables, view, MemberId(2), MemberId(1))?;
    tables.make_room(&changes)?;
    tables.apply(packet, &changes);
    Ok(())
}

/// The two packets of a row, and what is kept then.
fn played(alloc: Global, view: &View, row: &Row) -> Result<(String, String, String), Fail> {
    let mut sent = Sent::new(alloc);
    let mut tables = Tables::new(alloc);
    let mut taker = Tables::new(alloc);
    publish_all(alloc, &sent, &mut tables, row.before)?;
    let first = send(alloc, &mut sent, &tables, true)?;
    publish_all(alloc, &sent, &mut tables, row.between)?;
    let second = send(alloc, &mut sent, &tables, false)?;
    let texts = (shown(alloc, &first)?, shown(alloc, &second)?);
    take(alloc, view, &mut taker, first)?;
    take(alloc, view, &mut taker, second)?;
    Ok((texts.0, texts.1, kept(alloc, &taker)?))
}

#[test]
fn packets_bring_what_is_new(rt: HostRuntime) -> Result<(), Fail> {
    let alloc = rt.alloc();
    let names = vec![in alloc; Name::read(b"a")?, Name::read(b"b")?, Name::read(b"c")?]?;
    let view = View::opening(alloc, &names)?;
    for row in &ROWS {
        let (first, second, kept) = played(alloc, &view, row)?;
        assert_eq!(rt; first.as_str(), row.packets[0]);
        assert_eq!(rt; second.as_str(), row.packets[1]);
        assert_eq!(rt; kept.as_str(), row.kept);
    }
    Ok(())
}

#[test]
fn a_waiting_member_begins_with_a_first_packet(rt: HostRuntime) -> Result<(), Fail> {
    let alloc = rt.alloc();
    let mut sent = Sent::new(alloc);
    let mut tables = Tables::new(alloc);
    publish_all(alloc, &sent, &mut tables, "1 a,3 x,1 b")?;
    let packet = send(alloc, &mut sent, &tables, true)?;
    let begun = Tables::begin(alloc, packet).map_err(|_| "no memory")?;
    let text = kept(alloc, &begun)?;
    assert_eq!(rt; text.as_str(), "0 a b 0;0 0;0 x 0;");
    Ok(())
}
