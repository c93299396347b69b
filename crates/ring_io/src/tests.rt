//! Each source and sink once, over `abcdefghij`: tables of what is read and written where calls fail, and at the
//! limits. The gates, on one thread and on two.
use crate::*;
use ring_names::MemberId;
use std::alloc::Global;
use std::test::Fail;
use std::thread::join;

const TEXT: &[u8] = b"abcdefghij";

/// Whether a read within a limit gives this text, or says this of why it ended.
fn reads<S: Source>(alloc: Global, source: &mut S, limit: u64, wanted: &str) -> bool {
    match read_all(alloc, source, limit) {
        Ok(bytes) => bytes.as_slice() == wanted.as_bytes(),
        Err(end) => match end.to_string(alloc) {
            Ok(text) => text.as_str() == wanted,
            Err(_) => false,
        },
    }
}

/// How much of a text is written where a write fails.
fn short_of<K: Sink>(sink: &mut K, text: &[u8]) -> Option<u64> {
    match write_all(sink, text) {
        Ok(()) => None,
        Err(short) => Some(short.written),
    }
}

#[test]
fn reads_to_the_end_or_until_it_fails(rt: HostRuntime) -> Result<(), Fail> {
    let fault = "a read failed";
    let large = "the input is too large";
    // The most bytes of a call, the call that fails, and two reads with their limits.
    for (most, fails, limit, first, next_limit, second) in [
        (0, 0, 10, "abcdefghij", 0, ""),
        (3, 0, 10, "abcdefghij", 0, ""),
        (10, 0, 10, "abcdefghij", 0, ""),
        (20, 0, 10, "abcdefghij", 0, ""),
        (3, 1, 10, fault, 10, "abcdefghij"),
        (3, 3, 10, fault, 10, "ghij"),
        (3, 3, 5, large, 10, fault),
        (3, 6, 10, "abcdefghij", 10, fault),
        (10, 9, 10, "abcdefghij", 10, ""),
        (10, 9, 9, large, 10, ""),
    ] {
        let bytes = Vec::from_slice(rt.alloc(), TEXT)?;
        let mut source = MemorySource::new(bytes, most, Vec::from_slice(rt.alloc(), &[fails])?);
        let told = reads(rt.alloc(), &mut source, limit, first)
            && reads(rt.alloc(), &mut source, next_limit, second);
        assert!(rt; told, "at {most} {fails} {limit}");
    }
    Ok(())
}

#[test]
fn reads_what_never_fails(rt: HostRuntime) -> Result<(), Fail> {
    let mut sure = SureSource::new(Vec::from_slice(rt.alloc(), TEXT)?);
    let mut reader = ReadSource::new(TEXT);
    let told = reads(rt.alloc(), &mut sure, 10, "abcdefghij")
        && reads(rt.alloc(), &mut reader, 10, "abcdefghij");
    assert!(rt; told);
    Ok(())
}

#[test]
fn writes_all_or_until_it_fails(rt: HostRuntime) -> Result<(), Fail> {
    // The room, the most bytes of a call, the call that fails, what is written of the text where it is short, what is
    // held then, and the same of `k`.
    for (room, most, fails, short, held, next_short) in [
        (10, 0, 0, None, "abcdefghij", Some(0)),
        (10, 3, 1, Some(0), "", None),
        (10, 3, 2, Some(3), "abc", None),
        (10, 3, 3, Some(6), "abcdef", None),
        (10, 3, 4, Some(9), "abcdefghi", None),
        (10, 3, 5, None, "abcdefghij", Some(0)),
        (7, 3, 9, Some(7), "abcdefg", Some(0)),
        (0, 3, 9, Some(0), "", Some(0)),
    ] {
        let fails = Vec::from_slice(rt.alloc(), &[fails])?;
        let mut sink = MemorySink::new(rt.alloc(), room, most, fails)?;
        let told = short_of(&mut sink, b"").is_none()
            && short_of(&mut sink, TEXT) == short
            && sink.bytes() == held.as_bytes()
            && short_of(&mut sink, b"k") == next_short;
        assert!(rt; told, "at {room} {most} {held}");
    }
    Ok(())
}

#[test]
fn counts_what_there_is_no_room_for(rt: HostRuntime) -> Result<(), Fail> {
    let mut sink = SureSink::new(rt.alloc(), 4)?;
    let told = short_of(&mut sink, TEXT).is_none()
        && sink.bytes() == b"abcd".as_slice()
        && sink.lost() == 6;
    assert!(rt; told);
    Ok(())
}

#[test]
fn writes_to_a_writer(rt: HostRuntime) {
    let mut kept = Vec::new(rt.alloc());
    let mut room = [0; 4];
    let told = short_of(&mut WriteSink::new(&mut kept), TEXT).is_none()
        && short_of(&mut WriteSink::new(room.as_mut_slice()), TEXT) == Some(4);
    assert!(rt; told && kept.as_slice() == TEXT);
    ShutGate.pass(MemberId(1), 1);
}

#[test]
fn meets_on_two_threads_alone(rt: HostRuntime) {
    const A: MemberId = MemberId(1);
    const B: MemberId = MemberId(2);
    // The passes of one thread: neither waits for long, and who comes first doesn't see the other.
    for passes in [
        [(A, 1), (A, 2), (A, 1)],
        [(A, 1), (B, 1), (A, 1)],
        [(B, 1), (A, 1), (B, 1)],
        [(B, 2), (MemberId(3), 1), (A, 1)],
    ] {
        let gate = MeetGate::new(A, B, 3);
        for (who, kind) in passes {
            gate.pass(who, kind);
        }
        assert!(rt; !gate.met(), "at {passes:?}");
    }
    let gate = MeetGate::new(A, B, 1_000_000_000);
    join(&rt, || gate.pass(A, 1), || gate.pass(B, 1));
    gate.pass(A, 1);
    assert!(rt; gate.met());
}
