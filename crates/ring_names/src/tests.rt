//! The grammars at their limits, and each call that wants memory, with ample memory.
use crate::*;
use std::alloc::Global;
use std::process::Abort;
use std::test::Fail;

/// What is told of a text that is read as a name.
fn name_told(text: &str) -> &str {
    match Name::read(text.as_bytes()) {
        Ok(name) if name.bytes() == text.as_bytes() => "a name",
        Ok(_) => "another name",
        Err(NameFault::Empty) => "empty",
        Err(NameFault::TooLong) => "too long",
        Err(NameFault::BadByte { at: 1 }) => "bad byte 1",
        Err(NameFault::BadByte { at: 2 }) => "bad byte 2",
        Err(_) => "another fault",
    }
}

fn expect_name(rt: &impl Abort, text: &str, want: &str) {
    assert_eq!(rt; name_told(text), want, "at {text}");
}

#[test]
fn reads_names(rt: HostRuntime) {
    expect_name(&rt, "a", "a name");
    expect_name(&rt, "abcdefghijklmnop", "a name");
    expect_name(&rt, "m0", "a name");
    expect_name(&rt, "", "empty");
    expect_name(&rt, "abcdefghijklmnopq", "too long");
    expect_name(&rt, "aB!", "bad byte 1");
    expect_name(&rt, "ab{", "bad byte 2");
    expect_name(&rt, "a b", "bad byte 1");
}

/// A copy of its copy.
fn copy_of(body: Body) -> Result<Body, OutOfMemory> {
    body.copy()?.copy()
}

/// What is told of bytes that are read as a body, and copied.
fn body_told(alloc: Global, bytes: &[u8]) -> &str {
    match Body::read(alloc, bytes) {
        Ok(body) if body.bytes() == bytes => match copy_of(body) {
            Ok(copy) if copy.bytes() == bytes => "a body",
            _ => "another copy",
        },
        Ok(_) => "another body",
        Err(BodyFault::TooLong) => "too long",
        Err(BodyFault::BadByte { at: 0 }) => "bad byte 0",
        Err(BodyFault::BadByte { at: 1 }) => "bad byte 1",
        Err(_) => "another fault",
    }
}

fn expect_body(rt: &(impl Abort + AllocGlobal), bytes: &[u8], want: &str) {
    assert_eq!(rt; body_told(rt.alloc(), bytes), want);
}

#[test]
fn reads_and_copies_bodies(rt: HostRuntime) {
    let long = [b'x'; 257];
    expect_body(&rt, b"a ~1", "a body");
    expect_body(&rt, &long[..256], "a body");
    expect_body(&rt, &long, "too long");
    expect_body(&rt, b"a\n", "bad byte 1");
    expect_body(&rt, b"\x7f", "bad byte 0");
}

fn expect_credit(rt: &impl Abort, initial: u32, more: u32, want: bool) {
    assert!(rt;
        CreditSpec::new(initial, more).is_some() == want,
        "at {initial} {more}"
    );
}

#[test]
fn takes_credit_in_its_range(rt: HostRuntime) {
    expect_credit(&rt, 1, 1, true);
    expect_credit(&rt, 64, 64, true);
    expect_credit(&rt, 8, 4, true);
    expect_credit(&rt, 65, 1, false);
    expect_credit(&rt, 2, 3, false);
    expect_credit(&rt, 4, 0, false);
    expect_credit(&rt, 0, 0, false);
}

fn expect_code(rt: &impl Abort, reason: Reason, want: u32) {
    assert!(rt; reason.code() == want, "not {want}");
}

#[test]
fn numbers_its_refusals(rt: HostRuntime) {
    expect_code(&rt, Reason::UnknownMember, 6);
    expect_code(&rt, Reason::NotRetired { got: 3, retired: 2 }, 24);
    expect_code(&rt, Reason::NotRefused, 44);
}

#[test]
fn keeps_items_in_order(rt: HostRuntime) -> Result<(), Fail> {
    let items = Items::from_vec(vec![in rt.alloc(); 3u32, 1, 2]?);
    assert!(rt; matches!(items.as_slice(), [3, 1, 2]));
    assert!(rt; matches!(items.into_vec().as_slice(), [3, 1, 2]));
    Ok(())
}
