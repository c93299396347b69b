//! A store of a publisher's messages: lines of what is done with it. Behind `=` stands what it tells then: its two
//! numbers, or the messages that are asked for.
use crate::Store;
use queue_core::Message;
use ring_names::{Body, OutOfMemory};
use std::alloc::Global;
use std::str::from_utf8;
use std::test::Fail;

/// The body of a message joins a text.
fn push_body(text: &mut String, message: &Message) -> Result<(), Fail> {
    let Message::Cast(body) = message else {
        return Err(Fail::new("no cast"));
    };
    if !text.is_empty() {
        text.push(' ')?;
    }
    text.push_str(from_utf8(body.bytes()).map_err(|_| "no text")?)?;
    Ok(())
}

/// A message joins the store, which reserves room for it where there is none.
fn push(store: &mut Store<Message>, message: Message) -> Result<(), OutOfMemory> {
    if store.spare() == 0 {
        store.reserve(1)?;
    }
    if store.got() < 1 << 63 {
        store.push(message);
    }
    Ok(())
}

/// The store forgets, where it may.
fn forget(store: &mut Store<Message>, to: u64) {
    if store.forgot() <= to && to <= store.got() {
        store.forget_to(to);
    }
}

/// The messages between two numbers, as they are copied, where the store keeps them.
fn copied(alloc: Global, store: &Store<Message>, from: u64, to: u64) -> Result<String, Fail> {
    let mut text = String::new(alloc);
    if store.forgot() <= from && from <= to && to <= store.got() {
        for message in &store.slice(from, to)? {
            push_body(&mut text, message)?;
        }
    }
    Ok(text)
}

/// The message of a number, where the store keeps it.
fn message(alloc: Global, store: &Store<Message>, number: u64) -> Result<String, Fail> {
    let mut text = String::new(alloc);
    if store.forgot() < number && number <= store.got() {
        push_body(&mut text, store.message(number))?;
    }
    Ok(text)
}

/// What the store tells once what a word and its argument say is done.
fn told(alloc: Global, store: &mut Store<Message>, word: &str, of: &str) -> Result<String, Fail> {
    match word {
        "push" => push(store, Message::Cast(Body::read(alloc, of.as_bytes())?))?,
        "forget" => forget(store, of.parse()?),
        "message" => return message(alloc, store, of.parse()?),
        _ => {
            let (from, to) = of.split_once(' ').ok_or("no two numbers")?;
            return copied(alloc, store, from.parse()?, to.parse()?);
        }
    }
    Ok(format!(in alloc; "{} {}", store.forgot(), store.got())?)
}

const LINES: &str = "push one=5 6
push two=5 7
push three=5 8
slice 5 8=one two three
slice 6 7=two
slice 7 7=
message 6=one
forget 6=6 8
forget 6=6 8
message 8=three
push four=6 9
slice 6 9=two three four
slice 7 9=three four
forget 9=9 9
push five=9 10
message 10=five";

#[test]
fn plays_each_line(rt: HostRuntime) -> Result<(), Fail> {
    let mut store = Store::starting(rt.alloc(), 5);
    for line in LINES.lines() {
        let (done, wanted) = line.split_once('=').ok_or("nothing wanted")?;
        let (word, of) = done.split_once(' ').ok_or("no argument")?;
        let text = told(rt.alloc(), &mut store, word, of)?;
        assert_eq!(rt; text.as_str(), wanted, "at {line}");
    }
    Ok(())
}
