//! Credit at its limits, and what is held back: lines of what the ends of a link do. Behind `=` stands what an end
//! tells then, if it tells a number: of a grant how much it is, of `blocked` 1 or 0.
use crate::*;
use ring_names::CreditSpec;
use std::process::Abort;
use std::test::Fail;

/// What a sender tells once it does what a word says.
fn send(sender: &mut CreditOut, word: &str) -> Option<u32> {
    let blocked = sender.blocked();
    match word {
        "send" if !blocked => sender.send(),
        "gain" => sender.gain(1),
        "peer_down" => sender.peer_down(),
        _ => return Some(blocked as u32),
    }
    None
}

/// What the ends tell once one of them does what a word says.
fn act(sender: &mut CreditOut, receiver: &mut CreditIn, word: &str) -> Option<u32> {
    match word {
        "took" => receiver.took(),
        "release" => Some(receiver.release()),
        "hold" => {
            receiver.hold();
            None
        }
        _ => send(sender, word),
    }
}

/// The ends of a new link do so many times what a line says, and tell what stands there.
fn play(rt: &impl Abort, spec: Option<CreditSpec>, times: u32, line: &str) -> Result<(), Fail> {
    let spec = spec.ok_or("no specification")?;
    let mut sender = CreditOut::new(spec);
    let mut receiver = CreditIn::new(spec);
    for time in 0..times {
        for word in line.split(' ') {
            let (done, wanted) = word.split_once('=').unwrap_or((word, ""));
            let told = act(&mut sender, &mut receiver, done);
            assert_eq!(rt;
                told,
                wanted.parse::<u32>().ok(),
                "at {word} of {line}, time {time}"
            );
        }
    }
    Ok(())
}

/// The initial credit and the further one, how many times the ends do what a line says, and the line: what is spent
/// and gained at credit 1, the grants at each so many loads, and what is held back.
const LINES: [(u32, u32, u32, &str); 5] = [
    (
        1,
        1,
        1,
        "blocked=0 send blocked=1 took=1 gain blocked=0 send peer_down blocked=0",
    ),
    (8, 4, 32, "took took took took=4"),
    (64, 1, 128, "took=1"),
    (
        64,
        64,
        2,
        "took took took took took took took took took took took took took took took took \
         took took took took took took took took took took took took took took took took \
         took took took took took took took took took took took took took took took took \
         took took took took took took took took took took took took took took took took=64",
    ),
    (
        8,
        4,
        1,
        "hold took took took took took took took took release=8 release=0 took took took took=4",
    ),
];

#[test]
fn plays_each_line(rt: HostRuntime) -> Result<(), Fail> {
    for (initial, more, times, line) in LINES {
        play(&rt, CreditSpec::new(initial, more), times, line)?;
    }
    Ok(())
}
