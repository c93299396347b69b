//! Changes of the group `a b c`, row by row, and behind `=` the view that each leaves, or why it is refused. `mark 2`,
//! `erase 2` and `sync 2` tell the id, `admit 1 d` the admitter's id and the name. A view is its version and then of each entry,
//! in ring order, its id, its mark, the version of its admission and that of its left neighbour. A change is made
//! again where an allocation failed.
use super::{name, opened};
use crate::*;
use ring_names::{MemberId, Name};
use std::alloc::Global;
use std::process::Abort;
use std::test::Fail;

/// Who comes stands between its admitter and the one that was to its right, and an erased one keeps its name.
const ONE_COMES_AND_GOES: &str = "\
erase 1 = refused 8
admit 2 d = 2: 1 Live 1 1, 2 Live 1 1, 4 Live 2 2, 3 Live 1 2
erase 4 = refused 8
mark 4 = 3: 1 Live 1 1, 2 Live 1 1, 4 Dead 2 2, 3 Live 1 3
mark 4 = refused 7
admit 4 e = refused 7
erase 4 = 4: 1 Live 1 1, 2 Live 1 1, 4 Erased 2 2, 3 Live 1 3
erase 4 = refused 8
mark 4 = refused 7
admit 4 e = refused 7
admit 3 d = refused 9
admit 3 a = refused 9
admit 9 e = refused 6
erase 9 = refused 6
admit 3 e = 5: 1 Live 1 5, 2 Live 1 1, 4 Erased 2 2, 3 Live 1 3, 5 Live 5 5";

/// Whoever came is registered as synchronised once, while it lives; nobody's neighbour changes by it.
const ONE_IS_REGISTERED: &str = "\
sync 1 = refused 11
sync 9 = refused 6
admit 2 d = 2: 1 Live 1 1, 2 Live 1 1, 4 Live 2 2, 3 Live 1 2
admit 4 e = 3: 1 Live 1 1, 2 Live 1 1, 4 Live 2 2, 5 Live 3 3, 3 Live 1 3
sync 4 = 4: 1 Live 1 1, 2 Live 1 1, 4 Live 2 2, 5 Live 3 3, 3 Live 1 3
sync 4 = refused 11
mark 4 = 5: 1 Live 1 1, 2 Live 1 1, 4 Dead 2 2, 5 Live 3 5, 3 Live 1 3
sync 4 = refused 7
mark 5 = 6: 1 Live 1 1, 2 Live 1 1, 4 Dead 2 2, 5 Dead 3 5, 3 Live 1 6
sync 5 = refused 7
erase 5 = 7: 1 Live 1 1, 2 Live 1 1, 4 Dead 2 2, 5 Erased 3 5, 3 Live 1 6
sync 5 = refused 7";

/// Whoever is left alone is its own neighbour until it admits one.
const THE_LAST_ONE_ADMITS: &str = "\
mark 1 = 2: 1 Dead 1 1, 2 Live 1 2, 3 Live 1 1
mark 2 = 3: 1 Dead 1 1, 2 Dead 1 2, 3 Live 1 3
erase 1 = 4: 1 Erased 1 1, 2 Dead 1 2, 3 Live 1 3
admit 3 d = 5: 1 Erased 1 5, 2 Dead 1 5, 3 Live 1 5, 4 Live 5 5
admit 3 e = 6: 1 Erased 1 5, 2 Dead 1 5, 3 Live 1 5, 5 Live 6 6, 4 Live 5 6
mark 3 = 7: 1 Erased 1 5, 2 Dead 1 5, 3 Dead 1 5, 5 Live 6 7, 4 Live 5 6";

/// The view as a row has it.
fn shown(alloc: Global, view: &View) -> Result<String, Fail> {
    let mut text = format!(in alloc; "{}:", view.version)?;
    let mut comma = "";
    for entry in view.entries.as_slice() {
        let Entry {
            id,
            mark,
            joined,
            since,
            ..
        } = entry;
        text = format!(in alloc; "{text}{comma} {} {mark:?} {joined} {since}", id.0)?;
        comma = ",";
    }
    Ok(text)
}

/// A change is made, and whether whoever is admitted is found by its name, whoever is erased as erased, and whoever is
/// registered as synchronised.
fn change(view: &mut View, verb: &str, id: MemberId, new: Option<Name>) -> Result<bool, ViewFault> {
    match (verb, new) {
        ("admit", Some(new)) => {
            let admitted = view.admit(id, new)?;
            Ok(view.find(&new) == Some(admitted))
        }
        ("erase", _) => {
            view.erase(id)?;
            Ok(view.is_erased(id))
        }
        ("sync", _) => {
            view.mark_synced(id)?;
            Ok(view.is_synced(id))
        }
        _ => {
            view.mark_dead(id)?;
            Ok(true)
        }
    }
}

/// What becomes of a change that is asked so.
fn answer_to(alloc: Global, view: &mut View, asked: &str) -> Result<String, Fail> {
    let mut words = asked.split_whitespace();
    let verb = words.next().unwrap_or("");
    let id = MemberId(words.next().unwrap_or("").parse::<u32>().unwrap_or(0));
    let new = match words.next() {
        Some(text) => Some(name(text)?),
        None => None,
    };
    let answer = match change(view, verb, id, new) {
        Err(ViewFault::OutOfMemory) => change(view, verb, id, new),
        answer => answer,
    };
    match answer {
        Ok(true) => shown(alloc, view),
        Ok(false) => Err(Fail::new("not as it was asked")),
        Err(ViewFault::Refused(reason)) => Ok(format!(in alloc; "refused {}", reason.code())?),
        Err(ViewFault::OutOfMemory) => Err(Fail::new("no memory")),
    }
}

/// Each row leaves what it tells.
fn expect_rows(rt: &impl Abort, alloc: Global, rows: &str) -> Result<(), Fail> {
    let mut view = opened(alloc, "a b c")?;
    for row in rows.lines() {
        let (asked, wanted) = row.split_once(" = ").unwrap_or((row, ""));
        let answer = answer_to(alloc, &mut view, asked)?;
        assert_eq!(rt; answer.as_str(), wanted, "at {asked}");
    }
    Ok(())
}

#[test]
fn one_comes_and_goes(rt: HostRuntime) -> Result<(), Fail> {
    expect_rows(&rt, rt.alloc(), ONE_COMES_AND_GOES)
}

#[test]
fn one_is_registered(rt: HostRuntime) -> Result<(), Fail> {
    expect_rows(&rt, rt.alloc(), ONE_IS_REGISTERED)
}

#[test]
fn the_last_one_admits(rt: HostRuntime) -> Result<(), Fail> {
    expect_rows(&rt, rt.alloc(), THE_LAST_ONE_ADMITS)
}

/// 63 are admitted one after another, and no more.
#[test]
fn a_view_has_64_entries(rt: HostRuntime) -> Result<(), Fail> {
    let mut view = opened(rt.alloc(), "a")?;
    for place in 2..66 {
        let asked = format!(in rt.alloc(); "admit 1 m{place}")?;
        let answer = answer_to(rt.alloc(), &mut view, &asked)?;
        assert_eq!(rt; answer.as_str() == "refused 10", place == 65, "at {place}");
    }
    assert!(rt; view.version == 64 && view.next_id == 65);
    Ok(())
}
