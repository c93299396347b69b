//! A book of a publisher's messages: lines of what is done with it. Behind `=` stands what it tells then: where
//! messages come round, the casts and publishes that are newly confirmed; then of casts, and of publishes, how many
//! there are and how many of them are confirmed.
ghost use Rattle.std.specs.Prelude.{◌≡◌};
ghost use Rattle.confirm_book.specs.Book.{last_of};

use crate::*;
use ring_names::OutOfMemory;
use std::alloc::Global;
use std::test::Fail;

/// A book, and the number of the last message in it.
#[derive(Drop)]
struct Publisher {
    book: Book,
    last: u64,
    ghost same: { last_of book ≡ last },
}

/// The publisher's next message, of this kind; room is asked for again where an allocation failed.
fn publish(publisher: &mut Publisher, kind: Kind) -> Result<(), OutOfMemory> {
    if publisher.book.reserve().is_err() {
        publisher.book.reserve()?;
    }
    if publisher.last < u64::MAX {
        publisher.book.published(publisher.last + 1, kind);
        publisher.last += 1;
    }
    Ok(())
}

/// The messages up to a number come round, if there are so many.
fn come_round(publisher: &mut Publisher, to: u64) -> Option<(u64, u64)> {
    if to > publisher.last {
        return None;
    }
    Some(publisher.book.came_round(to))
}

/// What a book tells once what a word and its argument say is done.
fn told(alloc: Global, publisher: &mut Publisher, word: &str, of: &str) -> Result<String, Fail> {
    let mut text = String::new(alloc);
    match word {
        "cast" => publish(publisher, Kind::Cast)?,
        "publish" => publish(publisher, Kind::Publish)?,
        "other" => publish(publisher, Kind::Other)?,
        _ => {
            let (casts, publishes) = come_round(publisher, of.parse()?).ok_or("not published")?;
            text = format!(in alloc; "{casts} {publishes}, ")?;
        }
    }
    let totals = publisher.book.totals();
    write!(text, "{} {}, ", totals.casts, totals.casts_confirmed)?;
    write!(text, "{} {}", totals.publishes, totals.publishes_confirmed)?;
    Ok(text)
}

const LINES: &str = "round 0=0 0, 0 0, 0 0
cast=1 0, 0 0
publish=1 0, 1 0
other=1 0, 1 0
cast=2 0, 1 0
round 2=1 1, 2 1, 1 1
round 2=0 0, 2 1, 1 1
round 1=0 0, 2 1, 1 1
round 3=0 0, 2 1, 1 1
publish=2 1, 2 1
publish=2 1, 3 1
round 6=1 2, 2 2, 3 3
cast=3 2, 3 3
other=3 2, 3 3
cast=4 2, 3 3
publish=4 2, 4 3
cast=5 2, 4 3
round 8=1 0, 5 3, 4 3
cast=6 3, 4 3
round 12=3 1, 6 6, 4 4
round 0=0 0, 6 6, 4 4";

#[test]
fn plays_each_line(rt: HostRuntime) -> Result<(), Fail> {
    let mut publisher = Publisher {
        book: Book::new(rt.alloc()),
        last: 0,
    };
    for line in LINES.lines() {
        let (done, wanted) = line.split_once('=').ok_or("nothing wanted")?;
        let (word, of) = done.split_once(' ').unwrap_or((done, ""));
        let text = told(rt.alloc(), &mut publisher, word, of)?;
        assert_eq!(rt; text.as_str(), wanted, "at {line}");
    }
    Ok(())
}
