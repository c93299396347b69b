//! Words, and what they ask for.
use crate::{Asked, read_words};
use std::test::Fail;

/// Words apart by spaces, and what is wanted.
const ROWS: [(&str, Option<Asked>); 30] = [
    ("play", Some(Asked::Play { journal: false })),
    ("play --journal", Some(Asked::Play { journal: true })),
    ("step", Some(Asked::Step { journal: false })),
    ("step --journal", Some(Asked::Step { journal: true })),
    ("check", Some(Asked::Check)),
    ("play --", Some(Asked::Play { journal: false })),
    (
        "load 3000 7",
        Some(Asked::Load {
            blocks: 3000,
            seed: 7,
        }),
    ),
    ("load 2 0", Some(Asked::Load { blocks: 2, seed: 0 })),
    (
        "load 3900 1000000",
        Some(Asked::Load {
            blocks: 3900,
            seed: 1000000,
        }),
    ),
    ("load +5 007", Some(Asked::Load { blocks: 5, seed: 7 })),
    ("load -- 5 -0", Some(Asked::Load { blocks: 5, seed: 0 })),
    ("", None),
    ("fly", None),
    ("play x", None),
    ("check --journal", None),
    ("play --journal --journal", None),
    ("play --help", None),
    ("play --journal=true", None),
    ("play --jour", None),
    ("-- play", None),
    ("load", None),
    ("load 5", None),
    ("load 1 7", None),
    ("load 3901 7", None),
    ("load 5 x", None),
    ("load 5 1000001", None),
    ("load 5 7 7", None),
    ("load --journal 5 7", None),
    ("load 5 -0", None),
    ("load -- -5 7", None),
];

#[test]
fn reads_each_row(rt: HostRuntime) -> Result<(), Fail> {
    let alloc = rt.alloc();
    for (line, wanted) in ROWS {
        let mut words = Vec::new(alloc);
        for word in line.split(' ') {
            if !word.is_empty() {
                words.push(word)?;
            }
        }
        assert_eq!(rt; read_words(alloc, words.as_slice())?, wanted, "at {line}");
    }
    Ok(())
}
