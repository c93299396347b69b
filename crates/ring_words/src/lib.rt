//! The words of the program's command line, read with `clap`. Begin at `read_words`, and at specs/Words.antt for the
//! command that it reads them by.
#![tactic(auto)]

mod asked;
mod command;
#[cfg(test)]
mod tests;

pub use asked::{Asked, read_words};
