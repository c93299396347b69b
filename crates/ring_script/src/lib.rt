//! Scripts and step files. A script has what its clients ask of the members of a ring, and when the ring works
//! and settles; a step file has single events of its members. Begin at `Word`, at `Command` and at `read_steps`.
#![tactic(auto)]

mod arguments;
mod command;
mod fault;
mod line;
mod load;
mod phrase;
mod reader;
mod script;
mod statement;
mod steps;
#[cfg(test)]
mod tests;
mod text;
mod vocabulary;
mod words;

pub use arguments::further_name;
pub use command::Command;
pub use fault::{Kind, ScriptFault};
pub use load::load_script;
pub use script::{Script, read_script};
pub use steps::{Steps, read_steps};
pub use text::{Text, line_count, next_line};
pub use vocabulary::{Further, MOST_CODE, MOST_POSITION, MOST_VERSION, Phrase, Shape, Word};
pub use words::{Words, number};
