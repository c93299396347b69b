//! Journals: the events of a run as text, each on a line of its own, in JSON. Begin at `check` and at `write_journal`.
//!
//! The first line has the credit of the links and the members, as `{"credit":[8,4],"members":["a","b"],"v":1}`. Each
//! further line is an array of an event's word, as ring_script has it, and its arguments: names and bodies as texts,
//! positions, versions and the numbers of refusals as numbers. So there are `["cast","a","hi"]`, `["ack","a",1]`,
//! `["refresh","a",2]`, and `["refuse",28,"get","a"]` for what a client asked of a member that can't be done. What is JSON,
//! and which value a line is, serde_json says: spaces, and escapes in texts, are free.
#![tactic(auto)]

mod event;
mod fault;
mod fields;
mod header;
mod judging;
mod laws;
mod line;
#[cfg(test)]
mod tests;
mod verdict;
mod write;

pub use fault::Kind;
pub use judging::check;
pub use laws::{a_legal_journal_is_a_run, a_run_is_within, each_text_has_one_verdict};
pub use verdict::Verdict;
pub use write::write_journal;
