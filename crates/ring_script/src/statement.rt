//! What the lines of a text say behind those that open the ring.
ghost use Rattle.std.specs.Prelude.{◌≡◌, ℕ, List, true, IfOk};
ghost use Rattle.std.specs.List.{list_all};
ghost use Rattle.std.specs.Option.{option_to_list};
ghost use Rattle.ring_script.specs.Words.{is_text_byte};
ghost use Rattle.ring_script.specs.Place.{left_in};
ghost use Rattle.ring_script.specs.Fault.{Tells};
ghost use Rattle.ring_script.specs.Line.{Grammar};

use crate::fault::LineFault;
use crate::words::Words;
use ring_names::Name;
use std::alloc::Global;

/// What a line says that neither names the members nor gives a credit: a command of a script, or an event of
/// a step file.
pub(crate) trait Statement: Drop {
    /// What is wrong with such a line, and which name it has join.
    ghost grammar: { Grammar };

    /// What it says, by its first word and its rest.
    ghost says: { List ℕ → List ℕ → Self };

    /// Reads such a line, of which the first word was read, behind the lines that make these names known.
    fn read(alloc: Global, known: &[Name], word: &[u8], rest: Words) -> Result<Self, LineFault>
        requires text { list_all is_text_byte (left_in rest) ≡ true }
        ensures fault { Tells (grammar.fault known.now word.now (left_in rest.entry)) result }
        ensures said { IfOk result (λ statement. statement ≡ says word.now (left_in rest.entry)) };

    /// The name that it has join, which further lines may then use.
    fn joined(&self) -> Option<Name>
        ensures { (word rest : List ℕ) → self.now ≡ says word rest
            → option_to_list result ≡ grammar.joins word rest };
}
