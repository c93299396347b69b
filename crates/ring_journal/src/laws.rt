//! What journals promise, whatever their bytes.
ghost use Rattle.std.specs.Prelude.{◌≡◌, ℕ, List, All};
ghost use Rattle.ring_names.specs.declared.numbers.CreditSpec.{CreditSpec};
ghost use Rattle.group_view.specs.Change.{AreOpeningNames};
ghost use Rattle.ring_rules.specs.declared.event.Event.{Event};
ghost use Rattle.ring_rules.specs.Step.{opening};
ghost use Rattle.ring_rules.specs.Event.{IsRun};
ghost use Rattle.ring_world.specs.Reached.{WorldSeen};
ghost use Rattle.ring_journal.specs.declared.verdict.Verdict.{Verdict};
ghost use Rattle.ring_journal.specs.declared.verdict.Verdict.TheVariants.{Legal};
ghost use Rattle.ring_journal.specs.Text.{IsVerdictOf};
ghost use Rattle.ring_journal.specs.Laws.{IsOfRun};
ghost use Rattle.ring_script.specs.Vocabulary.{HasNameablePositions};
ghost use Rattle.ring_journal.specs.Written.{IsWithin};

use ring_copies::{
    a_ring_settles_beside_copies, every_number_is_bounded_with_copies,
    every_queue_is_right_with_copies, every_state_is_lawful_with_copies,
    later_masters_start_first_with_copies, nothing_falls_with_copies,
};
use ring_rules::every_number_is_bounded;

/// A journal is legal only where its events are a run of the ring, and then its world is the state that they leave: in
/// it every law of every run holds, of the ring, its queue and the copies of that, and from each earlier state on nothing
/// has fallen.
pub fn a_legal_journal_is_a_run()
    ensures { (bytes : List ℕ) (w : WorldSeen) (events : List Event) → IsVerdictOf bytes (Legal w events) → IsOfRun w events }
{
    every_state_is_lawful_with_copies();
    nothing_falls_with_copies();
    every_queue_is_right_with_copies();
    later_masters_start_first_with_copies();
    a_ring_settles_beside_copies();
    every_number_is_bounded_with_copies();
}

/// Each text has a verdict, and one alone.
pub fn each_text_has_one_verdict()
    ensures some { (bytes : List ℕ) → (verdict : Verdict) × IsVerdictOf bytes verdict }
    ensures one { (bytes : List ℕ) (verdict other : Verdict) → IsVerdictOf bytes verdict → IsVerdictOf bytes other
        → verdict ≡ other }
{}

/// The numbers of a run are within a journal's limits where its positions are: versions and numbers of refusals always
/// are.
pub fn a_run_is_within()
    ensures { (credit : CreditSpec) (names : List (List ℕ)) (events : List Event)
        → AreOpeningNames names → IsRun (opening credit names) events
        → All HasNameablePositions events → All IsWithin events }
{
    every_number_is_bounded();
}
