//! The laws of a round: what members do in it side by side is a run of the ring. Parties that stand in a state begin
//! it as its members, and stand in the last state once it is closed.
ghost use Rattle.std.specs.Prelude.{ℕ, List, ◌++◌, [], ◌<◌, ◌^◌, length};
ghost use Rattle.ring_names.specs.declared.numbers.CreditSpec.{CreditSpec};
ghost use Rattle.group_view.specs.Change.{AreOpeningNames};
ghost use Rattle.lamport_merge.specs.Merge.{Log, merged, AreLogs};
ghost use Rattle.ring_rules.specs.declared.event.Event.{Event};
ghost use Rattle.ring_rules.specs.Machine.{World};
ghost use Rattle.ring_rules.specs.Step.{opening};
ghost use Rattle.ring_rules.specs.Event.{IsRun, last};
ghost use Rattle.ring_parties.specs.Parties.{Keeps, Parties};
ghost use Rattle.ring_parties.specs.Keeps.{KeepsStand};
ghost use Rattle.ring_parties.specs.States.{state};
ghost use Rattle.ring_parties.specs.Standing.{Places, Stand, StandAfter};
ghost use Rattle.ring_parties.specs.Seated.{IsSeated, seated};
ghost use Rattle.ring_parties.specs.Closed.{TookTurnsByEnds, HasClosed};
ghost use Rattle.ring_parties.specs.Round.{Deed, Configuration, IsIn, SameLinks, TookTurns, events_in, configuration_of};

/// Whatever members do in a round by themselves, side by side, the merge of their logs goes on as a run of the
/// ring, and they are then those of its last state, with what each link holds and what is under way on its way
/// back. No link opens in it.
pub fn a_round_is_a_run()
    ensures { (credit : CreditSpec) (names : List (List ℕ)) (before : List Event) (post : List ℕ) (logs : List (Log Deed))
        (a b : Configuration) → AreOpeningNames names → IsRun (opening credit names) before
        → IsIn (last (opening credit names) before) post a → AreLogs logs
        → TookTurns (last (opening credit names) before) logs a b
        → IsRun (opening credit names) (before ++ events_in (merged logs))
        × IsIn (last (opening credit names) (before ++ events_in (merged logs))) post b
        × SameLinks (last (opening credit names) before) (last (opening credit names) (before ++ events_in (merged logs))) }
{}

/// In every state of the ring there are such members, with what each link holds.
pub fn every_state_has_its_members()
    ensures { (w : World) → IsIn w [] (configuration_of w) }
{}

/// Parties that stand in a state are its members, on links that hold what their ends know.
pub fn parties_are_in_their_state()
    ensures { (initial : ℕ) (w : World) (q : Parties) (ks : List Keeps) (h : Stand initial w q) (a : Configuration)
        → KeepsStand w ks → IsSeated w h.places q ks a → IsIn w h.places.deposits a }
{}

/// Where their members take turns in a round and it is closed, parties that stood after a journal stand after it with
/// the merge of their logs, and keep of the queue what their members have there.
pub fn parties_stand_after_a_round()
    ensures { (credit : CreditSpec) (names : List (List ℕ)) (before : List Event) (q q' : Parties) (ks ks' : List Keeps)
        (logs : List (Log Deed)) (a b : Configuration) (p' : Places) (h : StandAfter credit names before q)
        → KeepsStand (state credit names before) ks → IsSeated (state credit names before) h.stand.places q ks a
        → AreLogs logs → TookTurnsByEnds (state credit names before) logs a b
        → length (before ++ events_in (merged logs)) < 2 ^ 59
        → HasClosed (state credit names before) q h.stand.places logs b q' ks' p'
        → StandAfter credit names (before ++ events_in (merged logs)) q'
        × KeepsStand (state credit names (before ++ events_in (merged logs))) ks' }
{}

/// Where nobody does anything in a round, it is closed from the beginning.
pub fn an_empty_round_is_closed()
    ensures { (initial : ℕ) (w : World) (q : Parties) (ks : List Keeps) (h : Stand initial w q) → KeepsStand w ks
        → IsSeated w h.places q ks (seated w h.places q ks)
        × TookTurnsByEnds w [] (seated w h.places q ks) (seated w h.places q ks)
        × HasClosed w q h.places [] (seated w h.places q ks) q ks h.places }
{}
