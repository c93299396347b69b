//! Where a member stands, and how a link ends.
ghost use Rattle.std.specs.Prelude.{◌≡◌, true, false, Option, Some, OnOk, IfErr};
ghost use Rattle.ring_names.specs.declared.reason.Reason.{Reason};
ghost use Rattle.ring_names.specs.declared.reason.Reason.TheVariants as reason;
ghost use Rattle.ring_rules.specs.Refusal.{refuse_if, or_else};
ghost use Rattle.ring_rules.specs.Machine.{runs_phase, is_waiting as waiting_is};
ghost use Rattle.ring_rules.specs.Event.{is_stopped as stopped_is};

use ring_names::Reason;

/// A member waits for its first packet, or is up, or has stopped.
#[derive(Clone, Copy, PartialEq, Eq, Debug)]
pub enum Phase {
    /// It was admitted, and has no state yet.
    Waiting,
    /// It takes part.
    Up,
    /// It does nothing any more.
    Stopped,
}

/// Why a link ends: its sender sends on another, or has stopped.
#[derive(Clone, Copy, PartialEq, Eq, Debug)]
pub enum Ending {
    /// Its sender sends on another.
    Moved,
    /// Its sender has stopped.
    Halted,
}

impl Phase {
    /// Whether a member has stopped: it acts no more, and its links end.
    pub fn is_stopped(self) -> bool
        ensures { result ≡ stopped_is self }
    {
        matches!(self, Phase::Stopped)
    }

    /// Whether a member runs: it is up, or waits for its first packet.
    pub fn is_running(self) -> bool
        ensures { result ≡ runs_phase self }
    {
        matches!(self, Phase::Waiting | Phase::Up)
    }

    /// Whether a member acts, with the refusal of one that has stopped.
    pub fn runs(self) -> Result<(), Reason>
        ensures ok { OnOk result (stopped_is self ≡ false) }
        ensures runs { OnOk result (runs_phase self ≡ true) }
        ensures err { IfErr result (λ r. (later : Option Reason)
            → or_else (refuse_if (stopped_is self) reason.Stopped) later ≡ Some r) }
    {
        match self {
            Phase::Stopped => Err(Reason::Stopped),
            Phase::Waiting | Phase::Up => Ok(()),
        }
    }

    /// Whether a member acts and doesn't wait, with the refusal of one that has stopped or waits.
    pub fn is_up(self) -> Result<(), Reason>
        ensures up { OnOk result (self ≡ Phase.Up) }
        ensures err { IfErr result (λ r. (later : Option Reason)
            → or_else (refuse_if (stopped_is self) reason.Stopped)
            (or_else (refuse_if (waiting_is self) reason.Waiting) later) ≡ Some r) }
    {
        match self {
            Phase::Stopped => Err(Reason::Stopped),
            Phase::Waiting => Err(Reason::Waiting),
            Phase::Up => Ok(()),
        }
    }
}
