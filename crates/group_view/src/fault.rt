//! Why a change of a view is not made.
ghost use Rattle.std.specs.Prelude.{◌≡◌};
ghost use Rattle.group_view.specs.declared.fault.ViewFault.TheVariants as faults;

use ring_names::{OutOfMemory, Reason};

/// Why a change of a view is not made. The view is then as before.
#[derive(Clone, Copy, PartialEq, Eq, Debug)]
pub enum ViewFault {
    /// The first condition of the change that fails.
    Refused(Reason),
    /// Memory was wanted and not found.
    OutOfMemory,
}

impl From<Reason> for ViewFault {
    ghost from_gives = { λ reason fault. fault ≡ faults.Refused reason };

    fn from(reason: Reason) -> ViewFault {
        ViewFault::Refused(reason)
    }
}

impl From<OutOfMemory> for ViewFault {
    ghost from_gives = { λ _ fault. fault ≡ faults.OutOfMemory };

    fn from(_error: OutOfMemory) -> ViewFault {
        ViewFault::OutOfMemory
    }
}
