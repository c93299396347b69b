//! Why a call of a member is not done.
ghost use Rattle.std.specs.Prelude.{◌≡◌};
ghost use Rattle.gm_member.specs.declared.fault.MemberFault.TheVariants as faults;
ghost use Rattle.gm_member.specs.Faults.{refused_as};

use ring_names::{OutOfMemory, Reason};
use ring_rules::Refused;

/// Why a call of a member is not done. The member is then as before.
#[derive(Clone, Copy, PartialEq, Eq, Debug)]
pub enum MemberFault {
    /// The first condition of the step that fails.
    Refused(Reason),
    /// Memory was wanted and not found.
    OutOfMemory,
}

impl From<Reason> for MemberFault {
    ghost from_gives = { λ reason fault. fault ≡ faults.Refused reason };

    fn from(reason: Reason) -> MemberFault {
        MemberFault::Refused(reason)
    }
}

impl From<OutOfMemory> for MemberFault {
    ghost from_gives = { λ _ fault. fault ≡ faults.OutOfMemory };

    fn from(_error: OutOfMemory) -> MemberFault {
        MemberFault::OutOfMemory
    }
}

impl From<MemberFault> for Refused {
    ghost from_gives = { λ fault refused. refused ≡ refused_as fault };

    fn from(fault: MemberFault) -> Refused {
        match fault {
            MemberFault::Refused(reason) => Refused::NotEnabled(reason),
            MemberFault::OutOfMemory => Refused::OutOfMemory,
        }
    }
}
