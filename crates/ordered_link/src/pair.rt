//! Making a pair.
ghost use Rattle.std.specs.Prelude.{IfOk};
ghost use Rattle.ordered_link.specs.RingSteps.{IsFreshRingPair};
ghost use Rattle.ordered_link.specs.Steps.{ArePlainEnds, IsFreshPair};

use crate::ends::LinkPair;
use crate::plain::{PlainIn, PlainOut};
use crate::ring::{RingIn, RingOut};
use ring_names::{CreditSpec, OutOfMemory};
use std::alloc::Global;

/// A plain pair with `initial` slots for loads and one for `End`, whose way back has `initial` slots for
/// grants. It has met. All memory that it will use is taken here.
pub fn plain_pair<T: Drop>(
    alloc: Global,
    spec: CreditSpec,
) -> Result<(PlainOut<T>, PlainIn<T>), OutOfMemory>
    ensures ends { IfOk result (λ r. ArePlainEnds r.0 r.1) }
    ensures fresh { IfOk result (λ r. IsFreshPair spec.initial r.0 r.1) }
{
    PlainOut::pair(alloc, spec)
}

/// A ring pair with `initial` slots for loads and one for `End`, whose way back has `initial` slots for
/// grants. It has met. All memory that it will use is taken here.
pub fn ring_pair<T: Drop>(
    alloc: Global,
    spec: CreditSpec,
) -> Result<(RingOut<T>, RingIn<T>), OutOfMemory>
    ensures { IfOk result (λ r. IsFreshRingPair spec.initial r.0 r.1) }
{
    RingOut::pair(alloc, spec)
}
