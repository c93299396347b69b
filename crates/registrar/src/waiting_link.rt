//! A link that waits.
ghost use Rattle.std.specs.Prelude.{◌≡◌};
ghost use Rattle.registrar.specs.Registry.{is_for};
ghost use Rattle.registrar.specs.Asked.{is_ring_from};

use group_view::{LinkKind, LinkName};
use ring_names::MemberId;

/// The receiving end of a link that stands at the registrar until its receiver collects it. The end itself
/// is away while it is lent.
#[derive(Drop, Debug)]
pub struct WaitingLink<I> {
    /// Which link it is.
    pub name: LinkName,
    /// Its receiving end, or None while that is lent.
    pub link: Option<I>,
}

impl<I> WaitingLink<I> {
    pub(crate) fn is_for(&self, by: MemberId) -> bool
        ensures { result ≡ is_for by.0 self.now }
    {
        self.name.to.0 == by.0
    }

    /// Whether it is a ring link from `dead` for `by`, opened at this version or later.
    pub(crate) fn is_ring_from(&self, dead: MemberId, by: MemberId, since: u32) -> bool
        ensures { result ≡ is_ring_from dead.0 by.0 since self.now }
    {
        matches!(self.name.kind, LinkKind::Ring)
            && self.name.from.0 == dead.0
            && self.name.to.0 == by.0
            && since <= self.name.view
    }
}
