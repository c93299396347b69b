//! A link that has opened and hasn't reached the registrar yet.

use activity::Load;
use group_view::LinkName;
use ordered_link::RingIn;

/// The receiving end of a link, which waits behind those at the registrar until that one takes it.
#[derive(Drop)]
pub(crate) struct PendingDeposit {
    pub(crate) name: LinkName,
    pub(crate) link: RingIn<Load>,
}
