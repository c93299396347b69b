//! The names of links.
use ring_names::MemberId;

/// What a link is for.
#[derive(Clone, Copy, PartialEq, Eq, Debug)]
pub enum LinkKind {
    /// It carries the group's packets from a member to its right neighbour.
    Ring,
    /// It carries a copy of the queue from the master to a member that lacks it.
    Copy,
}

/// A link by its sender, its receiver, the sender's version when it was opened, and its kind. No two
/// links of a run have one name.
#[derive(Clone, Copy, PartialEq, Eq, Debug)]
pub struct LinkName {
    /// Who sends on it.
    pub from: MemberId,
    /// Who receives from it.
    pub to: MemberId,
    /// The version of the view that its sender had when it was opened.
    pub view: u32,
    /// What it is for.
    pub kind: LinkKind,
}
