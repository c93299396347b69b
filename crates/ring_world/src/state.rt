//! The parts of the machine.
use crate::plain_link::PlainLink;
use crate::plain_member::PlainMember;
use group_view::View;
use ring_names::CreditSpec;

/// The members by id, of which the one at place 0 has id 1; the links in order of opening; the views by
/// version, of which the one at place 0 has version 1; and the credit with which each link opens.
#[derive(Drop)]
pub struct Ring {
    pub(crate) members: Vec<PlainMember>,
    pub(crate) links: Vec<PlainLink>,
    pub(crate) views: Vec<View>,
    pub(crate) credit: CreditSpec,
}
