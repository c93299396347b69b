//! The parties of a cluster.
ghost use Rattle.std.specs.Prelude.{◌≡◌, ◌-◌, ◌<◌, ◌≤◌, ◌↔◌, ◌∷◌, ◌++◌, IsSome, IfSome, IfOk};
ghost use Rattle.std.specs.Prelude.{length, map, slice_index_or};
ghost use Rattle.confirm_book.specs.Book.{without_room};
ghost use Rattle.ring_parties.specs.Parties.{shown_of, shown_in, no_shown, keeps_in, node_at, names_shown};
ghost use Rattle.ring_parties.specs.Keeps.{keeps_at};
ghost use Rattle.ring_parties.specs.Acting.{newest_of};

use crate::node::Node;
use crate::party::Party;
use crate::pending_deposit::PendingDeposit;
use activity::Load;
use confirm_book::Book;
use group_view::View;
use ordered_link::RingIn;
use queue_mirror::Mirror;
use registrar::Registrar;
use ring_names::{MemberId, Name, OutOfMemory};
use std::alloc::Global;
use std::marker::Model;

/// The members of a ring over ring pairs, the registrar, and the link that hasn't reached it yet, where there is
/// one.
#[derive(Drop)]
pub struct Parties {
    pub(crate) members: Vec<Party>,
    pub(crate) registrar: Registrar<RingIn<Load>>,
    pub(crate) pending_deposit: Option<PendingDeposit>,
}

impl Model for Parties {
    ghost use Rattle.ring_parties.specs.Parties.{PartiesSeen};

    ghost Value = { PartiesSeen };

    ghost use Rattle.ring_parties.specs.Gathered.{gathered};

    ghost view = { gathered };
}

impl Parties {
    /// The member of that id, where there is one.
    pub fn member(&self, id: MemberId) -> Option<&Node>
        ensures there { IsSome result ↔ ((1 ≤ id.0) × (id.0 ≤ length (self.now).all.nodes)) }
        ensures shown { IfSome result (λ m. shown_of m.now ≡ node_at (self.now).all (id.0 - 1)) }
    {
        let party = party_of(&self.members, id)?;
        Some(&party.node)
    }

    /// The mirror of the member of that id, where there is one.
    pub fn mirror(&self, id: MemberId) -> Option<&Mirror>
        ensures there { IsSome result ↔ ((1 ≤ id.0) × (id.0 ≤ length (self.now).all.nodes)) }
        ensures kept { IfSome result (λ m. (m.now).mirror ≡ (keeps_at (self.now).keeps (id.0 - 1)).mirror) }
    {
        let party = party_of(&self.members, id)?;
        Some(&party.mirror)
    }

    /// The book of the member of that id, where there is one: how many of its messages are confirmed.
    pub fn book(&self, id: MemberId) -> Option<&Book>
        ensures there { IsSome result ↔ ((1 ≤ id.0) × (id.0 ≤ length (self.now).all.nodes)) }
        ensures kept { IfSome result (λ b. without_room b.now ≡ (keeps_at (self.now).keeps (id.0 - 1)).book) }
    {
        let party = party_of(&self.members, id)?;
        Some(&party.book)
    }

    /// The version that the view of the member of that id had when it last told how many messages its queue has; 0 before
    /// that.
    pub fn told(&self, id: MemberId) -> u32
        requires { (1 ≤ id.0) × (id.0 ≤ length (self.now).all.nodes) }
        ensures { result ≡ (keeps_at (self.now).keeps (id.0 - 1)).told }
    {
        let Some(party) = party_of(&self.members, id) else {
            unreachable!()
        };
        party.told
    }

    /// How many members there are.
    pub fn count(&self) -> usize
        ensures { result ≡ length (self.now).all.nodes }
    {
        self.members.len()
    }

    /// The names of the members, by places.
    pub fn names(&self, alloc: Global) -> Result<Vec<Name>, OutOfMemory>
        ensures { IfOk result (λ v. v.items ≡ names_shown (self.now).all) }
    {
        let mut names = Vec::new(alloc);
        for party in &self.members {
            if names.push(*party.node.name()).is_err() {
                return Err(OutOfMemory);
            }
        }
        Ok(names)
    }

    /// The newest view of the group, as the registrar has it.
    pub fn view(&self) -> &View
        ensures { result.now ≡ newest_of (self.now).all }
    {
        self.registrar.view()
    }
}

/// The party of that id, where the list has one.
fn party_of(members: &[Party], id: MemberId) -> Option<&Party>
    ensures there { IsSome result ↔ ((1 ≤ id.0) × (id.0 ≤ length members.now)) }
    ensures shown { IfSome result (λ m. shown_in m.now
        ≡ slice_index_or (map shown_in members.now) (id.0 - 1) no_shown) }
    ensures keeps { IfSome result (λ m. keeps_in m.now ≡ keeps_at (map keeps_in members.now) (id.0 - 1)) }
{
    if id.0 == 0 {
        return None;
    }
    members.get(id.0 as usize - 1)
}
