//! One entry of a view.
ghost use Rattle.std.specs.Prelude.{◌≡◌, nat_eq, bytes_eq};
ghost use Rattle.group_view.specs.View.{is_live_mark, is_dead_mark, is_erased_mark};
ghost use Rattle.group_view.specs.Change.{opening_entry, new_entry};

use ring_names::{MemberId, Name};

/// What the group knows of a member's life.
#[derive(Clone, Copy, PartialEq, Eq, Debug)]
pub enum Mark {
    /// It takes part in the ring.
    Live,
    /// It has stopped, and its owner still answers for what it published.
    Dead,
    /// It has stopped, and nothing of what it published is on its way any more.
    Erased,
}

impl Mark {
    pub(crate) fn is_live(self) -> bool
        ensures { result ≡ is_live_mark self }
    {
        matches!(self, Mark::Live)
    }

    pub(crate) fn is_dead(self) -> bool
        ensures { result ≡ is_dead_mark self }
    {
        matches!(self, Mark::Dead)
    }

    pub(crate) fn is_erased(self) -> bool
        ensures { result ≡ is_erased_mark self }
    {
        matches!(self, Mark::Erased)
    }
}

/// A member as a view has it.
#[derive(Clone, Copy, PartialEq, Eq, Debug)]
pub struct Entry {
    /// Its id, which no other entry has.
    pub id: MemberId,
    /// The name under which clients know it.
    pub name: Name,
    /// Whether it lives, as far as the group knows.
    pub mark: Mark,
    /// Whether its mirror is registered as synchronised with the master.
    pub synced: bool,
    /// The version in which it was admitted.
    pub joined: u32,
    /// The version from which its left neighbour has been the present one.
    pub since: u32,
}

impl Entry {
    /// An entry of the first view.
    pub(crate) fn opening(id: u32, name: Name) -> Entry
        ensures { result ≡ opening_entry id name }
    {
        Entry {
            id: MemberId(id),
            name,
            mark: Mark::Live,
            synced: true,
            joined: 1,
            since: 1,
        }
    }

    /// An entry that is admitted in this version.
    pub(crate) fn admitted(id: MemberId, name: Name, version: u32) -> Entry
        ensures { result ≡ new_entry id.0 name version }
    {
        Entry {
            id,
            name,
            mark: Mark::Live,
            synced: false,
            joined: version,
            since: version,
        }
    }

    pub(crate) fn is_live(&self) -> bool
        ensures { result ≡ is_live_mark (self.now).mark }
    {
        self.mark.is_live()
    }

    pub(crate) fn has_id(&self, id: MemberId) -> bool
        ensures { result ≡ nat_eq self.now.id.0 id.0 }
    {
        self.id.0 == id.0
    }

    pub(crate) fn is_named(&self, name: &Name) -> bool
        ensures { result ≡ bytes_eq self.now.name name.now }
    {
        self.name.bytes() == name.bytes()
    }
}
