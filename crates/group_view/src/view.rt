//! A view of the group.
ghost use Rattle.std.specs.Prelude.{◌≡◌, map, option_map, IfOk, IfErr, OnOk, OnErr, None};
ghost use Rattle.group_view.specs.View.{is_dead as died, is_alias as the_alias};
ghost use Rattle.group_view.specs.View.{number, left_of as the_left, right_of as the_right};
ghost use Rattle.group_view.specs.View.{owner_of as the_owner, is_between as the_test, aliases_of as the_aliases};
ghost use Rattle.group_view.specs.View.{id_named, ids, entry_in, is_live as lives, is_erased as rests};
ghost use Rattle.group_view.specs.Ring.{is_in};
ghost use Rattle.group_view.specs.Change.{AreOpeningNames, opening, marked, mark_refusal, answer_of};
ghost use Rattle.group_view.specs.Change.{erased, erase_refusal, registered, sync_refusal};
ghost use Rattle.group_view.specs.Change.{admitted, admit_refusal, IsFault};

use crate::entries::Entries;
use crate::entry::Entry;
use crate::fault::ViewFault;
use crate::ring;
use ring_names::{MemberId, Name, OutOfMemory, Reason};
use std::alloc::Global;
use std::marker::Model;

/// One version of the group: its entries in ring order, going right. Versions go from 1, and a group has
/// fewer than 256.
#[derive(Drop, Debug)]
pub struct View {
    /// Its number, from 1; each change makes the next.
    pub version: u32,
    /// The members, the dead among them, in ring order, 1 to 64.
    pub entries: Entries,
    /// Whose operations the queue's mirrors follow.
    pub master: Option<MemberId>,
    /// The number of masters so far.
    pub term: u32,
    /// The id that the next entry gets: one more than the number of entries.
    pub next_id: u32,
}

impl Model for View {
    ghost use Rattle.group_view.specs.View.{Group};

    ghost Value = { Group };

    ghost use Rattle.group_view.specs.Seen.{group_of, KeepsGroup};

    ghost view = { group_of };

    ghost invariant = { KeepsGroup };
}

impl View {
    /// The first view of a group of these members, in ring order: all are live and synchronised, and the
    /// first is the master of the first term.
    pub fn opening(alloc: Global, names: &[Name]) -> Result<View, OutOfMemory>
        requires { AreOpeningNames names.now }
        ensures { IfOk result (λ view. view ≡ opening names.now) }
    {
        let entries = ring::opening(alloc, names)?;
        Ok(View {
            version: 1,
            entries: Entries::from_vec(entries),
            master: Some(MemberId(1)),
            term: 1,
            next_id: names.len() as u32 + 1,
        })
    }

    /// The id of the member of that name. It wants no memory.
    pub fn find(&self, name: &Name) -> Option<MemberId>
        ensures { result ≡ id_named self.now.entries name.now }
    {
        ring::find(self.entries.as_slice(), name)
    }

    /// Whether the view has an entry of that id, of any mark. It wants no memory.
    pub fn has_entry(&self, id: MemberId) -> bool
        ensures { result ≡ is_in id.0 (ids self.now.entries) }
    {
        ring::has_entry(self.entries.as_slice(), id)
    }

    /// Whether the view has that entry as live. It wants no memory.
    pub fn is_live(&self, id: MemberId) -> bool
        ensures { result ≡ lives self.now.entries id.0 }
    {
        ring::is_live(self.entries.as_slice(), id)
    }

    /// Whether the view has that entry as erased; an id without one counts as erased. It wants no memory.
    pub fn is_erased(&self, id: MemberId) -> bool
        ensures { result ≡ rests self.now.entries id.0 }
    {
        ring::is_erased(self.entries.as_slice(), id)
    }

    /// Whether the view has that entry as dead. It wants no memory.
    pub fn is_dead(&self, id: MemberId) -> bool
        ensures { result ≡ died self.now.entries id.0 }
    {
        ring::is_dead(self.entries.as_slice(), id)
    }

    /// Whether `origin` is dead and `id` answers for it. It wants no memory.
    pub fn is_alias(&self, id: MemberId, origin: MemberId) -> bool
        ensures { result ≡ the_alias self.now.entries id.0 origin.0 }
    {
        self.is_dead(origin) && self.owner_of(origin) == Some(id)
    }

    /// Whether the ring registers the entry of that id as synchronised; an id without one isn't.
    pub fn is_synced(&self, id: MemberId) -> bool
        ensures { result ≡ (entry_in self.now.entries id.0).synced }
    {
        ring::is_synced(self.entries.as_slice(), id)
    }

    /// The version from which on the left neighbour of an entry has been the present one; 0 where the view has no such
    /// entry. It wants no memory.
    pub fn since_of(&self, id: MemberId) -> u32
        ensures { result ≡ (entry_in self.now.entries id.0).since }
    {
        ring::since_of(self.entries.as_slice(), id)
    }

    /// The left neighbour of an entry of any mark: the nearest live entry, going left. A sole live entry
    /// is its own; where nobody lives, and where the id has no entry, the answer is `id`. It wants no
    /// memory.
    pub fn left_of(&self, id: MemberId) -> MemberId
        ensures { result.0 ≡ the_left self.now.entries id.0 }
    {
        ring::left_of(self.entries.as_slice(), id)
    }

    /// The right neighbour likewise, going right. It wants no memory.
    pub fn right_of(&self, id: MemberId) -> MemberId
        ensures { result.0 ≡ the_right self.now.entries id.0 }
    {
        ring::right_of(self.entries.as_slice(), id)
    }

    /// Who answers for what an entry published: the first live entry from it rightwards, itself included,
    /// and nobody where nobody lives. For an id without an entry it is the first live one of the list. It
    /// wants no memory.
    pub fn owner_of(&self, id: MemberId) -> Option<MemberId>
        ensures { option_map number result ≡ the_owner self.now.entries id.0 }
    {
        ring::owner_of(self.entries.as_slice(), id)
    }

    /// Whether `x` stands strictly between, going right from `from` to `to`; where these are one, all
    /// others do. It wants no memory.
    pub fn is_between(&self, from: MemberId, x: MemberId, to: MemberId) -> bool
        ensures { result ≡ the_test self.now.entries from.0 x.0 to.0 }
    {
        ring::is_between(self.entries.as_slice(), from, x, to)
    }

    /// The dead entries for which a live one answers, as the aliases of a `gm` view, going left from it.
    /// Erased ones are none.
    pub fn aliases_of(&self, id: MemberId) -> Result<Vec<MemberId>, OutOfMemory>
        ensures { IfOk result (λ v. map number v.items ≡ the_aliases self.now.entries id.0) }
    {
        ring::aliases_of(self.entries.allocator(), self.entries.as_slice(), id)
    }

    /// The group without a member that has stopped: its entry is marked dead. It is refused as
    /// `UnknownMember` where the id has no entry, and as `AlreadyDead` where the entry isn't live. It wants
    /// no memory.
    pub fn mark_dead(&mut self, id: MemberId) -> Result<(), Reason>
        ensures answer { result ≡ answer_of (mark_refusal self.old.entries id.0) }
        ensures ok { OnOk result (self.new ≡ marked self.old id.0) }
        ensures err { OnErr result (self.new ≡ self.old) }
    {
        ring::must_live(self.entries.as_slice(), id)?;
        let version = self.version + 1;
        self.entries.mark_dead(id, version);
        self.version = version;
        Ok(())
    }

    /// The group once nothing of what a dead member published is on its way any more: its entry is marked
    /// erased. `gm:erase_members_in_group` drops it; here it stays, so that no name and no id comes back. It
    /// is refused as `UnknownMember` where the id has no entry, and as `NotDead` where the entry is live or
    /// erased. It wants no memory.
    pub fn erase(&mut self, id: MemberId) -> Result<(), Reason>
        ensures answer { result ≡ answer_of (erase_refusal self.old.entries id.0) }
        ensures ok { OnOk result (self.new ≡ erased self.old id.0) }
        ensures err { OnErr result (self.new ≡ self.old) }
    {
        ring::must_be_dead(self.entries.as_slice(), id)?;
        self.entries.erase(id);
        self.version += 1;
        Ok(())
    }

    /// The group once a member's mirror lacks nothing of the queue: its entry is registered as synchronised, so
    /// that it may become the master. It is refused as `UnknownMember` where the id has no entry, as
    /// `AlreadyDead` where the entry isn't live, and as `AlreadySynced` where it is registered already. It wants
    /// no memory. As `record_synchronised` of `rabbit_mirror_queue_slave`, which adds it to the queue's
    /// `sync_slave_pids`.
    pub fn mark_synced(&mut self, id: MemberId) -> Result<(), Reason>
        ensures answer { result ≡ answer_of (sync_refusal self.old.entries id.0) }
        ensures ok { OnOk result (self.new ≡ registered self.old id.0) }
        ensures err { OnErr result (self.new ≡ self.old) }
    {
        ring::may_sync(self.entries.as_slice(), id)?;
        self.entries.mark_synced(id);
        self.version += 1;
        Ok(())
    }

    /// The group with one member more, which stands directly right of the one that admits it: it is live,
    /// isn't synchronised, and its id is the answer. It is refused as `UnknownMember` where the admitter has
    /// no entry, as `AlreadyDead` where it isn't live, as `NameTaken` where an entry of any mark has the
    /// name, and as `TooManyMembers` where 64 entries stand. Only an admission that nothing refuses wants
    /// memory. As `gm:record_new_member_in_group`.
    pub fn admit(&mut self, by: MemberId, name: Name) -> Result<MemberId, ViewFault>
        ensures fault { IfErr result (IsFault (admit_refusal self.old.entries by.0 name)) }
        ensures may { OnOk result (admit_refusal self.old.entries by.0 name ≡ None) }
        ensures id { IfOk result (λ id. id.0 ≡ self.old.next_id) }
        ensures ok { OnOk result (self.new ≡ admitted self.old by.0 name) }
        ensures err { OnErr result (self.new ≡ self.old) }
    {
        ring::may_admit(self.entries.as_slice(), by, &name)?;
        let id = MemberId(self.next_id);
        let version = self.version + 1;
        self.entries
            .insert_right_of(by, Entry::admitted(id, name, version))?;
        self.entries.date_right_of(id, version);
        self.version = version;
        self.next_id += 1;
        Ok(id)
    }

    /// An equal view.
    pub fn copy(&self) -> Result<View, OutOfMemory>
        ensures { IfOk result (λ view. view ≡ self.now) }
    {
        Ok(View {
            version: self.version,
            entries: self.entries.copy()?,
            master: self.master,
            term: self.term,
            next_id: self.next_id,
        })
    }
}
