//! The entries of a view.
ghost use Rattle.std.specs.Prelude.{◌≡◌, ◌<◌, map, IfOk, OnOk, OnErr, true};
ghost use Rattle.group_view.specs.declared.entry.Mark.TheVariants.{Dead, Erased};
ghost use Rattle.group_view.specs.Change.{dated, with_mark, with_synced, with_entry};
ghost use Rattle.group_view.specs.Parts.{dated_right_of};
ghost use Rattle.group_view.specs.Ring.{AreDistinct, is_in};
ghost use Rattle.group_view.specs.View.{ids};

use crate::entry::{Entry, Mark};
use crate::ring;
use ring_names::{MemberId, OutOfMemory};
use std::alloc::Global;
use std::marker::Model;

/// The entries of a view in ring order, going right, which contracts see as the list of them.
#[derive(Drop, Debug)]
pub struct Entries {
    entries: Vec<Entry>,
}

impl Model for Entries {
    ghost use Rattle.std.specs.Prelude.{List};
    ghost use Rattle.group_view.specs.declared.entry.Entry.{Entry};

    ghost Value = { List Entry };

    ghost view = { λ a. a.entries.items };
}

impl Entries {
    /// The entries of a vector. It takes no memory.
    pub fn from_vec(entries: Vec<Entry>) -> Entries
        ensures { result ≡ entries.items }
    {
        Entries { entries }
    }

    /// The entries as a vector. It takes no memory.
    pub fn into_vec(self) -> Vec<Entry>
        ensures { result.items ≡ self }
    {
        self.entries
    }

    /// The entries as a slice.
    pub fn as_slice(&self) -> &[Entry]
        ensures { result.now ≡ self.now }
    {
        &self.entries
    }

    pub(crate) fn allocator(&self) -> Global {
        *self.entries.allocator()
    }

    /// The same entries.
    pub(crate) fn copy(&self) -> Result<Entries, OutOfMemory>
        ensures { IfOk result (λ entries. entries ≡ self.now) }
    {
        match Vec::from_slice(self.allocator(), self.as_slice()) {
            Ok(entries) => Ok(Entries { entries }),
            Err(_) => Err(OutOfMemory),
        }
    }

    /// Marks an entry dead in this version.
    pub(crate) fn mark_dead(&mut self, id: MemberId, version: u32)
        requires { AreDistinct (ids self.old) }
        ensures { self.new ≡ map (dated version self.old (map (with_mark Dead id.0) self.old))
            (map (with_mark Dead id.0) self.old) }
    {
        ring::mark_dead(&mut self.entries, id, version);
    }

    /// Marks a dead entry erased. Nobody has it for a neighbour, so all keep theirs.
    pub(crate) fn erase(&mut self, id: MemberId)
        ensures { self.new ≡ map (with_mark Erased id.0) self.old }
    {
        ring::set_mark(&mut self.entries, id, Mark::Erased);
    }

    /// Registers an entry as synchronised. It lives as before, so all keep their neighbours.
    pub(crate) fn mark_synced(&mut self, id: MemberId)
        ensures { self.new ≡ map (with_synced id.0) self.old }
    {
        ring::set_synced(&mut self.entries, id);
    }

    /// Adds an entry directly right of another.
    pub(crate) fn insert_right_of(
        &mut self,
        left: MemberId,
        entry: Entry,
    ) -> Result<(), OutOfMemory>
        requires distinct { AreDistinct (ids self.old) }
        requires there { is_in left.0 (ids self.old) ≡ true }
        ensures ok { OnOk result (self.new ≡ with_entry left.0 entry self.old) }
        ensures err { OnErr result (self.new ≡ self.old) }
    {
        let place = ring::place_right_of(&self.entries, left);
        self.entries.insert(place, entry)?;
        Ok(())
    }

    /// Notes the version with the others whose left neighbour an entry is.
    pub(crate) fn date_right_of(&mut self, left: MemberId, version: u32)
        requires { AreDistinct (ids self.old) }
        ensures { self.new ≡ map (dated_right_of left.0 version self.old) self.old }
    {
        ring::date_right_of(&mut self.entries, left, version);
    }
}
