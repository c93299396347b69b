//! The laws of elections.
ghost use Rattle.std.specs.Prelude.{◌≡◌, List, Some};
ghost use Rattle.ring_names.specs.declared.numbers.MemberId.{MemberId};
ghost use Rattle.group_view.specs.declared.entry.Entry.{Entry};
ghost use Rattle.group_view.specs.Ring.{AreDistinct};
ghost use Rattle.group_view.specs.View.{ids};
ghost use Rattle.promotion.specs.Elect.{elected, IsElected, IsLeader};

/// Who is elected is live and synchronised, and no entry that is both has a lesser id. Nobody is elected
/// exactly where no entry is both.
pub fn the_oldest_is_elected()
    ensures { (entries : List Entry) → IsElected entries (elected entries) }
{}

/// Where no id stands twice, the entry of who is elected lives and is registered as synchronised.
pub fn who_is_elected_lives_and_is_registered()
    ensures { (entries : List Entry) (id : MemberId) → AreDistinct (ids entries)
        → elected entries ≡ Some id → IsLeader entries id.0 }
{}
