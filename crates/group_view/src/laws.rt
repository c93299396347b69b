//! The laws of views.
ghost use Rattle.std.specs.Prelude.{◌≡◌, ◌↔◌, ◌||◌, ℕ, ◌<◌, ◌≤◌, true, nat_eq, List, None};
ghost use Rattle.group_view.specs.declared.entry.Entry.{Entry};
ghost use Rattle.group_view.specs.Ring.{AreDistinct, is_in};
ghost use Rattle.group_view.specs.View.{Group, ids, is_live, is_dead, left_of, owns, is_between};
ghost use Rattle.group_view.specs.Change.{Change, AreOpeningNames, AreChanges, opening, marked, views_from};
ghost use Rattle.group_view.specs.Change.{erased, admitted, admit_refusal};
ghost use Rattle.group_view.specs.Since.{left_at, KeepsLeft, IsSince};
ghost use Rattle.group_view.specs.Kept.{IsGroup};
ghost use Rattle.group_view.specs.Laws.{AreMutual, PassesOn, KeepsNeighbours, ComesBetween, IsHistory};

/// In each view of a group that opens and changes, each entry's `since` is the least version from which its
/// left neighbour has been the same in every view. Entries stay, none lives again, versions are numbered
/// from 1, and what stands between an entry and its left neighbour stays while that neighbour does.
pub fn every_view_keeps_since()
    ensures { (names : List (List ℕ)) (changes : List Change) → AreOpeningNames names
        → AreChanges (opening names) changes → IsHistory (views_from (opening names) changes) }
{}

/// The right neighbour of a live entry's left neighbour is the entry, and the other way round.
pub fn neighbours_are_mutual()
    ensures { (entries : List Entry) (p : ℕ) → AreDistinct (ids entries) → is_live entries p ≡ true
        → AreMutual entries p }
{}

/// Who had a neighbour that is marked dead has that one's own neighbour on the same side; all others keep
/// theirs.
pub fn a_mark_passes_neighbours_on()
    ensures { (g : Group) (dead : ℕ) → AreDistinct (ids g.entries)
        → PassesOn g.entries (marked g dead).entries dead }
{}

/// An erasure leaves everyone's neighbours as they are.
pub fn an_erasure_keeps_neighbours()
    ensures { (g : Group) (dead : ℕ) → is_dead g.entries dead ≡ true
        → KeepsNeighbours g.entries (erased g dead).entries }
{}

/// Who is admitted stands between its admitter and those that had the admitter on their left; all others keep
/// their left neighbour.
pub fn an_admission_comes_between()
    ensures { (g : Group) (by : ℕ) (name : List ℕ) → IsGroup g → admit_refusal g.entries by name ≡ None
        → ComesBetween g.entries (admitted g by name).entries by g.next_id }
{}

/// That an entry's left neighbour is this one, and has been it since some version or before, says that it is
/// its left neighbour in each view from that version on.
pub fn since_says_who_was_left()
    ensures { (views : List Group) (y v since s opened : ℕ) → IsSince views y v since
        → 1 ≤ opened → opened ≤ v
        → ((since ≤ opened) × (left_at views v y ≡ s)) ↔ KeepsLeft views y s opened v }
{}

/// A live entry answers for itself and for those between its left neighbour and itself, and for no other.
pub fn owners_own_what_stands_between()
    ensures { (entries : List Entry) (y p : ℕ) → AreDistinct (ids entries)
        → is_live entries y ≡ true → is_in p (ids entries) ≡ true
        → owns entries y p ≡ (nat_eq p y || is_between entries (left_of entries y) p y) }
{}

/// A group has few versions, since each but the first is one change of one of at most 64 entries.
pub fn versions_are_few()
    ensures { (g : Group) → IsGroup g → g.version < 256 }
{}
