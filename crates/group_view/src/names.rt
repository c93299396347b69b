//! The names with which a group opens.
ghost use Rattle.std.specs.Prelude.{◌≡◌, ◌↔◌, IsTrue};
ghost use Rattle.group_view.specs.Change.{AreOpeningNames, AreDifferent};

use ring_names::Name;

/// How many members a group ever has, the dead and the erased among them: the most entries of a view.
pub const MOST_MEMBERS: usize = 64;

/// Whether a group may open with these names: 1 to 64 different ones. It wants no memory.
pub fn are_opening_names(names: &[Name]) -> bool
    ensures { IsTrue result ↔ AreOpeningNames names.now }
{
    !names.is_empty() && names.len() <= MOST_MEMBERS && are_different(names)
}

fn is_same(one: &Name, other: &Name) -> bool
    ensures { IsTrue result ↔ (one.now ≡ other.now) }
{
    one.bytes() == other.bytes()
}

fn are_different(names: &[Name]) -> bool
    ensures { IsTrue result ↔ AreDifferent names.now }
{
    for later in 0..names.len() {
        for earlier in 0..later {
            if is_same(&names[earlier], &names[later]) {
                return false;
            }
        }
    }
    true
}
