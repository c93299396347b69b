//! The election of a master.
ghost use Rattle.std.specs.Prelude.{◌≡◌, option_map};
ghost use Rattle.group_view.specs.View.{number, stands_in};
ghost use Rattle.promotion.specs.Elect.{may_lead as may_become, lesser as the_lesser, elected, installed};

use group_view::{Entry, Mark, View};
use ring_names::MemberId;

/// Whether an entry may become the master.
fn may_lead(entry: &Entry) -> bool
    ensures { result ≡ may_become entry.now }
{
    entry.mark == Mark::Live && entry.synced
}

/// The lesser of an id and of the one that was found before.
fn lesser(found: Option<MemberId>, id: MemberId) -> MemberId
    ensures { result.0 ≡ the_lesser (option_map number found) id.0 }
{
    match found {
        Some(other) if other.0 < id.0 => other,
        _ => id,
    }
}

/// The live and synchronised entry of the least id, which is the oldest, and nobody where there is none. It
/// changes nothing, and wants no memory. `rabbit_mirror_queue_misc` promotes the oldest mirror; in this
/// profile one that isn't synchronised is passed over.
pub fn elect(view: &View) -> Option<MemberId>
    ensures { result ≡ elected view.now.entries }
{
    let mut found = None;
    for entry in view.entries.as_slice() {
        if may_lead(entry) {
            found = Some(lesser(found, entry.id));
        }
    }
    found
}

/// Whether the view has a master that isn't erased.
fn stands(view: &View) -> bool
    ensures { result ≡ stands_in view.now.entries view.now.master }
{
    match view.master {
        Some(id) => !view.is_erased(id),
        None => false,
    }
}

/// Where the view has no master, or an erased one, whom `elect` answers becomes the master, and the term
/// rises by one where that is somebody. A master that is live or dead stays, and nothing changes. The answer
/// is the master then. The version stays, since an election belongs to the change that it follows. It wants
/// no memory. As `rabbit_mirror_queue_misc` when the master's process is gone.
pub fn install(view: &mut View) -> Option<MemberId>
    ensures installed { view.new ≡ installed view.old }
    ensures answer { result ≡ (installed view.old).master }
{
    if stands(view) {
        return view.master;
    }
    let found = elect(view);
    if found.is_some() {
        view.term += 1;
    }
    view.master = found;
    found
}
