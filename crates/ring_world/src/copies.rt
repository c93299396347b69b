//! The copies of the plain machine, all together.
ghost use Rattle.std.specs.Prelude.{◌≡◌, ◌<◌, ◌≤◌, ◌∷◌, List, true, false, length, map, slice_set, option_map, position, IfSome, OnOk, OnErr};
ghost use Rattle.credit_flow.specs.Credit.{is_blocked};
ghost use Rattle.ring_rules.specs.Refusal.{is_empty};
ghost use Rattle.ring_copies.specs.Copies.{copy_out as the_copy_out, copy_in as the_copy_in, is_put_by, is_taken_by, copy_put, copy_gained};
ghost use Rattle.queue_core.specs.Queue.{Item};
ghost use Rattle.queue_sync.specs.Copy.{Load, OneItem};
ghost use Rattle.ring_copies.specs.Copies.{item_taken, done_taken, dropped};
ghost use Rattle.ring_copies.specs.Events.{is_done_next};
ghost use Rattle.ring_world.specs.Copied.{copy_of, copy_in_list, HaveRoom, followed_copy};

use crate::plain_copy::PlainCopy;
use group_view::View;
use ring_names::OutOfMemory;

fn first_put_by(copies: &[PlainCopy], id: u32) -> Option<usize>
    ensures { result ≡ position (λ copy. is_put_by id (copy_of copy)) copies.now }
{
    copies.iter().position(|copy| copy.is_put_by(id))
}

fn first_taken_by(copies: &[PlainCopy], id: u32) -> Option<usize>
    ensures { result ≡ position (λ copy. is_taken_by id (copy_of copy)) copies.now }
{
    copies.iter().position(|copy| copy.is_taken_by(id))
}

/// The copy on which the member of an id puts.
pub(crate) fn copy_out(copies: &[PlainCopy], id: u32) -> Option<usize>
    ensures found { result ≡ the_copy_out (map copy_of copies.now) id }
    ensures within { IfSome result (λ i. i < length copies.now) }
{
    first_put_by(copies, id)
}

/// The oldest one from which it takes.
pub(crate) fn copy_in(copies: &[PlainCopy], id: u32) -> Option<usize>
    ensures found { result ≡ the_copy_in (map copy_of copies.now) id }
    ensures within { IfSome result (λ i. i < length copies.now) }
{
    first_taken_by(copies, id)
}

/// Makes room on each for the grants of one event.
#[tactic(auto, using(crate::proofs::code::OfCopies::rewrite_copy))]
pub(crate) fn make_room(copies: &mut [PlainCopy]) -> Result<(), OutOfMemory>
    ensures same { map copy_of copies.new ≡ map copy_of copies.old }
    ensures room { OnOk result (HaveRoom 3 copies.new) }
{
    for k in 0..copies.len() {
        copies[k].make_room()?;
    }
    Ok(())
}

/// The member of an id has done something: it may have stopped, or read a view, and be blocked or not.
pub(crate) fn follow(
    copies: &mut [PlainCopy],
    stops: bool,
    view: Option<&View>,
    blocked: bool,
    id: u32,
)
    requires { HaveRoom 1 copies.old }
    ensures { map copy_of copies.new
        ≡ map (followed_copy stops (option_map (λ v. v.now) view.entry) blocked id) (map copy_of copies.old) }
{
    for k in 0..copies.len() {
        copies[k].follow(stops, view, blocked, id);
    }
}

/// The next load goes on a copy.
#[tactic(auto, using(crate::proofs::code::OfCopies::put_copies, crate::proofs::code::OfCopies::rewrite_copy))]
pub(crate) fn put_on(copies: &mut [PlainCopy], i: usize) -> Result<(), OutOfMemory>
    requires there { i < length copies.old }
    requires some { is_empty (copy_in_list copies.old i).to_put ≡ false }
    requires credit { is_blocked (copy_in_list copies.old i).flow.sender ≡ false }
    requires room { HaveRoom 3 copies.old }
    ensures ok { OnOk result (map copy_of copies.new
        ≡ slice_set (map copy_of copies.old) i (copy_put (copy_in_list copies.old i))) }
    ensures room { OnOk result (HaveRoom 1 copies.new) }
    ensures err { OnErr result (map copy_of copies.new ≡ map copy_of copies.old) }
{
    copies[i].put()
}

/// The oldest grant on a copy becomes credit.
#[tactic(auto, using(crate::proofs::code::OfCopies::gained_copies))]
pub(crate) fn gain_on(copies: &mut [PlainCopy], i: usize)
    requires there { i < length copies.old }
    requires some { is_empty (copy_in_list copies.old i).flow.grants ≡ false }
    requires room { HaveRoom 3 copies.old }
    ensures gained { map copy_of copies.new
        ≡ slice_set (map copy_of copies.old) i (copy_gained (copy_in_list copies.old i)) }
    ensures room { HaveRoom 1 copies.new }
{
    copies[i].gain();
}

/// The next load of a copy is an item, which its receiver keeps aside.
#[tactic(auto, using(crate::proofs::code::OfCopies::rewrite_copy))]
pub(crate) fn take_item(
    copies: &mut [PlainCopy],
    i: usize,
    blocked: bool,
) -> Result<(), OutOfMemory>
    requires there { i < length copies.old }
    requires some { is_empty (copy_in_list copies.old i).loads ≡ false }
    requires item { is_done_next (copy_in_list copies.old i).loads ≡ false }
    requires room { HaveRoom 3 copies.old }
    ensures ok { (a : Item) (loads : List Load) → (copy_in_list copies.old i).loads ≡ OneItem a ∷ loads
        → OnOk result (map copy_of copies.new
        ≡ slice_set (map copy_of copies.old) i (item_taken blocked a (copy_in_list copies.old i))) }
    ensures room { OnOk result (HaveRoom 1 copies.new) }
    ensures err { OnErr result (map copy_of copies.new ≡ map copy_of copies.old) }
{
    copies[i].take_item(blocked)
}

/// The next load of a copy is the last, and it is over.
#[tactic(auto, using(crate::proofs::code::OfCopies::finished_copies))]
pub(crate) fn finish(copies: &mut [PlainCopy], i: usize, blocked: bool)
    requires there { i < length copies.old }
    requires done { is_done_next (copy_in_list copies.old i).loads ≡ true }
    requires room { HaveRoom 3 copies.old }
    ensures finished { map copy_of copies.new
        ≡ slice_set (map copy_of copies.old) i (done_taken blocked (copy_in_list copies.old i)) }
    ensures room { HaveRoom 1 copies.new }
{
    copies[i].take_done(blocked);
}

/// A copy is over, and what it brought is dropped.
#[tactic(auto, using(crate::proofs::code::OfCopies::closed_copies))]
pub(crate) fn close(copies: &mut [PlainCopy], i: usize)
    requires there { i < length copies.old }
    requires room { HaveRoom 3 copies.old }
    ensures closed { map copy_of copies.new
        ≡ slice_set (map copy_of copies.old) i (dropped (copy_in_list copies.old i)) }
    ensures room { HaveRoom 1 copies.new }
{
    copies[i].close();
}
