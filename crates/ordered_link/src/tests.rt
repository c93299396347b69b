//! A pair with credit for one load, through the traits: what it tells at each step, beside what is wanted.
ghost use Rattle.std.specs.Prelude.{◌≡◌, ◌<◌, ◌↔◌, IsErr, IsSome, OnOk, OnErr, None, false, vec_len};
ghost use Rattle.ordered_link.specs.Steps.{HaveMet, PlainPuts};
ghost use Rattle.ordered_link.specs.declared.item.Item.{Item};

use crate::*;
use ring_names::{CreditSpec, Stamp};
use std::test::Fail;

const ONE: CreditSpec = CreditSpec {
    initial: 1,
    more: 1,
};

const FIRST: Stamp = Stamp {
    round: 1,
    time: 4,
    party: 2,
};

const LATER: Stamp = Stamp {
    round: 2,
    time: 5,
    party: 3,
};

const THREE: Grant = Grant {
    amount: 3,
    stamp: FIRST,
};

const FOUR: Grant = Grant {
    amount: 4,
    stamp: LATER,
};

// A put is refused exactly where the link holds as many loads as it may.
fn put_where_met(out: &mut PlainOut<u32>, link: &PlainIn<u32>, load: u32) -> Result<(), u32>
    requires open_out { (out.old).ended ≡ false }
    requires met { HaveMet out.old link.now }
    ensures exact { IsErr result ↔ (vec_len (link.now).items ≡ (link.now).initial) }
    ensures ok { OnOk result (PlainPuts out.old (Item.Load load) out.new) }
    ensures full { OnErr result (out.new ≡ out.old) }
    ensures open_out { (out.new).ended ≡ false }
{
    out.put(load)
}

// An item is taken exactly where the link holds one.
fn take_where_met(out: &PlainOut<u32>, link: &mut PlainIn<u32>) -> Option<Item<u32>>
    requires met { HaveMet out.now link.old }
    requires sent { (link.old).late ≡ None }
    ensures exact { IsSome result ↔ (0 < vec_len (link.old).items) }
{
    let _ = out;
    link.take()
}

// Takes a load, and gives it; of an End comes the time of its stamp behind 100 or 200, by its reason.
fn take<I: LinkIn<u32>>(link: &mut I) -> Option<u32> {
    match link.take()? {
        Item::Load(load) => Some(load),
        Item::End {
            reason: EndReason::Stopped,
            stamp,
        } => Some(100 + stamp.time % 100),
        Item::End {
            reason: EndReason::Moved,
            stamp,
        } => Some(200 + stamp.time % 100),
    }
}

// Both ends may go to threads of their own.
fn may_go<O: Send, I: Send>(_out: &O, _link: &I) {}

#[test]
fn carries_a_load_and_then_end(rt: HostRuntime) -> Result<(), Fail> {
    let (mut out, mut link) = plain_pair::<u32>(rt.alloc(), ONE)?;
    let first = out.put(7).err();
    let second = out.put(8).err();
    out.end(EndReason::Moved, LATER);
    let early = link.peek().is_some();
    meet(&mut out, &mut link);
    let shown = matches!(link.peek(), Some(Item::Load(7)));
    let told = [
        first,
        second,
        take(&mut link),
        take(&mut link),
        take(&mut link),
    ];
    assert!(rt; !early && shown && told == [None, Some(8), Some(7), Some(205), None]);
    Ok(())
}

#[test]
fn answers_exactly_where_the_ends_met(rt: HostRuntime) -> Result<(), Fail> {
    let (mut out, mut link) = plain_pair::<u32>(rt.alloc(), ONE)?;
    let first = put_where_met(&mut out, &link, 7).is_ok();
    meet(&mut out, &mut link);
    let second = put_where_met(&mut out, &link, 8).is_ok();
    let taken = take_where_met(&out, &mut link).is_some();
    assert!(rt; [first, second, taken] == [true, false, true]);
    Ok(())
}

#[test]
fn gives_a_grant_back_once(rt: HostRuntime) -> Result<(), Fail> {
    let (mut out, mut link) = plain_pair::<u32>(rt.alloc(), ONE)?;
    link.grant(THREE);
    let first = link.waits();
    link.grant(FOUR);
    let second = link.waits();
    let early = out.has_grant();
    meet(&mut out, &mut link);
    let came = out.has_grant();
    let granted = [out.granted(), out.granted()];
    meet(&mut out, &mut link);
    let taken = link.take().is_some();
    let told = [first, second, early, came, taken, link.waits()];
    assert!(rt; granted == [Some(THREE), None] && told == [false, true, false, true, false, false]);
    Ok(())
}

#[test]
fn rings_carry_a_load_and_then_end(rt: HostRuntime) -> Result<(), Fail> {
    let (mut out, mut link) = ring_pair::<u32>(rt.alloc(), ONE)?;
    let put = [out.put(7).err(), out.put(8).err()];
    out.end(EndReason::Moved, LATER);
    let early = link.peek().is_some();
    ring_meet(&mut out, &mut link);
    let shown = matches!(link.peek(), Some(Item::Load(7)));
    let taken = [take(&mut link), take(&mut link), take(&mut link)];
    assert!(rt; put == [None, Some(8)] && !early && shown && taken == [Some(7), Some(205), None]);
    Ok(())
}

#[test]
fn rings_give_grants_back_and_tell_who_looks(rt: HostRuntime) -> Result<(), Fail> {
    let (mut out, mut link) = ring_pair::<u32>(rt.alloc(), ONE)?;
    link.grant(THREE);
    link.grant(FOUR);
    let early = [out.has_grant(), link.take().is_some()];
    out.look();
    let first = out.granted();
    let late = link.waits();
    ring_meet(&mut out, &mut link);
    let granted = [first, out.granted(), out.granted()];
    let put = out.put(7).is_ok();
    may_go(&out, &link);
    link.look();
    assert!(rt; early == [false; 2] && late && granted == [Some(THREE), Some(FOUR), None]);
    assert!(rt; put && take(&mut link) == Some(7));
    Ok(())
}
