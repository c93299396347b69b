//! Giving links to their receivers.
ghost use Rattle.std.specs.Prelude.{◌≡◌, ◌+◌, ◌≤◌, ◌++◌, length};
ghost use Rattle.std.specs.Vec.{vec_len, vec_capacity};
ghost use Rattle.std.specs.List.{filter};
ghost use Rattle.registrar.specs.Registry.{beside, is_for};
ghost use Rattle.registrar.specs.Handled.{deposited, links_for};

use crate::waiting_link::WaitingLink;
use group_view::Deposited;
use ring_names::MemberId;

/// How many links have a member for their receiver, also those that are lent.
pub(crate) fn count_named<I>(links: &[WaitingLink<I>], by: MemberId) -> usize
    ensures { result ≡ length (filter (is_for by.0) links.now) }
{
    let mut count = 0;
    for waiting_link in links {
        if waiting_link.is_for(by) {
            count += 1;
        }
    }
    count
}

/// How many links wait for a member, each of which is here.
pub(crate) fn count_for<I>(links: &[WaitingLink<I>], by: MemberId) -> usize
    ensures { result ≡ length (links_for by.0 links.now) }
{
    let mut count = 0;
    for waiting_link in links {
        if waiting_link.is_for(by) && waiting_link.link.is_some() {
            count += 1;
        }
    }
    count
}

/// Puts a link behind those that were given; one that is lent isn't there.
fn give<I: Drop>(waiting_link: WaitingLink<I>, given: &mut Vec<Deposited<I>>)
    requires { vec_len given.old + length (deposited waiting_link.name waiting_link.link) ≤ vec_capacity given.old }
    ensures items { given.new.items ≡ given.old.items ++ deposited waiting_link.name waiting_link.link }
    ensures len { vec_len given.new ≡ vec_len given.old + length (deposited waiting_link.name waiting_link.link) }
    ensures capacity { vec_capacity given.new ≡ vec_capacity given.old }
{
    let name = waiting_link.name;
    if let Some(link) = waiting_link.link {
        given.push_reserved(Deposited {
            from: name.from,
            view: name.view,
            kind: name.kind,
            link,
        });
    }
}

/// Moves the links that wait for a member behind those that were given, for which there is room.
pub(crate) fn give_all<I: Drop>(
    links: &mut Vec<WaitingLink<I>>,
    by: MemberId,
    given: &mut Vec<Deposited<I>>,
)
    requires { vec_len given.old + length (links_for by.0 links.old.items) ≤ vec_capacity given.old }
    ensures others { links.new.items ≡ beside by.0 links.old.items }
    ensures given { given.new.items ≡ given.old.items ++ links_for by.0 links.old.items }
{
    let mut place = 0;
    while place < links.len() {
        if links[place].is_for(by) {
            give(links.remove(place), given);
        } else {
            place += 1;
        }
    }
}
