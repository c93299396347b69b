//! Entries in ring order, as slices.
ghost use Rattle.std.specs.Prelude.{MatchOption, ◌≡◌, ◌&&◌, ◌++◌, reverse, filter, position, nat_eq, ◌<◌, ◌≤◌};
ghost use Rattle.std.specs.Prelude.{◌+◌, length};
ghost use Rattle.std.specs.Prelude.{take, drop, map, option_map, IfOk, OnOk, true};
ghost use Rattle.group_view.specs.declared.entry.Mark.TheVariants.{Dead};
ghost use Rattle.group_view.specs.View.{is_dead as died};
ghost use Rattle.group_view.specs.View.{ids, number, left_of as the_left, right_of as the_right};
ghost use Rattle.group_view.specs.View.{owner_of as the_owner, is_between as the_test, aliases_of as the_aliases};
ghost use Rattle.group_view.specs.View.{id_named as the_id, owns, is_alias as is_the_alias, is_dead_mark};
ghost use Rattle.group_view.specs.View.{entry_in, no_entry, is_live as lives, is_erased as rests};
ghost use Rattle.group_view.specs.Change.{dated, with_mark, with_synced, opening_entries, answer_of};
ghost use Rattle.group_view.specs.Change.{most_entries, mark_refusal, erase_refusal, sync_refusal, admit_refusal};
ghost use Rattle.group_view.specs.Ring.{AreDistinct, first, is_in};
ghost use Rattle.group_view.specs.Parts.{place_of as the_place, live_ids, last, comes_before, mark_in, AreFound};
ghost use Rattle.group_view.specs.Parts.{dated_right_of};

use crate::entry::{Entry, Mark};
use crate::names::MOST_MEMBERS;
use ring_names::{MemberId, Name, OutOfMemory, Reason};
use std::alloc::Global;

/// The place of the entry of that id.
fn place_of(entries: &[Entry], id: MemberId) -> Option<usize>
    ensures { result ≡ position (λ entry. nat_eq entry.id.0 id.0) entries.now }
{
    entries.iter().position(|entry| entry.has_id(id))
}

/// The entries before that of the id, and those from it on: all and none, where it has none.
fn cut_at(entries: &[Entry], id: MemberId) -> (&[Entry], &[Entry])
    ensures before { result.0.now ≡ take (the_place entries.now id.0) entries.now }
    ensures from { result.1.now ≡ drop (the_place entries.now id.0) entries.now }
{
    let place = place_of(entries, id).unwrap_or(entries.len());
    entries.split_at(place)
}

/// Those after the entry of the id, and those before it: none and all, where it has none.
fn others(entries: &[Entry], id: MemberId) -> (&[Entry], &[Entry])
    ensures after { result.0.now ≡ drop (the_place entries.now id.0 + 1) entries.now }
    ensures before { result.1.now ≡ take (the_place entries.now id.0) entries.now }
{
    let (before, from) = cut_at(entries, id);
    if from.is_empty() {
        return (from, before);
    }
    let (_, after) = from.split_at(1);
    (after, before)
}

pub(crate) fn has_entry(entries: &[Entry], id: MemberId) -> bool
    ensures { result ≡ is_in id.0 (ids entries.now) }
{
    place_of(entries, id).is_some()
}

fn first_live(entries: &[Entry]) -> Option<MemberId>
    ensures { option_map number result ≡ first (live_ids entries.now) }
{
    for entry in entries {
        if entry.is_live() {
            return Some(entry.id);
        }
    }
    None
}

fn last_live(entries: &[Entry]) -> Option<MemberId>
    ensures { option_map number result ≡ last (live_ids entries.now) }
{
    let mut found = None;
    for entry in entries {
        if entry.is_live() {
            found = Some(entry.id);
        }
    }
    found
}

/// The left neighbour.
pub(crate) fn left_of(entries: &[Entry], id: MemberId) -> MemberId
    requires { AreDistinct (ids entries.now) }
    ensures { result.0 ≡ the_left entries.now id.0 }
{
    if !has_entry(entries, id) {
        return id;
    }
    let (after, before) = others(entries, id);
    last_live(before).or(last_live(after)).unwrap_or(id)
}

/// The right neighbour.
pub(crate) fn right_of(entries: &[Entry], id: MemberId) -> MemberId
    requires { AreDistinct (ids entries.now) }
    ensures { result.0 ≡ the_right entries.now id.0 }
{
    if !has_entry(entries, id) {
        return id;
    }
    let (after, before) = others(entries, id);
    first_live(after).or(first_live(before)).unwrap_or(id)
}

/// Who answers for the entry.
pub(crate) fn owner_of(entries: &[Entry], id: MemberId) -> Option<MemberId>
    requires { AreDistinct (ids entries.now) }
    ensures { option_map number result ≡ the_owner entries.now id.0 }
{
    let (before, from) = cut_at(entries, id);
    first_live(from).or(first_live(before))
}

/// Whether `x` comes before `y`, where one of them comes.
fn comes_first(entries: &[Entry], x: MemberId, y: MemberId) -> Option<bool>
    ensures { result ≡ comes_before x.0 y.0 (ids entries.now) }
{
    for entry in entries {
        if entry.has_id(y) {
            return Some(false);
        }
        if entry.has_id(x) {
            return Some(true);
        }
    }
    None
}

/// Whether `x` stands strictly between, going right.
pub(crate) fn is_between(entries: &[Entry], from: MemberId, x: MemberId, to: MemberId) -> bool
    ensures { result ≡ the_test entries.now from.0 x.0 to.0 }
{
    let (after, before) = others(entries, from);
    comes_first(after, x, to)
        .or(comes_first(before, x, to))
        .unwrap_or(false)
}

/// The mark of the entry of that id.
pub(crate) fn mark_of(entries: &[Entry], id: MemberId) -> Option<Mark>
    ensures { result ≡ mark_in entries.now id.0 }
{
    for entry in entries {
        if entry.has_id(id) {
            return Some(entry.mark);
        }
    }
    None
}

/// The entry of that id.
fn entry_of(entries: &[Entry], id: MemberId) -> Option<&Entry>
    ensures { MatchOption result (entry_in entries.now id.0 ≡ no_entry)
        (λ entry. entry.now ≡ entry_in entries.now id.0) }
{
    for entry in entries {
        if entry.has_id(id) {
            return Some(entry);
        }
    }
    None
}

/// Whether the entry of that id is live.
pub(crate) fn is_live(entries: &[Entry], id: MemberId) -> bool
    ensures { result ≡ lives entries.now id.0 }
{
    match entry_of(entries, id) {
        Some(entry) => entry.is_live(),
        None => false,
    }
}

/// Whether the entry of that id is erased; an id without one counts as erased.
pub(crate) fn is_erased(entries: &[Entry], id: MemberId) -> bool
    ensures { result ≡ rests entries.now id.0 }
{
    match entry_of(entries, id) {
        Some(entry) => entry.mark.is_erased(),
        None => true,
    }
}

/// Whether the entry of that id is dead.
pub(crate) fn is_dead(entries: &[Entry], id: MemberId) -> bool
    ensures { result ≡ died entries.now id.0 }
{
    match entry_of(entries, id) {
        Some(entry) => entry.mark.is_dead(),
        None => false,
    }
}

/// The version from which its left neighbour has been the present one; 0 without the entry.
pub(crate) fn since_of(entries: &[Entry], id: MemberId) -> u32
    ensures { result ≡ (entry_in entries.now id.0).since }
{
    match entry_of(entries, id) {
        Some(entry) => entry.since,
        None => 0,
    }
}

/// Whether the entry of that id is registered as synchronised.
pub(crate) fn is_synced(entries: &[Entry], id: MemberId) -> bool
    ensures { result ≡ (entry_in entries.now id.0).synced }
{
    match entry_of(entries, id) {
        Some(entry) => entry.synced,
        None => false,
    }
}

/// Whether `id` answers for this entry, which is dead.
fn is_alias(entries: &[Entry], entry: &Entry, id: MemberId) -> bool
    requires { AreDistinct (ids entries.now) }
    ensures { result ≡ (is_dead_mark entry.now.mark && owns entries.now id.0 entry.now.id.0) }
{
    entry.mark.is_dead() && owner_of(entries, entry.id) == Some(id)
}

/// Notes the version with the others whose left neighbour an entry is.
pub(crate) fn date_right_of(entries: &mut [Entry], left: MemberId, version: u32)
    requires { AreDistinct (ids entries.old) }
    ensures { entries.new ≡ map (dated_right_of left.0 version entries.old) entries.old }
{
    for place in 0..entries.len() {
        let id = entries[place].id;
        if id.0 != left.0 && left_of(entries, id).0 == left.0 {
            entries[place].since = version;
        }
    }
}

/// Gives the entry this mark.
pub(crate) fn set_mark(entries: &mut [Entry], id: MemberId, mark: Mark)
    ensures { entries.new ≡ map (with_mark mark id.0) entries.old }
{
    for entry in entries.iter_mut() {
        if entry.has_id(id) {
            entry.mark = mark;
        }
    }
}

/// Registers the entry as synchronised.
pub(crate) fn set_synced(entries: &mut [Entry], id: MemberId)
    ensures { entries.new ≡ map (with_synced id.0) entries.old }
{
    for entry in entries.iter_mut() {
        if entry.has_id(id) {
            entry.synced = true;
        }
    }
}

/// Marks the entry dead, and notes the version with those whose left neighbour is then another.
pub(crate) fn mark_dead(entries: &mut [Entry], dead: MemberId, version: u32)
    requires { AreDistinct (ids entries.old) }
    ensures { entries.new ≡ map (dated version entries.old (map (with_mark Dead dead.0) entries.old))
        (map (with_mark Dead dead.0) entries.old) }
{
    date_right_of(entries, dead, version);
    set_mark(entries, dead, Mark::Dead);
}

/// Whether the entry is a live one, and why not.
pub(crate) fn must_live(entries: &[Entry], id: MemberId) -> Result<(), Reason>
    ensures { result ≡ answer_of (mark_refusal entries.now id.0) }
{
    let Some(mark) = mark_of(entries, id) else {
        return Err(Reason::UnknownMember);
    };
    if !mark.is_live() {
        return Err(Reason::AlreadyDead);
    }
    Ok(())
}

/// Whether the entry is a dead one, and why not.
pub(crate) fn must_be_dead(entries: &[Entry], id: MemberId) -> Result<(), Reason>
    ensures { result ≡ answer_of (erase_refusal entries.now id.0) }
{
    let Some(mark) = mark_of(entries, id) else {
        return Err(Reason::UnknownMember);
    };
    if !mark.is_dead() {
        return Err(Reason::NotDead);
    }
    Ok(())
}

/// Whether the entry is a live one that isn't registered as synchronised, and why not.
pub(crate) fn may_sync(entries: &[Entry], id: MemberId) -> Result<(), Reason>
    ensures { result ≡ answer_of (sync_refusal entries.now id.0) }
{
    must_live(entries, id)?;
    if is_synced(entries, id) {
        return Err(Reason::AlreadySynced);
    }
    Ok(())
}

/// Whether the entry may admit one of this name, and why not.
pub(crate) fn may_admit(entries: &[Entry], by: MemberId, name: &Name) -> Result<(), Reason>
    ensures { result ≡ answer_of (admit_refusal entries.now by.0 name.now) }
{
    must_live(entries, by)?;
    if find(entries, name).is_some() {
        return Err(Reason::NameTaken);
    }
    if entries.len() >= MOST_MEMBERS {
        return Err(Reason::TooManyMembers);
    }
    Ok(())
}

/// The place directly right of the entry of the id, and the end where it has none.
pub(crate) fn place_right_of(entries: &[Entry], id: MemberId) -> usize
    ensures within { result ≤ length entries.now }
    ensures place { is_in id.0 (ids entries.now) ≡ true → result ≡ the_place entries.now id.0 + 1 }
{
    match place_of(entries, id) {
        Some(place) => place + 1,
        None => entries.len(),
    }
}

/// The dead entries for which `id` answers, going left from it.
pub(crate) fn aliases_of(
    alloc: Global,
    entries: &[Entry],
    id: MemberId,
) -> Result<Vec<MemberId>, OutOfMemory>
    requires { AreDistinct (ids entries.now) }
    ensures { IfOk result (λ v. map number v.items ≡ the_aliases entries.now id.0) }
{
    let (after, before) = others(entries, id);
    let mut aliases = Vec::new(alloc);
    push_aliases(entries, before, id, &mut aliases)?;
    push_aliases(entries, after, id, &mut aliases)?;
    Ok(aliases)
}

/// Adds those of a part of the ring, going left.
fn push_aliases(
    entries: &[Entry],
    part: &[Entry],
    id: MemberId,
    aliases: &mut Vec<MemberId>,
) -> Result<(), OutOfMemory>
    requires distinct { AreDistinct (ids entries.now) }
    requires part { AreFound entries.now part.now }
    ensures { OnOk result (map number aliases.new.items
        ≡ map number aliases.old.items ++ filter (is_the_alias entries.now id.0) (reverse (ids part.now))) }
{
    let mut end = part.len();
    while end > 0 {
        end -= 1;
        let entry = part[end];
        if is_alias(entries, &entry, id) {
            aliases.push(entry.id)?;
        }
    }
    Ok(())
}

/// The entry's id, by its name.
pub(crate) fn find(entries: &[Entry], name: &Name) -> Option<MemberId>
    ensures { result ≡ the_id entries.now name.now }
{
    for entry in entries {
        if entry.is_named(name) {
            return Some(entry.id);
        }
    }
    None
}

/// An entry for each name, with ids from 1.
pub(crate) fn opening(alloc: Global, names: &[Name]) -> Result<Vec<Entry>, OutOfMemory>
    requires { length names.now ≤ most_entries }
    ensures { IfOk result (λ v. v.items ≡ opening_entries 1 names.now) }
{
    let mut entries = Vec::new(alloc);
    for (place, name) in names.iter().enumerate() {
        entries.push(Entry::opening(place as u32 + 1, *name))?;
    }
    Ok(entries)
}
