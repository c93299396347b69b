//! What each member has published, read of the journal.
ghost use Rattle.std.specs.Prelude.{◌≡◌, ◌<◌, ◌∷◌, ◌++◌, [], List, length, map, IfOk, OnOk};
ghost use Rattle.std.specs.Prelude.{slice_set, slice_index_or, bytes_eq, IfSome};
ghost use Rattle.group_view.specs.Change.{AreDifferent};
ghost use Rattle.ring_rules.specs.declared.event.Event.{Event};
ghost use Rattle.ring_rules.specs.declared.kind.Kind.{Kind};
ghost use Rattle.ring_rules.specs.Kind.{kind_of, shown_kind};
ghost use Rattle.ring_rules.specs.Published.{published_in};
ghost use Rattle.ring_cluster.specs.Agendas.{place_among};
ghost use Rattle.ring_cluster.specs.Published.{told_by, told_in};

use ring_names::{Body, Name, OutOfMemory};
use ring_rules::{Event, Kind};
use std::alloc::Global;

/// Of each member of these names, by places, what is told of the messages that the events have published, in order.
pub(crate) fn told_of<'a>(
    alloc: Global,
    names: &[Name],
    events: &'a [Event],
) -> Result<Vec<Vec<Option<&'a Body>>>, OutOfMemory>
    requires { AreDifferent names.now }
    ensures { IfOk result (λ all. told_in all.items ≡ map (λ name. published_in name events.now) names.now) }
{
    let mut all = nothing_of(alloc, names)?;
    for event in events {
        push_told(&mut all, names, event)?;
    }
    Ok(all)
}

/// Nothing of each.
fn nothing_of<'a>(alloc: Global, names: &[Name]) -> Result<Vec<Vec<Option<&'a Body>>>, OutOfMemory>
    ensures { IfOk result (λ all. told_in all.items ≡ map (λ name. published_in name []) names.now) }
{
    let mut all = Vec::with_capacity(alloc, names.len())?;
    for _place in 0..names.len() {
        all.push(Vec::new(alloc))?;
    }
    Ok(all)
}

/// What one event more publishes joins what those before it did.
fn push_told<'a>(
    all: &mut Vec<Vec<Option<&'a Body>>>,
    names: &[Name],
    event: &'a Event,
) -> Result<(), OutOfMemory>
    requires different { AreDifferent names.now }
    requires many { length all.old.items ≡ length names.now }
    ensures { OnOk result ((before : List Event)
        → told_in all.old.items ≡ map (λ name. published_in name before) names.now
        → told_in all.new.items ≡ map (λ name. published_in name (before ++ event.now ∷ [])) names.now) }
{
    match event.kind() {
        Kind::Says => push_said(all, names, event),
        _ => Ok(()),
    }
}

/// The same of an event by which its member says something.
fn push_said<'a>(
    all: &mut Vec<Vec<Option<&'a Body>>>,
    names: &[Name],
    event: &'a Event,
) -> Result<(), OutOfMemory>
    requires different { AreDifferent names.now }
    requires many { length all.old.items ≡ length names.now }
    requires says { shown_kind (kind_of event.now) ≡ Kind.Says }
    ensures { OnOk result ((before : List Event)
        → told_in all.old.items ≡ map (λ name. published_in name before) names.now
        → told_in all.new.items ≡ map (λ name. published_in name (before ++ event.now ∷ [])) names.now) }
{
    if let Some(place) = the_place_among(names, event.by()) {
        push_at(all, place, event.own_body())?;
    }
    Ok(())
}

/// What is told of a message joins that of those of the member at a place.
fn push_at<'a>(
    all: &mut Vec<Vec<Option<&'a Body>>>,
    place: usize,
    told: Option<&'a Body>,
) -> Result<(), OutOfMemory>
    requires { place < length all.old.items }
    ensures { OnOk result (told_in all.new.items ≡ slice_set (told_in all.old.items) place
        (slice_index_or (told_in all.old.items) place [] ++ told_by told.entry ∷ [])) }
{
    let messages = &mut all[place];
    messages.push(told)?;
    Ok(())
}

/// The place of a name.
fn the_place_among(names: &[Name], name: &Name) -> Option<usize>
    ensures place { result ≡ place_among names.now name.now }
    ensures within { IfSome result (λ place. place < length names.now) }
{
    names.iter().position(|other| is_same(other, name))
}

fn is_same(one: &Name, other: &Name) -> bool
    ensures { result ≡ bytes_eq one.now other.now }
{
    one.bytes() == other.bytes()
}
