//! The items of a queue, in the order of their positions.
ghost use Rattle.std.specs.Prelude.{◌≡◌, ◌+◌, ◌<◌, ◌≤◌, true, nat_le, map};
ghost use Rattle.std.specs.List.{position_or_len, remove};
ghost use Rattle.std.proofs.Common.{deque_len, deque_capacity};
ghost use Rattle.queue_core.specs.declared.held.CopyState.TheVariants.{Unacked};
ghost use Rattle.queue_core.specs.declared.op.Op.TheVariants.{Deliver, Drop, Ack, Requeue};
ghost use Rattle.queue_core.specs.Queue.{is_at, is_unacked, is_ready_at, is_unacked_at, is_above, new_item, kept, rises};
ghost use Rattle.queue_core.specs.Shown.{item_of, least_of, delivery_of};
ghost use Rattle.queue_core.specs.Slots.{again, IsPlaceOf};

use crate::held::{CopyState, Held};
use ring_names::{Body, Position, Reason};
use std::collections::VecDeque;
use std::marker::Model;

/// An item in its place.
#[derive(Drop, Debug)]
pub(crate) struct Slot {
    at: u64,
    body: Body,
    state: CopyState,
}

impl Model for Slot {
    ghost use Rattle.queue_core.specs.Queue.{Item};

    ghost Value = { Item };

    ghost view = { λ s. record { at = s.at; body = s.body; state = s.state } };
}

impl Slot {
    /// A message as it is published.
    pub fn new(at: Position, body: Body) -> Slot
        ensures { result ≡ new_item at.0 body }
    {
        Slot {
            at: at.0,
            body,
            state: CopyState::Ready,
        }
    }

    /// The item, as it is shown.
    pub fn held(&self) -> Held<'_>
        ensures { item_of result ≡ self.now }
    {
        Held {
            at: Position(self.at),
            body: &self.body,
            state: self.state,
        }
    }

    /// Whether the item has that position.
    fn is_at(&self, at: u64) -> bool
        ensures { result ≡ is_at at self.now }
    {
        self.at == at
    }

    /// Whether it has that position or one above it.
    fn is_from(&self, at: u64) -> bool
        ensures { result ≡ nat_le at (self.now).at }
    {
        at <= self.at
    }

    /// Whether it is handed out.
    pub fn is_handed(&self) -> bool
        ensures { result ≡ is_unacked self.now }
    {
        match self.state {
            CopyState::Ready => false,
            CopyState::Again => false,
            CopyState::Unacked => true,
        }
    }

    /// It is handed out.
    fn hand_out(&mut self)
        ensures { self.new ≡ record self.old { state = Unacked } }
    {
        self.state = CopyState::Unacked;
    }

    /// It is ready again, where it was handed out.
    fn hand_back(&mut self)
        ensures { self.new ≡ again self.old }
    {
        if self.is_handed() {
            self.state = CopyState::Again;
        }
    }
}

/// The place of the first item at that position or above it: the number of items, where there is none.
pub(crate) fn place_from(slots: &VecDeque<Slot>, at: u64) -> usize
    requires { rises slots.now.items ≡ true }
    ensures { result ≡ position_or_len (λ item. nat_le at item.at) slots.now.items }
{
    slots.partition_point(|slot| !slot.is_from(at))
}

/// Whether all items stand below that position.
pub(crate) fn are_below(slots: &VecDeque<Slot>, at: u64) -> bool
    requires { rises slots.now.items ≡ true }
    ensures { result ≡ is_above at slots.now.items }
{
    match slots.back() {
        Some(last) => !last.is_from(at),
        None => true,
    }
}

/// The position of the first ready item, or `QueueEmpty` where nothing is ready. It passes over what is handed out in
/// front of it.
pub(crate) fn least(slots: &VecDeque<Slot>) -> Result<Position, Reason>
    ensures { result ≡ least_of slots.now.items }
{
    match slots.iter().find(|slot| !slot.is_handed()) {
        Some(slot) => Ok(slot.held().at),
        None => Err(Reason::QueueEmpty),
    }
}

/// Whether the item of that position is handed out.
pub(crate) fn delivered(slots: &VecDeque<Slot>, at: Position) -> Result<(), Reason>
    requires { rises slots.now.items ≡ true }
    ensures { result ≡ delivery_of at.0 slots.now.items }
{
    let Some(place) = place_of(slots, at.0) else {
        return Err(Reason::UnknownPosition);
    };
    if slots[place].is_handed() {
        Ok(())
    } else {
        Err(Reason::NotDelivered)
    }
}

/// The ready item of that position is handed out.
pub(crate) fn hand_out(slots: &mut VecDeque<Slot>, at: Position)
    requires { rises slots.old.items ≡ true }
    ensures items { slots.new.items ≡ kept (Deliver at) slots.old.items }
    ensures len { deque_len slots.new ≤ deque_len slots.old }
    ensures capacity { deque_capacity slots.new ≡ deque_capacity slots.old }
{
    if let Some(place) = ready_place(slots, at.0) {
        slots[place].hand_out();
    }
}

/// The ready item of that position is taken off.
pub(crate) fn take_off(slots: &mut VecDeque<Slot>, at: Position)
    requires { rises slots.old.items ≡ true }
    ensures items { slots.new.items ≡ kept (Drop at) slots.old.items }
    ensures len { deque_len slots.new ≤ deque_len slots.old }
    ensures capacity { deque_capacity slots.new ≡ deque_capacity slots.old }
{
    if let Some(place) = ready_place(slots, at.0) {
        remove_at(slots, place);
    }
}

/// The item of that position, which was handed out, leaves.
pub(crate) fn acknowledge(slots: &mut VecDeque<Slot>, at: Position)
    requires { rises slots.old.items ≡ true }
    ensures items { slots.new.items ≡ kept (Ack at) slots.old.items }
    ensures len { deque_len slots.new ≤ deque_len slots.old }
    ensures capacity { deque_capacity slots.new ≡ deque_capacity slots.old }
{
    if let Some(place) = unacked_place(slots, at.0) {
        remove_at(slots, place);
    }
}

/// The item of that position, which was handed out, is ready again.
pub(crate) fn hand_back(slots: &mut VecDeque<Slot>, at: Position)
    requires { rises slots.old.items ≡ true }
    ensures items { slots.new.items ≡ kept (Requeue at) slots.old.items }
    ensures len { deque_len slots.new ≤ deque_len slots.old }
    ensures capacity { deque_capacity slots.new ≡ deque_capacity slots.old }
{
    if let Some(place) = unacked_place(slots, at.0) {
        slots[place].hand_back();
    }
}

/// All that was handed out is ready again.
pub(crate) fn hand_all_back(slots: &mut VecDeque<Slot>)
    ensures items { slots.new.items ≡ map again slots.old.items }
    ensures len { deque_len slots.new ≤ deque_len slots.old }
    ensures capacity { deque_capacity slots.new ≡ deque_capacity slots.old }
{
    for place in 0..slots.len() {
        slots[place].hand_back();
    }
}

// The item in that place leaves.
fn remove_at(slots: &mut VecDeque<Slot>, place: usize)
    requires { place < deque_len slots.old }
    ensures items { slots.new.items ≡ remove slots.old.items place }
    ensures len { deque_len slots.new + 1 ≡ deque_len slots.old }
    ensures capacity { deque_capacity slots.new ≡ deque_capacity slots.old }
{
    let _ = slots.remove(place);
}

// The place of the item of that position.
fn place_of(slots: &VecDeque<Slot>, at: u64) -> Option<usize>
    requires { rises slots.now.items ≡ true }
    ensures { IsPlaceOf (is_at at) slots.now.items result }
{
    let place = place_from(slots, at);
    if !slots.get(place)?.is_at(at) {
        return None;
    }
    Some(place)
}

// The place of the ready item of that position.
fn ready_place(slots: &VecDeque<Slot>, at: u64) -> Option<usize>
    requires { rises slots.now.items ≡ true }
    ensures { IsPlaceOf (is_ready_at at) slots.now.items result }
{
    let place = place_of(slots, at)?;
    if slots[place].is_handed() {
        return None;
    }
    Some(place)
}

// The place of the item of that position that is handed out.
fn unacked_place(slots: &VecDeque<Slot>, at: u64) -> Option<usize>
    requires { rises slots.now.items ≡ true }
    ensures { IsPlaceOf (is_unacked_at at) slots.now.items result }
{
    let place = place_of(slots, at)?;
    if !slots[place].is_handed() {
        return None;
    }
    Some(place)
}
