//! An item of a queue, as it is shown.
use ring_names::{Body, Position};

/// How an item of a queue stands.
#[derive(Clone, Copy, PartialEq, Eq, Debug)]
pub enum CopyState {
    /// It waits to be handed out, and never was.
    Ready,
    /// It waits to be handed out again: its consumer handed it back, or its master went away.
    Again,
    /// It is handed out and not acknowledged.
    Unacked,
}

/// An item of a queue.
#[derive(Clone, Copy, Debug)]
pub struct Held<'a> {
    /// Its position.
    pub at: Position,
    /// The body of its message.
    pub body: &'a Body,
    /// How it stands.
    pub state: CopyState,
}
