//! What is put on a copy.
ghost use Rattle.std.specs.Prelude.{◌≡◌, IfOk};
ghost use Rattle.queue_core.specs.Shown.{item_of as shown_item};
ghost use Rattle.queue_sync.specs.Copy.{item_of};

use queue_core::{CopyState, Held};
use ring_names::{Body, OutOfMemory, Position};

/// An item of the master's queue on its way to a mirror.
#[derive(Drop, Debug)]
pub struct CopyItem {
    /// Its position.
    pub at: Position,
    /// The body of its message.
    pub body: Body,
    /// How it stands.
    pub state: CopyState,
}

/// What is put on a copy.
#[derive(Drop, Debug)]
pub enum CopyLoad {
    /// An item, above those before it.
    Item(CopyItem),
    /// That this is all.
    Done,
}

/// A copy of an item that is shown.
pub(crate) fn copy_of(held: Held<'_>) -> Result<CopyItem, OutOfMemory>
    ensures { IfOk result (λ item. item_of item ≡ shown_item held.entry) }
{
    Ok(CopyItem {
        at: held.at,
        body: held.body.copy()?,
        state: held.state,
    })
}
