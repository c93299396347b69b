//! Values that can be copied.
ghost use Rattle.std.specs.Prelude.{◌≡◌, IfOk};

use queue_core::Message;
use ring_names::OutOfMemory;

/// Values of which a second one can be made.
pub trait Copied: Sized {
    /// An equal value.
    fn copied(&self) -> Result<Self, OutOfMemory>
        ensures { IfOk result (λ copy. copy ≡ self.now) };
}

impl Copied for Message {
    fn copied(&self) -> Result<Message, OutOfMemory> {
        self.copy()
    }
}
