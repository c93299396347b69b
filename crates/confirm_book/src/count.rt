//! How many messages of each kind.
ghost use Rattle.std.specs.Prelude.{◌≡◌, ◌+◌, ◌^◌, ◌<◌, [], ◌∷◌};
ghost use Rattle.confirm_book.specs.Counts.{with_kinds};

use crate::kind::Kind;

/// How many casts and publishes a log has up to a message.
#[derive(Clone, Copy, Default, Debug)]
pub(crate) struct Count {
    pub casts: u64,
    pub publishes: u64,
}

impl Count {
    /// With one message more.
    pub fn with(self, kind: Kind) -> Count
        requires { self.casts + self.publishes + 1 < 2 ^ 64 }
        ensures { result ≡ with_kinds (kind ∷ []) self }
    {
        match kind {
            Kind::Cast => Count {
                casts: self.casts + 1,
                ..self
            },
            Kind::Publish => Count {
                publishes: self.publishes + 1,
                ..self
            },
            Kind::Other => self,
        }
    }
}
