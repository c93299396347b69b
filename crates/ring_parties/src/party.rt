//! A party of a cluster.
ghost use Rattle.std.specs.Prelude.{◌≡◌, IfOk};
ghost use Rattle.ring_parties.specs.Parties.{shown_of, shown_in, keeps_in};
ghost use Rattle.ring_parties.specs.Keeps.{no_keeps, joining_keeps};

use crate::control::Control;
use crate::node::Node;
use confirm_book::Book;
use queue_mirror::Mirror;
use ring_names::OutOfMemory;
use std::alloc::Global;

/// A member of the ring with what it keeps of its queue: the mirror, whether it has published Start as a master, the
/// version that its view had when it last told how many messages there are (`rabbit_mirror_queue_slave`), the book of its
/// own messages, by which they are confirmed, and the rings over which it asks the registrar.
#[derive(Drop)]
pub(crate) struct Party {
    pub(crate) node: Node,
    pub(crate) mirror: Mirror,
    pub(crate) started: bool,
    pub(crate) told: u32,
    pub(crate) book: Book,
    pub(crate) control: Control,
    // Whether its receiver takes from the link on which it sends, so that the ends of that link meet before and after a
    // round.
    pub(crate) meets: bool,
}

impl Party {
    /// The party of a member that is there from the opening.
    pub(crate) fn founding(alloc: Global, node: Node) -> Result<Party, OutOfMemory>
        ensures shown { IfOk result (λ p. shown_in p ≡ shown_of node) }
        ensures keeps { IfOk result (λ p. keeps_in p ≡ no_keeps) }
    {
        Ok(Party {
            node,
            mirror: Mirror::founding(alloc),
            started: false,
            told: 0,
            book: Book::new(alloc),
            control: Control::new(alloc)?,
            meets: false,
        })
    }

    /// The party of one that joins, which asks the registrar over these rings.
    pub(crate) fn joining(alloc: Global, node: Node, control: Control) -> Party
        ensures shown { shown_in result ≡ shown_of node }
        ensures keeps { keeps_in result ≡ joining_keeps }
    {
        Party {
            node,
            mirror: Mirror::joining(alloc),
            started: false,
            told: 0,
            book: Book::new(alloc),
            control,
            meets: false,
        }
    }
}
