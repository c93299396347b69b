//! The control rings of a member: one for what it asks of the registrar, and one for what is answered.
ghost use Rattle.std.specs.Prelude.{◌≡◌, IfOk, IfErr, OnOk, OnErr, None};
ghost use Rattle.registrar.specs.Registry.{AreHere};
ghost use Rattle.registrar.specs.Asked.{request_refusal};
ghost use Rattle.registrar.specs.Handled.{handled, answered};

use activity::Load;
use group_view::{Answer, Request};
use ordered_link::RingIn;
use registrar::Registrar;
use ring_names::OutOfMemory;
use rtrb::{Consumer, Producer, PushError, RingBuffer};
use std::alloc::Global;
use std::marker::Model;

/// How many values a control ring has slots for.
const SLOTS: usize = 2;

/// A ring of which both ends stand here, and which is empty from one call to the next.
#[derive(Drop)]
struct Way<T> {
    there: Producer<T>,
    here: Consumer<T>,
}

impl<T> Model for Way<T> {
    ghost use Rattle.std.specs.Prelude.{⊤, ◌≡◌};
    ghost use Rattle.rtrb.specs.Ring.{IsPair, sent, received, producer_capacity};

    ghost Value = { ⊤ };

    ghost view = { λ _. tt };

    ghost invariant = { λ w. IsPair w.there w.here × (received w.here ≡ sent w.there) × (producer_capacity w.there ≡ 2) };
}

impl<T: Drop> Way<T> {
    fn new(alloc: Global) -> Result<Way<T>, OutOfMemory> {
        let (there, here) = RingBuffer::new(alloc, SLOTS)?;
        Ok(Way { there, here })
    }

    /// What came out at the other end. A value for which the ring shows no slot is handed back.
    fn send(&mut self, value: T) -> Result<T, T>
        ensures ok { IfOk result (λ x. x ≡ value) }
        ensures back { IfErr result (λ x. x ≡ value) }
    {
        if let Err(PushError::Full(value)) = self.there.push(value) {
            return Err(value);
        }
        self.here.slots_beside(&mut self.there);
        Ok(self.here.pop_known())
    }

    /// The same, once the ends have met: then there is a slot.
    fn send_met(&mut self, value: T) -> T
        ensures { result ≡ value }
    {
        self.there.slots_beside(&mut self.here);
        self.there.push_reserved(value);
        self.here.slots_beside(&mut self.there);
        self.here.pop_known()
    }
}

/// Both control rings of a member, with all four ends.
#[derive(Drop)]
pub(crate) struct Control {
    asked: Way<Request<RingIn<Load>>>,
    answered: Way<Answer<RingIn<Load>>>,
}

impl Model for Control {
    ghost use Rattle.std.specs.Prelude.{⊤};

    ghost Value = { ⊤ };

    ghost view = { λ _. tt };
}

impl Control {
    /// Rings over which nothing has gone yet.
    pub(crate) fn new(alloc: Global) -> Result<Control, OutOfMemory> {
        Ok(Control {
            asked: Way::new(alloc)?,
            answered: Way::new(alloc)?,
        })
    }

    /// The request goes to the registrar, which handles it, and its answer comes back. Where the ring shows no slot
    /// for the request, and where memory is wanting, the request comes back and nothing has changed.
    pub(crate) fn visit(
        &mut self,
        registrar: &mut Registrar<RingIn<Load>>,
        request: Request<RingIn<Load>>,
    ) -> Result<Answer<RingIn<Load>>, (Request<RingIn<Load>>, OutOfMemory)>
        requires here { AreHere (registrar.old).links }
        requires allowed { request_refusal registrar.old request ≡ None }
        ensures ok { OnOk result (registrar.new ≡ handled registrar.old request) }
        ensures answer { IfOk result (λ a. a ≡ answered registrar.old request) }
        ensures err { OnErr result (registrar.new ≡ registrar.old) }
        ensures back { IfErr result (λ e. e.0 ≡ request) }
        ensures here { AreHere (registrar.new).links }
    {
        match self.asked.send(request) {
            Ok(request) => {
                let answer = registrar.handle(request)?;
                Ok(self.answered.send_met(answer))
            }
            Err(request) => Err((request, OutOfMemory)),
        }
    }
}
