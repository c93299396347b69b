//! A law of where the registrar stands.
ghost use Rattle.ring_rules.specs.Machine.{World};
ghost use Rattle.ring_rules.specs.Event.{effect};
ghost use Rattle.ring_rules.specs.declared.event.Event.{Event};
ghost use Rattle.registrar.specs.Registry.{Registry};
ghost use Rattle.registrar.specs.Stands.{IsOwn, StandsIn};

/// All that members do but stopping, marking, admitting, erasing and being registered as synchronised leaves the
/// registrar where it stands, in any state. What they do with it is said at `Registrar::handle`.
pub fn other_events_leave_the_registrar<I>()
    ensures { (w : World) (r : Registry I) (e : Event) → IsOwn e → StandsIn w r → StandsIn (effect w e) r }
{}
