//! What a master answers its clients.
ghost use Rattle.std.specs.Prelude.{◌≡◌, ◌<◌, true, IfOk};
ghost use Rattle.group_view.specs.Change.{answer_of};
ghost use Rattle.queue_core.specs.Queue.{greatest};
ghost use Rattle.queue_core.specs.Legal.{is_legal};
ghost use Rattle.queue_mirror.specs.Master.{lead_by, lead_refusal, start_refusal, publish_of, get_of, pop_of, ack_of, requeue_of, depth_of, start_of};

use crate::mirror::Mirror;
use group_view::View;
use queue_core::Op;
use ring_names::{Body, MemberId, Position, Reason};

/// The calls of the member that speaks for the queue: each answers the operation that it publishes next, by its own
/// mirror, and changes nothing. Clients ask for five of them; `depth` and `start` a master makes by itself. A member may
/// not speak where its view has no master (`NoMaster`), where the master is another (`NotMaster`), or where it leads in
/// a term above 1 and hasn't published its start in it (`NotStarted`): the first of these that holds is the answer.
/// None takes memory.
pub struct Master;

impl Master {
    /// Whether a member may speak for the queue, by its view and by whether it has published its start.
    pub fn may_speak(view: &View, me: MemberId, started: bool) -> Result<(), Reason>
        ensures { result ≡ answer_of (lead_refusal view.now me.0 started) }
    {
        may_lead(view, me, view.term > 1 && !started)
    }

    /// A message of that body at the next position. Where the member may not speak, the body is handed back.
    pub fn publish(
        mirror: &Mirror,
        view: &View,
        me: MemberId,
        started: bool,
        body: Body,
    ) -> Result<Op, (Body, Reason)>
        ensures answer { result ≡ publish_of mirror.now.mirror view.now me.0 started body }
        ensures legal { IfOk result (λ op. mirror.now.mirror.queue.next < greatest
            → is_legal op mirror.now.mirror.queue.items ≡ true) }
    {
        match Master::may_speak(view, me, started) {
            Ok(()) => Ok(Op::Publish {
                at: mirror.queue().next(),
                body,
            }),
            Err(reason) => Err((body, reason)),
        }
    }

    /// The first ready item is handed out; `QueueEmpty` where nothing is ready.
    pub fn get(mirror: &Mirror, view: &View, me: MemberId, started: bool) -> Result<Op, Reason>
        ensures answer { result ≡ get_of mirror.now.mirror view.now me.0 started }
        ensures legal { IfOk result (λ op. is_legal op mirror.now.mirror.queue.items ≡ true) }
    {
        Master::may_speak(view, me, started)?;
        let at = mirror.queue().least()?;
        Ok(Op::Deliver { at })
    }

    /// The first ready item is taken off for good; `QueueEmpty` where nothing is ready.
    pub fn pop(mirror: &Mirror, view: &View, me: MemberId, started: bool) -> Result<Op, Reason>
        ensures answer { result ≡ pop_of mirror.now.mirror view.now me.0 started }
        ensures legal { IfOk result (λ op. is_legal op mirror.now.mirror.queue.items ≡ true) }
    {
        Master::may_speak(view, me, started)?;
        let at = mirror.queue().least()?;
        Ok(Op::Drop { at })
    }

    /// The item of that position, which was handed out, is acknowledged; `UnknownPosition` where no item has it, and
    /// `NotDelivered` where the item is ready.
    pub fn ack(
        mirror: &Mirror,
        view: &View,
        me: MemberId,
        started: bool,
        at: Position,
    ) -> Result<Op, Reason>
        ensures answer { result ≡ ack_of mirror.now.mirror view.now me.0 started at }
        ensures legal { IfOk result (λ op. is_legal op mirror.now.mirror.queue.items ≡ true) }
    {
        Master::may_speak(view, me, started)?;
        mirror.queue().delivered(at)?;
        Ok(Op::Ack { at })
    }

    /// The item of that position, which was handed out, is ready again; refused as an acknowledgement.
    pub fn requeue(
        mirror: &Mirror,
        view: &View,
        me: MemberId,
        started: bool,
        at: Position,
    ) -> Result<Op, Reason>
        ensures answer { result ≡ requeue_of mirror.now.mirror view.now me.0 started at }
        ensures legal { IfOk result (λ op. is_legal op mirror.now.mirror.queue.items ≡ true) }
    {
        Master::may_speak(view, me, started)?;
        mirror.queue().delivered(at)?;
        Ok(Op::Requeue { at })
    }

    /// The number of items, ready and handed out: a mirror learns from it how many it lacks. The master publishes it
    /// by itself, where members have joined.
    pub fn depth(mirror: &Mirror, view: &View, me: MemberId, started: bool) -> Result<Op, Reason>
        ensures answer { result ≡ depth_of mirror.now.mirror view.now me.0 started }
        ensures legal { IfOk result (λ op. is_legal op mirror.now.mirror.queue.items ≡ true) }
    {
        Master::may_speak(view, me, started)?;
        Ok(Op::Depth {
            depth: mirror.queue().depth(),
        })
    }

    /// The start of a master in a term above 1, with the number of items, before anything else that it publishes. It
    /// makes it by itself: `NoMaster` and `NotMaster` come as ever, and `AlreadyStarted` in a term of 1 or below, and
    /// where the member has published it.
    pub fn start(mirror: &Mirror, view: &View, me: MemberId, started: bool) -> Result<Op, Reason>
        ensures answer { result ≡ start_of mirror.now.mirror view.now me.0 started }
        ensures legal { IfOk result (λ op. is_legal op mirror.now.mirror.queue.items ≡ true) }
    {
        may_start(view, me, started)?;
        Ok(Op::Start {
            depth: mirror.queue().depth(),
        })
    }
}

// Whether the member has a start to publish.
fn may_start(view: &View, me: MemberId, started: bool) -> Result<(), Reason>
    ensures { result ≡ answer_of (start_refusal view.now me.0 started) }
{
    may_lead(view, me, false)?;
    if view.term <= 1 || started {
        return Err(Reason::AlreadyStarted);
    }
    Ok(())
}

// Whether the member is the master, and isn't late with its start.
fn may_lead(view: &View, me: MemberId, late: bool) -> Result<(), Reason>
    ensures { result ≡ answer_of (lead_by view.now.master me.0 late) }
{
    let Some(master) = view.master else {
        return Err(Reason::NoMaster);
    };
    if master != me {
        return Err(Reason::NotMaster);
    }
    if late {
        return Err(Reason::NotStarted);
    }
    Ok(())
}
