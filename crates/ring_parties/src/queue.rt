//! What a party says, and what it does to its mirror.
ghost use Rattle.std.specs.Prelude.{◌≡◌, ◌∷◌, ◌<◌, ◌≤◌, ◌-◌, ◌^◌, List, Option, ℕ, false, None, Some, Ok, Err, min, length, OnOk, OnErr, IfOk};
ghost use Rattle.std.specs.Prelude.{MatchOption};
ghost use Rattle.std.specs.List.{sum_by};
ghost use Rattle.ring_names.specs.declared.reason.Reason.{Reason};
ghost use Rattle.queue_core.specs.declared.op.Op.{Op};
ghost use Rattle.queue_core.specs.declared.message.Message.TheVariants as messages;
ghost use Rattle.queue_mirror.specs.Mirror.{apply_ops, is_tell as the_telling};
ghost use Rattle.queue_laws.specs.Starting.{is_start as the_start};
ghost use Rattle.ring_rules.specs.Kind.{Saying, OfQueue, Says, Steps, Does, Publishes, kind_of, shown_kind};
ghost use Rattle.ring_rules.specs.Event.{asked_op};
ghost use Rattle.lamport_merge.specs.Recorder.{is_used_up};
ghost use Rattle.gm_member.specs.Held.{up_refused};
ghost use Rattle.gm_member.specs.Loads.{packet_seen};
ghost use Rattle.gm_member.specs.Said.{said};
ghost use Rattle.gm_member.specs.Shown.{held_of, ends_of, recorded_of, spare_of};
ghost use Rattle.ring_parties.specs.Ends.{PacketShown};
ghost use Rattle.ring_parties.specs.Parties.{shown_of, shown_in, keeps_in};
ghost use Rattle.activity.specs.Kept.{got_of};
ghost use Rattle.confirm_book.specs.Book.{Ledger, last_of, without_room, published as published_in, came_round};
ghost use Rattle.ring_parties.specs.Keeps.{said_by, saying_refused, publishing, kept_after, ops_taken, messages_on};
ghost use Rattle.ring_parties.specs.Keeps.{kind_of_message, own_known};
ghost use Rattle.ring_parties.specs.Acting.{IsReady, IsBooked, Casts, TakesPacket, packet_refused, alone_refused};
ghost use Rattle.ring_parties.specs.Acting.{DoesAlone};
ghost use Rattle.ring_parties.specs.Alone.{IsAlone};
ghost use Rattle.ring_parties.specs.Acting.{first_item as the_first};
ghost use Rattle.ring_parties.specs.Tried.{IsJudged};

use crate::node::{Node, be_alone, take};
use crate::party::Party;
use crate::refusing::{first_item, up_refusal};
use activity::{Load, Packet};
use gm_member::Taken;
use ordered_link::Item;
use queue_core::{Message, Op};
use queue_mirror::{Master, Mirror};
use ring_names::{OutOfMemory, Reason};
use ring_rules::{Asking, Event, Kind, LinkStep, Refused};

/// The operation by which the party does what is asked, or the first condition that fails.
fn operation(party: &Party, asking: Asking) -> Result<Op, Reason>
    ensures { result ≡ asked_op (keeps_in party.now).mirror (shown_in party.now).held.view (shown_in party.now).held.id
        (keeps_in party.now).started (Does asking) }
{
    asking.operation(
        &party.mirror,
        party.node.view(),
        party.node.id(),
        party.started,
    )
}

/// Why the party does nothing of what is asked.
fn asking_refusal(party: &Party, asking: Asking) -> Option<Reason>
    ensures { result ≡ saying_refused (OfQueue (Does asking)) (shown_in party.now).held (keeps_in party.now) }
{
    match operation(party, asking) {
        Ok(_operation) => None,
        Err(reason) => Some(reason),
    }
}

/// Why it publishes nothing to its queue.
fn lead_refusal(party: &Party) -> Option<Reason>
    ensures { (body : List ℕ) → result
        ≡ saying_refused (OfQueue (Publishes body)) (shown_in party.now).held (keeps_in party.now) }
{
    match Master::may_speak(party.node.view(), party.node.id(), party.started) {
        Ok(()) => None,
        Err(reason) => Some(reason),
    }
}

/// Why it doesn't say what the event says, where it is up.
fn saying_refusal(party: &Party, event: &Event) -> Option<Reason>
    requires { shown_kind (kind_of event.now) ≡ Kind.Says }
    ensures { (s : Saying) → kind_of event.now ≡ Says s
        → result ≡ saying_refused s (shown_in party.now).held (keeps_in party.now) }
{
    if event.own_body().is_some() {
        return None;
    }
    if event.queued_body().is_some() {
        return lead_refusal(party);
    }
    match event.asking() {
        Some(asking) => asking_refusal(party, asking),
        None => unreachable!(),
    }
}

/// Why it doesn't say what the event says.
pub(crate) fn say_refusal(party: &Party, event: &Event) -> Option<Reason>
    requires says { shown_kind (kind_of event.now) ≡ Kind.Says }
    requires free { (shown_in party.now).held.asks ≡ false }
    ensures { result ≡ alone_refused (kind_of event.now) (keeps_in party.now) (shown_in party.now) }
{
    match up_refusal(&party.node) {
        Some(reason) => Some(reason),
        None => saying_refusal(party, event),
    }
}

/// Why it doesn't do what a client asks of its queue.
pub(crate) fn ask_refusal(party: &Party, asking: Asking) -> Option<Reason>
    requires { (shown_in party.now).held.asks ≡ false }
    ensures { result ≡ alone_refused (Says (OfQueue (Does asking))) (keeps_in party.now) (shown_in party.now) }
{
    match up_refusal(&party.node) {
        Some(reason) => Some(reason),
        None => asking_refusal(party, asking),
    }
}

/// Why it publishes nothing to its queue for a client.
pub(crate) fn publish_refusal(party: &Party) -> Option<Reason>
    requires { (shown_in party.now).held.asks ≡ false }
    ensures { (body : List ℕ) → result
        ≡ alone_refused (Says (OfQueue (Publishes body))) (keeps_in party.now) (shown_in party.now) }
{
    match up_refusal(&party.node) {
        Some(reason) => Some(reason),
        None => lead_refusal(party),
    }
}

/// The message by which it says it, where nothing refuses that.
pub(crate) fn message(party: &Party, event: &Event) -> Result<Message, OutOfMemory>
    requires says { shown_kind (kind_of event.now) ≡ Kind.Says }
    requires enabled { alone_refused (kind_of event.now) (keeps_in party.now) (shown_in party.now) ≡ None }
    ensures { IfOk result (λ m. (s : Saying) → kind_of event.now ≡ Says s
        → said_by s (shown_in party.now).held (keeps_in party.now) ≡ Ok m) }
{
    if let Some(body) = event.own_body() {
        return Ok(Message::Cast(body.copy()?));
    }
    if let Some(body) = event.queued_body() {
        return Ok(Message::Queue(Op::Publish {
            at: party.mirror.queue().next(),
            body: body.copy()?,
        }));
    }
    let Some(asking) = event.asking() else {
        unreachable!()
    };
    match operation(party, asking) {
        Ok(operation) => Ok(Message::Queue(operation)),
        Err(_) => unreachable!(),
    }
}

/// The party says what the event says, where that is enabled.
pub(crate) fn say(party: &mut Party, event: &Event) -> Result<(), Refused>
    requires says { shown_kind (kind_of event.now) ≡ Kind.Says }
    requires free { (shown_in party.old).held.asks ≡ false }
    requires booked { IsBooked (shown_in party.old) (keeps_in party.old) }
    ensures judged { IsJudged (alone_refused (kind_of event.now) (keeps_in party.old) (shown_in party.old)) result }
    ensures ok { OnOk result (DoesAlone (kind_of event.now) (keeps_in party.old) (shown_in party.old) (shown_in party.new)) }
    ensures keeps { OnOk result (keeps_in party.new
        ≡ kept_after (kind_of event.now) (shown_in party.old) (keeps_in party.old)) }
    ensures err { OnErr result (shown_in party.new ≡ shown_in party.old) }
    ensures err_keeps { OnErr result (keeps_in party.new ≡ keeps_in party.old) }
{
    if let Some(reason) = say_refusal(party, event) {
        return Err(Refused::NotEnabled(reason));
    }
    let Ok(message) = message(party, event) else {
        return Err(Refused::OutOfMemory);
    };
    let Ok(()) = be_alone(&mut party.node) else {
        return Err(Refused::OutOfMemory);
    };
    publish(party, message)
}

/// It publishes a message, which its own mirror takes at once, and notes it in its book.
pub(crate) fn publish(party: &mut Party, message: Message) -> Result<(), Refused>
    requires last { last_of (keeps_in party.old).book ≡ got_of (own_known (shown_in party.old).held) }
    requires lasts { is_used_up (recorded_of party.old.node) ≡ false }
    ensures judged { IsJudged (up_refused (shown_in party.old).held None) result }
    ensures ok { OnOk result (Casts message (shown_in party.old) (shown_in party.new)) }
    ensures keeps { OnOk result (keeps_in party.new
        ≡ publishing message (shown_in party.old).held.view.version (keeps_in party.old)) }
    ensures err { OnErr result (shown_in party.new ≡ shown_in party.old) }
    ensures err_keeps { OnErr result (keeps_in party.new ≡ keeps_in party.old) }
    ensures ends { ends_of party.new.node ≡ ends_of party.old.node }
    ensures recorded { OnOk result (recorded_of party.new.node
        ≡ said (held_of party.old.node).name message (recorded_of party.old.node)) }
    ensures unrecorded { OnErr result (recorded_of party.new.node ≡ recorded_of party.old.node) }
    ensures spare { spare_of party.old.node ≤ spare_of party.new.node }
{
    let Ok(operation) = operation_of(&message) else {
        return Err(Refused::OutOfMemory);
    };
    let kind = message_kind(&message);
    if party.mirror.reserve(1).is_err() {
        return Err(Refused::OutOfMemory);
    }
    if party.book.reserve().is_err() {
        return Err(Refused::OutOfMemory);
    }
    match party.node.publish(message) {
        Ok(number) => party.book.published(number, kind),
        Err((_message, fault)) => return Err(Refused::from(fault)),
    }
    party.follow(operation);
    Ok(())
}

/// The kind of a message, as its book tells them apart.
fn message_kind(message: &Message) -> confirm_book::Kind
    ensures { result ≡ kind_of_message message.now }
{
    match message {
        Message::Cast(_) => confirm_book::Kind::Cast,
        Message::Queue(Op::Publish { .. }) => confirm_book::Kind::Publish,
        Message::Queue(_) => confirm_book::Kind::Other,
    }
}

/// A copy of the operation that a message is, if it is one.
fn operation_of(message: &Message) -> Result<Option<Op>, OutOfMemory>
    ensures { IfOk result (λ o. MatchOption o ((body : List ℕ) × (message.now ≡ messages.Cast body))
        (λ op. message.now ≡ messages.Queue op)) }
{
    match message {
        Message::Cast(_) => Ok(None),
        Message::Queue(operation) => Ok(Some(operation.copy()?)),
    }
}

/// Whether a master begins with an operation.
fn is_start(operation: &Op) -> bool
    ensures { result ≡ the_start operation.now }
{
    matches!(operation, Op::Start { .. })
}

/// Whether an operation tells how many messages there are.
fn tells(operation: &Op) -> bool
    ensures { result ≡ the_telling operation.now }
{
    matches!(operation, Op::Depth { .. } | Op::Start { .. })
}

impl Party {
    /// Its mirror takes an operation that the member has published, if there is one, for which there is room.
    fn follow(&mut self, operation: Option<Op>)
        requires { 0 < (self.old).mirror.room }
        ensures shown { shown_in self.new ≡ shown_in self.old }
        ensures node { self.new.node ≡ self.old.node }
        ensures none { operation ≡ None → keeps_in self.new ≡ keeps_in self.old }
        ensures some { (op : Op) → operation ≡ Some op → keeps_in self.new
            ≡ record (publishing (messages.Queue op) (shown_in self.old).held.view.version (keeps_in self.old)) {
              book = (keeps_in self.old).book;
            } }
    {
        let Some(operation) = operation else {
            return;
        };
        self.started = self.started || is_start(&operation);
        if tells(&operation) {
            self.told = self.node.view().version;
        }
        self.mirror.apply_reserved(operation);
    }

    /// Its book hears how many of its messages have come round to the member.
    pub(crate) fn hear_round(&mut self)
        requires { (own_known (shown_in self.old).held).forgot ≤ last_of (keeps_in self.old).book }
        ensures node { self.new.node ≡ self.old.node }
        ensures shown { shown_in self.new ≡ shown_in self.old }
        ensures keeps { keeps_in self.new ≡ record (keeps_in self.old) {
          book = without_room (came_round (own_known (shown_in self.old).held).forgot (keeps_in self.old).book);
        } }
        ensures mirror { self.new.mirror ≡ self.old.mirror }
    {
        let (_casts, _publishes) = self.book.came_round(self.node.confirmed());
    }
}

/// How many messages the lines of a packet have.
fn messages_of(packet: &Packet) -> usize
    ensures { result ≡ min (sum_by (λ line. length line.messages) (packet.now).lines) (2 ^ 64 - 1) }
{
    let lines = packet.lines();
    let mut count = 0usize;
    for line in lines {
        count = count.saturating_add(line.messages.as_slice().len());
    }
    count
}

/// The same of a load, which is a packet.
fn messages_on_load(load: &Load) -> usize
    ensures { result ≡ min (sum_by (λ line. length line.messages) (packet_seen load.now).lines) (2 ^ 64 - 1) }
{
    let Load::Packet(packet) = load;
    messages_of(packet)
}

/// How many the next packet of the member's link has: it brings no more.
pub(crate) fn carried(node: &Node) -> usize
    ensures { (k : PacketShown) (rest : List (Option PacketShown))
        → the_first (shown_of node.now).ends.link ≡ Some k ∷ rest
        → min (messages_on k.lines) (2 ^ 64 - 1) ≤ result }
{
    match first_item(node) {
        Some(Item::Load(load)) => messages_on_load(load),
        Some(Item::End { .. }) | None => 0,
    }
}

/// The operations among messages that came are done on a mirror that has room for them.
pub(crate) fn apply_taken(mirror: &mut Mirror, taken: Vec<Taken>)
    requires { length taken.items ≤ (mirror.old).room }
    ensures { (mirror.new).mirror ≡ apply_ops (mirror.old).mirror (ops_taken taken.items) }
{
    for one in taken {
        match one.message {
            Message::Queue(operation) => mirror.apply_reserved(operation),
            Message::Cast(_body) => {}
        }
    }
}

/// The member takes the oldest packet of the link from which it takes, where that is enabled, its mirror what the packet
/// brings, and its book what has come round by it. Room for that is there before, so that nothing wants memory once the
/// packet is taken.
pub(crate) fn take_packet(party: &mut Party) -> Result<(), Refused>
    requires ready { IsReady (shown_in party.old) }
    requires alone { IsAlone party.old.node }
    requires booked { IsBooked (shown_in party.old) (keeps_in party.old) }
    ensures judged { IsJudged (packet_refused (shown_in party.old)) result }
    ensures ok { OnOk result (TakesPacket (shown_in party.old) (shown_in party.new)) }
    ensures keeps { OnOk result (keeps_in party.new ≡ kept_after (Steps LinkStep.Take) (shown_in party.old) (keeps_in party.old)) }
    ensures err { OnErr result (shown_in party.new ≡ shown_in party.old) }
    ensures err_keeps { OnErr result (keeps_in party.new ≡ keeps_in party.old) }
{
    let coming = carried(&party.node);
    let Ok(()) = party.mirror.reserve(coming) else {
        return Err(Refused::OutOfMemory);
    };
    let taken = take(&mut party.node)?;
    party.hear_round();
    apply_taken(&mut party.mirror, taken);
    Ok(())
}
