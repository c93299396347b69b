//! A member of the ring.
ghost use Rattle.std.specs.Prelude.{◌≡◌, ◌+◌, ◌≤◌, ◌<◌, ◌∷◌, ◌++◌, [], true, false};
ghost use Rattle.std.specs.Vec.{vec_len, vec_capacity};
ghost use Rattle.group_view.specs.Ring.{is_in};
ghost use Rattle.ring_rules.specs.Rows.{most_members};
ghost use Rattle.ring_rules.specs.View.{ids};
ghost use Rattle.ring_rules.specs.Machine.{is_waiting, runs_phase};
ghost use Rattle.gm_member.specs.View.{count_of, has_ended, is_up_where, last_sent_on};
ghost use Rattle.gm_member.specs.Spares.{last_sent_by_spare};
ghost use Rattle.gm_member.specs.Telling.{SaysAllIsSent};
ghost use Rattle.gm_member.specs.Within.{IsWithin, one_within};

use crate::door::{first_for, is_for, prune};
use crate::fault::MemberFault;
use crate::links::{InLink, OutLink};
use crate::saying::event_saying;
use crate::spare::Spare;
use crate::taken::Taken;
use crate::telling::still_all_sent;
use crate::views::{left, right, version};
use activity::{Load, Sent, Tables, says_all};
use credit_flow::{CreditIn, CreditOut};
use group_view::{LinkName, MOST_MEMBERS, Request, View};
use lamport_merge::Recorder;
use ordered_link::{EndReason, Grant, LinkIn, LinkOut, LinkPair};
use queue_core::Message;
use ring_names::{CreditSpec, MemberId, Name, OutOfMemory, Reason, Stamp};
use ring_rules::{Event, Phase};
use std::alloc::Global;

/// The greatest number of a message.
const MOST_MESSAGES: u64 = 1 << 63;

/// A member of the ring, as a process of `gm`. It has a view of the group, and of every origin that it has heard of,
/// itself among them, the messages that it has received and not forgotten. It sends on one link and takes from one, and
/// further links may stand at its door. One that waits for its first packet sends on none. While its question for a
/// view is open it has a link ready, with which the answer wants no memory. Until it stops, the link on which it
/// sends hasn't ended. `all_is_sent` says whether of every origin the numbers are those last sent there, so that it needn't
/// look at each.
#[derive(Drop)]
pub struct Member<O: LinkOut<Load>, I> {
    pub(crate) alloc: Global,
    pub(crate) name: Name,
    pub(crate) id: MemberId,
    pub(crate) phase: Phase,
    pub(crate) view: View,
    pub(crate) tables: Tables,
    pub(crate) credit: CreditSpec,
    pub(crate) out: Option<OutLink<O>>,
    pub(crate) all_is_sent: bool,
    pub(crate) current: Option<InLink<I>>,
    pub(crate) door: Vec<InLink<I>>,
    pub(crate) asked: bool,
    pub(crate) spare: Option<Spare<O, I>>,
    pub(crate) old_outs: Vec<(LinkName, O)>,
    pub(crate) old_ins: Vec<(LinkName, I)>,
    pub(crate) recorder: Recorder,
    ghost own: { (1 ≤ id.0) × (id.0 ≤ most_members) },
    ghost stands: { is_in id.0 (ids view) ≡ true },
    ghost up: { is_up_where asked phase ≡ true },
    ghost sent: { IsWithin (last_sent_on out) tables } by { one_within (last_sent_on out) tables },
    ghost says_all_is_sent: { SaysAllIsSent all_is_sent out tables },
    ghost spared: { IsWithin (last_sent_by_spare spare) tables } by { one_within (last_sent_by_spare spare) tables },
    ghost unended: { runs_phase phase ≡ true → has_ended O.ended out ≡ false },
    ghost silent: { is_waiting phase ≡ true → count_of out ≡ 0 },
    ghost room_in: { vec_len old_ins + vec_len door + count_of current ≤ vec_capacity old_ins },
    ghost room_out: { vec_len old_outs + count_of out + count_of spare ≤ vec_capacity old_outs },
}

impl<O: LinkPair<Load, In = I>, I: LinkIn<Load> + Drop> Member<O, I> {
    ghost use Rattle.std.specs.Prelude.{◌≡◌, ◌⊎◌, ◌+◌, ◌-◌, ◌<◌, ◌≤◌, ℕ, ◌∷◌, [], OnOk, OnErr, IfOk, IfErr, IfSome};
    ghost use Rattle.std.specs.Prelude.{IfNone, IsSome, None, Some, Ok, Err, length, false, true, Option};
    ghost use Rattle.std.specs.Prelude.{MatchOption, ◌++◌};
    ghost use Rattle.ring_names.specs.declared.reason.Reason.{Reason};
    ghost use Rattle.ring_rules.specs.declared.event.Event.{Event};
    ghost use Rattle.ring_rules.specs.declared.event.Event.TheVariants.{Put, Take, TakeEnd, Gain, Stop, Pick, Refresh};
    ghost use Rattle.ring_rules.specs.Machine.{member_at, is_waiting, runs_phase, view_in, newest};
    ghost use Rattle.ring_rules.specs.Step.{log_of};
    ghost use Rattle.ring_rules.specs.Event.{refusal, take_refusal as the_take_refusal};
    ghost use Rattle.ring_rules.specs.Event.{end_refusal as the_end_refusal, gain_refusal as the_gain_refusal};
    ghost use Rattle.ring_rules.specs.View.{ids};
    ghost use Rattle.group_view.specs.Ring.{is_in};
    ghost use Rattle.activity.specs.Packets.{PacketSeen};
    ghost use Rattle.gm_member.specs.Packets.{packet_by_id, known_at};
    ghost use Rattle.gm_member.specs.View.{all_kept, ring_link, left_end, kept_link, left_current};
    ghost use Rattle.gm_member.specs.Ends.{Replaces};
    ghost use Rattle.gm_member.specs.Held.{founded, joining_held, active_refused, up_refused};
    ghost use Rattle.gm_member.specs.Held.{put_refused, take_refused, ended_held};
    ghost use Rattle.gm_member.specs.Held.{gain_refused, kept_in, looked_held, sends_to as sends_to_it};
    ghost use Rattle.gm_member.specs.Held.{first_out, refresh_refused, refreshed_held};
    ghost use Rattle.gm_member.specs.Held.{first_at_door as the_first_at_door, pick_refused, picked_at};
    ghost use Rattle.gm_member.specs.Held.{Outgoing, packet_on};
    ghost use Rattle.gm_member.specs.Stands.{WhereItStands, StepsTo, SaysIn, with_own_link};
    ghost use Rattle.gm_member.specs.Stands.{IsPutPacket, IsNextPacket, IsNextGrant, IsNextEnd, taken_in};
    ghost use Rattle.gm_member.specs.Stands.{StandsWhereItWaits};
    ghost use Rattle.lamport_merge.specs.Recorder.{begun, nothing_recorded, noted, given, is_used_up, is_late};
    ghost use Rattle.gm_member.specs.Said.{said};
    ghost use Rattle.gm_member.specs.Ends.{IsPutFault};
    ghost use Rattle.gm_member.specs.Held.{put_held};
    ghost use Rattle.gm_member.specs.Shown.{held_of, ends_of, recorded_of, spare_of, out_name_of, OutIsReady, InIsReady, PutsOn};
    ghost use Rattle.gm_member.specs.Shown.{LooksOut, TookOn, EndsOn, KeepsGrant, NoGrantBack};
    ghost use Rattle.gm_member.specs.Shown.{GrantIsBack, LooksBy, SpareIsReady, SendsOn, PicksOn};
    ghost use Rattle.gm_member.specs.Shown.{KeepsSpare, StaysReady, OutIsOpen, OutIsBack};
    ghost use Rattle.gm_member.specs.Calls.{Heeds, HandsBack, Publishes, Puts, Takes, TakesEnd, Stops, Gains, PicksUp};
    ghost use Rattle.gm_member.specs.Calls.{Reads, IsEvent, RefusesAs, RefusesWhere, SameSelf, SameLinks, KeepsIns};
    ghost use Rattle.gm_member.specs.Calls.{KeepsOuts, Gives, Lends};

    /// A member of the ring's opening, which has published and heard nothing. The caller gives its id in the ring,
    /// the view in which the ring opens, the credit of the ring's links, the end of the link to its right neighbour,
    /// which hasn't ended, and the end of the link from its left neighbour. Without memory the ends are dropped. As
    /// `gm:start_link` of those with whom a group opens.
    pub fn founding(
        alloc: Global,
        name: Name,
        id: MemberId,
        view: View,
        credit: CreditSpec,
        out: O,
        link: I,
    ) -> Result<Member<O, I>, OutOfMemory>
        requires from_one { 1 ≤ id.0 }
        requires few { id.0 ≤ most_members }
        requires stands { is_in id.0 (ids view) ≡ true }
        requires unended { O.ended out ≡ false }
        ensures held { IfOk result (λ m. held_of m ≡ founded credit name id.0 view) }
        ensures ends { IfOk result (λ m. ends_of m
            ≡ record { out = Some out; returned = None; link = Some link; door = []; old_outs = []; old_ins = [] }) }
        ensures recorded { IfOk result (λ m. recorded_of m ≡ nothing_recorded id.0) }
    {
        let old_outs = Vec::with_capacity(alloc, 1)?;
        let old_ins = Vec::with_capacity(alloc, 1)?;
        let to = right(&view, id);
        let from = left(&view, id);
        let opened = view.version;
        Ok(Member {
            alloc,
            name,
            id,
            phase: Phase::Up,
            view,
            tables: Tables::new(alloc),
            credit,
            out: Some(OutLink {
                to,
                opened,
                fresh: true,
                sent: Sent::new(alloc),
                credit: CreditOut::new(credit),
                returned: None,
                end: Some(out),
            }),
            all_is_sent: true,
            current: Some(InLink {
                from,
                opened,
                counted: CreditIn::new(credit),
                end: Some(link),
            }),
            door: Vec::new(alloc),
            asked: false,
            spare: None,
            old_outs,
            old_ins,
            recorder: Recorder::new(alloc, id.0),
        })
    }

    /// A member that joins a ring, and waits for the first packet of its left neighbour, which has admitted it. The
    /// caller gives the id that the admission gave it, the view in which it was admitted, the credit of the ring's
    /// links, and the end of the link that its left neighbour opened to it then. Without memory the view and the end
    /// are handed back. As `gm:join_group`.
    pub fn joining(
        alloc: Global,
        name: Name,
        id: MemberId,
        view: View,
        credit: CreditSpec,
        link: I,
    ) -> Result<Member<O, I>, (View, I, OutOfMemory)>
        requires from_one { 1 ≤ id.0 }
        requires few { id.0 ≤ most_members }
        requires stands { is_in id.0 (ids view) ≡ true }
        ensures held { IfOk result (λ m. held_of m ≡ joining_held credit name id.0 view) }
        ensures ends { IfOk result (λ m. ends_of m
            ≡ record { out = None; returned = None; link = Some link; door = []; old_outs = []; old_ins = [] }) }
        ensures back { IfErr result (λ e. (e.0 ≡ view) × (e.1 ≡ link)) }

        ensures recorded { IfOk result (λ m. recorded_of m ≡ nothing_recorded id.0) }

        // It stands in every state of a run of the ring in which a member of its id and name waits with that view, and
        // no link stands at that one's door.
        ensures stands { IfOk result (λ m. StandsWhereItWaits credit name id.0 view (held_of m)) }
    {
        let Ok(old_ins) = Vec::with_capacity(alloc, 1) else {
            return Err((view, link, OutOfMemory));
        };
        let from = left(&view, id);
        let opened = view.version;
        Ok(Member {
            alloc,
            name,
            id,
            phase: Phase::Waiting,
            view,
            tables: Tables::new(alloc),
            credit,
            out: None,
            all_is_sent: true,
            current: Some(InLink {
                from,
                opened,
                counted: CreditIn::new(credit),
                end: Some(link),
            }),
            door: Vec::new(alloc),
            asked: false,
            spare: None,
            old_outs: Vec::new(alloc),
            old_ins,
            recorder: Recorder::new(alloc, id.0),
        })
    }

    /// The member's name.
    pub fn name(&self) -> &Name
        ensures { result.now ≡ (held_of self.now).name }
    {
        &self.name
    }

    /// Its id in the ring.
    pub fn id(&self) -> MemberId
        ensures { result.0 ≡ (held_of self.now).id }
    {
        self.id
    }

    /// Where it stands: waiting for its first packet, up, or stopped.
    pub fn phase(&self) -> Phase
        ensures { result ≡ (held_of self.now).phase }
    {
        self.phase
    }

    /// Its view of the group.
    pub fn view(&self) -> &View
        ensures { result.now ≡ (held_of self.now).view }
    {
        &self.view
    }

    /// What the member keeps of each origin that it has heard of, itself among them.
    pub fn tables(&self) -> &Tables
        ensures { (held_of self.now).known ≡ all_kept result.now }
    {
        &self.tables
    }

    /// Up to which number its own messages have come round: each member that is up has received these, or counted them
    /// by its first packet.
    pub fn confirmed(&self) -> u64
        ensures { result ≡ (known_at (held_of self.now).known ((held_of self.now).id - 1)).forgot }
    {
        self.tables.numbers(self.id).forgot
    }

    /// Why the member may not act: it has stopped, or its question to the registrar is open.
    fn activity(&self) -> Option<Reason>
        ensures { result ≡ active_refused (held_of self.now) None }
    {
        if matches!(self.phase, Phase::Stopped) {
            return Some(Reason::Stopped);
        }
        if self.asked {
            return Some(Reason::AwaitingAnswer);
        }
        None
    }

    /// Why it may not act, of a member that must have its state.
    pub(crate) fn up_refusal(&self) -> Option<Reason>
        ensures { result ≡ up_refused (held_of self.now) None }
    {
        match self.phase {
            Phase::Stopped => return Some(Reason::Stopped),
            Phase::Waiting => return Some(Reason::Waiting),
            Phase::Up => {}
        }
        if self.asked {
            return Some(Reason::AwaitingAnswer);
        }
        None
    }

    /// A message joins the member's own log, and its number there, from 1, is answered. Refused with `Stopped`,
    /// `Waiting`, and `AwaitingAnswer` while a question of the member's own is open. The member doesn't look into the
    /// message: the caller gives an operation of the queue only where the member is master and its mirror allows it.
    /// As `gm:broadcast`.
    pub fn publish(&mut self, message: Message) -> Result<u64, (Message, MemberFault)>
        requires { is_used_up (recorded_of self.old) ≡ false }
        ensures back { HandsBack (up_refused (held_of self.old) None) message result }
        ensures publishes { Publishes message self.old self.new result }

        // Wherever the member stands in a state of a run, and an event of its name says the message there, this is the
        // ring's event.
        ensures steps { OnOk result (WhereItStands (held_of self.old) (λ w x.
            (e : Event) → SaysIn w x (held_of self.old).name message e → StepsTo w x e (held_of self.new))) }
        ensures logged { IfOk result (λ n.
            WhereItStands (held_of self.old) (λ w x. n ≡ length (log_of w x) + 1)) }
        ensures not_enabled { WhereItStands (held_of self.old) (λ w x.
            (e : Event) → SaysIn w x (held_of self.old).name message e → (r : Reason) → refusal w e ≡ Some r
            → result ≡ Err (message, MemberFault.Refused r)) }
    {
        self.log(message)
    }

    /// The member's own part of `publish`.
    fn log(&mut self, message: Message) -> Result<u64, (Message, MemberFault)>
        requires { is_used_up (recorded_of self.old) ≡ false }
        ensures back { HandsBack (up_refused (held_of self.old) None) message result }
        ensures publishes { Publishes message self.old self.new result }
    {
        if let Some(reason) = self.up_refusal() {
            return Err((message, MemberFault::Refused(reason)));
        }
        if self.tables.numbers(self.id).got >= MOST_MESSAGES {
            return Err((message, MemberFault::OutOfMemory));
        }
        let Ok(event) = event_saying(&self.name, &message) else {
            return Err((message, MemberFault::OutOfMemory));
        };
        let Ok(()) = self.recorder.make_room() else {
            return Err((message, MemberFault::OutOfMemory));
        };
        if self.tables.make_room_for(self.id).is_err() {
            return Err((message, MemberFault::OutOfMemory));
        }
        self.tables.push(self.id, message);
        self.all_is_sent = false;
        self.recorder.note_some(event);
        Ok(self.tables.numbers(self.id).got)
    }

    /// Lends the end of the link on which the member sends: none where it isn't there. The caller gives it back before
    /// any other call. That of a member which hasn't stopped hasn't ended.
    pub fn lend_out(&mut self) -> Option<O>
        ensures lends { Lends (ends_of self.old).out (record (ends_of self.old) { out = None })
            self.old self.new result }
        ensures unended { runs_phase (held_of self.old).phase ≡ true → IfSome result (λ o. O.ended o ≡ false) }
    {
        match &mut self.out {
            Some(link) => link.end.take(),
            None => None,
        }
    }

    /// Gives back the end of the link on which the member sends. It hasn't ended, where the member hasn't stopped.
    pub fn give_out(&mut self, out: O)
        requires lent { (ends_of self.old).out ≡ None }
        requires sends { IsSome (held_of self.old).out }
        requires unended { runs_phase (held_of self.old).phase ≡ true → O.ended out ≡ false }
        ensures { Gives (record (ends_of self.old) { out = Some out }) self.old self.new }
    {
        match &mut self.out {
            Some(link) => link.end = Some(out),
            None => unreachable!(),
        }
    }

    /// The name of the link on which the member sends: none exactly where it sends on none.
    pub fn out_name(&self) -> Option<LinkName>
        ensures { result ≡ out_name_of (held_of self.now) }
    {
        let link = self.out.as_ref()?;
        Some(link.name(self.id))
    }

    /// Why the member may put no packet: `Stopped`, `Waiting`, `AwaitingAnswer`; `NoOutLink` where it sends on no link;
    /// `NoCredit` where its link has no credit; `NothingNew` where all numbers equal those last sent. It wants no
    /// memory.
    pub fn put_refusal(&self) -> Option<Reason>
        ensures { result ≡ put_refused (held_of self.now) }
    {
        if let Some(reason) = self.up_refusal() {
            return Some(reason);
        }
        match &self.out {
            None => Some(Reason::NoOutLink),
            Some(link) => link.put_refusal(self.all_is_sent),
        }
    }

    /// A packet with what is new of each origin goes on the link on which the member sends, as `gm` broadcasts its
    /// activity. Refused as `put_refusal` says, and then with `LinkFull` where the link handed the packet back.
    pub fn put(&mut self) -> Result<(), MemberFault>
        requires out { OutIsBack self.old }
        requires lasts { is_used_up (recorded_of self.old) ≡ false }
        ensures heeds { Heeds (put_refused (held_of self.old)) result }
        ensures puts { Puts O.free O.ended O.puts O.looked self.old self.new result }

        // Wherever the member stands in a state of a run, this is the ring's event, and the packet is the one that it
        // puts.
        ensures steps { OnOk result (IsEvent (Put (held_of self.old).name) self.old self.new) }
        ensures put { OnOk result ((o : Outgoing) × ((held_of self.old).out ≡ Some o)
            × WhereItStands (held_of self.old) (λ w x. IsPutPacket w x
            (packet_on (held_of self.old).view.version (held_of self.old).known o))) }
        ensures not_enabled { RefusesAs (Put (held_of self.old).name) self.old result }
    {
        self.put_next()
    }

    /// The member's own part of `put`.
    fn put_next(&mut self) -> Result<(), MemberFault>
        requires ready { OutIsReady O.ended self.old }
        requires lasts { is_used_up (recorded_of self.old) ≡ false }
        ensures heeds { Heeds (put_refused (held_of self.old)) result }
        ensures puts { Puts O.free O.ended O.puts O.looked self.old self.new result }
    {
        if let Some(reason) = self.put_refusal() {
            return Err(MemberFault::Refused(reason));
        }
        self.recorder.make_room()?;
        let stamp = self.recorder.next_stamp();
        self.put_under(stamp)?;
        self.recorder.note(Event::Put { by: self.name });
        Ok(())
    }

    /// Its next packet goes on the link on which it sends, under this stamp.
    fn put_under(&mut self, stamp: Stamp) -> Result<(), MemberFault>
        requires ready { OutIsReady O.ended self.old }
        requires enabled { put_refused (held_of self.old) ≡ None }
        ensures ok { OnOk result (held_of self.new ≡ put_held (held_of self.old)) }
        ensures packet { OnOk result (PutsOn O.puts stamp self.old self.new) }
        ensures fault { IfErr result (λ fault. IsPutFault O.free fault (ends_of self.new).out) }
        ensures err { OnErr result (held_of self.new ≡ held_of self.old) }
        ensures looks { OnErr result (LooksOut O.looked self.old self.new) }
        ensures ready { OutIsReady O.ended self.new }
        ensures kept { OnErr result (StaysReady self.old self.new) }
        ensures same { (self.new.name ≡ self.old.name) × (self.new.recorder ≡ self.old.recorder) }
    {
        let version = version(&self.view);
        let Some(link) = &mut self.out else {
            unreachable!()
        };
        // Something is new, and stays so where the packet isn't put.
        let put = link.put(self.alloc, stamp, version, &self.tables);
        self.all_is_sent = put.is_ok();
        put
    }

    /// Why the member may take nothing, before its link is looked at: `Stopped`, `AwaitingAnswer`; `NoCurrentLink`
    /// where it takes from no link.
    fn no_link(&self) -> Option<Reason>
        ensures { result ≡ take_refused (held_of self.now) None }
    {
        if let Some(reason) = self.activity() {
            return Some(reason);
        }
        if self.current.is_none() {
            return Some(Reason::NoCurrentLink);
        }
        None
    }

    /// Takes the oldest packet of the link from which the member takes, and grants credit where that is due. The
    /// answer is what the packet brings, in order of origin and number; a member that waits is brought nothing by its
    /// first packet: it begins with what that says, and is up. Refused with `Stopped`, `AwaitingAnswer`,
    /// `NoCurrentLink`; then with `NothingToTake` where the end of the link gives no item in this call, `EndNext`
    /// where the next item is the end of the link, and `ViewTooOld` where it is a packet of a newer version than the
    /// member's. As `gm:handle_msg` of an activity.
    pub fn take(&mut self) -> Result<Vec<Taken>, MemberFault>
        requires ready { InIsReady self.old }
        requires lasts { is_used_up (recorded_of self.old) ≡ false }
        ensures heeds { Heeds (take_refused (held_of self.old) None) result }
        ensures takes { Takes I.known I.waiting I.takes I.looked I.sends self.old self.new result }

        // Wherever the member stands in a state of a run and the packet is the oldest on its link, this is the ring's
        // event, and the messages are those of the logs.
        ensures steps { IfOk result (λ taken. (k : PacketSeen)
            × TookOn I.waiting I.takes I.looked I.sends (given (recorded_of self.new)) k self.old self.new
            × WhereItStands (held_of self.old) (λ w x. IsNextPacket w x (packet_by_id k)
            → StepsTo w x (Take (held_of self.old).name) (held_of self.new)
            × (taken.items ≡ taken_in w (member_at w x).current x))) }
        ensures not_enabled { RefusesWhere
            (λ w x. (s : ℕ) → (member_at w x).current ≡ Some s → the_take_refusal w x s ≡ None)
            (Take (held_of self.old).name) self.old result }
    {
        self.take_next()
    }

    /// The member's own part of `take`.
    fn take_next(&mut self) -> Result<Vec<Taken>, MemberFault>
        requires ready { InIsReady self.old }
        requires lasts { is_used_up (recorded_of self.old) ≡ false }
        ensures heeds { Heeds (take_refused (held_of self.old) None) result }
        ensures takes { Takes I.known I.waiting I.takes I.looked I.sends self.old self.new result }
    {
        if let Some(reason) = self.no_link() {
            return Err(MemberFault::Refused(reason));
        }
        if self.waits() {
            return self.catch_up();
        }
        self.receive()
    }

    /// Whether it waits for its first packet.
    fn waits(&self) -> bool
        ensures { result ≡ is_waiting (held_of self.now).phase }
    {
        matches!(self.phase, Phase::Waiting)
    }

    /// Of a member that has its state.
    fn receive(&mut self) -> Result<Vec<Taken>, MemberFault>
        requires ready { InIsReady self.old }
        requires enabled { take_refused (held_of self.old) None ≡ None }
        requires state { is_waiting (held_of self.old).phase ≡ false }
        requires lasts { is_used_up (recorded_of self.old) ≡ false }
        ensures { Takes I.known I.waiting I.takes I.looked I.sends self.old self.new result }
    {
        let Some(link) = &mut self.current else {
            unreachable!()
        };
        let (news, changes, packet) = link.take(
            self.alloc,
            &mut self.tables,
            &self.view,
            self.id,
            &mut self.recorder,
            self.name,
        )?;
        self.tables.apply(packet, &changes);
        self.all_is_sent = still_all_sent(self.all_is_sent, &self.out, &self.tables, &changes);
        Ok(news)
    }

    /// Of one that waits: it begins with what its first packet says, receives nothing, and is up.
    fn catch_up(&mut self) -> Result<Vec<Taken>, MemberFault>
        requires ready { InIsReady self.old }
        requires enabled { take_refused (held_of self.old) None ≡ None }
        requires waits { is_waiting (held_of self.old).phase ≡ true }
        requires lasts { is_used_up (recorded_of self.old) ≡ false }
        ensures { Takes I.known I.waiting I.takes I.looked I.sends self.old self.new result }
    {
        let Some(link) = &mut self.current else {
            unreachable!()
        };
        let have = version(&self.view);
        let (mut tables, packet) = link.begin(self.alloc, have, &mut self.recorder, self.name)?;
        tables.fill(packet);
        self.tables = tables;
        self.phase = Phase::Up;
        self.spare = None;
        Ok(Vec::new(self.alloc))
    }

    /// Takes the end of the link from which the member takes, and leaves it. Refused with `Stopped`,
    /// `AwaitingAnswer`, `NoCurrentLink`; then with `NothingToTake` where the end of the link gives no item in this
    /// call, and `PacketNext` where the next item is a packet. It wants no memory. As `gm` where its left neighbour
    /// goes down.
    pub fn take_end(&mut self) -> Result<EndReason, MemberFault>
        requires ready { InIsReady self.old }
        requires lasts { is_used_up (recorded_of self.old) ≡ false }
        requires room { 0 < spare_of self.old }
        ensures heeds { Heeds (take_refused (held_of self.old) None) result }
        ensures takes { TakesEnd I.known I.waiting I.takes I.looked self.old self.new result }

        // Wherever the member stands in a state of a run and the end is next on its link, this is the ring's event.
        ensures steps { OnOk result (WhereItStands (held_of self.old) (λ w x. IsNextEnd w x
            → StepsTo w x (TakeEnd (held_of self.old).name) (held_of self.new))) }
        ensures not_enabled { RefusesWhere
            (λ w x. (s : ℕ) → (member_at w x).current ≡ Some s → the_end_refusal w s ≡ None)
            (TakeEnd (held_of self.old).name) self.old result }
    {
        self.take_end_next()
    }

    /// The member's own part of `take_end`.
    fn take_end_next(&mut self) -> Result<EndReason, MemberFault>
        requires ready { InIsReady self.old }
        requires lasts { is_used_up (recorded_of self.old) ≡ false }
        requires room { 0 < spare_of self.old }
        ensures heeds { Heeds (take_refused (held_of self.old) None) result }
        ensures takes { TakesEnd I.known I.waiting I.takes I.looked self.old self.new result }
    {
        if let Some(reason) = self.no_link() {
            return Err(MemberFault::Refused(reason));
        }
        let Some(link) = &mut self.current else {
            unreachable!()
        };
        let (reason, stamp) = link.take_end(&self.recorder)?;
        self.leave_current();
        self.recorder.meet(stamp);
        self.recorder.note(Event::TakeEnd { by: self.name });
        Ok(reason)
    }

    /// The member takes from no link, and the end of the one from which it took is the last of those that it has left.
    fn leave_current(&mut self)
        ensures held { held_of self.new ≡ ended_held (held_of self.old) }
        ensures left { MatchOption self.old.current (self.new.old_ins.items ≡ self.old.old_ins.items) (λ l.
            self.new.old_ins.items
            ≡ self.old.old_ins.items ++ left_end (ring_link l.from.0 self.old.id.0 l.opened) l.end) }
        ensures current { self.new.current ≡ None }
        ensures same { SameSelf self.old self.new }
        ensures outs { KeepsOuts self.old self.new }
        ensures door { self.new.door ≡ self.old.door }
        ensures kept { self.new.spare ≡ self.old.spare }
    {
        let Some(link) = self.current.take() else {
            return;
        };
        let name = link.name(self.id);
        if let Some(end) = link.end {
            if self.old_ins.push((name, end)).is_err() {
                unreachable!()
            }
        }
    }

    /// The member stops, and the link on which it sends ends. Refused with `Stopped`, and with `AwaitingAnswer` while a
    /// question of the member's own is open. It wants no memory. As a process of `gm` that goes down.
    pub fn stop(&mut self) -> Result<(), MemberFault>
        requires out { OutIsBack self.old }
        requires lasts { is_used_up (recorded_of self.old) ≡ false }
        requires room { 0 < spare_of self.old }
        ensures heeds { Heeds (active_refused (held_of self.old) None) result }
        ensures acts { Stops O.puts self.old self.new result }

        // Wherever the member stands in a state of a run, this is the ring's event.
        ensures steps { OnOk result (IsEvent (Stop (held_of self.old).name) self.old self.new) }
        ensures not_enabled { RefusesAs (Stop (held_of self.old).name) self.old result }
    {
        self.stop_next()
    }

    /// The member's own part of `stop`.
    fn stop_next(&mut self) -> Result<(), MemberFault>
        requires ready { OutIsReady O.ended self.old }
        requires lasts { is_used_up (recorded_of self.old) ≡ false }
        requires room { 0 < spare_of self.old }
        ensures heeds { Heeds (active_refused (held_of self.old) None) result }
        ensures acts { Stops O.puts self.old self.new result }
    {
        if let Some(reason) = self.activity() {
            return Err(MemberFault::Refused(reason));
        }
        self.phase = Phase::Stopped;
        self.recorder.note(Event::Stop { by: self.name });
        let stamp = self.recorder.stamp();
        self.end_out(EndReason::Stopped, stamp);
        Ok(())
    }

    /// The link on which a stopped member sends ends, under this stamp.
    fn end_out(&mut self, reason: EndReason, stamp: Stamp)
        requires stopped { self.old.phase ≡ Phase.Stopped }
        requires open { OutIsOpen O.ended self.old }
        ensures held { held_of self.new ≡ held_of self.old }
        ensures ends { EndsOn O.puts reason stamp self.old self.new }
        ensures same { self.new.recorder ≡ self.old.recorder }
    {
        let Some(link) = &mut self.out else {
            return;
        };
        link.finish(reason, stamp);
    }

    /// Why the member may gain no credit: `Stopped`, `Waiting`, `AwaitingAnswer`; `NoOutLink` where it sends on no
    /// link; `NoGrant` where none has come back that the end of its link knows. It wants no memory.
    pub fn gain_refusal(&mut self) -> Option<Reason>
        requires { OutIsBack self.old }
        ensures held { held_of self.new ≡ held_of self.old }
        ensures looks { LooksOut O.looked self.old self.new }
        ensures kept { StaysReady self.old self.new }
        ensures none { IfNone result ((gain_refused (held_of self.old) ≡ None) × GrantIsBack O.grants self.new) }
        ensures some { IfSome result (λ r. (gain_refused (held_of self.old) ≡ Some r)
            ⊎ ((r ≡ Reason.NoGrant) × (gain_refused (held_of self.old) ≡ None) × NoGrantBack O.grants self.new)) }
        ensures ready { OutIsReady O.ended self.new }
        ensures same { self.new.recorder ≡ self.old.recorder }
    {
        if let Some(reason) = self.up_refusal() {
            return Some(reason);
        }
        match &mut self.out {
            None => Some(Reason::NoOutLink),
            Some(link) => {
                if link.has_grant() {
                    None
                } else {
                    Some(Reason::NoGrant)
                }
            }
        }
    }

    /// The oldest grant that came back on the link on which a running member sends, for `gain`: none only where the
    /// end of the link knew none. It stays with the member until `gain`, and is answered again till then. It wants no
    /// memory.
    pub fn granted(&mut self) -> Option<Grant>
        requires runs { self.old.phase ≡ Phase.Up }
        requires out { OutIsBack self.old }
        ensures held { held_of self.new ≡ held_of self.old }
        ensures some { IfSome result (λ grant. KeepsGrant O.gains grant self.old self.new) }
        ensures none { IfNone result (LooksOut O.looked self.old self.new × NoGrantBack O.grants self.new) }
        ensures kept { StaysReady self.old self.new }
        ensures ready { OutIsReady O.ended self.new }
        ensures same { self.new.recorder ≡ self.old.recorder }
    {
        match &mut self.out {
            None => None,
            Some(link) => link.granted(),
        }
    }

    /// A grant becomes credit of the link on which the member sends: the caller gives what `granted` answered. Refused
    /// with `Stopped`, `Waiting`, `AwaitingAnswer`, and with `NoOutLink` where the member sends on no link. It wants no
    /// memory. As `credit_flow:handle_bump_msg`.
    pub fn gain(&mut self, grant: Grant) -> Result<(), MemberFault>
        requires lasts { is_used_up (recorded_of self.old) ≡ false }
        requires early { is_late (recorded_of self.old) grant.stamp ≡ false }
        requires room { 0 < spare_of self.old }
        ensures heeds { Heeds (gain_refused (held_of self.old)) result }
        ensures acts { Gains grant self.old self.new result }

        // Wherever the member stands in a state of a run and the grant is the oldest on its way back, this is the
        // ring's event.
        ensures steps { OnOk result (WhereItStands (held_of self.old) (λ w x. IsNextGrant w x grant.amount
            → StepsTo w x (Gain (held_of self.old).name) (held_of self.new))) }
        ensures not_enabled { RefusesWhere
            (λ w x. (o : ℕ) → (member_at w x).out ≡ Some o → the_gain_refusal w o ≡ None)
            (Gain (held_of self.old).name) self.old result }
    {
        self.regain(grant)
    }

    /// The member's own part of `gain`.
    fn regain(&mut self, grant: Grant) -> Result<(), MemberFault>
        requires lasts { is_used_up (recorded_of self.old) ≡ false }
        requires early { is_late (recorded_of self.old) grant.stamp ≡ false }
        requires room { 0 < spare_of self.old }
        ensures heeds { Heeds (gain_refused (held_of self.old)) result }
        ensures acts { Gains grant self.old self.new result }
    {
        if let Some(reason) = self.up_refusal() {
            return Err(MemberFault::Refused(reason));
        }
        match &mut self.out {
            None => Err(MemberFault::Refused(Reason::NoOutLink)),
            Some(link) => {
                link.credit.gain(grant.amount);
                link.returned = None;
                self.recorder.meet(grant.stamp);
                self.recorder.note(Event::Gain { by: self.name });
                Ok(())
            }
        }
    }

    /// What stays of the link from which the member takes, with another view.
    fn keep_current(&mut self, view: &View)
        requires { is_in self.old.id.0 (ids view.now) ≡ true }
        ensures held { held_of self.new ≡ record (held_of self.old)
            { current = kept_in view.now self.old.id.0 (held_of self.old).current } }
        ensures current { self.new.current ≡ kept_link view.now self.old.id.0 self.old.current }
        ensures left { self.new.old_ins.items ≡ self.old.old_ins.items
            ++ left_current view.now self.old.id.0 self.old.current }
        ensures same { SameSelf self.old self.new }
        ensures outs { KeepsOuts self.old self.new }
        ensures door { self.new.door ≡ self.old.door }
        ensures kept { self.new.spare ≡ self.old.spare }
    {
        let Some(link) = &self.current else {
            return;
        };
        if is_for(view, self.id, link) {
            return;
        }
        self.leave_current();
    }

    /// The member has another view.
    pub(crate) fn look(&mut self, view: View)
        requires { is_in self.old.id.0 (ids view) ≡ true }
        ensures held { held_of self.new ≡ looked_held (held_of self.old) view }
        ensures links { LooksBy view self.old self.new }
        ensures others { KeepsOuts self.old self.new }
        ensures same { SameSelf self.old self.new }
        ensures view { self.new.view ≡ view }
        ensures kept { self.new.spare ≡ self.old.spare }
    {
        self.keep_current(&view);
        prune(&view, self.id, &mut self.door, &mut self.old_ins);
        self.view = view;
    }

    /// The link on which the member sends ends, and the end joins those that it has replaced.
    fn move_on(&mut self)
        requires { OutIsOpen O.ended self.old }
        ensures held { held_of self.new ≡ record (held_of self.old) { out = None } }
        ensures out { self.new.out ≡ None }
        ensures old_outs { Replaces O.puts self.old.id.0 self.old.out (self.old.old_outs).items
            (self.new.old_outs).items }
        ensures same { (self.new.id ≡ self.old.id) × (self.new.view ≡ self.old.view)
            × (self.new.credit ≡ self.old.credit) }
        ensures tables { self.new.tables ≡ self.old.tables }
        ensures others { KeepsIns self.old self.new }
        ensures room { vec_capacity self.old.old_outs ≤ vec_capacity self.new.old_outs }
        ensures len { vec_len self.new.old_outs ≤ vec_len self.old.old_outs + count_of self.old.out }
        ensures kept { self.new.spare ≡ self.old.spare }
    {
        let Some(link) = self.out.take() else {
            return;
        };
        let name = link.name(self.id);
        let stamp = self.recorder.stamp();
        let end = link.into_ended(EndReason::Moved, stamp);
        push_old(&mut self.old_outs, name, end);
    }

    /// Whether the member sends to another already.
    pub(crate) fn sends_to(&self, to: MemberId) -> bool
        ensures { result ≡ sends_to_it (held_of self.now).out to.0 }
    {
        match &self.out {
            None => false,
            Some(link) => link.to.0 == to.0,
        }
    }

    /// A link is ready to open, with room for the end of the one that it replaces.
    pub(crate) fn prepare(&mut self) -> Result<(), OutOfMemory>
        ensures held { held_of self.new ≡ held_of self.old }
        ensures ends { SameLinks self.old self.new }
        ensures same { SameSelf self.old self.new }
        ensures kept { OnErr result (KeepsSpare self.old self.new) }
        ensures ready { OnOk result (SpareIsReady O.are_fresh O.free O.ended self.new) }
    {
        self.old_outs.reserve(2)?;
        let spare = Spare::make(self.alloc, self.credit, &self.tables)?;
        self.spare = Some(spare);
        Ok(())
    }

    /// The member sends on the link that was ready, to another, and what it sent on before ends.
    fn send_to(&mut self, to: MemberId) -> Vec<Request<I>>
        requires state { is_waiting self.old.phase ≡ false }
        requires ready { IsSome self.old.spare }
        requires out { OutIsOpen O.ended self.old }
        ensures held { SpareIsReady O.are_fresh O.free O.ended self.old → held_of self.new
            ≡ record (held_of self.old) { out = Some (first_out (held_of self.old) to.0) } }
        ensures sends { SpareIsReady O.are_fresh O.free O.ended self.old
            → SendsOn O.are_fresh O.free O.ended O.puts self.old.view.version to self.old self.new result.items }
        ensures open { OutIsOpen O.ended self.new }
        ensures others { KeepsIns self.old self.new }
        ensures spare { self.new.spare ≡ None }
    {
        let Some(spare) = self.spare.take() else {
            unreachable!()
        };
        self.move_on();
        let stamp = self.recorder.stamp();
        let (link, requests) = spare.open(self.id, to, version(&self.view), self.credit, stamp);
        self.all_is_sent = says_all(&link.sent, &self.tables, MOST_MEMBERS as u32);
        self.out = Some(link);
        requests
    }

    /// Why the member may not read a view of this version: `Stopped`, `Waiting`, `AwaitingAnswer`; `ViewOutOfRange`
    /// where it is older than its own. The newest that the refusal names is the member's own.
    pub fn refresh_refusal(&self, asked: u32) -> Option<Reason>
        ensures { result ≡ refresh_refused (held_of self.now) asked }
    {
        if let Some(reason) = self.up_refusal() {
            return Some(reason);
        }
        let held = version(&self.view);
        if asked < held {
            return Some(Reason::ViewOutOfRange {
                asked,
                held,
                newest: held,
            });
        }
        None
    }

    /// The member reads a view, and sends to its right neighbour in it on the link that was ready.
    pub(crate) fn read(&mut self, view: View, to: MemberId) -> Vec<Request<I>>
        requires state { is_waiting self.old.phase ≡ false }
        requires stands { is_in self.old.id.0 (ids view) ≡ true }
        requires ready { IsSome self.old.spare }
        requires out { OutIsOpen O.ended self.old }
        ensures held { SpareIsReady O.are_fresh O.free O.ended self.old → held_of self.new
            ≡ record (looked_held (held_of self.old) view)
            { out = Some (first_out (looked_held (held_of self.old) view) to.0) } }
        ensures links { LooksBy view self.old self.new }
        ensures sends { SpareIsReady O.are_fresh O.free O.ended self.old
            → SendsOn O.are_fresh O.free O.ended O.puts view.version to self.old self.new result.items }
        ensures open { OutIsOpen O.ended self.new }
        ensures spare { self.new.spare ≡ None }
    {
        self.look(view);
        self.send_to(to)
    }

    /// The member reads a view of the ring in which it stands, as `gm:check_neighbours`: it goes on taking from its
    /// left neighbour where that is the same, and sends to its right one, on a new link where that is another.
    /// Refused as `refresh_refusal` says. The answer is what is to be asked of the registrar then: that it hands on
    /// the receiving end of a link that has opened.
    pub fn refresh(&mut self, view: View) -> Result<Vec<Request<I>>, (View, MemberFault)>
        requires stands { is_in self.old.id.0 (ids view) ≡ true }
        requires out { OutIsBack self.old }
        ensures back { HandsBack (refresh_refused (held_of self.old) view.version) view result }
        ensures reads { Reads O.are_fresh O.free O.ended O.puts (refreshed_held (held_of self.old) view) view
            self.old self.new result }

        // Wherever the member stands in a state of a run, and the view is one of the ring's, this is the ring's
        // event. A member that is left alone stands there once the link that it opens to itself has come to its door.
        ensures steps { OnOk result (WhereItStands (held_of self.old) (λ w x. view.version ≤ newest w
            → view ≡ view_in w view.version
            → StepsTo w x (Refresh (held_of self.old).name view.version)
            (with_own_link (held_of self.old) view (held_of self.new)))) }
    {
        self.refresh_next(view)
    }

    /// The member's own part of `refresh`.
    fn refresh_next(&mut self, view: View) -> Result<Vec<Request<I>>, (View, MemberFault)>
        requires stands { is_in self.old.id.0 (ids view) ≡ true }
        requires ready { OutIsReady O.ended self.old }
        ensures back { HandsBack (refresh_refused (held_of self.old) view.version) view result }
        ensures reads { Reads O.are_fresh O.free O.ended O.puts (refreshed_held (held_of self.old) view) view
            self.old self.new result }
    {
        if let Some(reason) = self.refresh_refusal(version(&view)) {
            return Err((view, MemberFault::Refused(reason)));
        }
        let to = right(&view, self.id);
        if self.sends_to(to) {
            self.look(view);
            return Ok(Vec::new(self.alloc));
        }
        let Ok(()) = self.prepare() else {
            return Err((view, MemberFault::OutOfMemory));
        };
        let requests = self.read(view, to);
        Ok(requests)
    }

    /// The place of the first link at the door that comes from the left neighbour.
    pub(crate) fn first_at_door(&self) -> Option<usize>
        ensures place { result ≡ the_first_at_door (held_of self.now) }
        ensures within { IfSome result (λ i. i < length self.now.door.items) }
    {
        first_for(&self.view, self.id, &self.door)
    }

    /// Why the member may pick no link: `Stopped`, `Waiting`, `AwaitingAnswer`; `HasCurrentLink` where it takes from a
    /// link; `NoLinkAtDoor` where no link that has come to its door is from its left neighbour; `ViewTooOld` where the
    /// first such link is newer than its view. It wants no memory.
    pub fn pick_refusal(&self) -> Option<Reason>
        ensures { result ≡ pick_refused (held_of self.now) }
    {
        if let Some(reason) = self.up_refusal() {
            return Some(reason);
        }
        if self.current.is_some() {
            return Some(Reason::HasCurrentLink);
        }
        match self.first_at_door() {
            None => Some(Reason::NoLinkAtDoor),
            Some(place) => {
                let need = self.door[place].opened;
                let have = version(&self.view);
                if need > have {
                    Some(Reason::ViewTooOld { need, have })
                } else {
                    None
                }
            }
        }
    }

    /// The member takes from now on from the first link at its door that comes from its left neighbour. Refused as
    /// `pick_refusal` says. It wants no memory. As `gm` that gets its first message, a `catchup`, from a new left
    /// neighbour.
    pub fn pick(&mut self) -> Result<(), MemberFault>
        requires lasts { is_used_up (recorded_of self.old) ≡ false }
        requires room { 0 < spare_of self.old }
        ensures heeds { Heeds (pick_refused (held_of self.old)) result }
        ensures acts { PicksUp self.old self.new result }

        // Wherever the member stands in a state of a run, this is the ring's event.
        ensures steps { OnOk result (IsEvent (Pick (held_of self.old).name) self.old self.new) }
        ensures not_enabled { RefusesAs (Pick (held_of self.old).name) self.old result }
    {
        self.pick_next()
    }

    /// The member's own part of `pick`.
    fn pick_next(&mut self) -> Result<(), MemberFault>
        requires lasts { is_used_up (recorded_of self.old) ≡ false }
        requires room { 0 < spare_of self.old }
        ensures heeds { Heeds (pick_refused (held_of self.old)) result }
        ensures acts { PicksUp self.old self.new result }
    {
        if let Some(reason) = self.pick_refusal() {
            return Err(MemberFault::Refused(reason));
        }
        match self.first_at_door() {
            None => unreachable!(),
            Some(place) => self.pick_at(place),
        }
        self.recorder.note(Event::Pick { by: self.name });
        Ok(())
    }

    /// It takes from the link at a place of its door.
    fn pick_at(&mut self, place: usize)
        requires within { place < length self.old.door.items }
        requires none { self.old.current ≡ None }
        ensures held { held_of self.new ≡ picked_at (held_of self.old) place }
        ensures picks { PicksOn place self.old self.new }
        ensures same { (self.new.name ≡ self.old.name) × (self.new.recorder ≡ self.old.recorder) }
    {
        self.current = Some(self.door.remove(place));
    }
}

/// An end that was replaced joins those before it, for which there is room.
fn push_old<A: Drop>(old: &mut Vec<(LinkName, A)>, name: LinkName, end: A)
    requires { vec_len old.old < vec_capacity old.old }
    ensures items { old.new.items ≡ old.old.items ++ (name, end) ∷ [] }
    ensures len { vec_len old.new ≡ vec_len old.old + 1 }
    ensures room { vec_capacity old.old ≤ vec_capacity old.new }
{
    match old.push((name, end)) {
        Ok(()) => {}
        Err(_full) => unreachable!(),
    }
}
