//! The links of a member, each with the end that the member has of it.
ghost use Rattle.std.specs.Prelude.{◌≡◌, ℕ, true};
ghost use Rattle.std.specs.Prelude.{map, IfOk};
ghost use Rattle.activity.specs.LastSent.{sent_of};
ghost use Rattle.gm_member.specs.Packets.{emptied};

use crate::fault::MemberFault;
use crate::news::{arrivals, view_refusal};
use crate::taken::Taken;
use activity::{Change, Line, Load, Packet, Sent, Tables, diff};
use credit_flow::{CreditIn, CreditOut};
use group_view::{LinkKind, LinkName, View};
use lamport_merge::Recorder;
use ordered_link::{EndReason, Grant, Item, LinkIn, LinkOut};
use ring_names::{Items, MemberId, Name, OutOfMemory, Reason, Stamp};
use ring_rules::Event;
use std::alloc::Global;

/// The link on which a member sends: to whom, from which version of its view on, the numbers last sent on it, and
/// the credit that is left (the right neighbour in the state of `gm`, and its `credit_flow`). `returned` is a grant that
/// came back and isn't credit yet.
#[derive(Drop)]
pub struct OutLink<O> {
    pub(crate) to: MemberId,
    pub(crate) opened: u32,
    pub(crate) fresh: bool,
    pub(crate) sent: Sent,
    pub(crate) credit: CreditOut,
    pub(crate) returned: Option<Grant>,
    pub(crate) end: Option<O>,
    ghost unsent: { (p : ℕ) → fresh ≡ true → ((sent_of sent p).got ≡ 0) × ((sent_of sent p).forgot ≡ 0) },
}

/// A link from which a member takes or may take: from whom, from which version of that one's view on, and the
/// loads counted on it (the left neighbour in the state of `gm`).
#[derive(Drop)]
pub struct InLink<I> {
    pub(crate) from: MemberId,
    pub(crate) opened: u32,
    pub(crate) counted: CreditIn,
    pub(crate) end: Option<I>,
}

impl<O> OutLink<O> {
    ghost use Rattle.std.specs.Prelude.{◌≡◌, ℕ, ◌+◌, IfOk, List, Option};
    ghost use Rattle.ring_names.specs.declared.reason.Reason.{Reason};
    ghost use Rattle.activity.specs.Kept.{Kept, kept_of};
    ghost use Rattle.activity.specs.LastSent.{sent_of};
    ghost use Rattle.activity.specs.Packets.{line_of};
    ghost use Rattle.activity.specs.Diff.{IsNotAbove, next_line};
    ghost use Rattle.gm_member.specs.Packets.{packet_by_id};
    ghost use Rattle.gm_member.specs.Held.{has_nothing_new, out_refused, packet_on};
    ghost use Rattle.gm_member.specs.View.{out_of, all_kept};

    /// What names the link, whose sender is given.
    pub(crate) fn name(&self, from: MemberId) -> LinkName
        ensures { result ≡ record { from = from; to = (self.now).to; view = (self.now).opened; kind = LinkKind.Ring } }
    {
        LinkName {
            from,
            to: self.to,
            view: self.opened,
            kind: LinkKind::Ring,
        }
    }

    /// Why nothing can be put: the link has no credit, or all numbers equal those last sent, as `all_is_sent` says.
    pub(crate) fn put_refusal(&self, all_is_sent: bool) -> Option<Reason>
        ensures { (known : List Kept) → all_is_sent ≡ has_nothing_new known (out_of self.now)
            → result ≡ out_refused known (out_of self.now) }
    {
        if self.credit.blocked() {
            return Some(Reason::NoCredit);
        }
        if all_is_sent {
            return Some(Reason::NothingNew);
        }
        None
    }

    /// The next packet of these tables, with this stamp.
    pub(crate) fn packet(
        &self,
        alloc: Global,
        stamp: Stamp,
        version: u32,
        tables: &Tables,
    ) -> Result<Packet, OutOfMemory>
        requires { IsNotAbove (self.now).sent tables.now }
        ensures said { IfOk result (λ packet. packet_by_id packet
            ≡ packet_on version (all_kept tables.now) (out_of self.now)) }
        ensures stamped { IfOk result (λ packet. packet.stamp ≡ stamp) }
        ensures lines { IfOk result (λ packet. (p : ℕ) → line_of packet.lines p
            ≡ next_line (self.now).fresh p (kept_of tables.now p) (sent_of (self.now).sent p)) }
    {
        diff(alloc, &self.sent, tables, stamp, version, self.fresh)
    }
}

impl<O: LinkOut<Load>> OutLink<O> {
    ghost use Rattle.std.specs.Prelude.{◌≡◌, false, OnOk, OnErr, IfErr, None, Some};
    ghost use Rattle.ring_names.specs.declared.reason.Reason.{Reason};
    ghost use Rattle.activity.specs.Diff.{IsNotAbove};
    ghost use Rattle.gm_member.specs.Held.{out_refused, packet_on, put_on};
    ghost use Rattle.gm_member.specs.View.{out_of, all_kept};
    ghost use Rattle.gm_member.specs.Ends.{EndIsOpen, EndSends, EndLooks, IsPutFault};

    /// The next packet of these tables goes on the link, with this stamp, of a sender whose view is of this version.
    pub(crate) fn put(
        &mut self,
        alloc: Global,
        stamp: Stamp,
        version: u32,
        tables: &Tables,
    ) -> Result<(), MemberFault>
        requires there { IsNotAbove self.old.sent tables.now }
        requires open { EndIsOpen O.ended self.old.end }
        requires enabled { out_refused (all_kept tables.now) (out_of self.old) ≡ None }
        ensures ok { OnOk result (out_of self.new ≡ put_on (all_kept tables.now) (out_of self.old)) }
        ensures packet { OnOk result (EndSends O.puts stamp (packet_on version (all_kept tables.now) (out_of self.old))
            self.old.end self.new.end) }
        ensures kept { self.new.returned ≡ self.old.returned }
        ensures err { OnErr result (out_of self.new ≡ out_of self.old) }
        ensures looks { OnErr result (EndLooks O.looked self.old.end self.new.end) }
        ensures fault { IfErr result (λ fault. IsPutFault O.free fault self.new.end) }
        ensures open { EndIsOpen O.ended self.new.end }
        ensures there { IsNotAbove self.new.sent tables.now }
    {
        let packet = self.packet(alloc, stamp, version, tables)?;
        let numbers = numbers_of(alloc, &packet)?;
        self.sent.make_room(&numbers)?;
        let Some(end) = &mut self.end else {
            unreachable!()
        };
        match end.put(Load::Packet(packet)) {
            Ok(()) => {}
            Err(_load) => return Err(MemberFault::Refused(Reason::LinkFull)),
        }
        self.sent.note(&numbers);
        self.fresh = false;
        self.credit.send();
        Ok(())
    }
}

impl<O: LinkOut<Load> + Drop> OutLink<O> {
    ghost use Rattle.std.specs.Prelude.{◌≡◌, ◌⊎◌, ◌<◌, [], false, true, length, IfSome, IfNone, IsSome};
    ghost use Rattle.std.specs.Prelude.{None, Some, MatchOption, ⊤};
    ghost use Rattle.gm_member.specs.View.{out_of};
    ghost use Rattle.gm_member.specs.Ends.{EndIsOpen, EndPuts, EndLooks};

    /// The link ends, under this stamp.
    pub(crate) fn finish(&mut self, reason: EndReason, stamp: Stamp)
        requires { EndIsOpen O.ended self.old.end }
        ensures same { out_of self.new ≡ out_of self.old }
        ensures sent { self.new.sent ≡ self.old.sent }
        ensures ends { EndPuts O.puts (Item.End reason stamp) self.old.end self.new.end }
        ensures kept { self.new.returned ≡ self.old.returned }
    {
        let Some(end) = &mut self.end else {
            unreachable!()
        };
        end.end(reason, stamp);
    }

    /// The end of the link, on which its end was put, under this stamp.
    pub(crate) fn into_ended(self, reason: EndReason, stamp: Stamp) -> O
        requires { EndIsOpen O.ended self.end }
        ensures { EndPuts O.puts (Item.End reason stamp) self.end (Some result) }
    {
        let mut link = self;
        let Some(mut end) = link.end.take() else {
            unreachable!()
        };
        end.end(reason, stamp);
        end
    }

    /// Whether a grant is kept, or has come back.
    pub(crate) fn has_grant(&mut self) -> bool
        requires { EndIsOpen O.ended self.old.end }
        ensures same { out_of self.new ≡ out_of self.old }
        ensures sent { self.new.sent ≡ self.old.sent }
        ensures kept { self.new.returned ≡ self.old.returned }
        ensures looks { EndLooks O.looked self.old.end self.new.end }
        ensures some { result ≡ true → IsSome self.new.returned
            ⊎ MatchOption self.new.end ⊥ (λ o. 0 < length (O.grants o)) }
        ensures none { result ≡ false → (self.new.returned ≡ None) × MatchOption self.new.end ⊤ (λ o. O.grants o ≡ []) }
        ensures open { EndIsOpen O.ended self.new.end }
    {
        if self.returned.is_some() {
            return true;
        }
        let Some(end) = &mut self.end else {
            unreachable!()
        };
        end.has_grant()
    }

    /// The grant that is kept, or the oldest that has come back, which is kept from now on.
    pub(crate) fn granted(&mut self) -> Option<Grant>
        requires { EndIsOpen O.ended self.old.end }
        ensures same { out_of self.new ≡ out_of self.old }
        ensures sent { self.new.sent ≡ self.old.sent }
        ensures some { IfSome result (λ grant. (self.new.returned ≡ Some grant)
            × (((self.old.returned ≡ Some grant) × (self.new.end ≡ self.old.end))
            ⊎ (self.old.returned ≡ None) × (o : O) × (p : O) × (self.old.end ≡ Some o) × (self.new.end ≡ Some p)
            × O.gains o grant p)) }
        ensures none { IfNone result ((self.old.returned ≡ None) × (self.new.returned ≡ None)
            × EndLooks O.looked self.old.end self.new.end × MatchOption self.new.end ⊤ (λ o. O.grants o ≡ [])) }
        ensures open { EndIsOpen O.ended self.new.end }
    {
        if self.returned.is_some() {
            return self.returned;
        }
        let Some(end) = &mut self.end else {
            unreachable!()
        };
        self.returned = end.granted();
        self.returned
    }
}

impl<I> InLink<I> {
    ghost use Rattle.std.specs.Prelude.{◌≡◌};

    /// What names the link, whose receiver is given.
    pub(crate) fn name(&self, to: MemberId) -> LinkName
        ensures { result ≡ record { from = (self.now).from; to = to; view = (self.now).opened; kind = LinkKind.Ring } }
    {
        LinkName {
            from: self.from,
            to,
            view: self.opened,
            kind: LinkKind::Ring,
        }
    }
}

impl<I: LinkIn<Load>> InLink<I> {
    ghost use Rattle.std.specs.Prelude.{◌≡◌, ℕ, ◌≤◌, ◌+◌, false, OnOk, OnErr, IfOk, IfErr, None, Some, IsSome};
    ghost use Rattle.std.specs.Prelude.{MatchOption};
    ghost use Rattle.credit_flow.specs.Credit.{grant_due};
    ghost use Rattle.lamport_merge.specs.Recorder.{is_late, is_used_up, given, noted, met};
    ghost use Rattle.ring_rules.specs.declared.event.Event.TheVariants.{Take as Took};
    ghost use Rattle.ring_rules.specs.Rows.{most_members};
    ghost use Rattle.ring_rules.specs.Step.{is_owned};
    ghost use Rattle.activity.specs.Kept.{KeepsRows, kept_of};
    ghost use Rattle.activity.specs.Packets.{line_of};
    ghost use Rattle.activity.specs.Plan.{owns as owned, changes_of, AreReady, opened, AreOpened};
    ghost use Rattle.gm_member.specs.Packets.{packet_by_id};
    ghost use Rattle.gm_member.specs.Held.{counted_in};
    ghost use Rattle.gm_member.specs.News.{news_below};
    ghost use Rattle.gm_member.specs.View.{in_of, all_kept};
    ghost use Rattle.gm_member.specs.Ends.{EndLooks, EndTakes, EndTook, EndEnds, IsEndRefusal, IsTakeFault};
    ghost use Rattle.gm_member.specs.Loads.{packet_seen, GrantsIf};

    /// The oldest packet, copies of the messages that it brings to a member with these tables and this view, and what
    /// it changes there, for which there is room then.
    fn take_load(
        &mut self,
        alloc: Global,
        tables: &mut Tables,
        view: &View,
        id: MemberId,
        recorder: &mut Recorder,
    ) -> Result<(Vec<Taken>, Vec<Change>, Load), MemberFault>
        requires there { IsSome self.old.end }
        ensures same { in_of self.new ≡ in_of self.old }
        ensures ok { IfOk result (λ r. EndTakes I.waiting I.takes I.looked r.2 self.old.end self.new.end) }
        ensures early { IfOk result (λ r. is_late (recorder.old).recorded (packet_seen r.2).stamp ≡ false) }
        ensures recorded { (recorder.new).recorded ≡ (recorder.old).recorded }
        ensures spare { (recorder.old).spare ≤ (recorder.new).spare }
        ensures roomy { OnOk result ((recorder.old).spare + 1 ≤ (recorder.new).spare) }
        ensures version { IfOk result (λ r. (packet_seen r.2).view ≤ view.now.version) }
        ensures news { IfOk result (λ r. r.0.items
            ≡ news_below most_members (λ p. is_owned view.now id.0 self.old.from.0 (p + 1)) (all_kept tables.old)
            (packet_by_id (packet_seen r.2)).lines) }
        ensures plan { IfOk result (λ r. r.1.items
            ≡ changes_of (owned view.now id.0 self.old.from.0) tables.new (packet_seen r.2).lines) }
        ensures room { IfOk result (λ r. AreReady tables.new r.1.items) }
        ensures kept { KeepsRows tables.old tables.new }
        ensures fault { IfErr result (λ fault. IsTakeFault I.known I.waiting (is_late (recorder.old).recorded) view.now.version fault self.new.end) }
        ensures looks { OnErr result (EndLooks I.looked self.old.end self.new.end) }
    {
        let from = self.from;
        let Some(end) = &mut self.end else {
            unreachable!()
        };
        let (news, changes) = match end.peek() {
            Some(Item::Load(Load::Packet(packet))) => {
                if recorder.is_late(packet.stamp) {
                    return Err(MemberFault::Refused(Reason::NothingToTake));
                }
                if let Some(reason) = view_refusal(packet, view.version) {
                    return Err(MemberFault::Refused(reason));
                }
                recorder.make_room()?;
                arrivals(alloc, packet, tables, view, id, from)?
            }
            Some(Item::End { .. }) => return Err(MemberFault::Refused(Reason::EndNext)),
            None => return Err(MemberFault::Refused(Reason::NothingToTake)),
        };
        match end.take() {
            Some(Item::Load(load)) => Ok((news, changes, load)),
            _ => unreachable!(),
        }
    }

    /// Counts a packet, and grants credit under this stamp where that is due.
    fn count(&mut self, stamp: Stamp)
        requires { MatchOption self.old.end ⊥ (λ i. I.waiting i ≡ None) }
        ensures counted { in_of self.new ≡ counted_in (in_of self.old) }
        ensures grants { (i : I) → self.old.end ≡ Some i → (j : I) × (self.new.end ≡ Some j)
            × GrantsIf (grant_due self.old.counted) stamp I.sends i j }
    {
        let Some(end) = &mut self.end else {
            unreachable!()
        };
        if let Some(amount) = self.counted.took() {
            end.grant(Grant { amount, stamp });
        }
    }

    /// The oldest packet, which is counted, copies of the messages that it brings, and what it changes, for which
    /// there is room then.
    pub(crate) fn take(
        &mut self,
        alloc: Global,
        tables: &mut Tables,
        view: &View,
        id: MemberId,
        recorder: &mut Recorder,
        by: Name,
    ) -> Result<(Vec<Taken>, Vec<Change>, Packet), MemberFault>
        requires there { IsSome self.old.end }
        requires lasts { is_used_up (recorder.old).recorded ≡ false }
        ensures counted { OnOk result (in_of self.new ≡ counted_in (in_of self.old)) }
        ensures took { IfOk result (λ r. EndTook I.waiting I.takes I.looked I.sends (grant_due self.old.counted)
            (given (recorder.new).recorded) r.2 self.old.end self.new.end) }
        ensures noted { IfOk result (λ r. (recorder.new).recorded
            ≡ noted (Took by) (met r.2.stamp (recorder.old).recorded)) }
        ensures unnoted { OnErr result ((recorder.new).recorded ≡ (recorder.old).recorded) }
        ensures spare { (recorder.old).spare ≤ (recorder.new).spare }
        ensures version { IfOk result (λ r. r.2.view ≤ view.now.version) }
        ensures news { IfOk result (λ r. r.0.items
            ≡ news_below most_members (λ p. is_owned view.now id.0 self.old.from.0 (p + 1)) (all_kept tables.old)
            (packet_by_id r.2).lines) }
        ensures plan { IfOk result (λ r. r.1.items
            ≡ changes_of (owned view.now id.0 self.old.from.0) tables.new r.2.lines) }
        ensures room { IfOk result (λ r. AreReady tables.new r.1.items) }
        ensures kept { KeepsRows tables.old tables.new }
        ensures fault { IfErr result (λ fault. IsTakeFault I.known I.waiting (is_late (recorder.old).recorded) view.now.version fault self.new.end) }
        ensures err { OnErr result (in_of self.new ≡ in_of self.old) }
        ensures looks { OnErr result (EndLooks I.looked self.old.end self.new.end) }
    {
        let (news, changes, load) = self.take_load(alloc, tables, view, id, recorder)?;
        let Load::Packet(packet) = load;
        recorder.meet(packet.stamp);
        recorder.note(Event::Take { by });
        self.count(recorder.stamp());
        Ok((news, changes, packet))
    }

    /// The oldest packet, and the tables with which a member that waits begins by it, before its messages join.
    fn open_load(
        &mut self,
        alloc: Global,
        have: u32,
        recorder: &mut Recorder,
    ) -> Result<(Tables, Load), MemberFault>
        requires there { IsSome self.old.end }
        ensures same { in_of self.new ≡ in_of self.old }
        ensures ok { IfOk result (λ r. EndTakes I.waiting I.takes I.looked r.1 self.old.end self.new.end) }
        ensures early { IfOk result (λ r. is_late (recorder.old).recorded (packet_seen r.1).stamp ≡ false) }
        ensures recorded { (recorder.new).recorded ≡ (recorder.old).recorded }
        ensures spare { (recorder.old).spare ≤ (recorder.new).spare }
        ensures roomy { OnOk result ((recorder.old).spare + 1 ≤ (recorder.new).spare) }
        ensures version { IfOk result (λ r. (packet_seen r.1).view ≤ have) }
        ensures opened { IfOk result (λ r. (p : ℕ) → kept_of r.0 p ≡ opened (line_of (packet_seen r.1).lines p)) }
        ensures room { IfOk result (λ r. AreOpened r.0 (packet_seen r.1).lines) }
        ensures fault { IfErr result (λ fault. IsTakeFault I.known I.waiting (is_late (recorder.old).recorded) have fault self.new.end) }
        ensures looks { OnErr result (EndLooks I.looked self.old.end self.new.end) }
    {
        let Some(end) = &mut self.end else {
            unreachable!()
        };
        let tables = match end.peek() {
            Some(Item::Load(Load::Packet(packet))) => {
                if recorder.is_late(packet.stamp) {
                    return Err(MemberFault::Refused(Reason::NothingToTake));
                }
                if let Some(reason) = view_refusal(packet, have) {
                    return Err(MemberFault::Refused(reason));
                }
                recorder.make_room()?;
                Tables::opening(alloc, packet)?
            }
            Some(Item::End { .. }) => return Err(MemberFault::Refused(Reason::EndNext)),
            None => return Err(MemberFault::Refused(Reason::NothingToTake)),
        };
        match end.take() {
            Some(Item::Load(load)) => Ok((tables, load)),
            _ => unreachable!(),
        }
    }

    /// The oldest packet, which is counted, and the tables with which a member that waits begins by it, before its
    /// messages join.
    pub(crate) fn begin(
        &mut self,
        alloc: Global,
        have: u32,
        recorder: &mut Recorder,
        by: Name,
    ) -> Result<(Tables, Packet), MemberFault>
        requires there { IsSome self.old.end }
        requires lasts { is_used_up (recorder.old).recorded ≡ false }
        ensures counted { OnOk result (in_of self.new ≡ counted_in (in_of self.old)) }
        ensures took { IfOk result (λ r. EndTook I.waiting I.takes I.looked I.sends (grant_due self.old.counted)
            (given (recorder.new).recorded) r.1 self.old.end self.new.end) }
        ensures noted { IfOk result (λ r. (recorder.new).recorded
            ≡ noted (Took by) (met r.1.stamp (recorder.old).recorded)) }
        ensures unnoted { OnErr result ((recorder.new).recorded ≡ (recorder.old).recorded) }
        ensures spare { (recorder.old).spare ≤ (recorder.new).spare }
        ensures version { IfOk result (λ r. r.1.view ≤ have) }
        ensures opened { IfOk result (λ r. (p : ℕ) → kept_of r.0 p ≡ opened (line_of r.1.lines p)) }
        ensures room { IfOk result (λ r. AreOpened r.0 r.1.lines) }
        ensures fault { IfErr result (λ fault. IsTakeFault I.known I.waiting (is_late (recorder.old).recorded) have fault self.new.end) }
        ensures err { OnErr result (in_of self.new ≡ in_of self.old) }
        ensures looks { OnErr result (EndLooks I.looked self.old.end self.new.end) }
    {
        let (tables, load) = self.open_load(alloc, have, recorder)?;
        let Load::Packet(packet) = load;
        recorder.meet(packet.stamp);
        recorder.note(Event::Take { by });
        self.count(recorder.stamp());
        Ok((tables, packet))
    }

    /// The end of the link, and the stamp under which it was put.
    pub(crate) fn take_end(&mut self, recorder: &Recorder) -> Result<(EndReason, Stamp), Reason>
        requires { IsSome self.old.end }
        ensures same { in_of self.new ≡ in_of self.old }
        ensures ok { IfOk result (λ e. EndEnds I.takes I.looked e.0 e.1 self.old.end self.new.end) }
        ensures early { IfOk result (λ e. is_late recorder.now.recorded e.1 ≡ false) }
        ensures reason { IfErr result (λ r. IsEndRefusal I.known I.waiting (is_late recorder.now.recorded) r self.new.end) }
        ensures looks { OnErr result (EndLooks I.looked self.old.end self.new.end) }
    {
        let Some(end) = &mut self.end else {
            unreachable!()
        };
        match end.peek() {
            Some(Item::Load(_)) => return Err(Reason::PacketNext),
            Some(Item::End { stamp, .. }) => {
                if recorder.is_late(*stamp) {
                    return Err(Reason::NothingToTake);
                }
            }
            None => return Err(Reason::NothingToTake),
        }
        match end.take() {
            Some(Item::End { reason, stamp }) => Ok((reason, stamp)),
            _ => unreachable!(),
        }
    }
}

/// The numbers that a packet says, without its messages.
fn numbers_of(alloc: Global, packet: &Packet) -> Result<Packet, OutOfMemory>
    ensures { IfOk result (λ numbers. numbers.lines ≡ map emptied (packet.now).lines) }
{
    let lines = bare_lines(alloc, packet.lines())?;
    Ok(Packet {
        stamp: packet.stamp,
        view: packet.view,
        first: packet.first,
        lines: Items::from_vec(lines),
    })
}

/// Lines with the same numbers, without messages.
fn bare_lines(alloc: Global, lines: &[Line]) -> Result<Vec<Line>, OutOfMemory>
    ensures { IfOk result (λ bare. bare.items ≡ map emptied lines.now) }
{
    let mut bare = Vec::with_capacity(alloc, lines.len())?;
    for line in lines {
        bare.push(bare_line(alloc, line))?;
    }
    Ok(bare)
}

fn bare_line(alloc: Global, line: &Line) -> Line
    ensures { result ≡ emptied line.now }
{
    Line {
        origin: line.origin,
        lo: line.got(),
        messages: Items::from_vec(Vec::new(alloc)),
        forgot: line.forgot,
    }
}
