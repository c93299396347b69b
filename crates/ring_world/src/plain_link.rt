//! A link of the plain machine.
ghost use Rattle.std.specs.Prelude.{◌≡◌, ◌<◌, false, slice_index_or, IfOk};
ghost use Rattle.std.specs.Prelude.{OnOk, OnErr, vec_len, vec_capacity};
ghost use Rattle.credit_flow.specs.Credit.{is_blocked as blocked_is};
ghost use Rattle.ring_rules.specs.Rows.{no_numbers, next_numbers as the_next_numbers, is_sent as sent_is};
ghost use Rattle.ring_rules.specs.Refusal.{is_empty as empty_is};
ghost use Rattle.ring_rules.specs.Machine.{row_at, numbers_at as the_numbers, oldest as the_oldest};
ghost use Rattle.ring_rules.specs.Step.{next_lines, pushed, popped, finished, ended as is_ended};
ghost use Rattle.ring_rules.specs.Event.{has_nothing_new as nothing_is_new, holds_nothing as nothing_is_held};
ghost use Rattle.ring_world.specs.Shows.{member_of, link_of, packet_of, packet_in, gained_on, link_new, link_opened};

use crate::plain_member::PlainMember;
use credit_flow::{CreditIn, CreditOut};
use ring_names::{CreditSpec, OutOfMemory};
use ring_rules::{Ending, Numbers, numbers_at};
use std::alloc::Global;

/// A packet: the version of its sender's view, and numbers for each origin by id.
#[derive(Drop)]
pub struct Packet {
    pub(crate) version: u32,
    pub(crate) numbers: Vec<Numbers>,
}

/// A link from one member to another, with the grants under way back to the sender. It keeps the packet taken last,
/// which the laws speak of and no call reads.
#[derive(Drop)]
pub struct PlainLink {
    pub(crate) sender: u32,
    pub(crate) receiver: u32,
    pub(crate) opened: u32,
    pub(crate) packets: Vec<Packet>,
    pub(crate) ending: Option<Ending>,
    pub(crate) over: bool,
    pub(crate) fresh: bool,
    pub(crate) sent: Packet,
    pub(crate) untaken: bool,
    pub(crate) had: Packet,
    pub(crate) outgoing: CreditOut,
    pub(crate) incoming: CreditIn,
    pub(crate) grants: Vec<u32>,
}

impl PlainLink {
    /// A link opens in a version, with its whole credit and nothing on it.
    pub(crate) fn new(
        alloc: Global,
        credit: CreditSpec,
        sender: u32,
        receiver: u32,
        opened: u32,
    ) -> PlainLink
        ensures { link_of result ≡ link_new credit sender receiver opened }
    {
        PlainLink {
            sender,
            receiver,
            opened,
            packets: Vec::new(alloc),
            ending: None,
            over: false,
            fresh: true,
            sent: Packet {
                version: 0,
                numbers: Vec::new(alloc),
            },
            untaken: true,
            had: Packet {
                version: 0,
                numbers: Vec::new(alloc),
            },
            outgoing: CreditOut::new(credit),
            incoming: CreditIn::new(credit),
            grants: Vec::new(alloc),
        }
    }

    /// A link opens in a version, with a first packet of its sender's rows.
    pub(crate) fn open(
        alloc: Global,
        credit: CreditSpec,
        id: u32,
        receiver: u32,
        version: u32,
        sender: &PlainMember,
    ) -> Result<PlainLink, OutOfMemory>
        ensures { IfOk result (λ link. link_of link
            ≡ link_opened credit id receiver version (member_of sender.now).rows) }
    {
        let mut link = PlainLink::new(alloc, credit, id, receiver, version);
        link.put(alloc, version, sender)?;
        Ok(link)
    }

    /// Whether the sender has no credit left.
    pub(crate) fn is_blocked(&self) -> bool
        ensures { result ≡ blocked_is (link_of self.now).flow.sender }
    {
        self.outgoing.blocked()
    }

    /// Whether a packet would repeat what was last sent of one origin.
    fn is_sent(&self, sender: &PlainMember, id: usize) -> bool
        ensures { result ≡ sent_is (row_at (member_of sender.now) id)
            (the_numbers (link_of self.now).sending.sent id) }
    {
        let (got, forgot) = sender.got_and_forgot(id);
        let sent = numbers_at(&self.sent.numbers, id);
        got == sent.got && forgot == sent.forgot
    }

    /// Whether a packet would repeat what was last sent of each origin of ids below `size`.
    pub(crate) fn has_nothing_new(&self, size: usize, sender: &PlainMember) -> bool
        ensures { result ≡ nothing_is_new size (member_of sender.now) (link_of self.now).sending }
    {
        (0..size).all(|id| self.is_sent(sender, id))
    }

    /// The sender puts its next packet, in this version of its view.
    pub(crate) fn put(
        &mut self,
        alloc: Global,
        version: u32,
        sender: &PlainMember,
    ) -> Result<(), OutOfMemory>
        requires { blocked_is (link_of self.old).flow.sender ≡ false }
        ensures ok { OnOk result (link_of self.new
            ≡ pushed (link_of self.old) (packet_in version (member_of sender.now) (link_of self.old).sending)) }
        ensures err { OnErr result (link_of self.new ≡ link_of self.old) }
    {
        let numbers = next_numbers(alloc, self.fresh, &self.sent.numbers, sender)?;
        let sent = Vec::from_slice(alloc, &numbers)?;
        self.packets.push(Packet { version, numbers })?;
        self.sent = Packet {
            version,
            numbers: sent,
        };
        self.fresh = false;
        self.outgoing.send();
        Ok(())
    }

    /// Whether no packet is on the way.
    pub(crate) fn is_empty(&self) -> bool
        ensures { result ≡ empty_is (link_of self.now).packets }
    {
        self.packets.is_empty()
    }

    /// Whether there is neither a packet nor an end.
    pub(crate) fn holds_nothing(&self) -> bool
        ensures { result ≡ nothing_is_held (link_of self.now) }
    {
        self.packets.is_empty() && self.ending.is_none()
    }

    /// The oldest packet on the way.
    pub(crate) fn oldest(&self) -> &Packet
        requires { empty_is (link_of self.now).packets ≡ false }
        ensures { packet_of result.now ≡ the_oldest (link_of self.now) }
    {
        &self.packets[0]
    }

    /// Makes room for the grant that may be due.
    pub(crate) fn reserve_grant(&mut self) -> Result<(), OutOfMemory>
        ensures same { link_of self.new ≡ link_of self.old }
        ensures room { OnOk result (vec_len self.new.grants < vec_capacity self.new.grants) }
    {
        self.grants.reserve(1)?;
        Ok(())
    }

    /// The oldest packet goes, and its receiver counts it.
    pub(crate) fn pop(&mut self)
        requires some { empty_is (link_of self.old).packets ≡ false }
        requires room { vec_len self.old.grants < vec_capacity self.old.grants }
        ensures { link_of self.new ≡ popped (link_of self.old) }
    {
        self.had = self.packets.remove(0);
        self.untaken = false;
        if let Some(grant) = self.incoming.took() {
            self.grants.push_reserved(grant);
        }
    }

    /// Whether no grant is under way.
    pub(crate) fn has_no_grant(&self) -> bool
        ensures { result ≡ empty_is (link_of self.now).flow.grants }
    {
        self.grants.is_empty()
    }

    /// The oldest grant becomes credit.
    pub(crate) fn gain(&mut self)
        requires { empty_is (link_of self.old).flow.grants ≡ false }
        ensures { link_of self.new ≡ gained_on (link_of self.old) }
    {
        let grant = self.grants.remove(0);
        self.outgoing.gain(grant);
    }

    /// It ends so, if it hasn't ended yet.
    pub(crate) fn end(&mut self, why: Ending)
        ensures { link_of self.new ≡ is_ended why (link_of self.old) }
    {
        if self.ending.is_none() {
            self.ending = Some(why);
        }
    }

    /// Its end was taken.
    pub(crate) fn finish(&mut self)
        ensures { link_of self.new ≡ finished (link_of self.old) }
    {
        self.over = true;
    }
}

fn next_line(fresh: bool, sent: &[Numbers], sender: &PlainMember, id: usize) -> Numbers
    ensures { result ≡ the_next_numbers fresh (row_at (member_of sender.now) id)
        (slice_index_or sent.now id no_numbers) }
{
    let (got, forgot) = sender.got_and_forgot(id);
    let lo = if fresh {
        forgot
    } else {
        numbers_at(sent, id).got
    };
    Numbers { lo, got, forgot }
}

/// The numbers of a member's rows, beside those last sent.
fn next_numbers(
    alloc: Global,
    fresh: bool,
    sent: &[Numbers],
    sender: &PlainMember,
) -> Result<Vec<Numbers>, OutOfMemory>
    ensures { IfOk result (λ packet. packet.items
        ≡ next_lines fresh (member_of sender.now).rows sent.now) }
{
    let mut numbers = Vec::new(alloc);
    for id in 0..sender.rows.len() {
        numbers.push(next_line(fresh, sent, sender, id))?;
    }
    Ok(numbers)
}
