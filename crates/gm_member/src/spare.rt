//! A link that a member has ready before it asks for a view, with its first packet.
ghost use Rattle.std.specs.Prelude.{◌<◌, ◌≡◌, false};
ghost use Rattle.std.specs.Vec.{vec_len, vec_capacity};
ghost use Rattle.std.specs.Prelude.{IfOk, true};
ghost use Rattle.activity.specs.Diff.{IsNotAbove};
ghost use Rattle.gm_member.specs.Packets.{packet_by_id};
ghost use Rattle.gm_member.specs.View.{all_kept, all_sent};
ghost use Rattle.gm_member.specs.Held.{fresh_out, lines_on, all_last_sent};

use crate::links::OutLink;
use activity::{Load, Packet, Sent, Tables, diff};
use credit_flow::CreditOut;
use group_view::{LinkKind, Request};
use ordered_link::{LinkOut, LinkPair};
use ring_names::{CreditSpec, MemberId, OutOfMemory, Stamp};
use std::alloc::Global;

/// What a packet carries before it is put.
const NOT_YET: Stamp = Stamp {
    round: 0,
    time: 0,
    party: 0,
};

/// The ends of a link on which nothing was put, the packet that will be its first, for which it has room, the numbers
/// that it says, and room for the request by which the receiving end goes to the registrar.
#[derive(Drop)]
pub(crate) struct Spare<O: LinkOut<Load>, I> {
    pub(crate) out: O,
    pub(crate) link: I,
    pub(crate) packet: Packet,
    pub(crate) sent: Sent,
    pub(crate) requests: Vec<Request<I>>,
    ghost room: { vec_len requests < vec_capacity requests },
    ghost unended: { O.ended out ≡ false },
    ghost slots: { 1 < O.free out },
}

impl<O: LinkPair<Load, In = I>, I: Drop> Spare<O, I> {
    ghost use Rattle.std.specs.Prelude.{◌≡◌, ◌<◌, List, false, IfOk, MatchOption};
    ghost use Rattle.activity.specs.Kept.{Kept};
    ghost use Rattle.activity.specs.Diff.{IsNotAbove};
    ghost use Rattle.gm_member.specs.View.{all_kept};
    ghost use Rattle.gm_member.specs.Spares.{IsSpareFor, OpensOn};

    /// A spare link with this credit, and the first packet of these tables.
    pub(crate) fn make(
        alloc: Global,
        credit: CreditSpec,
        tables: &Tables,
    ) -> Result<Spare<O, I>, OutOfMemory>
        ensures spare { IfOk result (λ spare. IsSpareFor O.are_fresh O.free O.ended credit.initial (all_kept tables.now)
            spare) }
        ensures there { IfOk result (λ spare. IsNotAbove spare.sent tables.now) }
    {
        let (out, link) = O::pair(alloc, credit)?;
        let (packet, sent) = first_packet(alloc, tables)?;
        let requests = Vec::with_capacity(alloc, 1)?;
        Ok(Spare {
            out,
            link,
            packet,
            sent,
            requests,
        })
    }

    /// The link opens: its first packet is put under this stamp, and a request carries the receiving end to the registrar.
    pub(crate) fn open(
        self,
        by: MemberId,
        to: MemberId,
        version: u32,
        credit: CreditSpec,
        stamp: Stamp,
    ) -> (OutLink<O>, Vec<Request<I>>)
        ensures opens { (known : List Kept) → IsSpareFor O.are_fresh O.free O.ended credit.initial known self
            → OpensOn O.puts credit known by to version self result.0 result.1.items }
        ensures sent { result.0.sent ≡ self.sent }
        ensures unended { MatchOption result.0.end ⊥ (λ o. O.ended o ≡ false) }
    {
        let Spare {
            mut out,
            link,
            packet,
            sent,
            mut requests,
        } = self;
        match out.put(Load::Packet(Packet {
            stamp,
            view: version,
            ..packet
        })) {
            Ok(()) => {}
            Err(_back) => unreachable!(),
        }
        let mut outgoing = CreditOut::new(credit);
        outgoing.send();
        let deposit = Request::Deposit {
            by,
            to,
            view: version,
            kind: LinkKind::Ring,
            link,
        };
        match requests.push(deposit) {
            Ok(()) => {}
            Err(_full) => unreachable!(),
        }
        let opened = OutLink {
            to,
            opened: version,
            fresh: false,
            sent,
            credit: outgoing,
            returned: None,
            end: Some(out),
        };
        (opened, requests)
    }
}

/// The first packet of these tables, and the numbers that are the last sent then.
fn first_packet(alloc: Global, tables: &Tables) -> Result<(Packet, Sent), OutOfMemory>
    ensures first { IfOk result (λ r. r.0.first ≡ true) }
    ensures lines { IfOk result (λ r. (packet_by_id r.0).lines ≡ lines_on (all_kept tables.now) (fresh_out 0 0 0 0)) }
    ensures last_sent { IfOk result (λ r. all_sent r.1 ≡ all_last_sent (all_kept tables.now)) }
    ensures there { IfOk result (λ r. IsNotAbove r.1 tables.now) }
{
    let mut sent = Sent::new(alloc);
    let packet = diff(alloc, &sent, tables, NOT_YET, 0, true)?;
    sent.make_room(&packet)?;
    sent.note(&packet);
    Ok((packet, sent))
}
