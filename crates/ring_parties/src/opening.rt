//! The opening of a cluster.
ghost use Rattle.std.specs.Prelude.{◌≡◌, ◌+◌, ◌<◌, ◌≤◌, ◌++◌, ◌∷◌, IfOk, OnOk, [], true, false, length, map, ℕ};
ghost use Rattle.std.specs.List.{range_with_len};
ghost use Rattle.group_view.specs.Change.{opening as opening_group};
ghost use Rattle.group_view.specs.Ring.{is_in};
ghost use Rattle.ring_rules.specs.Rows.{most_members};
ghost use Rattle.ring_rules.specs.View.{ids};
ghost use Rattle.gm_member.specs.Held.{founded};
ghost use Rattle.ordered_link.specs.Names.{PairName};
ghost use Rattle.ring_parties.specs.Parties.{shown_of, shown_in, out_seen, in_seen, keeps_in};
ghost use Rattle.ring_parties.specs.Keeps.{no_keeps};
ghost use Rattle.ring_parties.specs.Opened.{two_ends, opened_at, AreRings};

use crate::node::Node;
use crate::parties::Parties;
use crate::party::Party;
use activity::Load;
use gm_member::Member;
use group_view::View;
use ordered_link::{RingIn, RingOut, ring_pair};
use registrar::Registrar;
use ring_names::{CreditSpec, MemberId, Name, OutOfMemory};
use std::alloc::Global;
use std::mem;

/// The member at place k of the opening, with these ends.
fn opening_node(
    alloc: Global,
    name: Name,
    k: usize,
    view: &View,
    credit: CreditSpec,
    out: RingOut<Load>,
    link: RingIn<Load>,
) -> Result<Node, OutOfMemory>
    requires few { k < most_members }
    requires stands { is_in (k + 1) (ids view.now) ≡ true }
    requires unended { out.ended ≡ false }
    ensures { IfOk result (λ m. shown_of m ≡ record
        { held = founded credit name (k + 1) view.now; ends = two_ends (out_seen out) (in_seen link) }) }
{
    let view = view.copy()?;
    let node = Member::founding(alloc, name, MemberId(k as u32 + 1), view, credit, out, link)?;
    Ok(node)
}

/// The members of the opening, in ring order.
fn opening_members(
    alloc: Global,
    names: &[Name],
    view: &View,
    credit: CreditSpec,
) -> Result<Vec<Party>, OutOfMemory>
    requires few { length names.now ≤ most_members }
    requires view { view.now ≡ opening_group names.now }
    requires some { 0 < length names.now }
    ensures shown { IfOk result (λ v. (rings : ℕ → PairName) × AreRings rings credit.initial (length names.now)
        × (map shown_in v.items ≡ map (opened_at rings credit names.now) (range_with_len 0 (length names.now)))) }
    ensures keeps { IfOk result (λ v. map keeps_in v.items
        ≡ map (λ (k : ℕ). no_keeps) (range_with_len 0 (length names.now))) }
{
    let mut members = Vec::new(alloc);
    let (last, mut link) = ring_pair(alloc, credit)?;
    for k in 0..names.len() - 1 {
        let (out, next) = ring_pair(alloc, credit)?;
        let mine = mem::replace(&mut link, next);
        let node = opening_node(alloc, names[k], k, view, credit, out, mine)?;
        push_member(&mut members, Party::founding(alloc, node)?)?;
    }
    let k = names.len() - 1;
    let node = opening_node(alloc, names[k], k, view, credit, last, link)?;
    push_member(&mut members, Party::founding(alloc, node)?)?;
    Ok(members)
}

/// One more member.
fn push_member(members: &mut Vec<Party>, member: Party) -> Result<(), OutOfMemory>
    ensures { OnOk result (members.new.items ≡ members.old.items ++ member ∷ []) }
{
    members.push(member)?;
    Ok(())
}

impl Parties {
    ghost use Rattle.std.specs.Prelude.{◌≡◌, ℕ, [], false, IfOk};
    ghost use Rattle.group_view.specs.Change.{AreOpeningNames};
    ghost use Rattle.ordered_link.specs.Names.{PairName};
    ghost use Rattle.ring_parties.specs.Opened.{opened_parties};
    ghost use Rattle.ring_parties.specs.States.{state};
    ghost use Rattle.ring_parties.specs.Keeps.{KeepsStand};
    ghost use Rattle.ring_parties.specs.Standing.{StandAfter};

    /// The parties of a ring that opens with these members, in ring order.
    pub fn opening(
        alloc: Global,
        names: &[Name],
        credit: CreditSpec,
    ) -> Result<Parties, OutOfMemory>
        requires { AreOpeningNames names.now }
        ensures opened { IfOk result (λ p. (rings : ℕ → PairName) × (p.all ≡ opened_parties rings credit names.now)) }
        ensures standing { IfOk result (λ p. StandAfter credit names.now [] p.all) }
        ensures keeps { IfOk result (λ p. KeepsStand (state credit names.now []) p.keeps) }
        ensures delivered { IfOk result (λ p. p.owes ≡ false) }
    {
        let registrar: Registrar<RingIn<Load>> = Registrar::opening(alloc, names)?;
        let members = opening_members(alloc, names, registrar.view(), credit)?;
        Ok(Parties {
            members,
            registrar,
            pending_deposit: None,
        })
    }
}
