//! A member of the cluster admits another.
ghost use Rattle.std.specs.Prelude.{◌≡◌, ◌≤◌, ◌<◌, ◌∷◌, ◌++◌, [], true, IsSome, IfOk, None};
ghost use Rattle.std.specs.Vec.{vec_len, vec_capacity};
ghost use Rattle.group_view.specs.Change.{admitted, admit_refusal as group_refusal};
ghost use Rattle.group_view.specs.Ring.{is_in};
ghost use Rattle.ring_rules.specs.Rows.{most_members};
ghost use Rattle.ring_rules.specs.View.{ids};
ghost use Rattle.gm_member.specs.Held.{at_some};
ghost use Rattle.ring_parties.specs.Parties.{Deposit, shown_of};
ghost use Rattle.ring_parties.specs.Looking.{pending_shown};
ghost use Rattle.ring_parties.specs.Acting.{joined};

use crate::control::Control;
use crate::looking::{Replaced, ask};
use crate::node::Node;
use crate::parties::Parties;
use crate::party::Party;
use crate::pending_deposit::PendingDeposit;
use crate::refusing::admit_refusal;
use gm_member::{Ask, Member};
use group_view::View;
use ordered_link::ring_pair;
use ring_names::{CreditSpec, MemberId, Name, OutOfMemory};
use ring_rules::Refused;
use std::alloc::Global;

/// Whom a member admits who has this view, with the in end of a pair of its own until a link opens to it.
fn joining_node(
    alloc: Global,
    view: &View,
    by: MemberId,
    name: Name,
    credit: CreditSpec,
) -> Result<Node, OutOfMemory>
    requires allowed { group_refusal view.now.entries by.0 name ≡ None }
    requires from_one { 1 ≤ view.now.next_id }
    requires few { view.now.next_id ≤ most_members }
    requires stands { is_in view.now.next_id (ids (admitted view.now by.0 name)) ≡ true }
    ensures { IfOk result (λ m. shown_of m
        ≡ joined credit name view.now.next_id (admitted view.now by.0 name) (shown_of m).ends.link) }
{
    let (_out, link) = ring_pair(alloc, credit)?;
    let mut view = view.copy()?;
    let Ok(id) = view.admit(by, name) else {
        return Err(OutOfMemory);
    };
    match Member::joining(alloc, name, id, view, credit, link) {
        Ok(node) => Ok(node),
        Err(_) => Err(OutOfMemory),
    }
}

/// The end of the link that was opened to a member that joins takes the place of the one with which it was made.
fn seat(node: &mut Node, opened: Option<PendingDeposit>)
    requires { IsSome (shown_of node.old).held.current }
    ensures { shown_of node.new ≡ record (shown_of node.old) {
      ends = record (shown_of node.old).ends {
        link = at_some (pending_shown opened) None (λ (d : Deposit). d.end);
      };
    } }
{
    let _made_with = node.lend_in(0);
    if let Some(PendingDeposit { name: _, link }) = opened {
        node.give_in(0, link);
    }
}

/// One more party, for which there is room.
fn push_reserved(members: &mut Vec<Party>, party: Party)
    requires { vec_len members.old < vec_capacity members.old }
    ensures { members.new.items ≡ members.old.items ++ party ∷ [] }
{
    if members.push(party).is_err() {
        unreachable!()
    }
}

impl Parties {
    ghost use Rattle.std.specs.Prelude.{◌≡◌, ◌<◌, ◌++◌, ◌∷◌, [], IfOk, OnOk, OnErr};
    ghost use Rattle.ring_parties.specs.Keeps.{joining_keeps};
    ghost use Rattle.gm_member.specs.Held.{up_refused};
    ghost use Rattle.ring_parties.specs.Parties.{node_at};
    ghost use Rattle.ring_parties.specs.Standing.{MayAct};
    ghost use Rattle.ring_parties.specs.Tried.{IsJudged};
    ghost use Rattle.ring_parties.specs.Looking.{replaced_seen};
    ghost use Rattle.ring_parties.specs.Acting.{newest_of, HasCredit, AdmitsAt};
    ghost use Rattle.ring_parties.specs.Refused.{admission_refused};

    /// The member at a place admits one of a name, where it may. Whom it admits is made before the registrar is asked,
    /// so that nothing wants memory after it has answered; the link that opens is for that one.
    pub(crate) fn act_admit(
        &mut self,
        credit: CreditSpec,
        i: usize,
        name: &Name,
    ) -> Result<Option<Replaced>, Refused>
        requires may { MayAct self.old i }
        requires credit { HasCredit credit (node_at (self.old).all i).held }
        ensures judged { IsJudged (up_refused (node_at (self.old).all i).held
            (admission_refused (newest_of (self.old).all) name.now)) result }
        ensures ok { IfOk result (λ replaced. AdmitsAt name.now i (self.old).all (self.new).all (replaced_seen replaced)) }
        ensures keeps { OnOk result ((self.new).keeps ≡ (self.old).keeps ++ joining_keeps ∷ []) }
        ensures err { OnErr result (self.new ≡ self.old) }
    {
        let view = self.registrar.view();
        if let Some(reason) = admit_refusal(view, &self.members[i].node, name) {
            return Err(Refused::NotEnabled(reason));
        }
        let alloc = *self.members.allocator();
        let Ok(mut node) = joining_node(alloc, view, MemberId(i as u32 + 1), *name, credit) else {
            return Err(Refused::OutOfMemory);
        };
        if self.members.reserve(1).is_err() {
            return Err(Refused::OutOfMemory);
        }
        let Ok(control) = Control::new(alloc) else {
            return Err(Refused::OutOfMemory);
        };
        let party = &mut self.members[i];
        let looked = match ask(
            &mut party.node,
            &mut party.control,
            &mut self.registrar,
            Ask::Admit(*name),
        ) {
            Ok(looked) => looked,
            Err(refused) => return Err(refused),
        };
        seat(&mut node, looked.opened);
        push_reserved(&mut self.members, Party::joining(alloc, node, control));
        Ok(looked.replaced)
    }
}
