//! A member over ring ends that has another view.
ghost use Rattle.std.specs.Prelude.{◌≡◌, ◌≤◌, true, length, IfOk, OnOk, OnErr, None, Some};
ghost use Rattle.ring_names.specs.declared.reason.Reason.{Reason};
ghost use Rattle.rtrb.specs.Ring.{known_free};
ghost use Rattle.ordered_link.specs.declared.ring.RingOut.{RingOut as Out};
ghost use Rattle.ordered_link.specs.RingSteps.{IsFreshRingPair};
ghost use Rattle.activity.specs.declared.packet.Load.{Load as Loaded};
ghost use Rattle.gm_member.specs.Shown.{SpareIsReady};
ghost use Rattle.registrar.specs.Registry.{AreHere};
ghost use Rattle.registrar.specs.Handled.{with_view, handled, answered};
ghost use Rattle.registrar.specs.Asked.{request_refusal};
ghost use Rattle.group_view.specs.View.{Group};
ghost use Rattle.group_view.specs.Ring.{is_in};
ghost use Rattle.ring_rules.specs.View.{ids};
ghost use Rattle.gm_member.specs.Held.{refresh_refused};
ghost use Rattle.ring_parties.specs.Parties.{shown_of};
ghost use Rattle.ring_parties.specs.Tried.{IsJudged};
ghost use Rattle.ring_parties.specs.Acting.{IsReady};
ghost use Rattle.ring_parties.specs.Looking.{first_of, to_deposit, pending_shown, replaced_seen, tidied, without_question};
ghost use Rattle.ring_parties.specs.Looking.{HasLooked, makes_view, ask_refused, view_for, brought};

use crate::control::Control;
use crate::node::{Node, drop_old_ins};
use crate::pending_deposit::PendingDeposit;
use activity::Load;
use gm_member::Ask;
use group_view::{Answer, LinkName, Request, View};
use ordered_link::{RingIn, RingOut};
use registrar::Registrar;
use ring_names::{OutOfMemory, Reason};
use ring_rules::Refused;

/// An out end that its member has replaced, with the name of its link.
pub(crate) type Replaced = (LinkName, RingOut<Load>);

/// What a member that has another view hands on: the link that it opened, and the out end that it replaced.
#[derive(Drop)]
pub(crate) struct Looked {
    pub(crate) opened: Option<PendingDeposit>,
    pub(crate) replaced: Option<Replaced>,
}

/// The member reads a view, which isn't older than its own.
pub(crate) fn look(node: &mut Node, view: View) -> Result<Looked, OutOfMemory>
    requires ready { IsReady (shown_of node.old) }
    requires stands { is_in (shown_of node.old).held.id (ids view) ≡ true }
    requires allowed { refresh_refused (shown_of node.old).held view.version ≡ None }
    ensures ok { IfOk result (λ l. HasLooked view (shown_of node.old) (shown_of node.new) (pending_shown l.opened)
        (replaced_seen l.replaced)) }
    ensures err { OnErr result (shown_of node.new ≡ shown_of node.old) }
{
    match node.refresh(view) {
        Ok(requests) => Ok(hand_on(node, requests)),
        Err((_view, _fault)) => Err(OutOfMemory),
    }
}

/// The member asks the registrar to make a view, and has it.
pub(crate) fn ask(
    node: &mut Node,
    control: &mut Control,
    registrar: &mut Registrar<RingIn<Load>>,
    what: Ask,
) -> Result<Looked, Refused>
    requires makes { makes_view what ≡ true }
    requires ready { IsReady (shown_of node.old) }
    requires here { AreHere (registrar.old).links }
    ensures judged { IsJudged (ask_refused registrar.old (shown_of node.old) what) result }
    ensures ok { IfOk result (λ l. HasLooked (view_for registrar.old (shown_of node.old).held.id what)
        (shown_of node.old) (shown_of node.new) (pending_shown l.opened) (replaced_seen l.replaced)) }
    ensures registrar { OnOk result (registrar.new
        ≡ with_view registrar.old (view_for registrar.old (shown_of node.old).held.id what)) }
    ensures err { OnErr result ((shown_of node.new ≡ shown_of node.old) × (registrar.new ≡ registrar.old)) }
{
    let request = node.ask(what)?;
    match ask_for_view(control, registrar, request) {
        Ok(view) => Ok(read_answer(node, view)),
        Err(refused) => {
            close(node);
            Err(refused)
        }
    }
}

/// What the registrar answers to a request for a view.
fn ask_for_view(
    control: &mut Control,
    registrar: &mut Registrar<RingIn<Load>>,
    request: Request<RingIn<Load>>,
) -> Result<View, Refused>
    requires here { AreHere (registrar.old).links }
    requires view { (v : Group) × (brought (answered registrar.old request) ≡ Some v) }
    ensures judged { IsJudged (request_refusal registrar.old request) result }
    ensures view { IfOk result (λ v. brought (answered registrar.old request) ≡ Some v) }
    ensures registrar { OnOk result (registrar.new ≡ handled registrar.old request) }
    ensures err { OnErr result (registrar.new ≡ registrar.old) }
{
    if let Some(reason) = registrar.refusal(&request) {
        return Err(Refused::NotEnabled(reason));
    }
    match control.visit(registrar, request) {
        Ok(Answer::Viewed(view)) => Ok(view),
        Ok(Answer::Admitted { view, id: _ }) => Ok(view),
        Ok(Answer::Links(_)) => unreachable!(),
        Ok(Answer::Noted) => unreachable!(),
        Ok(Answer::No(_)) => unreachable!(),
        Err((_request, OutOfMemory)) => Err(Refused::OutOfMemory),
    }
}

/// The member reads the view with which its question is answered.
fn read_answer(node: &mut Node, view: View) -> Looked
    requires open { (shown_of node.old).held.asks ≡ true }
    requires ready { IsReady (shown_of node.old) }
    requires stands { is_in (shown_of node.old).held.id (ids view) ≡ true }
    requires spare { SpareIsReady (λ n o i. IsFreshRingPair n o i) (λ (o : Out Loaded). known_free o.items)
        (λ (o : Out Loaded). o.ended) node.old }
    ensures { HasLooked view (without_question (shown_of node.old)) (shown_of node.new) (pending_shown result.opened)
        (replaced_seen result.replaced) }
{
    match node.answer(Answer::Viewed(view)) {
        Ok(requests) => hand_on(node, requests),
        Err(_) => unreachable!(),
    }
}

/// The member's question is closed, unanswered.
pub(crate) fn close(node: &mut Node)
    requires open { (shown_of node.old).held.asks ≡ true }
    ensures { shown_of node.new ≡ without_question (shown_of node.old) }
{
    match node.answer(Answer::No(Reason::AwaitingAnswer)) {
        Ok(_requests) => {}
        Err(_) => unreachable!(),
    }
}

/// What a member that has another view hands on; the ends that it has left are dropped.
fn hand_on(node: &mut Node, requests: Vec<Request<RingIn<Load>>>) -> Looked
    requires few { length (shown_of node.old).ends.old_outs ≤ 1 }
    ensures node { shown_of node.new ≡ tidied (shown_of node.old) }
    ensures opened { pending_shown result.opened ≡ to_deposit requests.items }
    ensures replaced { replaced_seen result.replaced ≡ first_of (shown_of node.old).ends.old_outs }
{
    let replaced = node.old_out();
    drop_old_ins(node);
    let opened = opened_by(requests);
    Looked { opened, replaced }
}

/// The link that is to wait at the registrar, if one is.
fn opened_by(requests: Vec<Request<RingIn<Load>>>) -> Option<PendingDeposit>
    ensures { pending_shown result ≡ to_deposit requests.items }
{
    let first = requests.into_iter().next()?;
    match first.into_link() {
        Ok((name, link)) => Some(PendingDeposit { name, link }),
        Err(_other) => None,
    }
}
