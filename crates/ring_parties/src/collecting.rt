//! A member collects the links that wait for it at the registrar.
ghost use Rattle.std.specs.Prelude.{◌≡◌, true, false, OnOk, OnErr, IfOk, None, List, length, map};
ghost use Rattle.std.specs.List.{filter};
ghost use Rattle.ordered_link.specs.declared.ring.RingIn.{RingIn as In};
ghost use Rattle.group_view.specs.declared.request.Answer.TheVariants.{Links};
ghost use Rattle.group_view.specs.declared.request.Deposited.{Deposited as Given};
ghost use Rattle.ring_rules.specs.declared.phase.Phase.TheVariants.{Up};
ghost use Rattle.registrar.specs.Registry.{AreHere, is_known};
ghost use Rattle.registrar.specs.Asked.{request_refusal};
ghost use Rattle.registrar.specs.Handled.{handled, answered, without_links};
ghost use Rattle.activity.specs.declared.packet.Load.{Load as Loaded};
ghost use Rattle.gm_member.specs.Held.{asking_held};
ghost use Rattle.gm_member.specs.Shown.{HasRoom, held_of, ends_of};
ghost use Rattle.gm_member.specs.Questions.{asked_for};
ghost use Rattle.ring_parties.specs.Parties.{shown_of, deposit_shown};
ghost use Rattle.ring_parties.specs.Acting.{IsReady, waits_at, Collects};
ghost use Rattle.ring_parties.specs.Collecting.{AreOfRing, given_links};

use crate::control::Control;
use crate::looking::close;
use crate::node::{Node, drop_old_ins};
use crate::parties::Parties;
use activity::Load;
use gm_member::Ask;
use group_view::{Answer, Deposited, Request};
use ordered_link::RingIn;
use registrar::Registrar;
use ring_names::{Items, OutOfMemory};
use ring_rules::Phase;

/// Whether a member is up.
fn is_up(node: &Node) -> bool
    ensures up { result ≡ true → (shown_of node.now).held.phase ≡ Up }
    ensures all { (shown_of node.now).held.phase ≡ Up → result ≡ true }
{
    match node.phase() {
        Phase::Up => true,
        Phase::Waiting | Phase::Stopped => false,
    }
}

impl Parties {
    ghost use Rattle.std.specs.Prelude.{◌≡◌, ◌+◌, ◌<◌, false, OnOk};
    ghost use Rattle.ring_rules.specs.declared.phase.Phase.TheVariants.{Up};
    ghost use Rattle.ring_parties.specs.Parties.{node_at};
    ghost use Rattle.ring_parties.specs.Standing.{MayAct, StandStill};
    ghost use Rattle.ring_parties.specs.Refused.{NothingWaits};

    /// The links that wait for the member at a place come to its door, where it is up, and none waits for it then. Want
    /// of memory leaves everything as it was.
    pub(crate) fn collect(&mut self, i: usize) -> Result<(), OutOfMemory>
        requires { MayAct self.old i }
        ensures standing { StandStill (self.old).all (self.new).all }
        ensures keeps { (self.new).keeps ≡ (self.old).keeps }
        ensures delivered { (self.new).owes ≡ false }
        ensures none { OnOk result ((node_at (self.new).all i).held.phase ≡ Up
            → NothingWaits (i + 1) (self.new).all) }
    {
        if !is_up(&self.members[i].node) {
            return Ok(());
        }
        let party = &mut self.members[i];
        collect(&mut party.node, &mut party.control, &mut self.registrar)?;
        Ok(())
    }
}

/// The links that wait for a member come to its door, and the ends of those that it doesn't keep are dropped.
fn collect(
    node: &mut Node,
    control: &mut Control,
    registrar: &mut Registrar<RingIn<Load>>,
) -> Result<(), OutOfMemory>
    requires up { (shown_of node.old).held.phase ≡ Up }
    requires free { (shown_of node.old).held.asks ≡ false }
    requires ready { IsReady (shown_of node.old) }
    requires here { AreHere (registrar.old).links }
    requires ring { AreOfRing (registrar.old).links }
    requires known { is_known registrar.old (shown_of node.old).held.id ≡ true }
    ensures ok { OnOk result (Collects (shown_of node.old) (shown_of node.new)
        (filter (waits_at (shown_of node.old).held.id) (map deposit_shown (registrar.old).links))) }
    ensures registrar { OnOk result (registrar.new ≡ without_links registrar.old (shown_of node.old).held.id) }
    ensures err { OnErr result ((shown_of node.new ≡ shown_of node.old) × (registrar.new ≡ registrar.old)) }
{
    let waiting = registrar.waiting_for(node.id());
    if waiting == 0 {
        return Ok(());
    }
    let request = ask_to_collect(node, waiting)?;
    match ask_for_links(control, registrar, request) {
        Ok(links) => {
            receive(node, links);
            Ok(())
        }
        Err(fault) => {
            close(node);
            Err(fault)
        }
    }
}

/// The member asks for the links that wait for it, for which it has room.
fn ask_to_collect(node: &mut Node, waiting: usize) -> Result<Request<RingIn<Load>>, OutOfMemory>
    requires up { (shown_of node.old).held.phase ≡ Up }
    requires free { (shown_of node.old).held.asks ≡ false }
    ensures held { OnOk result (held_of node.new ≡ asking_held (held_of node.old)) }
    ensures ends { OnOk result (ends_of node.new ≡ ends_of node.old) }
    ensures request { IfOk result (λ r. r ≡ asked_for (held_of node.old) Ask.Collect) }
    ensures room { OnOk result (HasRoom waiting node.new) }
    ensures err { OnErr result (shown_of node.new ≡ shown_of node.old) }
{
    node.make_room(waiting)?;
    match node.ask(Ask::Collect) {
        Ok(request) => Ok(request),
        Err(_fault) => Err(OutOfMemory),
    }
}

/// What the registrar answers to a request for links, which nothing refuses.
fn ask_for_links(
    control: &mut Control,
    registrar: &mut Registrar<RingIn<Load>>,
    request: Request<RingIn<Load>>,
) -> Result<Items<Deposited<RingIn<Load>>>, OutOfMemory>
    requires here { AreHere (registrar.old).links }
    requires links { (ds : List (Given (In Loaded))) × (answered registrar.old request ≡ Links ds) }
    requires allowed { request_refusal registrar.old request ≡ None }
    ensures links { IfOk result (λ ds. answered registrar.old request ≡ Links ds) }
    ensures registrar { OnOk result (registrar.new ≡ handled registrar.old request) }
    ensures err { OnErr result (registrar.new ≡ registrar.old) }
{
    match control.visit(registrar, request) {
        Ok(Answer::Links(links)) => Ok(links),
        Ok(Answer::Viewed(_)) => unreachable!(),
        Ok(Answer::Admitted { view: _, id: _ }) => unreachable!(),
        Ok(Answer::Noted) => unreachable!(),
        Ok(Answer::No(_)) => unreachable!(),
        Err((_request, OutOfMemory)) => Err(OutOfMemory),
    }
}

/// The links with which the member's question is answered, for which it has room.
fn receive(node: &mut Node, links: Items<Deposited<RingIn<Load>>>)
    requires open { (shown_of node.old).held.asks ≡ true }
    requires room { HasRoom (length links) node.old }
    ensures { shown_of node.new ≡ given_links node.old links }
{
    match node.answer(Answer::Links(links)) {
        Ok(_requests) => drop_old_ins(node),
        Err(_) => unreachable!(),
    }
}
