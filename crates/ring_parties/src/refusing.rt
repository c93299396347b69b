//! Why an event of a member of the cluster is refused. What is here only reads, and wants no memory.
ghost use Rattle.std.specs.Prelude.{◌≡◌, ◌∷◌, List, [], true, false, Some, None, Option, MatchOption, map};
ghost use Rattle.ring_rules.specs.Refusal.{is_empty};
ghost use Rattle.ring_rules.specs.Kind.{kind_of, shown_kind};
ghost use Rattle.ring_rules.specs.Event.{is_told as told, is_passing as passes};
ghost use Rattle.ring_names.specs.declared.reason.Reason.{Reason};
ghost use Rattle.gm_member.specs.Held.{up_refused, take_refused};
ghost use Rattle.ring_parties.specs.Ends.{PacketShown};
ghost use Rattle.ring_parties.specs.Behind.{behind};
ghost use Rattle.ring_parties.specs.Parties.{shown_of, shown_in, keeps_in, content, deposit_shown};
ghost use Rattle.ring_parties.specs.Acting.{stop_refused, look_refused, packet_refused, link_end_refused};
ghost use Rattle.ring_parties.specs.Acting.{grant_refused, step_refused, back_of, first_item as the_first};
ghost use Rattle.ring_parties.specs.Refused.{first_for, admission_refused, client_refused, own_refused};

use crate::node::Node;
use crate::parties::Parties;
use crate::party::Party;
use crate::pending_deposit::PendingDeposit;
use crate::queue::{ask_refusal, publish_refusal, say_refusal};
use activity::Load;
use gm_member::view_refusal;
use group_view::{MOST_MEMBERS, Request, View};
use ordered_link::{Item, RingIn};
use registrar::Registrar;
use ring_names::{Name, Reason};
use ring_rules::{Client, Event, Kind, LinkStep, Phase, ViewChange};

/// Why a member may not stop, of which no question is open.
pub(crate) fn stop_refusal(node: &Node) -> Option<Reason>
    requires { (shown_of node.now).held.asks ≡ false }
    ensures { result ≡ stop_refused (shown_of node.now) }
{
    match node.phase() {
        Phase::Stopped => Some(Reason::Stopped),
        Phase::Waiting | Phase::Up => None,
    }
}

/// Why a member may not act, of which no question is open.
pub(crate) fn up_refusal(node: &Node) -> Option<Reason>
    requires { (shown_of node.now).held.asks ≡ false }
    ensures { result ≡ up_refused (shown_of node.now).held None }
{
    match node.phase() {
        Phase::Stopped => Some(Reason::Stopped),
        Phase::Waiting => Some(Reason::Waiting),
        Phase::Up => None,
    }
}

/// Why the member may not read the view of a version, where the newest is another.
pub(crate) fn look_refusal(node: &Node, newest: u32, version: u32) -> Option<Reason>
    requires { (shown_of node.now).held.asks ≡ false }
    ensures { result ≡ look_refused newest (shown_of node.now) version }
{
    if let Some(reason) = up_refusal(node) {
        return Some(reason);
    }
    let held = node.view().version;
    if version < held || newest < version {
        return Some(Reason::ViewOutOfRange {
            asked: version,
            held,
            newest,
        });
    }
    None
}

/// Why a member has nobody marked or erased of whom nobody knows.
pub(crate) fn unknown(node: &Node) -> Reason
    requires { (shown_of node.now).held.asks ≡ false }
    ensures { up_refused (shown_of node.now).held (Some Reason.UnknownMember) ≡ Some result }
{
    match up_refusal(node) {
        Some(reason) => reason,
        None => Reason::UnknownMember,
    }
}

/// Why a member does no step on a copy: a ring by itself has none, so one that is up waits for them.
pub(crate) fn no_copy(node: &Node) -> Reason
    requires { (shown_of node.now).held.asks ≡ false }
    ensures { up_refused (shown_of node.now).held (Some Reason.Waiting) ≡ Some result }
{
    match up_refusal(node) {
        Some(reason) => reason,
        None => Reason::Waiting,
    }
}

/// Why a member admits nobody under a name, where this is the newest view.
pub(crate) fn admit_refusal(view: &View, node: &Node, name: &Name) -> Option<Reason>
    requires { (shown_of node.now).held.asks ≡ false }
    ensures { result ≡ up_refused (shown_of node.now).held (admission_refused view.now name.now) }
{
    if let Some(reason) = up_refusal(node) {
        return Some(reason);
    }
    if view.find(name).is_some() {
        return Some(Reason::NameTaken);
    }
    if view.entries.as_slice().len() >= MOST_MEMBERS {
        return Some(Reason::TooManyMembers);
    }
    None
}

/// Why a member doesn't do what a client asks, where this is the newest view.
fn client_refusal(view: &View, party: &Party, asked: &Client) -> Option<Reason>
    requires { (shown_in party.now).held.asks ≡ false }
    ensures { result ≡ client_refused view.now (keeps_in party.now) asked.now (shown_in party.now) }
{
    match asked {
        Client::Sync { .. } => Some(no_copy(&party.node)),
        Client::Stop { by: _ } => stop_refusal(&party.node),
        Client::Admit { by: _, name } => admit_refusal(view, &party.node, name),
        Client::Cast { .. } => up_refusal(&party.node),
        Client::Publish { .. } => publish_refusal(party),
        _ => match asked.asking() {
            Some(asking) => ask_refusal(party, asking),
            None => unreachable!(),
        },
    }
}

/// Whether a client isn't told a refusal, as its command stays: its member waits for its state, or hasn't started as a
/// master yet.
pub fn is_passing(reason: &Reason) -> bool
    ensures { result ≡ passes reason.now }
{
    matches!(reason, Reason::Waiting | Reason::NotStarted)
}

/// Whether a client is refused with this number.
fn is_told(code: u32, refusal: &Option<Reason>) -> bool
    ensures { result ≡ told code refusal.now }
{
    match refusal {
        Some(reason) => reason.code() == code && !is_passing(reason),
        None => false,
    }
}

/// Why a member doesn't tell a client what the event tells it: that what it asks isn't done.
fn telling_refusal(view: &View, party: &Party, event: &Event) -> Option<Reason>
    requires tells { shown_kind (kind_of event.now) ≡ Kind.Tells }
    requires free { (shown_in party.now).held.asks ≡ false }
    ensures { result ≡ own_refused view.now (keeps_in party.now) (kind_of event.now) (shown_in party.now) }
{
    match event {
        Event::Refuse { code, inner } => {
            if !is_told(*code, &client_refusal(view, party, inner)) {
                return Some(Reason::NotRefused);
            }
            None
        }
        _ => unreachable!(),
    }
}

/// Why the member may take nothing, before its link is looked at.
fn no_link(node: &Node) -> Option<Reason>
    requires { (shown_of node.now).held.asks ≡ false }
    ensures { result ≡ take_refused (shown_of node.now).held None }
{
    if let Some(reason) = stop_refusal(node) {
        return Some(reason);
    }
    if node.in_name(0).is_none() {
        return Some(Reason::NoCurrentLink);
    }
    None
}

/// What stands first on the link from which a member takes.
pub(crate) fn first_item(node: &Node) -> Option<&Item<Load>>
    ensures { MatchOption result (the_first (shown_of node.now).ends.link ≡ [])
        (λ item. (rest : List (Option PacketShown)) × (the_first (shown_of node.now).ends.link ≡ content item.now ∷ rest)) }
{
    node.link_end()?.first()
}

/// Why the member takes no packet.
fn packet_refusal(node: &Node) -> Option<Reason>
    requires { (shown_of node.now).held.asks ≡ false }
    ensures { result ≡ packet_refused (shown_of node.now) }
{
    if let Some(reason) = no_link(node) {
        return Some(reason);
    }
    match first_item(node) {
        Some(Item::Load(Load::Packet(packet))) => view_refusal(packet, node.view().version),
        Some(Item::End { .. }) => Some(Reason::EndNext),
        None => Some(Reason::NothingToTake),
    }
}

/// Why it doesn't take the end of its link.
fn link_end_refusal(node: &Node) -> Option<Reason>
    requires { (shown_of node.now).held.asks ≡ false }
    ensures { result ≡ link_end_refused (shown_of node.now) }
{
    if let Some(reason) = no_link(node) {
        return Some(reason);
    }
    match first_item(node) {
        Some(Item::Load(_)) => Some(Reason::PacketNext),
        Some(Item::End { .. }) => None,
        None => Some(Reason::NothingToTake),
    }
}

/// Whether a grant has come back to the out end of a member.
fn has_grant(node: &Node) -> bool
    ensures some { result ≡ true → is_empty (back_of (shown_of node.now).ends.out) ≡ false }
    ensures none { result ≡ false → is_empty (back_of (shown_of node.now).ends.out) ≡ true }
{
    match node.out_end() {
        Some(out) => out.has_back(),
        None => false,
    }
}

/// Why it gains no credit.
fn grant_refusal(node: &Node) -> Option<Reason>
    requires { (shown_of node.now).held.asks ≡ false }
    ensures { result ≡ grant_refused (shown_of node.now) }
{
    if let Some(reason) = up_refusal(node) {
        return Some(reason);
    }
    if node.out_name().is_none() {
        return Some(Reason::NoOutLink);
    }
    if !has_grant(node) {
        return Some(Reason::NoGrant);
    }
    None
}

/// Why it doesn't do a step on its links; of a pick, by its door alone.
fn own_step_refusal(node: &Node, step: LinkStep) -> Option<Reason>
    requires { (shown_of node.now).held.asks ≡ false }
    ensures { result ≡ step_refused step (shown_of node.now) }
{
    match step {
        LinkStep::Pick => node.pick_refusal(),
        LinkStep::Take => packet_refusal(node),
        LinkStep::TakeEnd => link_end_refusal(node),
        LinkStep::Gain => grant_refusal(node),
        LinkStep::Put => node.put_refusal(),
    }
}

/// Why a member doesn't do what makes no view, where this is the newest; of a pick, by its door alone.
pub(crate) fn own_refusal(view: &View, party: &Party, event: &Event) -> Option<Reason>
    requires { (shown_in party.now).held.asks ≡ false }
    ensures { result ≡ own_refused view.now (keeps_in party.now) (kind_of event.now) (shown_in party.now) }
{
    match event.kind() {
        Kind::Says => say_refusal(party, event),
        Kind::Links(step) => own_step_refusal(&party.node, step),
        Kind::Copies(_) => Some(no_copy(&party.node)),
        Kind::Changes(_) => None,
        Kind::Stops => stop_refusal(&party.node),
        Kind::Reads(version) => look_refusal(&party.node, view.version, version),
        Kind::Tells => telling_refusal(view, party, event),
    }
}

/// Whether there is no link to pick.
fn is_no_link(refusal: &Option<Reason>) -> bool
    ensures none { result ≡ true → refusal.now ≡ Some Reason.NoLinkAtDoor }
    ensures other { result ≡ false → refusal.now ≡ Some Reason.NoLinkAtDoor → ⊥ }
{
    matches!(refusal, Some(Reason::NoLinkAtDoor))
}

/// The version in which the first link at the registrar opened that comes for a member from its left neighbour.
fn first_deposited(registrar: &Registrar<RingIn<Load>>, node: &Node) -> Option<u32>
    ensures { result ≡ first_for (shown_of node.now).held (map deposit_shown registrar.now.links) }
{
    for place in 0..registrar.waiting() {
        let Some(name) = registrar.name_at(place) else {
            return None;
        };
        if node.comes_for(&name) {
            return Some(name.view);
        }
    }
    None
}

/// The same of a link that hasn't reached the registrar.
fn first_pending(pending_deposit: &Option<PendingDeposit>, node: &Node) -> Option<u32>
    ensures { result ≡ first_for (shown_of node.now).held (behind pending_deposit.now) }
{
    match pending_deposit {
        Some(pending) if node.comes_for(&pending.name) => Some(pending.name.view),
        Some(_) | None => None,
    }
}

impl Parties {
    ghost use Rattle.std.specs.Prelude.{◌≡◌, ◌<◌, ℕ, List, None, length};
    ghost use Rattle.ring_names.specs.declared.reason.Reason.{Reason};
    ghost use Rattle.ring_rules.specs.declared.event.Event.TheVariants.{Mark, Erase, Synced};
    ghost use Rattle.ring_rules.specs.Kind.{Changes, step_event};
    ghost use Rattle.ring_rules.specs.Event.{version_refusal};
    ghost use Rattle.gm_member.specs.Held.{on_some, up_refused, pick_refused};
    ghost use Rattle.gm_member.specs.Questions.{has_link};
    ghost use Rattle.ring_parties.specs.Parties.{shown_of, node_at};
    ghost use Rattle.ring_parties.specs.Standing.{StandSomewhere};
    ghost use Rattle.ring_parties.specs.Refused.{first_for, with_deposits, IsRefusalAt, IsRefusalBy, IsRefusedBy};

    /// Why the event of the member at a place is refused, where it is: the first condition that fails. Links that wait
    /// for the member count as if they had come to its door.
    pub fn refusal(&self, i: usize, event: &Event) -> Option<Reason>
        requires within { i < length (self.now).all.nodes }
        requires standing { StandSomewhere (self.now).all }
        ensures { IsRefusalBy i event.now self.now result }
    {
        match event.kind() {
            Kind::Changes(change) => self.change_refusal(i, change),
            Kind::Links(step) => self.step_refusal(i, step),
            _ => own_refusal(self.registrar.view(), &self.members[i], event),
        }
    }

    /// Why the member at a place doesn't have the view changed, likewise.
    fn change_refusal(&self, i: usize, change: ViewChange) -> Option<Reason>
        requires within { i < length (self.now).all.nodes }
        requires standing { StandSomewhere (self.now).all }
        ensures { IsRefusedBy i (Changes change) self.now result }
    {
        match change {
            ViewChange::Mark(dead) => self.mark_refusal(i, &dead),
            ViewChange::Erase(origin) => self.erase_refusal(i, &origin),
            ViewChange::Admit(name) => {
                admit_refusal(self.registrar.view(), &self.members[i].node, &name)
            }
            ViewChange::Register => self.register_refusal(i),
        }
    }

    /// Why the member at a place doesn't do a step on its links, likewise.
    pub fn step_refusal(&self, i: usize, step: LinkStep) -> Option<Reason>
        requires within { i < length (self.now).all.nodes }
        requires standing { StandSomewhere (self.now).all }
        ensures { (by : List ℕ) → IsRefusalAt i (step_event step by) (self.now).all result }
    {
        match step {
            LinkStep::Pick => self.pick_refusal(i),
            _ => own_step_refusal(&self.members[i].node, step),
        }
    }

    /// The version in which the first link that waits for a member opened and comes from its left neighbour.
    fn first_waiting(&self, node: &Node) -> Option<u32>
        ensures { result ≡ first_for (shown_of node.now).held (self.now).all.deposits }
    {
        match first_deposited(&self.registrar, node) {
            Some(version) => Some(version),
            None => first_pending(&self.pending_deposit, node),
        }
    }

    /// Why the member at a place may pick no link, with those at its door that wait for it.
    fn pick_refusal(&self, i: usize) -> Option<Reason>
        requires { i < length (self.now).all.nodes }
        ensures { result ≡ pick_refused (with_deposits (node_at (self.now).all i).held (self.now).all.deposits) }
    {
        let node = &self.members[i].node;
        let refusal = node.pick_refusal();
        if is_no_link(&refusal) {
            return self.waiting_refusal(node);
        }
        refusal
    }

    /// Why a member that takes from no link, and has none at its door to pick, may pick none that waits for it.
    fn waiting_refusal(&self, node: &Node) -> Option<Reason>
        ensures { result ≡ on_some (first_for (shown_of node.now).held (self.now).all.deposits) Reason.NoLinkAtDoor
            (λ opened. version_refusal opened (shown_of node.now).held.view.version) }
    {
        let Some(need) = self.first_waiting(node) else {
            return Some(Reason::NoLinkAtDoor);
        };
        let have = node.view().version;
        if have < need {
            return Some(Reason::ViewTooOld { need, have });
        }
        None
    }

    /// Whether the member at a place, which is up, takes from a link or may come to.
    fn has_link(&self, i: usize) -> bool
        requires within { i < length (self.now).all.nodes }
        requires up { up_refused (node_at (self.now).all i).held None ≡ None }
        ensures { result ≡ has_link (with_deposits (node_at (self.now).all i).held (self.now).all.deposits) }
    {
        !is_no_link(&self.pick_refusal(i))
    }

    /// Why the member at a place may not have the one of a name marked dead.
    pub fn mark_refusal(&self, i: usize, dead: &Name) -> Option<Reason>
        requires within { i < length (self.now).all.nodes }
        requires standing { StandSomewhere (self.now).all }
        ensures { (by : List ℕ) → IsRefusalAt i (Mark by dead.now) (self.now).all result }
    {
        let node = &self.members[i].node;
        let Some(id) = self.id_named(dead) else {
            return Some(unknown(node));
        };
        if let Some(reason) = up_refusal(node) {
            return Some(reason);
        }
        self.registrar.refusal(&Request::Mark {
            by: node.id(),
            dead: id,
            view: node.view().version,
            has_current: self.has_link(i),
        })
    }

    /// Why it may not have the one of a name erased, likewise.
    pub fn erase_refusal(&self, i: usize, origin: &Name) -> Option<Reason>
        requires within { i < length (self.now).all.nodes }
        requires standing { StandSomewhere (self.now).all }
        ensures { (by : List ℕ) → IsRefusalAt i (Erase by origin.now) (self.now).all result }
    {
        let node = &self.members[i].node;
        let Some(id) = self.id_named(origin) else {
            return Some(unknown(node));
        };
        if let Some(reason) = up_refusal(node) {
            return Some(reason);
        }
        let kept = node.numbers_of(id);
        self.registrar.refusal(&Request::Erase {
            by: node.id(),
            origin: id,
            got: kept.got,
            retired: kept.retired,
            view: node.view().version,
        })
    }

    /// Why it may not have itself registered as synchronised: by the newest view, and by what its mirror lacks.
    fn register_refusal(&self, i: usize) -> Option<Reason>
        requires within { i < length (self.now).all.nodes }
        requires standing { StandSomewhere (self.now).all }
        ensures { (by : List ℕ) → IsRefusalBy i (Synced by) self.now result }
    {
        let party = &self.members[i];
        if let Some(reason) = up_refusal(&party.node) {
            return Some(reason);
        }
        self.registrar.refusal(&Request::Synced {
            by: party.node.id(),
            missing: party.mirror.missing(),
        })
    }
}
