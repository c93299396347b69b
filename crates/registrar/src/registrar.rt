//! The registrar.
ghost use Rattle.std.specs.Prelude.{◌≡◌, ◌↔◌, ◌+◌, ◌≤◌, length, Some, None};
ghost use Rattle.std.specs.Prelude.{IfOk, OnOk, IfErr, OnErr, IfSome, IfNone, IsSome};
ghost use Rattle.std.specs.List.{filter};
ghost use Rattle.ring_names.specs.declared.reason.Reason.{Reason};
ghost use Rattle.group_view.specs.Change.{AreOpeningNames, marked};
ghost use Rattle.group_view.specs.Change.{mark_refusal as group_refusal, erase_refusal as group_erasure};
ghost use Rattle.group_view.specs.Change.{admit_refusal as group_admission, sync_refusal};
ghost use Rattle.group_view.specs.View.{as_id};
ghost use Rattle.group_view.specs.Ring.{is_in};
ghost use Rattle.group_view.specs.Request.{handed_over};
ghost use Rattle.group_view.specs.Since.{view_at};
ghost use Rattle.registrar.specs.Registry.{AreHere, AreHereBut, newest as the_newest, founded, is_known, is_for};
ghost use Rattle.registrar.specs.Registry.{name_in, end_in, end_is, IsLent, Lends, Gives};
ghost use Rattle.registrar.specs.Named.{HasNone, IsFirst, LendsNamed, IsLentNamed, GivesNamed};
ghost use Rattle.registrar.specs.declared.waiting_link.WaitingLink.{WaitingLink as Waiting};
ghost use Rattle.registrar.specs.Asked.{mark_refusal as the_mark_refusal, unknown_refusal};
ghost use Rattle.registrar.specs.Asked.{erase_refusal as the_erase_refusal, admit_refusal as the_admit_refusal};
ghost use Rattle.registrar.specs.Asked.{synced_refusal as the_synced_refusal};
ghost use Rattle.registrar.specs.Asked.{stop_refusal as the_stop_refusal, request_refusal};
ghost use Rattle.registrar.specs.Handled.{with_view, with_stopped, with_link, without_links, links_for, handled};
ghost use Rattle.registrar.specs.Handled.{answered, erased_view, synced_view, admitted_view};
ghost use Rattle.registrar.specs.Stands.{StandsIn, WhereAsked};
ghost use Rattle.ring_names.specs.declared.numbers.CreditSpec.{CreditSpec};
ghost use Rattle.ring_rules.specs.Event.{missing_refusal as the_missing_refusal, refusal, effect};
ghost use Rattle.ring_rules.specs.Step.{opening};
ghost use Rattle.promotion.specs.Elect.{installed};

use crate::giving::{count_for, count_named, give_all};
use crate::judging::{has_more, is_among, is_beside, newest, view_of};
use crate::waiting_link::WaitingLink;
use group_view::{Answer, Deposited, LinkName, MOST_MEMBERS, Request, View};
use promotion::install;
use ring_names::{Items, MemberId, Name, OutOfMemory, Reason};
use std::alloc::Global;
use std::marker::Model;

/// The party that keeps the group, as `gm` keeps it in one registry: it is asked one request after another,
/// so that all changes of membership have one order. It has every view that the group ever had, so that it
/// can judge a member by the view that this one holds.
#[derive(Drop)]
pub struct Registrar<I> {
    views: Vec<View>,
    stopped: Vec<MemberId>,
    links: Vec<WaitingLink<I>>,
}

impl<I> Model for Registrar<I> {
    ghost use Rattle.registrar.specs.Registry.{Registry};

    ghost Value = { Registry I };

    ghost use Rattle.registrar.specs.Kept.{registry_of, KeepsRegistry};

    ghost view = { registry_of };

    ghost invariant = { KeepsRegistry };
}

impl<I: Drop> Registrar<I> {
    /// The registrar of a group that opens with these members: none has stopped, and no link waits.
    pub fn opening(alloc: Global, names: &[Name]) -> Result<Registrar<I>, OutOfMemory>
        requires { AreOpeningNames names.now }
        ensures founded { IfOk result (λ r. r ≡ founded names.now) }
        ensures stands { IfOk result (λ r. (credit : CreditSpec) → StandsIn (opening credit names.now) r) }
    {
        let view = View::opening(alloc, names)?;
        let mut views = Vec::new(alloc);
        views.push(view)?;
        Ok(Registrar {
            views,
            stopped: Vec::new(alloc),
            links: Vec::new(alloc),
        })
    }

    /// The newest view, whose version is the number of all views. It wants no memory.
    pub fn view(&self) -> &View
        ensures newest { result.now ≡ the_newest self.now }
        ensures numbered { result.now.version ≡ length self.now.views }
    {
        newest(&self.views)
    }

    /// The view of a version, from 1 to that of the newest: none of any other. It wants no memory.
    pub fn published(&self, version: u32) -> Option<&View>
        ensures there { IsSome result ↔ (1 ≤ version) × (version ≤ length self.now.views) }
        ensures view { IfSome result (λ v. v.now ≡ view_at self.now.views version) }
    {
        view_of(&self.views, version)
    }

    /// How many links wait here for a member, also those whose ends are lent. So many at most come of its
    /// `Collect`. It wants no memory.
    pub fn waiting_for(&self, id: MemberId) -> usize
        ensures count { result ≡ length (filter (is_for id.0) self.now.links) }
        ensures covers { length (links_for id.0 self.now.links) ≤ result }
    {
        count_named(&self.links, id)
    }

    /// Lends the end of the link at a place, counted from 0 among the links that wait, the oldest first:
    /// none where no link stands there, and where it is lent. The caller gives it back to that place before
    /// the next request. It wants no memory.
    pub fn lend_in(&mut self, place: u32) -> Option<I>
        ensures { Lends self.old place result self.new }
    {
        self.lend_at(place as usize)
    }

    /// Gives an end back to the place that it was lent from. It wants no memory.
    pub fn give_in(&mut self, place: u32, link: I)
        requires { IsLent self.old place }
        ensures { Gives self.old place link self.new }
    {
        let waiting_link = &mut self.links[place as usize];
        waiting_link.link = Some(link);
    }

    /// Lends the end of the first link of that name that waits here: none where no link has the name, and where
    /// its end is lent. The caller gives it back before the next request. It wants no memory.
    pub fn lend(&mut self, name: &LinkName) -> Option<I>
        ensures { LendsNamed name.now self.old result self.new }
    {
        let place = self.place_of(name)?;
        let waiting_link = &mut self.links[place];
        waiting_link.link.take()
    }

    /// Gives an end back to the link of that name. It wants no memory.
    pub fn give(&mut self, name: &LinkName, link: I)
        requires { IsLentNamed name.now self.old }
        ensures { GivesNamed name.now self.old link self.new }
    {
        let Some(place) = self.place_of(name) else {
            unreachable!()
        };
        let waiting_link = &mut self.links[place];
        waiting_link.link = Some(link);
    }

    /// The name of the link at a place, lent or not: none where no link stands there. It wants no memory.
    pub fn in_name(&self, place: u32) -> Option<LinkName>
        ensures { result ≡ name_in self.now place }
    {
        self.name_at(place as usize)
    }

    /// `in_name` at any place.
    pub fn name_at(&self, place: usize) -> Option<LinkName>
        ensures { result ≡ name_in self.now place }
    {
        self.links.get(place).map(|waiting_link| waiting_link.name)
    }

    fn lend_at(&mut self, place: usize) -> Option<I>
        ensures lent { result ≡ end_in self.old place }
        ensures stands { self.new ≡ end_is self.old place None }
        ensures found { IsSome result → IsSome (name_in self.new place) }
        ensures away { end_in self.new place ≡ None }
        ensures others { AreHere self.old.links → AreHereBut place self.new.links }
    {
        match self.links.get_mut(place) {
            Some(waiting_link) => waiting_link.link.take(),
            None => None,
        }
    }

    /// The place of the first link of that name.
    #[tactic(auto, using(std::proofs::lemmas::Option::gets))]
    fn place_of(&self, name: &LinkName) -> Option<usize>
        ensures some { IfSome result (λ place. (s : Waiting I) × IsFirst self.now name.now place s) }
        ensures none { IfNone result (HasNone self.now name.now) }
    {
        for place in 0..self.waiting() {
            if self.name_at(place) == Some(*name) {
                return Some(place);
            }
        }
        None
    }

    /// How many links wait here, lent or not. It wants no memory.
    pub fn waiting(&self) -> usize
        ensures { result ≡ length self.now.links }
    {
        self.links.len()
    }

    /// Does what a member asks, or answers `No` with the first condition that fails; then nothing has
    /// changed, and a link that was to be deposited is dropped. `UnknownMember` comes of each request that
    /// names an id without an entry in the newest view. `Mark` is judged by the view that the asker holds:
    /// `NotNeighbour` where the asker isn't live there, as in a version that was never made, or the other
    /// isn't its neighbour; then `AlreadyDead` by the newest view, `NotStopped` where the other gave no
    /// notice, and `LinkNotEnded` where it is the left neighbour and the asker has more to take from it: by
    /// its own word, or since such a link waits here for it. `Admit` is judged by the newest view: `AlreadyDead`
    /// where the asker isn't live there, `NameTaken` where an entry of any mark has the name, and
    /// `TooManyMembers` where 64 entries stand. `Erase` is refused as `NotDead` where the origin
    /// isn't dead in the newest view; then as `NotOwner` where it isn't dead in the view that the asker holds,
    /// or the asker isn't the first live one there from the origin rightwards, as where the asker isn't live
    /// there, and in a version that was never made; then as `NotRetired`, with both numbers, where what the
    /// asker got of the origin isn't what has come round of it. `Synced` is judged by the newest view:
    /// `AlreadyDead` where the asker isn't live there, `AlreadySynced` where it is registered there; then as
    /// `StillMissing`, with what is missing, where its mirror misses some messages or doesn't know how many.
    /// Where no master stands after an erasure or a registration, one is elected. `Stopped` is refused where
    /// the notice was given before. Only a request that nothing refuses wants memory, and without it everything
    /// stands as it stood, and the request comes back. As `gm:record_dead_member_in_group`,
    /// `gm:record_new_member_in_group`, `gm:erase_members_in_group` and `gm:read_group`, and for `Synced` as
    /// `rabbit_mirror_queue_slave:record_synchronised`.
    pub fn handle(&mut self, request: Request<I>) -> Result<Answer<I>, (Request<I>, OutOfMemory)>
        requires { AreHere self.old.links }
        ensures refused { (r : Reason) → request_refusal self.old request ≡ Some r
            → (result ≡ Ok (Answer.No r)) × (self.new ≡ self.old) }
        ensures ok { request_refusal self.old request ≡ None
            → OnOk result (self.new ≡ handled self.old request) }
        ensures answer { request_refusal self.old request ≡ None
            → IfOk result (λ a. a ≡ answered self.old request) }
        ensures err { OnErr result (self.new ≡ self.old) }
        ensures back { IfErr result (λ e. e.0 ≡ request) }
        ensures memory { OnErr result (request_refusal self.old request ≡ None) }
        ensures here { AreHere self.new.links }

        // Wherever the registrar stands, what a member of the ring asks for is the ring's event.
        ensures steps { WhereAsked self.old request (λ w e. refusal w e ≡ None
            → OnOk result (StandsIn (effect w e) self.new)) }
        ensures not_enabled { WhereAsked self.old request (λ w e. (r : Reason) → refusal w e ≡ Some r
            → result ≡ Ok (Answer.No r)) }
    {
        match self.refusal(&request) {
            Some(reason) => Ok(Answer::No(reason)),
            None => self.fulfil(request),
        }
    }

    fn knows(&self, id: MemberId) -> bool
        ensures { result ≡ is_known self.now id.0 }
    {
        self.view().has_entry(id)
    }

    fn has_noted(&self, id: MemberId) -> bool
        ensures { result ≡ is_in id.0 self.now.stopped }
    {
        is_among(&self.stopped, id)
    }

    /// What `handle` would answer `No` with: the first condition of a request that fails, and none where it
    /// would do what is asked. It wants no memory.
    pub fn refusal(&self, request: &Request<I>) -> Option<Reason>
        ensures { result ≡ request_refusal self.now request.now }
    {
        match request {
            Request::Mark {
                by,
                dead,
                view,
                has_current,
            } => self.mark_refusal(*by, *dead, *view, *has_current),
            Request::Refresh { by } => self.unknown_refusal(*by),
            Request::Admit { by, name } => self.admit_refusal(*by, name),
            Request::Erase {
                by,
                origin,
                got,
                retired,
                view,
            } => self.erase_refusal(*by, *origin, *got, *retired, *view),
            Request::Synced { by, missing } => self.synced_refusal(*by, *missing),
            Request::Stopped { by } => self.stop_refusal(*by),
            Request::Deposit { by, to, .. } => {
                self.unknown_refusal(*by).or(self.unknown_refusal(*to))
            }
            Request::Collect { by } => self.unknown_refusal(*by),
        }
    }

    fn unknown_refusal(&self, by: MemberId) -> Option<Reason>
        ensures { result ≡ unknown_refusal self.now by.0 }
    {
        if self.knows(by) {
            None
        } else {
            Some(Reason::UnknownMember)
        }
    }

    fn stop_refusal(&self, by: MemberId) -> Option<Reason>
        ensures { result ≡ the_stop_refusal self.now by.0 }
    {
        if !self.knows(by) {
            return Some(Reason::UnknownMember);
        }
        if self.has_noted(by) {
            return Some(Reason::Stopped);
        }
        None
    }

    fn mark_refusal(
        &self,
        by: MemberId,
        dead: MemberId,
        version: u32,
        has_current: bool,
    ) -> Option<Reason>
        ensures { result ≡ the_mark_refusal self.now by.0 dead.0 version has_current }
    {
        if !self.knows(by) || !self.knows(dead) {
            return Some(Reason::UnknownMember);
        }
        let Some(held) = view_of(&self.views, version) else {
            return Some(Reason::NotNeighbour);
        };
        if !is_beside(held, by, dead) {
            return Some(Reason::NotNeighbour);
        }
        if !self.view().is_live(dead) {
            return Some(Reason::AlreadyDead);
        }
        if !self.has_noted(dead) {
            return Some(Reason::NotStopped);
        }
        if has_more(&self.links, held, by, dead, has_current) {
            return Some(Reason::LinkNotEnded);
        }
        None
    }

    fn admit_refusal(&self, by: MemberId, name: &Name) -> Option<Reason>
        ensures { result ≡ the_admit_refusal self.now by.0 name.now }
    {
        if !self.knows(by) {
            return Some(Reason::UnknownMember);
        }
        let view = self.view();
        if !view.is_live(by) {
            return Some(Reason::AlreadyDead);
        }
        if view.find(name).is_some() {
            return Some(Reason::NameTaken);
        }
        if view.entries.as_slice().len() >= MOST_MEMBERS {
            return Some(Reason::TooManyMembers);
        }
        None
    }

    fn erase_refusal(
        &self,
        by: MemberId,
        origin: MemberId,
        got: u64,
        retired: u64,
        version: u32,
    ) -> Option<Reason>
        ensures { result ≡ the_erase_refusal self.now by.0 origin.0 got retired version }
    {
        if !self.knows(by) || !self.knows(origin) {
            return Some(Reason::UnknownMember);
        }
        if !self.view().is_dead(origin) {
            return Some(Reason::NotDead);
        }
        let Some(held) = view_of(&self.views, version) else {
            return Some(Reason::NotOwner);
        };
        if !held.is_alias(by, origin) {
            return Some(Reason::NotOwner);
        }
        if got != retired {
            return Some(Reason::NotRetired { got, retired });
        }
        None
    }

    fn synced_refusal(&self, by: MemberId, missing: Option<u64>) -> Option<Reason>
        ensures { result ≡ the_synced_refusal self.now by.0 missing }
    {
        if !self.knows(by) {
            return Some(Reason::UnknownMember);
        }
        if !self.view().is_live(by) {
            return Some(Reason::AlreadyDead);
        }
        if self.view().is_synced(by) {
            return Some(Reason::AlreadySynced);
        }
        missing_refusal(missing)
    }

    /// Does what is asked, which nothing refuses.
    fn fulfil(&mut self, request: Request<I>) -> Result<Answer<I>, (Request<I>, OutOfMemory)>
        requires { request_refusal self.old request ≡ None }
        ensures ok { OnOk result (self.new ≡ handled self.old request) }
        ensures answer { IfOk result (λ a. a ≡ answered self.old request) }
        ensures err { OnErr result (self.new ≡ self.old) }
        ensures back { IfErr result (λ e. e.0 ≡ request) }
    {
        match request.into_link() {
            Ok((name, link)) => match self.deposit(name, link) {
                Ok(()) => Ok(Answer::Noted),
                Err((link, fault)) => Err((Request::deposit(name, link), fault)),
            },
            Err(other) => match self.answer(&other) {
                Ok(answer) => Ok(answer),
                Err(fault) => Err((other, fault)),
            },
        }
    }

    /// The same of a request that hands over no link.
    fn answer(&mut self, request: &Request<I>) -> Result<Answer<I>, OutOfMemory>
        requires allowed { request_refusal self.old request.now ≡ None }
        requires none { handed_over request.now ≡ None }
        ensures ok { OnOk result (self.new ≡ handled self.old request.now) }
        ensures answer { IfOk result (λ a. a ≡ answered self.old request.now) }
        ensures err { OnErr result (self.new ≡ self.old) }
    {
        match request {
            Request::Mark { dead, .. } => Ok(Answer::Viewed(self.mark(*dead)?)),
            Request::Refresh { .. } => Ok(Answer::Viewed(self.view().copy()?)),
            Request::Admit { by, name } => self.admit(*by, name),
            Request::Erase { origin, .. } => Ok(Answer::Viewed(self.erase(*origin)?)),
            Request::Synced { by, .. } => Ok(Answer::Viewed(self.register(*by)?)),
            Request::Stopped { by } => {
                self.note(*by)?;
                Ok(Answer::Noted)
            }
            Request::Collect { by } => Ok(Answer::Links(self.collect(*by)?)),
            Request::Deposit { .. } => unreachable!(),
        }
    }

    /// A view follows in which a member is dead.
    fn mark(&mut self, dead: MemberId) -> Result<View, OutOfMemory>
        requires { group_refusal (the_newest self.old).entries dead.0 ≡ None }
        ensures ok { OnOk result (self.new ≡ with_view self.old (marked (the_newest self.old) dead.0)) }
        ensures answer { IfOk result (λ view. view ≡ marked (the_newest self.old) dead.0) }
        ensures err { OnErr result (self.new ≡ self.old) }
    {
        let mut next = self.view().copy()?;
        if next.mark_dead(dead).is_err() {
            unreachable!()
        }
        self.follow(next)
    }

    /// A view follows in which one of a new name is admitted, and is answered with the new id.
    fn admit(&mut self, by: MemberId, name: &Name) -> Result<Answer<I>, OutOfMemory>
        requires { group_admission (the_newest self.old).entries by.0 name.now ≡ None }
        ensures ok { OnOk result (self.new ≡ with_view self.old (admitted_view self.old by.0 name.now)) }
        ensures answer { IfOk result (λ a. a ≡ Answer.Admitted (admitted_view self.old by.0 name.now)
            (as_id (the_newest self.old).next_id)) }
        ensures err { OnErr result (self.new ≡ self.old) }
    {
        let mut next = self.view().copy()?;
        let Ok(id) = next.admit(by, *name) else {
            return Err(OutOfMemory);
        };
        let view = self.follow(next)?;
        Ok(Answer::Admitted { view, id })
    }

    /// A view follows in which an origin is erased, with a master where one can be elected.
    fn erase(&mut self, origin: MemberId) -> Result<View, OutOfMemory>
        requires { group_erasure (the_newest self.old).entries origin.0 ≡ None }
        ensures ok { OnOk result (self.new ≡ with_view self.old (erased_view self.old origin.0)) }
        ensures answer { IfOk result (λ view. view ≡ erased_view self.old origin.0) }
        ensures err { OnErr result (self.new ≡ self.old) }
    {
        let mut next = self.view().copy()?;
        if next.erase(origin).is_err() {
            unreachable!()
        }
        self.follow_led(next)
    }

    /// A view follows in which a member is registered as synchronised, with a master where one can be elected.
    fn register(&mut self, by: MemberId) -> Result<View, OutOfMemory>
        requires { sync_refusal (the_newest self.old).entries by.0 ≡ None }
        ensures ok { OnOk result (self.new ≡ with_view self.old (synced_view self.old by.0)) }
        ensures answer { IfOk result (λ view. view ≡ synced_view self.old by.0) }
        ensures err { OnErr result (self.new ≡ self.old) }
    {
        let mut next = self.view().copy()?;
        if next.mark_synced(by).is_err() {
            unreachable!()
        }
        self.follow_led(next)
    }

    /// A view follows the others, with a master where none stands and one can be elected, and is answered.
    fn follow_led(&mut self, mut next: View) -> Result<View, OutOfMemory>
        requires { next.version ≡ length self.old.views + 1 }
        ensures ok { OnOk result (self.new ≡ with_view self.old (installed next)) }
        ensures answer { IfOk result (λ view. view ≡ installed next) }
        ensures err { OnErr result (self.new ≡ self.old) }
    {
        install(&mut next);
        self.follow(next)
    }

    /// A view follows the others, and is answered.
    fn follow(&mut self, next: View) -> Result<View, OutOfMemory>
        requires { next.version ≡ length self.old.views + 1 }
        ensures ok { OnOk result (self.new ≡ with_view self.old next) }
        ensures answer { IfOk result (λ view. view ≡ next) }
        ensures err { OnErr result (self.new ≡ self.old) }
    {
        let answer = next.copy()?;
        self.views.push(next)?;
        Ok(answer)
    }

    /// A member gave notice that it stopped.
    fn note(&mut self, by: MemberId) -> Result<(), OutOfMemory>
        ensures ok { OnOk result (self.new ≡ with_stopped self.old by.0) }
        ensures err { OnErr result (self.new ≡ self.old) }
    {
        self.stopped.push(by)?;
        Ok(())
    }

    /// A link waits behind the others.
    fn deposit(&mut self, name: LinkName, link: I) -> Result<(), (I, OutOfMemory)>
        ensures ok { OnOk result (self.new ≡ with_link self.old (record { name = name; link = Some link })) }
        ensures err { OnErr result (self.new ≡ self.old) }
        ensures back { IfErr result (λ e. e.0 ≡ link) }
    {
        if self.links.reserve(1).is_err() {
            return Err((link, OutOfMemory));
        }
        self.links.push_reserved(WaitingLink {
            name,
            link: Some(link),
        });
        Ok(())
    }

    /// The links that wait for a member go to it.
    fn collect(&mut self, by: MemberId) -> Result<Items<Deposited<I>>, OutOfMemory>
        ensures ok { OnOk result (self.new ≡ without_links self.old by.0) }
        ensures answer { IfOk result (λ links. links ≡ links_for by.0 self.old.links) }
        ensures err { OnErr result (self.new ≡ self.old) }
    {
        let alloc = *self.links.allocator();
        let mut given = Vec::with_capacity(alloc, count_for(&self.links, by))?;
        give_all(&mut self.links, by, &mut given);
        Ok(Items::from_vec(given))
    }
}

/// Whether a mirror misses nothing, and why not.
fn missing_refusal(missing: Option<u64>) -> Option<Reason>
    ensures { result ≡ the_missing_refusal missing }
{
    match missing {
        Some(0) => None,
        _ => Some(Reason::StillMissing { missing }),
    }
}
