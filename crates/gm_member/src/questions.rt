//! The questions of a member to the registrar.
ghost use Rattle.std.specs.Prelude.{◌≡◌};

use crate::arrivals::arrive_all;
use crate::fault::MemberFault;
use crate::member::Member;
use crate::views::{right, version};
use activity::Load;
use group_view::{Answer, Deposited, Request, View};
use ordered_link::{LinkIn, LinkPair};
use ring_names::{Items, MemberId, Name, OutOfMemory};

/// What a member asks of the registrar.
#[derive(Clone, Copy, PartialEq, Eq, Debug)]
pub enum Ask {
    /// To mark a neighbour that has stopped.
    Mark(MemberId),
    /// To admit a member of this name, directly to its right.
    Admit(Name),
    /// To erase a dead member, for which it answers.
    Erase(MemberId),
    /// To register the member itself as synchronised, where its mirror lacks so many messages; `None` where it hasn't
    /// heard yet how many there are.
    Register { missing: Option<u64> },
    /// For the newest view.
    Refresh,
    /// For the links that wait for it.
    Collect,
}

impl<O: LinkPair<Load, In = I>, I: LinkIn<Load> + Drop> Member<O, I> {
    ghost use Rattle.std.specs.Prelude.{◌≡◌, ◌⊎◌, ◌+◌, ◌<◌, ◌≤◌, ◌^◌, ◌||◌, ℕ, [], OnOk, OnErr, IfOk, IfErr};
    ghost use Rattle.std.specs.Prelude.{IfSome, IfNone, IsOk, IsSome, None, Some, Ok, Err, length, false, true};
    ghost use Rattle.std.specs.Prelude.{vec_len, List};
    ghost use Rattle.group_view.specs.Ring.{is_in};
    ghost use Rattle.ring_rules.specs.declared.event.Event.TheVariants.{Mark as TheMark, Refresh as TheRefresh};
    ghost use Rattle.ring_rules.specs.declared.event.Event.TheVariants.{Erase as TheErase, Admit as TheAdmit};
    ghost use Rattle.ring_rules.specs.declared.event.Event.TheVariants.{Synced as TheSynced};
    ghost use Rattle.ring_rules.specs.Machine.{view_in, newest};
    ghost use Rattle.ring_rules.specs.View.{ids};
    ghost use Rattle.gm_member.specs.View.{count_of};
    ghost use Rattle.gm_member.specs.Held.{ask_refused, asking_held, answered_held, collected_held, refreshed_held};
    ghost use Rattle.ring_rules.specs.Event.{refusal, effect};
    ghost use Rattle.gm_member.specs.Stands.{WhereItStands, Stands, StepsTo, IsMarkedView, with_own_link};
    ghost use Rattle.gm_member.specs.Stands.{IsErasedView, IsRegisteredView, IsAdmittedView};
    ghost use Rattle.gm_member.specs.Shown.{When, held_of, ends_of, OutIsReady, LooksBy, MovesTo};
    ghost use Rattle.gm_member.specs.Shown.{SpareIsReady, SpareIsSound, KeepsSpare, HasRoom, StaysReady, OutIsBack};
    ghost use Rattle.gm_member.specs.Arrivals.{incoming_of, with_arrived};
    ghost use Rattle.gm_member.specs.Calls.{Heeds, IsFault, Reads, SameSelf, SameLinks, KeepsIns, KeepsOuts};
    ghost use Rattle.gm_member.specs.Questions.{may_bring_view, has_link as has_a_link, asked_for, OfView, OfLinks};
    ghost use Rattle.gm_member.specs.Questions.{OfWord, answered_by};

    /// Makes room at the member's door for so many links that the registrar may hand it, and for their ends among
    /// those that it has left. Only want of memory refuses it, and then too all stands as before.
    pub fn make_room(&mut self, links: usize) -> Result<(), OutOfMemory>
        ensures held { held_of self.new ≡ held_of self.old }
        ensures ends { ends_of self.new ≡ ends_of self.old }
        ensures room { OnOk result (HasRoom links self.new) }
        ensures memory { HasRoom links self.old → IsOk result }
        ensures outs { KeepsOuts self.old self.new }
        ensures same { SameSelf self.old self.new }
        ensures kept { StaysReady self.old self.new }
    {
        let Some(ends) = self.ends_with(links) else {
            return Err(OutOfMemory);
        };
        self.door.reserve(links)?;
        self.old_ins.reserve(ends)?;
        Ok(())
    }

    /// How many links the member has with so many further ones: none where no vector has so many.
    fn ends_with(&self, links: usize) -> Option<usize>
        ensures some { IfSome result (λ n. n ≡ vec_len self.now.door + count_of self.now.current + links) }
        ensures none { IfNone result (2 ^ 64 ≤ vec_len self.now.door + count_of self.now.current + links) }
    {
        let all = self.door.len().checked_add(links)?;
        match &self.current {
            Some(_) => all.checked_add(1),
            None => Some(all),
        }
    }

    /// The member asks the registrar, and does nothing more until the answer comes; the request is what is to be asked.
    /// For a mark, an admission, an erasure, a registration and a view it gets a link ready, with which the answer
    /// wants no memory. Refused with `Stopped`, `Waiting`, and `AwaitingAnswer` while an earlier question is open. As
    /// `gm:record_dead_member_in_group`, `gm:record_new_member_in_group`, `gm:erase_members_in_group` and
    /// `gm:read_group`, and of a registration as `rabbit_mirror_queue_slave:record_synchronised`.
    pub fn ask(&mut self, what: Ask) -> Result<Request<I>, MemberFault>
        ensures heeds { Heeds (ask_refused (held_of self.old)) result }
        ensures fault { IfErr result (IsFault (ask_refused (held_of self.old))) }
        ensures ok { OnOk result (held_of self.new ≡ asking_held (held_of self.old)) }
        ensures request { IfOk result (λ r. r ≡ asked_for (held_of self.old) what) }
        ensures err { OnErr result (held_of self.new ≡ held_of self.old) }
        ensures ends { ends_of self.new ≡ ends_of self.old }
        ensures room { (n : ℕ) → HasRoom n self.old → HasRoom n self.new }
        ensures spare { OnOk result (When (may_bring_view what) (SpareIsReady O.are_fresh O.free O.ended self.new)) }
        ensures sound { OnOk result (SpareIsSound O.are_fresh O.free O.ended self.new) }
        ensures kept { OnErr result (StaysReady self.old self.new) }
    {
        if let Some(reason) = self.up_refusal() {
            return Err(MemberFault::Refused(reason));
        }
        self.make_ready(&what)?;
        self.asked = true;
        Ok(self.request(&what))
    }

    /// A link is ready where the answer may be a view; else there is none.
    fn make_ready(&mut self, what: &Ask) -> Result<(), OutOfMemory>
        ensures held { held_of self.new ≡ held_of self.old }
        ensures ends { ends_of self.new ≡ ends_of self.old }
        ensures ins { KeepsIns self.old self.new }
        ensures same { (self.new.phase ≡ self.old.phase) × (self.new.id ≡ self.old.id) }
        ensures spare { OnOk result (When (may_bring_view what.now) (SpareIsReady O.are_fresh O.free O.ended self.new)) }
        ensures sound { OnOk result (SpareIsSound O.are_fresh O.free O.ended self.new) }
        ensures kept { OnErr result (KeepsSpare self.old self.new) }
    {
        match *what {
            Ask::Collect => self.spare = None,
            Ask::Mark(_) | Ask::Admit(_) | Ask::Erase(_) | Ask::Register { .. } | Ask::Refresh =>
                self.prepare()?,
        }
        Ok(())
    }

    /// Whether the member takes from a link, or has one at its door from its left neighbour.
    fn has_link(&self) -> bool
        ensures { result ≡ has_a_link (held_of self.now) }
    {
        self.current.is_some() || self.first_at_door().is_some()
    }

    /// What is to be asked of the registrar.
    fn request(&self, what: &Ask) -> Request<I>
        ensures { result ≡ asked_for (held_of self.now) what.now }
    {
        match *what {
            Ask::Mark(dead) => Request::Mark {
                by: self.id,
                dead,
                view: version(&self.view),
                has_current: self.has_link(),
            },
            Ask::Admit(name) => Request::Admit { by: self.id, name },
            Ask::Erase(origin) => self.erasure(origin),
            Ask::Register { missing } => Request::Synced {
                by: self.id,
                missing,
            },
            Ask::Refresh => Request::Refresh { by: self.id },
            Ask::Collect => Request::Collect { by: self.id },
        }
    }

    /// To erase an origin, with what is kept of it. No member has the id 0, of which the first one's numbers are told.
    fn erasure(&self, origin: MemberId) -> Request<I>
        ensures { result ≡ asked_for (held_of self.now) (Ask.Erase origin) }
    {
        let kept = self.numbers_of(MemberId(origin.0.max(1)));
        Request::Erase {
            by: self.id,
            origin,
            got: kept.got,
            retired: kept.retired,
            view: version(&self.view),
        }
    }

    /// The registrar's answer closes the member's question. A view is read as by `refresh`, also one in which a member
    /// is admitted; links come to the door in their order where they may yet be taken from, and the ends of the others
    /// join those that the member has left; else nothing more is done. The answer is what is to be asked of the
    /// registrar then. Want of memory leaves all as it stood, and comes only of a view where no link is ready, and of
    /// links for which there is no room. A view in which the member has no entry, with which no registrar answers its
    /// member, is handed back likewise. A view asks that the end on which the member sends isn't lent.
    pub fn answer(&mut self, answer: Answer<I>) -> Result<Vec<Request<I>>, (Answer<I>, OutOfMemory)>
        requires open { (held_of self.old).asks ≡ true }
        requires out { OfView answer (λ _. OutIsBack self.old) }
        ensures ok { OfView answer (λ _. SpareIsSound O.are_fresh O.free O.ended self.old)
            → OnOk result (held_of self.new ≡ answered_by (held_of self.old) answer) }
        ensures links { OnOk result (OfView answer (λ v. LooksBy v self.old self.new)) }
        ensures moves { SpareIsSound O.are_fresh O.free O.ended self.old → IfOk result (λ requests. OfView answer
            (λ v. MovesTo O.are_fresh O.free O.ended O.puts v self.old self.new requests.items)) }
        ensures arrived { OnOk result (OfLinks answer (λ links. ends_of self.new
            ≡ with_arrived (held_of self.old) (ends_of self.old) links)) }
        ensures arrived_none { IfOk result (λ requests. OfLinks answer (λ _. requests.items ≡ [])) }
        ensures told { OnOk result (OfWord answer (ends_of self.new ≡ ends_of self.old)) }
        ensures told_none { IfOk result (λ requests. OfWord answer (requests.items ≡ [])) }
        ensures dropped { OnOk result (self.new.spare ≡ None) }
        ensures err { OnErr result (held_of self.new ≡ held_of self.old) }
        ensures err_ends { OnErr result (ends_of self.new ≡ ends_of self.old) }
        ensures kept { OnErr result (StaysReady self.old self.new) }
        ensures out { OutIsBack self.old → OutIsReady O.ended self.new }
        ensures back { IfErr result (λ e. e.0 ≡ answer) }
        ensures stands { OnOk result (OfView answer (λ v. is_in self.old.id.0 (ids v) ≡ true)) }
        ensures spared { OfView answer
            (λ v. is_in self.old.id.0 (ids v) ≡ true → IsSome self.old.spare → IsOk result) }
        ensures roomy { OfLinks answer (λ links. HasRoom (length links) self.old → IsOk result) }
        ensures told_ok { OfWord answer (IsOk result) }

        // Wherever the member, its question closed, stands in a state of a run, and the view is the ring's newest,
        // this is the ring's event. A member that is left alone stands there once the link that it opens to itself
        // has come to its door.
        ensures steps { SpareIsSound O.are_fresh O.free O.ended self.old → OnOk result (OfView answer
            (λ v. WhereItStands (answered_held (held_of self.old)) (λ w x. v ≡ view_in w (newest w)
            → StepsTo w x (TheRefresh (held_of self.old).name v.version)
            (with_own_link (held_of self.old) v (held_of self.new))))) }

        // And where the view is what a mark makes of the newest there, and the ring doesn't refuse the member that
        // mark, it stands where the mark leaves it.
        ensures marks { SpareIsSound O.are_fresh O.free O.ended self.old → OnOk result (OfView answer
            (λ v. WhereItStands (answered_held (held_of self.old)) (λ w x. (dead : List ℕ) → IsMarkedView w dead v
            → refusal w (TheMark (held_of self.old).name dead) ≡ None
            → Stands (effect w (TheMark (held_of self.old).name dead)) x
            (with_own_link (held_of self.old) v (held_of self.new))))) }

        // The same of the view that an erasure makes of it.
        ensures erases { SpareIsSound O.are_fresh O.free O.ended self.old → OnOk result (OfView answer
            (λ v. WhereItStands (answered_held (held_of self.old)) (λ w x. (origin : List ℕ) → IsErasedView w origin v
            → refusal w (TheErase (held_of self.old).name origin) ≡ None
            → Stands (effect w (TheErase (held_of self.old).name origin)) x
            (with_own_link (held_of self.old) v (held_of self.new))))) }

        // Of the one in which the member itself is registered as synchronised.
        ensures registers { SpareIsSound O.are_fresh O.free O.ended self.old → OnOk result (OfView answer
            (λ v. WhereItStands (answered_held (held_of self.old)) (λ w x. IsRegisteredView w x v
            → refusal w (TheSynced (held_of self.old).name) ≡ None
            → Stands (effect w (TheSynced (held_of self.old).name)) x
            (with_own_link (held_of self.old) v (held_of self.new))))) }

        // And of the view in which it has admitted one of a name, who is its right neighbour then.
        ensures admits { SpareIsSound O.are_fresh O.free O.ended self.old → OnOk result (OfView answer
            (λ v. WhereItStands (answered_held (held_of self.old)) (λ w x. (newcomer : List ℕ)
            → IsAdmittedView w x newcomer v → refusal w (TheAdmit (held_of self.old).name newcomer) ≡ None
            → Stands (effect w (TheAdmit (held_of self.old).name newcomer)) x (held_of self.new)))) }
    {
        match answer {
            Answer::Viewed(view) => match self.read_answer(view) {
                Ok(requests) => Ok(requests),
                Err((view, fault)) => Err((Answer::Viewed(view), fault)),
            },
            Answer::Admitted { view, id } => match self.read_answer(view) {
                Ok(requests) => Ok(requests),
                Err((view, fault)) => Err((Answer::Admitted { view, id }, fault)),
            },
            Answer::Links(links) => match self.collect(links.into_vec()) {
                Ok(()) => Ok(Vec::new(self.alloc)),
                Err((links, fault)) => Err((Answer::Links(Items::from_vec(links)), fault)),
            },
            Answer::Noted | Answer::No(_) => {
                self.close();
                Ok(Vec::new(self.alloc))
            }
        }
    }

    /// The question is closed, and no link is ready.
    fn close(&mut self)
        ensures held { held_of self.new ≡ answered_held (held_of self.old) }
        ensures ends { ends_of self.new ≡ ends_of self.old }
        ensures ins { KeepsIns self.old self.new }
        ensures outs { KeepsOuts self.old self.new }
        ensures same { SameSelf self.old self.new }
        ensures spare { self.new.spare ≡ None }
    {
        self.asked = false;
        self.spare = None;
    }

    /// A link is ready, or is made so.
    fn be_ready(&mut self) -> Result<(), OutOfMemory>
        ensures held { held_of self.new ≡ held_of self.old }
        ensures ends { SameLinks self.old self.new }
        ensures same { SameSelf self.old self.new }
        ensures spare { OnOk result (IsSome self.new.spare) }
        ensures ready { SpareIsSound O.are_fresh O.free O.ended self.old
            → OnOk result (SpareIsReady O.are_fresh O.free O.ended self.new) }
        ensures memory { IsSome self.old.spare → IsOk result }
        ensures kept { OnErr result (KeepsSpare self.old self.new) }
    {
        if self.spare.is_some() {
            return Ok(());
        }
        self.prepare()
    }

    /// A view closes the question, and is read, where the member has an entry in it.
    fn read_answer(&mut self, view: View) -> Result<Vec<Request<I>>, (View, OutOfMemory)>
        requires open { (held_of self.old).asks ≡ true }
        requires ready { OutIsReady O.ended self.old }
        ensures reads { SpareIsSound O.are_fresh O.free O.ended self.old
            → Reads O.are_fresh O.free O.ended O.puts (refreshed_held (answered_held (held_of self.old)) view)
            view self.old self.new result }
        ensures links { OnOk result (LooksBy view self.old self.new) }
        ensures err { OnErr result (held_of self.new ≡ held_of self.old) }
        ensures err_ends { OnErr result (ends_of self.new ≡ ends_of self.old) }
        ensures out { OutIsReady O.ended self.new }
        ensures kept { OnErr result (StaysReady self.old self.new) }
        ensures dropped { OnOk result (self.new.spare ≡ None) }
        ensures back { IfErr result (λ e. e.0 ≡ view) }
        ensures stands { OnOk result (is_in self.old.id.0 (ids view) ≡ true) }
        ensures memory { is_in self.old.id.0 (ids view) ≡ true → IsSome self.old.spare → IsOk result }
    {
        if !view.has_entry(self.id) {
            return Err((view, OutOfMemory));
        }
        let to = right(&view, self.id);
        if self.sends_to(to) {
            self.close();
            self.look(view);
            return Ok(Vec::new(self.alloc));
        }
        let Ok(()) = self.be_ready() else {
            return Err((view, OutOfMemory));
        };
        self.asked = false;
        Ok(self.read(view, to))
    }

    /// Links close the question, and come to the door.
    fn collect(&mut self, links: Vec<Deposited<I>>) -> Result<(), (Vec<Deposited<I>>, OutOfMemory)>
        ensures ok { OnOk result (held_of self.new ≡ collected_held (answered_held (held_of self.old))
            (incoming_of (held_of self.old) links.items)) }
        ensures arrived { OnOk result (ends_of self.new
            ≡ with_arrived (held_of self.old) (ends_of self.old) links.items) }
        ensures dropped { OnOk result (self.new.spare ≡ None) }
        ensures err { OnErr result (held_of self.new ≡ held_of self.old) }
        ensures err_ends { OnErr result (ends_of self.new ≡ ends_of self.old) }
        ensures err_same { OnErr result (SameSelf self.old self.new) }
        ensures err_kept { OnErr result (StaysReady self.old self.new) }
        ensures back { IfErr result (λ e. e.0 ≡ links) }
        ensures memory { HasRoom (length links.items) self.old → IsOk result }
    {
        if self.make_room(links.len()).is_err() {
            return Err((links, OutOfMemory));
        }
        self.welcome(links);
        self.close();
        Ok(())
    }

    /// Links come to the door, for which there is room.
    fn welcome(&mut self, links: Vec<Deposited<I>>)
        requires { HasRoom (length links.items) self.old }
        ensures held { held_of self.new ≡ collected_held (held_of self.old)
            (incoming_of (held_of self.old) links.items) }
        ensures ends { ends_of self.new ≡ with_arrived (held_of self.old) (ends_of self.old) links.items }
    {
        arrive_all(
            &self.view,
            self.id,
            self.credit,
            links,
            &mut self.door,
            &mut self.old_ins,
        );
    }
}
