//! The ends that a member lends, and those that it gives up.
ghost use Rattle.std.specs.Prelude.{◌≡◌};

use crate::member::Member;
use crate::views::{left, since};
use activity::Load;
use group_view::LinkName;
use ordered_link::{LinkIn, LinkPair};

impl<O: LinkPair<Load, In = I>, I: LinkIn<Load> + Drop> Member<O, I> {
    ghost use Rattle.std.specs.Prelude.{◌≡◌, length, None, Some, slice_set, slice_index_or, nat_lt, is_some, true};
    ghost use Rattle.std.specs.Prelude.{MatchOption, IfSome, IfNone, nat_eq, ◌&&◌};
    ghost use Rattle.gm_member.specs.Held.{is_for, fresh_in};
    ghost use Rattle.gm_member.specs.Shown.{held_of, ends_of, in_end, has_in};
    ghost use Rattle.gm_member.specs.Calls.{Gives, GivesIn, Lends, LendsIn, GivesUp, NamesIn};
    ghost use Rattle.gm_member.specs.Named.{HasNone, IsFirst, LendsNamed, IsLentNamed, GivesNamed};

    /// Lends the end of a link to the member: of the one from which it takes at place 0, of those at its door, the
    /// oldest first, from place 1 on. None where no such link is there, or its end is lent. The caller gives it back
    /// to the same place before any other call. It wants no memory.
    pub fn lend_in(&mut self, place: u32) -> Option<I>
        ensures { LendsIn place self.old self.new result }
    {
        self.lend_at(place as usize)
    }

    /// Gives an end back to the place that it was lent from. It wants no memory.
    pub fn give_in(&mut self, place: u32, link: I)
        requires there { has_in (held_of self.old) place ≡ true }
        requires lent { in_end (ends_of self.old) place ≡ None }
        ensures { GivesIn place link self.old self.new }
    {
        self.give_at(place as usize, link);
    }

    /// The name of a link to the member, of the one from which it takes at place 0, of those at its door from place 1
    /// on: none exactly where no such link is there.
    pub fn in_name(&self, place: u32) -> Option<LinkName>
        ensures { NamesIn (held_of self.now) place result }
    {
        self.name_at(place as usize)
    }

    /// Lends the end of the first link of that name to the member, as `lend_in` counts them: none where no link to
    /// it has the name, or the end is lent. The caller gives it back before any other call. It wants no memory.
    pub fn lend(&mut self, name: &LinkName) -> Option<I>
        ensures { LendsNamed name.now self.old self.new result }
    {
        let place = self.place_of(name)?;
        self.lend_at(place)
    }

    /// Gives an end back to the link of that name. It wants no memory.
    pub fn give(&mut self, name: &LinkName, link: I)
        requires { IsLentNamed name.now self.old }
        ensures { GivesNamed name.now link self.old self.new }
    {
        let Some(place) = self.place_of(name) else {
            unreachable!()
        };
        self.give_at(place, link);
    }

    /// The place of the first link of that name to the member.
    #[tactic(auto, using(std::proofs::lemmas::Option::gets))]
    fn place_of(&self, name: &LinkName) -> Option<usize>
        ensures some { IfSome result (IsFirst (held_of self.now) name.now) }
        ensures there { IfSome result (λ place. has_in (held_of self.now) place ≡ true) }
        ensures none { IfNone result (HasNone (held_of self.now) name.now) }
    {
        for place in 0..self.door.len() + 1 {
            if self.name_at(place) == Some(*name) {
                return Some(place);
            }
        }
        None
    }

    fn name_at(&self, place: usize) -> Option<LinkName>
        ensures { NamesIn (held_of self.now) place result }
    {
        if place == 0 {
            return match &self.current {
                Some(link) => Some(link.name(self.id)),
                None => None,
            };
        }
        match self.door.get(place - 1) {
            Some(link) => Some(link.name(self.id)),
            None => None,
        }
    }

    fn lend_at(&mut self, place: usize) -> Option<I>
        ensures { LendsIn place self.old self.new result }
    {
        if place == 0 {
            return self.lend_current();
        }
        self.lend_at_door(place - 1)
    }

    fn give_at(&mut self, place: usize, link: I)
        requires there { has_in (held_of self.old) place ≡ true }
        requires lent { in_end (ends_of self.old) place ≡ None }
        ensures { GivesIn place link self.old self.new }
    {
        if place == 0 {
            return self.give_current(link);
        }
        self.give_at_door(place - 1, link);
    }

    /// Lends the end of the link from which the member takes: none where it isn't there.
    fn lend_current(&mut self) -> Option<I>
        ensures { Lends (ends_of self.old).link (record (ends_of self.old) { link = None }) self.old self.new result }
    {
        match &mut self.current {
            Some(link) => link.end.take(),
            None => None,
        }
    }

    /// Gives it back.
    fn give_current(&mut self, link: I)
        requires takes { is_some (held_of self.old).current ≡ true }
        requires lent { (ends_of self.old).link ≡ None }
        ensures { Gives (record (ends_of self.old) { link = Some link }) self.old self.new }
    {
        match &mut self.current {
            Some(current) => current.end = Some(link),
            None => unreachable!(),
        }
    }

    /// Lends the end of the link at a place of the member's door, from 0: none where no link stands there, or its end
    /// is lent.
    fn lend_at_door(&mut self, place: usize) -> Option<I>
        ensures { Lends (slice_index_or (ends_of self.old).door place None)
            (record (ends_of self.old) { door = slice_set (ends_of self.old).door place None })
            self.old self.new result }
    {
        if place >= self.door.len() {
            return None;
        }
        let link = &mut self.door[place];
        link.end.take()
    }

    /// Gives it back.
    fn give_at_door(&mut self, place: usize, link: I)
        requires there { nat_lt place (length (held_of self.old).door) ≡ true }
        requires lent { slice_index_or (ends_of self.old).door place None ≡ None }
        ensures { Gives (record (ends_of self.old) { door = slice_set (ends_of self.old).door place (Some link) })
            self.old self.new }
    {
        let waiting = &mut self.door[place];
        waiting.end = Some(link);
    }

    /// Whether a link of that name goes to the member and comes from its left neighbour, which was that already when
    /// the link opened: so at the member's door it is one to be picked.
    pub fn comes_for(&self, name: &LinkName) -> bool
        ensures { result ≡ (nat_eq name.now.to.0 (held_of self.now).id
            && is_for (held_of self.now).view (held_of self.now).id
            (fresh_in (held_of self.now).initial (held_of self.now).more name.now.from.0 name.now.view)) }
    {
        name.to.0 == self.id.0
            && name.from.0 == left(&self.view, self.id).0
            && since(&self.view, self.id) <= name.view
    }

    /// The end of the link on which the member sends: none where it isn't there.
    pub fn out_end(&self) -> Option<&O>
        ensures { MatchOption result ((ends_of self.now).out ≡ None) (λ end. (ends_of self.now).out ≡ Some end.now) }
    {
        match &self.out {
            Some(link) => link.end.as_ref(),
            None => None,
        }
    }

    /// The end of the link from which the member takes: none where it isn't there.
    pub fn link_end(&self) -> Option<&I>
        ensures { MatchOption result ((ends_of self.now).link ≡ None) (λ end. (ends_of self.now).link ≡ Some end.now) }
    {
        match &self.current {
            Some(link) => link.end.as_ref(),
            None => None,
        }
    }

    /// The oldest of the ends that the member has replaced, with the name of its link: none exactly where there is
    /// none. It is given up.
    pub fn old_out(&mut self) -> Option<(LinkName, O)>
        ensures { GivesUp (ends_of self.old).old_outs (ends_of self.new).old_outs
            (record (ends_of self.old) { old_outs = (ends_of self.new).old_outs }) self.old self.new result }
    {
        if self.old_outs.is_empty() {
            return None;
        }
        Some(self.old_outs.remove(0))
    }

    /// The oldest of the ends that the member has left, likewise.
    pub fn old_in(&mut self) -> Option<(LinkName, I)>
        ensures { GivesUp (ends_of self.old).old_ins (ends_of self.new).old_ins
            (record (ends_of self.old) { old_ins = (ends_of self.new).old_ins }) self.old self.new result }
    {
        if self.old_ins.is_empty() {
            return None;
        }
        Some(self.old_ins.remove(0))
    }
}
