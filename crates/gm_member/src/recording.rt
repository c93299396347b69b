//! What a member records of a round.
ghost use Rattle.std.specs.Prelude.{◌≡◌};

use crate::member::Member;
use activity::Load;
use lamport_merge::LocalLog;
use ordered_link::{LinkIn, LinkPair};
use ring_names::{OutOfMemory, Stamp};
use ring_rules::{Client, Event};

impl<O: LinkPair<Load, In = I>, I: LinkIn<Load> + Drop> Member<O, I> {
    ghost use Rattle.std.specs.Prelude.{◌≡◌, ◌≤◌, ◌^◌, ◌-◌, [], false, min, OnOk, OnErr, IfErr};
    ghost use Rattle.lamport_merge.specs.Logs.{log_of};
    ghost use Rattle.lamport_merge.specs.Recorder.{begun, noted, is_used_up, is_late as comes_late};
    ghost use Rattle.ring_rules.specs.declared.event.Event.TheVariants.{Refuse as TheRefusal};
    ghost use Rattle.gm_member.specs.Shown.{held_of, ends_of, recorded_of, spare_of, StaysReady};
    ghost use Rattle.gm_member.specs.Calls.{Records, SameLinks};

    /// A round begins, with room for so many entries: the member's clock stands at 0, and it has recorded nothing. Where
    /// it is alone, each stamp that it gives carries time 0. Want of memory leaves all as it was.
    pub fn begin(&mut self, round: u32, alone: bool, turns: u32) -> Result<(), OutOfMemory>
        ensures ok { OnOk result (recorded_of self.new ≡ begun round alone (recorded_of self.old)) }
        ensures room { OnOk result (turns ≤ spare_of self.new) }
        ensures err { OnErr result (self.new.recorder ≡ self.old.recorder) }
        ensures held { held_of self.new ≡ held_of self.old }
        ensures ends { ends_of self.new ≡ ends_of self.old }
        ensures links { SameLinks self.old self.new }
        ensures same { (self.new.phase ≡ self.old.phase) × (self.new.spare ≡ self.old.spare) }
    {
        self.recorder.begin(round, alone, turns)?;
        Ok(())
    }

    /// Whether the member takes no further turn in this round, since the times of its clock are used up.
    pub fn spent(&self) -> bool
        ensures { result ≡ is_used_up (recorded_of self.now) }
    {
        self.recorder.spent()
    }

    /// Whether what carries this stamp is taken in only in a later round.
    pub fn is_late(&self, stamp: Stamp) -> bool
        ensures { result ≡ comes_late (recorded_of self.now) stamp }
    {
        self.recorder.is_late(stamp)
    }

    /// For how many more entries there is room; the greatest number of this width where it is more.
    pub fn log_spare(&self) -> u32
        ensures { result ≡ min (spare_of self.now) (2 ^ 32 - 1) }
    {
        self.recorder.spare().min(u32::MAX as usize) as u32
    }

    /// What the member did in this round.
    pub fn local_log(&self) -> &LocalLog
        ensures party { result.now.party ≡ (recorded_of self.now).party }
        ensures entries { result.now.entries ≡ (recorded_of self.now).entries }
    {
        self.recorder.log()
    }

    /// Gives up what the member did in this round; nothing is recorded then, and there is no room. It takes no memory.
    pub fn give_log(&mut self) -> LocalLog
        ensures log { log_of result ≡ record { party = (recorded_of self.old).party; entries = (recorded_of self.old).entries } }
        ensures rest { recorded_of self.new ≡ record (recorded_of self.old) { entries = [] } }
        ensures held { held_of self.new ≡ held_of self.old }
        ensures ends { ends_of self.new ≡ ends_of self.old }
        ensures links { SameLinks self.old self.new }
        ensures same { (self.new.phase ≡ self.old.phase) × (self.new.spare ≡ self.old.spare) }
    {
        self.recorder.give_log()
    }

    /// The member tells a client that what it asked isn't done, with the number of the refusal. The caller gives what
    /// was asked of this member, and the number with which that fails there. Without memory it is handed back.
    pub fn refuse(&mut self, code: u32, inner: Client) -> Result<(), (Client, OutOfMemory)>
        requires { is_used_up (recorded_of self.old) ≡ false }
        ensures records { Records (noted (TheRefusal code inner) (recorded_of self.old)) self.old self.new result }
        ensures held { held_of self.new ≡ held_of self.old }
        ensures ends { ends_of self.new ≡ ends_of self.old }
        ensures kept { StaysReady self.old self.new }
        ensures back { IfErr result (λ e. e.0 ≡ inner) }
    {
        if self.recorder.make_room().is_err() {
            return Err((inner, OutOfMemory));
        }
        self.recorder.note(Event::Refuse { code, inner });
        Ok(())
    }
}
