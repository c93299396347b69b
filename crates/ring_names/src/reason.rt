//! Refusals.
ghost use Rattle.std.specs.Prelude.{◌≡◌};
ghost use Rattle.ring_names.specs.Reason.{code_of};

/// Why an event may not happen: the first of its conditions that fails. Some keep the numbers that were compared.
#[derive(Clone, Copy, PartialEq, Eq, Debug)]
pub enum Reason {
    /// No entry has that name.
    UnknownMember,
    /// The entry is dead or erased.
    AlreadyDead,
    /// The entry is live or erased.
    NotDead,
    /// An entry, of any mark, has that name.
    NameTaken,
    /// 64 entries stand.
    TooManyMembers,
    /// The entry is registered as synchronised.
    AlreadySynced,
    /// The acting member has stopped.
    Stopped,
    /// The acting member has no state yet.
    Waiting,
    /// The packet or link is of a newer version than the member's view.
    ViewTooOld { need: u32, have: u32 },
    /// The link's credit is 0.
    NoCredit,
    /// All numbers equal those last sent on the link.
    NothingNew,
    /// The link holds no item.
    NothingToTake,
    /// No link at the door may be picked in this or a later view of the same neighbour.
    NoLinkAtDoor,
    /// A registry visit of this running member is open.
    AwaitingAnswer,
    /// The member to be marked hasn't stopped.
    NotStopped,
    /// It is neither left nor right neighbour in the asker's view.
    NotNeighbour,
    /// It is the left neighbour, and its link isn't taken to its end.
    LinkNotEnded,
    /// The origin isn't dead in the asker's view, or the asker isn't its owner there.
    NotOwner,
    /// The two numbers differ.
    NotRetired { got: u64, retired: u64 },
    /// The version asked is below the held one or above the newest.
    ViewOutOfRange { asked: u32, held: u32, newest: u32 },
    /// The acting member's view has another master.
    NotMaster,
    /// The acting member's view has no master.
    NoMaster,
    /// Nothing is ready.
    QueueEmpty,
    /// The position is neither ready nor unacknowledged.
    UnknownPosition,
    /// The position is ready.
    NotDelivered,
    /// The master's copy link is open, or it has marked this target before.
    AlreadySyncing,
    /// The master of a term above 1 hasn't published its start.
    NotStarted,
    /// The mirror isn't known to lack nothing.
    StillMissing { missing: Option<u64> },
    /// The member has no copy link of that side.
    NoSyncLink,
    /// The copy's last load is next, and its mark hasn't been received.
    MarkNotSeen,
    /// The link handed the packet back to this running member.
    LinkFull,
    /// No grant is under way on that link.
    NoGrant,
    /// The member sends on no link.
    NoOutLink,
    /// The member takes from no link.
    NoCurrentLink,
    /// The next item is the end of the link.
    EndNext,
    /// The term is 1, or its start was published.
    AlreadyStarted,
    /// The next item is a packet.
    PacketNext,
    /// The member takes from a link.
    HasCurrentLink,
    /// The refused command is enabled, or fails otherwise, or its number is one that is never recorded.
    NotRefused,
}

impl Reason {
    /// The number of the refusal, as users meet it in reports and step files: 6 to 44.
    pub fn code(&self) -> u32
        ensures { result ≡ code_of self.now }
    {
        match self {
            Reason::UnknownMember => 6,
            Reason::AlreadyDead => 7,
            Reason::NotDead => 8,
            Reason::NameTaken => 9,
            Reason::TooManyMembers => 10,
            Reason::AlreadySynced => 11,
            Reason::Stopped => 12,
            Reason::Waiting => 13,
            Reason::ViewTooOld { .. } => 14,
            Reason::NoCredit => 15,
            Reason::NothingNew => 16,
            Reason::NothingToTake => 17,
            Reason::NoLinkAtDoor => 18,
            Reason::AwaitingAnswer => 19,
            Reason::NotStopped => 20,
            Reason::NotNeighbour => 21,
            Reason::LinkNotEnded => 22,
            Reason::NotOwner => 23,
            Reason::NotRetired { .. } => 24,
            Reason::ViewOutOfRange { .. } => 25,
            Reason::NotMaster => 26,
            Reason::NoMaster => 27,
            Reason::QueueEmpty => 28,
            Reason::UnknownPosition => 29,
            Reason::NotDelivered => 30,
            Reason::AlreadySyncing => 31,
            Reason::NotStarted => 32,
            Reason::StillMissing { .. } => 33,
            Reason::NoSyncLink => 34,
            Reason::MarkNotSeen => 35,
            Reason::LinkFull => 36,
            Reason::NoGrant => 37,
            Reason::NoOutLink => 38,
            Reason::NoCurrentLink => 39,
            Reason::EndNext => 40,
            Reason::AlreadyStarted => 41,
            Reason::PacketNext => 42,
            Reason::HasCurrentLink => 43,
            Reason::NotRefused => 44,
        }
    }
}
