//! Rings that repair themselves after deaths and take in newcomers, with the walk of `a` after each event, worked out
//! from what the walk is.

/// The publisher stops when only its right neighbour has the message. That one erases it once the message and its
/// acknowledgement have come round, and not before, and nobody else does. It leads then, and the ring is quiet once its
/// start has come round too.
pub(crate) const PUBLISHER_STOPS: &str = "
    cast a x
    walk a -> [1, 0, 0, 0, 0, 0, 0]
    put a
    walk a -> [1, 1, 0, 0, 0, 0, 0, 0, 0]
    take b
    walk a -> [1, 1, 0, 0, 0, 0, 0]
    stop a
    walk a -> [1, 0, 0, 0, 0]
    takeend b
    walk a -> [1, 0, 0, 0, 0]
    mark b a
    walk a -> [1, 0, 0, 0, 0]
    put b
    walk a -> [1, 1, 0, 0, 0, 0, 0]
    take c -> refused 14 ViewTooOld { need: 2, have: 1 }
    walk a -> [1, 1, 0, 0, 0, 0, 0]
    refresh c 2
    walk a -> [1, 1, 0, 0, 0, 0, 0, 0, 0]
    take c
    walk a -> [1, 1, 0, 0, 0, 0, 0]
    pick b
    walk a -> [1, 1, 0, 0, 0, 0, 0]
    take b
    walk a -> [1, 1, 0, 0, 0]
    put c
    walk a -> [1, 1, 1, 0, 0, 0, 0]
    take b
    walk a -> [1, 1, 1, 0, 0]
    put b
    walk a -> [1, 1, 1, 1, 1, 0, 0]
    take c
    walk a -> [1, 1, 1, 1, 0]
    erase b a -> refused 24 NotRetired { got: 1, retired: 0 }
    walk a -> [1, 1, 1, 1, 0]
    put c
    walk a -> [1, 1, 1, 1, 1, 1, 0]
    take b
    walk a -> [1, 1, 1, 1, 1]
    erase c a -> refused 23 NotOwner
    walk a -> [1, 1, 1, 1, 1]
    erase b a
    walk a -> [1, 1, 1, 1, 1]
    erase b a -> refused 8 NotDead
    walk a -> [1, 1, 1, 1, 1]
    refresh c 3
    walk a -> [1, 1, 1, 1, 1]
    quiet -> false
    start b
    put b
    take c
    put c
    take b
    put b
    take c
    put c
    quiet -> false
    take b
    quiet -> true
    view -> 3
    heard b a -> x
    heard c a -> x
    ";

/// The publisher stops before its put: nobody else ever has its message.
pub(crate) const STOPS_BEFORE_ITS_PUT: &str = "
    cast a x
    walk a -> [1, 0, 0, 0, 0, 0, 0]
    stop a
    walk a -> [0, 0, 0, 0, 0]
    mark c a
    walk a -> [0, 0, 0, 0, 0, 0, 0]
    take b -> refused 40 EndNext
    walk a -> [0, 0, 0, 0, 0, 0, 0]
    erase b a -> refused 23 NotOwner
    walk a -> [0, 0, 0, 0, 0, 0, 0]
    refresh b 2
    walk a -> [0, 0, 0, 0, 0, 0, 0]
    erase b a
    walk a -> [0, 0, 0, 0, 0, 0, 0]
    view -> 3
    heard b a ->
    heard c a ->
    ";

/// Two neighbours stop before either is marked.
pub(crate) const TWO_STOP: &str = "
    cast a x
    walk a -> [1, 0, 0, 0, 0, 0, 0, 0, 0]
    put a
    walk a -> [1, 1, 0, 0, 0, 0, 0, 0, 0, 0, 0]
    take b
    walk a -> [1, 1, 0, 0, 0, 0, 0, 0, 0]
    put b
    walk a -> [1, 1, 1, 0, 0, 0, 0, 0, 0, 0, 0]
    take c
    walk a -> [1, 1, 1, 0, 0, 0, 0, 0, 0]
    stop a
    walk a -> [1, 1, 0, 0, 0, 0, 0]
    stop b
    walk a -> [1, 0, 0, 0, 0]
    takeend c
    walk a -> [1, 0, 0, 0, 0]
    mark c b
    walk a -> [1, 0, 0, 0, 0]
    mark c a
    walk a -> [1, 0, 0, 0, 0]
    put c
    walk a -> [1, 1, 0, 0, 0, 0, 0]
    refresh d 3
    walk a -> [1, 1, 0, 0, 0, 0, 0, 0, 0]
    take d
    walk a -> [1, 1, 0, 0, 0, 0, 0]
    pick c
    walk a -> [1, 1, 0, 0, 0, 0, 0]
    take c
    walk a -> [1, 1, 0, 0, 0]
    put d
    walk a -> [1, 1, 1, 0, 0, 0, 0]
    take c
    walk a -> [1, 1, 1, 0, 0]
    put c
    walk a -> [1, 1, 1, 1, 1, 0, 0]
    take d
    walk a -> [1, 1, 1, 1, 0]
    put d
    walk a -> [1, 1, 1, 1, 1, 1, 0]
    take c
    walk a -> [1, 1, 1, 1, 1]
    erase c a
    walk a -> [1, 1, 1, 1, 1]
    erase c b
    walk a -> [1, 1, 1, 1, 1]
    view -> 5
    heard c a -> x
    heard d a -> x
    ";

/// Who admits stops before the newcomer's first take. Who was there before the message hears it from the newcomer,
/// which came after it and doesn't hear it.
pub(crate) const ADMITTER_STOPS: &str = "
    cast a x
    walk a -> [1, 0, 0, 0, 0]
    admit a n
    walk a -> [1, 1, 0, 0, 0, 0, 0]
    stop a
    walk a -> [1, 0, 0, 0, 0]
    take n
    walk a -> [1, 0, 0, 0, 0]
    takeend n
    walk a -> [1, 0, 0, 0, 0]
    mark n a
    walk a -> [1, 1, 0, 0, 0, 0, 0]
    takeend b
    walk a -> [1, 1, 0, 0, 0, 0, 0]
    refresh b 3
    walk a -> [1, 1, 0, 0, 0, 0, 0, 0, 0]
    pick b
    walk a -> [1, 1, 0, 0, 0, 0, 0, 0, 0]
    take b
    walk a -> [1, 1, 0, 0, 0, 0, 0]
    pick n
    walk a -> [1, 1, 0, 0, 0, 0, 0]
    take n
    walk a -> [1, 1, 0, 0, 0]
    put b
    walk a -> [1, 1, 1, 0, 0, 0, 0]
    take n
    walk a -> [1, 1, 1, 0, 0]
    put n
    walk a -> [1, 1, 1, 1, 1, 0, 0]
    take b
    walk a -> [1, 1, 1, 1, 0]
    put b
    walk a -> [1, 1, 1, 1, 1, 1, 0]
    take n
    walk a -> [1, 1, 1, 1, 1]
    erase n a
    walk a -> [1, 1, 1, 1, 1]
    view -> 4
    heard b a -> x
    heard n a ->
    state n -> Up { missing: None }
    ";

/// A neighbour comes back: a packet that was left is never taken, and nothing is heard twice.
pub(crate) const NEIGHBOUR_COMES_BACK: &str = "
    cast a p
    walk a -> [1, 0, 0, 0, 0]
    put a
    walk a -> [1, 1, 0, 0, 0, 0, 0]
    cast a q
    walk a -> [2, 1, 0, 0, 0, 0, 0]
    put a
    walk a -> [2, 2, 1, 0, 0, 0, 0, 0, 0]
    take b
    walk a -> [2, 2, 1, 0, 0, 0, 0]
    admit a n
    walk a -> [2, 2, 2, 1, 0, 0, 0, 0, 0]
    stop n
    walk a -> [2, 2, 1, 0, 0, 0, 0]
    mark a n
    walk a -> [2, 2, 2, 1, 0, 0, 0, 0, 0]
    refresh b 3
    walk a -> [2, 2, 1, 0, 0, 0, 0]
    pick b
    walk a -> [2, 2, 1, 0, 0, 0, 0]
    take b
    walk a -> [2, 2, 0, 0, 0]
    erase a n -> refused 23 NotOwner
    walk a -> [2, 2, 0, 0, 0]
    erase b n
    walk a -> [2, 2, 0, 0, 0]
    view -> 4
    heard a a -> p q
    heard b a -> p q
    ";

/// A newcomer waits for its first packet, and hears just what is published after its admission.
pub(crate) const NEWCOMER: &str = "
    cast a x
    put a
    admit a b -> refused 9 NameTaken
    admit z n -> refused 6 UnknownMember
    admit a n
    member n -> Some(MemberId(3))
    state n -> Waiting
    quiet -> false
    cast n y -> refused 13 Waiting
    put n -> refused 13 Waiting
    refresh n 2 -> refused 13 Waiting
    takeend n -> refused 42 PacketNext
    cast a z
    put a
    take n
    state n -> Up { missing: None }
    heard n a ->
    take n
    heard n a -> z
    put n -> refused 38 NoOutLink
    refresh n 2
    admit n n -> refused 9 NameTaken
    erase n a -> refused 8 NotDead
    take b
    heard b a -> x
    takeend b
    refresh b 2
    pick b
    take b
    heard b a -> x z
    put n -> refused 16 NothingNew
    view -> 2
    ";

/// What a client can't have is told with its number, and no other.
pub(crate) const TOLD: &str = "
    refuse 12 cast b x -> refused 44 NotRefused
    refuse 6 cast z x -> refused 6 UnknownMember
    refuse 9 admit a b
    stop b
    refuse 12 cast b x
    refuse 13 cast b x -> refused 44 NotRefused
    refuse 12 stop b
    refuse 12 admit b n
    takeend a
    mark a b
    admit a n
    refuse 13 cast n x -> refused 44 NotRefused
    refuse 9 admit a n
    refusals -> 9 admit a b, 12 cast b x, 12 stop b, 12 admit b n, 9 admit a n
    heard a a ->
    ";
