//! Rings with their queue, worked out from what each operation does and from who is refused what.

/// The master serves its clients, and each refusal has its number; its mirrors take what it did.
pub(crate) const SERVED: &str = "
    quiet -> true
    get a -> refused 28 QueueEmpty
    publish a one
    publish a two
    publish b no -> refused 26 NotMaster
    items a -> 1 one, 2 two
    ack a 1 -> refused 30 NotDelivered
    get a
    items a -> 1* one, 2 two
    get a
    get a -> refused 28 QueueEmpty
    pop a -> refused 28 QueueEmpty
    requeue a 1
    items a -> 1+ one, 2* two
    ack a 2
    ack a 1 -> refused 30 NotDelivered
    ack a 9 -> refused 29 UnknownPosition
    requeue a 9 -> refused 29 UnknownPosition
    get b -> refused 26 NotMaster
    depth b -> refused 26 NotMaster
    start b -> refused 26 NotMaster
    start a -> refused 41 AlreadyStarted
    synced b -> refused 11 AlreadySynced
    get z -> refused 6 UnknownMember
    refuse 29 ack a 9
    refuse 26 get b
    refuse 28 ack a 9 -> refused 44 NotRefused
    refusals -> 29 ack a 9, 26 get b
    counts a -> casts 0 confirmed 0 publishes 2 confirmed 0
    items b ->
    put a
    take b
    items b -> 1+ one
    put b
    take a
    counts a -> casts 0 confirmed 0 publishes 2 confirmed 2
    depth a
    state b -> Up { missing: Some(0) }
    pop a
    publish a three
    items a -> 3 three
    heard b a ->
    ";

/// The master stops, and is erased. Who leads then starts before anything else, and what was handed out is ready again,
/// at the mirrors too.
pub(crate) const PROMOTED: &str = "
    publish a x
    publish a y
    get a
    put a
    take b
    put b
    take c
    put c
    take a
    counts a -> casts 0 confirmed 0 publishes 2 confirmed 2
    stop a
    publish a z -> refused 12 Stopped
    takeend b
    mark b a
    refresh c 2
    pick b
    take b
    put b
    take c
    put c
    take b
    get b -> refused 26 NotMaster
    erase b a
    view -> 3
    quiet -> false
    get b -> refused 32 NotStarted
    publish b z -> refused 32 NotStarted
    ack b 9 -> refused 32 NotStarted
    depth b -> refused 32 NotStarted
    refuse 32 get b -> refused 44 NotRefused
    items b -> 1* x, 2 y
    start b
    start b -> refused 41 AlreadyStarted
    items b -> 1+ x, 2 y
    get b
    items b -> 1* x, 2 y
    items c -> 1* x, 2 y
    put b
    take c -> refused 14 ViewTooOld { need: 3, have: 2 }
    get c -> refused 26 NotMaster
    refresh c 3
    take c
    items c -> 1* x, 2 y
    requeue b 1
    put b
    take c
    items c -> 1+ x, 2 y
    publish b z
    items b -> 1+ x, 2 y, 3 z
    ";

/// A newcomer lacks what was there before, is told how much, and is registered once that has gone. Then it is elected.
pub(crate) const REGISTERED: &str = "
    publish a x
    admit a n
    state n -> Waiting
    items n ->
    take n
    state n -> Up { missing: None }
    synced n -> refused 33 StillMissing { missing: None }
    quiet -> false
    depth a
    put a
    take n
    state n -> Up { missing: Some(1) }
    synced n -> refused 33 StillMissing { missing: Some(1) }
    get a
    requeue a 1
    put a
    take n
    state n -> Up { missing: Some(1) }
    pop a
    put a
    take n
    state n -> Up { missing: Some(0) }
    view -> 2
    synced n
    view -> 3
    synced n -> refused 11 AlreadySynced
    stop a
    takeend n
    mark n a
    pick n
    take n
    put n
    take n
    erase n a
    view -> 5
    get n -> refused 32 NotStarted
    start n
    publish n y
    get n
    items n -> 1* y
    ";

/// Nobody is elected where none that lives is registered.
pub(crate) const NOBODY_LEADS: &str = "
    publish a x
    admit a b
    take b
    stop a
    takeend b
    mark b a
    pick b
    take b
    put b
    take b
    erase b a
    view -> 4
    publish b y -> refused 27 NoMaster
    get b -> refused 27 NoMaster
    start b -> refused 27 NoMaster
    depth b -> refused 27 NoMaster
    synced b -> refused 33 StillMissing { missing: None }
    refuse 27 publish b y
    refusals -> 27 publish b y
    ";
