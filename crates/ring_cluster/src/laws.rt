//! The laws of a ring left to itself, over all runs.
ghost use Rattle.ring_rules.specs.Idle.{NobodySteps, MarksNobody, ErasesNobody};
ghost use Rattle.ring_rules.specs.Quiet.{RingRests};
ghost use Rattle.ring_cluster.specs.EachState.{InEachState};
ghost use Rattle.ring_cluster.specs.Heard.{HasHeardAll};

/// Of a ring as `gm` repairs it, in every state that it reaches, whoever has stopped: it rests where no running
/// member has a step to do on its links (each has the newest view and sends on a link, and can pick no link, take no
/// packet and no end, gain no credit and put no packet), can have its right neighbour marked dead, or can have anybody
/// erased.
pub fn an_idle_ring_is_at_rest()
    ensures { InEachState (λ names w. NobodySteps w → MarksNobody w → ErasesNobody w → RingRests w) }
{}

/// Where a ring rests, in any state that it reaches, every message of the members that run is
/// confirmed, and every member that is up has heard all of them from its base on: a member of the opening
/// from the first one on. The base of one that joined isn't above the length that the log had at its admission
/// (`every_state_is_lawful` of ring_rules).
pub fn a_quiet_ring_has_heard_all()
    ensures { InEachState (λ names w. RingRests w → HasHeardAll names w) }
{}
