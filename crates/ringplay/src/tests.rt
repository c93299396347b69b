//! Inputs, and what is written of them, byte for byte, and how each fault ends. In a table each row begins with
//! `====` and its title; then come the words of the command line, the input, and behind `=>` the cause, the status
//! and what is written.
ghost use Rattle.std.specs.Prelude.{◌<◌};

mod cluster;
mod machine;
mod member;

use crate::call::{Ended, ring_call};
use crate::cause::Cause;
use crate::word::Word;
use ring_io::{Gate, MeetGate, MemorySink, MemorySource, ShutGate};
use ring_names::MemberId;
use ring_rules::Event;
use std::alloc::Global;
use std::process::Abort;
use std::test::Fail;
use std::thread::Threads;

/// What is written of scripts.
const SCRIPTS: &str = "==== The sole member is its own neighbour
play
members a
cast a hi
settle
=> Done, status 0
ring view=1 term=1 master=a
member a up synced
casts 1 confirmed 1
publishes 0 confirmed 0
heard a hi
==== Nobody publishes
play
members a b
=> Done, status 0
ring view=1 term=1 master=a
member a up synced
casts 0 confirmed 0
publishes 0 confirmed 0
member b up synced
casts 0 confirmed 0
publishes 0 confirmed 0
==== Two publish in a ring of three
play
members a b c
cast a a1
cast b b1
cast a a2
cast b b2
cast a a3
settle
=> Done, status 0
ring view=1 term=1 master=a
member a up synced
casts 3 confirmed 3
publishes 0 confirmed 0
heard a a1
heard a a2
heard a a3
heard b b1
heard b b2
member b up synced
casts 2 confirmed 2
publishes 0 confirmed 0
heard a a1
heard a a2
heard a a3
heard b b1
heard b b2
member c up synced
casts 0 confirmed 0
publishes 0 confirmed 0
heard a a1
heard a a2
heard a a3
heard b b1
heard b b2
==== The end of the script settles, and an empty body leaves its space
play
members a b
cast b
=> Done, status 0
ring view=1 term=1 master=a
member a up synced
casts 0 confirmed 0
publishes 0 confirmed 0
heard b 
member b up synced
casts 1 confirmed 1
publishes 0 confirmed 0
heard b 
==== Who has stopped refuses what is left on its agenda, and the oldest that runs admits
play
members a b
kill b
kill b
cast b z
join b n
settle
=> Done, status 0
ring view=5 term=1 master=a
member a up synced
casts 0 confirmed 0
publishes 0 confirmed 0
member b erased
casts 0 confirmed 0
publishes 0 confirmed 0
refused 12 stop b
refused 12 cast b z
refused 12 admit b n
member n up synced
casts 0 confirmed 0
publishes 0 confirmed 0
==== A queue served by its master
play
members a b
publish a one
publish a two
get a
get a
requeue a 1
ack a 2
ack a 1
ack a 9
get b
settle
=> Done, status 0
ring view=1 term=1 master=a
member a up synced
casts 0 confirmed 0
publishes 2 confirmed 2
again 1 one
refused 30 ack a 1
refused 29 ack a 9
member b up synced
casts 0 confirmed 0
publishes 0 confirmed 0
again 1 one
refused 26 get b
==== Nobody is left to mark the last one
play
members a
kill a
cast a 
settle
=> Done, status 0
ring view=1 term=1 master=a
member a stopped
casts 0 confirmed 0
publishes 0 confirmed 0
refused 12 cast a 
==== Nobody is left to mark the last one, nor to admit anybody
play
members a
kill a
join a n
settle
=> Done, status 0
ring view=1 term=1 master=a
member a stopped
casts 0 confirmed 0
publishes 0 confirmed 0
refused 12 admit a n
==== Nobody does what was asked of a name that nobody has
play
members a
kill a
join a n
cast n x
join n m
kill m
settle
=> Done, status 0
ring view=1 term=1 master=a
member a stopped
casts 0 confirmed 0
publishes 0 confirmed 0
refused 12 admit a n
==== Who waits stops at once, and refuses what is left on its agenda
play
members a b
join a n
kill n
cast n x
settle
=> Done, status 0
ring view=4 term=1 master=a
member a up synced
casts 0 confirmed 0
publishes 0 confirmed 0
member b up synced
casts 0 confirmed 0
publishes 0 confirmed 0
member n erased
casts 0 confirmed 0
publishes 0 confirmed 0
refused 12 cast n x
==== Links of credit 1, rounds, a comment, and a body with spaces
play
# two members
members a b
credit 1 1
go 2
  cast  a  one  

go 1000
cast b two
go 1
=> Done, status 0
ring view=1 term=1 master=a
member a up synced
casts 1 confirmed 1
publishes 0 confirmed 0
heard a  one  
heard b two
member b up synced
casts 1 confirmed 1
publishes 0 confirmed 0
heard a  one  
heard b two
==== The longest name
play
members abcdefghijklmnop
=> Done, status 0
ring view=1 term=1 master=abcdefghijklmnop
member abcdefghijklmnop up synced
casts 0 confirmed 0
publishes 0 confirmed 0
==== The longest body
play
members a
cast a xxxxxxxxxxxxxxxxxxxxxxxxxxxxxxxxxxxxxxxxxxxxxxxxxxxxxxxxxxxxxxxxxxxxxxxxxxxxxxxxxxxxxxxxxxxxxxxxxxxxxxxxxxxxx\
xxxxxxxxxxxxxxxxxxxxxxxxxxxxxxxxxxxxxxxxxxxxxxxxxxxxxxxxxxxxxxxxxxxxxxxxxxxxxxxxxxxxxxxxxxxxxxxxxxxxxxxxxxxxxxxxxxxx\
xxxxxxxxxxxxxxxxxxxxxxxxxxxxxxx
=> Done, status 0
ring view=1 term=1 master=a
member a up synced
casts 1 confirmed 1
publishes 0 confirmed 0
heard a xxxxxxxxxxxxxxxxxxxxxxxxxxxxxxxxxxxxxxxxxxxxxxxxxxxxxxxxxxxxxxxxxxxxxxxxxxxxxxxxxxxxxxxxxxxxxxxxxxxxxxxxxxxx\
xxxxxxxxxxxxxxxxxxxxxxxxxxxxxxxxxxxxxxxxxxxxxxxxxxxxxxxxxxxxxxxxxxxxxxxxxxxxxxxxxxxxxxxxxxxxxxxxxxxxxxxxxxxxxxxxxxxx\
xxxxxxxxxxxxxxxxxxxxxxxxxxxxxxxx
==== examples/slow_links.script
play
# Each link takes one packet, and is granted the next when that one is read.
members a b c
credit 1 1

cast a first
cast c  two words 
go 3
cast b
settle
=> Done, status 0
ring view=1 term=1 master=a
member a up synced
casts 1 confirmed 1
publishes 0 confirmed 0
heard a first
heard b 
heard c  two words 
member b up synced
casts 1 confirmed 1
publishes 0 confirmed 0
heard a first
heard b 
heard c  two words 
member c up synced
casts 1 confirmed 1
publishes 0 confirmed 0
heard a first
heard b 
heard c  two words 
==== The sole member is killed
play
members a
cast a hi
kill a
cast a x
settle
=> Done, status 0
ring view=1 term=1 master=a
member a stopped
casts 1 confirmed 0
publishes 0 confirmed 0
refused 12 cast a x
==== examples/publisher_killed.script
play
# A publisher is killed in mid-stream. What it has put on its link is heard by all others. Its last cast, which it
# hasn't put yet, is at nobody else.
members a b c

cast a a1
cast b b1
settle

cast b b2
cast b b3
kill b
# b refuses what comes behind its kill.
cast b b4
settle

cast a a2
cast c c1
settle
=> Done, status 0
ring view=3 term=1 master=a
member a up synced
casts 2 confirmed 2
publishes 0 confirmed 0
heard a a1
heard a a2
heard b b1
heard b b2
heard c c1
member b erased
casts 3 confirmed 1
publishes 0 confirmed 0
refused 12 cast b b4
member c up synced
casts 1 confirmed 1
publishes 0 confirmed 0
heard a a1
heard a a2
heard b b1
heard b b2
heard c c1
==== examples/burst_then_kill.script
play
# A publisher is killed behind a burst. In a round its first turn does the head of its agenda, its second its own
# work, and so does each eighth from there on: so all but the last cast are on its link when it stops.
members a b c

cast b x1
cast b x2
cast b x3
cast b x4
cast b x5
cast b x6
cast b x7
cast b x8
cast b x9
kill b
settle
=> Done, status 0
ring view=3 term=1 master=a
member a up synced
casts 0 confirmed 0
publishes 0 confirmed 0
heard b x1
heard b x2
heard b x3
heard b x4
heard b x5
heard b x6
heard b x7
heard b x8
member b erased
casts 9 confirmed 0
publishes 0 confirmed 0
member c up synced
casts 0 confirmed 0
publishes 0 confirmed 0
heard b x1
heard b x2
heard b x3
heard b x4
heard b x5
heard b x6
heard b x7
heard b x8
==== examples/newcomer_killed.script
play
# A newcomer is killed before it has taken its first packet, so nothing is asked of it any more. Its neighbours close
# the ring again, and what was on its link is heard by all.
members a b c

cast a a1
settle

join a n
kill n
cast n n1
cast a a2
cast c c1
settle
=> Done, status 0
ring view=4 term=1 master=a
member a up synced
casts 2 confirmed 2
publishes 0 confirmed 0
heard a a1
heard a a2
heard c c1
member b up synced
casts 0 confirmed 0
publishes 0 confirmed 0
heard a a1
heard a a2
heard c c1
member c up synced
casts 1 confirmed 1
publishes 0 confirmed 0
heard a a1
heard a a2
heard c c1
member n erased
casts 0 confirmed 0
publishes 0 confirmed 0
refused 12 cast n n1
==== examples/rolling_restart.script
play
# A rolling restart with a queue in use: three nodes are replaced in turn, while clients publish and take messages off. A
# newcomer lacks what was published before it came; once that is acknowledged, it holds the whole queue, and may lead.
members a b c

publish a m1
publish a m2
settle

join a d
get a
ack a 1
get a
ack a 2
publish a m3
settle
kill a
settle

join b e
get b
ack b 3
publish b m4
settle
kill b
settle

join c f
get c
ack c 4
publish c m5
settle
kill c
settle

get d
settle
=> Done, status 0
ring view=13 term=4 master=d
member a erased
casts 0 confirmed 0
publishes 3 confirmed 3
member b erased
casts 0 confirmed 0
publishes 1 confirmed 1
member c erased
casts 0 confirmed 0
publishes 1 confirmed 1
member d up synced
casts 0 confirmed 0
publishes 0 confirmed 0
unacked 5 m5
member e up synced
casts 0 confirmed 0
publishes 0 confirmed 0
unacked 5 m5
member f up synced
casts 0 confirmed 0
publishes 0 confirmed 0
unacked 5 m5
==== examples/master_killed.script
play
# A master fails with a message handed out: the next one has it ready again, and hands it out first.
members a b c

publish a x
publish a y
get a
settle

kill a
settle
=> Done, status 0
ring view=3 term=2 master=b
member a erased
casts 0 confirmed 0
publishes 2 confirmed 2
member b up synced
casts 0 confirmed 0
publishes 0 confirmed 0
again 1 x
ready 2 y
member c up synced
casts 0 confirmed 0
publishes 0 confirmed 0
again 1 x
ready 2 y
==== examples/nobody_leads.script
play
# Nobody is left that holds all: b joined behind the message, and a is killed. Without a master nobody may publish.
members a

publish a x
settle

join a b
settle

kill a
settle

publish b y
settle
=> Done, status 0
ring view=4 term=1 master=none
member a erased
casts 0 confirmed 0
publishes 1 confirmed 1
member b up missing=1
casts 0 confirmed 0
publishes 0 confirmed 0
refused 27 publish b y
==== examples/eight_members.script
play
# Eight members, each link with room for one packet.
members a b c d e f g h
credit 1 1

cast a a1
cast d d1
cast h h1
go 2
cast a a2
cast e e1
settle
=> Done, status 0
ring view=1 term=1 master=a
member a up synced
casts 2 confirmed 2
publishes 0 confirmed 0
heard a a1
heard a a2
heard d d1
heard e e1
heard h h1
member b up synced
casts 0 confirmed 0
publishes 0 confirmed 0
heard a a1
heard a a2
heard d d1
heard e e1
heard h h1
member c up synced
casts 0 confirmed 0
publishes 0 confirmed 0
heard a a1
heard a a2
heard d d1
heard e e1
heard h h1
member d up synced
casts 1 confirmed 1
publishes 0 confirmed 0
heard a a1
heard a a2
heard d d1
heard e e1
heard h h1
member e up synced
casts 1 confirmed 1
publishes 0 confirmed 0
heard a a1
heard a a2
heard d d1
heard e e1
heard h h1
member f up synced
casts 0 confirmed 0
publishes 0 confirmed 0
heard a a1
heard a a2
heard d d1
heard e e1
heard h h1
member g up synced
casts 0 confirmed 0
publishes 0 confirmed 0
heard a a1
heard a a2
heard d d1
heard e e1
heard h h1
member h up synced
casts 1 confirmed 1
publishes 0 confirmed 0
heard a a1
heard a a2
heard d d1
heard e e1
heard h h1
==== examples/all_but_one_killed.script
play
# Of four members one is left. It has the others marked dead and erased, and is the master then.
members a b c d

cast a a1
cast c c1
settle

cast b b1
kill a
kill b
kill c
# b has stopped by then.
kill b
cast d d1
settle
=> Done, status 0
ring view=7 term=2 master=d
member a erased
casts 1 confirmed 1
publishes 0 confirmed 0
member b erased
casts 1 confirmed 0
publishes 0 confirmed 0
refused 12 stop b
member c erased
casts 1 confirmed 1
publishes 0 confirmed 0
member d up synced
casts 1 confirmed 1
publishes 0 confirmed 0
heard a a1
heard c c1
heard d d1
==== examples/join_under_load.script
play
# A newcomer joins while others publish.
members a b c

cast a a1
cast b b1
settle

join b n
cast a a2
cast b b2
# What is asked of n waits until it has its state.
cast n n1
settle

cast c c1
# The next newcomer is admitted by the first.
join n o
cast o o1
settle
=> Done, status 0
ring view=5 term=1 master=a
member a up synced
casts 2 confirmed 2
publishes 0 confirmed 0
heard a a1
heard a a2
heard b b1
heard b b2
heard c c1
heard n n1
heard o o1
member b up synced
casts 2 confirmed 2
publishes 0 confirmed 0
heard a a1
heard a a2
heard b b1
heard b b2
heard c c1
heard n n1
heard o o1
member c up synced
casts 1 confirmed 1
publishes 0 confirmed 0
heard a a1
heard a a2
heard b b1
heard b b2
heard c c1
heard n n1
heard o o1
member n up synced
casts 1 confirmed 1
publishes 0 confirmed 0
heard a a2
heard b b2
heard c c1
heard n n1
heard o o1
member o up synced
casts 1 confirmed 1
publishes 0 confirmed 0
heard c c1
heard o o1
==== examples/admitter_killed.script
play
# A member admits a newcomer, and is killed before that one has its state.
members a b c

cast a a1
cast b b1
settle

join b n
kill b
# b has stopped by then: it refuses this, and the running member of least id has o join.
join b o
# b refuses this too.
cast b b2
settle

cast n n1
cast o o1
cast c c1
settle
=> Done, status 0
ring view=7 term=1 master=a
member a up synced
casts 1 confirmed 1
publishes 0 confirmed 0
heard a a1
heard b b1
heard c c1
heard n n1
heard o o1
member b erased
casts 1 confirmed 1
publishes 0 confirmed 0
refused 12 admit b o
refused 12 cast b b2
member c up synced
casts 1 confirmed 1
publishes 0 confirmed 0
heard a a1
heard b b1
heard c c1
heard n n1
heard o o1
member n up synced
casts 1 confirmed 1
publishes 0 confirmed 0
heard c c1
heard n n1
heard o o1
member o up synced
casts 1 confirmed 1
publishes 0 confirmed 0
heard c c1
heard n n1
heard o o1
";

/// What is written of step files. A title begins with the number of the events that happen.
const STEPS: &str = "==== 6 events: The door and the range of views
step
members a b c
stop a
mark c a
pick b
takeend b
pick b
refresh b 3
refresh b 2
pick b
take b
put b
=> Done, status 0
line 4 refused 43
line 6 refused 18
line 7 refused 25 asked=3 held=1 newest=2
line 11 refused 16
ring view=2 term=1 master=a
member a stopped
casts 0 confirmed 0
publishes 0 confirmed 0
member b up synced
casts 0 confirmed 0
publishes 0 confirmed 0
member c up synced
casts 0 confirmed 0
publishes 0 confirmed 0
==== 15 events: A ring goes on without one that stopped
step
members a b c
cast a x
put a
take b
mark a b
stop b
put b
mark c b
refresh c 2
mark a b
mark a b
put a
take c
pick c
takeend c
take c
pick c
mark c b
refresh c 2
pick c
takeend c
take c
put c
take a
put a
put a
take c
put c
take a
take a
put c
=> Done, status 0
line 5 refused 20
line 7 refused 12
line 8 refused 22
line 9 refused 25 asked=2 held=1 newest=1
line 11 refused 21
line 12 refused 16
line 13 refused 40
line 14 refused 43
line 16 refused 39
line 17 refused 18
line 18 refused 7
line 21 refused 42
line 26 refused 16
line 30 refused 17
line 31 refused 16
ring view=2 term=1 master=a
member a up synced
casts 1 confirmed 1
publishes 0 confirmed 0
heard a x
member b stopped
casts 0 confirmed 0
publishes 0 confirmed 0
member c up synced
casts 0 confirmed 0
publishes 0 confirmed 0
heard a x
==== 8 events: The last one sends to itself
step
members a b
stop b
takeend a
mark a b
pick a
take a
cast a alone
put a
take a
take a
=> Done, status 0
line 10 refused 17
ring view=2 term=1 master=a
member a up synced
casts 1 confirmed 1
publishes 0 confirmed 0
heard a alone
member b stopped
casts 0 confirmed 0
publishes 0 confirmed 0
==== 10 events: Credit comes back with each second packet
step
members a b
credit 2 2
cast a x
put a
cast a y
put a
cast a z
put a
take b
gain a
take b
gain a
gain a
put a
take b
=> Done, status 0
line 8 refused 15
line 10 refused 37
line 13 refused 37
ring view=1 term=1 master=a
member a up synced
casts 3 confirmed 0
publishes 0 confirmed 0
heard a x
heard a y
heard a z
member b up synced
casts 0 confirmed 0
publishes 0 confirmed 0
heard a x
heard a y
heard a z
==== 7 events: Credit 1 1
step
members a b
credit 1 1
cast a x
put a
cast a y
put a
take b
gain a
put a
take b
=> Done, status 0
line 6 refused 15
ring view=1 term=1 master=a
member a up synced
casts 2 confirmed 0
publishes 0 confirmed 0
heard a x
heard a y
member b up synced
casts 0 confirmed 0
publishes 0 confirmed 0
heard a x
heard a y
==== 18 events: The publisher stops when only its right neighbour has the message
step
members a b c
cast a x
put a
take b
stop a
takeend b
mark b a
put b
take c
refresh c 2
take c
pick b
take b
put c
take b
put b
take c
put c
take b
erase b a
=> Done, status 0
line 9 refused 14 need=2 have=1
ring view=3 term=2 master=b
member a erased
casts 1 confirmed 0
publishes 0 confirmed 0
member b up synced
casts 0 confirmed 0
publishes 0 confirmed 0
heard a x
member c up synced
casts 0 confirmed 0
publishes 0 confirmed 0
heard a x
==== 5 events: The publisher stops before its put
step
members a b c
cast a x
stop a
mark c a
take b
erase b a
refresh b 2
erase b a
=> Done, status 0
line 5 refused 40
line 6 refused 23
ring view=3 term=2 master=b
member a erased
casts 1 confirmed 0
publishes 0 confirmed 0
member b up synced
casts 0 confirmed 0
publishes 0 confirmed 0
member c up synced
casts 0 confirmed 0
publishes 0 confirmed 0
==== 23 events: Two neighbours stop before either is marked
step
members a b c d
cast a x
put a
take b
put b
take c
stop a
stop b
takeend c
mark c b
mark c a
put c
refresh d 3
take d
pick c
take c
put d
take c
put c
take d
put d
take c
erase c a
erase c b
=> Done, status 0
ring view=5 term=2 master=c
member a erased
casts 1 confirmed 0
publishes 0 confirmed 0
member b erased
casts 0 confirmed 0
publishes 0 confirmed 0
member c up synced
casts 0 confirmed 0
publishes 0 confirmed 0
heard a x
member d up synced
casts 0 confirmed 0
publishes 0 confirmed 0
heard a x
==== 17 events: Two neighbours of five stop, the second with a message that nobody else has
step
members a b c d e
cast a x
put a
take b
cast c y
stop b
stop c
put b
mark a c
mark d c
takeend d
mark d c
pick d
mark d b
mark a b
refresh a 3
pick d
take d
put d
take e
refresh e 3
take e
put e
take a
=> Done, status 0
line 8 refused 12
line 9 refused 21
line 10 refused 22
line 13 refused 18
line 15 refused 7
line 20 refused 14 need=3 have=1
ring view=3 term=1 master=a
member a up synced
casts 1 confirmed 1
publishes 0 confirmed 0
heard a x
member b stopped
casts 0 confirmed 0
publishes 0 confirmed 0
member c stopped
casts 1 confirmed 0
publishes 0 confirmed 0
member d up synced
casts 0 confirmed 0
publishes 0 confirmed 0
heard a x
member e up synced
casts 0 confirmed 0
publishes 0 confirmed 0
heard a x
==== 6 events: A stop is found and repaired
step
members a b c
stop a
put a
mark c b
mark b a
take b
takeend b
mark c a
mark b a
refresh b 2
pick b
take b
=> Done, status 0
line 3 refused 12
line 4 refused 20
line 5 refused 22
line 6 refused 40
line 9 refused 7
ring view=2 term=1 master=a
member a stopped
casts 0 confirmed 0
publishes 0 confirmed 0
member b up synced
casts 0 confirmed 0
publishes 0 confirmed 0
member c up synced
casts 0 confirmed 0
publishes 0 confirmed 0
==== 4 events: What clients are refused is told
step
members a b
stop b
refuse 9 admit b a
refuse 12 cast b  two words
refuse 12 cast a x
refuse 12 stop b
refuse 9 admit a b
refuse 10 admit a n
=> Done, status 0
line 3 refused 44
line 5 refused 44
line 8 refused 44
ring view=1 term=1 master=a
member a up synced
casts 0 confirmed 0
publishes 0 confirmed 0
refused 9 admit a b
member b stopped
casts 0 confirmed 0
publishes 0 confirmed 0
refused 12 cast b  two words
refused 12 stop b
==== 4 events: What the sole member puts comes round at once
step
members a
cast a hi
cast a
put a
take a
=> Done, status 0
ring view=1 term=1 master=a
member a up synced
casts 2 confirmed 2
publishes 0 confirmed 0
heard a hi
heard a 
==== 4 events: What has not come round is not confirmed
step
members a b2
cast a one
cast b2 two
put a
take b2
=> Done, status 0
ring view=1 term=1 master=a
member a up synced
casts 1 confirmed 0
publishes 0 confirmed 0
heard a one
member b2 up synced
casts 1 confirmed 0
publishes 0 confirmed 0
heard a one
heard b2 two
==== 0 events: Names that the ring hasn't; blank lines and comments count
step
members a

put z
# a comment
mark a z
cast z
=> Done, status 0
line 3 refused 6
line 5 refused 6
line 6 refused 6
ring view=1 term=1 master=a
member a up synced
casts 0 confirmed 0
publishes 0 confirmed 0
==== 5 events: Refusals are told where they are true, and at the member that was asked
step
members a b
refuse 12 cast b x
stop b
refuse 12 cast b  y
refuse 9 admit a b
refuse 12 cast b
refuse 12 stop b
refuse 6 admit a n
refuse 12 stop z
=> Done, status 0
line 2 refused 44
line 8 refused 44
line 9 refused 6
ring view=1 term=1 master=a
member a up synced
casts 0 confirmed 0
publishes 0 confirmed 0
refused 9 admit a b
member b stopped
casts 0 confirmed 0
publishes 0 confirmed 0
refused 12 cast b  y
refused 12 cast b 
refused 12 stop b
==== 19 events: The admitting member stops before the newcomer's first take
step
members a b
cast a x
admit a n
stop a
take n
takeend n
mark n a
takeend b
refresh b 3
pick b
take b
pick n
take n
put b
take n
put n
take b
put b
take n
erase n a
=> Done, status 0
ring view=4 term=2 master=b
member a erased
casts 1 confirmed 0
publishes 0 confirmed 0
member b up synced
casts 0 confirmed 0
publishes 0 confirmed 0
heard a x
member n up missing=?
casts 0 confirmed 0
publishes 0 confirmed 0
==== 12 events: A neighbour comes back
step
members a b
cast a p
put a
cast a q
put a
take b
admit a n
stop n
mark a n
refresh b 3
pick b
take b
erase a n
erase b n
=> Done, status 0
line 13 refused 23
ring view=4 term=1 master=a
member a up synced
casts 2 confirmed 0
publishes 0 confirmed 0
heard a p
heard a q
member b up synced
casts 0 confirmed 0
publishes 0 confirmed 0
heard a p
heard a q
member n erased
casts 0 confirmed 0
publishes 0 confirmed 0
==== 2 events: A newcomer waits for its first packet
step
members a
cast a x
admit a n
=> Done, status 0
ring view=2 term=1 master=a
member a up synced
casts 1 confirmed 0
publishes 0 confirmed 0
heard a x
member n waiting
casts 0 confirmed 0
publishes 0 confirmed 0
==== 13 events: A newcomer hears just what is published after its admission
step
members a b
cast a x
put a
admit a b
admit z n
admit a n
cast n y
put n
refresh n 2
takeend n
cast a z
put a
take n
take n
put n
refresh n 2
admit n n
erase n a
take b
takeend b
refresh b 2
pick b
take b
put n
=> Done, status 0
line 4 refused 9
line 5 refused 6
line 7 refused 13
line 8 refused 13
line 9 refused 13
line 10 refused 42
line 15 refused 38
line 17 refused 9
line 18 refused 8
line 24 refused 16
ring view=2 term=1 master=a
member a up synced
casts 2 confirmed 0
publishes 0 confirmed 0
heard a x
heard a z
member b up synced
casts 0 confirmed 0
publishes 0 confirmed 0
heard a x
heard a z
member n up missing=?
casts 0 confirmed 0
publishes 0 confirmed 0
heard a z
==== 16 events: examples/newcomer.steps
step
# A sole member admits another, and messages go round the two.
members a
cast a x

# n stands right of a, and waits for its first packet, which says that x is received already.
admit a n
take n

# n sends to a from now on, and a takes from it.
refresh n 2
pick a
take a

# y is published after the admission, so n hears it.
cast a y
put a
take n
put n
take a

cast n w
put n
take a
put a
take n
=> Done, status 0
ring view=2 term=1 master=a
member a up synced
casts 2 confirmed 2
publishes 0 confirmed 0
heard a x
heard a y
heard n w
member n up missing=?
casts 1 confirmed 1
publishes 0 confirmed 0
heard a y
heard n w
==== 9 events: Who has stopped refuses an admission, and another member admits
step
members a b
refuse 12 cast b x
refuse 6 cast z x
refuse 9 admit a b
stop b
refuse 12 cast b x
refuse 13 cast b x
refuse 12 stop b
refuse 12 admit b n
takeend a
mark a b
admit a n
refuse 13 cast n x
refuse 9 admit a n
=> Done, status 0
line 2 refused 44
line 3 refused 6
line 7 refused 44
line 13 refused 44
ring view=3 term=1 master=a
member a up synced
casts 0 confirmed 0
publishes 0 confirmed 0
refused 9 admit a b
refused 9 admit a n
member b stopped
casts 0 confirmed 0
publishes 0 confirmed 0
refused 12 cast b x
refused 12 stop b
refused 12 admit b n
member n waiting
casts 0 confirmed 0
publishes 0 confirmed 0
==== 2 events: Nobody is left to admit
step
members a
stop a
admit a n
refuse 12 admit a n
=> Done, status 0
line 3 refused 12
ring view=1 term=1 master=a
member a stopped
casts 0 confirmed 0
publishes 0 confirmed 0
refused 12 admit a n
==== 7 events: examples/no_credit.steps
step
# A link that takes one packet, and the next one when the grant for it has come back.
members a b
credit 1 1

cast a x
put a
cast a y
# The link has no credit.
put a
take b
# b has read the packet, so a grant is under way.
gain a
put a
take b
=> Done, status 0
line 9 refused 15
ring view=1 term=1 master=a
member a up synced
casts 2 confirmed 0
publishes 0 confirmed 0
heard a x
heard a y
member b up synced
casts 0 confirmed 0
publishes 0 confirmed 0
heard a x
heard a y
==== 21 events: examples/two_neighbours.steps
step
# Two neighbours stop before either is marked dead.
members a b c d

# b and c have a's message, d hasn't.
cast a x
put a
take b
put b
take c
stop a
stop b

# c takes b's link to its end, and has both marked dead.
takeend c
mark c b
mark c a
put c

# What c sends is of version 3: d reads that view first.
take d
refresh d 3
take d

# d is c's left neighbour now, and the message goes round the two.
pick c
take c
put d
take c
put c
take d
put d
take c
=> Done, status 0
line 20 refused 14 need=3 have=1
ring view=3 term=1 master=a
member a stopped
casts 1 confirmed 0
publishes 0 confirmed 0
member b stopped
casts 0 confirmed 0
publishes 0 confirmed 0
member c up synced
casts 0 confirmed 0
publishes 0 confirmed 0
heard a x
member d up synced
casts 0 confirmed 0
publishes 0 confirmed 0
heard a x
==== 11 events: The master's queue is served, and its mirror follows
step --journal
members a b
publish a one
publish a two
publish b no
get a
ack a 2
ack a 9
put a
take b
put b
take a
ack a 1
get b
refuse 26 get b
refuse 28 get a
put a
take b
depth b
start a
synced b
=> Done, status 0
line 4 refused 26
line 6 refused 30
line 7 refused 29
line 13 refused 26
line 15 refused 44
line 18 refused 26
line 19 refused 41
line 20 refused 11
ring view=1 term=1 master=a
member a up synced
casts 0 confirmed 0
publishes 2 confirmed 2
ready 2 two
member b up synced
casts 0 confirmed 0
publishes 0 confirmed 0
ready 2 two
refused 26 get b
{\"credit\":[8,4],\"members\":[\"a\",\"b\"],\"v\":1}
[\"publish\",\"a\",\"one\"]
[\"publish\",\"a\",\"two\"]
[\"get\",\"a\"]
[\"put\",\"a\"]
[\"take\",\"b\"]
[\"put\",\"b\"]
[\"take\",\"a\"]
[\"ack\",\"a\",1]
[\"refuse\",26,\"get\",\"b\"]
[\"put\",\"a\"]
[\"take\",\"b\"]
==== 27 events: The master stops, and who leads then starts before it serves
step
members a b c
publish a x
publish a y
get a
put a
take b
put b
take c
put c
take a
stop a
publish a z
takeend b
mark b a
refresh c 2
pick b
take b
put b
take c
put c
take b
get b
erase b a
get b
start b
start b
get b
put b
take c
refresh c 3
take c
requeue b 1
publish b z
=> Done, status 0
line 12 refused 12
line 22 refused 26
line 24 refused 32
line 26 refused 41
line 29 refused 14 need=3 have=2
ring view=3 term=2 master=b
member a erased
casts 0 confirmed 0
publishes 2 confirmed 2
member b up synced
casts 0 confirmed 0
publishes 1 confirmed 0
again 1 x
ready 2 y
ready 3 z
member c up synced
casts 0 confirmed 0
publishes 0 confirmed 0
ready 2 y
unacked 1 x
==== 19 events: A newcomer is told what it lacks, and is registered once that has gone
step
members a
publish a x
admit a n
take n
synced n
depth a
put a
take n
synced n
get a
put a
take n
ack a 1
put a
take n
synced n
synced n
publish a y
put a
take n
pick a
refresh a 3
pick a
take a
=> Done, status 0
line 5 refused 33 missing=?
line 9 refused 33 missing=1
line 17 refused 11
line 21 refused 14 need=3 have=2
ring view=3 term=1 master=a
member a up synced
casts 0 confirmed 0
publishes 2 confirmed 1
ready 2 y
member n up synced
casts 0 confirmed 0
publishes 0 confirmed 0
ready 2 y
";

/// What is written of other words, and of inputs with a fault.
const FAULTS: &str = "==== no words

members a
=> Usage, status 1
usage
==== other words
fly
members a
=> Usage, status 1
usage
==== other words
play x
members a
=> Usage, status 1
usage
==== other words
step play
members a
=> Usage, status 1
usage
==== other words
load 5
members a
=> Usage, status 1
usage
==== other words
load 1 7
members a
=> Usage, status 1
usage
==== other words
load 5 x
members a
=> Usage, status 1
usage
==== other words
load 5 x
members a
=> Usage, status 1
usage
==== an empty input
play
=> Script { line: 1, kind: 61 }, status 2
script 1 61
==== members are missed
play

=> Script { line: 2, kind: 61 }, status 2
script 2 61
==== a name taken
play
members a a
=> Script { line: 1, kind: 58 }, status 2
script 1 58
==== no credit
play
members a
credit 2 3
=> Script { line: 2, kind: 55 }, status 2
script 2 55
==== a bad name
play
members abcdefghijklmnopq
=> Script { line: 1, kind: 56 }, status 2
script 1 56
==== an unknown member
play
members a
cast a x
cast a x
cast a x
cast a x
cast a x
cast z x
=> Script { line: 7, kind: 57 }, status 2
script 7 57
==== a command that is none, behind lines that are skipped
play
members a

# all that follows is wrong
fly a x
soar
=> Script { line: 4, kind: 52 }, status 2
script 4 52
==== a byte that is no text
play
members a
cast a \u{7}
=> Script { line: 2, kind: 50 }, status 2
script 2 50
==== an event in a script
play
members a
put a
=> Script { line: 2, kind: 52 }, status 2
script 2 52
==== members are missed
step

=> Script { line: 2, kind: 61 }, status 2
script 2 61
==== a command in a step file
step
members a
put a
settle
=> Script { line: 3, kind: 52 }, status 2
script 3 52
==== an event that is none
step
members a b
stop a
join b n
=> Script { line: 3, kind: 52 }, status 2
script 3 52
==== a missing word
step
members a
mark a
=> Script { line: 2, kind: 53 }, status 2
script 2 53
==== no version
step
members a
refresh a 0
=> Script { line: 2, kind: 55 }, status 2
script 2 55
==== a version above the limit
step
members a
refresh a 1000001
=> Script { line: 2, kind: 55 }, status 2
script 2 55
==== a 65th name
play
members m0 m1 m2 m3 m4 m5 m6 m7 m8 m9 m10 m11 m12 m13 m14 m15 m16 m17 m18 m19 m20 m21 m22 m23 m24 m25 m26 m27 m28 \
m29 m30 m31 m32 m33 m34 m35 m36 m37 m38 m39 m40 m41 m42 m43 m44 m45 m46 m47 m48 m49 m50 m51 m52 m53 m54 m55 m56 m57 \
m58 m59 m60 m61 m62 m63 m64
=> Script { line: 1, kind: 59 }, status 2
script 1 59
==== a body of 257 bytes
play
members a
cast a xxxxxxxxxxxxxxxxxxxxxxxxxxxxxxxxxxxxxxxxxxxxxxxxxxxxxxxxxxxxxxxxxxxxxxxxxxxxxxxxxxxxxxxxxxxxxxxxxxxxxxxxxxxxx\
xxxxxxxxxxxxxxxxxxxxxxxxxxxxxxxxxxxxxxxxxxxxxxxxxxxxxxxxxxxxxxxxxxxxxxxxxxxxxxxxxxxxxxxxxxxxxxxxxxxxxxxxxxxxxxxxxxxx\
xxxxxxxxxxxxxxxxxxxxxxxxxxxxxxxx
=> Script { line: 2, kind: 60 }, status 2
script 2 60
==== examples/unknown_name.script
play
members rabbit hare
cast rabbit hello
cast fox hello
=> Script { line: 3, kind: 57 }, status 2
script 3 57
";

/// What is written of load scripts. Nothing of the input is read.
const LOADS: &str = "==== the smallest
load 2 0
members a
=> Done, status 0
blocks 2
members 3 up 2
casts 2 confirmed 2
publishes 4 confirmed 4
master m1 term 2 view 3
ready 2 unacked 0
==== four members
load 3000 7

=> Done, status 0
blocks 3000
members 4 up 3
casts 3000 confirmed 3000
publishes 6000 confirmed 6000
master m1 term 2 view 3
ready 3000 unacked 0
";

/// What is written of journals, and with them.
const JOURNALS: &str = "==== A journal is that of a run
check
{\"credit\":[8,4],\"members\":[\"a\"],\"v\":1}
[\"cast\",\"a\",\"hi\"]
[\"put\",\"a\"]
[\"take\",\"a\"]
=> Done, status 0
ring view=1 term=1 master=a
member a up synced
casts 1 confirmed 1
publishes 0 confirmed 0
heard a hi
==== Two of its lines are exchanged
check
{\"credit\":[8,4],\"members\":[\"a\"],\"v\":1}
[\"cast\",\"a\",\"hi\"]
[\"take\",\"a\"]
[\"put\",\"a\"]
=> Illegal { line: 3, code: 17 }, status 7
illegal 3 17
==== A line is cut
check
{\"credit\":[8,4],\"members\":[\"a\"],\"v\":1}
[\"cast\",\"a\",\"hi\"]
[\"put\",\"a\"]
[\"ta
=> Unreadable { line: 4, kind: 70 }, status 8
unreadable 4 70
==== Nothing is given
check
=> Unreadable { line: 1, kind: 72 }, status 8
unreadable 1 72
==== Steps with their journal
step --journal
members a
cast a hi
put a
take a
=> Done, status 0
ring view=1 term=1 master=a
member a up synced
casts 1 confirmed 1
publishes 0 confirmed 0
heard a hi
{\"credit\":[8,4],\"members\":[\"a\"],\"v\":1}
[\"cast\",\"a\",\"hi\"]
[\"put\",\"a\"]
[\"take\",\"a\"]
==== A mirror holds what the master has published
check
{\"credit\":[8,4],\"members\":[\"a\"],\"v\":1}
[\"publish\",\"a\",\"x\"]
[\"publish\",\"a\",\"y\"]
[\"get\",\"a\"]
=> Done, status 0
ring view=1 term=1 master=a
member a up synced
casts 0 confirmed 0
publishes 2 confirmed 0
ready 2 y
unacked 1 x
==== The queue is copied, and goes on behind the mark
check
{\"credit\":[8,4],\"members\":[\"a\"],\"v\":1}
[\"publish\",\"a\",\"x\"]
[\"admit\",\"a\",\"n\"]
[\"take\",\"n\"]
[\"sync\",\"a\",\"n\"]
[\"publish\",\"a\",\"y\"]
[\"get\",\"a\"]
[\"syncput\",\"a\"]
[\"syncput\",\"a\"]
[\"synctake\",\"n\"]
[\"put\",\"a\"]
[\"take\",\"n\"]
[\"synctake\",\"n\"]
[\"synced\",\"n\"]
=> Done, status 0
ring view=3 term=1 master=a
member a up synced
casts 0 confirmed 0
publishes 2 confirmed 0
ready 2 y
unacked 1 x
member n up synced
casts 0 confirmed 0
publishes 0 confirmed 0
ready 2 y
unacked 1 x
==== All is taken before the mark has come
check
{\"credit\":[8,4],\"members\":[\"a\"],\"v\":1}
[\"publish\",\"a\",\"x\"]
[\"admit\",\"a\",\"n\"]
[\"take\",\"n\"]
[\"sync\",\"a\",\"n\"]
[\"publish\",\"a\",\"y\"]
[\"get\",\"a\"]
[\"syncput\",\"a\"]
[\"syncput\",\"a\"]
[\"synctake\",\"n\"]
[\"synctake\",\"n\"]
=> Illegal { line: 11, code: 35 }, status 7
illegal 11 35
==== The master stops before all is copied
check
{\"credit\":[8,4],\"members\":[\"a\"],\"v\":1}
[\"publish\",\"a\",\"x\"]
[\"admit\",\"a\",\"n\"]
[\"take\",\"n\"]
[\"sync\",\"a\",\"n\"]
[\"syncput\",\"a\"]
[\"stop\",\"a\"]
[\"synctake\",\"n\"]
[\"synctake\",\"n\"]
=> Done, status 0
ring view=2 term=1 master=a
member a stopped
casts 0 confirmed 0
publishes 1 confirmed 0
member n up missing=?
casts 0 confirmed 0
publishes 0 confirmed 0
==== That copy is over
check
{\"credit\":[8,4],\"members\":[\"a\"],\"v\":1}
[\"publish\",\"a\",\"x\"]
[\"admit\",\"a\",\"n\"]
[\"take\",\"n\"]
[\"sync\",\"a\",\"n\"]
[\"syncput\",\"a\"]
[\"stop\",\"a\"]
[\"synctake\",\"n\"]
[\"synctake\",\"n\"]
[\"synctake\",\"n\"]
=> Illegal { line: 10, code: 34 }, status 7
illegal 10 34
==== A second copy is refused, a grant comes, and all is put
check
{\"credit\":[1,1],\"members\":[\"a\"],\"v\":1}
[\"publish\",\"a\",\"x\"]
[\"admit\",\"a\",\"n\"]
[\"take\",\"n\"]
[\"sync\",\"a\",\"n\"]
[\"refuse\",31,\"sync\",\"a\",\"n\"]
[\"syncput\",\"a\"]
[\"synctake\",\"n\"]
[\"syncgain\",\"a\"]
[\"syncput\",\"a\"]
[\"syncput\",\"a\"]
=> Illegal { line: 11, code: 34 }, status 7
illegal 11 34
";

/// The streams of a call: how many bytes they move at once, and the calls of the source and of the sink that fail, or
/// 0.
#[derive(Clone, Copy)]
struct Streams {
    most: usize,
    read_fails: u32,
    write_fails: u32,
}

/// Streams that don't fail.
const SOUND: Streams = Streams {
    most: 4096,
    read_fails: 0,
    write_fails: 0,
};

/// How a call ended, and what it wrote.
#[derive(Drop)]
struct Called {
    ended: Ended,
    sink: MemorySink,
}

/// The words of a command line.
fn words_of(alloc: Global, line: &str) -> Result<Vec<Word>, Fail> {
    let mut words = Vec::new(alloc);
    for word in line.split_whitespace() {
        words.push(Word::new(alloc, word)?)?;
    }
    Ok(words)
}

/// The call of these words on this input.
fn call<R: Threads + Sync + AllocGlobal>(
    rt: &R,
    words: &str,
    input: Vec<u8>,
    streams: Streams,
) -> Result<Called, Fail> {
    call_at(rt, words, input, streams, &ShutGate)
}

/// The same, where members pass this gate.
fn call_at<R: Threads + Sync + AllocGlobal, G: Gate>(
    rt: &R,
    words: &str,
    input: Vec<u8>,
    streams: Streams,
    gate: &G,
) -> Result<Called, Fail> {
    let alloc = rt.alloc();
    let given = words_of(alloc, words)?;
    let Streams {
        most,
        read_fails,
        write_fails,
    } = streams;
    let mut source = MemorySource::new(input, most, vec![in alloc; read_fails]?);
    let mut sink = MemorySink::new(alloc, 1_048_576, most, vec![in alloc; write_fails]?)?;
    let ended = ring_call(rt, alloc, &given, &mut source, &mut sink, gate);
    Ok(Called { ended, sink })
}

/// The cause and the status of a call, and what it wrote.
fn told(alloc: Global, called: &Called) -> Result<String, Fail> {
    let Called { ended, sink } = called;
    let text = str::from_utf8(sink.bytes())?;
    Ok(format!(in alloc; "{:?}, status {}\n{text}", ended.cause, ended.status)?)
}

/// Whether a call counted what it wrote, and has a journal only where something was done.
fn is_whole(called: &Called) -> bool {
    let Called { ended, sink } = called;
    let counted = ended.written == sink.bytes().len() as u64;
    let done = ended.status == 0 || ended.status == 4;
    counted && (done || ended.cluster.is_none() && ended.journal.as_slice().is_empty())
}

/// How many events happen in a call that ends so, and writes so.
fn events_of<R: Threads + Sync + Abort + AllocGlobal>(
    rt: &R,
    words: &str,
    input: Vec<u8>,
    wanted: &str,
) -> Result<usize, Fail> {
    let called = call(rt, words, input, SOUND)?;
    assert_eq!(rt; told(rt.alloc(), &called)?.as_str(), wanted);
    assert!(rt; is_whole(&called));
    Ok(called.ended.journal.as_slice().len())
}

/// How many events happen in the call of a row, which ends as the row wants.
fn row_events<R: Threads + Sync + Abort + AllocGlobal>(rt: &R, row: &str) -> Result<usize, Fail> {
    let (asked, wanted) = row.split_once("=> ").ok_or("no answer")?;
    let (words, input) = asked.split_once('\n').ok_or("no words")?;
    events_of(rt, words, input.as_bytes().to_vec(rt.alloc())?, wanted)
}

/// The number with which a title begins, or 0.
fn number_in(title: &str) -> usize {
    match title.split_once(" events") {
        Some((number, _)) => number.parse::<usize>().unwrap_or(0),
        None => 0,
    }
}

/// Each call of a table ends as its row wants; with the number of events that its title has, where those count.
fn expect<R: Threads + Sync + Abort + AllocGlobal>(
    rt: &R,
    table: &str,
    count_events: bool,
) -> Result<(), Fail> {
    for row in table.split("==== ") {
        if let Some((title, row)) = row.split_once('\n') {
            let events = row_events(rt, row)?;
            assert!(rt; !count_events || events == number_in(title), "{title}");
        }
    }
    Ok(())
}

#[test]
fn plays_scripts(rt: HostRuntime) -> Result<(), Fail> {
    expect(&rt, SCRIPTS, false)
}

/// How often a member looks for another at most, before its first turn.
const LOOKS: u64 = 200_000_000;

/// Each of the two waits before its first turn until the other's has begun.
#[test]
fn members_of_a_script_take_turns_at_the_same_time(rt: HostRuntime) -> Result<(), Fail> {
    let gate = MeetGate::new(MemberId(1), MemberId(2), LOOKS);
    let script = b"members a b\ncast a x\ncast b y\n".to_vec(rt.alloc())?;
    let called = call_at(&rt, "play", script, SOUND, &gate)?;
    assert_eq!(&rt; called.ended.status, 0);
    assert!(&rt; gate.met());
    Ok(())
}

#[test]
fn takes_steps(rt: HostRuntime) -> Result<(), Fail> {
    expect(&rt, STEPS, true)
}

#[test]
fn plays_load_scripts(rt: HostRuntime) -> Result<(), Fail> {
    expect(&rt, LOADS, false)
}

#[test]
fn judges_journals(rt: HostRuntime) -> Result<(), Fail> {
    expect(&rt, JOURNALS, false)
}

#[test]
fn tells_the_first_fault(rt: HostRuntime) -> Result<(), Fail> {
    expect(&rt, FAULTS, false)
}

/// A line of so many bytes, without its end.
fn endless_line(alloc: Global, len: usize) -> Result<Vec<u8>, Fail> {
    let block = [b'x'; 4096];
    let mut line = Vec::new(alloc);
    for _block in 0..len / 4096 {
        line.extend_from_slice(&block)?;
    }
    for _place in 0..len % 4096 {
        line.push(b'x')?;
    }
    Ok(line)
}

/// A text of one member and so many lines, of which only the first is used.
fn long_text(alloc: Global, lines: u32) -> Result<Vec<u8>, Fail> {
    let mut text = b"members a\n".to_vec(alloc)?;
    for _line in 1..lines {
        text.push(b'\n')?;
    }
    Ok(text)
}

const TOO_LARGE: &str = "TooLarge, status 6\ntoo large\n";

#[test]
fn ends_at_the_most_bytes(rt: HostRuntime) -> Result<(), Fail> {
    for (len, wanted) in [
        (
            2_000,
            "Script { line: 1, kind: 61 }, status 2\nscript 1 61\n",
        ),
        (
            2_001,
            "Script { line: 1, kind: 51 }, status 2\nscript 1 51\n",
        ),
        (
            1_048_576,
            "Script { line: 1, kind: 51 }, status 2\nscript 1 51\n",
        ),
        (1_048_577, TOO_LARGE),
    ] {
        for word in ["play", "step"] {
            events_of(&rt, word, endless_line(rt.alloc(), len)?, wanted)?;
        }
    }
    Ok(())
}

#[test]
fn ends_at_the_most_lines(rt: HostRuntime) -> Result<(), Fail> {
    let report =
        "Done, status 0\nring view=1 term=1 master=a\nmember a up synced\ncasts 0 confirmed 0\n\
         publishes 0 confirmed 0\n";
    for (lines, wanted) in [(20_000, report), (20_001, TOO_LARGE)] {
        for word in ["play", "step"] {
            events_of(&rt, word, long_text(rt.alloc(), lines)?, wanted)?;
        }
    }
    Ok(())
}

/// A journal, and the report of its run.
const JOURNAL: &str =
    "{\"credit\":[8,4],\"members\":[\"a\"],\"v\":1}\n[\"cast\",\"a\",\"hi\"]\n[\"put\",\"a\"]\n[\"take\",\"a\"]\n";

/// How many lines end in these bytes.
fn ended_lines(bytes: &[u8]) -> u32 {
    let mut ended = 0u32;
    for byte in bytes {
        if *byte == b'\n' {
            ended = ended.saturating_add(1);
        }
    }
    ended
}

/// The journal cut after so many bytes is unreadable on the line in which it is cut, unless the cut is at a line's end or
/// before it.
fn cut_ends(rt: &(impl Threads + Sync + Abort + AllocGlobal), len: usize) -> Result<(), Fail> {
    let Some(front) = JOURNAL.as_bytes().get(..len) else {
        return Err(Fail::from("no such cut"));
    };
    let called = call(rt, "check", front.to_vec(rt.alloc())?, SOUND)?;
    let line = ended_lines(front).saturating_add(1);
    let cut = match (front.last(), JOURNAL.as_bytes().get(len)) {
        (None, _) => Cause::Unreadable { line: 1, kind: 72 },
        (Some(b'\n'), _) | (Some(_), Some(b'\n')) => Cause::Done,
        (Some(_), _) => Cause::Unreadable { line, kind: 70 },
    };
    assert_eq!(rt; called.ended.cause, cut, "cut after {len}");
    Ok(())
}

#[test]
fn judges_each_cut_of_a_journal(rt: HostRuntime) -> Result<(), Fail> {
    for len in 0..=JOURNAL.len() {
        cut_ends(&rt, len)?;
    }
    Ok(())
}

/// What `play --journal` writes of a script is a report, and a journal of which `check` writes the same report.
fn keeps_its_journal<R: Threads + Sync + Abort + AllocGlobal>(
    rt: &R,
    script: &str,
) -> Result<(), Fail> {
    let played = call(
        rt,
        "play --journal",
        script.as_bytes().to_vec(rt.alloc())?,
        SOUND,
    )?;
    let text = str::from_utf8(played.sink.bytes())?;
    let place = text.find('{').ok_or("no journal")?;
    let (report, journal) = text.split_at(place);
    let checked = call(rt, "check", journal.as_bytes().to_vec(rt.alloc())?, SOUND)?;
    assert_eq!(rt; checked.ended.cause, Cause::Done);
    assert_eq!(rt; str::from_utf8(checked.sink.bytes())?, report);
    assert_eq!(rt;
        checked.ended.journal.as_slice().len(),
        played.ended.journal.as_slice().len()
    );
    Ok(())
}

#[test]
fn keeps_journals_that_are_legal(rt: HostRuntime) -> Result<(), Fail> {
    for script in [
        THREE,
        "members a b c\ncast a x\ngo 2\nkill b\ncast b y\njoin c n\ncast n z\nsettle\nkill a\ncast n u\n",
        "members a\ncredit 2 1\ncast a x\nkill a\njoin a n\n",
    ] {
        keeps_its_journal(&rt, script)?;
    }
    Ok(())
}

#[test]
fn judges_no_larger_journal(rt: HostRuntime) -> Result<(), Fail> {
    for (len, wanted) in [
        (
            16_777_216,
            "Unreadable { line: 1, kind: 74 }, status 8\nunreadable 1 74\n",
        ),
        (16_777_217, TOO_LARGE),
    ] {
        events_of(&rt, "check", endless_line(rt.alloc(), len)?, wanted)?;
    }
    for (lines, wanted) in [
        (
            400_000,
            "Unreadable { line: 1, kind: 70 }, status 8\nunreadable 1 70\n",
        ),
        (400_001, TOO_LARGE),
    ] {
        events_of(&rt, "check", long_text(rt.alloc(), lines)?, wanted)?;
    }
    Ok(())
}

/// Whether a call ends by a fault of its source, and has done and written nothing.
fn is_unread(called: &Called) -> bool {
    called.ended.cause == Cause::ReadFault && called.ended.status == 3 && called.ended.written == 0
}

/// A script of three members.
const THREE: &str =
    "members a b c\ncast a a1\ncast b b1\ncast a a2\ncast b b2\ncast a a3\nsettle\n";

/// A source that would fail is no fault to what reads nothing.
#[test]
fn loads_beside_a_source_that_fails(rt: HostRuntime) -> Result<(), Fail> {
    let streams = Streams {
        most: 10,
        read_fails: 1,
        write_fails: 0,
    };
    let called = call(&rt, "load 2 0", Vec::new(rt.alloc()), streams)?;
    assert!(rt; called.ended.status == 0 && is_whole(&called));
    Ok(())
}

#[test]
fn ends_at_a_fault_of_the_source(rt: HostRuntime) -> Result<(), Fail> {
    for (word, input) in [("play", THREE), ("step", "members a\ncast a hi\n")] {
        for read_fails in [1, 2, 3] {
            let streams = Streams {
                most: 10,
                read_fails,
                write_fails: 0,
            };
            let called = call(&rt, word, input.as_bytes().to_vec(rt.alloc())?, streams)?;
            assert!(rt;
                is_unread(&called) && is_whole(&called),
                "{word} {read_fails}"
            );
        }
    }
    Ok(())
}

/// The report of two members that have published nothing.
const NOTHING: &str =
    "ring view=1 term=1 master=a\nmember a up synced\ncasts 0 confirmed 0\npublishes 0 confirmed 0\n\
     member b up synced\ncasts 0 confirmed 0\npublishes 0 confirmed 0\n";

/// The report of a sole member that has heard itself.
const HEARD: &str =
    "ring view=1 term=1 master=a\nmember a up synced\ncasts 1 confirmed 1\npublishes 0 confirmed 0\nheard a hi\n";

/// The summary of the smallest load script.
const LOADED: &str =
    "blocks 2\nmembers 3 up 2\ncasts 2 confirmed 2\npublishes 4 confirmed 4\nmaster m1 term 2 view 3\nready 2 unacked 0\n";

/// Whether a call ends by a fault of its sink, and has written so many bytes of that report.
fn is_unwritten(called: &Called, report: &str, written: u64) -> bool {
    let Called { ended, sink } = called;
    ended.cause == Cause::WriteFault
        && ended.status == 4
        && ended.written == written
        && report.as_bytes().starts_with(sink.bytes())
}

#[test]
fn ends_at_a_fault_of_the_sink(rt: HostRuntime) -> Result<(), Fail> {
    for (word, input, report) in [
        ("play", "members a b\n", NOTHING),
        ("play", "members a\ncast a hi\n", HEARD),
        ("step", "members a\ncast a hi\nput a\ntake a\n", HEARD),
        ("check", JOURNAL, HEARD),
        ("load 2 0", "", LOADED),
    ] {
        for write_fails in 1..=20 {
            let streams = Streams {
                most: 5,
                read_fails: 0,
                write_fails,
            };
            let called = call(&rt, word, input.as_bytes().to_vec(rt.alloc())?, streams)?;
            let written = u64::from(write_fails - 1) * 5;
            assert!(rt;
                is_unwritten(&called, report, written) && is_whole(&called),
                "{word} {write_fails}"
            );
        }
    }
    Ok(())
}

/// A `go` is one round of the cluster, and each settling at least another.
#[test]
fn goes_one_round(rt: HostRuntime) -> Result<(), Fail> {
    let script = b"members a\ngo 3\ngo 1000\n".to_vec(rt.alloc())?;
    let ended = call(&rt, "play", script, SOUND)?.ended;
    let Some(cluster) = &ended.cluster else {
        panic!(rt; "no cluster");
    };
    assert!(rt; 2 <= cluster.rounds() && cluster.rounds() <= 2 + 129);
    Ok(())
}

fn is_gain(event: &Event) -> bool {
    matches!(event, Event::Gain { .. })
}

/// A sole member puts two packets for each cast that settles: after each four its link's credit comes back,
/// so that a link that opened with 8 carries 12.
#[test]
fn gains_what_each_fourth_packet_grants(rt: HostRuntime) -> Result<(), Fail> {
    let script =
        b"members a\ncast a u\nsettle\ncast a v\nsettle\ncast a w\nsettle\ncast a x\nsettle\ncast a y\nsettle\n\
          cast a z\n";
    let ended = call(&rt, "play", script.to_vec(rt.alloc())?, SOUND)?.ended;
    let journal = ended.journal.as_slice();
    assert_eq!(rt; journal.len(), 33);
    let places = [10, 21, 32];
    for (place, event) in journal.iter().enumerate() {
        assert_eq!(rt; is_gain(event), places.contains(&place), "event {place}");
    }
    Ok(())
}

/// A script in which so many members, m0 and on, cast so many short bodies in turn, and settle.
fn busy_script(alloc: Global, members: u32, casts: u32) -> Result<Vec<u8>, Fail>
    requires { 0 < members }
{
    let mut text = String::from_str(alloc, "members")?;
    for place in 0..members {
        let name = format!(in alloc; " m{place}")?;
        text.push_str(name.as_str())?;
    }
    for turn in 0..casts {
        let by = turn % members;
        let line = format!(in alloc; "\ncast m{by} x{turn}")?;
        text.push_str(line.as_str())?;
    }
    text.push_str("\nsettle\n")?;
    Ok(text.as_bytes().to_vec(alloc)?)
}

/// Whether a line that begins so ends in the same number twice.
fn confirms_all(line: &str, beginning: &str) -> bool {
    match line.strip_prefix(beginning) {
        Some(counts) => match counts.split_once(" confirmed ") {
            Some((all, confirmed)) => all == confirmed,
            None => false,
        },
        None => true,
    }
}

#[test]
fn settles_a_full_ring(rt: HostRuntime) -> Result<(), Fail> {
    let script = busy_script(rt.alloc(), 64, 500)?;
    let called = call(&rt, "play", script, SOUND)?;
    let mut heard = 0u32;
    for line in str::from_utf8(called.sink.bytes())?.lines() {
        assert!(rt; confirms_all(line, "casts "), "at {line}");
        assert!(rt; confirms_all(line, "publishes "), "at {line}");
        heard = heard.saturating_add(u32::from(line.starts_with("heard ")));
    }
    assert_eq!(rt; heard, 64 * 500);
    Ok(())
}
