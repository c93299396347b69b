//! A member of the plain machine.
ghost use Rattle.std.specs.Prelude.{◌≡◌, ℕ, ◌+◌, ◌^◌, ◌<◌, ◌≤◌, true, length, map};
ghost use Rattle.queue_sync.specs.Copy.{copied_mirror};
ghost use Rattle.std.specs.Prelude.{bytes_eq, take, vec_len, vec_capacity, IfOk, OnOk, OnErr};
ghost use Rattle.std.specs.List.{range_with_len};
ghost use Rattle.ring_rules.specs.Rows.{no_row, published_row, taken_with};
ghost use Rattle.ring_rules.specs.Machine.{row_at, numbers_at as the_numbers};
ghost use Rattle.ring_rules.specs.Step.{published as is_published, begun_row, begun, copied};
ghost use Rattle.ring_world.specs.Shows.{followed};
ghost use Rattle.ring_world.specs.Shows.{row_of, row_in, member_of, packet_of, room_of, with_news, news_of};
ghost use Rattle.ring_world.specs.Shows.{news_in, looked, HasRoom, operations_in};

use crate::operations::{apply_all, is_start, operation_of, operations, tells};
use crate::plain_link::Packet;
use queue_core::{Message, Op};
use queue_mirror::Mirror;
use queue_sync::{SyncFault, SyncIn};
use ring_names::{Name, OutOfMemory};
use ring_rules::{Numbers, Phase, numbers_at};
use std::alloc::Global;

/// What a member knows of one origin.
#[derive(Drop)]
pub struct KnownOrigin {
    pub(crate) got: u64,
    pub(crate) forgot: u64,
    pub(crate) retired: u64,
    pub(crate) heard: Vec<Message>,
    pub(crate) base: u64,
    pub(crate) born: u64,
}

/// A member with its log and its rows by origins' ids, of which place 0 has nobody's; where among the links
/// the one stands on which it sends, and the one from which it takes; and its mirror of the queue, whether it
/// has published its start as a master, the version that its view had when it last told how many messages there
/// are, and whether it was there from the opening. Of an origin that was admitted after its last take it has no
/// row yet, and knows nothing.
#[derive(Drop)]
pub struct PlainMember {
    pub(crate) name: Name,
    pub(crate) phase: Phase,
    pub(crate) version: u32,
    pub(crate) log: Vec<Message>,
    pub(crate) rows: Vec<KnownOrigin>,
    pub(crate) out: Option<usize>,
    pub(crate) current: Option<usize>,
    pub(crate) mirror: Mirror,
    pub(crate) started: bool,
    pub(crate) told: u32,
    pub(crate) whole: bool,
}

/// What a packet brings of one origin, and whether the taker answers for it.
#[derive(Drop)]
pub struct Brought {
    pub(crate) own: bool,
    pub(crate) messages: Vec<Message>,
}

impl KnownOrigin {
    fn opening(alloc: Global) -> KnownOrigin
        ensures { row_of result ≡ no_row }
    {
        KnownOrigin::born(alloc, 0)
    }

    /// What one that joins knows of an origin that has published so many messages.
    pub(crate) fn born(alloc: Global, published: u64) -> KnownOrigin
        ensures { row_of result ≡ record no_row { born = published } }
    {
        KnownOrigin {
            got: 0,
            forgot: 0,
            retired: 0,
            heard: Vec::new(alloc),
            base: 0,
            born: published,
        }
    }

    /// Counts one more message of the member's own, and keeps it.
    fn publish(&mut self, message: Message) -> Result<(), OutOfMemory>
        requires { self.old.got + 1 < 2 ^ 64 }
        ensures ok { OnOk result (row_of self.new ≡ published_row (row_of self.old) message) }
        ensures err { OnErr result (row_of self.new ≡ row_of self.old) }
    {
        self.heard.push(message)?;
        self.got += 1;
        Ok(())
    }

    /// Makes room for so many more messages.
    fn reserve(&mut self, count: usize) -> Result<(), OutOfMemory>
        ensures same { row_of self.new ≡ row_of self.old }
        ensures room { OnOk result (count ≤ room_of self.new) }
    {
        self.heard.reserve(count)?;
        Ok(())
    }

    /// Takes in what a packet says of the origin, where there is room for its news.
    fn take(&mut self, numbers: Numbers, news: &mut Brought)
        requires { vec_len self.old.heard + vec_len news.old.messages
            ≤ vec_capacity self.old.heard }
        ensures { row_of self.new ≡ taken_with news.old.own (row_of self.old) numbers
            news.old.messages.items }
    {
        if news.own {
            self.forgot = numbers.got;
            self.retired = numbers.forgot;
            return;
        }
        self.got = numbers.got;
        self.forgot = numbers.forgot;
        if self.heard.append(&mut news.messages).is_err() {
            unreachable!()
        }
    }

    /// Takes in what the first packet says of the origin, from which on its messages are received.
    fn begin(&mut self, numbers: Numbers)
        ensures { row_of self.new ≡ begun_row (row_of self.old) numbers }
    {
        self.got = numbers.got;
        self.forgot = numbers.forgot;
        self.base = numbers.got;
    }
}

impl Brought {
    fn count(&self) -> usize
        ensures { result ≡ length (news_of self.now).messages }
    {
        self.messages.len()
    }
}

impl PlainMember {
    pub(crate) fn is_named(&self, name: &Name) -> bool
        ensures { result ≡ bytes_eq self.now.name name.now }
    {
        self.name.bytes() == name.bytes()
    }

    /// How much of an origin's log it got and how much it forgot.
    pub(crate) fn got_and_forgot(&self, id: usize) -> (u64, u64)
        ensures got { result.0 ≡ (row_at (member_of self.now) id).got }
        ensures forgot { result.1 ≡ (row_at (member_of self.now) id).forgot }
    {
        match self.rows.get(id) {
            Some(row) => (row.got, row.forgot),
            None => (0, 0),
        }
    }

    /// It has the view of a version, and this current link.
    pub(crate) fn look(&mut self, version: u32, current: Option<usize>)
        ensures { member_of self.new ≡ looked version current (member_of self.old) }
    {
        self.version = version;
        self.current = current;
    }

    /// How much of an origin's log it retired.
    pub(crate) fn retired(&self, id: usize) -> u64
        ensures { result ≡ (row_at (member_of self.now) id).retired }
    {
        match self.rows.get(id) {
            Some(row) => row.retired,
            None => 0,
        }
    }

    /// Publishes a message; the member's id is given. Its mirror takes what is done to the queue.
    #[tactic(auto, using(crate::proofs::code::Rules::publishing_rows))]
    pub(crate) fn publish(&mut self, id: usize, message: Message) -> Result<(), OutOfMemory>
        requires row { id < length self.old.rows.items }
        requires own { (row_at (member_of self.old) id).got ≡ length self.old.log.items }
        ensures ok { OnOk result (member_of self.new
            ≡ is_published id message (member_of self.old)) }
        ensures err { OnErr result (member_of self.new ≡ member_of self.old) }
    {
        let heard = message.copy()?;
        let operation = operation_of(&message)?;
        self.mirror.reserve(1)?;
        self.log.reserve(1)?;
        self.rows[id].publish(heard)?;
        self.log.push_reserved(message);
        self.follow(operation);
        Ok(())
    }

    /// Its mirror takes an operation that it has published, if there is one, for which there is room.
    fn follow(&mut self, operation: Option<Op>)
        requires { 0 < (self.old).mirror.room }
        ensures { member_of self.new ≡ followed operation (member_of self.old) }
    {
        let Some(operation) = operation else {
            return;
        };
        self.started = self.started || is_start(&operation);
        if tells(&operation) {
            self.told = self.version;
        }
        self.mirror.apply_reserved(operation);
    }

    /// Its mirror is what was taken of a copy, with the operations behind the mark: it is whole.
    pub(crate) fn copy(&mut self, taken: &mut SyncIn) -> Result<(), OutOfMemory>
        requires { (taken.old).marked ≡ true }
        ensures ok { OnOk result (member_of self.new ≡ copied
            (copied_mirror (member_of self.old).mirror (taken.old).aside (taken.old).since) (member_of self.old)) }
        ensures err { OnErr result (member_of self.new ≡ member_of self.old) }
    {
        match taken.done(&mut self.mirror) {
            Ok(()) => {
                self.whole = true;
                Ok(())
            }
            Err(SyncFault::OutOfMemory) => Err(OutOfMemory),
            Err(SyncFault::Refused(_)) => unreachable!(),
        }
    }

    /// Takes in a packet with what it brings of each origin, the queue's operations among it.
    pub(crate) fn take(
        &mut self,
        alloc: Global,
        packet: &Packet,
        news: &mut [Brought],
    ) -> Result<(), OutOfMemory>
        requires { length self.old.rows.items ≤ length news.old }
        ensures ok { OnOk result (member_of self.new ≡ with_news (member_of self.old)
            (map (λ p. taken_with (news_in news.old p).own (row_at (member_of self.old) p)
            (the_numbers (packet_of packet.now) p) (news_in news.old p).messages)
            (range_with_len 0 (length news.old))) (operations_in (map news_of news.old))) }
        ensures err { OnErr result (member_of self.new ≡ member_of self.old) }
    {
        let taken = operations(alloc, news)?;
        self.mirror.reserve(taken.len())?;
        make_ready(alloc, &mut self.rows, news)?;
        take_rows(&mut self.rows, packet, news);
        apply_all(&mut self.mirror, taken);
        Ok(())
    }

    /// Takes in its first packet, in a ring of ids below `size`: it is up.
    pub(crate) fn begin(
        &mut self,
        alloc: Global,
        size: usize,
        packet: &Packet,
    ) -> Result<(), OutOfMemory>
        requires { length self.old.rows.items ≤ size }
        ensures ok { OnOk result (member_of self.new
            ≡ begun size (member_of self.old) (packet_of packet.now)) }
        ensures err { OnErr result (member_of self.new ≡ member_of self.old) }
    {
        pad_rows(alloc, &mut self.rows, size)?;
        begin_rows(&mut self.rows, packet);
        self.phase = Phase::Up;
        self.whole = false;
        Ok(())
    }
}

/// Rows that say nothing join these, until there are so many.
#[tactic(auto, using(crate::proofs::code::Rules::padding))]
fn pad_rows(alloc: Global, rows: &mut Vec<KnownOrigin>, size: usize) -> Result<(), OutOfMemory>
    requires { length rows.old.items ≤ size }
    ensures known { OnOk result (take (length rows.old.items) (map row_of rows.new.items)
        ≡ map row_of rows.old.items) }
    ensures size { OnOk result (length rows.new.items ≡ size) }
    ensures same { OnOk result ((p : ℕ) → row_in rows.new.items p ≡ row_in rows.old.items p) }
    ensures err { OnErr result (map row_of rows.new.items ≡ map row_of rows.old.items) }
{
    rows.reserve(size - rows.len())?;
    for _id in rows.len()..size {
        rows.push_reserved(KnownOrigin::opening(alloc));
    }
    Ok(())
}

/// So many rows that say nothing.
pub(crate) fn opening_rows(alloc: Global, size: usize) -> Result<Vec<KnownOrigin>, OutOfMemory>
    ensures { IfOk result (λ v. map row_of v.items
        ≡ map (λ (_ : ℕ). no_row) (range_with_len 0 size)) }
{
    let mut rows = Vec::new(alloc);
    for _id in 0..size {
        rows.push(KnownOrigin::opening(alloc))?;
    }
    Ok(rows)
}

/// Makes room in each row for its news.
#[tactic(auto, using(crate::proofs::code::ShownParts::rewrite_row))]
fn make_room(rows: &mut [KnownOrigin], news: &[Brought]) -> Result<(), OutOfMemory>
    requires { length rows.old ≡ length news.now }
    ensures same { map row_of rows.new ≡ map row_of rows.old }
    ensures room { OnOk result (HasRoom rows.new news.now) }
{
    for k in 0..rows.len() {
        rows[k].reserve(news[k].count())?;
    }
    Ok(())
}

/// Makes a row for each origin, with room for its news.
fn make_ready(
    alloc: Global,
    rows: &mut Vec<KnownOrigin>,
    news: &[Brought],
) -> Result<(), OutOfMemory>
    requires { length rows.old.items ≤ length news.now }
    ensures size { OnOk result (length rows.new.items ≡ length news.now) }
    ensures same { OnOk result ((p : ℕ) → row_in rows.new.items p ≡ row_in rows.old.items p) }
    ensures room { OnOk result (HasRoom rows.new.items news.now) }
    ensures err { OnErr result (map row_of rows.new.items ≡ map row_of rows.old.items) }
{
    let known = rows.len();
    pad_rows(alloc, rows, news.len())?;
    if make_room(rows, news).is_err() {
        rows.truncate(known);
        return Err(OutOfMemory);
    }
    Ok(())
}

/// Each row takes in its part of a packet.
fn take_rows(rows: &mut [KnownOrigin], packet: &Packet, news: &mut [Brought])
    requires lengths { length rows.old ≡ length news.old }
    requires room { HasRoom rows.old news.old }
    ensures { map row_of rows.new
        ≡ map (λ p. taken_with (news_in news.old p).own (row_in rows.old p)
        (the_numbers (packet_of packet.now) p) (news_in news.old p).messages)
        (range_with_len 0 (length rows.old)) }
{
    for k in 0..rows.len() {
        rows[k].take(numbers_at(&packet.numbers, k), &mut news[k]);
    }
}

/// Each row begins with its part of a first packet.
fn begin_rows(rows: &mut [KnownOrigin], packet: &Packet)
    ensures { map row_of rows.new
        ≡ map (λ p. begun_row (row_in rows.old p) (the_numbers (packet_of packet.now) p))
        (range_with_len 0 (length rows.old)) }
{
    for k in 0..rows.len() {
        rows[k].begin(numbers_at(&packet.numbers, k));
    }
}
