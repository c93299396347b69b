//! A member by itself, over the ends of plain pairs, played from texts: what no cluster shows of it, as a cluster asks
//! only where it may. A tale begins with its name, the member's id, the names of its ring and, where its view has one,
//! the dead. In each further line a word says what the member does or what is read of it, and behind the arrow stands
//! what is wanted to be seen then; no arrow stands where a call is only done, or a refusal isn't there. Only the first
//! of them may want the end on which the member sends. Want of memory ends a test with that error.
ghost use Rattle.std.specs.Prelude.{◌≡◌, ◌<◌, true, false, IfOk, OnOk};
ghost use Rattle.group_view.specs.Ring.{is_in};
ghost use Rattle.ring_rules.specs.View.{ids};
ghost use Rattle.ring_names.specs.declared.numbers.Stamp.{Stamp as AStamp};
ghost use Rattle.lamport_merge.specs.Recorder.{is_used_up, is_late};
ghost use Rattle.gm_member.specs.Shown.{held_of, recorded_of, spare_of, OutIsBack, InIsReady};
ghost use Rattle.gm_member.specs.Questions.{OfView};

use activity::Load;
use gm_member::{Ask, Member, MemberFault};
use group_view::{Answer, Deposited, LinkKind, Request, View, are_opening_names};
use ordered_link::{Grant, PlainIn, PlainOut, plain_pair};
use queue_core::Message;
use ring_names::{Body, CreditSpec, Items, MemberId, Name, OutOfMemory, Reason, Stamp};
use std::alloc::Global;
use std::fmt::Debug;
use std::process::Abort;
use std::test::Fail;

/// The member that is tried.
type Node = Member<PlainOut<Load>, PlainIn<Load>>;

/// One packet, which brings a grant.
const CREDIT: CreditSpec = CreditSpec {
    initial: 1,
    more: 1,
};

/// The members that are played, an empty line between two.
const TALES: &str = "
knows what it publishes: 1 of a
phase -> Up
version -> 1
keeps 1 -> None
confirmed -> 0
put_refusal -> refused 16 NothingNew
pick -> refused 43 HasCurrentLink
publish hi -> 1
entries -> 1
put_refusal
keeps 1 -> Some((0, 1))
confirmed -> 0
gain

is refused a grant that is not there: 1 of a
gain_refusal -> refused 37 NoGrant

puts nothing that is known: 1 of a
put -> refused 16 NothingNew

stops once: 1 of a
stop
entries -> 1
phase -> Stopped
gain -> refused 12 Stopped
entries -> 0
pick -> refused 12 Stopped
put_refusal -> refused 12 Stopped

sends to another in a newer view: 2 of a b c
refresh 3 -> deposit of 2 for 1 in 2
version -> 2
out_name -> Some(LinkName { from: MemberId(2), to: MemberId(1), view: 2, kind: Ring })
old_out -> Some(LinkName { from: MemberId(2), to: MemberId(3), view: 1, kind: Ring })
old_out -> None
old_in -> None

reads the view that is answered: 2 of a b c
viewed 3 mark 3 -> deposit of 2 for 1 in 2
version -> 2
pick -> refused 43 HasCurrentLink

lends an end to each place: 2 of a b c
in_name 0 -> Some(LinkName { from: MemberId(1), to: MemberId(2), view: 1, kind: Ring })
in_name 1 -> None
lend 1 -> false
lend_and_give -> true
lend 0 -> true
lend 0 -> false

reads no older view: 2 of a b c without 3
refresh_refusal 1 -> refused 25 ViewOutOfRange { asked: 1, held: 2, newest: 2 }
refresh_refusal 2

asks one question at a time: 2 of a b c
ask mark 1 -> Mark { by: MemberId(2), dead: MemberId(1), view: 1, has_current: true }
ask refresh -> refused 19 AwaitingAnswer
ask collect -> refused 19 AwaitingAnswer
pick -> refused 19 AwaitingAnswer
make_room 2

has another admitted: 2 of a b c
admitted d -> deposit of 2 for 4 in 2
version -> 2
out_name -> Some(LinkName { from: MemberId(2), to: MemberId(4), view: 2, kind: Ring })
old_out -> Some(LinkName { from: MemberId(2), to: MemberId(3), view: 1, kind: Ring })
old_in -> None

is answered no: 2 of a b c
denied refresh -> nothing
ask collect -> Collect { by: MemberId(2) }

collects only the links of its left neighbour: 2 of a b c
collect 1 1 -> nothing
in_name 1 -> Some(LinkName { from: MemberId(1), to: MemberId(2), view: 1, kind: Ring })
in_name 2 -> None
collect 3 1 -> nothing
in_name 2 -> None
old_in -> Some(LinkName { from: MemberId(3), to: MemberId(2), view: 1, kind: Ring })

picks a link that it collected: 2 of a b c
viewed 1 refresh -> nothing
old_in -> Some(LinkName { from: MemberId(1), to: MemberId(2), view: 1, kind: Ring })
collect 3 2 -> nothing
pick
in_name 0 -> Some(LinkName { from: MemberId(3), to: MemberId(2), view: 2, kind: Ring })
in_name 1 -> None
pick -> refused 43 HasCurrentLink
";

/// One that joins a ring of a, b, c as d, whom b has admitted: what it shows before the link to it has met its other
/// end.
const JOINS: &str = "
take -> refused 17 NothingToTake
phase -> Waiting
version -> 2
in_name 0 -> Some(LinkName { from: MemberId(2), to: MemberId(4), view: 2, kind: Ring })
in_name 1 -> None
out_name -> None
keeps 2 -> None
publish hi -> refused 13 Waiting
put_refusal -> refused 13 Waiting
pick -> refused 13 Waiting
ask refresh -> refused 13 Waiting
refresh_refusal 2 -> refused 13 Waiting
lend_and_give -> true
old_in -> None
";

/// The word that a line begins with, and what follows it.
fn first_word(line: &str) -> (&str, &str) {
    line.split_once(' ').unwrap_or((line, ""))
}

/// The id that a text writes.
fn id_of(text: &str) -> Result<MemberId, Fail> {
    Ok(MemberId(text.parse::<u32>()?))
}

/// The question that a line writes.
fn question(line: &str) -> Result<Ask, Fail> {
    match first_word(line) {
        ("mark", dead) => Ok(Ask::Mark(id_of(dead)?)),
        ("refresh", _) => Ok(Ask::Refresh),
        _ => Ok(Ask::Collect),
    }
}

/// What is seen of a value.
fn seen<T: Debug>(alloc: Global, value: &T) -> Result<String, Fail> {
    Ok(format!(in alloc; "{value:?}")?)
}

/// What is seen of a call; want of memory ends the test.
fn told<T: Debug + Drop>(alloc: Global, answer: Result<T, MemberFault>) -> Result<String, Fail> {
    match answer {
        Ok(value) => seen(alloc, &value),
        Err(MemberFault::Refused(reason)) => {
            Ok(format!(in alloc; "refused {} {reason:?}", reason.code())?)
        }
        Err(MemberFault::OutOfMemory) => Err(OutOfMemory)?,
    }
}

/// What is seen of a refusal that is told before its call.
fn refusal(alloc: Global, reason: Option<Reason>) -> Result<String, Fail> {
    match reason {
        Some(reason) => told(alloc, Err::<(), MemberFault>(MemberFault::Refused(reason))),
        None => told(alloc, Ok(())),
    }
}

/// What is seen of the requests that follow, of which there is one at most.
fn requests_seen(alloc: Global, requests: &[Request<PlainIn<Load>>]) -> Result<String, Fail> {
    match requests {
        [] => Ok(format!(in alloc; "nothing")?),
        [
            Request::Deposit {
                by,
                to,
                view,
                kind: LinkKind::Ring,
                ..
            },
        ] => Ok(format!(in alloc; "deposit of {} for {} in {view}", by.0, to.0)?),
        _ => Err(Fail::new("other requests")),
    }
}

/// The name of this text.
fn name(text: &str) -> Result<Name, Fail> {
    Ok(Name::read(text.as_bytes())?)
}

/// The names that a line lists.
fn names(alloc: Global, line: &str) -> Result<Vec<Name>, Fail> {
    let mut names = Vec::new(alloc);
    for text in line.split(' ') {
        names.push(name(text)?)?;
    }
    Ok(names)
}

/// The view in which a ring opens.
fn opening(rt: &impl Abort, alloc: Global, members: &str) -> Result<View, Fail> {
    let names = names(alloc, members)?;
    assert!(rt; are_opening_names(&names));
    Ok(View::opening(alloc, &names)?)
}

/// The view that a line writes: the names of a ring, and the id of the one who has died since.
fn view_of(rt: &impl Abort, alloc: Global, line: &str) -> Result<View, Fail> {
    match line.split_once(" without ") {
        Some((members, dead)) => {
            let mut view = opening(rt, alloc, members)?;
            view.mark_dead(id_of(dead)?)?;
            Ok(view)
        }
        None => opening(rt, alloc, line),
    }
}

/// A member of that id with this view, over the ends of a pair of its own.
fn founding(rt: &impl Abort, alloc: Global, id: MemberId, view: View) -> Result<Node, Fail>
    ensures { IfOk result (λ m. OutIsBack m) }
{
    assert!(rt; id.0 >= 1 && id.0 <= 64 && view.has_entry(id));
    let me = name("me")?;
    let (out, link) = plain_pair(alloc, CREDIT)?;
    Ok(Member::founding(alloc, me, id, view, CREDIT, out, link)?)
}

/// The member that a line writes. It has the name and the id with which it was founded.
fn founded(rt: &impl Abort, alloc: Global, line: &str) -> Result<Node, Fail>
    ensures { IfOk result (λ m. OutIsBack m) }
{
    let (id, members) = line.split_once(" of ").ok_or("no member")?;
    let id = id_of(id)?;
    let node = founding(rt, alloc, id, view_of(rt, alloc, members)?)?;
    assert!(rt; node.name().bytes() == b"me".as_slice() && node.id() == id);
    Ok(node)
}

/// The view that follows the member's own, in which another is dead.
fn next_view(rt: &impl Abort, node: &Node, dead: &str) -> Result<View, Fail>
    ensures { IfOk result (λ v. is_in (held_of node.now).id (ids v) ≡ true) }
{
    let mut view = node.view().copy()?;
    view.mark_dead(id_of(dead)?)?;
    assert!(rt; view.has_entry(node.id()));
    Ok(view)
}

/// The member reads the next view.
fn refresh(rt: &impl Abort, alloc: Global, node: &mut Node, dead: &str) -> Result<String, Fail>
    requires { OutIsBack node.old }
{
    let view = next_view(rt, node, dead)?;
    match node.refresh(view) {
        Ok(requests) => requests_seen(alloc, &requests),
        Err((_, fault)) => told(alloc, Err::<(), MemberFault>(fault)),
    }
}

/// The member asks, and is answered this.
fn settle(
    alloc: Global,
    node: &mut Node,
    what: Ask,
    answer: Answer<PlainIn<Load>>,
) -> Result<String, Fail>
    requires { OfView answer (λ _. OutIsBack node.old) }
{
    node.ask(what)?;
    match node.answer(answer) {
        Ok(requests) => requests_seen(alloc, &requests),
        Err((_, fault)) => Err(fault)?,
    }
}

/// The view that follows the member's own, in which it has admitted one of this name, and the id of that one.
fn with_newcomer(node: &Node, newcomer: Name) -> Result<(View, MemberId), Fail> {
    let mut view = node.view().copy()?;
    let id = view.admit(node.id(), newcomer)?;
    Ok((view, id))
}

/// The member asks to admit one of that name, and is answered the view in which it has.
fn have_admitted(alloc: Global, node: &mut Node, line: &str) -> Result<String, Fail>
    requires { OutIsBack node.old }
{
    let newcomer = name(line)?;
    let (view, id) = with_newcomer(node, newcomer)?;
    settle(
        alloc,
        node,
        Ask::Admit(newcomer),
        Answer::Admitted { view, id },
    )
}

/// The member asks, and is answered the next view.
fn be_answered(rt: &impl Abort, alloc: Global, node: &mut Node, line: &str) -> Result<String, Fail>
    requires { OutIsBack node.old }
{
    let (dead, what) = first_word(line);
    let view = next_view(rt, node, dead)?;
    settle(alloc, node, question(what)?, Answer::Viewed(view))
}

/// The member is alone in a round, and has room to record what it does next.
fn be_alone(node: &mut Node) -> Result<(), Fail>
    ensures lasts { OnOk result (is_used_up (recorded_of node.new) ≡ false) }
    ensures early { OnOk result ((stamp : AStamp) → is_late (recorded_of node.new) stamp ≡ false) }
    ensures room { OnOk result (0 < spare_of node.new) }
    ensures out { OutIsBack node.old → OutIsBack node.new }
    ensures link { InIsReady node.old → InIsReady node.new }
{
    node.begin(1, true, 1)?;
    Ok(())
}

/// The member puts a packet.
fn put(alloc: Global, node: &mut Node) -> Result<String, Fail>
    requires { OutIsBack node.old }
{
    be_alone(node)?;
    told(alloc, node.put())
}

/// The member stops.
fn stop(alloc: Global, node: &mut Node) -> Result<String, Fail>
    requires { OutIsBack node.old }
{
    be_alone(node)?;
    told(alloc, node.stop())
}

/// The member takes a packet.
fn take(alloc: Global, node: &mut Node) -> Result<String, Fail>
    requires { InIsReady node.old }
{
    be_alone(node)?;
    told(alloc, node.take())
}

/// The member gains the credit of one packet.
fn gain(alloc: Global, node: &mut Node) -> Result<String, Fail> {
    be_alone(node)?;
    let stamp = Stamp {
        round: 1,
        time: 0,
        party: 2,
    };
    told(alloc, node.gain(Grant { amount: 1, stamp }))
}

/// The member picks a link.
fn pick(alloc: Global, node: &mut Node) -> Result<String, Fail> {
    be_alone(node)?;
    told(alloc, node.pick())
}

/// How many entries its log has.
fn entries(node: &Node) -> usize {
    node.local_log().entries().len()
}

/// What is seen of the first line of a member.
fn begin(rt: &impl Abort, alloc: Global, node: &mut Node, line: &str) -> Result<String, Fail>
    requires { OutIsBack node.old }
{
    match first_word(line) {
        ("gain_refusal", _) => refusal(alloc, node.gain_refusal()),
        ("put", _) => put(alloc, node),
        ("stop", _) => stop(alloc, node),
        ("refresh", dead) => refresh(rt, alloc, node, dead),
        ("viewed", line) => be_answered(rt, alloc, node, line),
        ("admitted", newcomer) => have_admitted(alloc, node, newcomer),
        _ => show(rt, alloc, node, line),
    }
}

/// The member multicasts this text.
fn cast(alloc: Global, node: &mut Node, text: &str) -> Result<String, Fail> {
    let body = Body::read(alloc, text.as_bytes())?;
    be_alone(node)?;
    match node.publish(Message::Cast(body)) {
        Ok(number) => seen(alloc, &number),
        Err((_, fault)) => told(alloc, Err::<u64, MemberFault>(fault)),
    }
}

/// The links that the registrar hands over: one of the ring, from a member in a version.
fn one_link(
    alloc: Global,
    from: MemberId,
    view: u32,
) -> Result<Items<Deposited<PlainIn<Load>>>, Fail> {
    let (_, link) = plain_pair::<Load>(alloc, CREDIT)?;
    let mut links = Vec::new(alloc);
    links.push(Deposited {
        from,
        view,
        kind: LinkKind::Ring,
        link,
    })?;
    Ok(Items::from_vec(links))
}

/// The member collects such a link.
fn collect(alloc: Global, node: &mut Node, line: &str) -> Result<String, Fail> {
    let (from, view) = first_word(line);
    let links = one_link(alloc, id_of(from)?, view.parse::<u32>()?)?;
    settle(alloc, node, Ask::Collect, Answer::Links(links))
}

/// The member asks, and is answered that it is unknown.
fn be_denied(alloc: Global, node: &mut Node, line: &str) -> Result<String, Fail> {
    settle(
        alloc,
        node,
        question(line)?,
        Answer::No(Reason::UnknownMember),
    )
}

/// The member makes room for so many links.
fn make_room(alloc: Global, node: &mut Node, links: &str) -> Result<String, Fail> {
    node.make_room(links.parse::<usize>()?)?;
    told(alloc, Ok(()))
}

/// Whether the end of the link from which the member takes is lent, and given back.
fn lend_and_give(node: &mut Node) -> bool {
    if node.in_name(0).is_none() {
        return false;
    }
    match node.lend_in(0) {
        Some(link) => {
            node.give_in(0, link);
            true
        }
        None => false,
    }
}

/// What a member shows when it does what a line says.
fn show(rt: &impl Abort, alloc: Global, node: &mut Node, line: &str) -> Result<String, Fail> {
    match first_word(line) {
        ("publish", text) => cast(alloc, node, text),
        ("gain", _) => gain(alloc, node),
        ("pick", _) => pick(alloc, node),
        ("make_room", links) => make_room(alloc, node, links),
        ("ask", what) => told(alloc, node.ask(question(what)?)),
        ("denied", what) => be_denied(alloc, node, what),
        ("collect", link) => collect(alloc, node, link),
        (what, rest) => show_ends(rt, alloc, node, what, rest),
    }
}

/// What it shows when something is done to the ends of its links.
fn show_ends(
    rt: &impl Abort,
    alloc: Global,
    node: &mut Node,
    what: &str,
    rest: &str,
) -> Result<String, Fail> {
    match what {
        // The end of the link from which it takes is lent, and given back.
        "lend_and_give" => seen(alloc, &lend_and_give(node)),
        // The end at that place is lent, and stays away.
        "lend" => seen(alloc, &node.lend_in(rest.parse::<u32>()?).is_some()),
        "old_out" => seen(alloc, &node.old_out().map(|(name, _)| name)),
        "old_in" => seen(alloc, &node.old_in().map(|(name, _)| name)),
        _ => read(alloc, node, what, rest),
    }
}

/// What is read of a member: of its links, of its refusals, and what it knows.
fn read(alloc: Global, node: &Node, what: &str, rest: &str) -> Result<String, Fail> {
    match what {
        "out_name" => seen(alloc, &node.out_name()),
        "in_name" => seen(alloc, &node.in_name(rest.parse::<u32>()?)),
        "put_refusal" => refusal(alloc, node.put_refusal()),
        "refresh_refusal" => refusal(alloc, node.refresh_refusal(rest.parse::<u32>()?)),
        "version" => seen(alloc, &node.view().version),
        "phase" => seen(alloc, &node.phase()),
        // The numbers up to which it has forgotten the messages of that member, and has them.
        "keeps" => seen(alloc, &keeps(node, id_of(rest)?)),
        "confirmed" => seen(alloc, &node.confirmed()),
        // What it did in its round: how many entries its log has.
        "entries" => seen(alloc, &entries(node)),
        _ => Err(Fail::new("no such line")),
    }
}

/// The numbers up to which it has forgotten the messages of a member, and has them.
fn keeps(node: &Node, of: MemberId) -> Option<(u64, u64)> {
    let table = node.tables().table(of)?;
    Some((table.store.forgot(), table.store.got()))
}

/// The member d that joins a ring of a, b, c, admitted by b, over an end of a pair of its own.
fn joined(rt: &impl Abort, alloc: Global) -> Result<Node, Fail>
    ensures { IfOk result (λ m. InIsReady m) }
{
    let me = name("d")?;
    let mut view = opening(rt, alloc, "a b c")?;
    let id = view.admit(MemberId(2), me)?;
    let (_, link) = plain_pair(alloc, CREDIT)?;
    assert!(rt; id.0 >= 1 && id.0 <= 64 && view.has_entry(id));
    match Member::joining(alloc, me, id, view, CREDIT, link) {
        Ok(node) => Ok(node),
        Err((_, _, fault)) => Err(fault)?,
    }
}

/// What is seen of its first line.
fn enter(rt: &impl Abort, alloc: Global, node: &mut Node, line: &str) -> Result<String, Fail>
    requires { InIsReady node.old }
{
    match first_word(line) {
        ("take", _) => take(alloc, node),
        _ => show(rt, alloc, node, line),
    }
}

/// What a line asks for, and what it wants to be seen.
fn sides(line: &str) -> (&str, &str) {
    line.split_once(" -> ").unwrap_or((line, "()"))
}

/// That what is seen at a line of a tale is wanted there.
fn expect(rt: &impl Abort, told: &String, wanted: &str, head: &str, line: &str) {
    assert_eq!(rt; told.as_str(), wanted, "{head}, at {line}");
}

/// That a member is seen as the further lines of a tale want.
fn go_on(
    rt: &impl Abort,
    alloc: Global,
    node: &mut Node,
    head: &str,
    lines: &str,
) -> Result<(), Fail> {
    for line in lines.lines() {
        let (said, wanted) = sides(line);
        let told = show(rt, alloc, node, said)?;
        expect(rt, &told, wanted, head, line);
    }
    Ok(())
}

/// That a member is seen as the tale wants, first and then line by line.
fn play(rt: &impl Abort, alloc: Global, tale: &str) -> Result<(), Fail> {
    let (head, lines) = tale.trim().split_once('\n').ok_or("no line")?;
    let (_, member) = head.split_once(": ").ok_or("no name")?;
    let mut node = founded(rt, alloc, member)?;
    let (first, lines) = lines.split_once('\n').unwrap_or((lines, ""));
    let (said, wanted) = sides(first);
    let told = begin(rt, alloc, &mut node, said)?;
    expect(rt, &told, wanted, head, first);
    go_on(rt, alloc, &mut node, head, lines)
}

#[test]
fn joins_and_waits(rt: HostRuntime) -> Result<(), Fail> {
    let alloc = rt.alloc();
    let mut node = joined(&rt, alloc)?;
    let (first, lines) = JOINS.trim().split_once('\n').ok_or("one line")?;
    let (said, wanted) = sides(first);
    let told = enter(&rt, alloc, &mut node, said)?;
    expect(&rt, &told, wanted, "d", first);
    go_on(&rt, alloc, &mut node, "d", lines)
}

#[test]
fn is_seen_as_the_tales_want(rt: HostRuntime) -> Result<(), Fail> {
    for tale in TALES.split("\n\n") {
        play(&rt, rt.alloc(), tale)?;
    }
    Ok(())
}
