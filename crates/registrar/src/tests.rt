//! Small groups, with values from the rules of the ring: rows of what is asked, and behind `=` the answer that is
//! wanted. `mark a b 1 linked`: by whom, who, the asker's version, and whether the asker has a link to take from;
//! `erase a b 2 3 3`: by whom, who, the asker's version, and what the asker got and retired;
//! `admit a d = admitted 2 4`: by whom, the new name, and the version and the id that are wanted;
//! `synced d 0`: by whom, and what its mirror misses, which `?` leaves unknown;
//! `refresh a`, `stopped a`, `collect a`; `deposit a b 1 ring 7`: from whom, to whom, the sender's version, the kind,
//! and the link. A request is asked again where an allocation failed.
ghost use Rattle.std.specs.Prelude.{IfOk};
ghost use Rattle.registrar.specs.Registry.{AreHere};

use crate::*;
use group_view::{Answer, Deposited, LinkKind, LinkName, Mark, Request, are_opening_names};
use ring_names::{MemberId, Name, OutOfMemory, Reason};
use std::alloc::Global;
use std::process::Abort;
use std::test::Fail;

/// The first marks the second, which gave notice.
const A_MARKS_B: &str = "\
refresh c = view 1
mark a b 1 linked = refused 20
stopped b = noted
stopped b = refused 12
mark a b 1 linked = view 2
refresh b = view 2
mark c b 1 alone = refused 7
mark c b 2 alone = refused 21";

/// Whoever has no entry is unknown.
const KNOWS_ITS_MEMBERS: &str = "\
mark d a 1 alone = refused 6
mark a none 1 alone = refused 6
refresh d = refused 6
stopped nobody = refused 6
collect d = refused 6
deposit d a 1 ring 7 = refused 6
deposit a d 1 ring 7 = refused 6";

/// Who is a neighbour is judged by the view of the asker.
const JUDGES_BY_THE_VIEW_OF_THE_ASKER: &str = "\
mark a c 1 alone = refused 21
mark a b 0 alone = refused 21
mark a b 2 alone = refused 21
stopped b = noted
mark c b 1 alone = view 2
mark a c 1 alone = refused 21
mark a c 2 alone = refused 20
mark b a 1 alone = refused 20
mark b a 2 alone = refused 21";

/// The right neighbour marks once it has every ring link of the one that stopped.
const WAITS_FOR_THE_END_OF_A_LINK: &str = "\
stopped b = noted
mark c b 1 linked = refused 22
deposit b c 1 copy 5 = noted
deposit b a 1 ring 6 = noted
deposit a c 1 ring 7 = noted
deposit b c 1 ring 8 = noted
mark c b 1 alone = refused 22
collect c = links 5 7 8
mark c b 1 alone = view 2";

/// Who answers for a dead member has it erased, once all that it got of it has come round.
const B_ERASES_A: &str = "\
stopped a = noted
erase d a 1 3 3 = refused 6
erase b none 1 3 3 = refused 6
erase b a 1 3 3 = refused 8
mark b a 1 alone = view 2
erase b a 1 3 3 = refused 23
erase b a 0 3 3 = refused 23
erase b a 3 3 3 = refused 23
erase c a 2 3 3 = refused 23
erase a a 2 3 3 = refused 23
erase b a 2 3 2 = refused 24
erase b a 2 3 3 = view 3
erase b a 3 3 3 = refused 8
refresh c = view 3";

/// A name is given once, also where its member is dead or erased; who is dead admits nobody.
const ADMITS_ON_THE_RIGHT: &str = "\
admit a d = admitted 2 4
refresh d = view 2
admit b a = refused 9
admit a d = refused 9
admit nobody e = refused 6
admit none a = refused 6
stopped d = noted
mark a b 2 alone = refused 21
mark b d 2 alone = view 3
admit d e = refused 7
admit d a = refused 7
admit b d = refused 9
erase b d 3 0 0 = view 4
admit d e = refused 7
admit b d = refused 9
admit b e = admitted 5 5
admit b f = admitted 6 6
refresh a = view 6";

/// A newcomer is registered once, while it lives, where its mirror misses nothing.
const REGISTERS_WHO_MISSES_NOTHING: &str = "\
admit a d = admitted 2 4
synced nobody 0 = refused 6
synced a 0 = refused 11
synced a ? = refused 11
synced d ? = refused 33
synced d 2 = refused 33
synced d 0 = view 3
synced d 0 = refused 11
refresh d = view 3
stopped d = noted
mark b d 3 alone = view 4
synced d 0 = refused 7
synced d ? = refused 7";

/// Where no master stands, whoever is registered becomes it.
const ELECTS_WHO_IS_REGISTERED: &str = "\
admit a b = admitted 2 2
stopped a = noted
mark b a 2 alone = view 3
synced a 0 = refused 7
erase b a 3 0 0 = view 4
synced a 0 = refused 7
synced b 1 = refused 33
synced b 0 = view 5
refresh b = view 5";

/// The names of as many members as a group ever has.
const OF_SIXTY_FOUR: &str = "\
1 2 3 4 5 6 7 8 9 10 11 12 13 14 15 16 17 18 19 20 21 22 23 24 25 26 27 28 29 30 31 32 \
33 34 35 36 37 38 39 40 41 42 43 44 45 46 47 48 49 50 51 52 53 54 55 56 57 58 59 60 61 62 63 64";

/// No group has more.
const ADMITS_NO_MORE: &str = "\
admit a z = refused 10
admit a 64 = refused 9
admit none z = refused 6";

/// A link from before the two were neighbours doesn't count.
const COUNTS_NO_LINK_FROM_BEFORE: &str = "\
stopped b = noted
mark c b 1 alone = view 2
stopped a = noted
deposit a c 2 ring 7 = noted
mark c a 2 alone = refused 22
collect c = links 7
deposit a c 1 ring 8 = noted
mark c a 2 alone = view 3";

/// Each gets its links once, in the order of their deposits.
const GIVES_LINKS_ONCE_AND_IN_ORDER: &str = "\
collect b = links
deposit a b 1 ring 7 = noted
deposit a c 1 copy 8 = noted
deposit c b 1 ring 9 = noted
collect b = links 7 9
collect b = links
collect c = links 8
collect c = links";

/// A link waits for the second.
const A_LINK_WAITS: &str = "deposit a b 1 ring 7 = noted";

/// The name of that link.
const A_TO_B: LinkName = LinkName {
    from: MemberId(1),
    to: MemberId(2),
    view: 1,
    kind: LinkKind::Ring,
};

/// The word that a line begins with, and what follows it.
fn first_word(line: &str) -> (&str, &str) {
    line.split_once(' ').unwrap_or((line, ""))
}

fn number(text: &str) -> u32 {
    text.parse::<u32>().unwrap_or(0)
}

/// The id of a member; of `none` and of `nobody` one that no member has.
fn id(text: &str) -> MemberId {
    MemberId(match text {
        "a" => 1,
        "b" => 2,
        "c" => 3,
        "d" => 4,
        "nobody" => 9,
        _ => 0,
    })
}

fn mark_by(by: MemberId, rest: &str) -> Request<u32> {
    let (dead, rest) = first_word(rest);
    let (view, link) = first_word(rest);
    Request::Mark {
        by,
        dead: id(dead),
        view: number(view),
        has_current: link == "linked",
    }
}

fn admit_by(by: MemberId, rest: &str) -> Option<Request<u32>> {
    let name = Name::read(rest.as_bytes()).ok()?;
    Some(Request::Admit { by, name })
}

fn erase_by(by: MemberId, rest: &str) -> Request<u32> {
    let (origin, rest) = first_word(rest);
    let (view, rest) = first_word(rest);
    let (got, retired) = first_word(rest);
    Request::Erase {
        by,
        origin: id(origin),
        got: u64::from(number(got)),
        retired: u64::from(number(retired)),
        view: number(view),
    }
}

fn synced_by(by: MemberId, rest: &str) -> Request<u32> {
    let missing = rest.parse::<u64>().ok();
    Request::Synced { by, missing }
}

fn deposit_by(by: MemberId, rest: &str) -> Request<u32> {
    let (to, rest) = first_word(rest);
    let (view, rest) = first_word(rest);
    let (kind, link) = first_word(rest);
    Request::Deposit {
        by,
        to: id(to),
        view: number(view),
        kind: if kind == "ring" {
            LinkKind::Ring
        } else {
            LinkKind::Copy
        },
        link: number(link),
    }
}

/// The request that a row asks.
fn request_of(asked: &str) -> Option<Request<u32>> {
    let (verb, rest) = first_word(asked);
    let (by, rest) = first_word(rest);
    let by = id(by);
    match verb {
        "mark" => Some(mark_by(by, rest)),
        "admit" => admit_by(by, rest),
        "erase" => Some(erase_by(by, rest)),
        "synced" => Some(synced_by(by, rest)),
        "refresh" => Some(Request::Refresh { by }),
        "stopped" => Some(Request::Stopped { by }),
        "deposit" => Some(deposit_by(by, rest)),
        "collect" => Some(Request::Collect { by }),
        _ => None,
    }
}

/// The answer to a request, which is asked again where an allocation failed.
fn answer_to(
    registrar: &mut Registrar<u32>,
    request: Request<u32>,
) -> Result<Answer<u32>, (Request<u32>, OutOfMemory)>
    requires { AreHere registrar.old.links }
    ensures { AreHere registrar.new.links }
{
    match registrar.handle(request) {
        Ok(answer) => Ok(answer),
        Err((request, _)) => registrar.handle(request),
    }
}

/// Whether just these links come.
fn are_links(links: &[Deposited<u32>], want: &str) -> bool {
    let mut links = links.iter();
    for link in want.split_whitespace() {
        match links.next() {
            Some(given) if given.link == number(link) => {}
            _ => return false,
        }
    }
    links.next().is_none()
}

/// Whether a refusal with this reason is wanted.
fn is_refusal(reason: Reason, wanted: &str) -> bool {
    let (word, code) = first_word(wanted);
    word == "refused" && number(code) == reason.code()
}

/// Whether an admission with this version and this id is wanted.
fn is_admission(version: u32, id: MemberId, wanted: &str) -> bool {
    let (word, rest) = first_word(wanted);
    let (wanted_version, wanted_id) = first_word(rest);
    word == "admitted" && number(wanted_version) == version && number(wanted_id) == id.0
}

/// Whether an answer is the one that is wanted.
fn is_wanted(answer: &Answer<u32>, wanted: &str) -> bool {
    let (word, rest) = first_word(wanted);
    match answer {
        Answer::No(reason) => is_refusal(*reason, wanted),
        Answer::Noted => word == "noted",
        Answer::Viewed(view) => word == "view" && number(rest) == view.version,
        Answer::Admitted { view, id } => is_admission(view.version, *id, wanted),
        Answer::Links(links) => word == "links" && are_links(links.as_slice(), rest),
    }
}

/// Whether it is told before as it is wanted whether a request will be refused, and why.
fn is_foreseen(refusal: Option<Reason>, wanted: &str) -> bool {
    match refusal {
        Some(reason) => is_refusal(reason, wanted),
        None => first_word(wanted).0 != "refused",
    }
}

/// Whether so many links as are wanted wait for a member that collects.
fn is_counted(registrar: &Registrar<u32>, asked: &str, wanted: &str) -> bool {
    let (verb, by) = first_word(asked);
    let (_, links) = first_word(wanted);
    let mut count = 0;
    for _link in links.split_whitespace() {
        count = usize::saturating_add(count, 1);
    }
    verb != "collect" || first_word(wanted).0 != "links" || registrar.waiting_for(id(by)) == count
}

/// The version of the newest view, once a request is answered so.
fn version_after(registrar: &Registrar<u32>, wanted: &str) -> u32 {
    match first_word(wanted) {
        ("view", version) => number(version),
        ("admitted", rest) => number(first_word(rest).0),
        _ => registrar.view().version,
    }
}

/// Whether the newest view is of this version, and is kept under it.
fn is_newest(registrar: &Registrar<u32>, version: u32) -> bool {
    match registrar.published(version) {
        Some(view) => view.version == version && registrar.view().version == version,
        None => false,
    }
}

/// Whether a row is answered as it wants, and as was told before.
fn step(registrar: &mut Registrar<u32>, row: &str) -> bool
    requires { AreHere registrar.old.links }
    ensures { AreHere registrar.new.links }
{
    let (asked, wanted) = row.split_once(" = ").unwrap_or((row, ""));
    let Some(request) = request_of(asked) else {
        return false;
    };
    let version = version_after(registrar, wanted);
    let foreseen = is_foreseen(registrar.refusal(&request), wanted);
    let counted = is_counted(registrar, asked, wanted);
    let answered = match answer_to(registrar, request) {
        Ok(answer) => is_wanted(&answer, wanted),
        Err(_) => false,
    };
    foreseen && counted && answered && is_newest(registrar, version)
}

/// The names of these members.
fn names(alloc: Global, members: &str) -> Result<Vec<Name>, Fail> {
    let mut names = Vec::new(alloc);
    for text in members.split(' ') {
        names.push(Name::read(text.as_bytes())?)?;
    }
    Ok(names)
}

/// The registrar of their group, whose links are numbers.
fn group_of(rt: &impl Abort, alloc: Global, members: &str) -> Result<Registrar<u32>, Fail>
    ensures { IfOk result (λ r. AreHere r.links) }
{
    let names = names(alloc, members)?;
    assert!(rt; are_opening_names(&names));
    Ok(Registrar::opening(alloc, &names)?)
}

/// The registrar of a group, once it has answered each row of a table as the row wants.
fn played(
    rt: &impl Abort,
    alloc: Global,
    members: &str,
    table: &str,
) -> Result<Registrar<u32>, Fail>
    ensures { IfOk result (λ r. AreHere r.links) }
{
    let mut registrar = group_of(rt, alloc, members)?;
    for (place, row) in table.lines().enumerate() {
        assert!(rt; step(&mut registrar, row), "{row}, at {place} of {table}");
    }
    Ok(registrar)
}

#[test]
fn answers_as_the_tables_want(rt: HostRuntime) -> Result<(), Fail> {
    for (members, table) in [
        ("a b c", KNOWS_ITS_MEMBERS),
        ("a b c d", JUDGES_BY_THE_VIEW_OF_THE_ASKER),
        ("a b c", WAITS_FOR_THE_END_OF_A_LINK),
        ("a b c", COUNTS_NO_LINK_FROM_BEFORE),
        ("a b c", GIVES_LINKS_ONCE_AND_IN_ORDER),
        (OF_SIXTY_FOUR, ADMITS_NO_MORE),
        ("a b c", REGISTERS_WHO_MISSES_NOTHING),
    ] {
        played(&rt, rt.alloc(), members, table)?;
    }
    Ok(())
}

/// Whether the entry at a place of the newest view has this mark.
fn has_mark(registrar: &Registrar<u32>, place: usize, mark: Mark) -> bool {
    match registrar.view().entries.as_slice().get(place) {
        Some(entry) => entry.mark == mark,
        None => false,
    }
}

#[test]
fn marks_who_gave_notice(rt: HostRuntime) -> Result<(), Fail> {
    let registrar = played(&rt, rt.alloc(), "a b c", A_MARKS_B)?;
    assert!(rt; has_mark(&registrar, 0, Mark::Live) && has_mark(&registrar, 1, Mark::Dead));
    assert!(rt; registrar.in_name(0).is_none() && registrar.name_at(0).is_none());
    Ok(())
}

#[test]
fn erases_who_is_dead(rt: HostRuntime) -> Result<(), Fail> {
    let registrar = played(&rt, rt.alloc(), "a b c", B_ERASES_A)?;
    assert!(rt; has_mark(&registrar, 0, Mark::Erased) && has_mark(&registrar, 1, Mark::Live));
    assert!(rt; registrar.view().master == Some(MemberId(2)) && registrar.view().term == 2);
    Ok(())
}

#[test]
fn elects_who_is_registered(rt: HostRuntime) -> Result<(), Fail> {
    let registrar = played(&rt, rt.alloc(), "a", ELECTS_WHO_IS_REGISTERED)?;
    assert!(rt; registrar.view().is_synced(MemberId(2)));
    assert!(rt; registrar.view().master == Some(MemberId(2)) && registrar.view().term == 2);
    Ok(())
}

/// Whether the newest view has just these ids, in ring order.
fn has_ids(registrar: &Registrar<u32>, ids: &[u32]) -> bool {
    let mut entries = registrar.view().entries.as_slice().iter();
    for id in ids {
        match entries.next() {
            Some(entry) if entry.id.0 == *id => {}
            _ => return false,
        }
    }
    entries.next().is_none()
}

#[test]
fn admits_on_the_right(rt: HostRuntime) -> Result<(), Fail> {
    let registrar = played(&rt, rt.alloc(), "a b c", ADMITS_ON_THE_RIGHT)?;
    assert!(rt; has_ids(&registrar, &[1, 4, 2, 6, 5, 3]));
    assert!(rt; has_mark(&registrar, 1, Mark::Erased) && has_mark(&registrar, 3, Mark::Live));
    Ok(())
}

/// Whether the link from the first to the second waits alone.
fn waits_alone(registrar: &Registrar<u32>) -> bool {
    registrar.waiting() == 1
        && registrar.in_name(0) == Some(A_TO_B)
        && registrar.in_name(1).is_none()
}

/// Lends the link that waits alone, and gives another in its place: the one that was lent.
fn exchange(rt: &impl Abort, registrar: &mut Registrar<u32>, link: u32) -> u32
    requires { AreHere registrar.old.links }
    ensures { AreHere registrar.new.links }
{
    let Some(lent) = registrar.lend_in(0) else {
        panic!(rt; "no link");
    };
    assert!(rt; waits_alone(registrar));
    registrar.give_in(0, link);
    lent
}

#[test]
fn lends_what_waits(rt: HostRuntime) -> Result<(), Fail> {
    let mut registrar = played(&rt, rt.alloc(), "a b", A_LINK_WAITS)?;
    assert!(rt; exchange(&rt, &mut registrar, 6) == 7);
    assert!(rt; step(&mut registrar, "collect b = links 6"));
    Ok(())
}

#[test]
fn lends_by_the_name(rt: HostRuntime) -> Result<(), Fail> {
    let mut registrar = played(&rt, rt.alloc(), "a b", A_LINK_WAITS)?;
    let Some(lent) = registrar.lend(&A_TO_B) else {
        panic!(rt; "no link");
    };
    registrar.give(&A_TO_B, lent);
    assert!(rt; lent == 7 && registrar.lend(&A_TO_B) == Some(7));
    Ok(())
}

#[test]
fn lends_nothing_else(rt: HostRuntime) -> Result<(), Fail> {
    let mut registrar = played(&rt, rt.alloc(), "a b", A_LINK_WAITS)?;
    assert!(rt; registrar.lend_in(1).is_none());
    Ok(())
}
