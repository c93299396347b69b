//! What each member has still to do.
ghost use Rattle.std.specs.Prelude.{◌≡◌, ◌+◌, ◌<◌, ◌∷◌, ◌++◌, [], List, drop, length, is_some, MatchOption};
ghost use Rattle.std.specs.Prelude.{IfSome, OnOk, OnErr, bytes_eq, nat_lt, position};
ghost use Rattle.std.specs.List.{All};
ghost use Rattle.ring_rules.specs.declared.event.Client.{Client};
ghost use Rattle.ring_rules.specs.Event.{asked_of};
ghost use Rattle.ring_cluster.specs.Agendas.{Plan, IsAskedOf, IsForNoCopy, names_of, place_among, tasks_in, tasks_on_all};
ghost use Rattle.ring_cluster.specs.Agendas.{with_tasks, with_task, IsFront};

use ring_names::{Name, OutOfMemory};
use ring_rules::Client;
use std::alloc::Global;
use std::collections::VecDeque;
use std::marker::Model;

/// The tasks of one member, by its name, the next one first: what clients have asked of it. A name may have an agenda
/// before a member has it.
#[derive(Drop)]
pub struct Agenda {
    name: Name,
    tasks: VecDeque<Client>,
    ghost asked: { All (IsAskedOf name) tasks.items },
    ghost no_copies: { All IsForNoCopy tasks.items },
}

impl Model for Agenda {
    ghost use Rattle.ring_cluster.specs.Agendas.{Plan};

    ghost Value = { Plan };

    ghost view = { λ a. record { name = a.name; tasks = a.tasks.items } };
}

impl Agenda {
    ghost use Rattle.std.specs.Prelude.{◌≡◌, ◌+◌, ◌∷◌, ◌++◌, [], List, drop, length, nat_lt, IfSome, OnOk, OnErr};
    ghost use Rattle.ring_rules.specs.declared.event.Client.{Client};
    ghost use Rattle.ring_cluster.specs.Agendas.{IsAskedOf, IsForNoCopy, IsFront};

    /// An agenda with nothing on it.
    fn new(alloc: Global, name: Name) -> Agenda
        ensures { result ≡ record { name = name; tasks = [] } }
    {
        Agenda {
            name,
            tasks: VecDeque::new(alloc),
        }
    }

    /// Whether it is the agenda of that name.
    fn is_of(&self, name: &Name) -> bool
        ensures { result ≡ bytes_eq (self.now).name name.now }
    {
        self.name.bytes() == name.bytes()
    }

    /// A task of its member joins its end.
    fn push(&mut self, task: Client) -> Result<(), OutOfMemory>
        requires asked { IsAskedOf (self.old).name task }
        requires no_copy { IsForNoCopy task }
        ensures ok { OnOk result (self.new ≡ record self.old { tasks = (self.old).tasks ++ task ∷ [] }) }
        ensures err { OnErr result (self.new ≡ self.old) }
    {
        match self.tasks.push_back(task) {
            Ok(()) => Ok(()),
            Err(_) => Err(OutOfMemory),
        }
    }

    /// The next task.
    fn head(&self) -> Option<&Client>
        ensures next { MatchOption result ((self.now).tasks ≡ [])
            (λ task. (rest : List Client) × ((self.now).tasks ≡ task.now ∷ rest)) }
        ensures asked { IfSome result (λ task. IsAskedOf (self.now).name task.now) }
        ensures no_copy { IfSome result (λ task. IsForNoCopy task.now) }
    {
        self.tasks.front()
    }

    /// The first tasks, as many as lie in one row: some, where there are any.
    fn front(&self) -> &[Client]
        ensures { IsFront (self.now).name (self.now).tasks result.now }
    {
        let (front, _) = self.tasks.as_slices();
        front
    }

    /// The next task is done: whether there was one.
    fn pop(&mut self) -> bool
        ensures done { self.new ≡ record self.old { tasks = drop 1 (self.old).tasks } }
        ensures had { result ≡ nat_lt 0 (length (self.old).tasks) }
    {
        self.tasks.pop_front().is_some()
    }

    /// The last task is taken back: how many are gone by that, one or none.
    fn take_back(&mut self) -> usize
        ensures back { (ts : List Client) (t : Client) → (self.old).tasks ≡ ts ++ t ∷ []
            → self.new ≡ record self.old { tasks = ts } }
        ensures less { length (self.new).tasks + result ≡ length (self.old).tasks }
    {
        match self.tasks.pop_back() {
            Some(_) => 1,
            None => 0,
        }
    }

    /// How many tasks are on it.
    fn len(&self) -> usize
        ensures { result ≡ length (self.now).tasks }
    {
        self.tasks.len()
    }
}

/// The agendas of all names that were given a task, in the order in which they were first given one. It is kept how
/// many tasks are left, so that nobody is looked for where there are none.
#[derive(Drop)]
pub struct Agendas {
    list: Vec<Agenda>,
    count: usize,
    ghost counted: { tasks_on_all list.items ≡ count },
}

impl Model for Agendas {
    ghost use Rattle.std.specs.Prelude.{List};
    ghost use Rattle.ring_cluster.specs.Agendas.{Plan};

    ghost Value = { List Plan };

    ghost view = { λ a. a.list.items };
}

impl Agendas {
    ghost use Rattle.std.specs.Prelude.{◌≡◌, ◌∷◌, ◌++◌, [], List, MatchOption, IfSome, IfOk, OnOk, OnErr, drop, length};
    ghost use Rattle.std.specs.Prelude.{map, is_some};
    ghost use Rattle.ring_rules.specs.declared.event.Client.{Client};
    ghost use Rattle.ring_rules.specs.Event.{asked_of};
    ghost use Rattle.ring_cluster.specs.Agendas.{Plan, IsAskedOf, IsForNoCopy, names_of, place_among, tasks_in, with_tasks, with_task};
    ghost use Rattle.ring_cluster.specs.Agendas.{IsFront, AreFronts, struck_off};

    /// Nobody has an agenda.
    pub(crate) fn none(alloc: Global) -> Agendas
        ensures { result ≡ [] }
    {
        Agendas {
            list: Vec::new(alloc),
            count: 0,
        }
    }

    /// The next task of the member of that name.
    pub(crate) fn next_task(&self, name: &Name) -> Option<&Client>
        ensures next { MatchOption result (tasks_in self.now name.now ≡ [])
            (λ task. (rest : List Client) × (tasks_in self.now name.now ≡ task.now ∷ rest)) }
        ensures asked { IfSome result (λ task. IsAskedOf name.now task.now) }
        ensures no_copy { IfSome result (λ task. IsForNoCopy task.now) }
    {
        if self.count == 0 {
            return None;
        }
        next_task(&self.list, name)
    }

    /// The next task of the member of that name is done.
    pub(crate) fn strike_off(&mut self, name: &Name)
        ensures { self.new ≡ with_tasks self.old name.now (drop 1 (tasks_in self.old name.now)) }
    {
        if strike_off(&mut self.list, name) {
            self.count -= 1;
        }
    }

    /// The first tasks of the member of that name, as many as lie in one row: some, where there are any.
    fn front(&self, name: &Name) -> &[Client]
        ensures { IsFront name.now (tasks_in self.now name.now) result.now }
    {
        if self.count == 0 {
            return &[];
        }
        front(&self.list, name)
    }

    /// Those of the members of these names, by places.
    pub(crate) fn fronts(
        &self,
        alloc: Global,
        names: &[Name],
    ) -> Result<Vec<&[Client]>, OutOfMemory>
        ensures { IfOk result (λ v. AreFronts self.now names.now (map (λ t. t.now) v.items)) }
    {
        let mut fronts = Vec::with_capacity(alloc, names.len())?;
        for name in names {
            fronts.push(self.front(name))?;
        }
        Ok(fronts)
    }

    /// The next tasks of the member of that name are done, so many.
    fn strike_off_many(&mut self, name: &Name, count: usize)
        ensures { self.new ≡ with_tasks self.old name.now (drop count (tasks_in self.old name.now)) }
    {
        for _task in 0..count {
            self.strike_off(name);
        }
    }

    /// Those of the members of these names are, so many of each, by places.
    pub(crate) fn strike_off_each(&mut self, names: &[Name], counts: &[usize])
        requires { length counts.now ≡ length names.now }
        ensures { self.new ≡ struck_off (length names.now) names.now counts.now self.old }
    {
        for place in 0..names.len() {
            self.strike_off_many(&names[place], counts[place]);
        }
    }

    /// Whether at least two members have a task.
    pub(crate) fn are_several(&self) -> bool {
        let mut busy = self.list.iter().filter(|agenda| agenda.len() > 0);
        busy.next().is_some() && busy.next().is_some()
    }

    /// Whether that name has an agenda.
    pub(crate) fn has(&self, name: &Name) -> bool
        ensures { result ≡ is_some (place_among (names_of self.now) name.now) }
    {
        has_agenda(&self.list, name)
    }

    /// A task joins the end of the agenda of its member, or begins one. Without memory for that nothing changes.
    pub(crate) fn give(&mut self, alloc: Global, task: Client) -> Result<(), OutOfMemory>
        requires { IsForNoCopy task }
        ensures ok { OnOk result (self.new ≡ with_task self.old task) }
        ensures err { OnErr result (self.new ≡ self.old) }
    {
        let Some(count) = self.count.checked_add(1) else {
            return Err(OutOfMemory);
        };
        give_task(alloc, &mut self.list, task)?;
        self.count = count;
        Ok(())
    }

    /// Takes back the task that was given last, to the agenda of that name, and the agenda where there was none before.
    pub(crate) fn take_back(&mut self, name: &Name, had_one: bool)
        ensures { (plans : List Plan) (t : Client) → self.old ≡ with_task plans t → asked_of t ≡ name.now
            → had_one ≡ is_some (place_among (names_of plans) name.now) → self.new ≡ plans }
    {
        self.count -= take_back(&mut self.list, name, had_one);
    }
}

/// The place of the agenda of that name.
fn place_of(agendas: &[Agenda], name: &Name) -> Option<usize>
    ensures place { result ≡ position (λ agenda. bytes_eq agenda.name name.now) agendas.now }
    ensures within { IfSome result (λ place. place < length agendas.now) }
{
    agendas.iter().position(|agenda| agenda.is_of(name))
}

/// The next task of the member of that name.
fn next_task<'a>(agendas: &'a [Agenda], name: &Name) -> Option<&'a Client>
    ensures next { MatchOption result (tasks_in agendas.now name.now ≡ [])
        (λ task. (rest : List Client) × (tasks_in agendas.now name.now ≡ task.now ∷ rest)) }
    ensures asked { IfSome result (λ task. IsAskedOf name.now task.now) }
    ensures no_copy { IfSome result (λ task. IsForNoCopy task.now) }
{
    match place_of(agendas, name) {
        Some(place) => agendas[place].head(),
        None => None,
    }
}

/// The first tasks of the member of that name, as many as lie in one row: some, where there are any.
fn front<'a>(agendas: &'a [Agenda], name: &Name) -> &'a [Client]
    ensures { IsFront name.now (tasks_in agendas.now name.now) result.now }
{
    match place_of(agendas, name) {
        Some(place) => agendas[place].front(),
        None => &[],
    }
}

/// The next task of the member of that name is done: whether there was one.
fn strike_off(agendas: &mut Vec<Agenda>, name: &Name) -> bool
    ensures done { agendas.new.items
        ≡ with_tasks agendas.old.items name.now (drop 1 (tasks_in agendas.old.items name.now)) }
    ensures had { result ≡ nat_lt 0 (length (tasks_in agendas.old.items name.now)) }
{
    match place_of(agendas, name) {
        Some(place) => agendas[place].pop(),
        None => false,
    }
}

/// Whether that name has an agenda.
fn has_agenda(agendas: &[Agenda], name: &Name) -> bool
    ensures { result ≡ is_some (place_among (names_of agendas.now) name.now) }
{
    place_of(agendas, name).is_some()
}

/// A task joins the end of the agenda of its member, or begins one. Without memory for that nothing changes.
fn give_task(alloc: Global, agendas: &mut Vec<Agenda>, task: Client) -> Result<(), OutOfMemory>
    requires { IsForNoCopy task }
    ensures ok { OnOk result (agendas.new.items ≡ with_task agendas.old.items task) }
    ensures err { OnErr result (agendas.new.items ≡ agendas.old.items) }
{
    let Some(place) = place_of(agendas, task.by()) else {
        return begin(alloc, agendas, task);
    };
    agendas[place].push(task)
}

/// A task begins an agenda.
fn begin(alloc: Global, agendas: &mut Vec<Agenda>, task: Client) -> Result<(), OutOfMemory>
    requires { IsForNoCopy task }
    ensures ok { OnOk result (agendas.new.items
        ≡ agendas.old.items ++ record { name = asked_of task; tasks = task ∷ [] } ∷ []) }
    ensures err { OnErr result (agendas.new.items ≡ agendas.old.items) }
{
    let mut agenda = Agenda::new(alloc, *task.by());
    agenda.push(task)?;
    if agendas.push(agenda).is_err() {
        return Err(OutOfMemory);
    }
    Ok(())
}

/// Takes back the task that was given last, to the agenda of that name, and the agenda where there was none before: how
/// many tasks are gone by that.
fn take_back(agendas: &mut Vec<Agenda>, name: &Name, had_one: bool) -> usize
    ensures back { (plans : List Plan) (t : Client) → agendas.old.items ≡ with_task plans t → asked_of t ≡ name.now
        → had_one ≡ is_some (place_among (names_of plans) name.now) → agendas.new.items ≡ plans }
    ensures less { tasks_on_all agendas.new.items + result ≡ tasks_on_all agendas.old.items }
{
    if !had_one {
        return take_last(agendas);
    }
    match place_of(agendas, name) {
        Some(place) => agendas[place].take_back(),
        None => 0,
    }
}

/// The agenda that was begun last is gone: how many tasks were on it.
fn take_last(agendas: &mut Vec<Agenda>) -> usize
    ensures back { (plans : List Plan) (a : Plan) → agendas.old.items ≡ plans ++ a ∷ [] → agendas.new.items ≡ plans }
    ensures less { tasks_on_all agendas.new.items + result ≡ tasks_on_all agendas.old.items }
{
    match agendas.pop() {
        Some(agenda) => agenda.len(),
        None => 0,
    }
}
