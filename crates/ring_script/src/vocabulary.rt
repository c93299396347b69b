//! The words of the ring's texts. Step files, refusals, journals and scripts each take a part of this table.
ghost use Rattle.std.specs.Prelude.{◌≡◌, IfOk};
ghost use Rattle.ring_script.specs.Vocabulary.{event_alone, event_of_body, event_of_name, event_of_position};
ghost use Rattle.ring_script.specs.Vocabulary.{event_of_version, asked_by};

use crate::words::by_word;
use ring_names::{Body, Name, OutOfMemory, Position};
use ring_rules::{Client, Event};

/// What a member is asked or does, by the word that begins it. Its name stands behind the word.
#[derive(Clone, Copy, PartialEq, Eq, Debug)]
pub enum Word {
    /// It multicasts a body.
    Cast,
    /// The master publishes a body to its queue.
    Publish,
    /// The master hands out the first ready message.
    Get,
    /// The master takes the first ready message off for good.
    Pop,
    /// The message of a position is acknowledged.
    Ack,
    /// The message of a position is handed back.
    Requeue,
    /// The master tells how many messages there are.
    Depth,
    /// A new master begins.
    Start,
    /// The master opens a copy of its queue to another member.
    Sync,
    /// It puts a packet.
    Put,
    /// It takes a packet.
    Take,
    /// It takes the end of a link.
    TakeEnd,
    /// It gains a grant as credit.
    Gain,
    /// It stops.
    Stop,
    /// It has another marked dead.
    Mark,
    /// It reads the view of a version.
    Refresh,
    /// It admits a newcomer.
    Admit,
    /// It picks the link that it takes from.
    Pick,
    /// It has a dead origin erased.
    Erase,
    /// It misses nothing, and is registered as synchronised.
    Synced,
    /// The master puts the next load on its copy.
    SyncPut,
    /// It takes the oldest load of a copy that is made to it.
    SyncTake,
    /// The master gains a grant on its copy as credit.
    SyncGain,
}

/// What stands behind the member's name.
#[derive(Clone, Copy, PartialEq, Eq, Debug)]
pub enum Shape {
    /// Nothing.
    Nothing,
    /// A body, up to the end of the line.
    Body,
    /// The name of another member.
    Name,
    /// The name of one who is to join.
    Newcomer,
    /// A position in the queue, from 1.
    Position,
    /// The version of a view, from 1.
    Version,
}

/// What was read behind the member's name.
#[derive(Drop, Debug)]
pub enum Further {
    /// Nothing.
    Nothing,
    /// A body.
    Body(Body),
    /// A name.
    Name(Name),
    /// A position.
    Position(Position),
    /// A version.
    Version(u32),
}

/// A word, the member's name, and what stands behind it.
#[derive(Drop, Debug)]
pub struct Phrase {
    /// What the member is asked or does.
    pub word: Word,
    /// The member.
    pub by: Name,
    /// With what.
    pub further: Further,
}

/// The greatest position that a line may name.
pub const MOST_POSITION: u32 = 1_000_000;

/// The greatest version that a line may name.
pub const MOST_VERSION: u32 = 1_000_000;

/// The greatest number of a refusal that a line may name.
pub const MOST_CODE: u32 = 99;

impl Word {
    ghost use Rattle.std.specs.Prelude.{◌≡◌};
    ghost use Rattle.ring_script.specs.Vocabulary.{word_of, text_of, shape_of};

    /// The word that the text is, if it is one.
    pub fn of(text: &[u8]) -> Option<Word>
        ensures { result ≡ word_of text.now }
    {
        by_word!(text;
            b"cast" => Some(Word::Cast),
            b"publish" => Some(Word::Publish),
            b"get" => Some(Word::Get),
            b"pop" => Some(Word::Pop),
            b"ack" => Some(Word::Ack),
            b"requeue" => Some(Word::Requeue),
            b"depth" => Some(Word::Depth),
            b"start" => Some(Word::Start),
            b"sync" => Some(Word::Sync),
            b"put" => Some(Word::Put),
            b"take" => Some(Word::Take),
            b"takeend" => Some(Word::TakeEnd),
            b"gain" => Some(Word::Gain),
            b"stop" => Some(Word::Stop),
            b"mark" => Some(Word::Mark),
            b"refresh" => Some(Word::Refresh),
            b"admit" => Some(Word::Admit),
            b"pick" => Some(Word::Pick),
            b"erase" => Some(Word::Erase),
            b"synced" => Some(Word::Synced),
            b"syncput" => Some(Word::SyncPut),
            b"synctake" => Some(Word::SyncTake),
            b"syncgain" => Some(Word::SyncGain),
            _ => None
        )
    }

    /// The word as it is written.
    pub fn text(self) -> &'static [u8]
        ensures { result.now ≡ text_of self }
    {
        match self {
            Word::Cast => b"cast",
            Word::Publish => b"publish",
            Word::Get => b"get",
            Word::Pop => b"pop",
            Word::Ack => b"ack",
            Word::Requeue => b"requeue",
            Word::Depth => b"depth",
            Word::Start => b"start",
            Word::Sync => b"sync",
            Word::Put => b"put",
            Word::Take => b"take",
            Word::TakeEnd => b"takeend",
            Word::Gain => b"gain",
            Word::Stop => b"stop",
            Word::Mark => b"mark",
            Word::Refresh => b"refresh",
            Word::Admit => b"admit",
            Word::Pick => b"pick",
            Word::Erase => b"erase",
            Word::Synced => b"synced",
            Word::SyncPut => b"syncput",
            Word::SyncTake => b"synctake",
            Word::SyncGain => b"syncgain",
        }
    }

    /// What stands behind the member's name.
    pub fn shape(self) -> Shape
        ensures { result ≡ shape_of self }
    {
        match self {
            Word::Cast | Word::Publish => Shape::Body,
            Word::Ack | Word::Requeue => Shape::Position,
            Word::Sync | Word::Mark | Word::Erase => Shape::Name,
            Word::Admit => Shape::Newcomer,
            Word::Refresh => Shape::Version,
            Word::Get | Word::Pop | Word::Depth | Word::Start | Word::Synced => Shape::Nothing,
            Word::Put | Word::Take | Word::TakeEnd | Word::Gain => Shape::Nothing,
            Word::Stop | Word::Pick => Shape::Nothing,
            Word::SyncPut | Word::SyncTake | Word::SyncGain => Shape::Nothing,
        }
    }
}

impl Phrase {
    ghost use Rattle.std.specs.Prelude.{◌≡◌, IfOk};
    ghost use Rattle.ring_script.specs.Vocabulary.{event_said, client_said, phrase, phrase_of, asked_phrase};

    /// The phrase of an event; of a refusal that of what was asked.
    pub fn of_event(event: &Event) -> Result<Phrase, OutOfMemory>
        ensures { IfOk result (λ phrase. phrase ≡ phrase_of event.now) }
    {
        match event {
            Event::Cast { by, body } => Phrase::with_body(Word::Cast, by, body),
            Event::Publish { by, body } => Phrase::with_body(Word::Publish, by, body),
            Event::Get { by } => Ok(Phrase::own(Word::Get, by)),
            Event::Pop { by } => Ok(Phrase::own(Word::Pop, by)),
            Event::Ack { by, at } => Ok(Phrase::with(Word::Ack, by, Further::Position(*at))),
            Event::Requeue { by, at } => Ok(Phrase::with(
                Word::Requeue,
                by,
                Further::Position(*at),
            )),
            Event::Depth { by } => Ok(Phrase::own(Word::Depth, by)),
            Event::Start { by } => Ok(Phrase::own(Word::Start, by)),
            Event::Sync { by, target } => Ok(Phrase::with(Word::Sync, by, Further::Name(*target))),
            Event::Put { by } => Ok(Phrase::own(Word::Put, by)),
            Event::Take { by } => Ok(Phrase::own(Word::Take, by)),
            Event::TakeEnd { by } => Ok(Phrase::own(Word::TakeEnd, by)),
            Event::Gain { by } => Ok(Phrase::own(Word::Gain, by)),
            Event::Stop { by } => Ok(Phrase::own(Word::Stop, by)),
            Event::Mark { by, dead } => Ok(Phrase::with(Word::Mark, by, Further::Name(*dead))),
            Event::Refresh { by, view } => Ok(Phrase::with(
                Word::Refresh,
                by,
                Further::Version(*view),
            )),
            Event::Admit { by, name } => Ok(Phrase::with(Word::Admit, by, Further::Name(*name))),
            Event::Pick { by } => Ok(Phrase::own(Word::Pick, by)),
            Event::Erase { by, origin } => Ok(Phrase::with(
                Word::Erase,
                by,
                Further::Name(*origin),
            )),
            Event::Synced { by } => Ok(Phrase::own(Word::Synced, by)),
            Event::SyncPut { by } => Ok(Phrase::own(Word::SyncPut, by)),
            Event::SyncTake { by } => Ok(Phrase::own(Word::SyncTake, by)),
            Event::SyncGain { by } => Ok(Phrase::own(Word::SyncGain, by)),
            Event::Refuse { code: _, inner } => Phrase::of_client(inner),
        }
    }

    /// The phrase of what a client asks.
    pub fn of_client(client: &Client) -> Result<Phrase, OutOfMemory>
        ensures { IfOk result (λ phrase. phrase ≡ asked_phrase client.now) }
    {
        match client {
            Client::Cast { by, body } => Phrase::with_body(Word::Cast, by, body),
            Client::Publish { by, body } => Phrase::with_body(Word::Publish, by, body),
            Client::Get { by } => Ok(Phrase::own(Word::Get, by)),
            Client::Pop { by } => Ok(Phrase::own(Word::Pop, by)),
            Client::Ack { by, at } => Ok(Phrase::with(Word::Ack, by, Further::Position(*at))),
            Client::Requeue { by, at } => Ok(Phrase::with(
                Word::Requeue,
                by,
                Further::Position(*at),
            )),
            Client::Sync { by, target } => Ok(Phrase::with(Word::Sync, by, Further::Name(*target))),
            Client::Stop { by } => Ok(Phrase::own(Word::Stop, by)),
            Client::Admit { by, name } => Ok(Phrase::with(Word::Admit, by, Further::Name(*name))),
        }
    }

    /// The event that the phrase tells, where its word has what stands behind the name.
    pub fn event(self) -> Option<Event>
        ensures { result ≡ event_said self }
    {
        let Phrase { word, by, further } = self;
        match further {
            Further::Nothing => own_event(word, by),
            Further::Body(body) => event_with_body(word, by, body),
            Further::Name(name) => event_with_name(word, by, name),
            Further::Position(at) => event_with_position(word, by, at),
            Further::Version(view) => event_with_version(word, by, view),
        }
    }

    /// What the phrase asks as a client's, where its word has what stands behind the name and clients ask that.
    pub fn client(self) -> Option<Client>
        ensures { result ≡ client_said self }
    {
        asked_as(self.event()?)
    }

    /// The phrase of a word and a name alone.
    fn own(word: Word, by: &Name) -> Phrase
        ensures { result ≡ phrase word by.now Further.Nothing }
    {
        Phrase::with(word, by, Further::Nothing)
    }

    /// With a body.
    fn with_body(word: Word, by: &Name, body: &Body) -> Result<Phrase, OutOfMemory>
        ensures { IfOk result (λ p. p ≡ phrase word by.now (Further.Body body.now)) }
    {
        Ok(Phrase::with(word, by, Further::Body(body.copy()?)))
    }

    /// With this behind the name.
    fn with(word: Word, by: &Name, further: Further) -> Phrase
        ensures { result ≡ phrase word by.now further }
    {
        Phrase {
            word,
            by: *by,
            further,
        }
    }
}

/// The event of a word and a name alone.
fn own_event(word: Word, by: Name) -> Option<Event>
    ensures { result ≡ event_alone word by }
{
    match word {
        Word::Get => Some(Event::Get { by }),
        Word::Pop => Some(Event::Pop { by }),
        Word::Depth => Some(Event::Depth { by }),
        Word::Start => Some(Event::Start { by }),
        Word::Put => Some(Event::Put { by }),
        Word::Take => Some(Event::Take { by }),
        Word::TakeEnd => Some(Event::TakeEnd { by }),
        Word::Gain => Some(Event::Gain { by }),
        Word::Stop => Some(Event::Stop { by }),
        Word::Pick => Some(Event::Pick { by }),
        Word::Synced => Some(Event::Synced { by }),
        Word::SyncPut => Some(Event::SyncPut { by }),
        Word::SyncTake => Some(Event::SyncTake { by }),
        Word::SyncGain => Some(Event::SyncGain { by }),
        _ => None,
    }
}

/// With a body.
fn event_with_body(word: Word, by: Name, body: Body) -> Option<Event>
    ensures { result ≡ event_of_body word by body }
{
    match word {
        Word::Cast => Some(Event::Cast { by, body }),
        Word::Publish => Some(Event::Publish { by, body }),
        _ => None,
    }
}

/// With a further name.
fn event_with_name(word: Word, by: Name, name: Name) -> Option<Event>
    ensures { result ≡ event_of_name word by name }
{
    match word {
        Word::Sync => Some(Event::Sync { by, target: name }),
        Word::Mark => Some(Event::Mark { by, dead: name }),
        Word::Erase => Some(Event::Erase { by, origin: name }),
        Word::Admit => Some(Event::Admit { by, name }),
        _ => None,
    }
}

/// With a position.
fn event_with_position(word: Word, by: Name, at: Position) -> Option<Event>
    ensures { result ≡ event_of_position word by at }
{
    match word {
        Word::Ack => Some(Event::Ack { by, at }),
        Word::Requeue => Some(Event::Requeue { by, at }),
        _ => None,
    }
}

/// With a version.
fn event_with_version(word: Word, by: Name, view: u32) -> Option<Event>
    ensures { result ≡ event_of_version word by view }
{
    match word {
        Word::Refresh => Some(Event::Refresh { by, view }),
        _ => None,
    }
}

/// The event as what a client asks, where clients ask for it.
fn asked_as(event: Event) -> Option<Client>
    ensures { result ≡ asked_by event }
{
    match event {
        Event::Cast { by, body } => Some(Client::Cast { by, body }),
        Event::Publish { by, body } => Some(Client::Publish { by, body }),
        Event::Get { by } => Some(Client::Get { by }),
        Event::Pop { by } => Some(Client::Pop { by }),
        Event::Ack { by, at } => Some(Client::Ack { by, at }),
        Event::Requeue { by, at } => Some(Client::Requeue { by, at }),
        Event::Sync { by, target } => Some(Client::Sync { by, target }),
        Event::Stop { by } => Some(Client::Stop { by }),
        Event::Admit { by, name } => Some(Client::Admit { by, name }),
        _ => None,
    }
}
