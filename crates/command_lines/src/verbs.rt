//! The table of the verbs: their names, and how many arguments each takes.
//! Used by `command`; docs/FORMATS.md prints the same table.
ghost use Rattle.std.specs.Prelude.{◌≡◌};
ghost use Rattle.command_lines.specs.Verbs.{dialogue_of, has_permits, is_in, is_of_client, row_of, verb_of};

/// A verb of a command line.
#[derive(Clone, Copy, Debug, PartialEq, Eq)]
pub enum Verb {
    Begin,
    Arrive,
    Ask,
    Start,
    Back,
    Done,
    State,
    Sweep,
    Seal,
    Refresh,
    Fetch,
    Url,
    Info,
    Why,
    Quit,
}

// The most frequent ones come first.
const VERBS: [Verb; 15] = [
    Verb::Ask,
    Verb::Start,
    Verb::Done,
    Verb::Back,
    Verb::Begin,
    Verb::Arrive,
    Verb::State,
    Verb::Sweep,
    Verb::Seal,
    Verb::Refresh,
    Verb::Fetch,
    Verb::Url,
    Verb::Info,
    Verb::Why,
    Verb::Quit,
];

/// Who speaks in a session, and which verbs it has.
#[derive(Clone, Copy, Debug, PartialEq, Eq)]
pub enum Dialogue {
    /// A list of calls: each line begins with the moment of its call.
    Replay,
    /// A client, whose line has the moment at which it was taken; and whether robots.txt files and pages
    /// are fetched for it.
    Client { moment: u64, fetches: bool },
    /// An overseer fetches nothing: it seals the history, and looks. Its lines have moments too.
    Overseer { moment: u64 },
}

/// Who speaks to a server.
#[derive(Clone, Copy, Debug, PartialEq, Eq)]
pub enum Speaker {
    /// A client.
    Client,
    /// An overseer.
    Overseer,
}

impl Speaker {
    /// Its dialogue at a line's moment; `fetches` says whether pages are fetched for clients.
    pub fn dialogue(self, moment: u64, fetches: bool) -> Dialogue
        ensures { result ≡ dialogue_of self moment fetches }
    {
        match self {
            Speaker::Client => Dialogue::Client { moment, fetches },
            Speaker::Overseer => Dialogue::Overseer { moment },
        }
    }
}

impl Dialogue {
    fn is_of_client(self) -> bool
        ensures { result ≡ is_of_client self }
    {
        match self {
            Dialogue::Client { .. } => true,
            Dialogue::Replay | Dialogue::Overseer { .. } => false,
        }
    }

    // Whether it fetches pages, or has them fetched.
    fn has_permits(self) -> bool
        ensures { result ≡ has_permits self }
    {
        match self {
            Dialogue::Replay | Dialogue::Client { .. } => true,
            Dialogue::Overseer { .. } => false,
        }
    }
}

/// A row of the table.
#[derive(Clone, Copy)]
pub struct VerbRow {
    /// The name, in capitals.
    pub name: &'static str,
    /// The least number of arguments.
    pub least: usize,
    /// The most arguments; the largest number means unbounded.
    pub most: usize,
}

impl Verb {
    /// The verb of this name, if the dialogue has it.
    pub fn of(dialogue: Dialogue, name: &str) -> Option<Verb>
        ensures { result ≡ verb_of dialogue name.now }
    {
        VERBS
            .iter()
            .copied()
            .find(|verb| verb.row().name == name && verb.is_in(dialogue))
    }

    /// Whether the dialogue has the verb.
    pub fn is_in(self, dialogue: Dialogue) -> bool
        ensures { result ≡ is_in dialogue self }
    {
        match self {
            Verb::State | Verb::Seal | Verb::Quit => true,
            Verb::Ask | Verb::Start | Verb::Back | Verb::Done => dialogue.has_permits(),
            Verb::Begin | Verb::Arrive | Verb::Sweep => dialogue == Dialogue::Replay,
            Verb::Info | Verb::Why => dialogue != Dialogue::Replay,
            Verb::Url => dialogue.is_of_client(),
            Verb::Refresh | Verb::Fetch => match dialogue {
                Dialogue::Client { fetches, .. } => fetches,
                Dialogue::Replay | Dialogue::Overseer { .. } => false,
            },
        }
    }

    /// The verb's row of the table.
    pub fn row(self) -> VerbRow
        ensures name { result.name.now ≡ (row_of self).name }
        ensures least { result.least ≡ (row_of self).least }
        ensures most { result.most ≡ (row_of self).most }
    {
        match self {
            Verb::Begin => row("BEGIN", 1, 1),
            Verb::Arrive => row("ARRIVE", 2, usize::MAX),
            Verb::Ask => row("ASK", 2, 2),
            Verb::Start => row("START", 3, 3),
            Verb::Back => row("BACK", 1, 1),
            Verb::Done => row("DONE", 1, 1),
            Verb::State => row("STATE", 1, 1),
            Verb::Sweep => row("SWEEP", 0, 0),
            Verb::Seal => row("SEAL", 0, 0),
            Verb::Refresh => row("REFRESH", 1, 1),
            Verb::Fetch => row("FETCH", 2, 2),
            Verb::Url => row("URL", 1, 1),
            Verb::Info => row("INFO", 0, 0),
            Verb::Why => row("WHY", 1, 1),
            Verb::Quit => row("QUIT", 0, 0),
        }
    }
}

fn row(name: &'static str, least: usize, most: usize) -> VerbRow
    ensures name { result.name.now ≡ name.now }
    ensures least { result.least ≡ least }
    ensures most { result.most ≡ most }
{
    VerbRow { name, least, most }
}
