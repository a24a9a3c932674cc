//! The keys of a record, and the values at these keys.
ghost use Rattle.std.specs.Prelude.{◌≡◌, ◌<◌, Some, length, slice_get};

use desk_calls::Phase;
use game_core::{Text, Texts};
use match_book::{Cause, Mark};
use std::alloc::Global;
use std::marker::Model;

/// The keys of a record, in order.
#[derive(Clone, Copy, PartialEq, Eq)]
pub enum Key {
    Cause,
    EndMarks,
    Errors,
    GoalValues,
    MatchId,
    Moves,
    Phase,
    PlayClock,
    Players,
    Roles,
    StartClock,
    StartMarks,
    States,
    Strikes,
    Version,
}

impl Key {
    ghost use Rattle.record_reading.specs.RecordTree.{key_text};

    /// All keys. A record is written and checked in this order.
    pub const ALL: [Key; 15] = [
        Key::Cause,
        Key::EndMarks,
        Key::Errors,
        Key::GoalValues,
        Key::MatchId,
        Key::Moves,
        Key::Phase,
        Key::PlayClock,
        Key::Players,
        Key::Roles,
        Key::StartClock,
        Key::StartMarks,
        Key::States,
        Key::Strikes,
        Key::Version,
    ];

    /// The key as text.
    pub fn text(self) -> &'static str
        ensures { result.now ≡ key_text self }
    {
        match self {
            Key::Cause => "cause",
            Key::EndMarks => "endMarks",
            Key::Errors => "errors",
            Key::GoalValues => "goalValues",
            Key::MatchId => "matchId",
            Key::Moves => "moves",
            Key::Phase => "phase",
            Key::PlayClock => "playClock",
            Key::Players => "players",
            Key::Roles => "roles",
            Key::StartClock => "startClock",
            Key::StartMarks => "startMarks",
            Key::States => "states",
            Key::Strikes => "strikes",
            Key::Version => "version",
        }
    }
}

/// The version of a record. A record of the first version has no strikes; they count as 0.
#[derive(Clone, Copy, PartialEq, Eq)]
pub enum Version {
    First,
    Second,
}

impl Version {
    ghost use Rattle.record_reading.specs.RecordTree.{version_number};

    pub fn number(self) -> u8
        ensures { result ≡ version_number self }
    {
        match self {
            Version::First => 1,
            Version::Second => 2,
        }
    }
}

/// A list of texts for each turn, or for each state.
#[derive(Drop)]
pub struct TextLists {
    pub items: Vec<Texts>,
}

impl Model for TextLists {
    ghost use Rattle.std.specs.Prelude.{List, ℕ};

    ghost Value = { List (List (List ℕ)) };

    ghost view = { λ t. t.items.items };
}

impl TextLists {
    /// The number of lists.
    pub fn count(&self) -> usize
        ensures { result ≡ length self.now }
    {
        self.items.len()
    }

    /// The list with this index, counted from 0.
    pub fn at(&self, place: usize) -> &[Text]
        requires { place < length self.now }
        ensures { slice_get self.now place ≡ Some result.now }
    {
        self.items[place].as_slice()
    }
}

/// For each role, a mark or none.
#[derive(Drop)]
pub struct Marks {
    pub items: Vec<Option<Mark>>,
}

impl Model for Marks {
    ghost use Rattle.std.specs.Prelude.{List, Option};
    ghost use Rattle.match_book.specs.declared.answer.Mark.{Mark};

    ghost Value = { List (Option Mark) };

    ghost view = { λ m. m.items.items };
}

impl Marks {
    pub fn as_slice(&self) -> &[Option<Mark>]
        ensures { result.now ≡ self.now }
    {
        self.items.as_slice()
    }
}

/// One goal for each role, or no goals.
#[derive(Drop)]
pub struct Goals {
    pub items: Vec<u8>,
}

impl Model for Goals {
    ghost use Rattle.std.specs.Prelude.{List, ℕ};

    ghost Value = { List ℕ };

    ghost view = { λ g. g.items.items };
}

impl Goals {
    pub fn as_slice(&self) -> &[u8]
        ensures { result.now ≡ self.now }
    {
        self.items.as_slice()
    }
}

/// The values of a record, one field for each key.
#[derive(Drop)]
pub struct RecordParts {
    pub cause: Option<Cause>,
    pub end_marks: Marks,
    pub errors: TextLists,
    pub goals: Goals,
    pub id: Text,
    pub moves: TextLists,
    pub phase: Phase,
    pub play: u32,
    pub players: Texts,
    pub roles: Texts,
    pub start: u32,
    pub start_marks: Marks,
    pub states: TextLists,
    pub strikes: u8,
    pub version: Version,
}

impl RecordParts {
    /// Creates parts with empty values, to read a record into.
    pub fn new(alloc: Global) -> RecordParts {
        RecordParts {
            cause: None,
            end_marks: Marks {
                items: Vec::new(alloc),
            },
            errors: TextLists {
                items: Vec::new(alloc),
            },
            goals: Goals {
                items: Vec::new(alloc),
            },
            id: Text {
                bytes: Vec::new(alloc),
            },
            moves: TextLists {
                items: Vec::new(alloc),
            },
            phase: Phase::Starting,
            play: 0,
            players: Texts {
                items: Vec::new(alloc),
            },
            roles: Texts {
                items: Vec::new(alloc),
            },
            start: 0,
            start_marks: Marks {
                items: Vec::new(alloc),
            },
            states: TextLists {
                items: Vec::new(alloc),
            },
            strikes: 0,
            version: Version::First,
        }
    }
}
