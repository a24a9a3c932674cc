//! Limits of games, descriptions and expressions.
ghost use Rattle.std.specs.Prelude.{◌≡◌};
ghost use Rattle.game_core.specs.Limits.{max_bytes, max_sentences, max_atomic_sentences};

/// The largest number of roles of a game.
pub const MAX_ROLES: usize = 16;

/// The highest goal value.
pub const MAX_GOAL: u8 = 100;

/// The largest depth of nested lists in a proper expression.
pub const MAX_DEPTH: usize = 64;

/// The set of limits that applies to a description.
#[derive(Clone, Copy)]
pub enum Limits {
    /// The limits of ordinary games.
    Usual,
    /// The limits of large games.
    Large,
}

impl Limits {
    /// The largest number of bytes: 1,048,576, or 16,777,216 for large games.
    pub fn bytes(self) -> usize
        ensures { result ≡ max_bytes self }
    {
        match self {
            Limits::Usual => 1_048_576,
            Limits::Large => 16_777_216,
        }
    }

    /// The largest number of sentences: 8,192, or 262,144 for large games.
    pub fn sentences(self) -> usize
        ensures { result ≡ max_sentences self }
    {
        match self {
            Limits::Usual => 8192,
            Limits::Large => 262_144,
        }
    }

    /// The largest number of distinct atomic sentences: 16,384, or 262,144 for large games.
    pub fn atomic_sentences(self) -> usize
        ensures { result ≡ max_atomic_sentences self }
    {
        match self {
            Limits::Usual => 16_384,
            Limits::Large => 262_144,
        }
    }
}
