//! Answers of players.
ghost use Rattle.std.specs.Prelude.{◌≡◌};
ghost use Rattle.desk_calls.specs.Answers.{answer_lent};

use game_core::Text;

/// A player's answer to a message.
#[derive(Drop)]
pub enum Answer {
    /// The body of the reply, as the player sent it.
    Text(Text),
    /// No answer came in time.
    Silent,
    /// No answer came: the connection failed.
    Broken,
}

/// An answer with borrowed text.
#[derive(Clone, Copy)]
pub enum LentAnswer<'a> {
    Text(&'a Text),
    Silent,
    Broken,
}

impl Answer {
    /// Borrows the answer.
    pub fn lend(&self) -> LentAnswer<'_>
        ensures { answer_lent result ≡ self.now }
    {
        match self {
            Answer::Text(text) => LentAnswer::Text(text),
            Answer::Silent => LentAnswer::Silent,
            Answer::Broken => LentAnswer::Broken,
        }
    }
}
