//! The table of a check: the messages to the player, its answers, and their verdicts.
ghost use Rattle.std.specs.Prelude.{◌≡◌, [], IfOk, None, false, option_copied, string_bytes};
ghost use Rattle.player_commands.specs.Rows.{row_verdict};
ghost use Rattle.player_commands.specs.Tables.{played_text};
ghost use Rattle.player_commands.specs.Verdicts.{is_refused, verdict_of};

use crate::role_turns::RoleTurn;
use crate::watched::{AnswerKind, Exchange};
use kif_text::KifFault;
use match_book::{MAX_ANSWER, UNREADABLE};
use match_log::Shown;
use std::alloc::{AllocError, Global};
use std::fmt;

/// The names of the columns, as the first line of the table.
pub const HEADER: &[u8] = b"role\tmessage\tanswer\tverdict\tplayed\tms\tfault\n";

/// The verdict on an answer.
#[derive(Clone, Copy)]
pub enum Verdict {
    /// The message did not ask for a move.
    Taken,
    /// The answer is a legal move.
    Legal,
    /// The answer is a move, but not a legal one.
    Illegal,
    /// The answer is not a move.
    NoMove,
    /// No answer came in time.
    Late,
    /// The answer cannot be read, or the connection failed.
    Broken,
    /// The turn was not recorded, because the match was aborted.
    Dropped,
}

impl Verdict {
    ghost use Rattle.player_commands.specs.Verdicts.{is_good};

    /// Whether the verdict is taken, legal or dropped. An answer with any other verdict is bad.
    pub fn is_good(self) -> bool
        ensures { result ≡ is_good self }
    {
        matches!(self, Verdict::Taken | Verdict::Legal | Verdict::Dropped)
    }
}

impl fmt::Display for Verdict {
    ghost use Rattle.std.specs.Prelude.{Some};
    ghost use Rattle.player_commands.specs.Verdicts.{verdict_text};

    ghost output = { λ verdict. Some (verdict_text verdict) };

    fn fmt<F: fmt::Write>(&self, f: &mut fmt::Formatter<F>) -> fmt::Result {
        f.write_str(match self {
            Verdict::Taken => "taken",
            Verdict::Legal => "legal",
            Verdict::Illegal => "not legal",
            Verdict::NoMove => "no move",
            Verdict::Late => "none in time",
            Verdict::Broken => "broken",
            Verdict::Dropped => "dropped",
        })
    }
}

/// The verdict on an answer. `error` is the error of the answer's turn, if the turn was recorded.
pub fn verdict_of(is_play: bool, brought: AnswerKind, error: Option<&[u8]>) -> Verdict
    ensures { result ≡ verdict_of is_play brought (option_copied error.entry) }
{
    match (brought, error) {
        (AnswerKind::Silence, _) => Verdict::Late,
        (AnswerKind::Break, _) => Verdict::Broken,
        (AnswerKind::Text, _) if !is_play => Verdict::Taken,
        (AnswerKind::Text, None) => Verdict::Dropped,
        (AnswerKind::Text, Some(error)) if error.is_empty() => Verdict::Legal,
        (AnswerKind::Text, Some(error)) if error == UNREADABLE => Verdict::NoMove,
        (AnswerKind::Text, Some(_)) => Verdict::Illegal,
    }
}

/// The verdict on an exchange, given its turn if that was recorded.
pub fn row_verdict(exchange: &Exchange, turn: Option<&RoleTurn>) -> Verdict
    ensures { result ≡ row_verdict exchange.now (option_copied turn.entry) }
{
    let error = match turn {
        Some(turn) => Some(turn.error.as_slice()),
        None => None,
    };
    verdict_of(exchange.is_play, exchange.brought, error)
}

/// The column `fault` for an exchange with this turn and this verdict: the error, or the reason why the answer is not a
/// move or not legal. If there is neither, this is an empty string.
pub fn fault_words(
    alloc: Global,
    exchange: &Exchange,
    turn: Option<&RoleTurn>,
    verdict: Verdict,
) -> Result<String, AllocError>
    ensures { exchange.now.fault ≡ None → is_refused verdict ≡ false → IfOk result (λ words. string_bytes words ≡ []) }
{
    if let Some(fault) = exchange.fault {
        return format!(in alloc; "{fault}");
    }
    match (verdict, exchange.unread, turn) {
        (Verdict::NoMove, Some(KifFault::TooLong), _) => {
            format!(in alloc; "the text has more than {MAX_ANSWER} bytes")
        }
        (Verdict::NoMove, Some(fault), _) => format!(in alloc; "{fault}"),
        (Verdict::NoMove, None, _) => String::from_str(alloc, "? is not a move"),
        (Verdict::Illegal, _, Some(turn)) => String::from_str(alloc, turn.words.as_str()),
        _ => Ok(String::new(alloc)),
    }
}

/// A row of the table, for one message to the player.
#[derive(Drop)]
pub struct Row<'a> {
    pub role: &'a [u8],
    pub exchange: &'a Exchange,
    /// The turn that the message asked for, if it was recorded.
    pub turn: Option<&'a RoleTurn>,
    /// The text of the column `fault`.
    pub words: &'a str,
}

/// The text of the move in a turn. It is empty if there is no turn.
fn played_text(turn: Option<&RoleTurn>) -> &[u8]
    ensures { result.now ≡ played_text (option_copied turn.entry) }
{
    match turn {
        Some(turn) => turn.played.as_slice(),
        None => &[],
    }
}

impl fmt::Display for Row<'_> {
    ghost use Rattle.std.specs.Prelude.{Some};
    ghost use Rattle.player_commands.specs.Tables.{row_text};

    ghost output = { λ row. Some (row_text row.role.now row.exchange.now (option_copied row.turn) row.words.now) };

    fn fmt<F: fmt::Write>(&self, f: &mut fmt::Formatter<F>) -> fmt::Result {
        let Exchange {
            message,
            is_play: _,
            answer,
            brought: _,
            unread: _,
            fault: _,
            millis,
        } = self.exchange;
        let (role, played) = (Shown::text(self.role), Shown::text(played_text(self.turn)));
        let verdict = row_verdict(self.exchange, self.turn);
        let words = self.words;
        writeln!(
            f,
            "{role}\t{message}\t{answer}\t{verdict}\t{played}\t{millis}\t{words}"
        )
    }
}
