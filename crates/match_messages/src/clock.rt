//! The clocks in a message.
ghost use Rattle.std.specs.Prelude.{◌≡◌};
ghost use Rattle.kif_text.specs.View.{view};
ghost use Rattle.match_messages.specs.Clock.{clock_of, clock_in};

use desk_calls::{MAX_CLOCK, is_clock};
use game_core::numeral::plain_number;
use kif_text::Expr;

/// The seconds in a word, if the word is a lawful clock.
fn clock_of(word: &[u8]) -> Option<u32>
    ensures { result ≡ clock_of word.now }
{
    let seconds = plain_number(word, MAX_CLOCK as usize)? as u32;
    if is_clock(seconds) {
        Some(seconds)
    } else {
        None
    }
}

/// The seconds in an expression, if the expression is a lawful clock.
pub fn clock_in(expr: &Expr) -> Option<u32>
    ensures { result ≡ clock_in (view expr.now) }
{
    match expr {
        Expr::Atom(word) => clock_of(word.as_slice()),
        Expr::List(_) => None,
    }
}
