//! Explains why an answer is not a legal move.
ghost use Rattle.std.specs.Prelude.{◌≡◌, ◌<◌, All, length};

use game_core::Game;
use match_book::{ILLEGAL_PREFIX, Match, place_of};
use match_log::Shown;
use std::alloc::{AllocError, Global};

/// The largest number of bytes of an explanation. If not all legal moves fit, two dots replace the rest. The dots do
/// not count.
const TOLD: usize = 200;

/// Whether a move with this text is legal for the role in the state.
fn is_legal<G: Game>(
    alloc: Global,
    game: &G,
    state: &G::State,
    role: usize,
    text: &[u8],
) -> Result<bool, AllocError>
    requires state { (G.rules game.now).IsState state.now }
    requires role { role < (G.rules game.now).roles }
{
    let moves = game.legal(alloc, state, role)?;
    Ok(place_of(game, &moves, text).is_some())
}

/// Appends the number of these legal moves, and the first of them.
fn push_legal<G: Game>(game: &G, moves: &[G::Move], words: &mut String) -> Result<(), AllocError>
    requires { All (λ m. (G.rules game.now).IsMove m) moves.now }
{
    write!(words, "legal moves ({}):", moves.len())?;
    let mut gap = " ";
    for taken in moves {
        let text = game.move_text(taken);
        let room = TOLD.saturating_sub(words.len());
        if gap.len().saturating_add(text.len()) > room {
            return write!(words, "{gap}..");
        }
        write!(words, "{gap}{}", Shown::text(text))?;
        gap = ", ";
    }
    Ok(())
}

/// If the role's answer in a recorded turn was not a legal move, appends an explanation: the other roles that the move
/// is legal for, whether it was legal for this role one turn earlier, and the legal moves. Otherwise appends nothing.
pub fn push_illegal_words<G: Game>(
    alloc: Global,
    game: &G,
    held: &Match<G>,
    turn: usize,
    role: usize,
    words: &mut String,
) -> Result<(), AllocError>
    requires game { held.now.game ≡ game.now }
    requires turn { turn < length held.now.value.turns }
    requires role { role < (G.rules game.now).roles }
{
    let Some(named) = held.error_at(turn, role).strip_prefix(ILLEGAL_PREFIX) else {
        return Ok(());
    };
    let state = held.state_after(turn);
    for other in 0..game.roles() {
        if other != role && is_legal(alloc, game, state, other, named)? {
            write!(words, "legal for {}; ", Shown::text(game.role_name(other)))?;
        }
    }
    if turn > 0 && is_legal(alloc, game, held.state_after(turn - 1), role, named)? {
        words.push_str("legal a turn before; ")?;
    }
    push_legal(game, &game.legal(alloc, state, role)?, words)
}
