//! Laws about the messages that the desk of a refereed match owed to each role.
ghost use Rattle.match_workers.specs.Laws.{RolesAreOwed};

use game_core::Game;
use match_book::laws::{answers_keep_lawful, messages_are_answered, new_match_is_lawful};
use match_messages::Player;

/// In a refereed match, the desk owed a role whose worker found the end exactly these messages, each once and in this
/// order:
///
/// - START;
/// - PLAY before each turn, with the joint move of the previous turn, until the role is retired;
/// - STOP or ABORT.
///
/// The turns are those of the match in the closed desk.
pub fn roles_are_owed<G: Game, P: Player>()
    ensures { RolesAreOwed G.rules P.handed }
{
    new_match_is_lawful::<G>();
    answers_keep_lawful::<G>();
    messages_are_answered::<G>();
}
