//! Laws about lawful managers, and about the answers behind recorded moves.
ghost use Rattle.call_history.specs.History.{run, IsLegalHistory};
ghost use Rattle.std.specs.Prelude.{◌≡◌, []};
ghost use Rattle.match_desk.specs.ManagerValue.{IsLawfulManager};
ghost use Rattle.match_desk.specs.Internal.MatchLaws.{MatchLaws};
ghost use Rattle.match_desk.specs.Steps.{reply, after};
ghost use Rattle.match_desk.specs.Accepted.{AreAccounted};

use crate::manager::Manager;
use call_history::Entry;
use desk_calls::{Call, Reply};
use game_core::Game;
use match_book::laws::{
    abort_keeps_lawful, answers_in_play, answers_keep_lawful, new_match_is_lawful,
    no_error_means_named, recorded_moves_are_legal, stages_are_settled, taken_for_the_round,
};

pub(crate) fn match_laws<G: Game>()
    ensures { (game : G) → MatchLaws (G.rules game) }
{
    new_match_is_lawful::<G>();
    answers_keep_lawful::<G>();
    abort_keeps_lawful::<G>();
    recorded_moves_are_legal::<G>();
    no_error_means_named::<G>();
    answers_in_play::<G>();
    taken_for_the_round::<G>();
    stages_are_settled::<G>();
}

/// Each recorded move comes from one accepted answer. Take a history that is legal from an opening, a recorded turn of a
/// match, and a role that the earlier turns do not retire. Exactly one entry is an accepted answer for them: a `Submit` or
/// a `Miss` for the match's id, the role and the turn's round, with the reply `Taken`. The recorded move and its error are
/// the judgement of this answer in the state before the turn. If the earlier turns retire a role, no entry is an accepted
/// answer for that role.
pub fn answers_are_accounted<G: Game>(opening: &Manager<G>, history: &[Entry<Call, Reply>])
    requires opening { opening.now.matches ≡ [] }
    requires legal { IsLegalHistory (reply G.rules) (after G.rules) opening.now history.now }
    ensures { AreAccounted G.rules (run (after G.rules) opening.now history.now) history.now }
{
    match_laws::<G>();
}

/// Each manager is lawful: each match is a lawful match of its game, with a setup that can be opened and a unique id.
pub fn managers_are_lawful<G: Game>(manager: &Manager<G>)
    ensures { IsLawfulManager G.rules manager.now }
{
    manager.matches();
}

/// The manager after a history that is legal from an opening is lawful.
pub fn histories_leave_lawful_managers<G: Game>(
    opening: &Manager<G>,
    history: &[Entry<Call, Reply>],
)
    requires opening { opening.now.matches ≡ [] }
    requires legal { IsLegalHistory (reply G.rules) (after G.rules) opening.now history.now }
    ensures { IsLawfulManager G.rules (run (after G.rules) opening.now history.now) }
{
    match_laws::<G>();
}
