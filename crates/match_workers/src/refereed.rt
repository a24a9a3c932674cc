ghost use Rattle.std.specs.Prelude.{◌≡◌, Some, length};
ghost use Rattle.desk_calls.specs.Names.{IsLawfulSetup};
ghost use Rattle.match_workers.specs.OneMatch.{first_match};

use call_history::Closed;
use game_core::Game;
use match_book::Match;
use match_desk::Manager;
use match_desk::laws::managers_are_lawful;
use role_workers::AttendFault;

/// The result of a refereed match.
#[derive(Drop)]
pub struct Refereed<G: Game> {
    /// The desk's history, and its manager, whose only match is this one.
    pub closed: Closed<Manager<G>>,
    /// The result of attending each role, in the order of the roles: the number of messages that the role's player
    /// received, or an error.
    pub ends: Vec<Result<u64, AttendFault>>,
    ghost one_match: { length closed.object.matches ≡ 1 },
}

impl<G: Game> Refereed<G> {
    /// The only match of the desk, and its game.
    pub fn game_and_match(&self) -> (&G, &Match<G>)
        ensures one { length self.now.closed.object.matches ≡ 1 }
        ensures held { first_match self.now.closed.object ≡ Some result.1.now }
        ensures game { result.1.now.game ≡ result.0.now }
        ensures setup { IsLawfulSetup result.1.now.value.setup }
    {
        let manager = &self.closed.object;
        managers_are_lawful(manager);
        let game = manager.game_of_match(0).unwrap();
        let held = manager.match_at(0).unwrap();
        (game, held)
    }
}
