//! The data that the messages of a match contain.
ghost use Rattle.std.specs.Prelude.{◌≡◌};
ghost use Rattle.match_messages.specs.BriefValue.{brief_value};

use crate::shared_brief::SharedBrief;
use crate::start_rules::StartRules;
use game_core::{Text, Texts};
use kif_text::Expr;

/// The data that the players of a match get: the match's id, the names of the roles in order, the rules of the game, and
/// the clocks for START and PLAY in seconds.
#[derive(Drop)]
pub struct Brief {
    pub id: Text,
    pub roles: Texts,
    pub rules: Vec<Expr>,
    pub start: u32,
    pub play: u32,
}

impl Brief {
    /// Borrows the data.
    pub fn shared(&self) -> SharedBrief<'_>
        ensures { result ≡ brief_value self.now }
    {
        SharedBrief {
            id: &self.id,
            roles: &self.roles,
            rules: StartRules::Sentences(&self.rules),
            start: self.start,
            play: self.play,
        }
    }
}
