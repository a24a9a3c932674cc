//! Borrowed data of a match.
ghost use Rattle.std.specs.Prelude.{◌≡◌, IfOk, length};

use crate::start_rules::StartRules;
use game_core::{Text, Texts};
use std::alloc::{AllocError, Global};
use std::marker::Model;

/// The borrowed data of a match. Contracts see only the data.
#[derive(Drop)]
pub struct SharedBrief<'r> {
    pub id: &'r Text,
    pub roles: &'r Texts,
    pub rules: StartRules<'r>,
    pub start: u32,
    pub play: u32,
}

impl<'r> Model for SharedBrief<'r> {
    ghost use Rattle.match_messages.specs.BriefValue.{BriefValue};
    ghost use Rattle.match_messages.specs.StartRules.{start_rules_text};

    ghost Value = { BriefValue };

    ghost view = { λ b. record { id = b.id.now; roles = b.roles.now; rules = start_rules_text b.rules; start = b.start; play = b.play } };
}

impl SharedBrief<'_> {
    pub fn copy_id(&self, alloc: Global) -> Result<Text, AllocError>
        ensures { IfOk result (λ id. id ≡ self.now.id) }
    {
        self.id.copy(alloc)
    }

    pub fn role_count(&self) -> usize
        ensures { result ≡ length self.now.roles }
    {
        self.roles.as_slice().len()
    }
}
