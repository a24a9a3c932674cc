//! The rules in START.
ghost use Rattle.std.specs.Prelude.{◌≡◌, IfOk};
ghost use Rattle.game_core.specs.Expression.{all_folded};
ghost use Rattle.kif_text.specs.View.{views};
ghost use Rattle.match_messages.specs.RulesText.{rules_text};

use crate::writing::push_sentences;
use game_core::Text;
use kif_text::{Expr, folded_copies};
use std::alloc::{AllocError, Global};
use std::marker::Model;

/// The rules of a game, printed once for all roles and matches. Contracts see their text.
#[derive(Drop)]
pub struct PrintedRules {
    text: Text,
}

impl Model for PrintedRules {
    ghost use Rattle.std.specs.Prelude.{ℕ, List};

    ghost Value = { List ℕ };

    ghost view = { λ p. p.text };
}

impl PrintedRules {
    /// Prints the rules as one list.
    pub fn of(alloc: Global, rules: &[Expr]) -> Result<PrintedRules, AllocError>
        ensures { IfOk result (λ printed. printed ≡ rules_text (views rules.now)) }
    {
        let mut bytes = Vec::new(alloc);
        push_sentences(alloc, &mut bytes, rules)?;
        Ok(PrintedRules {
            text: Text { bytes },
        })
    }

    /// Prints the rules as one list, in lower case.
    pub fn without_capitals(alloc: Global, rules: &[Expr]) -> Result<PrintedRules, AllocError>
        ensures { IfOk result (λ printed. printed ≡ rules_text (all_folded (views rules.now))) }
    {
        let folded = folded_copies(alloc, rules)?;
        PrintedRules::of(alloc, &folded)
    }

    /// The text of the list.
    pub fn text(&self) -> &[u8]
        ensures { result.now ≡ self.now }
    {
        self.text.as_slice()
    }
}

/// The rules in START: sentences, or their text if it is shared.
#[derive(Clone, Copy)]
pub enum StartRules<'r> {
    Sentences(&'r [Expr]),
    Printed(&'r PrintedRules),
}
