//! States of packed games.
ghost use Rattle.std.specs.Prelude.{◌≡◌};
ghost use Rattle.ground_rules.specs.Numbered.{bit};

use crate::bits::BitRow;
use std::marker::Model;

/// A state as one row of bits: one for each term, then one for each derived atom that does not depend on moves. Contracts
/// see both rows.
#[derive(Drop)]
pub struct PackedState {
    pub(crate) bits: BitRow,
    pub(crate) terms: usize,
}

impl Model for PackedState {
    ghost use Rattle.ground_rules.specs.States.{StateRows};
    ghost use Rattle.packed_rules.specs.Rows.{rows_at};

    ghost Value = { StateRows };

    ghost view = { λ s. rows_at s.terms s.bits };
}

impl PackedState {
    pub(crate) fn has_term(&self, term: usize) -> bool
        ensures { result ≡ bit self.now.row term }
    {
        self.bits.is_set_before(self.terms, term)
    }

    /// Whether the derived atom, which does not depend on moves, is true.
    pub(crate) fn has_atom(&self, atom: usize) -> bool
        ensures { result ≡ bit self.now.kept atom }
    {
        self.bits.is_set_after(self.terms, atom)
    }
}
