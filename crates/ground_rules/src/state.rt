//! States and moves of ground games.
use numbered_rules::Row;
use std::marker::Model;

/// A state: a truth value for each term, and for each derived atom that does not depend on moves. Contracts see both rows.
#[derive(Drop)]
pub struct GroundState {
    pub(crate) row: Row,
    pub(crate) kept: Row,
}

impl Model for GroundState {
    ghost use Rattle.ground_rules.specs.States.{StateRows};

    ghost Value = { StateRows };

    ghost view = { λ s. record { row = s.row; kept = s.kept } };
}

/// A move, as the number of its term.
#[derive(Clone, Copy)]
pub struct GroundMove {
    pub term: usize,
}
