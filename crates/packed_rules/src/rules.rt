//! Packed rules.
use numbered_rules::numbered::Literal;

/// A place in the row of a state, and the value that it must have.
#[derive(Clone, Copy)]
pub struct Test {
    pub place: u32,
    pub value: bool,
}

/// A role, the term of a move, and whether the role must make this move or must not make it.
#[derive(Clone, Copy)]
pub struct MoveTest {
    pub role: u32,
    pub term: u32,
    pub value: bool,
}

/// A packed rule with separate lists of literals.
#[derive(Drop)]
pub struct PackedRule {
    /// The number of the derived atom.
    pub head: usize,
    /// The literals that depend on the value at one place.
    pub tests: Vec<Test>,
    /// The literals that depend on the move of one role.
    pub moves: Vec<MoveTest>,
    /// The other literals.
    pub others: Vec<Literal>,
}

/// The head of a packed rule, and how many literals of each kind it has.
#[derive(Clone, Copy)]
pub struct RuleSize {
    /// The number of the derived atom.
    pub head: usize,
    pub tests: usize,
    pub moves: usize,
    pub others: usize,
}
