//! Rules with numbers for derived atoms, terms and roles.

/// A literal over numbers.
#[derive(Drop)]
pub enum Literal {
    Holds(usize),
    InState(usize),
    /// A role, and the term of its move.
    Does(usize, usize),
    Not(Box<Literal>),
    Or(Vec<Literal>),
    /// A literal that is always true or always false, for example a `distinct` literal.
    Known(bool),
}

/// A head and its literals.
#[derive(Drop)]
pub struct Rule {
    pub head: usize,
    pub body: Vec<Literal>,
}
