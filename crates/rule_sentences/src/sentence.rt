//! Sentences of a ground description, with the canonical texts of their terms.
use game_core::Text;

/// A derived atom: an atomic sentence that is true only if a rule derives it. Names and terms are canonical texts.
#[derive(Clone, PartialEq, Eq, Hash, Drop)]
pub enum Derived {
    Role(Text),
    Init(Text),
    Next(Text),
    Legal(Text, Text),
    Goal(Text, u8),
    Terminal,
    /// An atomic sentence with any other relation, as its canonical text.
    Other(Text),
}

/// An atomic sentence: a derived atom, `(true t)` or `(does r m)`.
#[derive(Clone, PartialEq, Eq, Hash, Drop)]
pub enum Atomic {
    Derived(Derived),
    InState(Text),
    Does(Text, Text),
}

/// A literal in the body of a rule.
#[derive(Drop)]
pub enum Literal {
    Atomic(Atomic),
    Not(Box<Literal>),
    Or(Vec<Literal>),
    Distinct(Text, Text),
}

/// A sentence: a head and its literals. A fact has no literals.
#[derive(Drop)]
pub struct Sentence {
    pub head: Atomic,
    pub body: Vec<Literal>,
}

/// A sentence with all its atomic sentences in allowed positions.
#[derive(Drop)]
pub struct Rule {
    pub head: Derived,
    pub body: Vec<Literal>,
}
