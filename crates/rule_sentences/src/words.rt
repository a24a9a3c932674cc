//! The reserved words of GDL.
ghost use Rattle.std.specs.Prelude.{◌≡◌};

/// The meaning of a word at the head of a list, or of a single word.
#[derive(Clone, Copy)]
pub enum Word {
    Role,
    Init,
    True,
    Next,
    Does,
    Legal,
    Goal,
    Terminal,
    If,
    Not,
    Or,
    Distinct,
    And,
    /// Any word that GDL does not reserve.
    Plain,
}

impl Word {
    ghost use Rattle.rule_sentences.specs.Words.{word_of};

    /// The meaning of the word with these bytes.
    pub fn of(bytes: &[u8]) -> Word
        ensures { result ≡ word_of bytes.now }
    {
        if bytes == b"role".as_slice() {
            Word::Role
        } else if bytes == b"init".as_slice() {
            Word::Init
        } else if bytes == b"true".as_slice() {
            Word::True
        } else if bytes == b"next".as_slice() {
            Word::Next
        } else if bytes == b"does".as_slice() {
            Word::Does
        } else if bytes == b"legal".as_slice() {
            Word::Legal
        } else if bytes == b"goal".as_slice() {
            Word::Goal
        } else if bytes == b"terminal".as_slice() {
            Word::Terminal
        } else if bytes == b"<=".as_slice() {
            Word::If
        } else if bytes == b"not".as_slice() {
            Word::Not
        } else if bytes == b"or".as_slice() {
            Word::Or
        } else if bytes == b"distinct".as_slice() {
            Word::Distinct
        } else if bytes == b"and".as_slice() {
            Word::And
        } else {
            Word::Plain
        }
    }
}
