//! Positions in the text of a description.
ghost use Rattle.std.specs.Prelude.{◌≡◌, take};
ghost use Rattle.explanations.specs.Places.{line_after, column_after};

/// A position in a text: line and column, both counted from 1. Columns count bytes.
#[derive(Clone, Copy)]
pub struct Place {
    pub line: usize,
    pub column: usize,
}

impl Place {
    /// The position of the byte at the index `at`.
    pub fn of(text: &[u8], at: usize) -> Place
        ensures line { result.line ≡ line_after 1 (take at text.now) }
        ensures column { result.column ≡ column_after 1 (take at text.now) }
    {
        let before = &text[..at.min(text.len())];
        let mut line = 1;
        let mut column = 1;
        for byte in before {
            if *byte == b'\n' {
                line += 1;
                column = 1;
            } else {
                column += 1;
            }
        }
        Place { line, column }
    }
}
