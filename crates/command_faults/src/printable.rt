//! Formats text from outside so that it fits on one line of standard error.

use std::fmt;
use std::fmt::Write as _;

/// Text from outside, such as an id, a name or a path. It is printed with `?` for each control character, so that it
/// can neither control the terminal nor begin a new line.
#[derive(Clone, Copy)]
pub struct Printable<'a>(pub &'a str);

impl fmt::Display for Printable<'_> {
    fn fmt<F: fmt::Write>(&self, f: &mut fmt::Formatter<F>) -> fmt::Result {
        for letter in self.0.chars() {
            f.write_char(if letter.is_control() { '?' } else { letter })?;
        }
        Ok(())
    }
}
