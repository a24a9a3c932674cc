//! Formats text to a stream.
ghost use Rattle.std.specs.Io.KnownBytes.{Appends};

use std::fmt;
use std::io::Write;

/// A stream for formatted text. It writes each piece with as many writes as needed, and stops at a write that fails, is
/// interrupted or takes no bytes. The `write_all` of std would repeat interrupted writes without a limit.
#[derive(Drop)]
pub struct Pieces<'a, E> {
    pub stream: &'a mut E,
}

impl<E: Write> fmt::Write for Pieces<'_, E> {
    ghost write_str_gives = { λ old text new. Appends (E.contents old.stream.now) (E.contents new.stream.now) text };

    fn write_str(&mut self, text: &str) -> fmt::Result {
        let mut rest = text.as_bytes();
        while !rest.is_empty() {
            match self.stream.write(rest) {
                Ok(count) if count > 0 => rest = &rest[count..],
                _ => return Err(fmt::Error),
            }
        }
        Ok(())
    }
}
