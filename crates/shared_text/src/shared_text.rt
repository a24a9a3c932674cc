//! A text that shares one part with other texts.
ghost use Rattle.std.specs.Prelude.{◌≡◌, ◌<◌, ◌≤◌, ◌++◌, ℕ, List, length, drop, IfOk};

use crate::parts::rest_of_three;
use std::alloc::{AllocError, Global};
use std::marker::Model;

/// A shared part of at most this many bytes is copied, so that it is contiguous with the bytes around it.
const LONGEST_COPIED: usize = 65_536;

/// A text that may share one part with other texts. It borrows the shared part and does not copy it. In contracts, a
/// `SharedText` is its whole text.
#[derive(Drop)]
pub struct SharedText<'a> {
    own: Vec<u8>,
    /// How many of the text's own bytes come before the shared part.
    place: usize,
    shared: &'a [u8],
}

impl<'a> Model for SharedText<'a> {
    ghost use Rattle.std.specs.Prelude.{List, ℕ, ◌++◌, ◌≤◌, length, take, drop};

    ghost Value = { List ℕ };

    ghost view = { λ t. take t.place t.own.items ++ (t.shared.now ++ drop t.place t.own.items) };

    ghost invariant = { λ t. t.place ≤ length t.own.items };
}

impl<'a> SharedText<'a> {
    /// A text that shares nothing with other texts.
    pub fn of(text: Vec<u8>) -> SharedText<'a>
        ensures { result ≡ text.items }
    {
        SharedText {
            place: text.len(),
            own: text,
            shared: b"".as_slice(),
        }
    }

    /// A text that is shared as a whole.
    pub fn lent(alloc: Global, text: &'a [u8]) -> SharedText<'a>
        ensures { result ≡ text.now }
    {
        SharedText {
            own: Vec::new(alloc),
            place: 0,
            shared: text,
        }
    }

    /// The shared text between two other texts. Takes `before` and copies `after`.
    pub fn around(
        before: Vec<u8>,
        shared: &'a [u8],
        after: &[u8],
    ) -> Result<SharedText<'a>, AllocError>
        ensures { IfOk result (λ text. text ≡ before.items ++ (shared.now ++ after.now)) }
    {
        let place = before.len();
        let mut own = before;
        own.extend_from_slice(after)?;
        Ok(SharedText { own, place, shared })
    }

    /// The parts of the text in order: own bytes, the shared part, own bytes.
    pub fn parts(&self) -> (&[u8], &[u8], &[u8])
        ensures { result.0.now ++ (result.1.now ++ result.2.now) ≡ self.now }
    {
        let (before, after) = self.own.as_slice().split_at(self.place);
        (before, self.shared, after)
    }

    /// The number of bytes.
    pub fn len(&self) -> usize
        ensures { result ≡ length self.now }
    {
        self.own.len() + self.shared.len()
    }

    /// The text from `place` to the end of the part that contains `place`.
    pub fn rest(&self, place: usize) -> &[u8]
        requires { place ≤ length self.now }
        ensures front { (more : List ℕ) × (result.now ++ more ≡ drop place self.now) }
        ensures some { place < length self.now → 0 < length result.now }
    {
        let (before, shared, after) = self.parts();
        rest_of_three(before, shared, after, place)
    }

    /// The text with `front` before it. Copies a short shared part, so that the result is contiguous.
    pub fn behind(&self, front: Vec<u8>) -> Result<SharedText<'a>, AllocError>
        ensures { IfOk result (λ text. text ≡ front.items ++ self.now) }
    {
        let (before, after) = self.own.as_slice().split_at(self.place);
        let mut own = front;
        own.extend_from_slice(before)?;
        if self.shared.len() > LONGEST_COPIED {
            return SharedText::around(own, self.shared, after);
        }
        own.extend_from_slice(self.shared)?;
        own.extend_from_slice(after)?;
        Ok(SharedText::of(own))
    }

    /// Copies the text into one piece.
    pub fn joined(&self, alloc: Global) -> Result<Vec<u8>, AllocError>
        ensures { IfOk result (λ text. text.items ≡ self.now) }
    {
        let (before, shared, after) = self.parts();
        let mut text = Vec::with_capacity(alloc, self.len())?;
        text.extend_from_slice(before)?;
        text.extend_from_slice(shared)?;
        text.extend_from_slice(after)?;
        Ok(text)
    }

    /// The text in one piece. Copies nothing if no part of the text is shared.
    pub fn into_vec(self, alloc: Global) -> Result<Vec<u8>, AllocError>
        ensures { IfOk result (λ text. text.items ≡ self.entry) }
    {
        if self.shared.is_empty() {
            return Ok(self.own);
        }
        self.joined(alloc)
    }
}
