//! Rows of truth values.
ghost use Rattle.std.specs.Prelude.{◌≡◌, IfOk, slice_set, true};
ghost use Rattle.numbered_rules.specs.Numbered.{bit, unset};

use std::alloc::{AllocError, Global};
use std::marker::Model;

/// A list of truth values. Contracts see the list.
#[derive(Drop)]
pub struct Row {
    values: Vec<bool>,
}

impl Model for Row {
    ghost use Rattle.std.specs.Prelude.{List, Bool};

    ghost Value = { List Bool };

    ghost view = { λ r. r.values.items };
}

impl Row {
    /// Creates a row of `size` values, all false.
    pub fn unset(alloc: Global, size: usize) -> Result<Row, AllocError>
        ensures { IfOk result (λ r. r ≡ unset size) }
    {
        let values = vec![in alloc; false; size]?;
        Ok(Row { values })
    }

    /// The value at this place, or false past the end.
    pub fn is_set(&self, place: usize) -> bool
        ensures { result ≡ bit self.now place }
    {
        if place < self.values.len() {
            self.values[place]
        } else {
            false
        }
    }

    /// Sets the value at this place to true. Does nothing past the end.
    pub fn set(&mut self, place: usize)
        ensures { self.new ≡ slice_set self.old place true }
    {
        if place < self.values.len() {
            self.values[place] = true;
        }
    }
}

impl Clone for Row {
    ghost is_clone = { λ r copy. copy ≡ r };

    fn clone(&self) -> Result<Row, AllocError> {
        Ok(Row {
            values: self.values.clone()?,
        })
    }
}
