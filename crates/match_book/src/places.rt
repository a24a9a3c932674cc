//! Lists with one place for each role.
ghost use Rattle.std.specs.Prelude.{◌≡◌, IfOk, length};
ghost use Rattle.match_book.specs.Roles.{every_role, is_there, blank};

use std::alloc::{AllocError, Global};

/// Creates `count` empty places.
pub fn blank<T: Drop>(alloc: Global, count: usize) -> Result<Vec<Option<T>>, AllocError>
    ensures { IfOk result (λ v. v.items ≡ blank count) }
{
    let mut places = Vec::with_capacity(alloc, count)?;
    for place in 0..count {
        places.push(None)?;
    }
    Ok(places)
}

/// Empties all places.
pub fn clear<T: Drop>(places: &mut Vec<Option<T>>)
    ensures items { places.new.items ≡ blank (length places.old.items) }
{
    for place in 0..places.len() {
        places[place] = None;
    }
}

/// Whether all places are filled.
pub fn are_all_there<T>(places: &[Option<T>]) -> bool
    ensures { result ≡ every_role (length places.now) (is_there places.now) }
{
    for place in places {
        if place.is_none() {
            return false;
        }
    }
    true
}
