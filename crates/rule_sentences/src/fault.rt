//! Why the loader refuses a description.
ghost use Rattle.std.specs.Prelude.{◌≡◌};
ghost use Rattle.rule_sentences.specs.declared.fault.LoadFault.TheVariants.{Memory};

use std::alloc::{AllocError, AllocFailed};
use thiserror::Error;

/// Why a list of expressions is not a ground description. The loader checks all sentences for one of these errors before it
/// checks for the next. The first three errors have the number of the first wrong sentence, counted from 0.
#[derive(Clone, Copy, Debug, PartialEq, Eq, Error)]
pub enum LoadFault {
    /// An atom in the sentence begins with `?`.
    #[error("sentence {0} has a variable")]
    Variable(usize),
    /// The sentence is not proper, or is neither a fact nor a rule.
    #[error("sentence {0} is neither a fact nor a rule")]
    BadForm(usize),
    /// An atomic sentence is in a position that GDL does not allow: `init` and `next` may only be heads, `true` and `does`
    /// may only be in bodies, and `role` may only be in bodies or be a fact.
    #[error("sentence {0} has an atomic sentence in a position that GDL does not allow")]
    Misplaced(usize),
    /// There is no `role` fact.
    #[error("the description has no role")]
    NoRole,
    /// Two `role` facts name the same role.
    #[error("two role facts have the same name")]
    RoleTwice,
    /// The description has more sentences or distinct atomic sentences than the limits allow, more than 16 roles, or more
    /// than 4,096 distinct moves in the `legal` heads of one role.
    #[error("the description is too large")]
    TooLarge,
    /// A derived atom depends on itself.
    #[error("a derived atom depends on itself")]
    Cyclic,
    /// A `legal`, `goal` or `terminal` head depends on a `does` sentence, or an `init` head depends on a `true` or `does`
    /// sentence.
    #[error("a head depends on a sentence that it may not depend on")]
    Depends,
    /// Out of memory.
    #[error("out of memory")]
    Memory,
}

impl From<AllocError> for LoadFault {
    ghost from_gives = { λ _ fault. fault ≡ Memory };

    fn from(_: AllocError) -> LoadFault {
        LoadFault::Memory
    }
}

impl<T: Drop> From<AllocFailed<T>> for LoadFault {
    ghost from_gives = { λ _ fault. fault ≡ Memory };

    fn from(_: AllocFailed<T>) -> LoadFault {
        LoadFault::Memory
    }
}
