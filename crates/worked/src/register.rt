//! An object whose calls can be counted by hand.
use call_history::Object;
use std::alloc::{AllocError, Global};

/// A number that each call replaces. The reply is the number before the call.
#[derive(Clone, Copy)]
pub struct Register {
    pub value: u64,
}

impl Object for Register {
    ghost use Rattle.std.specs.Prelude.{refl};

    type Call = u64;

    type Reply = u64;

    ghost reply = { λ register call. register.value };

    ghost after = { λ register call. record { value = call } };

    ghost opening = { λ register. record { value = 0 } };

    fn answer(&self, _alloc: Global, _call: &u64) -> Result<u64, AllocError> {
        Ok(self.value)
    }

    fn apply(&mut self, _alloc: Global, call: &u64) -> Result<(), AllocError> {
        self.value = *call;
        Ok(())
    }

    fn copy_call(_alloc: Global, call: &u64) -> Result<u64, AllocError> {
        Ok(*call)
    }

    ghost keeps_opening = { λ register call. refl };

    ghost opening_is_own = { λ register. refl };
}
