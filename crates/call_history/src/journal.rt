//! An object and the history of its calls.
ghost use Rattle.std.specs.Prelude.{◌≡◌, ◌≤◌, ◌↔◌, [], ◌∷◌, ◌++◌, length, IfOk, OnOk, OnErr, IsErrOf};
ghost use Rattle.call_history.specs.declared.journal.CallFault.TheVariants.{Memory};
ghost use Rattle.call_history.specs.History.{IsReplay};
ghost use Rattle.call_history.specs.Limits.{max_entries};

use crate::object::Object;
use std::alloc::{AllocError, Global};
use std::error::Error;
use std::fmt;
use std::marker::Model;

/// The largest number of entries of a history.
pub const MAX_ENTRIES: u64 = 1_000_000;

/// Why the journal did not make a call. The call is not in the history, and nothing has changed.
#[derive(Clone, Copy, Debug, PartialEq, Eq)]
pub enum CallFault {
    /// The history is full: it has as many entries as the journal accepts.
    Full,
    /// Out of memory.
    Memory,
}

impl fmt::Display for CallFault {
    fn fmt<W: fmt::Write>(&self, f: &mut fmt::Formatter<W>) -> fmt::Result {
        f.write_str(match *self {
            CallFault::Full => "the history is full",
            CallFault::Memory => "out of memory",
        })
    }
}

impl Error for CallFault {}

impl From<AllocError> for CallFault {
    ghost from_gives = { λ _ fault. fault ≡ Memory };

    fn from(_: AllocError) -> CallFault {
        CallFault::Memory
    }
}

/// One call of a history: the number of the line that made it, the call and its reply.
#[derive(Drop)]
pub struct Entry<C, R> {
    pub line: u32,
    pub call: C,
    pub reply: R,
}

/// An object, and the history of its calls in order.
#[derive(Drop)]
pub struct Journal<O: Object> {
    alloc: Global,
    most: u64,
    object: O,
    entries: Vec<Entry<O::Call, O::Reply>>,
}

impl<O: Object> Model for Journal<O> {
    ghost use Rattle.std.specs.Prelude.{◌≡◌, ◌≤◌, length};
    ghost use Rattle.call_history.specs.History.{JournalValue, IsReplay};
    ghost use Rattle.call_history.specs.Limits.{max_entries};

    ghost Value = { JournalValue O O.Call O.Reply };

    ghost view = { λ j. record { object = j.object; history = j.entries.items; most = j.most } };

    ghost invariant = { λ j. IsReplay O.reply O.after O.opening j.object j.entries.items
        × (length j.entries.items ≤ j.most)
        × (j.most ≤ max_entries) };
}

impl<O: Object> Journal<O> {
    /// Creates a journal without entries. `most` is the largest number of entries that it accepts.
    pub fn new(alloc: Global, object: O, most: u64) -> Journal<O>
        requires most { (1 ≤ most) × (most ≤ max_entries) }
        requires opening { O.opening object ≡ object }
        ensures object { result.object ≡ object }
        ensures history { result.history ≡ [] }
        ensures most { result.most ≡ most }
    {
        Journal {
            alloc,
            most,
            object,
            entries: Vec::new(alloc),
        }
    }

    /// Makes a call for a line, and stores the call with its reply.
    pub fn call(&mut self, line: u32, call: &O::Call) -> Result<O::Reply, CallFault>
        ensures reply { IfOk result (λ r. r ≡ O.reply self.old.object call.now) }
        ensures history { IfOk result (λ r. self.new.history ≡ self.old.history ++ record { line = line; call = call.now; reply = r } ∷ []) }
        ensures object { OnOk result (self.new.object ≡ O.after self.old.object call.now) }
        ensures most { self.new.most ≡ self.old.most }

        ensures full { IsErrOf result CallFault.Full ↔ (self.old.most ≤ length self.old.history) }
        ensures err { OnErr result (self.new ≡ self.old) }

        // No call changes the opening.
        ensures opening { O.opening self.new.object ≡ O.opening self.old.object }

        // The invariant of the type.
        ensures kept { IsReplay O.reply O.after O.opening self.new.object self.new.history }
        ensures within { length self.new.history ≤ self.new.most }
        ensures bound { self.new.most ≤ max_entries }
    {
        if self.entries.len() as u64 >= self.most {
            return Err(CallFault::Full);
        }
        self.entries.reserve(1)?;
        let kept = self.object.answer(self.alloc, call)?;
        let reply = self.object.answer(self.alloc, call)?;
        let copy = O::copy_call(self.alloc, call)?;
        // The change comes last, after every step that can fail.
        self.object.apply(self.alloc, call)?;
        self.entries.push_reserved(Entry {
            line,
            call: copy,
            reply: kept,
        });
        Ok(reply)
    }

    /// The history, in the order of the calls.
    pub fn entries(&self) -> &[Entry<O::Call, O::Reply>]
        ensures entries { result.now ≡ self.now.history }

        // The invariant of the type.
        ensures kept { IsReplay O.reply O.after O.opening self.now.object self.now.history }
        ensures within { length self.now.history ≤ self.now.most }
    {
        self.entries.as_slice()
    }

    /// The object after all calls.
    pub fn object(&self) -> &O
        ensures { result.now ≡ self.now.object }
    {
        &self.object
    }

    /// Returns the object and its history.
    pub(crate) fn into_parts(self) -> (O, Vec<Entry<O::Call, O::Reply>>)
        ensures object { result.0 ≡ self.object }
        ensures history { result.1.items ≡ self.history }
        ensures kept { IsReplay O.reply O.after O.opening result.0 result.1.items }
    {
        let Journal {
            alloc: _,
            most: _,
            object,
            entries,
        } = self;
        (object, entries)
    }
}
