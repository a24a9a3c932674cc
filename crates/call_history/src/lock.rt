//! A desk that lets many threads share an object behind a lock.
ghost use Rattle.std.specs.Prelude.{◌≡◌, ◌+◌, ◌<◌, ◌≤◌, ◌↔◌, ℕ, [], ◌∷◌, ◌++◌, length, sum, slice_index, IfOk, IfErr, OnOk, OnErr, IsOk, IsErrOf, Contains};
ghost use Rattle.call_history.specs.History.{IsReplay, EndsLegalHistory};
ghost use Rattle.call_history.specs.Limits.{max_entries, max_lines};
ghost use Rattle.call_history.specs.Lines.{new_lines, numbers, HasAll, IsLowestMissing};

use crate::gathering::{gather, lowest_missing};
use crate::journal::{CallFault, Entry, Journal};
use crate::line::LockLine;
use crate::object::Object;
use std::alloc::{AllocError, Global};
use std::marker::Model;
use std::sync::ledger::{Blank, Book, Ledger, Share};
use std::sync::{Mutex, Wait};
use thiserror::Error;

/// The largest number of lines of a desk.
pub const MAX_LINES: u32 = 4_096;

/// The data under the lock: the journal, and the total number of calls of the lines.
#[derive(Drop)]
struct Locked<O: Object, L: Ledger> {
    journal: Journal<O>,
    calls: Book<L>,
    gathered: Share<L>,
    ghost counted: { length journal.history ≡ calls.total },
    // `close` adds the shares of the lines to this share.
    ghost no_parts: { gathered.parts ≡ 0 },
    ghost no_amount: { gathered.amount ≡ 0 },
}

impl<O: Object, L: Ledger> Locked<O, L> {
    /// The critical section: makes one call on the journal, and counts it in the total and in the line's share.
    fn call(
        &mut self,
        line: u32,
        call: &O::Call,
        mine: &mut Share<L>,
    ) -> Result<O::Reply, CallFault>
        requires { 0 < mine.old.parts }
        ensures history { IfOk result (λ r. self.new.journal.history ≡ self.old.journal.history ++ record { line = line; call = call.now; reply = r } ∷ []) }
        ensures legal { IfOk result (λ r. EndsLegalHistory O.reply O.after O.opening (record { line = line; call = call.now; reply = r })) }
        ensures full { IsErrOf result CallFault.Full ↔ (self.old.journal.most ≤ length self.old.journal.history) }
        ensures err { OnErr result (self.new.journal ≡ self.old.journal) }

        ensures parts { mine.new.parts ≡ mine.old.parts }
        ensures made { OnOk result (mine.new.amount ≡ mine.old.amount + 1) }
        ensures made_nothing { OnErr result (mine.new.amount ≡ mine.old.amount) }
        ensures bound { mine.new.amount ≤ max_entries }
    {
        let Locked {
            journal,
            calls,
            gathered: _,
        } = self;
        let answer = journal.call(line, call);
        if answer.is_ok() {
            calls.add(mine, 1);
        }
        calls.audit(mine);
        answer
    }
}

/// An object with its history behind a lock. Each caller has a line.
///
/// Contracts see only the number of a desk's lines. A contract cannot name the data under the lock, so only the contract of
/// `close` describes it.
#[derive(Drop)]
pub struct LockDesk<O: Object, L: Ledger> {
    locked: Mutex<Locked<O, L>>,
    // Both vectors have a place for each line from the start, so `close` allocates nothing.
    found: Vec<bool>,
    made_by_line: Vec<u64>,
}

impl<O: Object, L: Ledger> Model for LockDesk<O, L> {
    ghost use Rattle.std.specs.Prelude.{◌≡◌, ◌≤◌, length, replicate};
    ghost use Rattle.call_history.specs.Limits.{max_lines};
    ghost use Rattle.call_history.specs.Lines.{LockDeskValue};

    ghost Value = { LockDeskValue };

    ghost view = { λ d. record { lines = length d.found.items } };

    ghost invariant = { λ d. (length d.found.items ≡ L.parts)
        × (length d.found.items ≤ max_lines)
        × (d.made_by_line.items ≡ replicate (length d.found.items) 0) };
}

/// The result of closing a desk, after all its lines have come back.
#[derive(Drop)]
pub struct Closed<O: Object> {
    /// The calls that got a reply, in order.
    pub history: Vec<Entry<O::Call, O::Reply>>,
    /// The object after these calls.
    pub object: O,
    /// The number of calls that each line made. The index is the line's number.
    pub made_by_line: Vec<u64>,
}

/// Why a desk was not closed.
#[derive(Clone, Copy, Debug, PartialEq, Eq, Error)]
pub enum CloseFault {
    /// The lowest number without a line among the given lines.
    #[error("line {0} is missing")]
    MissingLine(u32),
}

/// A desk that was not closed. It stays open, and comes back with the given lines.
#[derive(Drop)]
pub struct Unclosed<O: Object, L: Ledger> {
    pub desk: LockDesk<O, L>,
    pub lines: Vec<LockLine<L>>,
    pub cause: CloseFault,
}

/// Opens a desk with an empty history of at most `most` entries, and returns the desk and its lines. If an allocation is
/// refused, returns the object.
///
/// The blank has one part for each line. Call this from a function that is generic over `L`, and call that function
/// with `Brand`; see `sync::ledger` of std.
pub fn open_lock<O: Object, L: Ledger>(
    alloc: Global,
    blank: Blank,
    object: O,
    most: u64,
    lines: u32,
) -> Result<(LockDesk<O, L>, Vec<LockLine<L>>), (O, AllocError)>
    requires name { blank.name ≡ L.name }
    requires parts { blank.parts ≡ L.parts }
    requires one_each { blank.parts ≡ lines }
    requires lines { (1 ≤ lines) × (lines ≤ max_lines) }
    requires most { (1 ≤ most) × (most ≤ max_entries) }
    requires opening { O.opening object ≡ object }
    ensures desk { IfOk result (λ opened. opened.0.lines ≡ lines) }
    ensures lines { IfOk result (λ opened. opened.1.items ≡ new_lines lines) }
    ensures back { IfErr result (λ refused. refused.0 ≡ object) }
{
    let Ok(found) = vec![in alloc; false; lines as usize] else {
        return Err((object, AllocError));
    };
    let Ok(made_by_line) = vec![in alloc; 0; lines as usize] else {
        return Err((object, AllocError));
    };
    let Ok(mut all_lines) = Vec::with_capacity(alloc, lines as usize) else {
        return Err((object, AllocError));
    };
    let (calls, mut rest) = blank.open::<L>();
    for number in 0..lines {
        let share = rest.split_off(1, 0);
        all_lines.push_reserved(LockLine {
            number,
            made: 0,
            share,
        });
    }
    let locked = Mutex::new(Locked {
        journal: Journal::new(alloc, object, most),
        calls,
        gathered: rest,
    });
    let desk = LockDesk {
        locked,
        found,
        made_by_line,
    };
    Ok((desk, all_lines))
}

impl<O: Object, L: Ledger> LockDesk<O, L> {
    /// Makes a call on the line. Waits for the lock, and holds it only for this call.
    ///
    /// After `Ok`, the history that `close` returns has the entry. `ask` returns `Full` only if that history is full. No
    /// contract states this, because no contract can name the data under the lock.
    pub fn ask<R: Wait>(
        &self,
        rt: &R,
        line: &mut LockLine<L>,
        call: O::Call,
    ) -> Result<O::Reply, CallFault>
        ensures number { line.new.number ≡ line.old.number }
        ensures made { OnOk result (line.new.made ≡ line.old.made + 1) }
        ensures err { OnErr result (line.new ≡ line.old) }
        ensures legal { IfOk result (λ r. EndsLegalHistory O.reply O.after O.opening (record { line = line.old.number; call = call; reply = r })) }
    {
        let locked = &self.locked;
        let reply = locked.lock(rt).call(line.number, &call, &mut line.share)?;
        line.made += 1;
        Ok(reply)
    }

    /// Closes the desk if all its lines are given. Otherwise returns the desk and the lines. Allocates nothing, and visits
    /// each line twice.
    pub fn close(self, lines: Vec<LockLine<L>>) -> Result<Closed<O>, Unclosed<O, L>>
        ensures all { IsOk result ↔ HasAll (numbers lines.items) self.lines }

        // One thread can replay the history.
        ensures replay { IfOk result (λ c. IsReplay O.reply O.after O.opening c.object c.history.items) }
        ensures counted { IfOk result (λ c. sum c.made_by_line.items ≡ length c.history.items) }
        ensures lines { IfOk result (λ c. length c.made_by_line.items ≡ self.lines) }
        ensures made { IfOk result (λ c. (k : ℕ) → k < self.lines → Contains lines.items (record { number = k; made = slice_index c.made_by_line.items k })) }

        ensures missing { IfErr result (λ u. (n : ℕ) × (u.cause ≡ CloseFault.MissingLine n) × IsLowestMissing (numbers lines.items) self.lines n) }
        ensures back { IfErr result (λ u. (u.desk ≡ self) × (u.lines ≡ lines)) }
    {
        let LockDesk {
            locked,
            mut found,
            mut made_by_line,
        } = self;
        if let Some(number) = lowest_missing(lines.as_slice(), found.as_mut_slice()) {
            let desk = LockDesk {
                locked,
                found,
                made_by_line,
            };
            let cause = CloseFault::MissingLine(number);
            return Err(Unclosed { desk, lines, cause });
        }
        let Locked {
            journal,
            mut calls,
            mut gathered,
        } = locked.into_inner();
        gather(
            lines,
            found.as_mut_slice(),
            made_by_line.as_mut_slice(),
            &mut gathered,
        );
        calls.audit(&mut gathered);
        let (object, history) = journal.into_parts();
        Ok(Closed {
            history,
            object,
            made_by_line,
        })
    }
}
