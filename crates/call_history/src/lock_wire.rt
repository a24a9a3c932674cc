//! A wire over a desk behind a lock.
ghost use Rattle.std.specs.Prelude.{◌≡◌, ◌≢◌, ◌+◌, IfOk, IfErr, OnOk, OnErr};
ghost use Rattle.call_history.specs.History.{EndsLegalHistory};

use crate::line::LockLine;
use crate::lock::LockDesk;
use crate::object::Object;
use crate::wire::{AskFault, Wire};
use std::marker::Model;
use std::sync::Wait;
use std::sync::ledger::Ledger;

/// A line together with its desk. Contracts see the line.
#[derive(Drop)]
pub struct LockWire<'a, O: Object, L: Ledger, R> {
    rt: &'a R,
    desk: &'a LockDesk<O, L>,
    line: LockLine<L>,
}

impl<'a, O: Object, L: Ledger, R> Model for LockWire<'a, O, L, R> {
    ghost use Rattle.call_history.specs.Lines.{LockLineValue};

    ghost Value = { LockLineValue };

    ghost view = { λ w. w.line };
}

impl<'a, O: Object, L: Ledger, R> LockWire<'a, O, L, R> {
    /// Creates a wire that makes the line's calls on this desk. Each call uses this runtime to wait for the lock; no
    /// other method waits.
    pub fn new(rt: &'a R, desk: &'a LockDesk<O, L>, line: LockLine<L>) -> LockWire<'a, O, L, R>
        ensures { result ≡ line }
    {
        LockWire { rt, desk, line }
    }

    /// Returns the line.
    pub fn end(self) -> LockLine<L>
        ensures { result ≡ self.entry }
    {
        let LockWire {
            rt: _,
            desk: _,
            line,
        } = self;
        line
    }
}

impl<'a, O: Object, L: Ledger, R: Wait> Wire for LockWire<'a, O, L, R> {
    ghost use Rattle.std.specs.Prelude.{None, refl};
    ghost use Rattle.std.proofs.Common.{◌∙◌};

    type Call = O::Call;

    type Reply = O::Reply;

    ghost calls = { λ w. None };

    ghost replies = { λ w. None };

    ghost same_line = { λ v w. v.number ≡ w.number };

    /// Waits for the lock, and makes the call on the desk. It never stalls.
    fn ask(&mut self, call: O::Call) -> Result<O::Reply, AskFault>
        ensures number { self.new.number ≡ self.old.number }
        ensures made { OnOk result (self.new.made ≡ self.old.made + 1) }
        ensures err { OnErr result (self.new ≡ self.old) }
        ensures legal { IfOk result (λ r. EndsLegalHistory O.reply O.after O.opening (record { line = self.old.number; call = call; reply = r })) }
        ensures never_stalls { IfErr result (λ fault. fault ≢ AskFault.Stalled) }
    {
        let (rt, desk) = (self.rt, self.desk);
        Ok(desk.ask(rt, &mut self.line, call)?)
    }

    ghost same_line_refl = { λ w. refl };

    ghost same_line_trans = { λ a b c ab bc. ab ∙ bc };
}
