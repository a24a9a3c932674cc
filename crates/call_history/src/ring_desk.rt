//! A desk that serves its lines over rings.
use crate::comparing::{lowest_unserved, note_made};
use crate::gathering::lowest_missing;
use crate::journal::{CallFault, Journal};
use crate::lock::Closed;
use crate::object::Object;
use crate::port::Port;
use crate::ring_line::LineEnd;
use crate::serving::serve_round;
use std::marker::Model;
use thiserror::Error;

/// An object with its history. Each caller has a line. The thread that has the desk serves the posted calls in rounds.
///
/// Contracts see the journal, and the desk's ends of the rings.
#[derive(Drop)]
pub struct RingDesk<O: Object> {
    journal: Journal<O>,
    ports: Vec<Port<O::Call, O::Reply>>,
    // Both vectors have a place for each line from the start, so `close` allocates nothing.
    found: Vec<bool>,
    made_by_line: Vec<u64>,
}

impl<O: Object> Model for RingDesk<O> {
    ghost use Rattle.std.specs.Prelude.{◌≡◌, ◌≤◌, length};
    ghost use Rattle.call_history.specs.Limits.{max_lines};
    ghost use Rattle.call_history.specs.Rounds.{RingDeskValue, ServesLines};

    ghost Value = { RingDeskValue O O.Call O.Reply };

    ghost view = { λ d. record { journal = d.journal; ports = d.ports.items } };

    ghost invariant = { λ d. ServesLines d.journal.history d.ports.items
        × (length d.found.items ≡ length d.ports.items)
        × (length d.made_by_line.items ≡ length d.ports.items)
        × (length d.ports.items ≤ max_lines)
        × (length d.journal.history ≤ d.journal.most) };
}

/// Why a round stopped at this line. The desk keeps the line's call for the next round. The calls that the round served
/// before stay in the history.
#[derive(Clone, Copy, Debug, PartialEq, Eq, Error)]
#[error("line {line}: {cause}")]
pub struct DeskFault {
    pub line: u32,
    pub cause: CallFault,
    pub served: u64,
}

/// Why a desk over rings was not closed.
#[derive(Clone, Copy, Debug, PartialEq, Eq, Error)]
pub enum RingCloseFault {
    /// The lowest number without an end among the given ends.
    #[error("line {0} is missing")]
    MissingLine(u32),
    /// The lowest number of a line with a call that is waiting or kept.
    #[error("line {0} is not served")]
    Unserved(u32),
}

/// A desk that was not closed. It stays open, and comes back with the given ends.
#[derive(Drop)]
pub struct RingUnclosed<O: Object> {
    pub desk: RingDesk<O>,
    pub ends: Vec<LineEnd<O>>,
    pub cause: RingCloseFault,
}

impl<O: Object> RingDesk<O> {
    ghost use Rattle.std.specs.Prelude.{◌≡◌, ◌≤◌, [], IfOk, IfErr, OnOk, MatchResult, length, sum};
    ghost use Rattle.std.specs.List.{All};
    ghost use mathlib.Core.List.{IsPrefix};
    ghost use Rattle.call_history.specs.Limits.{max_lines};
    ghost use Rattle.call_history.specs.History.{IsReplay};
    ghost use Rattle.call_history.specs.RingLines.{SamePorts, AreEndsOf};
    ghost use Rattle.call_history.specs.Rounds.{ServesLines, IsUnused, IsIdle, Gains, Visits, StopsAt};
    ghost use Rattle.call_history.specs.RingClosing.{IsClosed, IsCauseOf, HandsBack};
    ghost use Rattle.call_history.specs.declared.journal.CallFault.TheVariants.{Full};

    pub(crate) fn new(
        journal: Journal<O>,
        ports: Vec<Port<O::Call, O::Reply>>,
        found: Vec<bool>,
        made_by_line: Vec<u64>,
    ) -> RingDesk<O>
        requires history { journal.history ≡ [] }
        requires unused { All IsUnused ports.items }
        requires lines { length ports.items ≤ max_lines }
        requires found { length found.items ≡ length ports.items }
        requires made_by_line { length made_by_line.items ≡ length ports.items }
        ensures journal { result.journal ≡ journal }
        ensures ports { result.ports ≡ ports.items }
    {
        RingDesk {
            journal,
            ports,
            found,
            made_by_line,
        }
    }

    /// The journal. Its history has, for each line, the calls that the desk served and the replies that it sent.
    pub fn journal(&self) -> &Journal<O>
        ensures journal { result.now ≡ self.now.journal }

        // The invariant of the type between rounds.
        ensures serves { ServesLines self.now.journal.history self.now.ports }
    {
        &self.journal
    }

    /// Visits the lines in the order of their numbers, and serves at most one call of each. Returns how many calls it
    /// served. It skips a line that has no free slot for a reply.
    ///
    /// If a call cannot be made, the round stops. The desk keeps the call, and the next round tries it again before the
    /// line's later calls.
    pub fn round(&mut self) -> Result<u64, DeskFault>
        ensures lines { SamePorts self.old.ports self.new.ports }
        ensures most { self.new.journal.most ≡ self.old.journal.most }
        ensures opening { O.opening self.new.journal.object ≡ O.opening self.old.journal.object }
        ensures gains { MatchResult result
            (λ served. Gains self.old.journal.history self.new.journal.history (length self.old.ports) served)
            (λ fault. Gains self.old.journal.history self.new.journal.history fault.line fault.served) }

        // The round visits all lines before the line where it stops. It takes no call from a line without a free slot.
        ensures visits { MatchResult result
            (λ _. Visits self.old.journal.history self.new.journal.history self.old.ports self.new.ports (length self.old.ports))
            (λ fault. Visits self.old.journal.history self.new.journal.history self.old.ports self.new.ports fault.line) }
        ensures idle { IfOk result (λ served. served ≡ 0 → All IsIdle self.new.ports) }
        ensures fault { IfErr result (λ fault. StopsAt fault.line (fault.cause ≡ Full) self.new) }

        // The invariant of the type.
        ensures within { length self.new.journal.history ≤ self.new.journal.most }
    {
        serve_round(&mut self.journal, &mut self.ports)
    }

    /// Serves rounds until one serves nothing. This terminates, because each round before the last one makes the history longer.
    pub fn serve_all(&mut self) -> Result<(), DeskFault>
        ensures lines { SamePorts self.old.ports self.new.ports }
        ensures most { self.new.journal.most ≡ self.old.journal.most }
        ensures opening { O.opening self.new.journal.object ≡ O.opening self.old.journal.object }
        ensures history { IsPrefix self.old.journal.history self.new.journal.history }
        ensures idle { OnOk result (All IsIdle self.new.ports) }
        ensures fault { IfErr result (λ fault. StopsAt fault.line (fault.cause ≡ Full) self.new) }
    {
        loop {
            if self.round()? == 0 {
                return Ok(());
            }
        }
    }

    /// Closes the desk if the ends of all its lines are given and all their calls were served. Otherwise returns the desk
    /// and the ends. Allocates nothing.
    pub fn close(self, ends: Vec<LineEnd<O>>) -> Result<Closed<O>, RingUnclosed<O>>
        requires lines { AreEndsOf self.ports ends.items }

        ensures closed { IfOk result (λ c. IsClosed self ends.items c.history.items c.object c.made_by_line.items) }

        // One thread can replay the history.
        ensures replay { IfOk result (λ c. IsReplay O.reply O.after O.opening c.object c.history.items) }
        ensures counted { IfOk result (λ c. sum c.made_by_line.items ≡ length c.history.items) }

        ensures cause { IfErr result (λ u. IsCauseOf u.desk u.ends.items u.cause) }
        ensures back { IfErr result (λ u. HandsBack self u.desk ends.items u.ends.items) }
    {
        let mut desk = self;
        let mut ends = ends;
        if let Some(number) = lowest_missing(ends.as_slice(), desk.found.as_mut_slice()) {
            let cause = RingCloseFault::MissingLine(number);
            return Err(RingUnclosed { desk, ends, cause });
        }
        if let Some(number) = lowest_unserved(&desk.journal, &mut desk.ports, &mut ends) {
            let cause = RingCloseFault::Unserved(number);
            return Err(RingUnclosed { desk, ends, cause });
        }
        let RingDesk {
            journal,
            ports: _,
            found: _,
            mut made_by_line,
        } = desk;
        note_made(&journal, &mut made_by_line, &ends);
        let (object, history) = journal.into_parts();
        Ok(Closed {
            history,
            object,
            made_by_line,
        })
    }
}
