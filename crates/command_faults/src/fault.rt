//! The errors of the program.
ghost use Rattle.std.specs.Prelude.{◌≡◌};
ghost use Rattle.command_faults.specs.Faults.{verify_fault, input_fault, schedule_fault, status_of};
ghost use Rattle.command_faults.specs.declared.fault.Fault.TheVariants.{Memory, WriteFault};

use crate::files::{FileFault, NamedFile};
use desk_calls::Refusal;
use desk_text::refusal_word;
use match_plans::{LineFault, ScheduleFault, Shortage};
use record_reading::VerifyFault;
use std::alloc::{AllocError, AllocFailed};
use std::fmt;
use whole_streams::{InputFault, WriteFault};

/// An error of the program. It is written to standard error after the program's name.
#[derive(Clone, Copy)]
pub enum Fault {
    /// The command line is refused.
    WrongUse,
    /// Out of memory.
    Memory,
    /// A standard stream is closed, and no placeholder can be opened for it.
    ClosedStream,
    /// The text of the rules is not KIF, or not a ground description.
    BadDescription,
    /// The file with this purpose on the command line cannot be read or written.
    File(NamedFile, FileFault),
    /// The file of the players' rules is not KIF.
    BadPlayerRules,
    /// Standard input cannot be read.
    ReadFault,
    /// The input is longer than its limit.
    InputTooLong,
    /// Standard output cannot be written.
    WriteFault,
    /// The player cannot be reached, or its answer cannot be read.
    NoAnswer,
    /// The referee lacked this resource, so it did not send a message, sent it too late, or lost the answer. The player
    /// did nothing wrong.
    NotSent(Shortage),
    /// Clients cannot connect to the address of `--listen`.
    NotListening,
    /// The desk refused to open the match.
    Refused(Refusal),
    /// The match has neither finished nor been aborted.
    MatchNotEnded,
    /// The referee lacked this resource in the match, so a wrong or missing answer may not be the player's fault.
    Shortage(Shortage),
    /// The line of the schedule with this number is invalid. No match was begun.
    BadSchedule(u64, LineFault),
    /// This many matches of a schedule have no record. The other records were written.
    NoRecords(u64),
    /// The record is not lawful. This is the first check that failed.
    NotLawful(VerifyFault),
    /// This many lines of the input are not lawful records. All verdicts were written.
    UnlawfulRecords(u64),
    /// The line of the call log with this number does not contain a valid call.
    NoEntry(u64),
    /// The call in the line with this number gets a different reply, or the line is not in canonical form. The output
    /// contains the correct line.
    Differs(u64),
    /// This many lines of a script are bad. The whole output was written.
    BadLines(u64),
    /// This many answers of a checked player are bad. The whole table was written.
    BadAnswers(u64),
}

impl Fault {
    /// The exit status without `--why`.
    pub fn status(self) -> u8
        ensures { result ≡ status_of self }
    {
        match self {
            Fault::WrongUse => 2,
            Fault::Memory => 3,
            _ => 1,
        }
    }

    /// The message. If the message depends on the error's value, this is only its constant beginning.
    fn words(self) -> &'static str {
        match self {
            Fault::WrongUse => "wrong use",
            Fault::Memory => "want of memory",
            Fault::ClosedStream => "a standard stream is closed",
            Fault::BadDescription => "bad description",
            Fault::File(named, _) => named.words(),
            Fault::BadPlayerRules => "bad description for players",
            Fault::ReadFault => "read fault",
            Fault::InputTooLong => "input too long",
            Fault::WriteFault => "write fault",
            Fault::NoAnswer => "no answer",
            Fault::NotSent(_) => "not sent: ",
            Fault::NotListening => "can't listen",
            Fault::Refused(_) => "refused ",
            Fault::MatchNotEnded => "match not ended",
            Fault::BadSchedule(_, _) => "bad schedule: line ",
            Fault::Shortage(_) => "match without record: ",
            Fault::NoRecords(_) => "matches without record ",
            Fault::NotLawful(_) => "not lawful: ",
            Fault::UnlawfulRecords(_) => "records not lawful ",
            Fault::NoEntry(_) | Fault::Differs(_) => "not replayed: line ",
            Fault::BadLines(_) => "bad lines ",
            Fault::BadAnswers(_) => "bad answers ",
        }
    }
}

impl fmt::Display for Fault {
    fn fmt<F: fmt::Write>(&self, f: &mut fmt::Formatter<F>) -> fmt::Result {
        f.write_str(self.words())?;
        match *self {
            Fault::File(_, why) => write!(f, "{why}"),
            Fault::Refused(refusal) => f.write_str(refusal_word(refusal)),
            Fault::NotSent(shortage) | Fault::Shortage(shortage) => write!(f, "{shortage}"),
            Fault::NotLawful(fault) => write!(f, "{fault}"),
            Fault::BadSchedule(number, why) => write!(f, "{number}: {why}"),
            Fault::NoEntry(number) => write!(f, "{number} is not a valid entry"),
            Fault::Differs(number) => write!(f, "{number} differs"),
            Fault::NoRecords(number)
            | Fault::UnlawfulRecords(number)
            | Fault::BadLines(number)
            | Fault::BadAnswers(number) => write!(f, "{number}"),
            _ => Ok(()),
        }
    }
}

impl From<AllocError> for Fault {
    ghost from_gives = { λ _ given. given ≡ Memory };

    fn from(_: AllocError) -> Fault {
        Fault::Memory
    }
}

impl<T: Drop> From<AllocFailed<T>> for Fault {
    ghost from_gives = { λ _ given. given ≡ Memory };

    fn from(_: AllocFailed<T>) -> Fault {
        Fault::Memory
    }
}

impl From<ScheduleFault> for Fault {
    ghost from_gives = { λ fault given. given ≡ schedule_fault fault };

    fn from(fault: ScheduleFault) -> Fault {
        match fault {
            ScheduleFault::BadLine(number, why) => Fault::BadSchedule(number, why),
            ScheduleFault::Memory => Fault::Memory,
        }
    }
}

impl From<InputFault> for Fault {
    ghost from_gives = { λ fault given. given ≡ input_fault fault };

    fn from(fault: InputFault) -> Fault {
        match fault {
            InputFault::ReadFault => Fault::ReadFault,
            InputFault::TooLong => Fault::InputTooLong,
            InputFault::Memory => Fault::Memory,
        }
    }
}

impl From<WriteFault> for Fault {
    ghost from_gives = { λ _ given. given ≡ WriteFault };

    fn from(_: WriteFault) -> Fault {
        Fault::WriteFault
    }
}

impl From<VerifyFault> for Fault {
    ghost from_gives = { λ fault given. given ≡ verify_fault fault };

    fn from(fault: VerifyFault) -> Fault {
        match fault {
            VerifyFault::Memory => Fault::Memory,
            fault => Fault::NotLawful(fault),
        }
    }
}
