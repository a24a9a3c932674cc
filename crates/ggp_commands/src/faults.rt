//! The program's error for an error of one of its parts.
ghost use Rattle.std.specs.Prelude.{◌≡◌, ◌≢◌, Err, IfErr, IsOk, MatchResult, Ok, OnErr, OnOk};
ghost use Rattle.command_faults.specs.Faults.{IsFileFault};
ghost use Rattle.command_faults.specs.declared.files.NamedFile.TheVariants.{Records};
ghost use Rattle.ggp_commands.specs.Faults.{argument_fault, check_fault, command_fault, match_fault, season_fault, status_of, task_fault};

use command_faults::{Fault, FileFault, NamedFile};
use command_line::{ArgumentFault, MatchTask};
use desk_calls::Refusal;
use match_play::MatchFault;
use match_season::SeasonFault;
use player_commands::{CheckFault, CommandFault};
use process_streams::RecordsFault;

/// The exit status for an error. With `--why`, it is 1 if the error is a negative answer, and 2 for any other error.
pub fn status_of(fault: Fault, why: bool) -> u8
    ensures { result ≡ status_of why fault }
{
    match fault {
        _ if !why => fault.status(),
        Fault::NoAnswer
        | Fault::NotLawful(_)
        | Fault::UnlawfulRecords(_)
        | Fault::NoEntry(_)
        | Fault::Differs(_)
        | Fault::BadLines(_)
        | Fault::BadAnswers(_) => 1,
        _ => 2,
    }
}

/// The program's error if a command line is refused.
pub fn argument_fault(fault: ArgumentFault<'_>) -> Fault
    ensures { result ≡ argument_fault fault.entry }
{
    match fault {
        ArgumentFault::Memory => Fault::Memory,
        ArgumentFault::Form | ArgumentFault::Value(_) => Fault::WrongUse,
    }
}

/// The program's error if a match has no record.
pub fn match_fault(fault: MatchFault) -> Fault
    ensures { result ≡ match_fault fault }
{
    match fault {
        MatchFault::Refused(refusal) => Fault::Refused(refusal),
        MatchFault::NotEnded => Fault::MatchNotEnded,
        MatchFault::Shortage(shortage) => Fault::Shortage(shortage),
        MatchFault::Memory => Fault::Memory,
    }
}

/// The program's error for a season that was not played to its end.
pub fn season_fault(fault: SeasonFault) -> Fault
    ensures { result ≡ season_fault fault }
{
    match fault {
        SeasonFault::WriteFault => Fault::WriteFault,
        SeasonFault::Memory => Fault::Memory,
    }
}

/// The program's error if records cannot be appended to a file.
pub fn records_fault(fault: RecordsFault) -> Fault
    ensures { IsFileFault Records result }
{
    let why = match fault {
        RecordsFault::Unopened => FileFault::Unopened,
        RecordsFault::NotRegular => FileFault::NotRegular,
        RecordsFault::InUse => FileFault::InUse,
        RecordsFault::Unread | RecordsFault::NoRecords => FileFault::Unread,
        RecordsFault::Unmended => FileFault::Unmended,
        RecordsFault::Memory => return Fault::Memory,
    };
    Fault::File(NamedFile::Records, why)
}

/// The program's error if the check of a player fails.
pub fn check_fault(fault: CheckFault) -> Fault
    ensures { result ≡ check_fault fault }
{
    match fault {
        CheckFault::Match(fault) => match_fault(fault),
        CheckFault::WriteFault => Fault::WriteFault,
        CheckFault::Memory => Fault::Memory,
    }
}

/// The result of a command that sends messages to single players.
pub fn command_end(performed: Result<(), CommandFault>) -> Result<(), Fault>
    ensures { MatchResult performed (λ _. IsOk result) (λ why. result ≡ Err (command_fault why)) }
{
    match performed {
        Ok(()) => Ok(()),
        Err(CommandFault::BadId) => Err(Fault::Refused(Refusal::BadId)),
        Err(CommandFault::NoAnswer) => Err(Fault::NoAnswer),
        Err(CommandFault::NotSent(shortage)) => Err(Fault::NotSent(shortage)),
        Err(CommandFault::WriteFault) => Err(Fault::WriteFault),
        Err(CommandFault::Memory) => Err(Fault::Memory),
    }
}

/// The result of a season, given its number of matches without a record, or of a check, given its number of bad
/// answers.
pub fn task_end(task: &MatchTask<'_>, held: Result<u64, Fault>) -> Result<(), Fault>
    ensures all { OnOk result (held ≡ Ok 0) }
    ensures some { OnErr result (held ≢ Ok 0) }
    ensures fault { IfErr result (λ fault. fault ≡ task_fault task.now held) }
{
    match held {
        Ok(0) => Ok(()),
        Ok(count) => match task {
            MatchTask::Run(_) | MatchTask::Season(_) => Err(Fault::NoRecords(count)),
            MatchTask::Check(_) => Err(Fault::BadAnswers(count)),
        },
        Err(fault) => Err(fault),
    }
}
