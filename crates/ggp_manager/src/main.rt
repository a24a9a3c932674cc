//! A referee for General Game Playing: the program.
#![tactic(auto)]

ghost use Rattle.std.specs.Prelude.{◌<◌};

use desk_service::Listens;
use game_core::Counted;
use ggp_commands::{Fault, Surroundings, Terminals, asks_why, command, report};
use match_messages::Player;
use match_plans::{MAX_SCHEDULED, Reach, ReportsShortages};
use network_players::{
    Beside, Explains, HostQuery, PendingLookups, Resolves, RoundSignal, Sockets, make_beside,
};
use process_streams::{
    DESCRIPTORS, ERRORS, FILE_SIZE, INPUT, LockedFiles, OUTPUT, Standard, hold_closed, limit_of,
};
use std::alloc::Global;
use std::io::{ErrorKind, IsTerminal, Read, Write};
use std::os::fd::AsFd;
use std::process::ExitCode;
use std::sync::{Arc, Mutex, Wait};
use std::thread::Threads;
use std::time::Clock;
use std::{env, io};

/// The arguments after the program's name.
fn command_line(rt: &HostRuntime) -> io::Result<Vec<String>> {
    Ok(env::args(rt)?.skip(1).collect(rt.alloc())?)
}

/// The largest number of matches that a command may play: one for each possible match of a schedule for `season`, and 1
/// for all other commands.
fn places(arguments: &[String]) -> usize
    ensures { 0 < result }
{
    match arguments.first() {
        Some(command) if command.as_str() == "season" => MAX_SCHEDULED,
        _ => 1,
    }
}

/// The error for a command line that cannot be read.
fn fault_of(error: &io::Error) -> Fault {
    match error.kind() {
        ErrorKind::OutOfMemory => Fault::Memory,
        _ => Fault::WrongUse,
    }
}

/// Reports an error that occurred before a command began, and returns the program's exit status.
fn ended<E: Write>(errors: &mut E, fault: Fault, why: bool) -> ExitCode {
    ExitCode::from(report(errors, fault, why))
}

/// The allocator, the terminals and the standard streams that the process passes to a command.
#[derive(Drop)]
struct Process<I, O, E> {
    alloc: Global,
    terminals: Terminals,
    input: I,
    output: O,
    errors: E,
}

/// Runs the command in the arguments. Returns the program's exit status.
fn perform<H, S, I: Read + Drop, O: Write + Drop, E: Write + Send + Drop>(
    rt: &H,
    reach: &S,
    arguments: &[String],
    process: Process<I, O, E>,
) -> u8
where
    H: Resolves + Clock + Eprint + Listens + LockedFiles + Threads + Wait + Sync,
    H::File: Send,
    S: Reach + ReportsShortages + Sync,
    S::Player: Player + Explains + Drop + Send,
{
    let Process {
        alloc,
        terminals,
        input,
        output,
        errors,
    } = process;
    let mut reader = Counted::new(input);
    let mut writer = Counted::new(output);
    let around = Surroundings {
        rt,
        alloc,
        reach,
        terminals,
    };
    command(&around, arguments, &mut reader, &mut writer, errors)
}

fn main(rt: HostRuntime) -> ExitCode {
    let (input, output, errors) = (rt.stdin(), rt.stdout(), rt.stderr());
    let arguments = command_line(&rt);
    let why = match &arguments {
        Ok(arguments) => asks_why(arguments),
        Err(_) => false,
    };
    if hold_closed(&rt, input.as_fd(), output.as_fd(), errors.as_fd()).is_err() {
        return ended(&mut rt.stderr(), Fault::ClosedStream, why);
    }
    let terminals = Terminals {
        errors: errors.is_terminal(),
        output: output.is_terminal(),
        why,
    };
    let arguments = match arguments {
        Ok(arguments) => arguments,
        Err(error) => return ended(&mut rt.stderr(), fault_of(&error), why),
    };
    let Ok(signals) = RoundSignal::many(rt.alloc(), places(&arguments)) else {
        return ended(&mut rt.stderr(), Fault::Memory, why);
    };
    let limit = limit_of(&rt, rt.alloc(), FILE_SIZE);
    let host = &rt;
    let network = Beside {
        rt: host,
        host: rt,
        begin: |rt: HostRuntime, query: Arc<HostQuery>| make_beside(rt, query),
        pending: Mutex::new(PendingLookups::within(
            rt.alloc(),
            limit_of(&rt, rt.alloc(), DESCRIPTORS),
        )),
    };
    let process = Process {
        alloc: rt.alloc(),
        terminals,
        input: Standard::new(host, input, INPUT, None),
        output: Standard::new(host, output, OUTPUT, limit),
        errors: Standard::new(host, errors, ERRORS, limit),
    };
    let reach = Sockets {
        rt: &network,
        signals: signals.as_slice(),
    };
    ExitCode::from(perform(host, &reach, &arguments, process))
}
