//! Finds records with an incomplete call log in a file.
ghost use Rattle.std.specs.Prelude.{IfErr};
ghost use Rattle.command_faults.specs.Faults.{IsFileFault};
ghost use Rattle.command_faults.specs.declared.files.NamedFile.TheVariants.{Records};

use command_faults::{Fault, FileFault, MAX_LINE, NamedFile, opened_regular, reading_fault};
use desk_text::{ReplayFault, replay};
use game_core::{Counted, Game, Lent};
use match_desk::Manager;
use match_record::push_record;
use record_check::lawful_parts;
use record_reading::VerifyFault;
use std::alloc::{AllocError, Global};
use std::rt::Files;
use whole_streams::{LineBuffer, NextLine};

/// The largest size of a call log in bytes, as for `replay`.
const MAX_ACCOUNT: usize = 268_435_456;

/// The end of a line with the reply `over`. The last call of each role gets this reply.
const OVER: &[u8] = b"\tover";

/// A record with an incomplete call log.
#[derive(Clone, Copy)]
pub struct PartialRecord {
    /// The number of the record's line, counted from 1.
    pub line: u64,
    /// Whether this is the last record of the file.
    pub is_last: bool,
}

/// A record, and the lines from it to the next record.
#[derive(Drop)]
struct RecordBlock {
    line: u64,
    record: Vec<u8>,
    /// The lines after the record, each with a line feed.
    account: Vec<u8>,
    /// Whether these lines are longer than the limit on a call log.
    is_too_long: bool,
}

impl RecordBlock {
    fn push(&mut self, line: &[u8]) -> Result<(), AllocError> {
        let room = MAX_ACCOUNT.saturating_sub(self.account.len());
        if room <= line.len() {
            self.is_too_long = true;
            return Ok(());
        }
        self.account.extend_from_slice(line)?;
        self.account.push(b'\n')?;
        Ok(())
    }
}

fn records_of<G: Game>(alloc: Global, manager: &Manager<G>) -> Result<Vec<u8>, AllocError> {
    let mut records = Vec::new(alloc);
    for place in 0..manager.matches() {
        let game = manager.game_of_match(place).unwrap();
        let held = manager.match_at(place).unwrap();
        push_record(alloc, &mut records, game, held)?;
        records.push(b'\n')?;
    }
    Ok(records)
}

/// Whether replaying the call log on a new desk with these games gives exactly this record.
fn gives_record<G: Game + Drop>(
    alloc: Global,
    games: Vec<G>,
    account: &[u8],
    record: &[u8],
) -> Result<bool, AllocError> {
    let replayed = match replay(alloc, games, account) {
        Ok(replayed) => replayed,
        Err(ReplayFault::Memory) => return Err(AllocError),
        Err(_) => return Ok(false),
    };
    let records = records_of(alloc, &replayed.manager)?;
    match records.split_last() {
        Some((_, first)) => Ok(first == record),
        None => Ok(false),
    }
}

fn overs(account: &[u8]) -> usize {
    let lines = account.split(|byte| *byte == b'\n');
    lines.filter(|line| line.ends_with(OVER)).count()
}

/// Whether a call log is complete: replaying it gives the record, and every role has got the reply `over`.
fn is_whole<G: Game>(alloc: Global, game: &G, block: &RecordBlock) -> Result<bool, AllocError> {
    if block.is_too_long || overs(&block.account) < game.roles() {
        return Ok(false);
    }
    let mut games = Vec::new(alloc);
    games.push(Lent::new(game))?;
    gives_record(alloc, games, &block.account, &block.record)
}

/// Whether the match of a record is over although the call log of the record is incomplete.
fn is_partial<G: Game>(alloc: Global, game: &G, block: &RecordBlock) -> Result<bool, AllocError> {
    if is_whole(alloc, game, block)? {
        return Ok(false);
    }
    match lawful_parts(alloc, game, &block.record) {
        Ok(parts) => Ok(parts.phase.is_last()),
        Err(VerifyFault::Memory) => Err(AllocError),
        Err(_) => Ok(false),
    }
}

fn partial_in<G: Game>(
    alloc: Global,
    game: &G,
    block: Option<&RecordBlock>,
    is_last: bool,
) -> Result<Option<PartialRecord>, AllocError> {
    match block {
        Some(block) if is_partial(alloc, game, block)? => Ok(Some(PartialRecord {
            line: block.line,
            is_last,
        })),
        _ => Ok(None),
    }
}

/// The first record of the game, in the file at this path, that has an incomplete call log although its match is over.
/// A last line without a line feed does not belong to a call log.
pub fn partial_record<F: Files, G: Game>(
    files: &F,
    alloc: Global,
    game: &G,
    path: &str,
) -> Result<Option<PartialRecord>, Fault>
    ensures fault { IfErr result (IsFileFault Records) }
{
    let mut file = opened_regular(files, NamedFile::Records, path)?;
    let mut buffer = LineBuffer::new();
    let mut open: Option<RecordBlock> = None;
    for line_before in 0..u64::MAX {
        let line = match buffer.next_line(alloc, &mut file, MAX_LINE) {
            Ok(NextLine::Ended(line)) => line,
            Ok(NextLine::Last(line)) => {
                let is_last = line.first() != Some(&b'{');
                return Ok(partial_in(alloc, game, open.as_ref(), is_last)?);
            }
            Ok(NextLine::Nothing) => return Ok(partial_in(alloc, game, open.as_ref(), true)?),
            Err(fault) => return Err(reading_fault(NamedFile::Records, fault)),
        };
        if line.first() == Some(&b'{') {
            let partial = partial_in(alloc, game, open.as_ref(), false)?;
            if partial.is_some() {
                return Ok(partial);
            }
            open = Some(RecordBlock {
                line: line_before + 1,
                record: line,
                account: Vec::new(alloc),
                is_too_long: false,
            });
        } else if let Some(block) = &mut open {
            block.push(&line)?;
        }
    }
    Err(Fault::File(NamedFile::Records, FileFault::TooLong))
}
