//! The verdicts on the lines of a file of records, and the output for these verdicts.
ghost use Rattle.std.specs.Prelude.{◌≡◌, ◌≤◌, ◌-◌, ◌∷◌, [], IfOk, length, slice_get, string_bytes};
ghost use Rattle.game_commands.specs.Verdicts.{IsVerdict, count_skipped, count_unlawful, verdict_line};

use desk_text::is_account_line;
use game_core::Game;
use match_record::VerifyFault;
use record_check::verify;
use std::alloc::{AllocError, Global};

/// The verdict on a line of a file of records and call logs.
#[derive(Clone, Copy)]
pub enum Verdict {
    /// The line is a lawful record.
    Lawful,
    /// The line is not a lawful record. This is the first check that failed.
    Unlawful(VerifyFault),
    /// The line has the form of a line of a call log.
    Account,
}

/// Checks a line as a record of the game, unless it has the form of a line of a call log.
pub fn verdict_on<G: Game>(alloc: Global, game: &G, text: &[u8]) -> Result<Verdict, AllocError>
    ensures { IfOk result (IsVerdict (G.rules game.now) text.now) }
{
    if is_account_line(text) {
        return Ok(Verdict::Account);
    }
    match verify(alloc, game, text) {
        Ok(()) => Ok(Verdict::Lawful),
        Err(VerifyFault::Memory) => Err(AllocError),
        Err(fault) => Ok(Verdict::Unlawful(fault)),
    }
}

/// The output for a verdict. In plain text, the output for a line of a call log is empty.
pub fn verdict_line(alloc: Global, is_json: bool, verdict: Verdict) -> Result<String, AllocError>
    ensures { IfOk result (λ line. string_bytes line ≡ verdict_line is_json verdict) }
{
    if is_json {
        return match verdict {
            Verdict::Lawful => String::from_str(alloc, "{\"verdict\":\"lawful\"}\n"),
            Verdict::Account => String::from_str(alloc, "{\"verdict\":\"skipped\"}\n"),
            Verdict::Unlawful(fault) => format!(in alloc;
                "{{\"verdict\":\"not_lawful\",\"fault\":\"{fault}\"}}\n"
            ),
        };
    }
    match verdict {
        Verdict::Lawful => String::from_str(alloc, "lawful\n"),
        Verdict::Account => String::from_str(alloc, ""),
        Verdict::Unlawful(fault) => format!(in alloc; "not lawful: {fault}\n"),
    }
}

/// 1 if the line is neither a lawful record nor a line of a call log, and 0 otherwise.
pub fn count_unlawful(verdict: Verdict) -> u64
    ensures count { result ≡ count_unlawful (verdict ∷ []) }
    ensures small { result ≤ 1 }
{
    match verdict {
        Verdict::Unlawful(_) => 1,
        Verdict::Lawful | Verdict::Account => 0,
    }
}

/// 1 if the line belongs to a call log, and 0 otherwise.
pub fn count_skipped(verdict: Verdict) -> u64
    ensures count { result ≡ count_skipped (verdict ∷ []) }
    ensures small { result ≤ 1 }
{
    match verdict {
        Verdict::Account => 1,
        Verdict::Lawful | Verdict::Unlawful(_) => 0,
    }
}
