//! The schedule of a batch of matches, with one match in each text line.
ghost use Rattle.std.specs.Prelude.{◌≡◌, ◌≤◌, ◌⊎◌, ◌++◌, ◌∷◌, [], All, IfErr, IfNone, IfOk, length, map, vec_len};
ghost use Rattle.std.specs.List.{AllZip};
ghost use Rattle.match_plans.specs.declared.schedule_fault.ScheduleFault.TheVariants.{Memory};
ghost use Rattle.match_plans.specs.Schedules.{HaveIdsOnce, IsBadLine, IsPlanned, cut_lines, match_lines, misplaced};

use crate::plan::MatchPlan;
use crate::plan_line::{is_blank_or_comment, planned_match, words};
use crate::schedule_fault::{LineFault, ScheduleFault};
use game_core::lines::without_return;
use indexmap::IndexSet;
use std::alloc::{AllocError, Global};

/// The largest number of matches of a schedule.
pub const MAX_SCHEDULED: usize = 65_536;

/// The largest number of matches of a schedule that are played at once.
pub const MAX_AT_ONCE: usize = 1_024;

/// The error of a match after the matches with these ids, in a game of `roles` roles. If there is no error, adds the id of the match.
fn misplaced<'a>(
    ids: &mut IndexSet<&'a [u8]>,
    plan: &MatchPlan<'a>,
    roles: usize,
) -> Result<Option<LineFault>, AllocError>
    ensures fault { IfOk result (λ fault. fault ≡ misplaced roles (map (λ id. id.now) ids.old.keys) plan.now.id.now (vec_len plan.now.players)) }
    ensures added { IfOk result (λ fault. IfNone fault (map (λ id. id.now) ids.new.keys ≡ map (λ id. id.now) ids.old.keys ++ plan.now.id.now ∷ [])) }
{
    if plan.players.len() != roles {
        return Ok(Some(LineFault::WrongPlayers));
    }
    let id = plan.id.as_bytes();
    if ids.contains(&id) {
        return Ok(Some(LineFault::IdTwice));
    }
    ids.insert(id)?;
    Ok(None)
}

/// Reads a schedule for a game of `roles` roles. Returns its matches in the order of the text lines, all with the same
/// strikes. Ignores a text line if it has no words or its first word begins with `#`. The error gives the first bad
/// text line, or is `Memory`.
pub fn read_schedule<'a>(
    alloc: Global,
    input: &'a [u8],
    roles: usize,
    strikes: u8,
) -> Result<Vec<MatchPlan<'a>>, ScheduleFault>
    ensures within { IfOk result (λ plans. length plans.items ≤ 65536) }
    ensures planned { IfOk result (λ plans. AllZip (IsPlanned strikes) (match_lines input.now) plans.items) }
    ensures roles { IfOk result (λ plans. All (λ plan. vec_len plan.players ≡ roles) plans.items) }
    ensures once { IfOk result (λ plans. HaveIdsOnce plans.items) }
    ensures bad { IfErr result (λ fault. (fault ≡ Memory) ⊎ IsBadLine roles strikes (cut_lines input.now) fault) }
{
    let mut ids = IndexSet::new(alloc);
    let mut plans = Vec::new(alloc);
    let mut number: u64 = 0;
    // A list of the text lines would take 16 bytes for each line feed.
    for line in input.split(|b| *b == b'\n') {
        number += 1;
        let words = words(alloc, without_return(line))?;
        if is_blank_or_comment(&words) {
            continue;
        }
        let plan = match planned_match(alloc, &words, strikes)? {
            Ok(plan) => plan,
            Err(fault) => return Err(ScheduleFault::BadLine(number, fault)),
        };
        if let Some(fault) = misplaced(&mut ids, &plan, roles)? {
            return Err(ScheduleFault::BadLine(number, fault));
        }
        if plans.len() >= MAX_SCHEDULED {
            return Err(ScheduleFault::BadLine(number, LineFault::TooMany));
        }
        plans.push(plan)?;
    }
    Ok(plans)
}
