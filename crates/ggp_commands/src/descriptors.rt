//! How many matches the limit on file descriptors allows at once.
ghost use Rattle.std.specs.Prelude.{◌≡◌, ◌⊎◌, ◌<◌, ℕ, IfNone, IfSome, min};
ghost use Rattle.ggp_commands.specs.Descriptors.{Allows, IsLargest};

use match_plans::SeasonForm;
use network_players::lookup_descriptors;
use process_streams::{DESCRIPTORS, limit_of};
use std::alloc::Global;
use std::fmt::Write as _;
use std::io::Write;
use std::rt::Files;
use whole_streams::Pieces;

/// The number of descriptors for the streams and the files. The players' connections and the lookups of hosts need
/// other descriptors.
const KEPT: u64 = 16;

/// The largest number of simultaneous matches with this many players that the descriptors allow, if each player has one
/// connection. The number is at least 1.
fn allowed_matches(descriptors: u64, players: u64) -> u64
    ensures { IsLargest descriptors players result }
{
    let others = descriptors.saturating_sub(KEPT);
    let free = others.saturating_sub(lookup_descriptors(descriptors));
    match free.checked_div(players) {
        Some(count) if count > 0 => count,
        _ => 1,
    }
}

/// The form of the season with fewer matches at once, or `None` if the descriptors allow the given form.
#[tactic(auto, using(crate::proofs::LargestNumbers::fewer_allowed))]
fn smaller_form(
    form: SeasonForm,
    descriptors: u64,
    players: usize,
    matches: usize,
) -> Option<SeasonForm>
    ensures allowed { IfNone result (Allows descriptors players (min form.at_once matches)) }
    ensures largest { IfSome result (λ smaller. IsLargest descriptors players smaller.at_once) }
    ensures fewer { IfSome result (λ smaller. smaller.at_once < min form.at_once matches) }
    ensures same { IfSome result (λ smaller. smaller ≡ record form { at_once = smaller.at_once }) }
{
    let allowed = allowed_matches(descriptors, players as u64);
    if allowed >= form.at_once.min(matches) as u64 {
        return None;
    }
    Some(SeasonForm {
        at_once: allowed as usize,
        ..form
    })
}

/// The given form, with fewer matches at once if the descriptors do not allow so many. If so, also reports the smaller number.
pub fn allowed_form<F: Files, E: Write>(
    files: &F,
    alloc: Global,
    form: SeasonForm,
    players: usize,
    matches: usize,
    errors: &mut E,
) -> SeasonForm
    ensures allowed { (result ≡ form) ⊎ ((descriptors : ℕ) × IsLargest descriptors players result.at_once × (result.at_once < min form.at_once matches)) }
    ensures same { result ≡ record form { at_once = result.at_once } }
{
    let Some(descriptors) = limit_of(files, alloc, DESCRIPTORS) else {
        return form;
    };
    let Some(smaller) = smaller_form(form, descriptors, players, matches) else {
        return form;
    };
    let mut pieces = Pieces { stream: errors };
    let _ = writeln!(
        pieces,
        "ggp_manager: {descriptors} descriptors allow {} matches at once",
        smaller.at_once
    );
    smaller
}
