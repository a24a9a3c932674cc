//! Plays the matches of a schedule in several threads, each match on a separate desk.
ghost use Rattle.std.specs.Prelude.{◌≡◌, ◌↔◌, ℕ, List, false, true, Err, IfErr, IfOk, IsTrue, OnOk, length, min, replicate};
ghost use denote.Param.Send.{IsSend, IsSync};
ghost use Rattle.match_messages.specs.contracts.start_rules.PrintedRules.{the_row as rules_row};
ghost use Rattle.packed_rules.specs.contracts.packed_game.PackedGame.{the_row as game_row};
ghost use Rattle.match_play.specs.declared.playing.MatchFault.TheVariants.{Memory};
ghost use Rattle.match_season.specs.Outputs.{IsOutputOf};
ghost use Rattle.match_season.specs.Seasons.{WritesAllBut, WritesUpTo, faults_after};

use crate::queue::MatchQueue;
use crate::results::{MatchResult, OutputBrand, Results};
use crate::scheduler::{AfterMatch, Scheduler};
use crate::season_output::{Reports, ReportsMissing, SeasonFault, write_season};
use crate::written::Written;
use crossbeam_channel::{Receiver, Sender, bounded};
use game_core::Counted;
use match_messages::Player;
use match_plans::{MatchPlan, Reach, ReportsShortages, SeasonForm};
use match_play::{EndedMatch, MatchFault, PlayableGame, ended_match, prepared_match};
use std::alloc::Global;
use std::io::Write;
use std::marker::{Brand, PhantomData};
use std::sync::{Mutex, Wait};
use std::thread;
use std::thread::Threads;

/// The surroundings of a season: the runtime, the way to reach players, and the reporter of matches without a record.
#[derive(Drop)]
pub struct SeasonSurroundings<'s, 'e, R, S, E> {
    pub rt: &'s R,
    pub alloc: Global,
    pub reach: &'s S,
    pub errors: &'e Mutex<E>,
}

/// Whether a match has no record because memory or threads ran out.
fn was_short(outcome: &Result<EndedMatch, MatchFault>) -> bool
    ensures { IsTrue result ↔ (outcome.now ≡ Err Memory) }
{
    matches!(outcome, Err(MatchFault::Memory))
}

/// The data that the threads of a season share.
#[derive(Drop)]
struct Season<'f, 'a, S: Reach, N: OutputBrand>
where
    S::Player: Player,
{
    alloc: Global,
    reach: &'f S,
    game: PlayableGame<'f>,
    plans: &'f [MatchPlan<'a>],
    form: SeasonForm,
    scheduler: Scheduler,
    of: PhantomData<N>,
    ghost named: { (place : ℕ) (text : List ℕ) → IsOutputOf (S.is_reached reach.now) S.Player.handed game plans.now form.has_history place text → ∥ N.is_output place text ∥₁ },
}

impl<S: Reach, N: OutputBrand> Season<'_, '_, S, N>
where
    S::Player: Player,
{
    /// Plays the match with this index in the schedule.
    fn play<R>(&self, rt: &R, place: usize) -> Result<EndedMatch, MatchFault>
    where
        R: Threads + Wait + Sync,
        S: ReportsShortages,
        S::Player: Drop + Send,
        ensures clear { IfOk result (λ ended. S.is_clear self.now.reach.now place) }
        ensures played { IfOk result (λ ended. IsOutputOf (S.is_reached self.now.reach.now) S.Player.handed self.now.game self.now.plans.now self.now.form.has_history place ended.text) }
    {
        let Some(plan) = self.plans.get(place) else {
            return Err(MatchFault::NotEnded);
        };
        let prepared = prepared_match(self.alloc, self.reach, self.game, place, plan)?;
        ended_match(
            rt,
            self.alloc,
            self.reach,
            prepared,
            self.game,
            self.form.has_history,
        )
    }

    /// Plays matches until no match waits, and sends their results.
    fn play_matches<R>(&self, rt: &R, sender: &Sender<MatchResult<N>>)
    where
        R: Threads + Wait + Sync,
        S: ReportsShortages,
        S::Player: Drop + Send,
    {
        self.scheduler.enter(rt);
        for _ in rt.forever() {
            let Some(waiting_match) = self.scheduler.begin(rt) else {
                return;
            };
            let place = waiting_match.place;
            let outcome = self.play(rt, place);
            match self.scheduler.end(rt, waiting_match, was_short(&outcome)) {
                AfterMatch::Report => {
                    let over = MatchResult {
                        place,
                        outcome,
                        of: PhantomData,
                    };
                    let _ = sender.send(rt, over);
                }
                AfterMatch::Retry => {}
                AfterMatch::EndThread => return,
            }
        }
    }

    /// Writes the results as they come, and reports the matches without a record. After a failed write, no more matches
    /// begin. Returns the number of matches without a record.
    fn write_played<R: Wait, W: Write, E: ReportsMissing>(
        &self,
        around: &SeasonSurroundings<'_, '_, R, S, E>,
        has_thread: bool,
        nothing: Written,
        receiver: &Receiver<MatchResult<N>>,
        writer: &mut Counted<W>,
    ) -> Result<u64, SeasonFault>
        requires fresh { (nothing.records ≡ 0) × (nothing.is_settled.items ≡ replicate (length self.now.plans.now) false) }
        ensures written { IfOk result (λ missing. WritesAllBut N.is_output self.now.form.order missing (length self.now.plans.now) (W.contents writer.old.stream) (W.contents writer.new.stream)) }
        ensures at_fault { IfErr result (WritesUpTo N.is_output self.now.form.order (length self.now.plans.now) (W.contents writer.old.stream) (W.contents writer.new.stream)) }
        ensures thread { OnOk result (has_thread ≡ true) }
        ensures faults { writer.new.faults ≡ faults_after result writer.old.faults }
    {
        if !has_thread {
            return Err(SeasonFault::Memory);
        }
        let reports = Reports {
            rt: around.rt,
            plans: self.plans,
            errors: around.errors,
        };
        let mut results = Results {
            receiver,
            is_closed: false,
        };
        let mut written = nothing;
        let order = self.form.order;
        match write_season(
            around.alloc,
            order,
            &reports,
            &mut results,
            &mut written,
            writer,
        ) {
            Ok(()) => {
                reports.report_rest(&written);
                Ok(written.missing())
            }
            Err(fault) => {
                self.scheduler.close(around.rt);
                reports.report_rest(&written);
                Err(fault)
            }
        }
    }
}

/// Proves from the bound of `T` that threads may share the value. The contract of a closure needs this fact.
fn is_shared<T: Sync>(_value: &T)
    ensures { IsSync T.row }
{}

/// How many threads to start for this number of matches.
fn threads_for(form: SeasonForm, matches: usize) -> usize
    ensures { result ≡ min form.at_once matches }
{
    form.at_once.min(matches)
}

fn play_in_threads<N, R, S, W: Write, E: ReportsMissing + Send>(
    around: &SeasonSurroundings<'_, '_, R, S, E>,
    season: &Season<'_, '_, S, N>,
    sender: &Sender<MatchResult<N>>,
    receiver: &Receiver<MatchResult<N>>,
    writer: &mut Counted<W>,
) -> Result<u64, SeasonFault>
where
    N: OutputBrand + Send + Sync,
    R: Threads + Wait + Sync,
    S: Reach + ReportsShortages + Sync,
    S::Player: Player + Drop + Send,
    ensures written { IfOk result (λ missing. WritesAllBut N.is_output season.now.form.order missing (length season.now.plans.now) (W.contents writer.old.stream) (W.contents writer.new.stream)) }
    ensures at_fault { IfErr result (WritesUpTo N.is_output season.now.form.order (length season.now.plans.now) (W.contents writer.old.stream) (W.contents writer.new.stream)) }
    ensures faults { writer.new.faults ≡ faults_after result writer.old.faults }
{
    is_shared(season.game.game);
    is_shared(season.game.rules);
    let rt = around.rt;
    // The closure returns the stream, so that contracts know its content after the scope.
    let (played, _stream) = thread::scope(
        thread::scope_env(),
        rt,
        move |scope| -> (Result<u64, SeasonFault>, &mut Counted<W>)
            requires sent { IsSend N.row × IsSync N.row × IsSync R.row × IsSync S.row × IsSync game_row × IsSync rules_row }
            ensures stream { result.1.ghost_name ≡ writer.entry.ghost_name }
            ensures written { IfOk result.0 (λ missing. WritesAllBut N.is_output season.entry.now.form.order missing (length season.entry.now.plans.now) (W.contents writer.entry.now.stream) (W.contents result.1.now.stream)) }
            ensures at_fault { IfErr result.0 (WritesUpTo N.is_output season.entry.now.form.order (length season.entry.now.plans.now) (W.contents writer.entry.now.stream) (W.contents result.1.now.stream)) }
            ensures faults { result.1.now.faults ≡ faults_after result.0 writer.entry.now.faults }
        {
            // This is allocated before any match begins, because no result could be written without it.
            let Ok(nothing) = Written::nothing(season.alloc, season.plans.len()) else {
                return (Err(SeasonFault::Memory), writer);
            };
            let mut has_thread = false;
            for _ in 0..threads_for(season.form, season.plans.len()) {
                let work = move || season.play_matches(rt, sender);
                if scope.spawn(work).is_err() {
                    break;
                }
                has_thread = true;
            }
            let played = season.write_played(around, has_thread, nothing, receiver, writer);
            (played, writer)
        },
    );
    played
}

fn play_named<'f, 'a, N, R, S, W: Write, E: ReportsMissing + Send>(
    around: &SeasonSurroundings<'f, '_, R, S, E>,
    game: PlayableGame<'f>,
    plans: &'f [MatchPlan<'a>],
    form: SeasonForm,
    writer: &mut Counted<W>,
) -> Result<u64, SeasonFault>
where
    N: OutputBrand + Send + Sync,
    R: Threads + Wait + Sync,
    S: Reach + ReportsShortages + Sync,
    S::Player: Player + Drop + Send,
    requires named { (place : ℕ) (text : List ℕ) → IsOutputOf (S.is_reached around.now.reach.now) S.Player.handed game plans.now form.has_history place text → N.is_output place text }
    ensures written { IfOk result (λ missing. WritesAllBut N.is_output form.order missing (length plans.now) (W.contents writer.old.stream) (W.contents writer.new.stream)) }
    ensures at_fault { IfErr result (WritesUpTo N.is_output form.order (length plans.now) (W.contents writer.old.stream) (W.contents writer.new.stream)) }
    ensures faults { writer.new.faults ≡ faults_after result writer.old.faults }
{
    let scheduler = Scheduler::of(MatchQueue::of(around.alloc, plans, form)?);
    // The channel has a slot for every result, so threads do not wait for records to be written.
    let (sender, receiver) = bounded(around.alloc, plans.len())?;
    let season: Season<'f, 'a, S, N> = Season {
        alloc: around.alloc,
        reach: around.reach,
        game,
        plans,
        form,
        scheduler,
        of: PhantomData,
    };
    play_in_threads(around, &season, &sender, &receiver, writer)
}

/// Plays the matches of a schedule in threads. All matches are of the same game. Writes the record of each match,
/// followed by its call log if the form asks for it. Returns the number of matches without a record.
///
/// A match begins when all earlier matches of the schedule have begun, except those with a player that has reached its
/// limit of running matches. A match that runs out of memory or threads waits again, and from then on one fewer match
/// is played at once. If only one match is played at once, the season instead pauses for half a second before it tries
/// a match again. A match that runs out again after this pause has no record. The season pauses again only after a
/// match that did not run out.
///
/// If there is no memory for counting the records, or not even one thread can be started, no match begins and the
/// result is `Memory`. Otherwise the season reports each match without a record. After a failed write, no more matches
/// begin. The output then ends with part of the output of one match; this part may be empty or complete. If the
/// result is `Memory`, nothing was written.
pub fn play_season<'f, 'a, R, S, W: Write, E: ReportsMissing + Send>(
    around: &SeasonSurroundings<'f, '_, R, S, E>,
    game: PlayableGame<'f>,
    plans: &'f [MatchPlan<'a>],
    form: SeasonForm,
    writer: &mut Counted<W>,
) -> Result<u64, SeasonFault>
where
    R: Threads + Wait + Sync,
    S: Reach + ReportsShortages + Sync,
    S::Player: Player + Drop + Send,
    ensures written { IfOk result (λ missing. WritesAllBut (IsOutputOf (S.is_reached around.now.reach.now) S.Player.handed game.entry plans.now form.has_history) form.order missing (length plans.now) (W.contents writer.old.stream) (W.contents writer.new.stream)) }
    ensures at_fault { IfErr result (WritesUpTo (IsOutputOf (S.is_reached around.now.reach.now) S.Player.handed game.entry plans.now form.has_history) form.order (length plans.now) (W.contents writer.old.stream) (W.contents writer.new.stream)) }
    ensures faults { writer.new.faults ≡ faults_after result writer.old.faults }
{
    if plans.is_empty() {
        return Ok(0);
    }
    play_named::<Brand, R, S, W, E>(around, game, plans, form, writer)
}
