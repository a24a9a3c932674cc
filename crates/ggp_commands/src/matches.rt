//! Plays matches of a game, and reports on them.
ghost use Rattle.std.specs.Prelude.{◌≡◌, ◌⊎◌, ℕ, List, Option, Some, false, IfErr, IfOk, OnOk};
ghost use denote.Param.Send.{IsSend, IsSync};
ghost use Rattle.ggp_commands.specs.Faults.{check_fault};
ghost use Rattle.ggp_commands.specs.Runs.{WritesRun, WritesRunUpTo};
ghost use Rattle.match_log.specs.LoggedPlayers.{is_logged_reached, logged_handed};
ghost use Rattle.player_commands.specs.Checks.{EndsEarly, WritesCheck};
ghost use Rattle.player_commands.specs.declared.check.CheckFault.{CheckFault};
ghost use Rattle.match_plans.specs.declared.plan.MatchPlan.{MatchPlan};
ghost use Rattle.command_faults.specs.Faults.{IsFileFault};
ghost use Rattle.command_faults.specs.declared.fault.Fault.TheVariants.{WriteFault};
ghost use Rattle.command_faults.specs.declared.files.NamedFile.TheVariants.{Records};
ghost use Rattle.ggp_commands.specs.Schedules.{WritesPlans, WritesPlansUpTo, WritesSeason, WritesSeasonUpTo, has_schedule};
ghost use Rattle.matches_to_play.specs.ToPlay.{AreLeft};
ghost use Rattle.ggp_commands.specs.Tasks.{EndsTask, HasNoInput, ReadsInput, WritesTask, WritesTaskUpTo};

use crate::descriptors::allowed_form;
use crate::explaining::{Subject, explain};
use crate::faults::{check_fault, match_fault, season_fault};
use crate::log_target::LogTarget;
use crate::records_file::{last_partial, mend_records, records_file, report_state};
use crate::surroundings::{Surroundings, Terminals};
use command_faults::{Fault, MaxBytes, NamedFile, file_text};
use command_line::{MatchTask, RunPlan, SeasonPlan, VERSION};
use game_core::{Counted, Game};
use match_log::{
    ClearedOutput, Event, Logging, Notices, Progress, ReportStream, StatusStream, WriterBrand,
};
use match_messages::Player;
use match_plans::{CheckPlan, MatchPlan, Reach, ReportsShortages, SeasonForm};
use match_play::{PlayableGame, ended_match, prepared_match};
use match_season::{ReportsMissing, SeasonSurroundings, play_season};
use matches_to_play::{plans_of, undone};
use network_players::Explains;
use player_commands::check_player;
use process_streams::{LockedFiles, RecordsState};
use std::alloc::Global;
use std::fmt::Write as _;
use std::io::{Read, Write};
use std::marker::PhantomData;
use std::rt::Files;
use std::sync::{Mutex, Wait};
use std::thread::Threads;
use std::time::Clock;
use std::{fmt, thread};
use whole_streams::{Pieces, read_to_end, write_all};

/// The reports on running matches.
#[derive(Drop)]
struct Console {
    notices: Notices,
    progress: Progress,
    shows_progress: bool,
    terminals: Terminals,
}

impl Console {
    fn shown_progress(&self) -> Option<&Progress> {
        if self.shows_progress {
            Some(&self.progress)
        } else {
            None
        }
    }

    fn plan<R: Wait>(&self, rt: &R, count: usize) {
        self.progress.plan(count);
        if self.shows_progress {
            self.notices.move_on(rt);
        }
    }
}

/// Reports matches without a record: as a line on standard error, and in the log.
#[derive(Drop)]
struct MissingRecords<'a, R> {
    rt: &'a R,
    notices: &'a Notices,
    errors: ReportStream<'a, R>,
}

impl<R: Wait> ReportsMissing for MissingRecords<'_, R> {
    fn report_missing<F: fmt::Display>(&mut self, id: &str, why: &F) {
        self.notices.log_missing(self.rt, id, why);
        let mut pieces = Pieces {
            stream: &mut self.errors,
        };
        let _ = writeln!(pieces, "ggp_manager: {id}: {why}");
    }
}

/// A task with its game and its input.
#[derive(Clone, Copy)]
pub struct ReadyTask<'t> {
    pub task: &'t MatchTask<'t>,
    pub game: PlayableGame<'t>,
    pub input: &'t [u8],
}

/// Plays a match, and writes its record, followed by its call log if the plan asks for it.
fn run<H, S, W: Write>(
    around: &Surroundings<'_, H, S>,
    run: &RunPlan<'_>,
    game: PlayableGame<'_>,
    writer: &mut Counted<W>,
) -> Result<(), Fault>
where
    H: Threads + Wait + Sync,
    S: Reach + ReportsShortages,
    S::Player: Player + Drop + Send,
    ensures clear { OnOk result (S.is_clear around.now.reach.now 0) }
    ensures written { OnOk result (WritesRun (S.is_reached around.now.reach.now) S.Player.handed game.entry run.now (W.contents writer.old.stream) (W.contents writer.new.stream)) }
    ensures at_fault { IfErr result (WritesRunUpTo (S.is_reached around.now.reach.now) S.Player.handed game.entry run.now (W.contents writer.old.stream) (W.contents writer.new.stream)) }
{
    let Surroundings {
        rt,
        alloc,
        reach,
        ..
    } = *around;
    let prepared = prepared_match(alloc, reach, game, 0, &run.plan)?;
    let ended = match ended_match(rt, alloc, reach, prepared, game, run.has_history) {
        Ok(ended) => ended,
        Err(fault) => return Err(match_fault(fault)),
    };
    Ok(write_all(writer, ended.text.as_slice())?)
}

const MAX_SCHEDULE: u32 = 16_777_216;

/// Reads the input of a task. A season reads its schedule, from its file or the reader; other tasks read nothing.
pub fn input_of<F: Files, R: Read>(
    files: &F,
    alloc: Global,
    task: &MatchTask<'_>,
    reader: &mut Counted<R>,
) -> Result<Vec<u8>, Fault>
    ensures unread { has_schedule task.now ≡ false → reader.new ≡ reader.old }
    ensures read { IfOk result (λ input. ReadsInput R.remaining task.now input.items reader.old reader.new) }
    ensures fault { IfErr result (λ fault. HasNoInput R.remaining task.now fault reader.old reader.new) }
{
    match task {
        MatchTask::Season(plan) => match plan.schedule {
            None => Ok(read_to_end(alloc, reader, MAX_SCHEDULE as usize)?),
            Some(path) => {
                let limit = MaxBytes::fixed(MAX_SCHEDULE);
                file_text(files, alloc, NamedFile::Input, path, limit)
            }
        },
        MatchTask::Run(_) | MatchTask::Check(_) => Ok(Vec::new(alloc)),
    }
}

/// Plays the given matches of a season, and writes their records. Returns the number of matches without a record.
#[tactic(auto, using(crate::proofs::SeasonEnds::same_output))]
fn play_plans<'s, H, S, W: Write>(
    around: &Surroundings<'s, H, S>,
    form: SeasonForm,
    game: PlayableGame<'_>,
    plans: &[MatchPlan<'_>],
    writer: &mut Counted<W>,
    console: &'s Console,
) -> Result<u64, Fault>
where
    H: Files + Threads + Wait + Sync,
    S: Reach + ReportsShortages + Sync,
    S::Player: Player + Drop + Send,
    ensures written { IfOk result (λ missing. WritesPlans (S.is_reached around.now.reach.now) S.Player.handed game.entry form plans.now missing (W.contents writer.old.stream) (W.contents writer.new.stream)) }
    ensures at_fault { IfErr result (λ fault. WritesPlansUpTo (S.is_reached around.now.reach.now) S.Player.handed game.entry form plans.now fault (W.contents writer.old.stream) (W.contents writer.new.stream)) }
{
    let Surroundings {
        rt,
        alloc,
        reach,
        ..
    } = *around;
    console.plan(rt, plans.len());
    let mut errors = ReportStream::new(rt, &console.notices);
    let form = allowed_form(rt, alloc, form, game.game.roles(), plans.len(), &mut errors);
    let errors = Mutex::new(MissingRecords {
        rt,
        notices: &console.notices,
        errors,
    });
    let surroundings = SeasonSurroundings {
        rt,
        alloc,
        reach,
        errors: &errors,
    };
    let around = &surroundings;
    let played = play_season(around, game, plans, form, writer);
    match played {
        Ok(missing) => Ok(missing),
        Err(fault) => Err(season_fault(fault)),
    }
}

/// Plays the matches of a season that have no record in the file at this path, and appends their records to it. Returns the number of
/// matches without a record.
fn play_into_file<H, S>(
    around: &Surroundings<'_, H, S>,
    form: SeasonForm,
    game: PlayableGame<'_>,
    plans: Vec<MatchPlan<'_>>,
    path: &str,
    console: &Console,
) -> Result<u64, Fault>
where
    H: LockedFiles + Threads + Wait + Sync,
    S: Reach + ReportsShortages + Sync,
    S::Player: Player + Drop + Send,
    ensures written { IfOk result (λ missing. (left : List MatchPlan) × AreLeft game.entry.game.now (Some path.entry) plans.entry.items left
        × ((before : Option (List ℕ)) × (after : Option (List ℕ)) × WritesPlans (S.is_reached around.now.reach.now) S.Player.handed game.entry form left missing before after)) }
    ensures at_fault { IfErr result (λ fault. (IsFileFault Records fault
        ⊎ ((fault ≡ WriteFault) × ((missing : ℕ) × (left : List MatchPlan) × AreLeft game.entry.game.now (Some path.entry) plans.entry.items left
        × ((before : Option (List ℕ)) × (after : Option (List ℕ)) × WritesPlans (S.is_reached around.now.reach.now) S.Player.handed game.entry form left missing before after))))
        ⊎ ((left : List MatchPlan) × AreLeft game.entry.game.now (Some path.entry) plans.entry.items left
        × ((before : Option (List ℕ)) × (after : Option (List ℕ)) × WritesPlansUpTo (S.is_reached around.now.reach.now) S.Player.handed game.entry form left fault before after))) }
{
    let Surroundings { rt, alloc, .. } = *around;
    let mut errors = ReportStream::new(rt, &console.notices);
    let mut file = records_file(rt, alloc, path, &mut errors)?;
    let first = if form.has_history {
        last_partial(rt, alloc, game.game, path, &mut errors)?
    } else {
        None
    };
    mend_records(&mut file, alloc, first, path, &mut errors)?;
    let mut file = Counted::new(file);
    let left = undone(rt, alloc, game.game, Some(path), plans, &mut errors)?;
    let played = play_plans(around, form, game, &left, &mut file, console);
    let state = file.end().state();
    report_state(&mut errors, path, state);
    match (state, played) {
        (RecordsState::Lost | RecordsState::Cut, Ok(_)) => Err(Fault::WriteFault),
        (_, played) => played,
    }
}

/// Plays the matches of a schedule, and writes their records. Returns the number of matches without a record.
fn season<H, S, W: Write>(
    around: &Surroundings<'_, H, S>,
    season: SeasonPlan<'_>,
    game: PlayableGame<'_>,
    schedule: &[u8],
    writer: &mut Counted<W>,
    console: &Console,
) -> Result<u64, Fault>
where
    H: LockedFiles + Threads + Wait + Sync,
    S: Reach + ReportsShortages + Sync,
    S::Player: Player + Drop + Send,
    ensures written { IfOk result (λ missing. WritesSeason (S.is_reached around.now.reach.now) S.Player.handed game.entry season.entry schedule.now missing (W.contents writer.old.stream) (W.contents writer.new.stream)) }
    ensures at_fault { IfErr result (WritesSeasonUpTo (S.is_reached around.now.reach.now) S.Player.handed game.entry season.entry schedule.now (W.contents writer.old.stream) (W.contents writer.new.stream)) }
{
    let Surroundings { rt, alloc, .. } = *around;
    let mut errors = ReportStream::new(rt, &console.notices);
    let plans = plans_of(rt, alloc, game.game, season, schedule, &mut errors)?;
    let are_wanted = console.terminals.explain();
    explain(alloc, are_wanted, &Subject::Schedule(schedule), &mut errors);
    match season.records {
        None => { play_plans(around, season.form, game, &plans, writer, console) }
        Some(path) => { play_into_file(around, season.form, game, plans, path, console) }
    }
}

fn check<H, S, W: Write>(
    around: &Surroundings<'_, H, S>,
    plan: &CheckPlan<'_>,
    game: PlayableGame<'_>,
    writer: &mut Counted<W>,
) -> Result<u64, Fault>
where
    H: Clock + Threads + Wait + Sync,
    S: Reach + ReportsShortages,
    S::Player: Player + Explains + Drop + Send,
    ensures clear { OnOk result (S.is_clear around.now.reach.now 0) }
    ensures written { IfOk result (λ bad. WritesCheck H (S.is_reached around.now.reach.now) S.Player.handed game.entry plan.now bad (W.contents writer.old.stream) (W.contents writer.new.stream)) }
    ensures at_fault { IfErr result (λ fault. (why : CheckFault) × (fault ≡ check_fault why) × EndsEarly H (S.is_reached around.now.reach.now) S.Player.handed game.entry plan.now why (W.contents writer.old.stream) (W.contents writer.new.stream)) }
{
    let Surroundings {
        rt,
        alloc,
        reach,
        ..
    } = *around;
    match check_player(rt, alloc, reach, plan, game, writer) {
        Ok(bad) => Ok(bad),
        Err(fault) => Err(check_fault(fault)),
    }
}

/// Runs a task on a game. Returns the number of matches without a record, or of bad answers.
fn perform_match_task<H, S, W: Write>(
    around: &Surroundings<'_, H, S>,
    ready: ReadyTask<'_>,
    writer: &mut Counted<W>,
    console: &Console,
) -> Result<u64, Fault>
where
    H: Clock + LockedFiles + Threads + Wait + Sync,
    S: Reach + ReportsShortages + Sync,
    S::Player: Player + Explains + Drop + Send,
    ensures written { IfOk result (λ count. WritesTask H (is_logged_reached H (S.is_reached around.now.reach.now)) (logged_handed H S.Player.handed) ready.entry.game ready.entry.task.now ready.entry.input.now count (W.contents writer.old.stream) (W.contents writer.new.stream)) }
    ensures at_fault { IfErr result (WritesTaskUpTo H (is_logged_reached H (S.is_reached around.now.reach.now)) (logged_handed H S.Player.handed) ready.entry.game ready.entry.task.now ready.entry.input.now (W.contents writer.old.stream) (W.contents writer.new.stream)) }
{
    let ReadyTask { task, game, input } = ready;
    let rt = around.rt;
    explain(
        around.alloc,
        around.terminals.explain(),
        &Subject::Opening(task, game.game.roles()),
        &mut ReportStream::new(rt, &console.notices),
    );
    let is_alone = matches!(task, MatchTask::Check(_));
    let logging = Logging {
        rt,
        reach: around.reach,
        progress: console.shown_progress(),
        notices: &console.notices,
        is_alone,
        names_absent: !is_alone && console.terminals.explain(),
    };
    let logged = Surroundings {
        rt,
        alloc: around.alloc,
        reach: &logging,
        terminals: around.terminals,
    };
    match task {
        MatchTask::Run(plan) => {
            console.plan(rt, 1);
            match run(&logged, plan, game, writer) {
                Ok(()) => Ok(0),
                Err(fault) => {
                    console.notices.log_missing(rt, plan.plan.id, &fault);
                    Err(fault)
                }
            }
        }
        MatchTask::Season(plan) => season(&logged, *plan, game, input, writer, console),
        MatchTask::Check(plan) => {
            console.plan(rt, game.game.roles());
            check(&logged, plan, game, writer)
        }
    }
}

/// Runs the task while another thread writes the reports. Returns the result of the task.
fn perform_beside_notices<H, S, W: Write, E: Write + Send, L: Write + Drop + Send>(
    around: &Surroundings<'_, H, S>,
    ready: ReadyTask<'_>,
    writer: &mut Counted<W>,
    console: &Console,
    stream: &Mutex<StatusStream<&mut E>>,
    log: Option<L>,
) -> Result<u64, Fault>
where
    H: Clock + LockedFiles + Threads + Wait + Sync,
    S: Reach + ReportsShortages + Sync,
    S::Player: Player + Explains + Drop + Send,
    ensures written { IfOk result (λ count. WritesTask H (is_logged_reached H (S.is_reached around.now.reach.now)) (logged_handed H S.Player.handed) ready.entry.game ready.entry.task.now ready.entry.input.now count (W.contents writer.old.stream) (W.contents writer.new.stream)) }
    ensures at_fault { IfErr result (EndsTask H (is_logged_reached H (S.is_reached around.now.reach.now)) (logged_handed H S.Player.handed) ready.entry.game ready.entry.task.now ready.entry.input.now (W.contents writer.old.stream) (W.contents writer.new.stream)) }
{
    let rt = around.rt;
    // The closure returns the output, so that contracts know the output's content after the scope.
    let (performed, _writer) = thread::scope(
        thread::scope_env(),
        rt,
        move |scope| -> (Result<u64, Fault>, &mut Counted<W>)
            requires sent { IsSync H.row × IsSend E.row × IsSend L.row }
            ensures stream { result.1.ghost_name ≡ writer.entry.ghost_name }
            ensures written { IfOk result.0 (λ count. WritesTask H (is_logged_reached H (S.is_reached around.entry.now.reach.now)) (logged_handed H S.Player.handed) ready.entry.game ready.entry.task.now ready.entry.input.now count (W.contents writer.entry.now.stream) (W.contents result.1.now.stream)) }
            ensures at_fault { IfErr result.0 (EndsTask H (is_logged_reached H (S.is_reached around.entry.now.reach.now)) (logged_handed H S.Player.handed) ready.entry.game ready.entry.task.now ready.entry.input.now (W.contents writer.entry.now.stream) (W.contents result.1.now.stream)) }
        {
            let writing = move || console
                .notices
                .write_until_closed(rt, &console.progress, stream, log);
            if scope.spawn(writing).is_err() {
                return (Err(Fault::Memory), writer);
            }
            let performed = perform_match_task(around, ready, writer, console);
            console.notices.close(rt);
            (performed, writer)
        },
    );
    performed
}

/// Plays matches of a game and reports on them. The log reports each message; `errors` shows the progress if it is a
/// terminal that does not get the log. Matches do not wait until reports are written. Returns the number of matches
/// without a record, or of bad answers. Also returns the output, so that contracts know its content.
pub fn play_with_reports<
    'w,
    N: WriterBrand,
    H,
    S,
    W: Write,
    E: Write + Send,
    L: Write + Drop + Send,
>(
    around: &Surroundings<'_, H, S>,
    ready: ReadyTask<'_>,
    log: LogTarget<L>,
    writer: &'w mut Counted<W>,
    errors: &mut E,
) -> (Result<u64, Fault>, &'w mut Counted<W>)
where
    H: Clock + LockedFiles + Threads + Wait + Sync,
    S: Reach + ReportsShortages + Sync,
    S::Player: Player + Explains + Drop + Send,
    requires picked { N.name ≡ writer.ghost_name }
    ensures output { result.1.ghost_name ≡ writer.entry.ghost_name }
    ensures written { IfOk result.0 (λ count. WritesTask H (is_logged_reached H (S.is_reached around.now.reach.now)) (logged_handed H S.Player.handed) ready.entry.game ready.entry.task.now ready.entry.input.now count (W.contents writer.entry.now.stream) (W.contents result.1.now.stream)) }
    ensures at_fault { IfErr result.0 (EndsTask H (is_logged_reached H (S.is_reached around.now.reach.now)) (logged_handed H S.Player.handed) ready.entry.game ready.entry.task.now ready.entry.input.now (W.contents writer.entry.now.stream) (W.contents result.1.now.stream)) }
{
    let Surroundings {
        rt,
        alloc,
        terminals,
        ..
    } = *around;
    let (is_logged, shows_progress, log) = match log {
        LogTarget::Nowhere => (false, terminals.errors, None),
        LogTarget::Errors => (true, false, None),
        LogTarget::File(file) => (true, terminals.errors, Some(file)),
    };
    let console = Console {
        notices: Notices::new(alloc, is_logged),
        progress: Progress::new(),
        shows_progress,
        terminals,
    };
    if is_logged {
        let begun = Event::Begun(VERSION).to_string(alloc);
        console.notices.log(rt, begun);
    }
    let stream = Mutex::new(StatusStream::new(errors));
    let mut output = Counted::new(ClearedOutput::<'_, 'w, N, H, W, &mut E> {
        rt,
        output: writer,
        status: &stream,
        shares_terminal: terminals.output && shows_progress,
        brand: PhantomData,
    });
    let performed = perform_beside_notices(around, ready, &mut output, &console, &stream, log);
    let ClearedOutput { output, .. } = output.end();
    stream.lock(rt).clear();
    (performed, output)
}
