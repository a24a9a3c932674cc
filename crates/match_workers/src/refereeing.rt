//! Referees a whole match between players.
ghost use Rattle.std.specs.Prelude.{◌≡◌, ◌≢◌, ◌∷◌, ◌++◌, [], ◌+◌, ◌<◌, List, None, IfOk, IfErr, OnOk, length, vec_len};
ghost use Rattle.call_history.specs.Faults.{ask_fault};
ghost use Rattle.call_history.specs.Limits.{max_entries};
ghost use Rattle.call_history.specs.RingLines.{posted_calls, taken_replies, SameLine, SamePorts, IsNewLine};
ghost use Rattle.desk_calls.specs.declared.call.Reply.TheVariants.{Opened as IsOpened};
ghost use Rattle.match_desk.specs.Open.{open_refusal};
ghost use Rattle.kif_text.specs.View.{views};
ghost use Rattle.match_messages.specs.RulesText.{rules_text};
ghost use Rattle.match_messages.specs.StartRules.{start_rules_text};
ghost use Rattle.match_workers.specs.Briefs.{AreRoleNames};
ghost use Rattle.match_workers.specs.LineParts.{open_call};
ghost use Rattle.match_workers.specs.Refereeing.{IsRefereed};
ghost use Rattle.match_workers.specs.declared.refereeing.RefereeFault.TheVariants.{Memory as IsMemory};
ghost use Rattle.match_workers.specs.RefereeFaults.{reason_of, referee_fault};
ghost use Rattle.match_workers.specs.Refusals.{manager_of, match_refusal};
ghost use Rattle.role_workers.specs.RoleLines.{AreSeatLines};

use crate::closing::close_match;
use crate::refereed::Refereed;
use call_history::laws::{lines_stay, new_lines_are_lines, numbers_are_of_ends};
use call_history::{AskFault, CallFault, DeskFault, MAX_ENTRIES, Object, RingLine, open_rings};
use desk_calls::{Call, Refusal, Reply, Setup};
use game_core::{Game, Text, Texts};
use kif_text::Expr;
use match_desk::{Manager, open_call};
use match_messages::{Player, SharedBrief, StartRules};
use role_workers::laws::{calls_are_of_the_role, calls_have_replies};
use role_workers::{AttendancePlan, AttendedMatch, DeskHolder, ROOM, ask_own, attend_match};
use std::alloc::{AllocError, AllocFailed, Global};
use std::marker::Brand;
use std::sync::Wait;
use std::thread::Threads;
use thiserror::Error;

/// Why the desk of a match was not opened, or not closed.
#[derive(Clone, Copy, Debug, PartialEq, Eq, Error)]
pub enum RefereeFault {
    /// The desk refused to open the match, for this reason. No player received anything.
    #[error("refused: {0}")]
    Refused(Refusal),
    /// The desk could not be closed, or the call that opens the match got no reply.
    #[error("the desk did not close")]
    Unclosed,
    /// The desk's history was full before the match was opened, or at the end while calls were still waiting.
    #[error("the history is full")]
    Full,
    /// Out of memory, or a thread could not be created.
    #[error("out of memory")]
    Memory,
}

impl From<AllocError> for RefereeFault {
    ghost from_gives = { λ _ fault. fault ≡ IsMemory };

    fn from(_: AllocError) -> RefereeFault {
        RefereeFault::Memory
    }
}

impl<T: Drop> From<AllocFailed<T>> for RefereeFault {
    ghost from_gives = { λ _ fault. fault ≡ IsMemory };

    fn from(_: AllocFailed<T>) -> RefereeFault {
        RefereeFault::Memory
    }
}

impl From<AskFault> for RefereeFault {
    ghost from_gives = { λ fault passed. passed ≡ referee_fault fault };

    fn from(fault: AskFault) -> RefereeFault {
        match fault {
            AskFault::Full => RefereeFault::Full,
            AskFault::Memory => RefereeFault::Memory,
            AskFault::Stalled => RefereeFault::Unclosed,
        }
    }
}

impl From<DeskFault> for RefereeFault {
    ghost from_gives = { λ fault passed. passed ≡ referee_fault (ask_fault fault.cause) };

    fn from(fault: DeskFault) -> RefereeFault {
        match fault.cause {
            CallFault::Full => RefereeFault::Full,
            CallFault::Memory => RefereeFault::Memory,
        }
    }
}

fn role_names<G: Game>(alloc: Global, game: &G) -> Result<Texts, AllocError>
    ensures { IfOk result (λ names. AreRoleNames (G.rules game.now) names) }
{
    let mut items = Vec::with_capacity(alloc, game.roles())?;
    for role in 0..game.roles() {
        items.push(Text::from_slice(alloc, game.role_name(role))?)?;
    }
    Ok(Texts { items })
}

/// The borrowed match data that the players get.
fn brief_of<'r>(
    id: &'r Text,
    roles: &'r Texts,
    rules: StartRules<'r>,
    start: u32,
    play: u32,
) -> SharedBrief<'r>
    ensures { result ≡ record { id = id.now; roles = roles.now; rules = start_rules_text rules.entry; start = start; play = play } }
{
    SharedBrief {
        id,
        roles,
        rules,
        start,
        play,
    }
}

/// Opens a desk that has only this game. The desk has a line for the calling thread, which holds the desk, and a line
/// for each role.
fn open_desk<G: Game + Drop>(
    alloc: Global,
    game: G,
) -> Result<(DeskHolder<Manager<G>>, Vec<RingLine<Manager<G>>>), AllocError>
    ensures games { IfOk result (λ opened. opened.0.desk.journal.object.games ≡ game ∷ []) }
    ensures manager { IfOk result (λ opened. opened.0.desk.journal.object ≡ manager_of game) }
    ensures most { IfOk result (λ opened. opened.0.desk.journal.most ≡ max_entries) }
    ensures desk { IfOk result (λ opened. length opened.0.desk.ports ≡ (G.rules game).roles + 1) }
    ensures first { IfOk result (λ opened. IsNewLine opened.0.desk.ports 0 opened.0.line) }
    ensures seats { IfOk result (λ opened. AreSeatLines opened.0.desk.ports opened.1.items) }
    ensures one_each { IfOk result (λ opened. length opened.1.items ≡ (G.rules game).roles) }
{
    let line_count = game.roles() as u32 + 1;
    let mut games = Vec::new(alloc);
    games.push(game)?;
    let manager = Manager::new(alloc, games)?;
    let Ok((desk, mut lines)) = open_rings(alloc, manager, MAX_ENTRIES, line_count, ROOM) else {
        return Err(AllocError);
    };
    let line = lines.remove(0);
    Ok((DeskHolder { desk, line }, lines))
}

/// The call that opens a match of the manager's first game. The error is the reason why the manager refuses this call,
/// or out of memory.
fn accepted_call<G: Game>(
    alloc: Global,
    manager: &Manager<G>,
    setup: Setup,
) -> Result<Call, RefereeFault>
    ensures call { IfOk result (λ call. call ≡ open_call setup) }
    ensures opens { OnOk result (open_refusal G.rules manager.now 0 setup ≡ None) }
    ensures refused { IfErr result (λ fault. fault ≢ RefereeFault.Memory → reason_of fault ≡ open_refusal G.rules manager.now 0 setup) }
{
    let call = open_call(0, setup);
    match manager.answer(alloc, &call)? {
        Reply::Refused(reason) => Err(RefereeFault::Refused(reason)),
        _ => Ok(call),
    }
}

/// Opens a match of the desk's only game. Checks first whether the manager refuses the call, because no contract says
/// what a reply over a ring means before the desk is closed.
fn open_match<G: Game + Drop>(
    alloc: Global,
    holder: &mut DeskHolder<Manager<G>>,
    setup: Setup,
) -> Result<(), RefereeFault>
    ensures line { SameLine holder.old.line holder.new.line }
    ensures ports { SamePorts holder.old.desk.ports holder.new.desk.ports }
    ensures games { holder.new.desk.journal.object.games ≡ holder.old.desk.journal.object.games }
    ensures call { OnOk result (posted_calls holder.new.line ≡ posted_calls holder.old.line ++ open_call setup ∷ []) }
    ensures reply { OnOk result (taken_replies holder.new.line ≡ taken_replies holder.old.line ++ IsOpened ∷ []) }
    ensures opens { OnOk result (open_refusal G.rules holder.old.desk.journal.object 0 setup ≡ None) }
    ensures refused { IfErr result (λ fault. fault ≢ RefereeFault.Memory → reason_of fault ≡ open_refusal G.rules holder.old.desk.journal.object 0 setup) }
{
    let call = accepted_call(alloc, holder.desk.journal().object(), setup)?;
    let reply = ask_own(holder, call)?;
    match reply {
        Reply::Opened => Ok(()),
        _ => Err(RefereeFault::Unclosed),
    }
}

/// Referees a match of the game between these players to its end, as `referee` does, with borrowed rules. Returns the
/// players in the order of the roles. Each player received the messages of its role, and nothing after them.
pub fn referee_shared<G, P, R>(
    rt: &R,
    alloc: Global,
    game: G,
    setup: Setup,
    rules: StartRules<'_>,
    players: Vec<P>,
    tries: u64,
) -> Result<(Refereed<G>, Vec<P>), RefereeFault>
where
    G: Game + Drop + Send,
    G::State: Send,
    G::Move: Send,
    P: Player + Drop + Send,
    R: Threads + Wait + Sync,
    requires { vec_len players ≡ length setup.players }

    ensures refereed { IfOk result (λ r. IsRefereed G.rules P.handed game setup (start_rules_text rules.entry) tries players.items r.1.items
        r.0.closed.object r.0.closed.history.items r.0.closed.made_by_line.items r.0.ends.items) }

    // If the match is refused, this call fails for the same reason, unless memory runs out. No other error is a refusal.
    ensures opens { OnOk result (match_refusal G.rules game setup ≡ None) }
    ensures refused { IfErr result (λ fault. fault ≢ RefereeFault.Memory → reason_of fault ≡ match_refusal G.rules game setup) }
{
    lines_stay::<Manager<G>>();
    new_lines_are_lines::<Manager<G>>();
    numbers_are_of_ends::<Manager<G>>();
    calls_are_of_the_role();
    calls_have_replies();
    let id = setup.id.copy(alloc)?;
    let roles = role_names(alloc, &game)?;
    let brief = brief_of(&id, &roles, rules, setup.start, setup.play);
    let plan = AttendancePlan {
        brief,
        players,
        tries,
    };
    let (mut holder, others) = open_desk(alloc, game)?;
    open_match(alloc, &mut holder, setup)?;
    let AttendedMatch {
        desk,
        lines,
        ends,
        players,
    } = attend_match::<Brand, Manager<G>, P, R>(rt, alloc, holder, others, plan)?;
    let closed = close_match(desk, lines)?;
    Ok((Refereed { closed, ends }, players))
}

/// Referees a match of the game between these players to its end. There is one player for each name in the setup.
///
/// This opens a desk with only this game, a line for the calling thread, and a line for each role. The calling thread
/// opens the match. Then a separate thread attends each role, in at most `tries` tries. These threads and the calling
/// thread serve the desk. START contains the given rules. At the end the desk is closed.
///
/// The history of the closed desk can be replayed: if one thread makes its calls, one after another, on a manager that
/// has the same game and no match, each call gets its stored reply, and the manager becomes the manager of the closed
/// desk. The history has as many calls as the lines made. The manager has exactly one match, of this game and with this
/// setup. The match is lawful, and its recorded moves were legal. For each recorded move of a role that was not yet
/// retired, the desk accepted exactly one answer, and this answer determines the move and its error. For each player,
/// the contract says which messages the player received and how attending its role ended.
pub fn referee<G, P, R>(
    rt: &R,
    alloc: Global,
    game: G,
    setup: Setup,
    rules: Vec<Expr>,
    players: Vec<P>,
    tries: u64,
) -> Result<Refereed<G>, RefereeFault>
where
    G: Game + Drop + Send,
    G::State: Send,
    G::Move: Send,
    P: Player + Drop + Send,
    R: Threads + Wait + Sync,
    requires { vec_len players ≡ length setup.players }

    ensures refereed { IfOk result (λ r. (left : List _) × IsRefereed G.rules P.handed game setup (rules_text (views rules.items)) tries players.items left
        r.closed.object r.closed.history.items r.closed.made_by_line.items r.ends.items) }

    // If the match is refused, this call fails for the same reason, unless memory runs out. No other error is a refusal.
    ensures opens { OnOk result (match_refusal G.rules game setup ≡ None) }
    ensures refused { IfErr result (λ fault. fault ≢ RefereeFault.Memory → reason_of fault ≡ match_refusal G.rules game setup) }
{
    let rules = StartRules::Sentences(&rules);
    let (refereed, _players) = referee_shared(rt, alloc, game, setup, rules, players, tries)?;
    Ok(refereed)
}
