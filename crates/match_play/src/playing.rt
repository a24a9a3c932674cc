//! Plays a match between players on the network.
ghost use Rattle.std.specs.Prelude.{◌≡◌, ◌≢◌, ℕ, List, None, Err, All, IfOk, IfErr, IfSome, IsFalse, IsTrue, ◌↔◌, OnOk, MatchOption, length, vec_len};
ghost use Rattle.call_history.specs.declared.journal.Entry.{Entry};
ghost use Rattle.ground_rules.specs.declared.state.GroundMove.{GroundMove};
ghost use Rattle.packed_rules.specs.declared.packed_game.PackedGame.{PackedGame};
ghost use Rattle.match_book.specs.MatchValue.{GameMatch};
ghost use Rattle.desk_calls.specs.Names.{IsLawfulSetup};
ghost use Rattle.desk_calls.specs.declared.call.Call.{Call as DeskCall};
ghost use Rattle.desk_calls.specs.declared.call.Reply.{Reply as DeskReply};
ghost use Rattle.match_workers.specs.Refereeing.{IsRefereed};
ghost use Rattle.match_play.specs.Matches.{IsEndedRecord, HasEndedMatch, HasNoEndedMatch, reason_of};
ghost use Rattle.match_play.specs.EndedMatches.{IsEndedMatch, match_text};
ghost use Rattle.match_play.specs.Limits.{max_tries};
ghost use Rattle.match_play.specs.PlayedMatches.{AreReached, IsEndedWith, IsSetupOf, IsPlayedMatch, packed_refusal};

use crate::playable_game::PlayableGame;
use call_history::Entry;
use desk_calls::{Call, Phase, Refusal, Reply, Setup};
use desk_text::{push_history, refusal_word};
use game_core::{Game, Lent, Text, Texts};
use match_book::Match;
use match_messages::{Player, StartRules};
use match_plans::{MatchPlan, Reach, ReportsShortages, RolePlace, Shortage};
use match_record::record_json;
use match_workers::{RefereeFault, Refereed, referee_shared};
use packed_rules::PackedGame;
use role_workers::AttendFault;
use std::alloc::{AllocError, AllocFailed, Global};
use std::sync::Wait;
use std::thread::Threads;
use thiserror::Error;

/// The limit on a role's `Next` calls. No match needs so many, whatever its clocks (`docs/COMMANDS.md`).
const MAX_TRIES: u64 = 1_000_000_000;

/// Why a match has no record.
#[derive(Clone, Copy, Debug, PartialEq, Eq, Error)]
pub enum MatchFault {
    /// The desk refused to open the match.
    #[error("refused {}", refusal_word(*.0))]
    Refused(Refusal),
    /// The match neither finished nor was aborted, or its desk was full or did not close.
    #[error("match not ended")]
    NotEnded,
    /// The referee lacked this resource in the match, so a wrong or missing answer may not be the player's fault.
    #[error("{0}")]
    Shortage(Shortage),
    #[error("out of memory")]
    Memory,
}

impl From<AllocError> for MatchFault {
    ghost use Rattle.std.specs.Prelude.{◌≡◌};
    ghost use Rattle.match_play.specs.declared.playing.MatchFault.TheVariants.{Memory};

    ghost from_gives = { λ _ given. given ≡ Memory };

    fn from(_: AllocError) -> MatchFault {
        MatchFault::Memory
    }
}

impl<T: Drop> From<AllocFailed<T>> for MatchFault {
    ghost use Rattle.std.specs.Prelude.{◌≡◌};
    ghost use Rattle.match_play.specs.declared.playing.MatchFault.TheVariants.{Memory};

    ghost from_gives = { λ _ given. given ≡ Memory };

    fn from(_: AllocFailed<T>) -> MatchFault {
        MatchFault::Memory
    }
}

impl From<RefereeFault> for MatchFault {
    ghost use Rattle.std.specs.Prelude.{◌≡◌};
    ghost use Rattle.match_play.specs.Matches.{referee_fault};

    ghost from_gives = { λ fault given. given ≡ referee_fault fault };

    fn from(fault: RefereeFault) -> MatchFault {
        match fault {
            RefereeFault::Refused(refusal) => MatchFault::Refused(refusal),
            RefereeFault::Unclosed | RefereeFault::Full => MatchFault::NotEnded,
            RefereeFault::Memory => MatchFault::Memory,
        }
    }
}

fn setup_of(alloc: Global, plan: &MatchPlan<'_>) -> Result<Setup, AllocError>
    ensures plan { IfOk result (IsSetupOf plan.now) }
    ensures one_each { IfOk result (λ s. length s.players ≡ vec_len plan.now.players) }
{
    let mut items = Vec::with_capacity(alloc, plan.players.len())?;
    for player in &plan.players {
        items.push(Text::from_slice(alloc, player.name.as_bytes())?)?;
    }
    Ok(Setup {
        id: Text::from_slice(alloc, plan.id.as_bytes())?,
        start: plan.start,
        play: plan.play,
        strikes: plan.strikes,
        players: Texts { items },
    })
}

fn players_of<S: Reach>(
    alloc: Global,
    reach: &S,
    longest_move: usize,
    place: usize,
    plan: &MatchPlan<'_>,
) -> Result<Vec<S::Player>, AllocError>
where
    S::Player: Drop,
    ensures count { IfOk result (λ v. vec_len v ≡ vec_len plan.now.players) }
    ensures reached { IfOk result (λ v. AreReached (S.is_reached reach.now) longest_move place plan.now v.items) }
{
    let mut players = Vec::with_capacity(alloc, plan.players.len())?;
    for (role, address) in plan.players.iter().enumerate() {
        let at = RolePlace {
            place,
            id: plan.id,
            role,
            longest_move,
        };
        players.push(reach.player(alloc, at, address)?)?;
    }
    Ok(players)
}

/// A match that can be played: its index in the schedule, its setup, and a player for each name in the setup.
#[derive(Drop)]
pub struct PreparedMatch<P> {
    pub place: usize,
    pub setup: Setup,
    pub players: Vec<P>,
    ghost one_each: { vec_len players ≡ length setup.players },
}

/// Makes the setup and the players of the match that is planned at this index. The only error is out of memory.
pub fn prepared_match<S: Reach>(
    alloc: Global,
    reach: &S,
    game: PlayableGame<'_>,
    place: usize,
    plan: &MatchPlan<'_>,
) -> Result<PreparedMatch<S::Player>, AllocError>
where
    S::Player: Drop,
    ensures setup { IfOk result (λ e. IsSetupOf plan.now e.setup) }
    ensures place { IfOk result (λ e. e.place ≡ place) }
    ensures reached { IfOk result (λ e. AreReached (S.is_reached reach.now) game.entry.longest_move place plan.now e.players.items) }
{
    let setup = setup_of(alloc, plan)?;
    let players = players_of(alloc, reach, game.longest_move, place, plan)?;
    Ok(PreparedMatch {
        place,
        setup,
        players,
    })
}

fn ended_match_of<G: Game>(refereed: &Refereed<G>) -> Option<(&G, &Match<G>)>
    ensures ended { MatchOption result (HasNoEndedMatch G.rules refereed.now.closed.object) (λ r. HasEndedMatch G.rules refereed.now.closed.object r.1.now) }
    ensures game { IfSome result (λ r. r.1.now.game ≡ r.0.now) }
    ensures setup { IfSome result (λ r. IsLawfulSetup r.1.now.value.setup) }
{
    let (game, held) = refereed.game_and_match();
    match held.status().phase {
        Phase::Finished | Phase::Aborted => Some((game, held)),
        Phase::Starting | Phase::Playing | Phase::Stopping | Phase::Aborting => None,
    }
}

fn ended_record<G: Game>(alloc: Global, refereed: &Refereed<G>) -> Result<Text, MatchFault>
    ensures ended { IfOk result (IsEndedRecord G.rules refereed.now.closed.object) }
    ensures not_ended { IfErr result (λ fault. fault ≢ MatchFault.Memory → (fault ≡ MatchFault.NotEnded) × HasNoEndedMatch G.rules refereed.now.closed.object) }
{
    let Some((game, held)) = ended_match_of(refereed) else {
        return Err(MatchFault::NotEnded);
    };
    let record = record_json(alloc, game, held)?;
    Ok(record)
}

/// The output of a match that was played to its end: its record as a line, followed by its call log if the caller asks
/// for it.
#[derive(Drop)]
pub struct EndedMatch {
    pub text: Text,
    ghost is_ended: { ∥ IsEndedMatch text ∥₁ },
}

fn had_memory(ends: &[Result<u64, AttendFault>]) -> bool
    ensures { IsTrue result ↔ All (λ end. end ≢ Err AttendFault.Memory) ends.now }
{
    ends.iter()
        .all(|end| !matches!(end, Err(AttendFault::Memory)))
}

/// Whether the match is not over and a role's worker ran out of memory.
fn ran_out_of_memory<G: Game>(refereed: &Refereed<G>) -> bool
    ensures short { IsTrue result → HasNoEndedMatch G.rules refereed.now.closed.object × (¬ (All (λ end. end ≢ Err AttendFault.Memory) refereed.now.ends.items)) }
    ensures whole { IsFalse result → HasNoEndedMatch G.rules refereed.now.closed.object → All (λ end. end ≢ Err AttendFault.Memory) refereed.now.ends.items }
{
    ended_match_of(refereed).is_none() && !had_memory(&refereed.ends)
}

/// Referees a match, and returns the closed desk. If the referee lacked a resource in the match, the error is
/// `Shortage`. If the match did not end because a role's worker ran out of memory, the error is `Memory`.
fn refereed_match<'g, R, S: Reach + ReportsShortages>(
    rt: &R,
    alloc: Global,
    reach: &S,
    prepared: PreparedMatch<S::Player>,
    game: PlayableGame<'g>,
) -> Result<Refereed<Lent<'g, PackedGame>>, MatchFault>
where
    R: Threads + Wait + Sync,
    S::Player: Player + Drop + Send,
    ensures clear { IfOk result (λ r. S.is_clear reach.now prepared.place) }
    ensures refereed { IfOk result (λ r. (left : List _) × IsRefereed ⟦<PackedGame as Game>⟧.rules S.Player.handed game.entry.game.now prepared.setup game.entry.rules.now max_tries prepared.players.items left
        r.closed.object r.closed.history.items r.closed.made_by_line.items r.ends.items) }

    // If this returns a desk although a role's worker ran out of memory, the match is over.
    ensures whole { IfOk result (λ r. HasNoEndedMatch ⟦<PackedGame as Game>⟧.rules r.closed.object → All (λ end. end ≢ Err AttendFault.Memory) r.ends.items) }

    // If the desk refuses the match, the error either gives the desk's reason or is out of memory. No other error is a refusal.
    ensures opens { OnOk result (packed_refusal game.entry.game.now prepared.setup ≡ None) }
    ensures refused { IfErr result (λ fault. fault ≢ MatchFault.Memory → reason_of fault ≡ packed_refusal game.entry.game.now prepared.setup) }
{
    let PreparedMatch {
        place,
        setup,
        players,
    } = prepared;
    let (refereed, _players) = referee_shared(
        rt,
        alloc,
        Lent::new(game.game),
        setup,
        StartRules::Printed(game.rules),
        players,
        MAX_TRIES,
    )?;
    match reach.shortage(place) {
        None if ran_out_of_memory(&refereed) => Err(MatchFault::Memory),
        None => Ok(refereed),
        Some(shortage) => Err(MatchFault::Shortage(shortage)),
    }
}

/// Computes a result from a match that was played to its end.
pub trait MatchReader {
    /// The result.
    type Told: Drop;

    /// What holds for the result.
    ghost is_told: { Self → GameMatch PackedGame GroundMove → Self.Told → Type 0 };

    /// Computes the result. The error is never a refusal.
    fn read<'g>(
        &self,
        alloc: Global,
        game: &Lent<'g, PackedGame>,
        held: &Match<Lent<'g, PackedGame>>,
    ) -> Result<Self::Told, MatchFault>
        requires { held.now.game ≡ game.now }
        ensures told { IfOk result (is_told self.now held.now) }
        ensures fault { IfErr result (λ fault. reason_of fault ≡ None) };
}

fn told_of<T: MatchReader>(
    alloc: Global,
    refereed: &Refereed<Lent<'_, PackedGame>>,
    reader: &T,
) -> Result<T::Told, MatchFault>
    ensures told { IfOk result (λ told. (held : GameMatch PackedGame GroundMove) × HasEndedMatch ⟦<PackedGame as Game>⟧.rules refereed.now.closed.object held × T.is_told reader.now held told) }
    ensures fault { IfErr result (λ fault. reason_of fault ≡ None) }
{
    let Some((game, held)) = ended_match_of(refereed) else {
        return Err(MatchFault::NotEnded);
    };
    reader.read(alloc, game, held)
}

/// Referees a match, and returns what `reader` computes from it. Returns an error if the desk refuses the match, if the match does not
/// end, or if the referee lacked a resource.
pub fn told_match<R, S: Reach + ReportsShortages, T: MatchReader>(
    rt: &R,
    alloc: Global,
    reach: &S,
    prepared: PreparedMatch<S::Player>,
    game: PlayableGame<'_>,
    reader: &T,
) -> Result<T::Told, MatchFault>
where
    R: Threads + Wait + Sync,
    S::Player: Player + Drop + Send,
    ensures clear { IfOk result (λ told. S.is_clear reach.now prepared.place) }
    ensures told { IfOk result (λ told. IsEndedWith S.Player.handed game.entry.game.now game.entry.rules.now max_tries prepared.setup prepared.players.items (λ held. T.is_told reader.now held told)) }

    // If the desk refuses the match, the error either gives the desk's reason or is out of memory. No other error is a refusal.
    ensures opens { OnOk result (packed_refusal game.entry.game.now prepared.setup ≡ None) }
    ensures refused { IfErr result (λ fault. fault ≢ MatchFault.Memory → reason_of fault ≡ packed_refusal game.entry.game.now prepared.setup) }
{
    let played = refereed_match(rt, alloc, reach, prepared, game)?;
    told_of(alloc, &played, reader)
}

fn match_text(
    alloc: Global,
    line: Text,
    history: &[Entry<Call, Reply>],
    has_account: bool,
) -> Result<Text, AllocError>
    ensures { IfOk result (λ text. text ≡ match_text line history.now has_account) }
{
    let mut bytes = line.bytes;
    bytes.push(b'\n')?;
    if has_account {
        push_history(alloc, &mut bytes, history)?;
    }
    Ok(Text { bytes })
}

/// Referees a match, and returns its output. Returns an error if the desk refuses the match, if the match does not end, or if the
/// referee lacked a resource.
pub fn ended_match<R, S: Reach + ReportsShortages>(
    rt: &R,
    alloc: Global,
    reach: &S,
    prepared: PreparedMatch<S::Player>,
    game: PlayableGame<'_>,
    has_account: bool,
) -> Result<EndedMatch, MatchFault>
where
    R: Threads + Wait + Sync,
    S::Player: Player + Drop + Send,
    ensures clear { IfOk result (λ e. S.is_clear reach.now prepared.place) }
    ensures played { IfOk result (λ e. (line : List ℕ) × (history : List (Entry DeskCall DeskReply)) × IsPlayedMatch S.Player.handed game.entry.game.now game.entry.rules.now max_tries prepared.setup prepared.players.items line history × (e.text ≡ match_text line history has_account)) }

    // If the desk refuses the match, the error either gives the desk's reason or is out of memory. No other error is a refusal.
    ensures opens { OnOk result (packed_refusal game.entry.game.now prepared.setup ≡ None) }
    ensures refused { IfErr result (λ fault. fault ≢ MatchFault.Memory → reason_of fault ≡ packed_refusal game.entry.game.now prepared.setup) }
{
    let refereed = refereed_match(rt, alloc, reach, prepared, game)?;
    let record = ended_record(alloc, &refereed)?;
    let text = match_text(alloc, record, &refereed.closed.history, has_account)?;
    Ok(EndedMatch { text })
}
