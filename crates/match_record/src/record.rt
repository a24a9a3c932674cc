//! The record of a match.
ghost use Rattle.std.specs.Prelude.{◌≡◌, ◌<◌, ◌++◌, IfOk, IfSome, OnOk, Some, length, option_map, option_to_list, map, slice_get};
ghost use mathlib.Core.List.{IsPrefix};
ghost use Rattle.serde_json.specs.Read.{read};
ghost use Rattle.match_book.specs.Lawful.{IsLawfulMatch};
ghost use Rattle.desk_calls.specs.Names.{IsLawfulSetup};
ghost use Rattle.match_record.specs.Internal.Written.{HasAdded, IsWritten, each_tokens};
ghost use Rattle.record_reading.specs.LawfulRecord.{IsLawfulRecord};
ghost use Rattle.record_reading.specs.RecordParts.{each_role, parts_of};
ghost use Rattle.record_reading.specs.RecordTree.{goal_values_tree, key_tree, marks_tree, record_text, record_tree, text_lists_tree, texts_tree, whole_tree};

use crate::writing::{
    write_cause, write_lent_texts, write_text, write_text_or_null, write_texts, write_whole,
};
use game_core::{Game, Text};
use json::Writer;
use match_book::Match;
use match_book::laws::matches_are_lawful;
use record_reading::laws::{lawful_parts_have_shape, records_are_lawful};
use record_reading::{Key, Version, phase_text};
use std::alloc::{AllocError, Global};
use std::mem;

/// Writes the marks of the answers to START.
fn write_start_marks<G: Game>(out: &mut Writer, game: &G, held: &Match<G>) -> Result<(), AllocError>
    requires game { held.now.game ≡ game.now }
    requires lawful { IsLawfulMatch (G.rules game.now) held.now.value }
    ensures before { out.new.before ≡ out.old.before }
    ensures written { OnOk result (IsWritten out.old out.new (marks_tree held.now.value.start_marks)) }
{
    out.begin_array()?;
    for role in 0..game.roles() {
        write_text_or_null(out, held.start_mark(role))?;
    }
    out.end_array()?;
    Ok(())
}

/// Writes the marks of the answers to STOP or ABORT.
fn write_end_marks<G: Game>(out: &mut Writer, game: &G, held: &Match<G>) -> Result<(), AllocError>
    requires game { held.now.game ≡ game.now }
    requires lawful { IsLawfulMatch (G.rules game.now) held.now.value }
    ensures before { out.new.before ≡ out.old.before }
    ensures written { OnOk result (IsWritten out.old out.new (marks_tree held.now.value.end_marks)) }
{
    out.begin_array()?;
    for role in 0..game.roles() {
        write_text_or_null(out, held.end_mark(role))?;
    }
    out.end_array()?;
    Ok(())
}

fn write_role_names<G: Game>(out: &mut Writer, game: &G) -> Result<(), AllocError>
    ensures before { out.new.before ≡ out.old.before }
    ensures written { OnOk result (IsWritten out.old out.new (texts_tree (each_role (G.rules game.now).roles (G.rules game.now).role_name))) }
{
    out.begin_array()?;
    for role in 0..game.roles() {
        write_text(out, game.role_name(role))?;
    }
    out.end_array()?;
    Ok(())
}

fn write_goal(out: &mut Writer, goal: Option<u8>) -> Result<(), AllocError>
    ensures before { out.new.before ≡ out.old.before }
    ensures written { OnOk result (HasAdded out.old out.new (each_tokens (map whole_tree (option_to_list goal)))) }
{
    if let Some(goal) = goal {
        write_whole(out, u64::from(goal))?;
    }
    Ok(())
}

/// Writes the roles' goals: none before the match stops.
fn write_goals<G: Game>(out: &mut Writer, game: &G, held: &Match<G>) -> Result<(), AllocError>
    requires game { held.now.game ≡ game.now }
    requires lawful { IsLawfulMatch (G.rules game.now) held.now.value }
    ensures before { out.new.before ≡ out.old.before }
    ensures written { OnOk result (IsWritten out.old out.new (goal_values_tree (parts_of (G.rules game.now) held.now.value).goals)) }
{
    out.begin_array()?;
    for role in 0..game.roles() {
        write_goal(out, held.goal_of(role))?;
    }
    out.end_array()?;
    Ok(())
}

fn write_moves_at<G: Game>(
    out: &mut Writer,
    game: &G,
    held: &Match<G>,
    turn: usize,
) -> Result<(), AllocError>
    requires game { held.now.game ≡ game.now }
    requires lawful { IsLawfulMatch (G.rules game.now) held.now.value }
    requires turn { turn < length held.now.value.turns }
    ensures before { out.new.before ≡ out.old.before }
    ensures written { OnOk result (IfSome (option_map (λ t. texts_tree (map (G.rules game.now).move_text t.moves)) (slice_get held.now.value.turns turn)) (IsWritten out.old out.new)) }
{
    out.begin_array()?;
    for role in 0..game.roles() {
        write_text(out, game.move_text(held.move_at(turn, role)))?;
    }
    out.end_array()?;
    Ok(())
}

fn write_errors_at<G: Game>(
    out: &mut Writer,
    game: &G,
    held: &Match<G>,
    turn: usize,
) -> Result<(), AllocError>
    requires game { held.now.game ≡ game.now }
    requires lawful { IsLawfulMatch (G.rules game.now) held.now.value }
    requires turn { turn < length held.now.value.turns }
    ensures before { out.new.before ≡ out.old.before }
    ensures written { OnOk result (IfSome (option_map (λ t. texts_tree (t.errors)) (slice_get held.now.value.turns turn)) (IsWritten out.old out.new)) }
{
    out.begin_array()?;
    for role in 0..game.roles() {
        write_text(out, held.error_at(turn, role))?;
    }
    out.end_array()?;
    Ok(())
}

fn turns<G: Game>(held: &Match<G>) -> usize
    ensures { result ≡ length held.now.value.turns }
{
    held.status().turns as usize
}

fn write_moves<G: Game>(out: &mut Writer, game: &G, held: &Match<G>) -> Result<(), AllocError>
    requires game { held.now.game ≡ game.now }
    requires lawful { IsLawfulMatch (G.rules game.now) held.now.value }
    ensures before { out.new.before ≡ out.old.before }
    ensures written { OnOk result (IsWritten out.old out.new (text_lists_tree (parts_of (G.rules game.now) held.now.value).moves)) }
{
    out.begin_array()?;
    for turn in 0..turns(held) {
        write_moves_at(out, game, held, turn)?;
    }
    out.end_array()?;
    Ok(())
}

fn write_errors<G: Game>(out: &mut Writer, game: &G, held: &Match<G>) -> Result<(), AllocError>
    requires game { held.now.game ≡ game.now }
    requires lawful { IsLawfulMatch (G.rules game.now) held.now.value }
    ensures before { out.new.before ≡ out.old.before }
    ensures written { OnOk result (IsWritten out.old out.new (text_lists_tree (parts_of (G.rules game.now) held.now.value).errors)) }
{
    out.begin_array()?;
    for turn in 0..turns(held) {
        write_errors_at(out, game, held, turn)?;
    }
    out.end_array()?;
    Ok(())
}

fn write_state<G: Game>(
    alloc: Global,
    out: &mut Writer,
    game: &G,
    state: &G::State,
) -> Result<(), AllocError>
    requires { (G.rules game.now).IsState state.now }
    ensures before { out.new.before ≡ out.old.before }
    ensures written { OnOk result (IsWritten out.old out.new (texts_tree ((G.rules game.now).state_text state.now))) }
{
    let texts = game.state_text(alloc, state)?;
    write_lent_texts(out, texts.as_slice())
}

/// Writes the state before the first turn and the state after each turn.
fn write_states<G: Game>(
    alloc: Global,
    out: &mut Writer,
    game: &G,
    held: &Match<G>,
) -> Result<(), AllocError>
    requires game { held.now.game ≡ game.now }
    ensures before { out.new.before ≡ out.old.before }
    ensures written { OnOk result (IsWritten out.old out.new (text_lists_tree (parts_of (G.rules game.now) held.now.value).states)) }
{
    out.begin_array()?;
    write_state(alloc, out, game, held.state_after(0))?;
    for turn in 0..turns(held) {
        write_state(alloc, out, game, held.state_after(turn + 1))?;
    }
    out.end_array()?;
    Ok(())
}

fn write_value_at<G: Game>(
    alloc: Global,
    out: &mut Writer,
    game: &G,
    held: &Match<G>,
    key: Key,
) -> Result<(), AllocError>
    requires game { held.now.game ≡ game.now }
    requires lawful { IsLawfulMatch (G.rules game.now) held.now.value }
    requires setup { IsLawfulSetup held.now.value.setup }
    ensures before { out.new.before ≡ out.old.before }
    ensures written { OnOk result (IsWritten out.old out.new (key_tree key (parts_of (G.rules game.now) held.now.value))) }
{
    let setup = held.setup();
    match key {
        Key::Cause => write_cause(alloc, out, held.cause()),
        Key::EndMarks => write_end_marks(out, game, held),
        Key::Errors => write_errors(out, game, held),
        Key::GoalValues => write_goals(out, game, held),
        Key::MatchId => write_text(out, setup.id.as_slice()),
        Key::Moves => write_moves(out, game, held),
        Key::Phase => write_text(out, phase_text(held.status().phase)),
        Key::PlayClock => write_whole(out, u64::from(setup.play)),
        Key::Players => write_texts(out, setup.players.as_slice()),
        Key::Roles => write_role_names(out, game),
        Key::StartClock => write_whole(out, u64::from(setup.start)),
        Key::StartMarks => write_start_marks(out, game, held),
        Key::States => write_states(alloc, out, game, held),
        Key::Strikes => write_whole(out, u64::from(setup.strikes)),
        Key::Version => write_whole(out, u64::from(Version::Second.number())),
    }
}

fn write_record<G: Game>(
    alloc: Global,
    out: &mut Writer,
    game: &G,
    held: &Match<G>,
) -> Result<(), AllocError>
    requires game { held.now.game ≡ game.now }
    requires lawful { IsLawfulMatch (G.rules game.now) held.now.value }
    requires setup { IsLawfulSetup held.now.value.setup }
    ensures before { out.new.before ≡ out.old.before }
    ensures written { OnOk result (IsWritten out.old out.new (record_tree (G.rules game.now) held.now.value)) }
{
    out.begin_object()?;
    for key in Key::ALL {
        out.key(key.text())?;
        write_value_at(alloc, out, game, held, key)?;
    }
    out.end_object()?;
    Ok(())
}

/// The record of a match as JSON text, in the second version: one object without white space, with its keys in byte order.
/// It has only the recorded turns, and nothing of the open turn.
pub fn record_json<G: Game>(alloc: Global, game: &G, held: &Match<G>) -> Result<Text, AllocError>
    requires game { held.now.game ≡ game.now }
    requires setup { IsLawfulSetup held.now.value.setup }
    ensures text { IfOk result (λ t. t ≡ record_text (G.rules game.now) held.now.value) }
    // Reading the text as JSON gives the record tree.
    ensures reads_back { IfOk result (λ t. read t ≡ Some (record_tree (G.rules game.now) held.now.value)) }
    // `verify` refuses the text only if memory runs out.
    ensures lawful { IfOk result (λ t. IsLawfulRecord (G.rules game.now) t) }
{
    records_are_lawful(game);
    lawful_parts_have_shape(game);
    matches_are_lawful(held);
    let mut out = Writer::new(Vec::new(alloc));
    write_record(alloc, &mut out, game, held)?;
    Ok(Text {
        bytes: out.into_inner(),
    })
}

/// Appends the text that `record_json` returns to `out`, without an intermediate copy.
pub fn push_record<G: Game>(
    alloc: Global,
    out: &mut Vec<u8>,
    game: &G,
    held: &Match<G>,
) -> Result<(), AllocError>
    requires game { held.now.game ≡ game.now }
    requires setup { IsLawfulSetup held.now.value.setup }
    // Even after an error, `out` begins with its old content.
    ensures kept { IsPrefix out.old.items out.new.items }
    ensures text { OnOk result (out.new.items ≡ out.old.items ++ record_text (G.rules game.now) held.now.value) }
    ensures reads_back { OnOk result (read (record_text (G.rules game.now) held.now.value) ≡ Some (record_tree (G.rules game.now) held.now.value)) }
    ensures lawful { OnOk result (IsLawfulRecord (G.rules game.now) (record_text (G.rules game.now) held.now.value)) }
{
    records_are_lawful(game);
    lawful_parts_have_shape(game);
    matches_are_lawful(held);
    let mut writer = Writer::new(mem::replace(out, Vec::new(alloc)));
    let written = write_record(alloc, &mut writer, game, held);
    *out = writer.into_inner();
    written
}
