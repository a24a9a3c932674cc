//! Reads a record from its text.
ghost use Rattle.std.specs.Prelude.{◌≡◌, ◌≢◌, ◌≤◌, ◌<◌, ◌==◌, ◌||◌, ◌↔◌, ◌⊎◌, All, IfErr, IfOk, IsTrue, Ok, OnOk, Some, None, if◌then◌else◌, length, true};
ghost use Rattle.serde_json.specs.Data.{Data, string};
ghost use Rattle.serde_json.specs.View.{view};
ghost use Rattle.game_core.specs.Play.{max_goal};
ghost use Rattle.desk_calls.specs.Names.{is_clock, is_name, is_strikes};
ghost use Rattle.record_reading.specs.Internal.JsonValues.{data_in, data_of};
ghost use Rattle.record_reading.specs.Internal.KeyReading.{IsReadInto, SayTheSame, keys_before};
ghost use Rattle.record_reading.specs.Internal.Shown.{AnyShape, Shows};
ghost use Rattle.record_reading.specs.LawfulRecord.{AreLawfulParts, HasNoShape, IsFirstWithout, IsJson, IsLawfulRecord, IsShaped};
ghost use Rattle.record_reading.specs.RecordParts.{AreErrors, AreGoals, AreMoves, ArePlayers, each_role};
ghost use Rattle.record_reading.specs.RecordTree.{HasShape, Holds, IsShapedAt, goal_values_tree, keys, marks_tree, since_second, text_lists_tree, texts_tree, unless_there, version_said, version_tree, whole_tree};
ghost use Rattle.record_reading.specs.declared.record_parts.Key.{Key};
ghost use Rattle.record_reading.specs.declared.record_parts.Version.TheVariants.{First};
ghost use Rattle.record_reading.specs.declared.verify_fault.VerifyFault.TheVariants.{BadShape, Memory};

use crate::error_texts::are_errors;
use crate::json_values::{FromJson, bytes_in, into_object, members_in, whole_in};
use crate::kept_tree::tree_of;
use crate::laws::{holds_one_parts_at_most, lawful_parts_have_shape, refused_is_unlawful};
use crate::record_parts::{Goals, Key, Marks, RecordParts, TextLists, Version};
use crate::record_words::{cause_in, mark_in, phase_in};
use crate::verify_fault::VerifyFault;
use desk_calls::{MAX_CLOCK, MAX_STRIKES, are_names, is_clock, is_name};
use game_core::{Game, MAX_GOAL, Text, Texts};
use match_book::MAX_TURNS;
use serde_json::Value;
use std::alloc::{AllocError, Global};

/// Reads a mark or null for each role.
fn marks_in(alloc: Global, found: Option<&Value>, roles: usize) -> Result<Option<Marks>, AllocError>
    ensures { IfOk result (λ o. Shows marks_tree (λ marks. length marks ≡ roles) (data_in found.entry) o) }
{
    let Some(members) = members_in(found) else {
        return Ok(None);
    };
    if members.len() != roles {
        return Ok(None);
    }
    let mut items = Vec::with_capacity(alloc, roles)?;
    for member in members {
        match mark_in(Some(member)) {
            Some(mark) => items.push(mark)?,
            None => return Ok(None),
        }
    }
    Ok(Some(Marks { items }))
}

fn goal_in(found: Option<&Value>) -> Option<u8>
    ensures { Shows whole_tree (λ goal. goal ≤ max_goal) (data_in found.entry) result }
{
    let goal = whole_in(found)?;
    if goal <= u64::from(MAX_GOAL) {
        Some(goal as u8)
    } else {
        None
    }
}

/// Whether a record may have this many goals: 0, or one for each role.
fn is_goal_count(goals: usize, roles: usize) -> bool
    ensures { result ≡ (goals == 0 || goals == roles) }
{
    goals == 0 || goals == roles
}

/// Reads the goals: none, or one for each role.
fn goals_in(alloc: Global, found: Option<&Value>, roles: usize) -> Result<Option<Goals>, AllocError>
    ensures { IfOk result (λ o. Shows goal_values_tree (AreGoals roles) (data_in found.entry) o) }
{
    let Some(members) = members_in(found) else {
        return Ok(None);
    };
    if !is_goal_count(members.len(), roles) {
        return Ok(None);
    }
    let mut items = Vec::with_capacity(alloc, members.len())?;
    for member in members {
        match goal_in(Some(member)) {
            Some(goal) => items.push(goal)?,
            None => return Ok(None),
        }
    }
    Ok(Some(Goals { items }))
}

fn id_in(alloc: Global, found: Option<&Value>) -> Result<Option<Text>, AllocError>
    ensures { IfOk result (λ o. Shows string (λ id. is_name id ≡ true) (data_in found.entry) o) }
{
    match bytes_in(found) {
        Some(bytes) if is_name(bytes) => Ok(Some(Text::from_slice(alloc, bytes)?)),
        _ => Ok(None),
    }
}

fn clock_in(found: Option<&Value>) -> Option<u32>
    ensures { Shows whole_tree (λ seconds. is_clock seconds ≡ true) (data_in found.entry) result }
{
    let seconds = whole_in(found)?;
    if seconds > u64::from(MAX_CLOCK) {
        return None;
    }
    let seconds = seconds as u32;
    if is_clock(seconds) {
        Some(seconds)
    } else {
        None
    }
}

/// Reads the version of a record. A record without the key has the first version.
fn version_in(found: Option<&Value>) -> Option<Version>
    ensures said { result ≡ version_said (data_in found.entry) }
    ensures shown { Shows version_tree AnyShape (unless_there (version_tree First) result (data_in found.entry)) result }
{
    if found.is_none() {
        return Some(Version::First);
    }
    match whole_in(found)? {
        1 => Some(Version::First),
        2 => Some(Version::Second),
        _ => None,
    }
}

/// Reads a lawful number of strikes. Only a record of the second version has this value; in any other record it counts as 0.
fn strikes_in(version: Option<Version>, found: Option<&Value>) -> Option<u8>
    ensures { Shows whole_tree (λ strikes. is_strikes strikes ≡ true) (since_second (whole_tree 0) version (data_in found.entry)) result }
{
    if version != Some(Version::Second) {
        return Some(0);
    }
    let strikes = whole_in(found)?;
    if strikes <= u64::from(MAX_STRIKES) {
        Some(strikes as u8)
    } else {
        None
    }
}

/// Reads one error for each role in each turn.
fn errors_in(
    alloc: Global,
    found: Option<Value>,
    roles: usize,
) -> Result<Option<TextLists>, AllocError>
    ensures { IfOk result (λ o. Shows text_lists_tree (AreErrors roles) (data_of found) o) }
{
    let Some(errors) = TextLists::value_in(alloc, found)? else {
        return Ok(None);
    };
    if are_errors(alloc, errors.items.as_slice(), roles)? {
        Ok(Some(errors))
    } else {
        Ok(None)
    }
}

fn are_wide(turns: &[Texts], roles: usize) -> bool
    ensures { IsTrue result ↔ All (λ texts. length texts ≡ roles) turns.now }
{
    for turn in turns {
        let texts = turn.as_slice();
        if texts.len() != roles {
            return false;
        }
    }
    true
}

fn are_moves(turns: &[Texts], roles: usize) -> bool
    ensures { IsTrue result ↔ AreMoves roles turns.now }
{
    turns.len() <= MAX_TURNS && are_wide(turns, roles)
}

/// Reads one text for each role in each turn, for at most as many turns as a match may have.
fn moves_in(
    alloc: Global,
    found: Option<Value>,
    roles: usize,
) -> Result<Option<TextLists>, AllocError>
    ensures { IfOk result (λ o. Shows text_lists_tree (AreMoves roles) (data_of found) o) }
{
    let Some(moves) = TextLists::value_in(alloc, found)? else {
        return Ok(None);
    };
    if are_moves(moves.items.as_slice(), roles) {
        Ok(Some(moves))
    } else {
        Ok(None)
    }
}

fn are_players(names: &[Text], roles: usize) -> bool
    ensures { IsTrue result ↔ ArePlayers roles names.now }
{
    names.len() == roles && are_names(names)
}

/// Reads a lawful name for each role.
fn players_in(
    alloc: Global,
    found: Option<Value>,
    roles: usize,
) -> Result<Option<Texts>, AllocError>
    ensures { IfOk result (λ o. Shows texts_tree (ArePlayers roles) (data_of found) o) }
{
    let Some(players) = Texts::value_in(alloc, found)? else {
        return Ok(None);
    };
    if are_players(players.as_slice(), roles) {
        Ok(Some(players))
    } else {
        Ok(None)
    }
}

fn are_role_names<G: Game>(game: &G, texts: &[Text]) -> bool
    ensures { IsTrue result ↔ (texts.now ≡ each_role (G.rules game.now).roles (G.rules game.now).role_name) }
{
    if texts.len() != game.roles() {
        return false;
    }
    for (role, text) in texts.iter().enumerate() {
        if text.as_slice() != game.role_name(role) {
            return false;
        }
    }
    true
}

fn roles_in<G: Game>(
    alloc: Global,
    game: &G,
    found: Option<Value>,
) -> Result<Option<Texts>, AllocError>
    ensures { IfOk result (λ o. Shows texts_tree (λ names. names ≡ each_role (G.rules game.now).roles (G.rules game.now).role_name) (data_of found) o) }
{
    let Some(names) = Texts::value_in(alloc, found)? else {
        return Ok(None);
    };
    if are_role_names(game, names.as_slice()) {
        Ok(Some(names))
    } else {
        Ok(None)
    }
}

/// Stores the value, if it was read. Returns whether it was read.
fn keep<T: Drop>(part: &mut T, read: Option<T>) -> bool
    ensures { read ≡ (if result then Some part.new else None) }
{
    match read {
        Some(value) => {
            *part = value;
            true
        }
        None => false,
    }
}

/// Stores the value, if it was read. Returns whether the value was read, or an error if memory ran out.
fn keep_read<T: Drop>(part: &mut T, read: Result<Option<T>, AllocError>) -> Result<bool, AllocError>
    ensures { IfOk result (λ kept. read ≡ Ok (if kept then Some part.new else None)) }
{
    Ok(keep(part, read?))
}

/// Reads the value at a key of a record of this version into `parts`, if it has the key's shape. Returns whether it has
/// this shape.
fn read_into<G: Game>(
    alloc: Global,
    game: &G,
    key: Key,
    version: Option<Version>,
    found: Option<Value>,
    parts: &mut RecordParts,
) -> Result<bool, AllocError>
    ensures read { IfOk result (IsReadInto (G.rules game.now) key version (data_of found) parts.new) }
    ensures kept { OnOk result (SayTheSame (keys_before key keys) parts.old parts.new) }
{
    let roles = game.roles();
    match key {
        Key::Cause => Ok(keep(&mut parts.cause, cause_in(found.as_ref(), roles))),
        Key::EndMarks => keep_read(&mut parts.end_marks, marks_in(alloc, found.as_ref(), roles)),
        Key::Errors => keep_read(&mut parts.errors, errors_in(alloc, found, roles)),
        Key::GoalValues => keep_read(&mut parts.goals, goals_in(alloc, found.as_ref(), roles)),
        Key::MatchId => keep_read(&mut parts.id, id_in(alloc, found.as_ref())),
        Key::Moves => keep_read(&mut parts.moves, moves_in(alloc, found, roles)),
        Key::Phase => Ok(keep(&mut parts.phase, phase_in(found.as_ref()))),
        Key::PlayClock => Ok(keep(&mut parts.play, clock_in(found.as_ref()))),
        Key::Players => keep_read(&mut parts.players, players_in(alloc, found, roles)),
        Key::Roles => keep_read(&mut parts.roles, roles_in(alloc, game, found)),
        Key::StartClock => Ok(keep(&mut parts.start, clock_in(found.as_ref()))),
        Key::StartMarks => {
            keep_read(
                &mut parts.start_marks,
                marks_in(alloc, found.as_ref(), roles),
            )
        }
        Key::States => keep_read(&mut parts.states, TextLists::value_in(alloc, found)),
        Key::Strikes => Ok(keep(&mut parts.strikes, strikes_in(version, found.as_ref()))),
        Key::Version => Ok(keep(&mut parts.version, version_in(found.as_ref()))),
    }
}

/// Reads the values at all keys, if each value has the shape of its key.
fn parts_in<G: Game>(alloc: Global, game: &G, tree: Value) -> Result<RecordParts, VerifyFault>
    ensures ok { IfOk result (λ p. Holds (view tree) p × ((key : Key) → IsShapedAt (G.rules game.now) key p)) }
    ensures err { IfErr result (λ fault. (fault ≡ Memory) ⊎ ((key : Key) × (fault ≡ BadShape key) × IsFirstWithout (IsShaped (G.rules game.now) (view tree)) keys key)) }
{
    let version = version_in(tree.get(Key::Version.text()));
    let mut members = into_object(alloc, tree);
    let mut parts = RecordParts::new(alloc);
    for key in Key::ALL {
        let found = members.remove(key.text());
        if !read_into(alloc, game, key, version, found, &mut parts)? {
            return Err(VerifyFault::BadShape(key));
        }
    }
    Ok(parts)
}

/// Reads a text that has the shape of a record of the game. The text is a lawful record if and only if the record of some
/// lawful match has the same values.
pub fn read_record<G: Game>(
    alloc: Global,
    game: &G,
    text: &[u8],
) -> Result<RecordParts, VerifyFault>
    ensures ok { IfOk result (λ p. (tree : Data) × IsJson text.now tree × Holds tree p × HasShape (G.rules game.now) p) }
    ensures err { IfErr result (HasNoShape (G.rules game.now) text.now) }
    ensures lawful { IfOk result (λ p. IsLawfulRecord (G.rules game.now) text.now ↔ AreLawfulParts (G.rules game.now) p) }
    ensures refused { IfErr result (λ fault. fault ≢ Memory → ¬ IsLawfulRecord (G.rules game.now) text.now) }
{
    lawful_parts_have_shape(game);
    holds_one_parts_at_most(game);
    refused_is_unlawful(game);
    let tree = tree_of(alloc, text)?;
    let parts = parts_in(alloc, game, tree)?;
    let turns = parts.moves.count();
    if parts.errors.count() != turns {
        return Err(VerifyFault::BadShape(Key::Errors));
    }
    if parts.states.count() != turns + 1 {
        return Err(VerifyFault::BadShape(Key::States));
    }
    Ok(parts)
}
