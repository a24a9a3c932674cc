//! Writes the texts of messages.
ghost use Rattle.std.specs.Prelude.{◌≡◌, ◌<◌, [], ◌∷◌, ◌++◌, codes, length, option_map, IfOk, OnOk};
ghost use Rattle.std.specs.Fmt.{decimal};
ghost use Rattle.game_core.specs.Bytes.{space, right_parenthesis};
ghost use Rattle.game_core.specs.Canonical.{canonical};
ghost use Rattle.game_core.specs.Expression.{atom, list, more, none};
ghost use Rattle.kif_text.specs.View.{views};
ghost use Rattle.match_messages.specs.MessageValue.{abort, info, message_form, moves_form};
ghost use Rattle.match_messages.specs.BriefValue.{brief_value};
ghost use Rattle.match_messages.specs.MessageText.{as_printed, message_text};
ghost use Rattle.match_messages.specs.StartRules.{start_rules_text};

use crate::brief::Brief;
use crate::shared_brief::SharedBrief;
use crate::start_rules::StartRules;
use desk_calls::Owed;
use game_core::{Text, Texts};
use kif_text::{Expr, print};
use shared_text::SharedText;
use std::alloc::{AllocError, Global};

/// Appends a space and the word.
fn push_word(text: &mut Vec<u8>, word: &[u8]) -> Result<(), AllocError>
    ensures { OnOk result (text.new.items ≡ text.old.items ++ space ∷ word.now) }
{
    text.push(b' ')?;
    text.extend_from_slice(word)
}

fn list_text(alloc: Global, members: &[Text]) -> Result<Text, AllocError>
    ensures { IfOk result (λ t. t ≡ canonical (list (as_printed members.now))) }
{
    let mut bytes = Vec::from_slice(alloc, b"(")?;
    if let Some((first, others)) = members.split_first() {
        bytes.extend_from_slice(first.as_slice())?;
        for member in others {
            push_word(&mut bytes, member.as_slice())?;
        }
    }
    bytes.push(b')')?;
    Ok(Text { bytes })
}

/// The moves as a list, or `NIL`.
fn moves_text(alloc: Global, moves: &Option<Texts>) -> Result<Text, AllocError>
    ensures { IfOk result (λ t. t ≡ canonical (moves_form (option_map as_printed moves.now))) }
{
    match moves {
        Some(moves) => list_text(alloc, moves.as_slice()),
        None => Text::from_slice(alloc, b"NIL"),
    }
}

/// Appends a space and the number.
fn push_number(alloc: Global, text: &mut Vec<u8>, number: u32) -> Result<(), AllocError>
    ensures { OnOk result (text.new.items ≡ text.old.items ++ space ∷ decimal number) }
{
    let digits = number.to_string(alloc)?;
    push_word(text, digits.as_bytes())
}

/// Appends the sentences as a list.
pub(crate) fn push_sentences(
    alloc: Global,
    text: &mut Vec<u8>,
    sentences: &[Expr],
) -> Result<(), AllocError>
    ensures { OnOk result (text.new.items ≡ text.old.items ++ canonical (list (views sentences.now))) }
{
    text.push(b'(')?;
    if let Some((first, others)) = sentences.split_first() {
        text.extend_from_slice(print(alloc, first)?.as_slice())?;
        for sentence in others {
            push_word(text, print(alloc, sentence)?.as_slice())?;
        }
    }
    text.push(b')')?;
    Ok(())
}

fn start_front(alloc: Global, id: &Text, role: &Text) -> Result<Vec<u8>, AllocError>
    ensures { IfOk result (λ front. front.items ≡ ((codes "(START" ++ space ∷ id.now) ++ space ∷ role.now) ++ space ∷ []) }
{
    let mut front = Vec::from_slice(alloc, b"(START")?;
    push_word(&mut front, id.as_slice())?;
    push_word(&mut front, role.as_slice())?;
    front.push(b' ')?;
    Ok(front)
}

/// The text of START after its rules.
fn start_end(alloc: Global, start: u32, play: u32) -> Result<Vec<u8>, AllocError>
    ensures { IfOk result (λ end. end.items ≡ ((space ∷ decimal start) ++ space ∷ decimal play) ++ right_parenthesis ∷ []) }
{
    let mut end = Vec::new(alloc);
    push_number(alloc, &mut end, start)?;
    push_number(alloc, &mut end, play)?;
    end.push(b')')?;
    Ok(end)
}

/// Puts the rules of START between these two texts. Shares rules that are already printed.
fn around_rules<'r>(
    alloc: Global,
    front: Vec<u8>,
    rules: StartRules<'r>,
    end: &[u8],
) -> Result<SharedText<'r>, AllocError>
    ensures { IfOk result (λ text. text ≡ front.items ++ (start_rules_text rules.entry ++ end.now)) }
{
    match rules {
        StartRules::Sentences(sentences) => {
            let mut text = front;
            push_sentences(alloc, &mut text, sentences)?;
            text.extend_from_slice(end)?;
            Ok(SharedText::of(text))
        }
        StartRules::Printed(printed) => SharedText::around(front, printed.text(), end),
    }
}

fn start_text<'r>(
    alloc: Global,
    brief: &SharedBrief<'r>,
    role: usize,
) -> Result<SharedText<'r>, AllocError>
    requires { role < length brief.now.roles }
    ensures { IfOk result (λ t. t ≡ message_text brief.now role Owed.Start) }
{
    let front = start_front(alloc, brief.id, brief.roles.at(role))?;
    let end = start_end(alloc, brief.start, brief.play)?;
    around_rules(alloc, front, brief.rules, end.as_slice())
}

/// The text of PLAY or STOP, with the moves of the last turn.
fn turn_text<'r>(
    alloc: Global,
    keyword: &[u8],
    id: &Text,
    moves: &Option<Texts>,
) -> Result<SharedText<'r>, AllocError>
    ensures { IfOk result (λ t. t ≡ canonical (list (more (atom keyword.now) (more (atom id.now) (more (moves_form (option_map as_printed moves.now)) none))))) }
{
    let keyword = Text::from_slice(alloc, keyword)?;
    let text = list_text(
        alloc,
        &[keyword, id.copy(alloc)?, moves_text(alloc, moves)?],
    )?;
    Ok(SharedText::of(text.bytes))
}

fn abort_text<'r>(alloc: Global, id: &Text) -> Result<SharedText<'r>, AllocError>
    ensures { IfOk result (λ t. t ≡ canonical (message_form (abort id.now))) }
{
    let keyword = Text::from_slice(alloc, b"ABORT")?;
    let text = list_text(alloc, &[keyword, id.copy(alloc)?])?;
    Ok(SharedText::of(text.bytes))
}

/// The text of the message that the match owes to a role, from borrowed data.
pub fn shared_message<'r>(
    alloc: Global,
    brief: &SharedBrief<'r>,
    role: usize,
    owed: &Owed,
) -> Result<SharedText<'r>, AllocError>
    requires { role < length brief.now.roles }
    ensures { IfOk result (λ t. t ≡ message_text brief.now role owed.now) }
{
    match owed {
        Owed::Start => start_text(alloc, brief, role),
        Owed::Play(moves) => turn_text(alloc, b"PLAY", brief.id, moves),
        Owed::Stop(moves) => turn_text(alloc, b"STOP", brief.id, moves),
        Owed::Abort => abort_text(alloc, brief.id),
    }
}

/// The text of the message that the match owes to a role.
pub fn message(alloc: Global, brief: &Brief, role: usize, owed: &Owed) -> Result<Text, AllocError>
    requires { role < length brief.now.roles }
    ensures { IfOk result (λ t. t ≡ message_text (brief_value brief.now) role owed.now) }
{
    let bytes = shared_message(alloc, &brief.shared(), role, owed)?.into_vec(alloc)?;
    Ok(Text { bytes })
}

/// The text of the message that asks a player for its status.
pub fn info_message() -> [u8; 6]
    ensures { result ≡ canonical (message_form info) }
{
    *b"(INFO)"
}
