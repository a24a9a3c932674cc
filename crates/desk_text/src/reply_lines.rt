//! Writes replies as lines.
ghost use Rattle.std.specs.Prelude.{◌≡◌, ◌++◌, OnOk};
ghost use Rattle.std.specs.Fmt.{decimal};
ghost use Rattle.desk_text.specs.Words.{spaced};
ghost use Rattle.desk_text.specs.ScriptLines.{joint_text, owed_text, due_text, status_text, refusal_word, refusal_text, reply_text};

use desk_calls::{Due, Owed, Refusal, Reply, Status, phase_text};
use game_core::{Text, Texts};
use itoa::Buffer;
use std::alloc::AllocError;

pub(crate) fn push_number(out: &mut Vec<u8>, number: u64) -> Result<(), AllocError>
    ensures { OnOk result (out.new.items ≡ out.old.items ++ decimal number) }
{
    let mut digits = Buffer::new();
    out.extend_from_slice(digits.format(number).as_bytes())
}

fn push_spaced(out: &mut Vec<u8>, texts: &[Text]) -> Result<(), AllocError>
    ensures { OnOk result (out.new.items ≡ out.old.items ++ spaced texts.now) }
{
    if let Some((first, others)) = texts.split_first() {
        out.extend_from_slice(first.as_slice())?;
        for text in others {
            out.push(b' ')?;
            out.extend_from_slice(text.as_slice())?;
        }
    }
    Ok(())
}

fn push_joint(out: &mut Vec<u8>, moves: &Option<Texts>) -> Result<(), AllocError>
    ensures { OnOk result (out.new.items ≡ out.old.items ++ joint_text moves.now) }
{
    match moves {
        None => out.extend_from_slice(b"NIL"),
        Some(moves) => {
            out.push(b'(')?;
            push_spaced(out, moves.as_slice())?;
            out.push(b')')?;
            Ok(())
        }
    }
}

fn push_owed(out: &mut Vec<u8>, owed: &Owed) -> Result<(), AllocError>
    ensures { OnOk result (out.new.items ≡ out.old.items ++ owed_text owed.now) }
{
    match owed {
        Owed::Start => out.extend_from_slice(b"start"),
        Owed::Play(moves) => {
            out.extend_from_slice(b"play ")?;
            push_joint(out, moves)
        }
        Owed::Stop(moves) => {
            out.extend_from_slice(b"stop ")?;
            push_joint(out, moves)
        }
        Owed::Abort => out.extend_from_slice(b"abort"),
    }
}

fn push_due(out: &mut Vec<u8>, due: &Due) -> Result<(), AllocError>
    ensures { OnOk result (out.new.items ≡ out.old.items ++ due_text due.now) }
{
    match due {
        Due::Owe { round, owed } => {
            out.extend_from_slice(b"owe ")?;
            push_number(out, *round)?;
            out.push(b' ')?;
            push_owed(out, owed)
        }
        Due::Hold { round } => {
            out.extend_from_slice(b"hold ")?;
            push_number(out, *round)
        }
        Due::Over => out.extend_from_slice(b"over"),
    }
}

fn push_status(out: &mut Vec<u8>, status: &Status) -> Result<(), AllocError>
    ensures { OnOk result (out.new.items ≡ out.old.items ++ status_text status.now) }
{
    out.extend_from_slice(b"status ")?;
    out.extend_from_slice(phase_text(status.phase))?;
    out.extend_from_slice(b" round ")?;
    push_number(out, status.round)?;
    out.extend_from_slice(b" turns ")?;
    push_number(out, status.turns)?;
    out.extend_from_slice(b" substitutions ")?;
    push_number(out, status.substitutions)
}

/// The word for a refusal in replies and error messages.
pub fn refusal_word(refusal: Refusal) -> &'static str
    ensures { result.now ≡ refusal_word refusal }
{
    match refusal {
        Refusal::BadId => "badid",
        Refusal::IdUsed => "idused",
        Refusal::NoGame => "nogame",
        Refusal::WrongPlayers => "wrongplayers",
        Refusal::BadName => "badname",
        Refusal::BadClock => "badclock",
        Refusal::BadStrikes => "badstrikes",
        Refusal::DeskFull => "deskfull",
        Refusal::NoMatch => "nomatch",
        Refusal::NoRole => "norole",
        Refusal::Over => "over",
        Refusal::Stale(_) => "stale",
        Refusal::Twice => "twice",
        Refusal::Ended => "ended",
    }
}

fn push_refusal(out: &mut Vec<u8>, refusal: Refusal) -> Result<(), AllocError>
    ensures { OnOk result (out.new.items ≡ out.old.items ++ refusal_text refusal) }
{
    out.extend_from_slice(refusal_word(refusal).as_bytes())?;
    if let Refusal::Stale(round) = refusal {
        out.push(b' ')?;
        push_number(out, round)?;
    }
    Ok(())
}

/// Appends the reply's line to `out`, without a line feed.
pub fn push_reply(out: &mut Vec<u8>, reply: &Reply) -> Result<(), AllocError>
    ensures { OnOk result (out.new.items ≡ out.old.items ++ reply_text reply.now) }
{
    match reply {
        Reply::Opened => out.extend_from_slice(b"opened"),
        Reply::Due(due) => push_due(out, due),
        Reply::Taken => out.extend_from_slice(b"taken"),
        Reply::Status(status) => push_status(out, status),
        Reply::Aborting => out.extend_from_slice(b"aborting"),
        Reply::Refused(refusal) => {
            out.extend_from_slice(b"refused ")?;
            push_refusal(out, *refusal)
        }
    }
}
