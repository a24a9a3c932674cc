//! The bytes of a request to a player and of a player's reply.
ghost use Rattle.std.specs.Prelude.{◌≡◌, ◌++◌, IfOk, OnOk};
ghost use Rattle.http_exchange.specs.HttpText.{line, field, described_body, request_text, reply_text};

use shared_text::SharedText;
use std::alloc::{AllocError, Global};

#[tactic(auto, unfolding(crate::specs::HttpText::line))]
fn push_line(text: &mut Vec<u8>, words: &[u8]) -> Result<(), AllocError>
    ensures { OnOk result (text.new.items ≡ text.old.items ++ line words.now) }
{
    text.extend_from_slice(words)?;
    text.extend_from_slice(b"\r\n")
}

#[tactic(auto, unfolding(crate::specs::HttpText::line, crate::specs::HttpText::field))]
fn push_field(text: &mut Vec<u8>, name: &[u8], value: &[u8]) -> Result<(), AllocError>
    ensures { OnOk result (text.new.items ≡ text.old.items ++ field name.now value.now) }
{
    text.extend_from_slice(name)?;
    text.extend_from_slice(b": ")?;
    push_line(text, value)
}

/// Appends the fields that describe a body, and the empty line.
fn push_description(
    alloc: Global,
    text: &mut Vec<u8>,
    body: &SharedText<'_>,
) -> Result<(), AllocError>
    ensures { OnOk result (text.new.items ++ body.now ≡ text.old.items ++ described_body body.now) }
{
    let length = body.len().to_string(alloc)?;
    push_field(text, b"Content-Type", b"text/acl")?;
    push_field(text, b"Content-Length", length.as_bytes())?;
    push_line(text, b"")
}

/// The head, completed with a description of the body, and the body.
fn with_body<'a>(
    alloc: Global,
    head: Vec<u8>,
    body: &SharedText<'a>,
) -> Result<SharedText<'a>, AllocError>
    ensures { IfOk result (λ text. text ≡ head.items ++ described_body body.now) }
{
    let mut front = head;
    push_description(alloc, &mut front, body)?;
    body.behind(front)
}

/// The request with this body to the player with this name.
pub(crate) fn request_text<'a>(
    alloc: Global,
    player: &[u8],
    body: &SharedText<'a>,
) -> Result<SharedText<'a>, AllocError>
    ensures { IfOk result (λ text. text ≡ request_text player.now body.now) }
{
    let mut head = Vec::new(alloc);
    push_line(&mut head, b"POST / HTTP/1.0")?;
    push_field(&mut head, b"Accept", b"text/delim")?;
    push_field(&mut head, b"Sender", b"GAMESERVER")?;
    push_field(&mut head, b"Receiver", player)?;
    with_body(alloc, head, body)
}

/// The reply with this body.
pub(crate) fn reply_text<'a>(
    alloc: Global,
    body: &SharedText<'a>,
) -> Result<SharedText<'a>, AllocError>
    ensures { IfOk result (λ text. text ≡ reply_text body.now) }
{
    let mut head = Vec::new(alloc);
    push_line(&mut head, b"HTTP/1.0 200 OK")?;
    with_body(alloc, head, body)
}
