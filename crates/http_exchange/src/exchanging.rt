//! Exchanges with a player, from both sides.
ghost use Rattle.std.specs.Prelude.{◌≡◌, ◌⊎◌, IfOk, OnOk, IfErr};
ghost use Rattle.http_exchange.specs.Exchange.{BreaksOff, BringsNone, BringsRefusal, BringsReply, TakesBody, TakesNone, WritesText};
ghost use Rattle.http_exchange.specs.HttpText.{reply_text, request_text};
ghost use Rattle.http_exchange.specs.WireFaults.{IsRefusal};

use crate::head::HttpKind;
use crate::http_text::{reply_text, request_text};
use crate::received::Received;
use crate::receiving::receive;
use crate::sending::send;
use crate::wire_fault::WireFault;
use game_core::{Counted, Text};
use shared_text::SharedText;
use std::alloc::Global;
use std::io::{Read, Write};

/// Sends a player a request with this body, and returns the body of the reply.
///
/// The player's name goes into the head unchanged, so it must not contain a line end. This ignores bytes after the body
/// of the reply, but may read them. It does not flush the stream, and does not copy a long part that the body shares
/// with other bodies. If there is no body, `received` says how far the exchange got.
pub fn exchange_shared<S: Read + Write>(
    alloc: Global,
    stream: &mut Counted<S>,
    player: &[u8],
    body: &SharedText<'_>,
    received: &mut Received,
) -> Result<Text, WireFault>
    ensures carries { IfOk result (BringsReply S.contents S.remaining stream.old stream.new (request_text player.now body.now)) }
    ensures fails { IfErr result (BringsNone S.contents S.remaining stream.old stream.new (request_text player.now body.now)) }
    ensures received { IfErr result (λ fault. IsRefusal fault → BringsRefusal S.contents S.remaining stream.old stream.new (request_text player.now body.now) fault received.new) }
{
    *received = Received::Unsent;
    let text = request_text(alloc, player, body)?;
    send(stream, &text)?;
    receive(alloc, stream, HttpKind::Reply, received)
}

/// Sends a player a request with this body, as `exchange_shared` does, and returns the body of the reply.
pub fn exchange<S: Read + Write>(
    alloc: Global,
    stream: &mut Counted<S>,
    player: &[u8],
    body: &[u8],
) -> Result<Text, WireFault>
    ensures carries { IfOk result (BringsReply S.contents S.remaining stream.old stream.new (request_text player.now body.now)) }
    ensures fails { IfErr result (BringsNone S.contents S.remaining stream.old stream.new (request_text player.now body.now)) }
{
    let mut received = Received::Unsent;
    exchange_shared(
        alloc,
        stream,
        player,
        &SharedText::lent(alloc, body),
        &mut received,
    )
}

/// Reads a request and returns its body. Ignores bytes after the body, but may read them. Writes nothing.
pub fn take_request<S: Read>(alloc: Global, stream: &mut Counted<S>) -> Result<Text, WireFault>
    ensures carries { IfOk result (λ body. TakesBody HttpKind.Request S.remaining stream.old stream.new body) }
    ensures fails { IfErr result (λ fault. TakesNone HttpKind.Request S.remaining stream.old stream.new fault) }
{
    let mut received = Received::Nothing;
    receive(alloc, stream, HttpKind::Request, &mut received)
}

/// Writes a reply with this body. Does not flush the stream.
pub fn give_reply<S: Write>(
    alloc: Global,
    stream: &mut Counted<S>,
    body: &[u8],
) -> Result<(), WireFault>
    ensures written { OnOk result (WritesText S.contents stream.old stream.new (reply_text body.now)) }
    ensures fails { IfErr result (λ fault.
        ((fault ≡ WireFault.Memory) × (stream.new ≡ stream.old))
        ⊎ BreaksOff S.contents stream.old stream.new (reply_text body.now) fault) }
{
    let text = reply_text(alloc, &SharedText::lent(alloc, body))?;
    send(stream, &text)
}
