//! HTTP exchanges over a stream in memory. In the texts, `|` stands for a line end.
use crate::holding::holds;
use game_core::{Counted, Text};
use http_exchange::{WireFault, exchange, give_reply, take_request};
use std::alloc::{AllocError, Global};
use std::io;
use std::io::{ErrorKind, Read, Write};
use std::test::Fail;

const REQUEST: &str =
    "POST / HTTP/1.0|Accept: text/delim|Sender: GAMESERVER|Receiver: ann|Content-Type: text/acl|Content-Length: 13||(PLAY m1 NIL)";

const REPLY: &str = "HTTP/1.0 200 OK|Content-Type: text/acl|Content-Length: 5||READY";

/// A stream with a given input. It stores the bytes that are written to it.
#[derive(Drop)]
struct MemoryStream {
    input: Vec<u8>,
    at: usize,
    output: Vec<u8>,
}

impl Read for MemoryStream {
    fn read(&mut self, buffer: &mut [u8]) -> io::Result<usize> {
        let rest = self.input.get(self.at..).unwrap_or(&[]);
        let count = buffer.len().min(rest.len());
        buffer[..count].copy_from_slice(&rest[..count]);
        self.at = self.at.saturating_add(count);
        Ok(count)
    }
}

impl Write for MemoryStream {
    fn write(&mut self, bytes: &[u8]) -> io::Result<usize> {
        match self.output.extend_from_slice(bytes) {
            Ok(()) => Ok(bytes.len()),
            Err(_) => Err(io::Error::from(ErrorKind::OutOfMemory)),
        }
    }

    fn flush(&mut self) -> io::Result<()> {
        Ok(())
    }
}

/// The bytes of a text, with a line end for each `|`.
fn bytes_of(alloc: Global, text: &str) -> Result<Vec<u8>, AllocError> {
    let mut bytes = Vec::new(alloc);
    for byte in text.as_bytes() {
        match byte {
            b'|' => bytes.extend_from_slice(b"\r\n")?,
            _ => bytes.push(*byte)?,
        }
    }
    Ok(bytes)
}

fn stream_of(alloc: Global, input: Vec<u8>) -> Counted<MemoryStream> {
    Counted::new(MemoryStream {
        input,
        at: 0,
        output: Vec::new(alloc),
    })
}

fn exchanged(alloc: Global, input: Vec<u8>) -> Result<Text, WireFault> {
    let mut stream = stream_of(alloc, input);
    exchange(alloc, &mut stream, b"ann", b"(PLAY m1 NIL)")
}

/// Whether an exchange returns this body, or this error, if the player replies with these bytes.
fn gives(alloc: Global, input: Vec<u8>, wanted: Result<&str, WireFault>) -> bool {
    match (exchanged(alloc, input), wanted) {
        (Ok(body), Ok(text)) => body.as_slice() == text.as_bytes(),
        (Err(fault), Err(named)) => fault == named,
        _ => false,
    }
}

#[test]
fn replies_are_taken_or_refused(rt: HostRuntime) -> Result<(), Fail> {
    use WireFault::{BadHead, BadLength, BadStatus, CutShort, TooLong};
    let table = [
        ("HTTP/1.0 200 OK||READY", Ok("READY")),
        ("HTTP/1.1 200 OK|Content-Length: 3||READY", Ok("REA")),
        ("HTTP/1.1 200 OK|Content-Length: 6||READY", Err(CutShort)),
        (
            "HTTP/1.1 200 OK|Content-Length: 5|Content-Length: 6||READY",
            Err(BadLength),
        ),
        (
            "HTTP/1.1 200 OK|Content-Length: 5|Content-Length: 5||READY",
            Ok("READY"),
        ),
        (
            "HTTP/1.1 200 OK|Transfer-Encoding: chunked||READY",
            Err(BadLength),
        ),
        ("HTTP/1.1 404 Not Found||READY", Err(BadStatus)),
        ("HTTP/1.1 200 OK|Content-Length: 65537||READY", Err(TooLong)),
        ("HELLO||", Err(BadHead)),
    ];
    for (reply, wanted) in table {
        let bytes = bytes_of(rt.alloc(), reply)?;
        holds(&rt, gives(rt.alloc(), bytes, wanted), reply);
    }
    Ok(())
}

#[test]
fn replies_are_cut_anywhere(rt: HostRuntime) -> Result<(), Fail> {
    let whole = bytes_of(rt.alloc(), "HTTP/1.1 200 OK|Content-Length: 3||READY")?;
    for length in 0..=whole.len() {
        let mut cut = whole.clone()?;
        cut.truncate(length);
        let wanted = if length < 41 {
            Err(WireFault::CutShort)
        } else {
            Ok("REA")
        };
        holds(&rt, gives(rt.alloc(), cut, wanted), "a reply that is cut");
    }
    Ok(())
}

/// Whether an exchange writes exactly this request.
fn is_sent(alloc: Global, request: &str) -> Result<bool, Fail> {
    let mut stream = stream_of(alloc, bytes_of(alloc, REPLY)?);
    exchange(alloc, &mut stream, b"ann", b"(PLAY m1 NIL)")?;
    Ok(stream.end().output.as_slice() == bytes_of(alloc, request)?.as_slice())
}

/// Whether a player reads this body from this request.
fn is_taken(alloc: Global, request: &str, wanted: &[u8]) -> Result<bool, Fail> {
    let mut stream = stream_of(alloc, bytes_of(alloc, request)?);
    Ok(take_request(alloc, &mut stream)?.as_slice() == wanted)
}

/// Whether a player that answers with this body writes this reply.
fn is_given(alloc: Global, body: &[u8], reply: &str) -> Result<bool, Fail> {
    let mut stream = stream_of(alloc, Vec::new(alloc));
    give_reply(alloc, &mut stream, body)?;
    Ok(stream.end().output.as_slice() == bytes_of(alloc, reply)?.as_slice())
}

#[test]
fn requests_and_replies_have_their_bytes(rt: HostRuntime) -> Result<(), Fail> {
    holds(&rt, is_sent(rt.alloc(), REQUEST)?, "the request");
    let is_body = is_taken(rt.alloc(), REQUEST, b"(PLAY m1 NIL)")?;
    holds(&rt, is_body, "its body");
    holds(&rt, is_given(rt.alloc(), b"READY", REPLY)?, "the reply");
    Ok(())
}
