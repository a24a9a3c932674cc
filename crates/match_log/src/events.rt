//! The text lines of the log. Each text line is a JSON object.
ghost use Rattle.std.specs.Prelude.{◌≡◌, ◌<◌, ◌++◌, flat_map};
ghost use Rattle.std.specs.Fmt.{WritesOnOk};
ghost use Rattle.match_log.specs.LogLines.{escaped, hex_digit, json_string, message_line, object_line, written_member};

use std::fmt;
use std::fmt::Write as _;

/// A value of an object.
#[derive(Clone, Copy)]
pub enum Json<'a> {
    /// A number, or null.
    Number(Option<u128>),
    /// A text of any bytes, or null.
    Text(Option<&'a [u8]>),
    /// A text in three parts.
    Parts(&'a [u8], &'a [u8], &'a [u8]),
}

fn hex_digit(number: u8) -> u8
    requires { number < 16 }
    ensures { result ≡ hex_digit number }
{
    if number < 10 {
        number + b'0'
    } else {
        number + 87
    }
}

fn write_byte<F: fmt::Write>(f: &mut fmt::Formatter<F>, byte: u8) -> fmt::Result
    ensures { WritesOnOk F.write_str_gives f.old result (escaped byte) f.new }
{
    if byte == b'"' || byte == b'\\' {
        f.write_char('\\')?;
    } else if !(byte == b' ' || byte.is_ascii_graphic()) {
        f.write_str("\\u00")?;
        f.write_char(char::from(hex_digit(byte / 16)))?;
        return f.write_char(char::from(hex_digit(byte % 16)));
    }
    f.write_char(char::from(byte))
}

fn write_bytes<F: fmt::Write>(f: &mut fmt::Formatter<F>, text: &[u8]) -> fmt::Result
    ensures { WritesOnOk F.write_str_gives f.old result (flat_map escaped text.now) f.new }
{
    for byte in text {
        write_byte(f, *byte)?;
    }
    Ok(())
}

/// Writes a string whose text is in three parts.
fn write_string<F: fmt::Write>(
    f: &mut fmt::Formatter<F>,
    before: &[u8],
    middle: &[u8],
    after: &[u8],
) -> fmt::Result
    ensures { WritesOnOk F.write_str_gives f.old result (json_string (before.now ++ (middle.now ++ after.now))) f.new }
{
    f.write_char('"')?;
    write_bytes(f, before)?;
    write_bytes(f, middle)?;
    write_bytes(f, after)?;
    f.write_char('"')
}

impl fmt::Display for Json<'_> {
    ghost use Rattle.std.specs.Prelude.{Some};
    ghost use Rattle.match_log.specs.LogLines.{json_value};

    ghost output = { λ value. Some (json_value value) };

    fn fmt<F: fmt::Write>(&self, f: &mut fmt::Formatter<F>) -> fmt::Result {
        match *self {
            Json::Number(Some(number)) => write!(f, "{number}"),
            Json::Text(Some(text)) => write_string(f, text, b"", b""),
            Json::Parts(before, middle, after) => write_string(f, before, middle, after),
            Json::Number(None) | Json::Text(None) => f.write_str("null"),
        }
    }
}

/// Writes an object as one text line: the name of the event, and then its members in order.
fn write_object<F: fmt::Write>(
    f: &mut fmt::Formatter<F>,
    event: &str,
    members: &[(&str, Json<'_>)],
) -> fmt::Result
    ensures { WritesOnOk F.write_str_gives f.old result (object_line event.now (flat_map written_member members.now)) f.new }
{
    write!(f, "{{\"event\":\"{event}\"")?;
    for (name, value) in members {
        write!(f, ",\"{name}\":{value}")?;
    }
    f.write_str("}\n")
}

/// The player of a role of a match.
#[derive(Clone, Copy)]
pub struct Addressee<'a> {
    /// The match's id.
    pub id: Json<'a>,
    pub role: usize,
    pub name: Json<'a>,
}

/// A message and its outcome.
#[derive(Clone, Copy)]
pub struct Exchange<'a> {
    /// The number of the message among the player's messages in the match, counted from 1.
    pub number: u64,
    pub kind: Json<'a>,
    pub round: Json<'a>,
    /// When the message was sent, in milliseconds since 1970.
    pub time: Json<'a>,
    /// How many milliseconds the referee waited for the player.
    pub millis: u128,
    pub message: Json<'a>,
    pub answer: Json<'a>,
    /// Why there is no answer: a word, and then the reason.
    pub error: Json<'a>,
    pub reason: Json<'a>,
}

/// An object of the log.
#[derive(Clone, Copy)]
pub enum Event<'a> {
    /// The program begins, in this version.
    Begun(&'a str),
    Message(Addressee<'a>, Exchange<'a>),
    /// The match with this id begins at this time.
    Open(Json<'a>, Json<'a>),
    /// The match with this id ends at this time, with a message of this kind.
    End(Json<'a>, Json<'a>, Json<'a>),
    /// All messages to this player failed.
    Absent(Addressee<'a>),
    /// The match with this id has no record, for this reason.
    NoRecord(Json<'a>, Json<'a>),
    /// This many objects were left out of the log.
    LeftOut(u64),
}

fn write_message<'a, F: fmt::Write>(
    f: &mut fmt::Formatter<F>,
    to: &Addressee<'a>,
    exchange: &Exchange<'a>,
) -> fmt::Result
    ensures { WritesOnOk F.write_str_gives f.old result (message_line to.now exchange.now) f.new }
{
    let members = [
        ("match", to.id),
        ("role", Json::Number(Some(to.role as u128))),
        ("player", to.name),
        ("number", Json::Number(Some(u128::from(exchange.number)))),
        ("kind", exchange.kind),
        ("round", exchange.round),
        ("time", exchange.time),
        ("ms", Json::Number(Some(exchange.millis))),
        ("message", exchange.message),
        ("answer", exchange.answer),
        ("error", exchange.error),
        ("reason", exchange.reason),
    ];
    write_object(f, "message", &members)
}

/// The object as one text line.
impl fmt::Display for Event<'_> {
    ghost use Rattle.std.specs.Prelude.{Some};
    ghost use Rattle.match_log.specs.LogLines.{event_line};

    ghost output = { λ event. Some (event_line event) };

    fn fmt<F: fmt::Write>(&self, f: &mut fmt::Formatter<F>) -> fmt::Result {
        match self {
            Event::Begun(version) => {
                let program = Json::Text(Some(b"ggp_manager"));
                let version = Json::Text(Some(version.as_bytes()));
                write_object(f, "log", &[("program", program), ("version", version)])
            }
            Event::Message(to, exchange) => write_message(f, to, exchange),
            Event::Open(id, time) => write_object(f, "open", &[("match", *id), ("time", *time)]),
            Event::End(id, time, kind) => {
                let members = [("match", *id), ("time", *time), ("kind", *kind)];
                write_object(f, "end", &members)
            }
            Event::Absent(to) => {
                let role = Json::Number(Some(to.role as u128));
                let members = [("match", to.id), ("role", role), ("player", to.name)];
                write_object(f, "absent", &members)
            }
            Event::NoRecord(id, reason) => {
                write_object(f, "no_record", &[("match", *id), ("reason", *reason)])
            }
            Event::LeftOut(count) => {
                let count = Json::Number(Some(u128::from(*count)));
                write_object(f, "left_out", &[("count", count)])
            }
        }
    }
}
