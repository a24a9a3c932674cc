//! The status line of a terminal. It shows the progress of the matches, and is rewritten when they progress.
ghost use Rattle.std.specs.Prelude.{◌≡◌, ℕ, IsTrue, IsFalse, IfSome, IfNone};

use game_core::Counted;
use match_messages::MessageKind;
use network_players::time_since;
use std::fmt::Write as _;
use std::io;
use std::io::Write;
use std::marker::{Brand, PhantomData};
use std::sync::atomic::{AtomicU64, Ordering};
use std::sync::{Mutex, Wait};
use std::time::{Clock, Duration, Instant};
use whole_streams::Pieces;

/// The shortest time between two writes of the status line, in milliseconds.
const PERIOD_MILLIS: u64 = 100;

/// Moves the cursor to the beginning of its line and erases the line (`EL` of ECMA-48).
const CLEAR: &str = "\r\x1b[K";

/// The progress of the matches, measured by the messages of their players.
#[derive(Drop)]
pub struct Progress {
    /// The number of matches to play, or 0 while the number is not known.
    planned: AtomicU64,
    begun: AtomicU64,
    over: AtomicU64,
    messages: AtomicU64,
}

impl Progress {
    /// The progress before any match has begun.
    pub const fn new() -> Progress {
        Progress {
            planned: AtomicU64::new(0),
            begun: AtomicU64::new(0),
            over: AtomicU64::new(0),
            messages: AtomicU64::new(0),
        }
    }

    /// Sets the number of matches to play.
    pub fn plan(&self, count: usize) {
        self.planned.store(count as u64, Ordering::SeqCst);
    }

    /// Counts the match that begins with this message, if this player counts its match.
    pub(crate) fn begin(&self, counts: bool, kind: Option<MessageKind>) {
        if counts && kind == Some(MessageKind::Start) {
            self.begun.fetch_add(1, Ordering::SeqCst);
        }
    }

    /// Counts a message that a player has answered. Counts the match that ends with STOP or ABORT, if this player
    /// counts its match.
    pub(crate) fn count(&self, counts: bool, kind: Option<MessageKind>) {
        self.messages.fetch_add(1, Ordering::SeqCst);
        if counts && matches!(kind, Some(MessageKind::Stop | MessageKind::Abort)) {
            self.over.fetch_add(1, Ordering::SeqCst);
        }
    }

    /// Rewrites the status line. Ignores errors of the stream.
    fn show<E: Write>(&self, stream: &mut E) {
        let over = self.over.load(Ordering::SeqCst);
        let open = self.begun.load(Ordering::SeqCst).saturating_sub(over);
        let planned = self.planned.load(Ordering::SeqCst);
        let messages = self.messages.load(Ordering::SeqCst);
        let _ = write!(
            Pieces { stream },
            "{CLEAR}matches open {open}, over {over} of {planned}, messages {messages}"
        );
    }
}

fn write_text<E: Write>(stream: &mut E, text: &str) {
    let mut pieces = Pieces { stream };
    let _ = pieces.write_str(text);
}

/// A stream of messages with a status line below them. It erases the line before a message.
#[derive(Drop)]
pub struct StatusStream<E> {
    stream: E,
    is_shown: bool,
    /// When the line was last written.
    shown_at: Option<Instant>,
}

impl<E: Write> StatusStream<E> {
    /// Wraps a stream that has no status line yet.
    pub fn new(stream: E) -> StatusStream<E>
        ensures { IsFalse result.is_shown }
    {
        StatusStream {
            stream,
            is_shown: false,
            shown_at: None,
        }
    }

    /// Rewrites the status line. If it was rewritten a moment ago, only returns how long to wait.
    pub(crate) fn show(&mut self, clock: &impl Clock, progress: &Progress) -> Option<Duration>
        ensures shown { IfNone result (IsTrue self.new.is_shown) }
        ensures waits { IfSome result (λ _. self.new ≡ self.old) }
    {
        if self.shown_at.is_some() {
            let period = Duration::from_millis(PERIOD_MILLIS);
            let left = period.saturating_sub(time_since(clock, self.shown_at));
            if !left.is_zero() {
                return Some(left);
            }
        }
        self.shown_at = Instant::now(clock).ok();
        self.is_shown = true;
        progress.show(&mut self.stream);
        None
    }

    /// Erases the status line.
    pub fn clear(&mut self)
        ensures { IsFalse self.new.is_shown }
    {
        if self.is_shown {
            self.is_shown = false;
            write_text(&mut self.stream, CLEAR);
        }
    }
}

impl<E: Write> Write for StatusStream<E> {
    fn write(&mut self, bytes: &[u8]) -> io::Result<usize> {
        self.clear();
        self.stream.write(bytes)
    }

    fn flush(&mut self) -> io::Result<()> {
        self.stream.flush()
    }
}

/// Names the reference that an output writes through. The code that makes the output chooses this type, so contracts
/// know which stream generic code writes to.
pub trait WriterBrand {
    ghost name: { ℕ };
}

impl WriterBrand for Brand {
    ghost name = { 0 };
}

/// An output that writes through the chosen reference. If the status line may be on the same terminal, each write first
/// erases it. Otherwise a write does not wait for reports.
#[derive(Drop)]
pub struct ClearedOutput<'a, 'w, N: WriterBrand, R, W, E> {
    pub rt: &'a R,
    pub output: &'w mut Counted<W>,
    pub status: &'a Mutex<StatusStream<E>>,
    /// Whether the status line may be on the terminal of this output.
    pub shares_terminal: bool,
    pub brand: PhantomData<N>,
    pub ghost picked: { output.ghost_name ≡ N.name },
}

impl<N: WriterBrand, R: Wait, W: Write, E: Write> Write for ClearedOutput<'_, '_, N, R, W, E> {
    ghost contents = { λ cleared. W.contents cleared.output.now.stream };

    fn write(&mut self, bytes: &[u8]) -> io::Result<usize> {
        if self.shares_terminal {
            self.status.lock(self.rt).clear();
        }
        self.output.write(bytes)
    }

    fn flush(&mut self) -> io::Result<()> {
        Ok(())
    }
}
