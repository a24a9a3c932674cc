//! The watched player, and the players that answer nothing.
ghost use Rattle.std.specs.Prelude.{◌≡◌, ◌==◌, ◌↔◌, ◌⊎◌, ◌++◌, ◌∷◌, ◌+◌, ◌-◌, ◌^◌, ◌/◌, [], IfOk, IfSome, IsFalse, IsTrue, min, OnErr, is_some, option_and_then, string_bytes};
ghost use Rattle.std.specs.Duration.{as_nanos};
ghost use mathlib.Core.List.{IsPrefix};
ghost use Rattle.match_log.specs.ShownTexts.{shown_text};
ghost use Rattle.match_messages.specs.MessageKinds.{kind_word};
ghost use Rattle.match_messages.specs.declared.kind.MessageKind.TheVariants.{Play};
ghost use Rattle.network_players.specs.Paces.{HasAnswered, HasRested};
ghost use Rattle.player_commands.specs.Answers.{AreOfMessage, answer_text, brought_by};
ghost use Rattle.match_messages.specs.Handing.{MayKeep};

use desk_calls::Answer;
use kif_text::{KifFault, read_one};
use match_book::MAX_ANSWER;
use match_log::Shown;
use match_messages::{MessageKind, Player};
use match_plans::{PlayerAddress, Reach, ReportsShortages, RolePlace, Shortage};
use network_players::{ContactFault, Explains, Pace, RoundSignal, time_since};
use shared_text::SharedText;
use std::alloc::{AllocError, Global};
use std::sync::{Mutex, Wait};
use std::time::{Clock, Duration, Instant};

/// The kind of answer to a message.
#[derive(Clone, Copy)]
pub enum AnswerKind {
    Text,
    /// No answer came in time.
    Silence,
    /// The answer cannot be read, or there is no connection.
    Break,
}

/// A message to the watched player, and the answer to it.
#[derive(Drop)]
pub struct Exchange {
    /// The beginning of the message, as `Shown` formats it.
    pub message: String,
    /// Whether the message asks for a move.
    pub is_play: bool,
    /// The beginning of the answer's text. It is empty if there is no answer.
    pub answer: String,
    pub brought: AnswerKind,
    /// Why the answer is not a move, if the message asks for one.
    pub unread: Option<KifFault>,
    /// Why there is no answer, if that is known.
    pub fault: Option<ContactFault>,
    /// The time from the message to the answer, in milliseconds.
    pub millis: u128,
    ghost of_message: { ∥ AreOfMessage (string_bytes message) is_play (string_bytes answer) brought ∥₁ },
}

/// The exchanges with the watched player, in order.
#[derive(Drop)]
pub struct Exchanges {
    pub items: Vec<Exchange>,
    /// Whether exchanges are missing because memory ran out.
    pub is_cut: bool,
}

impl Exchanges {
    /// An empty list of exchanges.
    pub fn new(alloc: Global) -> Exchanges {
        Exchanges {
            items: Vec::new(alloc),
            is_cut: false,
        }
    }

    /// Stores the exchange, or notes that it is missing.
    fn keep(&mut self, exchange: Result<Exchange, AllocError>)
        ensures kept { IfOk exchange (λ exchange. (self.new.items.items ≡ self.old.items.items ++ exchange ∷ []) ⊎ IsTrue self.new.is_cut) }
        ensures missing { OnErr exchange (IsTrue self.new.is_cut) }
        ensures cut { IsTrue self.old.is_cut → IsTrue self.new.is_cut }
    {
        let is_kept = match exchange {
            Ok(exchange) => self.items.push(exchange).is_ok(),
            Err(_) => false,
        };
        if !is_kept {
            self.is_cut = true;
        }
    }
}

fn asks_for_move(message: &SharedText<'_>) -> bool
    ensures { IsTrue result ↔ IsPrefix (kind_word Play) message.now }
{
    match MessageKind::of(message) {
        Some(kind) => kind == MessageKind::Play,
        None => false,
    }
}

fn brought_of(answer: &Answer) -> (AnswerKind, &[u8])
    ensures brought { result.0 ≡ brought_by answer.now }
    ensures text { result.1.now ≡ answer_text answer.now }
{
    match answer {
        Answer::Text(text) => (AnswerKind::Text, text.as_slice()),
        Answer::Silent => (AnswerKind::Silence, &[]),
        Answer::Broken => (AnswerKind::Break, &[]),
    }
}

/// Why this text is not one expression, or `None` if it is one.
fn unread_fault(alloc: Global, text: &[u8]) -> Result<Option<KifFault>, AllocError> {
    if text.len() > MAX_ANSWER {
        return Ok(Some(KifFault::TooLong));
    }
    match read_one(alloc, text) {
        Ok(_) => Ok(None),
        Err(KifFault::Memory) => Err(AllocError),
        Err(fault) => Ok(Some(fault)),
    }
}

fn exchange_of(
    alloc: Global,
    message: &SharedText<'_>,
    answer: &Answer,
    fault: Option<ContactFault>,
    took: Duration,
) -> Result<Exchange, AllocError>
    ensures asks { IfOk result (λ exchange. IsTrue exchange.is_play ↔ IsPrefix (kind_word Play) message.now) }
    ensures brought { IfOk result (λ exchange. exchange.brought ≡ brought_by answer.now) }
    ensures shown { IfOk result (λ exchange. (string_bytes exchange.message ≡ shown_text message.now) × (string_bytes exchange.answer ≡ shown_text (answer_text answer.now))) }
    ensures given { IfOk result (λ exchange. (exchange.fault ≡ fault) × (exchange.millis ≡ as_nanos took / 1_000_000)) }
{
    let (brought, text) = brought_of(answer);
    let is_play = asks_for_move(message);
    let unread = match brought {
        AnswerKind::Text if is_play => unread_fault(alloc, text)?,
        _ => None,
    };
    Ok(Exchange {
        message: format!(in alloc; "{}", Shown::message(message))?,
        is_play,
        answer: format!(in alloc; "{}", Shown::text(text))?,
        brought,
        unread,
        fault,
        millis: took.as_millis(),
    })
}

/// Reaches the watched player through `reach`. The other roles get players that answer nothing.
#[derive(Drop)]
pub struct CheckReach<'a, H, S> {
    pub rt: &'a H,
    pub reach: &'a S,
    /// The role of the watched player.
    pub role: usize,
    pub signal: &'a RoundSignal,
    pub exchanges: &'a Mutex<Exchanges>,
}

/// A player of a match with one watched player.
#[derive(Drop)]
pub struct CheckedPlayer<'a, H, P> {
    rt: &'a H,
    alloc: Global,
    pace: Pace<'a>,
    exchanges: &'a Mutex<Exchanges>,
    /// The watched player, or `None` for a player that answers nothing.
    watched: Option<P>,
}

impl<'a, H, S: Reach> Reach for CheckReach<'a, H, S> {
    type Player = CheckedPlayer<'a, H, S::Player>;

    ghost is_reached = { λ w at address p. (is_some p.watched ≡ (at.role == w.role)) × IfSome p.watched (S.is_reached w.reach.now at address) };

    fn player(
        &self,
        alloc: Global,
        at: RolePlace<'_>,
        address: &PlayerAddress<'_>,
    ) -> Result<CheckedPlayer<'a, H, S::Player>, AllocError> {
        let watched = if at.role == self.role {
            Some(self.reach.player(alloc, at, address)?)
        } else {
            None
        };
        Ok(CheckedPlayer {
            rt: self.rt,
            alloc,
            pace: Pace::new(self.signal),
            exchanges: self.exchanges,
            watched,
        })
    }
}

impl<H, S: ReportsShortages> ReportsShortages for CheckReach<'_, H, S> {
    ghost is_clear = { λ w place. S.is_clear w.reach.now place };

    fn shortage(&self, place: usize) -> Option<Shortage> {
        self.reach.shortage(place)
    }
}

impl<H: Clock + Wait, P: Explains> CheckedPlayer<'_, H, P> {
    /// Records that a message begins. Returns the current time, if the clock can be read.
    fn begin(&mut self) -> Option<Instant>
        ensures begun { self.new.pace ≡ record self.old.pace { messages = min (2 ^ 64 - 1) (self.old.pace.messages + 1) } }
        ensures watched { self.new.watched ≡ self.old.watched }
    {
        self.pace.begin();
        Instant::now(self.rt).ok()
    }

    /// Records the end of the message that began at the time `began`. If the player is watched, stores the exchange. If
    /// `answer` is `None`, memory ran out, and no exchange is stored.
    fn end(&mut self, message: &SharedText<'_>, answer: Option<&Answer>, began: Option<Instant>)
        ensures rest { as_nanos self.new.pace.rest ≡ 100_000_000 }
        ensures ended { IsFalse self.new.pace.has_rested }
        ensures others { (self.new.pace.messages ≡ self.old.pace.messages) × (self.new.pace.has_left ≡ self.old.pace.has_left) }
        ensures watched { self.new.watched ≡ self.old.watched }
    {
        self.pace.end();
        if let (Some(player), Some(answer)) = (&self.watched, answer) {
            let took = time_since(self.rt, began);
            let exchange = exchange_of(self.alloc, message, answer, player.why(), took);
            self.exchanges.lock(self.rt).keep(exchange);
        }
    }
}

impl<H: Clock + Wait, P: Player + Explains> Player for CheckedPlayer<'_, H, P> {
    ghost use Rattle.player_commands.specs.Checks.{watched_handed};

    ghost handed = { λ p. watched_handed H P.handed p };

    fn ask(&mut self, seconds: u32, body: &[u8]) -> Answer
        ensures handed { MayKeep (option_and_then P.handed self.old.watched) (option_and_then P.handed self.new.watched) (record { seconds = seconds; body = body.now; answer = result } ∷ []) }
        ensures pace { HasAnswered self.old.pace self.new.pace }
    {
        let began = self.begin();
        let answer = match &mut self.watched {
            Some(player) => player.ask(seconds, body),
            None => Answer::Silent,
        };
        self.end(&SharedText::lent(self.alloc, body), Some(&answer), began);
        answer
    }

    fn ask_shared(
        &mut self,
        alloc: Global,
        seconds: u32,
        message: &SharedText<'_>,
    ) -> Result<Answer, AllocError>
        ensures told { IfOk result (λ answer. MayKeep (option_and_then P.handed self.old.watched) (option_and_then P.handed self.new.watched) (record { seconds = seconds; body = message.now; answer = answer } ∷ [])) }
        ensures nothing { OnErr result (option_and_then P.handed self.new.watched ≡ option_and_then P.handed self.old.watched) }
        ensures pace { HasAnswered self.old.pace self.new.pace }
    {
        let began = self.begin();
        let asked = match &mut self.watched {
            Some(player) => player.ask_shared(alloc, seconds, message),
            None => Ok(Answer::Silent),
        };
        self.end(message, asked.as_ref().ok(), began);
        asked
    }

    fn rest(&mut self)
        ensures pace { HasRested self.old.pace self.new.pace }
        ensures watched { self.new.watched ≡ self.old.watched }
    {
        self.pace.rest(self.rt);
    }

    fn leave(&mut self)
        ensures left { IsTrue self.new.pace.has_left }
        ensures watched { self.new.watched ≡ self.old.watched }
    {
        self.pace.leave();
    }
}
