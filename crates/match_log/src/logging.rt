//! Logs matches while they run. `Logging` wraps players, and reports each message with its answer, and the progress of
//! the matches.
ghost use Rattle.std.specs.Prelude.{◌≡◌, ◌==◌, ◌||◌, IfOk, Ok, option_map, string_bytes};
ghost use Rattle.match_log.specs.LogMessages.{answer_text, error_word, kind_text};

use crate::events::{Addressee, Event, Exchange, Json};
use crate::notices::Notices;
use crate::status::Progress;
use desk_calls::Answer;
use match_messages::{MessageKind, Player};
use match_plans::{PlayerAddress, Reach, ReportsShortages, RolePlace, Shortage};
use network_players::{ContactFault, Explains, time_since};
use shared_text::SharedText;
use std::alloc::{AllocError, Global};
use std::sync::Wait;
use std::time::{Clock, Duration, Instant};

/// Makes the players of another `Reach`, and logs their messages.
#[derive(Drop)]
pub struct Logging<'a, H, S> {
    pub rt: &'a H,
    pub reach: &'a S,
    /// The progress of the matches, if it is shown.
    pub progress: Option<&'a Progress>,
    pub notices: &'a Notices,
    /// Whether only one player of each match is logged. If so, that player counts the match, whatever its role;
    /// otherwise the player of the first role counts it.
    pub is_alone: bool,
    /// Whether to report on standard error each player to whom all messages failed.
    pub names_absent: bool,
}

/// What the log must know about a player of a match.
#[derive(Drop)]
struct PlayerLog<'a> {
    alloc: Global,
    id: String,
    role: usize,
    name: String,
    /// Whether this player's START counts as the beginning of the match, and its STOP or ABORT as the end.
    counts: bool,
    /// The number of messages to the player, and the number of those that asked for a move.
    messages: u64,
    plays: u64,
    /// Whether all these messages failed although the referee lacked no resource.
    is_absent: bool,
    names_absent: bool,
    progress: Option<&'a Progress>,
    notices: &'a Notices,
}

/// A player whose messages are logged.
#[derive(Drop)]
pub struct LoggedPlayer<'a, H, P> {
    rt: &'a H,
    player: P,
    log: PlayerLog<'a>,
}

/// A message to a player.
#[derive(Clone, Copy)]
struct Sent<'a> {
    message: &'a SharedText<'a>,
    kind: Option<MessageKind>,
    /// When it was sent, as a moment and in milliseconds since 1970, if the clock can be read.
    moment: Option<Instant>,
    time: Option<u128>,
}

/// The word for the kind of a message.
fn kind_text(kind: Option<MessageKind>) -> Option<&'static [u8]>
    ensures { option_map (λ word. word.now) result ≡ kind_text kind }
{
    match kind {
        Some(MessageKind::Start) => Some(b"START"),
        Some(MessageKind::Play) => Some(b"PLAY"),
        Some(MessageKind::Stop) => Some(b"STOP"),
        Some(MessageKind::Abort) => Some(b"ABORT"),
        Some(MessageKind::Info) | None => None,
    }
}

/// The text of a message in the log. In START, `...` replaces the description, which is the same for all matches.
fn logged_text<'a>(message: &'a SharedText<'_>, kind: Option<MessageKind>) -> Json<'a> {
    let (before, shared, after) = message.parts();
    match kind {
        Some(MessageKind::Start) if !before.is_empty() && !shared.is_empty() => {
            Json::Parts(before, b"...", after)
        }
        _ => Json::Parts(before, shared, after),
    }
}

fn answer_text(answer: &Answer) -> Option<&[u8]>
    ensures { option_map (λ text. text.now) result ≡ answer_text answer.now }
{
    match answer {
        Answer::Text(text) => Some(text.as_slice()),
        Answer::Silent | Answer::Broken => None,
    }
}

fn error_word(answer: &Answer, why: Option<ContactFault>) -> Option<&'static [u8]>
    ensures { option_map (λ word. word.now) result ≡ error_word answer.now why }
{
    match (answer, why) {
        (Answer::Text(_), _) => None,
        (_, Some(ContactFault::Shortage(_))) => Some(b"lost"),
        (Answer::Silent, _) => Some(b"TO"),
        (Answer::Broken, _) => Some(b"CE"),
    }
}

impl PlayerLog<'_> {
    fn addressee(&self) -> Addressee<'_> {
        Addressee {
            id: Json::Text(Some(self.id.as_bytes())),
            role: self.role,
            name: Json::Text(Some(self.name.as_bytes())),
        }
    }

    /// Adds an object to the log, if there is one.
    fn add<R: Wait>(&self, rt: &R, event: &Event<'_>) {
        if self.notices.is_logged {
            self.notices.log(rt, event.to_string(self.alloc));
        }
    }

    /// Counts a message that is being sent, and counts the match if it begins with this message.
    fn begin<'m, R: Clock + Wait>(&mut self, rt: &R, message: &'m SharedText<'m>) -> Sent<'m> {
        self.messages = self.messages.saturating_add(1);
        let kind = MessageKind::of(message);
        let time = match rt.since_1970() {
            Ok(time) => Some(time.as_millis()),
            Err(_) => None,
        };
        if let Some(progress) = self.progress {
            progress.begin(self.counts, kind);
            self.notices.move_on(rt);
        }
        if self.counts && matches!(kind, Some(MessageKind::Start)) {
            self.add(rt, &Event::Open(self.addressee().id, Json::Number(time)));
        }
        Sent {
            message,
            kind,
            moment: Instant::now(rt).ok(),
            time,
        }
    }

    /// Reports a message with its answer, and the end of the match if the match ends with this message.
    fn report<R: Clock + Wait>(
        &mut self,
        rt: &R,
        sent: &Sent<'_>,
        answer: &Answer,
        why: Option<ContactFault>,
    ) {
        let took = time_since(rt, sent.moment);
        let is_short = matches!(why, Some(ContactFault::Shortage(_)));
        self.is_absent = self.is_absent && !is_short && matches!(answer, Answer::Broken);
        if self.notices.is_logged {
            self.notices
                .log(rt, self.message_line(sent, answer, took, why));
        }
        if let Some(progress) = self.progress {
            progress.count(self.counts, sent.kind);
            self.notices.move_on(rt);
        }
        match sent.kind {
            Some(MessageKind::Play) => self.plays = self.plays.saturating_add(1),
            Some(MessageKind::Stop | MessageKind::Abort) if self.counts => {
                let time = match sent.time {
                    Some(time) => Some(time.saturating_add(took.as_millis())),
                    None => None,
                };
                let kind = Json::Text(kind_text(sent.kind));
                self.add(
                    rt,
                    &Event::End(self.addressee().id, Json::Number(time), kind),
                );
            }
            _ => {}
        }
    }

    fn message_line(
        &self,
        sent: &Sent<'_>,
        answer: &Answer,
        took: Duration,
        why: Option<ContactFault>,
    ) -> Result<String, AllocError> {
        let reason = match why {
            Some(fault) => Some(fault.to_string(self.alloc)?),
            None => None,
        };
        let round = match sent.kind {
            Some(MessageKind::Play) => Some(u128::from(self.plays)),
            _ => None,
        };
        let exchange = Exchange {
            number: self.messages,
            kind: Json::Text(kind_text(sent.kind)),
            round: Json::Number(round),
            time: Json::Number(sent.time),
            millis: took.as_millis(),
            message: logged_text(sent.message, sent.kind),
            answer: Json::Text(answer_text(answer)),
            error: Json::Text(error_word(answer, why)),
            reason: Json::Text(match &reason {
                Some(reason) => Some(reason.as_bytes()),
                None => None,
            }),
        };
        Event::Message(self.addressee(), exchange).to_string(self.alloc)
    }

    /// Reports the player if all messages to it failed.
    fn name_if_absent<R: Wait>(&self, rt: &R) {
        if !self.is_absent || self.messages == 0 {
            return;
        }
        self.add(rt, &Event::Absent(self.addressee()));
        if !self.names_absent {
            return;
        }
        if let Ok(line) = format!(in self.alloc;
            "ggp_manager: {} role {} {}: every message failed\n",
            self.id, self.role, self.name,
        ) {
            let _ = self.notices.report(rt, line.as_bytes());
        }
    }
}

impl<'a, H, S: Reach> Reach for Logging<'a, H, S> {
    type Player = LoggedPlayer<'a, H, S::Player>;

    ghost is_reached = { λ l at address p. S.is_reached l.reach.now at address p.player };

    fn player(
        &self,
        alloc: Global,
        at: RolePlace<'_>,
        address: &PlayerAddress<'_>,
    ) -> Result<LoggedPlayer<'a, H, S::Player>, AllocError>
        ensures named { IfOk result (λ p. (string_bytes p.log.id ≡ at.entry.id.now) × (string_bytes p.log.name ≡ address.now.name.now)) }
        ensures role { IfOk result (λ p. (p.log.role ≡ at.entry.role) × (p.log.counts ≡ self.now.is_alone || (at.entry.role == 0))) }
        ensures first { IfOk result (λ p. (p.log.messages ≡ 0) × (p.log.plays ≡ 0)) }
        ensures reached { (logged : _) → result ≡ Ok logged → S.is_reached self.now.reach.now at.entry address.now logged.player }
    {
        let id = String::from_str(alloc, at.id)?;
        let name = String::from_str(alloc, address.name)?;
        Ok(LoggedPlayer {
            rt: self.rt,
            player: self.reach.player(alloc, at, address)?,
            log: PlayerLog {
                alloc,
                id,
                role: at.role,
                name,
                counts: self.is_alone || at.role == 0,
                messages: 0,
                plays: 0,
                is_absent: true,
                names_absent: self.names_absent,
                progress: self.progress,
                notices: self.notices,
            },
        })
    }
}

impl<H, S: ReportsShortages> ReportsShortages for Logging<'_, H, S> {
    ghost is_clear = { λ l place. S.is_clear l.reach.now place };

    fn shortage(&self, place: usize) -> Option<Shortage> {
        self.reach.shortage(place)
    }
}

impl<H, P: Explains> Explains for LoggedPlayer<'_, H, P> {
    fn why(&self) -> Option<ContactFault> {
        self.player.why()
    }
}

impl<H: Clock + Wait, P: Player + Explains> Player for LoggedPlayer<'_, H, P> {
    ghost handed = { λ p. P.handed p.player };

    fn ask(&mut self, seconds: u32, body: &[u8]) -> Answer {
        let message = SharedText::lent(self.log.alloc, body);
        let sent = self.log.begin(self.rt, &message);
        let answer = self.player.ask(seconds, body);
        self.log.report(self.rt, &sent, &answer, self.player.why());
        answer
    }

    fn ask_shared(
        &mut self,
        alloc: Global,
        seconds: u32,
        message: &SharedText<'_>,
    ) -> Result<Answer, AllocError> {
        let sent = self.log.begin(self.rt, message);
        let answer = self.player.ask_shared(alloc, seconds, message)?;
        self.log.report(self.rt, &sent, &answer, self.player.why());
        Ok(answer)
    }

    fn rest(&mut self) {
        self.player.rest();
    }

    fn leave(&mut self) {
        self.player.leave();
        self.log.name_if_absent(self.rt);
    }
}
