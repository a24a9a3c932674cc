//! Players over the network.
ghost use Rattle.std.specs.Prelude.{◌≡◌, ◌<◌, Err, IfErr, IfOk, IsOkAnd, IsTrue, MatchOption, MatchResult, None, OnErr, length};
ghost use Rattle.network_players.specs.Budgets.{IsPaidBy, IsPaidText};
ghost use Rattle.network_players.specs.Contacts.{answer_of, contact_answer};
ghost use Rattle.network_players.specs.Paces.{HasAnswered, HasRested};
ghost use Rattle.network_players.specs.declared.contacting.ContactFault.TheVariants.{OverBudget};

use crate::answer_budget::AnswerBudget;
use crate::contacting::{ContactFault, Explains, contact_found};
use crate::lookup::{Lookup, Resolves};
use crate::signal::{Pace, RoundSignal};
use desk_calls::Answer;
use game_core::Text;
use http_exchange::WireFault;
use match_messages::Player;
use match_plans::{PlayerAddress, Reach, ReportsShortages, RolePlace, Shortage};
use shared_text::SharedText;
use std::alloc::{AllocError, Global};
use std::io::ErrorKind;
use std::sync::Wait;
use std::time::Clock;

/// The network of a runtime. It must be made where the type of the runtime is known, as in `main`: players are sent to
/// other threads, and a function over any runtime cannot show that this is allowed.
#[derive(Drop)]
pub struct Sockets<'a, H> {
    pub rt: &'a H,
    /// A signal for each match that is played at once. If there are fewer signals, some matches share one: their players
    /// may wait longer, and what the referee lacked in one of these matches counts for all.
    pub signals: &'a [RoundSignal],
    ghost has_one: { 0 < length signals.now },
}

/// A player on the network. Each message goes over a separate connection to one of the addresses that a lookup has found for its
/// host. Once one address has accepted a connection, the player uses no other.
#[derive(Drop)]
pub struct SocketPlayer<'a, H> {
    rt: &'a H,
    signal: &'a RoundSignal,
    pace: Pace<'a>,
    alloc: Global,
    name: String,
    host: String,
    port: u16,
    lookup: Lookup,
    budget: AnswerBudget,
    /// Why the last message brought no answer. `None` if there was an answer.
    fault: Option<ContactFault>,
}

impl<'a, H> Sockets<'a, H> {
    /// The signal of the match with this index. No clause says which: contracts cannot distinguish signals.
    fn signal_at(&self, place: usize) -> &'a RoundSignal {
        &self.signals[place % self.signals.len()]
    }
}

impl<H> ReportsShortages for Sockets<'_, H> {
    // A contract cannot name what a signal carries.
    ghost is_clear = { λ s place. Unit {0} };

    fn shortage(&self, place: usize) -> Option<Shortage> {
        self.signal_at(place).shortage()
    }
}

impl<'a, H> Reach for Sockets<'a, H> {
    type Player = SocketPlayer<'a, H>;

    ghost use Rattle.network_players.specs.Players.{IsPlayerAt};

    ghost is_reached = { λ s at address p. IsPlayerAt at address p };

    fn player(
        &self,
        alloc: Global,
        at: RolePlace<'_>,
        address: &PlayerAddress<'_>,
    ) -> Result<SocketPlayer<'a, H>, AllocError> {
        let signal = self.signal_at(at.place);
        let name = String::from_str(alloc, address.name)?;
        let host = String::from_str(alloc, address.host)?;
        Ok(SocketPlayer {
            rt: self.rt,
            signal,
            pace: Pace::new(signal),
            alloc,
            name,
            host,
            port: address.port,
            lookup: Lookup::new(),
            budget: AnswerBudget::new(at.longest_move),
            fault: None,
        })
    }
}

/// The answer for an exchange with a player: silent if no answer came in time, and broken after any other error.
pub fn answer_of(exchanged: Result<Text, WireFault>) -> Answer
    ensures { result ≡ answer_of exchanged }
{
    match exchanged {
        Ok(text) => Answer::Text(text),
        Err(WireFault::ReadFault(ErrorKind::WouldBlock | ErrorKind::TimedOut)) => Answer::Silent,
        Err(_) => Answer::Broken,
    }
}

/// The answer for a message to a player: silent if the time ran out, and broken after any other error. If the referee lacked a
/// resource, the answer counts as broken too, and the match has no record.
fn contact_answer(reached: Result<Text, ContactFault>) -> Answer
    ensures { result ≡ contact_answer reached }
{
    match reached {
        Ok(text) => Answer::Text(text),
        Err(ContactFault::Exchange(fault, _)) => answer_of(Err(fault)),
        Err(ContactFault::Late(_)) => Answer::Silent,
        Err(
            ContactFault::NoAddress
            | ContactFault::NoConnection
            | ContactFault::OverBudget
            | ContactFault::Shortage(_)
            | ContactFault::Status(_),
        ) => Answer::Broken,
    }
}

/// The result of a message after its answer has been charged to the budget. An answer beyond the budget is an error.
fn paid(
    budget: &mut AnswerBudget,
    reached: Result<Text, ContactFault>,
) -> Result<Text, ContactFault>
    ensures kept { budget.new.free ≡ budget.old.free }
    ensures fault { IfErr reached (λ fault. result ≡ Err fault) }
    ensures spent { OnErr reached (budget.new.spent ≡ budget.old.spent) }
    ensures paid { IfOk reached (λ text. MatchResult result (λ answer. (answer ≡ text) × IsPaidBy budget.old budget.new answer) (λ fault. (fault ≡ OverBudget) × ¬ (IsPaidBy budget.old budget.new text))) }
{
    let text = reached?;
    if budget.pay(text.as_slice().len()) {
        Ok(text)
    } else {
        Err(ContactFault::OverBudget)
    }
}

impl<H> Explains for SocketPlayer<'_, H> {
    fn why(&self) -> Option<ContactFault>
        ensures { result ≡ self.now.fault }
    {
        self.fault
    }
}

impl<H: Resolves + Clock> SocketPlayer<'_, H> {
    /// Sends a message, which begins a round, and waits for the answer. Stores why there was no answer.
    fn hand_over(&mut self, seconds: u32, message: &SharedText<'_>) -> Answer
        ensures answer { MatchOption self.new.fault (IsPaidText self.old.budget self.new.budget result) (λ fault. result ≡ contact_answer (Err fault)) }
        ensures pace { HasAnswered self.old.pace self.new.pace }
    {
        self.pace.begin();
        let address = PlayerAddress {
            name: self.name.as_str(),
            host: self.host.as_str(),
            port: self.port,
        };
        let reached = contact_found(
            self.rt,
            self.alloc,
            &address,
            &mut self.lookup,
            seconds,
            message,
        );
        let reached = paid(&mut self.budget, reached);
        self.fault = match &reached {
            Ok(_) => None,
            Err(fault) => Some(*fault),
        };
        if let Some(ContactFault::Shortage(shortage)) = self.fault {
            self.signal.note(shortage);
        }
        self.pace.end();
        contact_answer(reached)
    }
}

impl<H: Resolves + Clock + Wait> Player for SocketPlayer<'_, H> {
    // A contract cannot name what a socket carries.
    ghost handed = { λ p. None };

    fn ask(&mut self, seconds: u32, body: &[u8]) -> Answer
        ensures answer { MatchOption self.new.fault (IsPaidText self.old.budget self.new.budget result) (λ fault. result ≡ contact_answer (Err fault)) }
        ensures pace { HasAnswered self.old.pace self.new.pace }
    {
        self.hand_over(seconds, &SharedText::lent(self.alloc, body))
    }

    fn ask_shared(
        &mut self,
        _: Global,
        seconds: u32,
        message: &SharedText<'_>,
    ) -> Result<Answer, AllocError>
        ensures answer { IsOkAnd result (λ answer. MatchOption self.new.fault (IsPaidText self.old.budget self.new.budget answer) (λ fault. answer ≡ contact_answer (Err fault))) }
        ensures pace { HasAnswered self.old.pace self.new.pace }
    {
        Ok(self.hand_over(seconds, message))
    }

    fn rest(&mut self)
        ensures { HasRested self.old.pace self.new.pace }
    {
        self.pace.rest(self.rt);
    }

    fn leave(&mut self)
        ensures { IsTrue self.new.pace.has_left }
    {
        self.pace.leave();
    }
}
