//! The manager of all matches.
ghost use Rattle.std.specs.Prelude.{◌≡◌, [], false, None, IfOk, IfSome, OnOk, OnErr, length, slice_get, is_some, option_copied, option_map, option_and_then};
ghost use Rattle.desk_calls.specs.Answers.{answer_lent};
ghost use Rattle.match_book.specs.Steps.{after_answer, after_abort};
ghost use Rattle.match_desk.specs.ManagerValue.{game_of, game_match, match_of, match_with_id, IsLawfulManager};
ghost use Rattle.match_desk.specs.Memory.{CarriesTexts, AnswerWantsMemory, WantsMemory};
ghost use Rattle.match_desk.specs.Open.{open_refusal, after_open};
ghost use Rattle.match_desk.specs.Internal.AskedSetups.{asked_setup};
ghost use Rattle.match_desk.specs.Steps.{next_reply, answer_reply, query_reply, abort_reply, reply_of, refused_or, is_refused, with_change};
ghost use Rattle.desk_calls.specs.declared.call.Reply.TheVariants.{Opened};

use crate::asked_setup::AskedSetup;
use crate::copied_call::copied_call;
use crate::slot::{self, Slot};
use call_history::Object;
use desk_calls::{Call, LentAnswer, Refusal, Reply, are_clocks, are_names, is_name, is_strikes};
use game_core::Game;
use indexmap::IndexMap;
use match_book::Match;
use match_book::laws::{abort_keeps_lawful, answers_keep_lawful, new_match_is_lawful};
use std::alloc::{AllocError, Global};
use std::marker::Model;

/// The largest number of matches of a desk.
const MAX_MATCHES: usize = 1_024;

/// A new manager allocates memory for this many matches.
const FIRST_ROOM: usize = 8;

/// A fixed list of games, and matches of these games in the order of opening. No match is ever removed.
#[derive(Drop)]
pub struct Manager<G: Game> {
    games: Vec<G>,
    matches: IndexMap<Vec<u8>, Slot<G>>,
}

impl<G: Game> Model for Manager<G> {
    ghost use Rattle.match_desk.specs.ManagerValue.{ManagerValue};
    ghost use Rattle.match_desk.specs.Internal.Slots.{desk_matches, AreKept};

    ghost Value = { ManagerValue G G.Move };

    ghost view = { λ m. record { games = m.games.items; matches = desk_matches m.matches.entries } };

    ghost invariant = { λ m. AreKept G.rules m.games.items m.matches.entries };
}

impl<G: Game> Manager<G> {
    /// Creates a manager of these games, without matches. Games are numbered from 0.
    pub fn new(alloc: Global, games: Vec<G>) -> Result<Manager<G>, AllocError>
    where
        G: Drop,
        ensures { IfOk result (λ m. m ≡ record { games = games.items; matches = [] }) }
    {
        let matches = IndexMap::with_capacity(alloc, FIRST_ROOM)?;
        Ok(Manager { games, matches })
    }

    /// The number of matches.
    pub fn matches(&self) -> usize
        ensures count { result ≡ length self.now.matches }

        // The invariant of the type.
        ensures lawful { IsLawfulManager G.rules self.now }
    {
        self.matches.len()
    }

    /// The match with this index in the order of opening, counted from 0.
    pub fn match_at(&self, place: usize) -> Option<&Match<G>>
        ensures { option_copied result ≡ option_and_then (game_match self.now) (slice_get self.now.matches place) }
    {
        let (_, slot) = self.matches.get_index(place)?;
        Some(&slot.held)
    }

    /// The match with this id. Ids are compared byte for byte.
    pub fn find(&self, id: &[u8]) -> Option<&Match<G>>
        ensures { option_copied result ≡ match_with_id self.now id.now }
    {
        let (_, held) = self.game_and_match(id)?;
        Some(held)
    }

    /// The game of the match with this index in the order of opening.
    pub fn game_of_match(&self, place: usize) -> Option<&G>
        ensures { option_copied result ≡ option_and_then (game_of self.now) (slice_get self.now.matches place) }
    {
        let (_, slot) = self.matches.get_index(place)?;
        self.games.get(slot.game)
    }

    /// The game with this number.
    pub fn game(&self, number: usize) -> Option<&G>
        ensures { option_copied result ≡ slice_get self.now.games number }
    {
        self.games.get(number)
    }

    fn game_and_match(&self, id: &[u8]) -> Option<(&G, &Match<G>)>
        ensures found { option_map (λ r. r.1.now) result ≡ match_with_id self.now id.now }
        ensures game { IfSome result (λ r. r.1.now.game ≡ r.0.now) }
    {
        let slot = self.matches.get(id)?;
        Some((&self.games[slot.game], &slot.held))
    }

    fn has_match(&self, id: &[u8]) -> bool
        ensures { result ≡ is_some (match_of self.now id.now) }
    {
        self.matches.contains_key(id)
    }

    /// The first reason why the manager cannot open a match, or `None` if it can.
    fn open_refusal(&self, asked: &AskedSetup<'_>) -> Option<Refusal>
        ensures { result ≡ open_refusal G.rules self.now asked.now.game (asked_setup asked.now) }
    {
        let players = asked.players.as_slice();
        if !is_name(asked.id.as_slice()) {
            return Some(Refusal::BadId);
        }
        if self.has_match(asked.id.as_slice()) {
            return Some(Refusal::IdUsed);
        }
        let Some(game) = self.game(asked.game) else {
            return Some(Refusal::NoGame);
        };
        if players.len() != game.roles() {
            return Some(Refusal::WrongPlayers);
        }
        if !are_names(players) {
            return Some(Refusal::BadName);
        }
        if !are_clocks(asked.start, asked.play) {
            return Some(Refusal::BadClock);
        }
        if !is_strikes(asked.strikes) {
            return Some(Refusal::BadStrikes);
        }
        if self.matches() >= MAX_MATCHES {
            return Some(Refusal::DeskFull);
        }
        None
    }

    fn open_reply(&self, asked: &AskedSetup<'_>) -> Reply
        ensures { result ≡ refused_or (open_refusal G.rules self.now asked.now.game (asked_setup asked.now)) Opened }
    {
        match self.open_refusal(asked) {
            Some(refusal) => Reply::Refused(refusal),
            None => Reply::Opened,
        }
    }

    /// Opens a match unless there is a refusal.
    fn open(&mut self, alloc: Global, asked: &AskedSetup<'_>) -> Result<(), AllocError>
        ensures ok { OnOk result (self.new ≡ after_open G.rules self.old asked.now.game (asked_setup asked.now)) }
        ensures err { OnErr result (self.new ≡ self.old) }
        ensures accepted { OnErr result (open_refusal G.rules self.old asked.now.game (asked_setup asked.now) ≡ None) }
    {
        new_match_is_lawful::<G>();
        if self.open_refusal(asked).is_some() {
            return Ok(());
        }
        let id = Vec::from_slice(alloc, asked.id.as_slice())?;
        let setup = asked.setup(alloc)?;
        let held = Match::new(alloc, &self.games[asked.game], setup)?;
        self.matches.insert(
            id,
            Slot {
                game: asked.game,
                held,
            },
        )?;
        Ok(())
    }

    fn next_reply(&self, alloc: Global, id: &[u8], role: usize) -> Result<Reply, AllocError>
        ensures reply { IfOk result (λ r. r ≡ reply_of G.rules self.now id.now (next_reply role)) }
        ensures accepted { OnErr result (is_refused (reply_of G.rules self.now id.now (next_reply role)) ≡ false) }
        ensures memory { OnErr result (CarriesTexts (reply_of G.rules self.now id.now (next_reply role))) }
    {
        match self.game_and_match(id) {
            Some((game, held)) => slot::next_reply(alloc, game, held, role),
            None => Ok(Reply::Refused(Refusal::NoMatch)),
        }
    }

    fn answer_reply(&self, id: &[u8], role: usize, round: u64) -> Reply
        ensures { result ≡ reply_of G.rules self.now id.now (answer_reply role round) }
    {
        match self.game_and_match(id) {
            Some((_, held)) => slot::answer_reply(held, role, round),
            None => Reply::Refused(Refusal::NoMatch),
        }
    }

    fn query_reply(&self, id: &[u8]) -> Reply
        ensures { result ≡ reply_of G.rules self.now id.now query_reply }
    {
        match self.game_and_match(id) {
            Some((_, held)) => slot::query_reply(held),
            None => Reply::Refused(Refusal::NoMatch),
        }
    }

    fn abort_reply(&self, id: &[u8]) -> Reply
        ensures { result ≡ reply_of G.rules self.now id.now abort_reply }
    {
        match self.game_and_match(id) {
            Some((_, held)) => slot::abort_reply(held),
            None => Reply::Refused(Refusal::NoMatch),
        }
    }

    /// Passes an answer to a match.
    fn take_answer(
        &mut self,
        alloc: Global,
        id: &[u8],
        role: usize,
        round: u64,
        given: &LentAnswer<'_>,
    ) -> Result<(), AllocError>
        ensures ok { OnOk result (self.new ≡ with_change G.rules self.old id.now (λ g m. after_answer g m role round (answer_lent given.now))) }
        ensures err { OnErr result (self.new ≡ self.old) }
        ensures accepted { OnErr result (is_refused (reply_of G.rules self.old id.now (answer_reply role round)) ≡ false) }
        ensures memory { OnErr result (AnswerWantsMemory G.rules self.old id.now role) }
    {
        answers_keep_lawful::<G>();
        let Some(slot) = self.matches.get_mut(id) else {
            return Ok(());
        };
        let game = &self.games[slot.game];
        slot::take_answer(alloc, game, &mut slot.held, role, round, given)
    }

    fn take_abort(&mut self, id: &[u8])
        ensures { self.new ≡ with_change G.rules self.old id.now after_abort }
    {
        abort_keeps_lawful::<G>();
        let Some(slot) = self.matches.get_mut(id) else {
            return;
        };
        slot::take_abort(&mut slot.held);
    }
}

impl<G: Game> Object for Manager<G> {
    ghost use Rattle.std.specs.Prelude.{refl};
    ghost use Rattle.match_desk.specs.ManagerValue.{opening};
    ghost use Rattle.match_desk.specs.Steps.{reply, after};
    ghost use Rattle.match_desk.specs.Internal.StepLaws.{opening-after};

    type Call = Call;

    type Reply = Reply;

    ghost reply = { λ d call. reply G.rules d call };

    ghost after = { λ d call. after G.rules d call };

    ghost opening = { opening };

    fn answer(&self, alloc: Global, call: &Call) -> Result<Reply, AllocError>
        ensures reply { IfOk result (λ r. r ≡ reply G.rules self.now call.now) }
        // A refused call needs no memory. An accepted call needs memory only if its reply has the texts of moves.
        ensures accepted { OnErr result (is_refused (reply G.rules self.now call.now) ≡ false) }
        ensures memory { OnErr result (CarriesTexts (reply G.rules self.now call.now)) }
    {
        match call {
            Call::Open { .. } => Ok(self.open_reply(&AskedSetup::of(call))),
            Call::Next { id, role } => self.next_reply(alloc, id.as_slice(), *role),
            Call::Submit {
                id,
                role,
                round,
                ..
            } => Ok(self.answer_reply(id.as_slice(), *role, *round)),
            Call::Miss {
                id,
                role,
                round,
                ..
            } => Ok(self.answer_reply(id.as_slice(), *role, *round)),
            Call::Query { id } => Ok(self.query_reply(id.as_slice())),
            Call::Abort { id } => Ok(self.abort_reply(id.as_slice())),
        }
    }

    fn apply(&mut self, alloc: Global, call: &Call) -> Result<(), AllocError>
        ensures ok { OnOk result (self.new ≡ after G.rules self.old call.now) }
        ensures err { OnErr result (self.new ≡ self.old) }
        // A refused call needs no memory. An accepted call needs memory only if it opens a match or adds an answer to a
        // turn.
        ensures accepted { OnErr result (is_refused (reply G.rules self.old call.now) ≡ false) }
        ensures memory { OnErr result (WantsMemory G.rules self.old call.now) }
    {
        match call {
            Call::Open { .. } => self.open(alloc, &AskedSetup::of(call)),
            Call::Submit {
                id,
                role,
                round,
                text,
            } => {
                let given = LentAnswer::Text(text);
                self.take_answer(alloc, id.as_slice(), *role, *round, &given)
            }
            Call::Miss {
                id,
                role,
                round,
                broken,
            } => {
                let given = slot::missed(*broken);
                self.take_answer(alloc, id.as_slice(), *role, *round, &given)
            }
            Call::Abort { id } => {
                self.take_abort(id.as_slice());
                Ok(())
            }
            Call::Next { .. } | Call::Query { .. } => Ok(()),
        }
    }

    fn copy_call(alloc: Global, call: &Call) -> Result<Call, AllocError> {
        copied_call(alloc, call)
    }

    ghost keeps_opening = { opening-after G.rules };

    ghost opening_is_own = { λ d. refl };
}
