//! Complete matches of Countdown between players in memory.
use crate::calls::{text, texts};
use crate::holding::holds;
use game_core::{Countdown, Take};
use match_book::{Answer, Match, Phase, Setup};
use match_workers::{Player, Refereed, referee};
use std::alloc::{AllocError, Global};
use std::process::Abort;
use std::sync::Wait;
use std::sync::atomic::{AtomicU64, Ordering};
use std::thread;
use std::thread::Threads;
use std::time::{Clock, Duration};

/// How many times a player checks whether the other player has got a message.
const LOOKS: u32 = 2_000;

/// The largest number of tries of the thread that attends a role.
const TRIES: u64 = 100_000;

/// The reaction of a player that must answer.
#[derive(Clone, Copy)]
enum Act {
    Say(&'static str),
    Break,
    Wait,
}

/// A player that answers PLAY with `play`, and START and STOP as it should. It counts its messages in a counter that
/// other players can read. If it does not see that another player got a message, it does not answer START.
#[derive(Drop)]
struct ReadyPlayer<'a, C> {
    clock: &'a C,
    alloc: Global,
    play: Act,
    messages: &'a AtomicU64,
    awaited: &'a AtomicU64,
}

impl<C: Clock> ReadyPlayer<'_, C> {
    fn sees_the_other(&self) -> bool {
        for _ in 0..LOOKS {
            if self.awaited.load(Ordering::SeqCst) > 0 {
                return true;
            }
            thread::sleep(self.clock, Duration::from_millis(1));
        }
        false
    }
}

impl<C: Clock> Player for ReadyPlayer<'_, C> {
    ghost use Rattle.std.specs.Prelude.{None};

    ghost handed = { λ p. None };

    fn ask(&mut self, _seconds: u32, _body: &[u8]) -> Answer {
        let before = self.messages.fetch_add(1, Ordering::SeqCst);
        if before == 0 && !self.sees_the_other() {
            return Answer::Silent;
        }
        let act = match before {
            0 => Act::Say("READY"),
            1 => self.play,
            _ => Act::Say("DONE"),
        };
        answer(self.alloc, act)
    }

    fn rest(&mut self) {
        thread::sleep(self.clock, Duration::from_micros(10));
    }
}

fn answer(alloc: Global, act: Act) -> Answer {
    match act {
        Act::Say(word) => match text(alloc, word) {
            Ok(said) => Answer::Text(said),
            Err(_) => Answer::Silent,
        },
        Act::Break => Answer::Broken,
        Act::Wait => Answer::Silent,
    }
}

/// The players of red and blue. Red waits for blue. Blue does not wait for red: it waits for its own first message.
fn red_and_blue<'a, C>(
    clock: &'a C,
    alloc: Global,
    plays: [Act; 2],
    red: &'a AtomicU64,
    blue: &'a AtomicU64,
) -> Result<Vec<ReadyPlayer<'a, C>>, AllocError> {
    let mut players = Vec::new(alloc);
    for (play, messages) in [(plays[0], red), (plays[1], blue)] {
        players.push(ReadyPlayer {
            clock,
            alloc,
            play,
            messages,
            awaited: blue,
        })?;
    }
    Ok(players)
}

fn setup(alloc: Global) -> Result<Setup, AllocError> {
    Ok(Setup {
        id: text(alloc, "m")?,
        start: 1,
        play: 1,
        strikes: 0,
        players: texts(alloc, &["ann", "bob"])?,
    })
}

/// Plays a match of Countdown with a heap of one. Red and blue answer PLAY with these acts.
fn refereed<R: Threads + Wait + Clock + Abort + Sync>(
    rt: &R,
    alloc: Global,
    red: Act,
    blue: Act,
) -> Refereed<Countdown> {
    let (first, second) = (AtomicU64::new(0), AtomicU64::new(0));
    let Some(game) = Countdown::new(1) else {
        panic!(rt; "no such game");
    };
    let Ok(setup) = setup(alloc) else {
        panic!(rt; "no memory");
    };
    let Ok(players) = red_and_blue(rt, alloc, [red, blue], &first, &second) else {
        panic!(rt; "no memory");
    };
    assert!(rt; players.len() == setup.players.as_slice().len());
    let Ok(refereed) = referee(rt, alloc, game, setup, Vec::new(alloc), players, TRIES) else {
        panic!(rt; "not refereed");
    };
    refereed
}

/// Checks that red has won a match of one turn, and that the moves of this turn have these errors.
fn check_match<R: Abort>(rt: &R, held: &Match<Countdown>, errors: [&str; 2]) {
    let status = held.status();
    holds(rt, status.phase == Phase::Finished, "the phase");
    assert!(rt; status.turns == 1);
    let goals = (held.goal_of(0), held.goal_of(1));
    holds(rt, goals == (Some(100), Some(0)), "the goals");
    let moves = (*held.move_at(0, 0), *held.move_at(0, 1));
    holds(rt, moves == (Take::One, Take::Noop), "the moves");
    for role in 0..2 {
        let mark = held.start_mark(role);
        holds(rt, mark == Some(b"".as_slice()), "a mark of START");
        let error = held.error_at(0, role);
        holds(rt, error == errors[role].as_bytes(), "an error");
    }
}

#[test]
fn roles_are_attended_at_once(rt: HostRuntime) {
    let (red, blue) = (Act::Say("(take 1)"), Act::Say("noop"));
    let refereed = refereed(&rt, rt.alloc(), red, blue);
    let ends = refereed.ends.as_slice();
    holds(&rt, ends == [Ok(3), Ok(3)].as_slice(), "the messages");
    let (_, held) = refereed.game_and_match();
    check_match(&rt, held, ["", ""]);
}

#[test]
fn missing_answers_are_replaced(rt: HostRuntime) {
    let refereed = refereed(&rt, rt.alloc(), Act::Break, Act::Wait);
    let (_, held) = refereed.game_and_match();
    check_match(&rt, held, ["CE", "TO"]);
}
