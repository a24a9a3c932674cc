//! The setup that an `Open` carries.
ghost use Rattle.std.specs.Prelude.{◌≡◌, ◌≤◌, IfOk};
ghost use Rattle.desk_calls.specs.Names.{max_strikes};
ghost use Rattle.match_desk.specs.Steps.{open_call};
ghost use Rattle.match_desk.specs.Internal.AskedSetups.{asked_setup, IsOpen};

use desk_calls::{Call, Setup};
use game_core::{Text, Texts};
use std::alloc::{AllocError, Global};

/// The setup that an `Open` asks for, and the number of its game. It borrows the call's texts.
#[derive(Clone, Copy)]
pub struct AskedSetup<'a> {
    pub id: &'a Text,
    pub game: usize,
    pub start: u32,
    pub play: u32,
    pub strikes: u32,
    pub players: &'a Texts,
}

/// Copies the texts.
pub fn copy_texts(alloc: Global, texts: &[Text]) -> Result<Texts, AllocError>
    ensures { IfOk result (λ copies. copies ≡ texts.now) }
{
    let mut items = Vec::with_capacity(alloc, texts.len())?;
    for text in texts {
        items.push(text.copy(alloc)?)?;
    }
    Ok(Texts { items })
}

/// The `Open` that asks for a match of the game with this number and with this setup.
pub fn open_call(game: usize, setup: Setup) -> Call
    ensures { result ≡ open_call game setup }
{
    Call::Open {
        id: setup.id,
        game,
        start: setup.start,
        play: setup.play,
        strikes: u32::from(setup.strikes),
        players: setup.players,
    }
}

impl<'a> AskedSetup<'a> {
    /// The setup that the call asks for.
    pub fn of(call: &'a Call) -> AskedSetup<'a>
        requires { IsOpen call.now }
        ensures { call.now ≡ open_call result.game (asked_setup result) }
    {
        match call {
            Call::Open {
                id,
                game,
                start,
                play,
                strikes,
                players,
            } => AskedSetup {
                id,
                game: *game,
                start: *start,
                play: *play,
                strikes: *strikes,
                players,
            },
            _ => unreachable!(),
        }
    }

    /// Makes an `Open` that asks for this setup, with copies of the texts.
    pub fn to_call(&self, alloc: Global) -> Result<Call, AllocError>
        ensures { IfOk result (λ call. call ≡ open_call self.now.game (asked_setup self.now)) }
    {
        let AskedSetup {
            id,
            game,
            start,
            play,
            strikes,
            players,
        } = *self;
        Ok(Call::Open {
            id: id.copy(alloc)?,
            game,
            start,
            play,
            strikes,
            players: copy_texts(alloc, players.as_slice())?,
        })
    }

    /// Makes the setup of the match, with copies of the texts.
    pub fn setup(&self, alloc: Global) -> Result<Setup, AllocError>
        requires { self.now.strikes ≤ max_strikes }
        ensures { IfOk result (λ setup. setup ≡ asked_setup self.now) }
    {
        let id = self.id.copy(alloc)?;
        let players = copy_texts(alloc, self.players.as_slice())?;
        Ok(Setup {
            id,
            start: self.start,
            play: self.play,
            strikes: self.strikes as u8,
            players,
        })
    }
}
