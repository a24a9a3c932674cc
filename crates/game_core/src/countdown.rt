//! Countdown: a small game for two roles.
ghost use Rattle.std.specs.Prelude.{◌≡◌, ◌≤◌, ◌↔◌, IsSome, IfSome};
ghost use Rattle.game_core.specs.Countdown.{max_heap};

use crate::game::Game;
use std::alloc::{AllocError, Global};
use std::borrow::CowSlice;

const ROLES: usize = 2;

const MAX_HEAP: u8 = 100;

/// Two roles, `red` and `blue`, alternately take one or two from a heap; red begins. If a role must move when the heap is
/// empty, it loses: its goal is 0, and the other role's is 100.
#[derive(Drop)]
pub struct Countdown {
    pub size: u8,
    pub ghost some: { 1 ≤ size },
    pub ghost few: { size ≤ max_heap },
}

/// A move.
#[derive(Clone, Copy, Debug, PartialEq, Eq)]
pub enum Take {
    /// `noop`: a role's only legal move when it is not the role's turn.
    Noop,
    /// `(take 1)`.
    One,
    /// `(take 2)`, if the heap has at least 2.
    Two,
}

/// The two roles. Red is role 0 and begins; blue is role 1.
#[derive(Clone, Copy, Debug, PartialEq, Eq)]
pub enum Side {
    Red,
    Blue,
}

/// A state: the size of the heap, and the role to move.
#[derive(Clone, Copy, Debug, PartialEq, Eq)]
pub struct Position {
    pub heap: u8,
    pub on_turn: Side,
}

impl Countdown {
    /// Returns the game that starts with a heap of `size`, or `None` if `size` is not 1 to 100.
    pub fn new(size: u8) -> Option<Countdown>
        ensures some { IsSome result ↔ ((1 ≤ size) × (size ≤ max_heap)) }
        ensures value { IfSome result (λ g. g.size ≡ size) }
    {
        if size >= 1 && size <= MAX_HEAP {
            Some(Countdown { size })
        } else {
            None
        }
    }
}

impl Take {
    ghost use Rattle.game_core.specs.Countdown.{count_of};

    fn count(self) -> u8
        ensures { result ≡ count_of self }
    {
        match self {
            Take::Noop => 0,
            Take::One => 1,
            Take::Two => 2,
        }
    }
}

impl Side {
    ghost use Rattle.game_core.specs.Countdown.{side_of, role_of, other_side, side_name, turn_text};

    fn of_role(role: usize) -> Side
        ensures { result ≡ side_of role }
    {
        match role {
            0 => Side::Red,
            _ => Side::Blue,
        }
    }

    fn role(self) -> usize
        ensures { result ≡ role_of self }
    {
        match self {
            Side::Red => 0,
            Side::Blue => 1,
        }
    }

    fn other(self) -> Side
        ensures { result ≡ other_side self }
    {
        match self {
            Side::Red => Side::Blue,
            Side::Blue => Side::Red,
        }
    }

    fn name(self) -> &'static str
        ensures { result.now ≡ side_name self }
    {
        match self {
            Side::Red => "red",
            Side::Blue => "blue",
        }
    }

    /// The term for the role to move, in the text of a state.
    fn term(self) -> &'static [u8]
        ensures { result.now ≡ turn_text self }
    {
        match self {
            Side::Red => b"(turn red)",
            Side::Blue => b"(turn blue)",
        }
    }
}

impl Game for Countdown {
    ghost use Rattle.game_core.specs.Countdown.{countdown};
    ghost use Rattle.game_core.specs.Internal.CountdownLaws.{countdown_laws};

    type State = Position;

    type Move = Take;

    ghost rules = { λ g. countdown g.size };

    ghost laws = { λ g. countdown_laws g.size g.few };

    fn roles(&self) -> usize {
        ROLES
    }

    fn role_name(&self, role: usize) -> &[u8] {
        Side::of_role(role).name().as_bytes()
    }

    fn initial(&self, alloc: Global) -> Result<Position, AllocError> {
        Ok(Position {
            heap: self.size,
            on_turn: Side::Red,
        })
    }

    fn legal(&self, alloc: Global, state: &Position, role: usize) -> Result<Vec<Take>, AllocError> {
        let mut moves = Vec::new(alloc);
        if state.heap == 0 {
            return Ok(moves);
        }
        if state.on_turn.role() == role {
            moves.push(Take::One)?;
            if state.heap >= 2 {
                moves.push(Take::Two)?;
            }
        } else {
            moves.push(Take::Noop)?;
        }
        Ok(moves)
    }

    fn next(
        &self,
        alloc: Global,
        state: &Position,
        joint: &[Take],
    ) -> Result<Position, AllocError> {
        let taken = joint[state.on_turn.role()];
        Ok(Position {
            heap: state.heap - taken.count(),
            on_turn: state.on_turn.other(),
        })
    }

    fn terminal(&self, alloc: Global, state: &Position) -> Result<bool, AllocError> {
        Ok(state.heap == 0)
    }

    fn goal(&self, alloc: Global, state: &Position, role: usize) -> Result<Option<u8>, AllocError> {
        if state.heap != 0 {
            return Ok(None);
        }
        if state.on_turn.role() == role {
            Ok(Some(0))
        } else {
            Ok(Some(100))
        }
    }

    fn move_text(&self, taken: &Take) -> &[u8] {
        match taken {
            Take::Noop => b"noop",
            Take::One => b"(take 1)",
            Take::Two => b"(take 2)",
        }
    }

    fn state_text(
        &self,
        alloc: Global,
        state: &Position,
    ) -> Result<Vec<CowSlice<'_, u8, Global>>, AllocError> {
        let heap = format!(in alloc; "(heap {})", state.heap)?;
        let mut texts = Vec::with_capacity(alloc, 2)?;
        texts.push(CowSlice::Owned(heap.into_bytes()))?;
        texts.push(CowSlice::Borrowed(state.on_turn.term()))?;
        Ok(texts)
    }

    fn copy_state(&self, alloc: Global, state: &Position) -> Result<Position, AllocError> {
        Ok(*state)
    }

    fn copy_move(&self, alloc: Global, taken: &Take) -> Result<Take, AllocError> {
        Ok(*taken)
    }
}
