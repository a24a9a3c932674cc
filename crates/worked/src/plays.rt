//! Turns that are played in Countdown, and the heaps of Countdown.
use crate::holding::holds;
use game_core::{Countdown, Joint, PlayFault, Position, Side, Take, play_list};
use std::alloc::{AllocError, Global};
use std::test::Fail;

fn joints(alloc: Global, turns: &[&[Take]]) -> Result<Vec<Joint<Take>>, AllocError> {
    let mut all = Vec::new(alloc);
    for turn in turns {
        let moves = Vec::from_slice(alloc, turn)?;
        all.push(Joint { moves })?;
    }
    Ok(all)
}

/// Whether the turns lead from a heap of three to this position, or to this error.
fn leads_to(
    alloc: Global,
    game: &Countdown,
    turns: &[&[Take]],
    wanted: Result<Position, PlayFault>,
) -> Result<bool, AllocError> {
    let turns = joints(alloc, turns)?;
    Ok(play_list(alloc, game, turns.as_slice()) == wanted)
}

#[test]
fn turns_are_played_or_refused(rt: HostRuntime) -> Result<(), Fail> {
    use Take::{Noop, One, Two};
    let table: [(&[&[Take]], Result<Position, PlayFault>); 4] = [
        (
            &[&[One, Noop]],
            Ok(Position {
                heap: 2,
                on_turn: Side::Blue,
            }),
        ),
        (
            &[&[Two, Noop], &[Noop, One], &[One, Noop]],
            Err(PlayFault::AfterEnd { turn: 2 }),
        ),
        (&[&[One]], Err(PlayFault::WrongWidth { turn: 0 })),
        (
            &[&[Noop, Noop]],
            Err(PlayFault::Illegal { turn: 0, role: 0 }),
        ),
    ];
    let game = Countdown::new(3).ok_or("no such game")?;
    for (turns, wanted) in table {
        holds(&rt, leads_to(rt.alloc(), &game, turns, wanted)?, "turns");
    }
    Ok(())
}

#[test]
fn heaps_are_one_to_a_hundred(rt: HostRuntime) {
    for (size, is_some) in [(0, false), (1, true), (100, true), (101, false)] {
        holds(&rt, Countdown::new(size).is_some() == is_some, "a heap");
    }
}
