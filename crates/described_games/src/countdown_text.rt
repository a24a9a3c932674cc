//! The rules of Countdown as text, for players.
ghost use Rattle.std.specs.Prelude.{◌≡◌, ◌+◌, ◌++◌, IfOk, OnOk, string_bytes};
ghost use Rattle.described_games.specs.CountdownText.{countdown_text, step_rule, steps_below, steps_to};

use std::alloc::Global;
use std::fmt;
use std::fmt::Write as _;

/// The rules that are the same for every heap.
const TURNS: &str = "(role red) (role blue) (init (turn red))
(<= busy (not (true (heap 0))))
(<= (legal red (take 1)) (true (turn red)) busy)
(<= (legal red (take 2)) (true (turn red)) busy (not (true (heap 1))))
(<= (legal red noop) (true (turn blue)) busy)
(<= (legal blue (take 1)) (true (turn blue)) busy)
(<= (legal blue (take 2)) (true (turn blue)) busy (not (true (heap 1))))
(<= (legal blue noop) (true (turn red)) busy)
(<= one (or (does red (take 1)) (does blue (take 1))))
(<= two (or (does red (take 2)) (does blue (take 2))))
(<= (next (turn blue)) (true (turn red)))
(<= (next (turn red)) (true (turn blue)))
(<= terminal (true (heap 0)))
(<= (goal red 100) (true (heap 0)) (true (turn blue)))
(<= (goal red 0) (true (heap 0)) (true (turn red)))
(<= (goal blue 100) (true (heap 0)) (true (turn red)))
(<= (goal blue 0) (true (heap 0)) (true (turn blue)))
";

/// Appends the rule that a heap of `before` becomes a heap of `left` if the atom `word` is true.
fn push_step(rules: &mut String, left: u16, before: u16, word: &str) -> fmt::Result
    ensures { OnOk result (string_bytes rules.new ≡ string_bytes rules.old ++ step_rule left before word.now) }
{
    write!(
        rules,
        "(<= (next (heap {left})) (true (heap {before})) {word})\n"
    )?;
    Ok(())
}

/// Appends the rules that turn a heap of at most `size` into a heap of `left`.
fn push_steps_to(rules: &mut String, size: u8, left: u8) -> fmt::Result
    ensures { OnOk result (string_bytes rules.new ≡ string_bytes rules.old ++ steps_to size left) }
{
    let left = u16::from(left);
    push_step(rules, left, left + 1, "one")?;
    if left + 1 < u16::from(size) {
        push_step(rules, left, left + 2, "two")?;
    }
    Ok(())
}

/// Appends the rules for all heaps up to `size`.
fn push_steps(rules: &mut String, size: u8) -> fmt::Result
    ensures { OnOk result (string_bytes rules.new ≡ string_bytes rules.old ++ steps_below size size) }
{
    for left in 0..size {
        push_steps_to(rules, size, left)?;
    }
    Ok(())
}

/// The rules of Countdown with a heap of `size`, as a ground description. The only error is out of memory.
pub fn countdown_rules(alloc: Global, size: u8) -> Result<String, fmt::Error>
    ensures { IfOk result (λ rules. string_bytes rules ≡ countdown_text size) }
{
    let mut rules = String::new(alloc);
    write!(rules, "{TURNS}(init (heap {size}))\n")?;
    push_steps(&mut rules, size)?;
    Ok(rules)
}
