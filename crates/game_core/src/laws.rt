//! Laws about the decimal texts of numbers.
ghost use Rattle.game_core.specs.Laws.{NumbersAreAtoms, NumbersArePlain, NumbersReadBack};

/// The decimal text of a number below 2^64 is an atom and a plain numeral of that number. For a limit below 2^64, a word
/// is read as a number if and only if the number is within the limit and the word is its decimal text.
pub fn numerals_read_back()
    ensures atoms { NumbersAreAtoms }
    ensures plain { NumbersArePlain }
    ensures read_back { NumbersReadBack }
{}
