//! Laws about taking the lines of a text one after another, for every input.
ghost use Rattle.whole_streams.specs.Laws.{LastLineIsTaken, NextLineIsTaken};

/// The lines that are taken from a text one after another are the lines of the text: each ends at a line feed, and the
/// last one at the end of the text.
pub fn lines_are_taken()
    ensures next { NextLineIsTaken }
    ensures last { LastLineIsTaken }
{}
