//! Laws about the expressions that a text spells, canonical texts, errors, and lower case.
ghost use Rattle.kif_text.specs.Laws.{SpellsAtMostOne, SpelledHasAtoms, CanonicalSpellsAlone, CanonicalUnderDouble, SpelledOrFaulty, OneSpelledOrFaulty, OneFaultAtMost, BareHidesComments, FoldingCommutesWithPrinting, FoldingKeepsProper, FoldingTwiceIsOnce, ReadingIsSpelling, ReadingIsProper, ReadingUnderDouble, CanonicalReadsBack, FoldedTextReadsBack};

/// A text spells at most one list of expressions.
pub fn spells_at_most_one()
    ensures { SpellsAtMostOne }
{}

/// All atoms of the expressions that a text spells are non-empty runs of atom bytes.
pub fn spelled_has_atoms()
    ensures { SpelledHasAtoms }
{}

/// The canonical text of a proper expression spells this expression and no other.
pub fn canonical_spells_alone()
    ensures { CanonicalSpellsAlone }
{}

/// If a text spells one expression, the canonical text of this expression is shorter than twice the text.
pub fn canonical_under_double()
    ensures { CanonicalUnderDouble }
{}

/// For each limit of bytes, a text either spells expressions within the limits or has an error, never both.
pub fn spelled_or_faulty()
    ensures { SpelledOrFaulty }
{}

/// A text either spells one expression within the limits or has an error, never both.
pub fn one_spelled_or_faulty()
    ensures { OneSpelledOrFaulty }
{}

/// For each limit of bytes, a text has at most one error apart from `Memory`.
pub fn one_fault_at_most()
    ensures { OneFaultAtMost }
{}

/// The bare text is the text with a space in place of each byte of a comment. Offsets refer to the bare text.
pub fn bare_hides_comments()
    ensures { BareHidesComments }
{}

/// Converting to lower case and printing can be done in either order.
pub fn folding_commutes_with_printing()
    ensures { FoldingCommutesWithPrinting }
{}

/// A proper expression is still proper in lower case.
pub fn folding_keeps_proper()
    ensures { FoldingKeepsProper }
{}

/// Converting to lower case twice is the same as converting once.
pub fn folding_twice_is_once()
    ensures { FoldingTwiceIsOnce }
{}

/// The reading of a text is the one expression that the text spells within the limits of length and depth. A text that does
/// not spell one expression within them has no reading.
pub fn reading_is_spelling()
    ensures { ReadingIsSpelling }
{}

/// The reading of a text is proper, and it is still proper in lower case.
pub fn reading_is_proper()
    ensures { ReadingIsProper }
{}

/// The canonical text of a reading, in lower case or not, is shorter than twice the text.
pub fn reading_under_double()
    ensures { ReadingUnderDouble }
{}

/// Reading the canonical text of a proper expression gives that expression, if the text is not too long.
pub fn canonical_reads_back()
    ensures { CanonicalReadsBack }
{}

/// Reading a lower-case text gives the lower-case expression that has this canonical text, if the text is not too long.
pub fn folded_text_reads_back()
    ensures { FoldedTextReadsBack }
{}
