//! Laws about ids and the names of players.
ghost use Rattle.desk_calls.specs.Laws.{NamesAreAtoms};

/// A lawful id, or a lawful name of a player, is an atom.
pub fn names_are_atoms()
    ensures { NamesAreAtoms }
{}
