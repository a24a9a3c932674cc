//! Reports why players gave no answer.

use match_plans::PlayerAddress;
use network_players::ContactFault;
use std::fmt::Write as _;
use std::io::Write;
use whole_streams::Pieces;

/// The stream for the reasons why players gave no answer, and whether to write them.
#[derive(Drop)]
pub struct Reasons<E> {
    pub errors: E,
    pub are_wanted: bool,
}

impl<E: Write> Reasons<E> {
    /// Reports why a player gave no answer. Ignores errors of the stream.
    pub(crate) fn report(&mut self, player: &PlayerAddress<'_>, fault: ContactFault) {
        if self.are_wanted {
            write_reason(&mut self.errors, player, fault);
        }
    }
}

fn write_reason<E: Write>(errors: &mut E, player: &PlayerAddress<'_>, fault: ContactFault) {
    let mut pieces = Pieces { stream: errors };
    let _ = writeln!(pieces, "ggp_manager: {}: {fault}", player.name);
}
