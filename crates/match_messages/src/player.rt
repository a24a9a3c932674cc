//! The players of a match.
ghost use Rattle.std.specs.Prelude.{◌≡◌, [], ◌∷◌, List, Option, IfOk, OnErr};
ghost use Rattle.match_messages.specs.Handing.{Handed, MayKeep};

use desk_calls::Answer;
use shared_text::SharedText;
use std::alloc::{AllocError, Global};

/// The player of a role: it receives messages and answers them.
///
/// A player *shows* its messages if contracts can name the messages that it received. A player in memory shows its
/// messages; a player on the network does not. A player that runs out of memory for storing a message shows no messages
/// from then on.
pub trait Player {
    /// The messages that the player received, with its answers, in order, or `None` if the player does not show them.
    ghost handed: { Self → Option (List Handed) };

    /// Sends the player a message and waits for the answer. If none has come after `seconds` seconds, the answer is
    /// `Silent`.
    fn ask(&mut self, seconds: u32, body: &[u8]) -> Answer
        ensures { MayKeep (handed self.old) (handed self.new) (record { seconds = seconds; body = body.now; answer = result } ∷ []) };

    /// Like `ask`, with a message that shares a part with other messages. A player that needs the message in one piece
    /// joins the parts first; if there is no memory for that, the player receives nothing.
    fn ask_shared(
        &mut self,
        alloc: Global,
        seconds: u32,
        message: &SharedText<'_>,
    ) -> Result<Answer, AllocError>
        ensures told { IfOk result (λ answer. MayKeep (handed self.old) (handed self.new) (record { seconds = seconds; body = message.now; answer = answer } ∷ [])) }
        ensures nothing { OnErr result (handed self.new ≡ handed self.old) }
    {
        let body = message.joined(alloc)?;
        Ok(self.ask(seconds, body.as_slice()))
    }

    /// Waits a while. A worker calls this when the match owes nothing to the role.
    fn rest(&mut self)
        ensures { handed self.new ≡ handed self.old };

    /// Notifies the player that no further message comes, because the role's part of the match is over. Players of other
    /// roles may wait for this signal.
    fn leave(&mut self)
        ensures { handed self.new ≡ handed self.old }
    {}
}
