//! Resources that the referee itself may lack, for example memory or ports. A player is not penalised for this.
ghost use Rattle.std.specs.Prelude.{ℕ, IfNone};

use thiserror::Error;

/// A resource that the referee lacks, so that it cannot send a message to a player.
#[derive(Clone, Copy, Debug, PartialEq, Eq, Error)]
pub enum Shortage {
    /// The process or the system has too many open file descriptors.
    #[error("out of descriptors")]
    Descriptors,
    /// No port is free for the referee's end of a connection.
    #[error("out of ports")]
    Ports,
    #[error("out of memory")]
    Memory,
    /// The clock cannot be read.
    #[error("no clock")]
    Clock,
    /// The name of a host could not be looked up, for a reason that has nothing to do with the host.
    #[error("no answer from the resolver")]
    Resolver,
    /// This computer's network is down, has no route to the player, has no address of the player's address family, or
    /// forbids the connection.
    #[error("no network")]
    Network,
    /// The referee was not running for some time while it sent the request, and in that time the player
    /// closed the connection.
    #[error("no processor")]
    Processor,
}

/// Reports which resource the referee lacked in a match. If it lacked one, the match has no record, because a wrong or
/// missing answer may not be the player's fault.
pub trait ReportsShortages {
    /// The reporter has said that the referee lacked no resource in the match with this index.
    ghost is_clear: { Self → ℕ → Type 0 };

    /// The resource that the referee lacked in the match with this index, if any. This is known when the match is over.
    fn shortage(&self, place: usize) -> Option<Shortage>
        ensures { IfNone result (is_clear self.now place) };
}
