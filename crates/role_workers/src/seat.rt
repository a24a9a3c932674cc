//! A role to attend.
ghost use Rattle.std.specs.Prelude.{◌<◌, length};

use crate::attend_fault::AttendFault;
use match_messages::SharedBrief;

/// A role of a match, with its player and its wire to the desk.
#[derive(Drop)]
pub struct Seat<'a, P, W> {
    pub brief: &'a SharedBrief<'a>,
    pub role: usize,
    pub player: P,
    pub wire: W,
    ghost is_role: { role < length brief.now.roles },
}

/// The result of attending a role, with its wire and its player.
#[derive(Drop)]
pub struct Attended<P, W> {
    pub wire: W,
    pub end: Result<u64, AttendFault>,
    pub player: P,
}
