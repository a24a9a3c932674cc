//! The desk's side of a line over rings.
use rtrb::{Consumer, Producer};

/// The desk's ends of the two rings of a line, and a call that has arrived but could not be made yet.
#[derive(Drop)]
pub struct Port<C, R> {
    pub calls: Consumer<C>,
    pub replies: Producer<R>,
    pub kept: Option<C>,
}
