//! Laws about the bodies that bytes carry, and about results for the bytes read so far.
ghost use Rattle.http_exchange.specs.WireLaws.{LooksStay, FoundIsCarried, CarriedIsFound, CarriesOneAtMost, CarriedHasNoFault, ReplyIsCarried, RequestIsCarried};

/// A result other than `More` stays the same when more bytes come, unless the bytes are undecided.
pub fn looks_stay()
    ensures { LooksStay }
{}

/// If a body is found in the bytes, the bytes carry it.
pub fn found_is_carried()
    ensures { FoundIsCarried }
{}

/// If the bytes carry a body, the only possible result is the position of this body.
pub fn carried_is_found()
    ensures { CarriedIsFound }
{}

/// Bytes carry at most one body.
pub fn carries_one_at_most()
    ensures { CarriesOneAtMost }
{}

/// If the bytes carry a body, the only possible error is out of memory.
pub fn carried_has_no_fault<S>()
    ensures { CarriedHasNoFault S }
{}

/// The reply that `give_reply` writes carries its body, if the body is within the limit.
pub fn reply_is_carried()
    ensures { ReplyIsCarried }
{}

/// The request that `exchange` writes carries its body, if the body and the player's name are within their limits.
pub fn request_is_carried()
    ensures { RequestIsCarried }
{}
