//! Laws about the calls of a worker and the messages that it sends.
ghost use Rattle.role_workers.specs.Attending.{MessagesAreCounted};
ghost use Rattle.role_workers.specs.Laws.{CallsAreOfTheRole, CallsHaveReplies, OwedAreHandedOver};

/// If a worker found the end of the match, and the player still shows its messages, the player shows as many new
/// messages as the worker counted.
pub fn messages_are_counted()
    ensures { MessagesAreCounted }
{}

/// A worker makes only calls of its role.
pub fn calls_are_of_the_role()
    ensures { CallsAreOfTheRole }
{}

/// A worker that found the end of its match took a reply to each of its calls.
pub fn calls_have_replies()
    ensures { CallsHaveReplies }
{}

/// A worker that found the end sent each message that the replies owed, once and in order. The last reply said that the
/// match is over.
pub fn owed_are_handed_over()
    ensures { OwedAreHandedOver }
{}
