//! Laws about reading the text of a message.
ghost use Rattle.match_messages.specs.MessageLaws.{MessagesReadBack, OwedMessagesReadBack};

use desk_calls::laws::names_are_atoms;
use game_core::laws::numerals_read_back;
use kif_text::laws::canonical_reads_back;

/// Reading the text of a lawful message gives the message with its role, rules and moves in lower case, if the text is
/// within the limits of length and depth.
pub fn messages_read_back()
    ensures { MessagesReadBack }
{
    names_are_atoms();
    numerals_read_back();
    canonical_reads_back();
}

/// Reading the text of an owed message gives the content of the message for the role, with its role, rules and moves in
/// lower case. The role's name and the texts of the moves must be canonical, and the message's text must be within the limits.
pub fn owed_messages_read_back()
    ensures { OwedMessagesReadBack }
{
    messages_read_back();
}
