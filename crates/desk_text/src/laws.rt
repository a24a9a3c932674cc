//! Laws about the texts of call logs, for every desk.
ghost use Rattle.std.specs.Prelude.{◌≡◌, List, Some, true};
ghost use Rattle.std.specs.List.{AllByRecursion};
ghost use Rattle.std.specs.Str.Lines.{lines};
ghost use Rattle.call_history.specs.declared.journal.Entry.{Entry};
ghost use Rattle.desk_calls.specs.declared.call.Call.{Call};
ghost use Rattle.desk_text.specs.Account.{IsCall, IsEntry, Tell, account_call, call_text, entry_text, history_text};
ghost use Rattle.desk_text.specs.AccountLines.{HasReplyNumbers, is_account_line};

/// If the fields of a call fit their types, the call can be read from its text. So different calls have different texts.
pub fn calls_are_read()
    ensures { (call : Call) → IsCall call → account_call (call_text call) ≡ Some call }
{}

/// If all fields of the entries fit their types, the lines of a history's text are the texts of its entries, and each
/// entry's call and line of the desk can be read from its text.
pub fn histories_are_read()
    ensures { (history : List (Entry _ _)) → AllByRecursion IsEntry history → Tell (lines (history_text history)) history }
{}

/// If the fields of an entry fit their types, the entry's text has the form that `is_account_line` recognizes. So this text
/// is never mistaken for a record.
pub fn entries_have_their_form()
    ensures { (e : _) → IsEntry e → HasReplyNumbers e.reply → is_account_line (entry_text e) ≡ true }
{}
