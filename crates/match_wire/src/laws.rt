//! Laws about messages, exchanges and records.
pub use http_exchange::laws::{
    carried_has_no_fault, carried_is_found, carries_one_at_most, found_is_carried, looks_stay,
    reply_is_carried, request_is_carried,
};
pub use match_messages::laws::{messages_read_back, owed_messages_read_back};
pub use match_record::laws::{
    holds_one_parts_at_most, lawful_parts_have_shape, record_tree_holds_parts, records_are_lawful,
    refused_is_unlawful,
};
