//! Laws about the texts and trees of all records, from `record_reading`.
pub use record_reading::laws::{
    holds_one_parts_at_most, lawful_parts_have_shape, record_tree_holds_parts, records_are_lawful,
    refused_is_unlawful,
};
