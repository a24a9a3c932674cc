//! Lists of packed rules.
use crate::rules::{MoveTest, RuleSize, Test};
use numbered_rules::numbered::Literal;

/// Packed rules in order. The literals of all rules are in one list for each kind, because a pass over one list is much
/// faster than a pass over one list for each rule.
#[derive(Drop)]
pub struct RuleTable {
    pub(crate) rules: Vec<RuleSize>,
    pub(crate) tests: Vec<Test>,
    pub(crate) moves: Vec<MoveTest>,
    pub(crate) others: Vec<Literal>,
}
