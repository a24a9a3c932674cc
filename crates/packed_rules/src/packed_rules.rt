//! Both parts of a game's rules, packed.
ghost use Rattle.std.specs.Prelude.{◌≡◌, [], IfOk, take, drop};
ghost use Rattle.ground_rules.specs.Numbered.{numbered, row_after};
ghost use Rattle.packed_rules.specs.PackedTables.{rest_of, turn_of};

use crate::bits::BitRow;
use crate::packing::pack_rules;
use crate::passing::pass;
use crate::rule_table::RuleTable;
use numbered_rules::split::SplitRules;
use std::alloc::{AllocError, Global};
use std::marker::Model;
use std::snapshot::Snapshot;

/// The rules with heads that do not depend on moves, and the others. Contracts see the rules before packing.
#[derive(Drop)]
pub struct PackedRules {
    /// The number of terms in the row of a state.
    terms: usize,
    rest: RuleTable,
    turn: RuleTable,
    plain: Snapshot<SplitRules>,
}

impl Model for PackedRules {
    ghost use Rattle.ground_rules.specs.Numbered.{rules_of};
    ghost use Rattle.packed_rules.specs.PackedTables.{PackedTable};
    ghost use Rattle.packed_rules.specs.Internal.PackedPass.{IsPackedTable};
    ghost use Rattle.std.specs.Coded.{codes};
    ghost use Rattle.numbered_rules.specs.contracts.numbered.Literal as literal;

    ghost Value = { PackedTable };

    ghost coded = { Prim.hlevel (codes, literal.the_row.coded) };

    ghost view = { λ p. record { terms = p.terms; plain = p.plain.value } };

    ghost invariant = { λ p. IsPackedTable p.terms p.rest (rules_of p.plain.value.rest.items) × IsPackedTable p.terms p.turn (rules_of p.plain.value.turn.items) };
}

impl PackedRules {
    /// Packs the rules for a row with `terms` terms.
    pub fn new(alloc: Global, rules: &SplitRules, terms: usize) -> Result<PackedRules, AllocError>
        ensures { IfOk result (λ p. p ≡ record { terms = terms; plain = rules.now }) }
    {
        let rest = pack_rules(alloc, &rules.rest, terms)?;
        let turn = pack_rules(alloc, &rules.turn, terms)?;
        Ok(PackedRules {
            terms,
            rest,
            turn,
            plain: Snapshot::of(rules),
        })
    }

    /// The row after a pass over the rules with heads that do not depend on moves.
    pub fn pass_rest(&self, bits: BitRow) -> BitRow
        ensures terms { take self.now.terms result ≡ take self.now.terms bits }
        ensures atoms { drop self.now.terms result ≡ row_after (numbered (take self.now.terms bits) []) (drop self.now.terms bits) (rest_of self.now) }
    {
        pass(&self.rest, bits, self.terms, &[])
    }

    /// The row after a pass over the other rules. `joint` has the term of each role's move.
    pub fn pass_turn(&self, bits: BitRow, joint: &[usize]) -> BitRow
        ensures terms { take self.now.terms result ≡ take self.now.terms bits }
        ensures atoms { drop self.now.terms result ≡ row_after (numbered (take self.now.terms bits) joint.now) (drop self.now.terms bits) (turn_of self.now) }
    {
        pass(&self.turn, bits, self.terms, joint)
    }
}
