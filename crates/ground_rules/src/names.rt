//! The names of a description: its roles, the derived atoms in its heads, and the terms of its states and moves. Each is
//! numbered by its place in a table.
ghost use Rattle.std.specs.Prelude.{◌≡◌, ℕ, not, true, IfOk, IfErr, OnOk, [], bytes_eq, ◌≢◌};
ghost use Rattle.game_core.specs.declared.limits.Limits.{Limits};
ghost use Rattle.rule_sentences.specs.SentenceViews.{rules_of};
ghost use Rattle.rule_sentences.specs.Descriptions.{with_new, same_derived, role_names, name_in, heads, is_among, are_different};
ghost use Rattle.std.specs.List.{list_any};
ghost use Rattle.std.specs.Option.{option_copied, option_to_list};
ghost use Rattle.ground_rules.specs.Lawfulness.TableTests.{are_in_order};
ghost use Rattle.ground_rules.specs.Internal.Resolved.{head_terms, place};
ghost use Rattle.ground_rules.specs.Loading.{IsDescriptionFault};

use game_core::Text;
use indexmap::IndexSet;
use rule_sentences::LoadFault;
use rule_sentences::sentence::{Derived, Rule};
use std::alloc::{AllocError, Global};

fn add_text(set: &mut IndexSet<Text>, text: &Text) -> Result<bool, AllocError>
    ensures set { OnOk result (set.new.keys ≡ with_new bytes_eq set.old.keys text.now) }
    ensures new { IfOk result (λ new. new ≡ not (list_any (bytes_eq text.now) set.old.keys)) }
{
    if set.contains(text) {
        return Ok(false);
    }
    set.insert(text.clone()?)?;
    Ok(true)
}

fn add_head(heads: &mut IndexSet<Derived>, atom: &Derived) -> Result<(), AllocError>
    ensures { OnOk result (heads.new.keys ≡ with_new same_derived heads.old.keys atom.now) }
{
    if !heads.contains(atom) {
        heads.insert(atom.clone()?)?;
    }
    Ok(())
}

fn role_name(head: &Derived) -> Option<&Text>
    ensures { option_to_list (option_copied result) ≡ name_in head.now }
{
    match head {
        Derived::Role(name) => Some(name),
        _ => None,
    }
}

/// The names in the role facts, in order.
pub fn role_names(alloc: Global, rules: &[Rule]) -> Result<IndexSet<Text>, LoadFault>
    ensures names { IfOk result (λ s. s.keys ≡ role_names (rules_of rules.now)) }
    ensures differ { IfOk result (λ _. are_different (role_names (rules_of rules.now)) ≡ true) }
    ensures some { IfOk result (λ _. role_names (rules_of rules.now) ≢ []) }
    ensures fault { IfErr result (λ e. (limits : Limits) (n : ℕ) → IsDescriptionFault limits n (rules_of rules.now) e) }
{
    let mut names = IndexSet::new(alloc);
    for rule in rules {
        if let Some(name) = role_name(&rule.head) {
            if !add_text(&mut names, name)? {
                return Err(LoadFault::RoleTwice);
            }
        }
    }
    if names.is_empty() {
        return Err(LoadFault::NoRole);
    }
    Ok(names)
}

/// The heads, each once, in the order of first appearance.
pub fn heads(alloc: Global, rules: &[Rule]) -> Result<IndexSet<Derived>, AllocError>
    ensures { IfOk result (λ s. s.keys ≡ heads (rules_of rules.now)) }
{
    let mut heads = IndexSet::with_capacity(alloc, rules.len())?;
    for rule in rules {
        add_head(&mut heads, &rule.head)?;
    }
    Ok(heads)
}

/// The terms that describe states, or those that name moves.
#[derive(Clone, Copy)]
pub enum TermKind {
    State,
    Move,
}

/// The terms of this kind in the heads, in byte order.
pub fn head_terms(
    alloc: Global,
    rules: &[Rule],
    kind: TermKind,
) -> Result<IndexSet<Text>, AllocError>
    ensures ordered { IfOk result (λ s. are_in_order s.keys ≡ true) }
    ensures same { IfOk result (λ s. (t : _) → is_among s.keys t ≡ is_among (head_terms kind (rules_of rules.now)) t) }
{
    let mut terms = IndexSet::new(alloc);
    for rule in rules {
        match (kind, &rule.head) {
            (TermKind::State, Derived::Init(term))
            | (TermKind::State, Derived::Next(term))
            | (TermKind::Move, Derived::Legal(_, term)) => {
                add_text(&mut terms, term)?;
            }
            _ => {}
        }
    }
    terms.sort()?;
    Ok(terms)
}

/// Moves the texts out of a set.
pub fn into_texts(alloc: Global, set: IndexSet<Text>) -> Result<Vec<Text>, AllocError>
    ensures { IfOk result (λ v. v.items ≡ set.keys) }
{
    set.into_iter().collect(alloc)
}

/// The place of the text in the set, or the number of texts if the set does not have it.
pub fn place_of_text(set: &IndexSet<Text>, text: &Text) -> usize
    ensures { result ≡ place bytes_eq set.now.keys text.now }
{
    set.get_index_of(text).unwrap_or(set.len())
}

/// The place of the atom among the heads, or the number of heads if it is not a head.
pub fn place_of_head(heads: &IndexSet<Derived>, atom: &Derived) -> usize
    ensures { result ≡ place same_derived heads.now.keys atom.now }
{
    heads.get_index_of(atom).unwrap_or(heads.len())
}
