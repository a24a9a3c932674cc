//! Makes the parts of a game from its description.
ghost use Rattle.std.specs.Prelude.{◌≡◌, ◌⊎◌, true, false, IfOk, IfErr, map, length, []};
ghost use Rattle.rule_sentences.specs.SentenceViews.{rules_of};
ghost use Rattle.ground_rules.specs.Acyclic.{IsAcyclic};
ghost use Rattle.numbered_rules.specs.Numbered.{rules_of as numbered_rules, numbered, row_after, unset};
ghost use Rattle.ground_rules.specs.Internal.Resolved.{table_of, role_table};
ghost use Rattle.ground_rules.specs.Internal.Barred.{barred_by, has_barred};
ghost use Rattle.ground_rules.specs.Loading.{HasRoles, IsDescriptionFault, IsSound};
ghost use Rattle.rule_sentences.specs.Descriptions.{Description};
ghost use Rattle.ground_rules.specs.Dependence.{HasBarredHead};
ghost use Rattle.ground_rules.specs.Internal.GameParts.{IsTestOf, IsTableOf, is_small_so_far, have_few_moves_by, AreRankedOf, AreGameParts};
ghost use Rattle.ground_rules.specs.Internal.SplitRules.{AreSplitOf};
ghost use Rattle.numbered_rules.specs.Exposed.{exposed_rules};

use crate::names::{TermKind, head_terms, heads, role_names};
use crate::resolve::{Names, resolve_rules};
use crate::tables::{Role, goal_heads, legal_mentions};
use game_core::{Limits, MAX_ROLES, Text};
use numbered_rules::dependence::dependence;
use numbered_rules::rank::rank;
use numbered_rules::split::{SplitRules, split};
use numbered_rules::{Row, needs_of, numbered, sort_by_rank};
use rule_sentences::LoadFault;
use rule_sentences::sentence::{Derived, Rule};
use rule_sentences::sizes::{MAX_MOVES, have_few_atomic_sentences};
use std::alloc::{AllocError, Global};

fn role_of(alloc: Global, names: &Names, name: &Text) -> Result<Role, AllocError>
    ensures { IfOk result (λ r. r ≡ role_table (table_of names.now) name.now) }
{
    let heads = names.heads.as_slice();
    let legal = legal_mentions(alloc, heads, &names.moves, name)?;
    let goals = goal_heads(alloc, heads, name)?;
    let name = name.clone()?;
    Ok(Role { name, legal, goals })
}

fn roles_of(alloc: Global, names: &Names) -> Result<Vec<Role>, AllocError>
    ensures { IfOk result (λ v. v.items ≡ map (role_table (table_of names.now)) (table_of names.now).roles) }
{
    let mut roles = Vec::with_capacity(alloc, names.roles.len())?;
    for name in names.roles.as_slice() {
        roles.push(role_of(alloc, names, name)?)?;
    }
    Ok(roles)
}

fn have_few_moves(roles: &[Role]) -> bool
    ensures { result ≡ have_few_moves_by roles.now }
{
    for role in roles {
        if role.legal().len() > MAX_MOVES {
            return false;
        }
    }
    true
}

/// Whether the head has a forbidden dependence. `on_moves` says whether the head depends on moves, and `on_given`
/// whether it depends on the state or on moves.
fn is_barred(head: &Derived, on_moves: bool, on_given: bool) -> bool
    ensures { result ≡ barred_by head.now on_moves on_given }
{
    match head {
        Derived::Legal(_, _) | Derived::Goal(_, _) | Derived::Terminal => on_moves,
        Derived::Init(_) => on_given,
        Derived::Role(_) | Derived::Next(_) | Derived::Other(_) => false,
    }
}

fn has_barred(heads: &[Derived], on_moves: &Row, on_given: &Row) -> bool
    ensures { result ≡ has_barred on_moves.now on_given.now 0 heads.now }
{
    for (atom, head) in heads.iter().enumerate() {
        if is_barred(head, on_moves.is_set(atom), on_given.is_set(atom)) {
            return true;
        }
    }
    false
}

/// The tables of names of a description with this number of sentences, or the first error in its roles or its size. This
/// does not check the number of moves of each role; the caller does so later.
fn names_of(
    alloc: Global,
    limits: Limits,
    sentences: usize,
    rules: &[Rule],
) -> Result<Names, LoadFault>
    ensures table { IfOk result (λ t. IsTableOf (rules_of rules.now) (table_of t)) }
    ensures roles { IfOk result (λ _. HasRoles (rules_of rules.now)) }
    ensures small { IfOk result (λ _. is_small_so_far limits sentences (rules_of rules.now) ≡ true) }
    ensures fault { IfErr result (IsDescriptionFault limits sentences (rules_of rules.now)) }
{
    let roles = role_names(alloc, rules)?;
    let few_atomics = have_few_atomic_sentences(alloc, rules, limits)?;
    if sentences > limits.sentences() || !few_atomics || roles.len() > MAX_ROLES {
        return Err(LoadFault::TooLarge);
    }
    let heads = heads(alloc, rules)?;
    let states = head_terms(alloc, rules, TermKind::State)?;
    let moves = head_terms(alloc, rules, TermKind::Move)?;
    Ok(Names {
        roles,
        heads,
        states,
        moves,
    })
}

/// The rules in the order of a ranking of their heads, or `Cyclic`.
fn ranked_rules(
    alloc: Global,
    names: &Names,
    rules: &[Rule],
) -> Result<Vec<numbered::Rule>, LoadFault>
    requires { IsTableOf (rules_of rules.now) (table_of names.now) }
    ensures acyclic { IfOk result (λ _. IsAcyclic (rules_of rules.now)) }
    ensures ranked { IfOk result (λ v. AreRankedOf (rules_of rules.now) (table_of names.now) (numbered_rules v.items)) }
    ensures cyclic { IfErr result (λ e. (e ≡ LoadFault.Memory) ⊎ ((e ≡ LoadFault.Cyclic) × ¬ (IsAcyclic (rules_of rules.now)))) }
{
    let resolved = resolve_rules(alloc, names, rules)?;
    let needs = needs_of(alloc, &resolved, names.heads.len())?;
    match rank(alloc, &needs)? {
        Some(ranking) => Ok(sort_by_rank(resolved, &ranking.places)?),
        None => Err(LoadFault::Cyclic),
    }
}

/// Whether some head has a forbidden dependence. The row says which heads depend on moves.
fn has_barred_head(
    alloc: Global,
    names: &Names,
    rules: &[numbered::Rule],
    on_moves: &Row,
) -> Result<bool, AllocError>
    requires { on_moves.now ≡ row_after (numbered [] []) (unset (length names.now.heads.keys)) (exposed_rules false (numbered_rules rules.now)) }
    ensures { IfOk result (λ b. (d : Description) → IsTableOf d (table_of names.now) → IsAcyclic d → AreRankedOf d (table_of names.now) (numbered_rules rules.now) → IsTestOf b (HasBarredHead d)) }
{
    let on_given = dependence(alloc, rules, names.heads.len(), true)?;
    Ok(has_barred(names.heads.as_slice(), on_moves, &on_given))
}

/// Separates the rules with heads that do not depend on moves from the others. Each part is in the order of a ranking.
fn split_rules(
    alloc: Global,
    names: &Names,
    rules: Vec<numbered::Rule>,
) -> Result<SplitRules, LoadFault>
    ensures split { IfOk result (λ s. (d : Description) → IsTableOf d (table_of names.now) → IsAcyclic d → AreRankedOf d (table_of names.now) (numbered_rules rules.items) → (¬ (HasBarredHead d)) × AreSplitOf d (table_of names.now) (numbered_rules s.rest.items) (numbered_rules s.turn.items)) }
    ensures fault { IfErr result (λ e. (e ≡ LoadFault.Memory) ⊎ ((e ≡ LoadFault.Depends) × ((d : Description) → IsTableOf d (table_of names.now) → IsAcyclic d → AreRankedOf d (table_of names.now) (numbered_rules rules.items) → HasBarredHead d))) }
{
    let on_moves = dependence(alloc, &rules, names.heads.len(), false)?;
    if has_barred_head(alloc, names, &rules, &on_moves)? {
        return Err(LoadFault::Depends);
    }
    Ok(split(alloc, rules, &on_moves)?)
}

/// The parts of a game: the tables of names, and the roles and rules with numbers for their names.
#[derive(Drop)]
pub struct GameParts {
    pub names: Names,
    pub roles: Vec<Role>,
    pub rules: SplitRules,
}

/// Makes the parts of the game of a description with this number of sentences, or returns its first error within the limits.
pub fn game_parts(
    alloc: Global,
    limits: Limits,
    sentences: usize,
    rules: &[Rule],
) -> Result<GameParts, LoadFault>
    ensures sound { IfOk result (λ _. IsSound limits sentences (rules_of rules.now)) }
    ensures parts { IfOk result (λ p. AreGameParts (rules_of rules.now) (table_of p.names) p.roles.items (numbered_rules p.rules.rest.items) (numbered_rules p.rules.turn.items)) }
    ensures fault { IfErr result (IsDescriptionFault limits sentences (rules_of rules.now)) }
{
    let names = names_of(alloc, limits, sentences, rules)?;
    let roles = roles_of(alloc, &names)?;
    if !have_few_moves(&roles) {
        return Err(LoadFault::TooLarge);
    }
    let ranked = ranked_rules(alloc, &names, rules)?;
    let rules = split_rules(alloc, &names, ranked)?;
    Ok(GameParts {
        names,
        roles,
        rules,
    })
}
