//! Reads lists of expressions as rules.
ghost use Rattle.std.specs.Prelude.{◌≡◌, ◌≢◌, None, Some, IfOk, IfErr, map};
ghost use Rattle.game_core.specs.Expression.{folded};
ghost use Rattle.kif_text.specs.View.{view as expression};
ghost use Rattle.rule_sentences.specs.Terms.{has_variable};
ghost use Rattle.rule_sentences.specs.SentenceViews.{rules_of};
ghost use Rattle.rule_sentences.specs.SentenceFaults.{first_place, is_malformed, is_misplaced, description_of, AreSentences, IsSentenceFault};

use crate::fault::LoadFault;
use crate::placing::place;
use crate::reading::read_sentence;
use crate::sentence::Rule;
use crate::terms::has_variable;
use kif_text::{Expr, fold};
use std::alloc::{AllocError, Global};

/// Converts the sentences to lower case, in place.
pub fn fold_each(sentences: &mut [Expr])
    ensures { map expression sentences.new ≡ map folded (map expression sentences.old) }
{
    for sentence in sentences.iter_mut() {
        fold(sentence);
    }
}

fn first_variable(sentences: &[Expr]) -> Option<usize>
    ensures { result ≡ first_place has_variable (map expression sentences.now) }
{
    for (place, sentence) in sentences.iter().enumerate() {
        if has_variable(sentence) {
            return Some(place);
        }
    }
    None
}

/// Reads the sentences as rules. Also returns the number of the first sentence that has a misplaced atomic sentence. The
/// error names the first expression that does not have the form of a sentence.
fn read_each(alloc: Global, sentences: &[Expr]) -> Result<(Vec<Rule>, Option<usize>), LoadFault>
    ensures formed { IfOk result (λ _. first_place is_malformed (map expression sentences.now) ≡ None) }
    ensures misplaced { IfOk result (λ p. p.1 ≡ first_place is_misplaced (map expression sentences.now)) }
    ensures rules { IfOk result (λ p. rules_of p.0.items ≡ description_of (map expression sentences.now)) }
    ensures fault { IfErr result (λ e. e ≢ LoadFault.Memory → (i : _) × (e ≡ LoadFault.BadForm i) × (first_place is_malformed (map expression sentences.now) ≡ Some i)) }
{
    let mut rules = Vec::with_capacity(alloc, sentences.len())?;
    let mut misplaced = None;
    for (number, sentence) in sentences.iter().enumerate() {
        let Some(sentence) = read_sentence(alloc, sentence)? else {
            return Err(LoadFault::BadForm(number));
        };
        match place(sentence) {
            Some(rule) => rules.push(rule)?,
            None => misplaced = misplaced.or(Some(number)),
        }
    }
    Ok((rules, misplaced))
}

/// Reads the sentences as rules. The error is `Variable`, `BadForm`, `Misplaced` or `Memory`.
pub fn read_rules(alloc: Global, sentences: &[Expr]) -> Result<Vec<Rule>, LoadFault>
    ensures sentences { IfOk result (λ _. AreSentences (map expression sentences.now)) }
    ensures rules { IfOk result (λ v. rules_of v.items ≡ description_of (map expression sentences.now)) }
    ensures fault { IfErr result (IsSentenceFault (map expression sentences.now)) }
{
    if let Some(place) = first_variable(sentences) {
        return Err(LoadFault::Variable(place));
    }
    let (rules, misplaced) = read_each(alloc, sentences)?;
    match misplaced {
        Some(place) => Err(LoadFault::Misplaced(place)),
        None => Ok(rules),
    }
}
