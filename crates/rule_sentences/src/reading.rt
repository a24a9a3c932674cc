//! Reads expressions as sentences.
ghost use Rattle.std.specs.Prelude.{◌≡◌, IfOk, option_map};
ghost use Rattle.game_core.specs.Expression.{atom, list};
ghost use Rattle.kif_text.specs.View.{view as expression, views as expressions};
ghost use Rattle.rule_sentences.specs.SentenceViews.{view, views, sentence_of};
ghost use Rattle.rule_sentences.specs.Reading.{goal_value, head_word, one_argument, two_arguments, read_relation, read_alone, read_atomic, negation, disjunction, read_literal, read_literals, fact, read_rule, read_form, read_sentence};
ghost use Rattle.rule_sentences.specs.Internal.Members.{without_first};
ghost use Rattle.rule_sentences.specs.Terms.{term_text};
ghost use Rattle.rule_sentences.specs.Words.{word_of};

use crate::sentence::{Atomic, Derived, Literal, Sentence};
use crate::terms::{nests_at_most, term_text};
use crate::words::Word;
use game_core::numeral::plain_number;
use game_core::{MAX_DEPTH, MAX_GOAL, Text};
use kif_text::Expr;
use std::alloc::{AllocError, Global};

/// The goal value of an expression: a number from 0 to 100, in decimal digits without leading zeros.
#[tactic(auto, unfolding(crate::specs::Reading::goal_value))]
fn goal_value(expr: &Expr) -> Option<u8>
    ensures { result ≡ goal_value (expression expr.now) }
{
    match expr {
        Expr::Atom(text) => Some(plain_number(text.as_slice(), usize::from(MAX_GOAL))? as u8),
        Expr::List(_) => None,
    }
}

/// The kind of word at the head of a list.
fn head_word(members: &[Expr]) -> Option<Word>
    ensures { result ≡ head_word (expressions members.now) }
{
    match members.first() {
        Some(Expr::Atom(text)) => Some(Word::of(text.as_slice())),
        _ => None,
    }
}

/// The second member, if the list has two members and the second one is a term.
fn one_argument(alloc: Global, members: &[Expr]) -> Result<Option<Text>, AllocError>
    ensures { IfOk result (λ o. o ≡ one_argument (expressions members.now)) }
{
    if members.len() != 2 {
        return Ok(None);
    }
    term_text(alloc, &members[1])
}

/// The second and third members, if the list has three members and these two are terms.
fn two_terms(alloc: Global, members: &[Expr]) -> Result<Option<(Text, Text)>, AllocError>
    ensures { IfOk result (λ o. o ≡ two_arguments term_text (expressions members.now)) }
{
    if members.len() != 3 {
        return Ok(None);
    }
    let Some(first) = term_text(alloc, &members[1])? else {
        return Ok(None);
    };
    let Some(second) = term_text(alloc, &members[2])? else {
        return Ok(None);
    };
    Ok(Some((first, second)))
}

/// The second and third members, if the list has three members and these two are a term and a goal value.
fn goal_arguments(alloc: Global, members: &[Expr]) -> Result<Option<(Text, u8)>, AllocError>
    ensures { IfOk result (λ o. o ≡ two_arguments goal_value (expressions members.now)) }
{
    if members.len() != 3 {
        return Ok(None);
    }
    let role = term_text(alloc, &members[1])?;
    Ok(role.zip(goal_value(&members[2])))
}

/// Reads a list with this word at its head as an atomic sentence.
fn read_relation(
    alloc: Global,
    word: Option<Word>,
    expr: &Expr,
    members: &[Expr],
) -> Result<Option<Atomic>, AllocError>
    requires { expression expr.now ≡ list (expressions members.now) }
    ensures { IfOk result (λ o. o ≡ read_relation word (expressions members.now)) }
{
    let read = match word {
        Some(Word::Role) => {
            one_argument(alloc, members)?.map(|name| Atomic::Derived(Derived::Role(name)))
        }
        Some(Word::Init) => {
            one_argument(alloc, members)?.map(|term| Atomic::Derived(Derived::Init(term)))
        }
        Some(Word::True) => one_argument(alloc, members)?.map(Atomic::InState),
        Some(Word::Next) => {
            one_argument(alloc, members)?.map(|term| Atomic::Derived(Derived::Next(term)))
        }
        Some(Word::Does) => {
            two_terms(alloc, members)?.map(|(role, taken)| Atomic::Does(role, taken))
        }
        Some(Word::Legal) => two_terms(alloc, members)?.map(|(role, taken)| Atomic::Derived(
            Derived::Legal(role, taken),
        )),
        Some(Word::Goal) => goal_arguments(alloc, members)?.map(|(role, value)| Atomic::Derived(
            Derived::Goal(role, value),
        )),
        Some(Word::Plain) => {
            term_text(alloc, expr)?.map(|text| Atomic::Derived(Derived::Other(text)))
        }
        _ => None,
    };
    Ok(read)
}

/// Reads a single word as an atomic sentence.
fn read_alone(alloc: Global, expr: &Expr, text: &Text) -> Result<Option<Atomic>, AllocError>
    requires { expression expr.now ≡ atom text.now }
    ensures { IfOk result (λ o. o ≡ read_alone (word_of text.now) text.now) }
{
    match Word::of(text.as_slice()) {
        Word::Terminal => Ok(Some(Atomic::Derived(Derived::Terminal))),
        Word::Plain => {
            let text = term_text(alloc, expr)?;
            Ok(text.map(|text| Atomic::Derived(Derived::Other(text))))
        }
        _ => Ok(None),
    }
}

fn read_atomic(alloc: Global, expr: &Expr) -> Result<Option<Atomic>, AllocError>
    ensures { IfOk result (λ o. o ≡ read_atomic (expression expr.now)) }
{
    match expr {
        Expr::Atom(text) => read_alone(alloc, expr, text),
        Expr::List(members) => read_relation(alloc, head_word(members), expr, members),
    }
}

/// The negation of the literal, if exactly one was read.
fn negation(alloc: Global, read: Option<Vec<Literal>>) -> Result<Option<Literal>, AllocError>
    ensures { IfOk result (λ o. option_map view o ≡ negation (option_map (λ v. views v.items) read)) }
{
    let Some(mut literals) = read else {
        return Ok(None);
    };
    if literals.len() != 1 {
        return Ok(None);
    }
    match literals.pop() {
        Some(inner) => Ok(Some(Literal::Not(Box::new(alloc, inner)?))),
        None => Ok(None),
    }
}

fn disjunction(read: Option<Vec<Literal>>) -> Option<Literal>
    ensures { option_map view result ≡ disjunction (option_map (λ v. views v.items) read) }
{
    let literals = read?;
    if literals.is_empty() {
        return None;
    }
    Some(Literal::Or(literals))
}

#[cycle(read_literal)]
fn read_literal(alloc: Global, expr: &Expr) -> Result<Option<Literal>, AllocError>
    ensures { IfOk result (λ o. option_map view o ≡ read_literal (expression expr.now)) }
{
    let members = match expr {
        Expr::Atom(text) => {
            let atomic = read_alone(alloc, expr, text)?;
            return Ok(atomic.map(Literal::Atomic));
        }
        Expr::List(members) => members,
    };
    match head_word(members) {
        Some(Word::Not) => negation(alloc, read_literals(alloc, members, 1)?),
        Some(Word::Or) => Ok(disjunction(read_literals(alloc, members, 1)?)),
        Some(Word::Distinct) => {
            let terms = two_terms(alloc, members)?;
            Ok(terms.map(|(first, second)| Literal::Distinct(first, second)))
        }
        word => {
            let atomic = read_relation(alloc, word, expr, members)?;
            Ok(atomic.map(Literal::Atomic))
        }
    }
}

#[cycle(read_literal)]
fn read_literals(
    alloc: Global,
    members: &Vec<Expr>,
    start: usize,
) -> Result<Option<Vec<Literal>>, AllocError>
    ensures { IfOk result (λ o. option_map (λ v. views v.items) o ≡ read_literals (without_first start (expressions members.now.items))) }
{
    let mut literals = Vec::new(alloc);
    for (place, member) in members.iter().enumerate() {
        if place >= start {
            match read_literal(alloc, member)? {
                Some(literal) => literals.push(literal)?,
                None => return Ok(None),
            }
        }
    }
    Ok(Some(literals))
}

fn fact(alloc: Global, head: Option<Atomic>) -> Option<Sentence>
    ensures { option_map sentence_of result ≡ option_map fact head }
{
    head.map(|head| Sentence {
        head,
        body: Vec::new(alloc),
    })
}

/// Reads a list with `<=` at its head: a head and literals.
fn read_rule(alloc: Global, members: &Vec<Expr>) -> Result<Option<Sentence>, AllocError>
    ensures { IfOk result (λ o. option_map sentence_of o ≡ read_rule (expressions members.now.items)) }
{
    if members.len() < 2 {
        return Ok(None);
    }
    let Some(head) = read_atomic(alloc, &members[1])? else {
        return Ok(None);
    };
    let Some(body) = read_literals(alloc, members, 2)? else {
        return Ok(None);
    };
    Ok(Some(Sentence { head, body }))
}

fn read_form(alloc: Global, expr: &Expr) -> Result<Option<Sentence>, AllocError>
    ensures { IfOk result (λ o. option_map sentence_of o ≡ read_form (expression expr.now)) }
{
    match expr {
        Expr::Atom(text) => {
            let head = read_alone(alloc, expr, text)?;
            Ok(fact(alloc, head))
        }
        Expr::List(members) => match head_word(members) {
            Some(Word::If) => read_rule(alloc, members),
            word => {
                let head = read_relation(alloc, word, expr, members)?;
                Ok(fact(alloc, head))
            }
        },
    }
}

/// Reads the expression as a sentence. Returns `None` if it does not have the form of a sentence.
pub fn read_sentence(alloc: Global, expr: &Expr) -> Result<Option<Sentence>, AllocError>
    ensures { IfOk result (λ o. option_map sentence_of o ≡ read_sentence (expression expr.now)) }
{
    if nests_at_most(expr, MAX_DEPTH) {
        read_form(alloc, expr)
    } else {
        Ok(None)
    }
}
