//! Checks the positions of atomic sentences.
ghost use Rattle.std.specs.Prelude.{◌≡◌, option_map};
ghost use Rattle.rule_sentences.specs.SentenceViews.{view, views, sentence_of, rule_of};
ghost use Rattle.rule_sentences.specs.Places.{stands_in_bodies, is_placed, are_placed, is_head_of, place};

use crate::sentence::{Atomic, Derived, Literal, Rule, Sentence};

fn stands_in_bodies(atom: &Derived) -> bool
    ensures { result ≡ stands_in_bodies atom.now }
{
    match atom {
        Derived::Init(_) | Derived::Next(_) => false,
        Derived::Role(_)
        | Derived::Legal(_, _)
        | Derived::Goal(_, _)
        | Derived::Terminal
        | Derived::Other(_) => true,
    }
}

#[cycle(is_placed)]
fn is_placed(literal: &Literal) -> bool
    ensures { result ≡ is_placed (view literal.now) }
{
    match literal {
        Literal::Atomic(Atomic::Derived(atom)) => stands_in_bodies(atom),
        Literal::Atomic(_) | Literal::Distinct(_, _) => true,
        Literal::Not(inner) => is_placed(inner),
        Literal::Or(literals) => are_placed(literals),
    }
}

#[cycle(is_placed)]
fn are_placed(literals: &Vec<Literal>) -> bool
    ensures { result ≡ are_placed (views literals.now.items) }
{
    for literal in literals {
        if !is_placed(literal) {
            return false;
        }
    }
    true
}

fn is_head_of(head: &Derived, body: &Vec<Literal>) -> bool
    ensures { result ≡ is_head_of head.now (views body.now.items) }
{
    match head {
        Derived::Role(_) => body.first().is_none(),
        _ => true,
    }
}

/// Converts a sentence to a rule. Returns `None` if an atomic sentence is in a position that GDL does not allow.
pub fn place(sentence: Sentence) -> Option<Rule>
    ensures { option_map rule_of result ≡ place (sentence_of sentence) }
{
    let Sentence { head, body } = sentence;
    let Atomic::Derived(head) = head else {
        return None;
    };
    if is_head_of(&head, &body) && are_placed(&body) {
        Some(Rule { head, body })
    } else {
        None
    }
}
