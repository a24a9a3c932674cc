//! The worked examples of the specification: texts, matches and desks, with the values that they must give.
#![tactic(auto)]

#[cfg(test)]
mod calls;
#[cfg(test)]
mod checks;
#[cfg(test)]
mod described;
#[cfg(test)]
mod descriptions;
#[cfg(test)]
mod exchanges;
#[cfg(test)]
mod expressions;
#[cfg(test)]
mod full_desks;
#[cfg(test)]
mod holding;
#[cfg(test)]
mod locks;
#[cfg(test)]
mod messages;
#[cfg(test)]
mod plays;
#[cfg(test)]
mod refereeing;
#[cfg(test)]
mod register;
#[cfg(test)]
mod ring_matches;
#[cfg(test)]
mod rings;
#[cfg(test)]
mod script;
#[cfg(test)]
mod scripts;
#[cfg(test)]
mod strikes;
