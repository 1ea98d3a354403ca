//! Tests of the crates that read a formula and write it: tokens, the grammar, words, formulas, canonical words.
#![tactic(auto)]

#[cfg(test)]
mod canonical;
#[cfg(test)]
mod formula_texts;
#[cfg(test)]
mod grammar;
#[cfg(test)]
mod rows;
#[cfg(test)]
mod tokens;
#[cfg(test)]
mod words;
