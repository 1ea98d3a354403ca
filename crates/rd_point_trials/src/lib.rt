//! Tests of access points: the compiled table of a kind, what merging keeps, and that calls touch points that conflict where they don't
//! commute.
#![tactic(auto)]

#[cfg(test)]
mod calls;
#[cfg(test)]
mod hashing;
#[cfg(test)]
mod merging;
#[cfg(test)]
mod random_kinds;
#[cfg(test)]
mod tables;
