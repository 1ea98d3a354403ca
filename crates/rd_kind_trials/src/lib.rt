//! Tests of formulas, and of kinds and their objects.
#![tactic(auto)]

#[cfg(test)]
mod drafts;
#[cfg(test)]
mod kind_formulas;
#[cfg(test)]
mod kinds;
#[cfg(test)]
mod more_objects;
#[cfg(test)]
mod objects;
#[cfg(test)]
mod reductions;
#[cfg(test)]
mod samples;
