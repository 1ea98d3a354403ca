//! Random traces: what a whole run writes for each is compared with what a slow program writes by the definition.
#![tactic(auto)]

#[cfg(test)]
mod checked;
#[cfg(test)]
mod random;
#[cfg(test)]
mod random_calls;
#[cfg(test)]
mod random_objects;
