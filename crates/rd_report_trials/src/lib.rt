//! Tests of rosters, of replays and of reports.
#![tactic(auto)]

#[cfg(test)]
mod replays;
#[cfg(test)]
mod reports;
#[cfg(test)]
mod roster;
#[cfg(test)]
mod samples;
