//! Tests of values, the items of traces, their order and their clocks.
#![tactic(auto)]

#[cfg(test)]
mod clocks;
#[cfg(test)]
mod line_items;
#[cfg(test)]
mod order;
#[cfg(test)]
mod rows;
#[cfg(test)]
mod values;
