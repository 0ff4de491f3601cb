//! Tests of commands and sessions, over devices in memory. Those of `large`, `long` and `trials`, with inputs and texts at their limits, are run
//! as they are built, since `rt try`, which runs with checks, takes too long for them.
#![tactic(auto)]

#[cfg(test)]
mod large;
#[cfg(test)]
mod long;
#[cfg(test)]
mod members;
#[cfg(test)]
mod pieces;
#[cfg(test)]
mod sessions;
#[cfg(test)]
mod tests;
#[cfg(test)]
mod trials;
