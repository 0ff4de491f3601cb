//! Tests of devices, and of the keeper that survives a stop at any moment.
#![tactic(auto)]

#[cfg(test)]
mod devices;
#[cfg(test)]
mod journals;
#[cfg(test)]
mod lossy;
