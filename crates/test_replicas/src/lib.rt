//! Tests of the calls of the lower crates on worked values, of the core called by itself, of its files and messages, and of worlds of
//! several members.
#![tactic(auto)]

#[cfg(test)]
mod days;
#[cfg(test)]
mod documents;
#[cfg(test)]
mod epochs;
#[cfg(test)]
mod files;
#[cfg(test)]
mod idents;
#[cfg(test)]
mod kept;
#[cfg(test)]
mod lines;
#[cfg(test)]
mod ops;
#[cfg(test)]
mod renamings;
#[cfg(test)]
mod runs;
#[cfg(test)]
mod spelled;
#[cfg(test)]
mod spelling;
#[cfg(test)]
mod tests;
#[cfg(test)]
mod translations;
#[cfg(test)]
mod trees;
#[cfg(test)]
mod worlds;
