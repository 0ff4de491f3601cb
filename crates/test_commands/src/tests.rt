//! Commands of one member and of several.

mod clusters;
mod editing;
mod exchanging;
mod faults;
mod files;
mod groups;
mod keepers;
mod scenes;
mod stored;
