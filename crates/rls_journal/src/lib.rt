//! A keeper that survives a stop at any moment. It keeps the file on a disk with three areas: two slots, and a gate whose
//! first byte names one of them. A file is written into the slot that isn't named, and synced, before the gate names it; so
//! a gate that was torn names one of two whole slots, and no checksum is needed.
//! Why: CHOICES.md, 240.
#![tactic(auto)]

mod calls;
mod contents;
mod disk;
mod files;
mod keeper;
mod memory;
mod slots;

pub use calls::{AreaCalls, CurrentFiles, Opening};
pub use disk::Disk;
pub use files::FileDisk;
pub use keeper::DiskKeeper;
pub use memory::MemoryDisk;
