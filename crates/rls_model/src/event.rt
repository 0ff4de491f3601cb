//! Events of a world, and what comes of them.

use crate::edit::{Edit, EditError};
use crate::receipt::Taken;

/// What happens in a world of members, which are numbered from 0. Sent messages are numbered from 0 too, and stay for good.
#[derive(Drop)]
pub enum Event {
    /// The member edits.
    Edit { member: u32, edit: Edit },
    /// A member makes a message for another.
    Send { from: u32, to: u32 },
    /// A member takes a message, whoever it was made for, perhaps once more.
    Deliver { message: u64, to: u32 },
    /// The member drops what is stable.
    Drop { member: u32 },
}

/// What comes of an event.
#[derive(Drop)]
pub enum Outcome {
    /// The edit made the operation with this number of its member.
    Made { seq: u32 },
    /// The message has this number.
    Sent { message: u64 },
    /// What came of the message's operations.
    Took(Taken),
    /// What was stable is dropped.
    Dropped,
}

/// Why nothing happens. Of several reasons the first in this order counts.
#[derive(Clone, Copy, Debug, PartialEq, Eq)]
pub enum StepError {
    /// The first named member that there isn't.
    NoMember { member: u32 },
    /// There is no such message.
    NoMessage { message: u64 },
    /// The edit is refused, for another reason than running out of memory.
    Edit(EditError),
    /// There is no memory. Each member is then after some of the event's steps.
    OutOfMemory,
}
