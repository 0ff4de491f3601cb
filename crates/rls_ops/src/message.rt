//! Messages.

use crate::op::Ops;
use rls_ident::Vector;

/// What one member sends another: operations that the other may lack, and how much it has accepted itself.
#[derive(Drop)]
pub struct Message {
    /// The group whose text it is. Members of other groups refuse the message.
    pub group: u64,
    /// The count of members, 1 to 64.
    pub members: u32,
    /// The member that sends, below the count of members.
    pub from: u32,
    /// How many operations of each member the sender has accepted.
    pub vector: Vector,
    /// The operations, in the order in which the sender accepted them.
    pub ops: Ops,
}
