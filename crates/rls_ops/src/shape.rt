//! The shape of operations.

ghost use Rattle.std.specs.Prelude.{◌≡◌, ◌<◌, OnOk, IfErr, None, Some};
ghost use Rattle.rls_ident.specs.Tuples.{at_spot};
ghost use Rattle.rls_ops.specs.Shapes.{is_next_of, body_fault, insertion_fault, listed_fault, shape_fault};

use crate::op::{Body, Op, Shape};
use rls_ident::Spot;
use rls_ident::limits::{CHARACTERS, IDENTIFIERS, OFFSETS_END};

impl Op {
    /// Whether the operation has the right shape in a group of this many members. It takes no memory.
    ///
    /// # Errors
    ///
    /// The first fault, in the order of `Shape`.
    pub fn check_shape(&self, members: u32) -> Result<(), Shape>
        ensures ok { OnOk result (shape_fault members self.now ≡ None) }
        ensures fault { IfErr result (λ fault. shape_fault members self.now ≡ Some fault) }
    {
        if self.author >= members {
            return Err(Shape::Author);
        }
        if !self.is_next_of(members) {
            return Err(Shape::Context);
        }
        check_body(&self.body)
    }

    // Whether the number is at least 1, and the context has a count for each member, of which the
    // author's is one less.
    fn is_next_of(&self, members: u32) -> bool
        requires author { self.now.author < members }
        ensures next { result ≡ is_next_of self.now members }
    {
        self.seq > 0
            && self.context.len() == members as usize
            && self.context.get(self.author) == self.seq - 1
    }
}

fn check_body(body: &Body) -> Result<(), Shape>
    ensures ok { OnOk result (body_fault body.now ≡ None) }
    ensures fault { IfErr result (λ fault. body_fault body.now ≡ Some fault) }
{
    match body {
        Body::Insert { first, text } => Shape::check_insertion(first.last(), text.len() as u64),
        Body::Delete { targets } => Shape::check_idents(targets.total()),
        Body::Rename { former } => Shape::check_idents(former.total()),
        Body::Leave => Ok(()),
    }
}

impl Shape {
    /// Whether an insertion of `n` characters has the right shape, where this is the last tuple of its first identifier. It takes no memory.
    ///
    /// # Errors
    ///
    /// The first fault, in the order of `Shape`.
    pub fn check_insertion(last: Spot, n: u64) -> Result<(), Shape>
        ensures ok { OnOk result (insertion_fault (at_spot last) n ≡ None) }
        ensures fault { IfErr result (λ fault. insertion_fault (at_spot last) n ≡ Some fault) }
    {
        if n == 0 {
            return Err(Shape::EmptyBody);
        }
        if n > CHARACTERS {
            return Err(Shape::TooLong { n });
        }
        if last.offset as i64 + n as i64 > OFFSETS_END as i64 {
            return Err(Shape::OffsetEnd);
        }
        Ok(())
    }

    /// Whether a deletion or rename of `n` identifiers has the right shape. It takes no memory.
    ///
    /// # Errors
    ///
    /// The first fault, in the order of `Shape`.
    pub fn check_idents(n: u64) -> Result<(), Shape>
        ensures ok { OnOk result (listed_fault n ≡ None) }
        ensures fault { IfErr result (λ fault. listed_fault n ≡ Some fault) }
    {
        if n == 0 {
            return Err(Shape::EmptyBody);
        }
        if n > IDENTIFIERS {
            return Err(Shape::TooLong { n });
        }
        Ok(())
    }
}
