//! Operations, written by their parts.

use rls_ident::{EpochName, Ident, Tuple, Vector};
use rls_ops::{Body, Op, Text};
use rls_runs::{Run, Runs};
use std::alloc::Global;
use std::test::Fail;

/// The middle position.
pub const MIDDLE: u32 = 2_147_483_647;

/// The first epoch.
pub const ORIGIN: EpochName = EpochName::Origin;

/// A tuple between others.
pub fn at(pos: u32, replica: u32, seq: u32, offset: i32) -> Tuple {
    Tuple::At {
        pos,
        replica,
        seq,
        offset,
    }
}

/// A tuple of member 0's first operation.
pub fn old(offset: i32) -> Tuple {
    at(MIDDLE, 0, 1, offset)
}

/// What an operation does, with its first identifier, which is of one tuple: it inserts this text, or deletes or renames this many
/// identifiers.
#[derive(Clone, Copy)]
pub enum Deed<'a> {
    Insert(Tuple, &'a str),
    Delete(Tuple, u32),
    Rename(Tuple, u32),
    Leave,
}

/// An operation: author, number, context, epoch, and what it does.
pub type Told<'a> = (u32, u32, &'a [u32], EpochName, Deed<'a>);

/// An identifier of one tuple.
fn ident_of(alloc: Global, tuple: Tuple) -> Result<Ident, Fail> {
    Ok(Ident::from_tuples(alloc, &[tuple])?)
}

/// The run of this many identifiers, from the one of this tuple on.
fn run_of(alloc: Global, first: Tuple, len: u32) -> Result<Run, Fail> {
    Ok(Run::new(ident_of(alloc, first)?, len)?)
}

/// The list of one run's identifiers.
fn list_of(alloc: Global, first: Tuple, len: u32) -> Result<Runs, Fail> {
    let run = run_of(alloc, first, len)?;
    let mut list = Runs::new(alloc);
    list.push(run)?;
    Ok(list)
}

/// An insertion of a text, whose first identifier is of this tuple.
fn insertion(alloc: Global, first: Tuple, text: &str) -> Result<Body, Fail> {
    let first = ident_of(alloc, first)?;
    let text = Text::from_str(alloc, text)?;
    Ok(Body::Insert { first, text })
}

/// What an operation does.
fn body_of(alloc: Global, deed: Deed<'_>) -> Result<Body, Fail> {
    match deed {
        Deed::Insert(first, text) => insertion(alloc, first, text),
        Deed::Delete(first, len) => {
            let targets = list_of(alloc, first, len)?;
            Ok(Body::Delete { targets })
        }
        Deed::Rename(first, len) => {
            let former = list_of(alloc, first, len)?;
            Ok(Body::Rename { former })
        }
        Deed::Leave => Ok(Body::Leave),
    }
}

/// The operation.
pub fn op_of(alloc: Global, told: Told<'_>) -> Result<Op, Fail> {
    let (author, seq, context, epoch, deed) = told;
    let context = Vector::from_counts(alloc, context)?;
    let body = body_of(alloc, deed)?;
    Ok(Op {
        author,
        seq,
        context,
        epoch,
        body,
    })
}
