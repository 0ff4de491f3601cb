//! Large deletions, kept as values beside their bytes.
//! Why: CHOICES.md, 145.

ghost use Rattle.std.specs.Prelude.{◌≡◌, ℕ, List, Option, Some, Ok, true, not, nat_lt, IfOk, IfErr, IfSome, OnOk, OnErr};
ghost use Rattle.std.specs.List.{filter};
ghost use Rattle.rls_ops.specs.declared.op.Op.{Op as OpSeen};
ghost use Rattle.rls_codec.specs.Gives.{Fails};
ghost use Rattle.rls_codec.specs.Reading.{op_fields_at};
ghost use Rattle.rls_log.specs.Encoded.{op_in};
ghost use Rattle.rls_log.specs.Heads.{is_head_covered};
ghost use Rattle.rls_log.specs.Large.{AreLarge, with_value};

use crate::entry::Entry;
use crate::head::OpKind;
use rls_codec::{ReadError, op_fields};
use rls_ident::Vector;
use rls_ops::Op;
use std::alloc::{AllocError, Global};

/// Up to how many bytes a deletion is made of its bytes whenever it is asked for.
const SMALL: u64 = 512;

/// A large deletion as a value, and where its bytes stand.
#[derive(Drop)]
pub(crate) struct LargeDeletion {
    pub(crate) entry: Entry,
    pub(crate) op: Op,
}

// Whether an operation of this kind and with this many bytes is a large deletion.
pub(crate) fn is_large(kind: OpKind, len: u64) -> bool {
    kind == OpKind::Delete && len > SMALL
}

// Keeps a copy of the operation of an entry as a value, if it is a large deletion. After an error all is as before.
pub(crate) fn keep_large(
    values: &mut Vec<LargeDeletion>,
    entry: Entry,
    op: &Op,
) -> Result<(), AllocError>
    ensures ok { OnOk result ((v : Option OpSeen) × IfSome v (λ o. o ≡ op.now) × (values.new.items ≡ with_value values.old.items entry v)) }
    ensures err { OnErr result (values.new.items ≡ values.old.items) }
{
    if !is_large(entry.head.kind, entry.len as u64) {
        return Ok(());
    }
    keep_copy(values, entry, op)?;
    Ok(())
}

// Keeps a copy of the operation of an entry as a value. After an error all is as before. It stands apart, so that an operation of which
// none is kept makes no place for it.
#[inline(never)]
fn keep_copy(values: &mut Vec<LargeDeletion>, entry: Entry, op: &Op) -> Result<(), AllocError>
    ensures ok { OnOk result (values.new.items ≡ with_value values.old.items entry (Some op.now)) }
    ensures err { OnErr result (values.new.items ≡ values.old.items) }
{
    let op = op.copy()?;
    values.push(LargeDeletion { entry, op })?;
    Ok(())
}

// Keeps the operation of an entry as a value, if it is a large deletion: it is read from the front of the bytes, among this many members.
// After an error all is as before.
pub(crate) fn read_large(
    alloc: Global,
    values: &mut Vec<LargeDeletion>,
    entry: Entry,
    members: u32,
    bytes: &[u8],
) -> Result<(), ReadError>
    ensures ok { OnOk result ((v : Option OpSeen) × ((o : OpSeen) (rest : List ℕ) → op_fields_at members bytes.now ≡ Ok (o, rest) → IfSome v (λ p. p ≡ o)) × (values.new.items ≡ with_value values.old.items entry v)) }
    ensures err { OnErr result (values.new.items ≡ values.old.items) }
    ensures fails { IfErr result (λ e. Fails e (op_fields_at members bytes.now)) }
{
    if !is_large(entry.head.kind, entry.len as u64) {
        return Ok(());
    }
    let (op, _) = op_fields(alloc, members, bytes)?;
    values.push(LargeDeletion { entry, op })?;
    Ok(())
}

// Keeps the operation of an entry as a value, if there is one. Entries come in the order of their places. After an error all is as before.
pub(crate) fn keep_value(
    values: &mut Vec<LargeDeletion>,
    entry: Entry,
    op: Option<Op>,
) -> Result<(), AllocError>
    ensures ok { OnOk result (values.new.items ≡ with_value values.old.items entry op) }
    ensures err { OnErr result (values.new.items ≡ values.old.items) }
{
    if let Some(op) = op {
        values.push(LargeDeletion { entry, op })?;
    }
    Ok(())
}

// Gives up the values of the operations that a vector covers.
pub(crate) fn drop_covered(values: &mut Vec<LargeDeletion>, vector: &Vector)
    ensures kept { values.new.items ≡ filter (λ v. not (is_head_covered vector.now v.entry.head)) values.old.items }
{
    values.retain(|value| !value.entry.head.is_covered(vector));
}

// Gives up the values of the operations whose bytes begin at this place or later.
pub(crate) fn drop_from(values: &mut Vec<LargeDeletion>, place: usize)
    ensures kept { values.new.items ≡ filter (λ v. nat_lt v.entry.start place) values.old.items }
{
    values.retain(|value| value.entry.start < place);
}

// The value of the operation of an entry, if it is kept.
pub(crate) fn value_of<'a>(values: &'a [LargeDeletion], entry: &Entry) -> Option<&'a Op>
    ensures value { (bytes : List ℕ) → AreLarge bytes values.now → IfSome result (λ op. op.now ≡ op_in bytes entry.now) }
{
    if !is_large(entry.head.kind, entry.len as u64) {
        return None;
    }
    let Ok(place) = values.binary_search_by_key(&entry.start, |value| value.entry.start) else {
        return None;
    };
    let value = &values[place];
    if is_same(&value.entry, entry) {
        return Some(&value.op);
    }
    None
}

// A copy of the value of the operation of an entry, if it is kept.
pub(crate) fn copy_of_value(
    values: &[LargeDeletion],
    entry: &Entry,
) -> Result<Option<Op>, AllocError>
    ensures copy { (bytes : List ℕ) → AreLarge bytes values.now → IfOk result (λ copy. IfSome copy (λ o. o ≡ op_in bytes entry.now)) }
{
    match value_of(values, entry) {
        Some(op) => Ok(Some(op.copy()?)),
        None => Ok(None),
    }
}

// Whether two entries are of the same bytes.
fn is_same(one: &Entry, other: &Entry) -> bool
    ensures same { result ≡ true → (one.now.start ≡ other.now.start) × (one.now.len ≡ other.now.len) × (one.now.head.members ≡ other.now.head.members) }
{
    one.start == other.start && one.len == other.len && one.head.members == other.head.members
}
