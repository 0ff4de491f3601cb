//! Operations and messages, written.
//! Why: CHOICES.md, 51.

ghost use Rattle.std.specs.Prelude.{◌≡◌, ◌<◌, ◌≤◌, ◌^◌, ◌++◌, [], ◌∷◌, length, codes, All, IfOk, OnOk, OnErr};
ghost use Rattle.std.specs.List.{flat_map};
ghost use Rattle.rls_ident.specs.declared.limits.TheConstants.{INPUT_BYTES};
ghost use Rattle.rls_ops.specs.Spelling.{counted, kind_of, body_bytes, op_bytes, message_bytes, message_form, message_head};
ghost use Rattle.rls_ops.specs.Sizes.{op_size, message_size};
ghost use Rattle.rls_ops.specs.WellFormed.{IsSmall, IsBody};
ghost use Rattle.rls_codec.specs.Gives.{IsShort, IsFrontOf};
ghost use Rattle.rls_codec.specs.Spelled.{FitsBody, FieldsFit, IsSpelledIfFit, IsFit};
ghost use Rattle.rls_codec.specs.CodecLaws.{IsMessage};

use crate::lists::{Part, put_list};
use crate::puts::{
    put_byte, put_ident, put_name, put_pair, put_runs, put_text, put_u32, put_u64, put_vector,
};
use rls_ident::Vector;
use rls_ops::{Body, Message, Op, Ops};
use std::alloc::{AllocError, Global};

/// The form in which messages are written.
const MESSAGE_FORM: u8 = 3;

fn put_body(out: &mut Vec<u8>, body: &Body) -> Result<(), AllocError>
    requires { IsShort body.now }
    ensures ok { OnOk result (out.new.items ≡ out.old.items ++ (kind_of body.now ∷ []) ++ body_bytes body.now) }
    ensures keeps { IsFrontOf out.old.items out.new.items }
    ensures fits { OnOk result (IsBody body.now → FitsBody body.now) }
{
    match body {
        Body::Insert { first, text } => {
            put_byte(out, 0)?;
            put_ident(out, first)?;
            put_text(out, text)?;
            Ok(())
        }
        Body::Delete { targets } => {
            put_byte(out, 1)?;
            put_runs(out, targets)?;
            Ok(())
        }
        Body::Rename { former } => {
            put_byte(out, 2)?;
            put_runs(out, former)?;
            Ok(())
        }
        Body::Leave => {
            put_byte(out, 3)?;
            Ok(())
        }
    }
}

/// Appends an operation; the cost is that of its runs and characters.
#[tactic(auto, using(crate::proofs::SizeLaws::short_op, crate::proofs::Fits::op_fits, crate::proofs::Fits::fields_fit), unfolding(rls_ops::specs::Spelling::op_bytes))]
pub fn put_op(out: &mut Vec<u8>, op: &Op) -> Result<(), AllocError>
    requires small { op_size op.now < 2 ^ 32 }
    ensures ok { OnOk result (out.new.items ≡ out.old.items ++ op_bytes op.now) }
    ensures keeps { IsFrontOf out.old.items out.new.items }
    ensures fits { OnOk result (IsSpelledIfFit op.now) }
    ensures fields { OnOk result (IsBody op.now.body → FieldsFit (length op.now.context) op.now) }
{
    put_pair(out, op.author, op.seq)?;
    put_vector(out, &op.context)?;
    put_name(out, op.epoch)?;
    put_body(out, &op.body)?;
    Ok(())
}

/// Appends the bytes of an operation, or nothing where memory runs out. The cost is that of its runs and characters.
pub fn encode_op(out: &mut Vec<u8>, op: &Op) -> Result<(), AllocError>
    requires small { op_size op.now < 2 ^ 32 }
    ensures ok { OnOk result (out.new.items ≡ out.old.items ++ op_bytes op.now) }
    ensures err { OnErr result (out.new.items ≡ out.old.items) }
    ensures spelled { OnOk result (IsSpelledIfFit op.now) }

    // Its fields have a spelling, however many bytes it has.
    ensures fields { OnOk result (IsBody op.now.body → FieldsFit (length op.now.context) op.now) }
{
    let start = out.len();
    match put_op(out, op) {
        Ok(()) => Ok(()),
        Err(e) => {
            out.truncate(start);
            Err(e)
        }
    }
}

impl Part for Op {
    ghost bytes = { op_bytes };

    ghost IsShort = { λ o. op_size o < 2 ^ 32 };

    ghost Fits = { IsSpelledIfFit };

    fn put(&self, out: &mut Vec<u8>) -> Result<(), AllocError> {
        put_op(out, self)
    }
}

/// Appends the number of operations, and the operations.
pub fn put_ops(out: &mut Vec<u8>, ops: &Ops) -> Result<(), AllocError>
    requires count { length ops.now < 2 ^ 32 }
    requires small { All (λ o. op_size o < 2 ^ 32) ops.now }
    ensures ok { OnOk result (out.new.items ≡ out.old.items ++ counted op_bytes ops.now) }
    ensures keeps { IsFrontOf out.old.items out.new.items }
    ensures fits { OnOk result (All IsSpelledIfFit ops.now) }
{
    let list = ops.as_slice();
    put_u32(out, list.len() as u32)?;
    put_list(out, list)?;
    Ok(())
}

fn put_magic(out: &mut Vec<u8>) -> Result<(), AllocError>
    ensures ok { OnOk result (out.new.items ≡ out.old.items ++ codes "RLSM") }
{
    out.extend_from_slice(b"RLSM")
}

/// Appends what stands in a message of the newest form before its operations: magic text, form, group, count of members, sender, and how
/// many operations of each member the sender has accepted.
pub fn put_head(
    out: &mut Vec<u8>,
    group: u64,
    members: u32,
    from: u32,
    vector: &Vector,
) -> Result<(), AllocError>
    ensures ok { OnOk result (out.new.items ≡ out.old.items ++ message_head message_form group members from vector.now) }
    ensures small { OnOk result (All IsSmall vector.now) }
{
    put_magic(out)?;
    put_byte(out, MESSAGE_FORM)?;
    put_u64(out, group)?;
    put_u32(out, members)?;
    put_u32(out, from)?;
    put_vector(out, vector)?;
    Ok(())
}

#[tactic(auto, using(crate::proofs::SizeLaws::few_ops, crate::proofs::SizeLaws::small_ops), unfolding(rls_ops::specs::Spelling::message_head, rls_ops::specs::Spelling::message_in_form))]
fn written(alloc: Global, message: &Message) -> Result<Vec<u8>, AllocError>
    requires limit { message_size message.now ≤ INPUT_BYTES }
    ensures bytes { IfOk result (λ bytes. bytes.items ≡ message_bytes message.now) }
    ensures group { OnOk result (message.now.group < 2 ^ 64) }
    ensures vector { OnOk result (All IsSmall message.now.vector) }
    ensures count { OnOk result (length message.now.ops < 2 ^ 32) }
    ensures ops { OnOk result (All IsSpelledIfFit message.now.ops) }
{
    let mut out = Vec::new(alloc);
    put_head(
        &mut out,
        message.group,
        message.members,
        message.from,
        &message.vector,
    )?;
    put_ops(&mut out, &message.ops)?;
    Ok(out)
}

/// The bytes of a message, in the newest form. They are a message where it keeps the rules of the format. The cost is that of its operations.
#[tactic(auto, using(crate::proofs::Fits::message_fits))]
pub fn encode_message(alloc: Global, message: &Message) -> Result<Vec<u8>, AllocError>
    requires limit { message_size message.now ≤ INPUT_BYTES }
    ensures bytes { IfOk result (λ bytes. bytes.items ≡ message_bytes message.now) }
    ensures message { IfOk result (λ bytes. IsFit message.now → IsMessage bytes.items message.now) }
{
    let bytes = written(alloc, message)?;
    Ok(bytes)
}
