//! Refused operations.

ghost use Rattle.std.specs.Prelude.{◌≡◌, ◌++◌, Option, OnOk, IfOk, string_bytes};
ghost use Rattle.rls_model.specs.Answers.{reason_of};
ghost use Rattle.rls_report.specs.Refused.{shape_text, stem_text, reason_text, refused_line};

use crate::pieces::{put_ident, put_name, put_spaced};
use rls_model::Refusal;
use rls_ops::Shape;
use std::alloc::{AllocError, Global};

fn put_shape(text: &mut String, shape: &Shape) -> Result<(), AllocError>
    ensures ok { OnOk result (string_bytes text.new ≡ string_bytes text.old ++ shape_text shape.now) }
{
    match shape {
        Shape::Author => text.push_str("author"),
        Shape::Context => text.push_str("context"),
        Shape::EmptyBody => text.push_str("empty"),
        Shape::TooLong { n } => write!(text, "too long {n}"),
        Shape::OffsetEnd => text.push_str("offset end"),
    }
}

fn put_stem(text: &mut String, due: Option<u32>) -> Result<(), AllocError>
    ensures ok { OnOk result (string_bytes text.new ≡ string_bytes text.old ++ stem_text due) }
{
    match due {
        None => text.push_str("none"),
        Some(next) => write!(text, "{next}"),
    }
}

fn put_reason(text: &mut String, refusal: &Refusal) -> Result<(), AllocError>
    ensures ok { OnOk result (string_bytes text.new ≡ string_bytes text.old ++ reason_text (reason_of refusal.now)) }
{
    match refusal {
        Refusal::Shape(shape) => put_shape(text, shape),
        Refusal::Own { .. } => text.push_str("own"),
        Refusal::Forked { .. } => text.push_str("forked"),
        Refusal::Left { seq } => write!(text, "left {seq}"),
        Refusal::Backward { known } => {
            text.push_str("backward")?;
            put_spaced(text, known.counts())?;
            Ok(())
        }
        Refusal::WrongEpoch { due } => {
            text.push_str("wrong epoch ")?;
            put_name(text, *due)?;
            Ok(())
        }
        Refusal::WrongStem { due } => {
            text.push_str("wrong stem ")?;
            put_stem(text, *due)?;
            Ok(())
        }
        Refusal::UnknownTarget { id } => {
            text.push_str("unknown target ")?;
            put_ident(text, id)?;
            Ok(())
        }
    }
}

/// The line for a refused operation of this author and number, with its line feed. The time is
/// linear in the line's length.
pub fn refusal_line(
    alloc: Global,
    author: u32,
    seq: u32,
    refusal: &Refusal,
) -> Result<String, AllocError>
    ensures line { IfOk result (λ text. string_bytes text ≡ refused_line author seq (reason_of refusal.now)) }
{
    let mut text = format!(in alloc; "refused {author} {seq} ")?;
    put_reason(&mut text, refusal)?;
    text.push('\n')?;
    Ok(text)
}
