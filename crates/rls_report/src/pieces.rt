//! Pieces of texts, which are put after what stands there. After an error a part of the piece may stand there.

ghost use Rattle.std.specs.Prelude.{◌≡◌, ◌++◌, OnOk, string_bytes};
ghost use Rattle.rls_report.specs.Texts.{spaced, tuple_text, ident_text, name_text};

use rls_ident::{EpochName, Ident, Tuple};
use std::alloc::AllocError;

/// Each number after a space.
pub(crate) fn put_spaced(text: &mut String, numbers: &[u32]) -> Result<(), AllocError>
    ensures ok { OnOk result (string_bytes text.new ≡ string_bytes text.old ++ spaced numbers.now) }
{
    for number in numbers {
        write!(text, " {number}")?;
    }
    Ok(())
}

pub(crate) fn put_name(text: &mut String, name: EpochName) -> Result<(), AllocError>
    ensures ok { OnOk result (string_bytes text.new ≡ string_bytes text.old ++ name_text name) }
{
    match name {
        EpochName::Origin => text.push_str("origin"),
        EpochName::Of { replica, seq } => write!(text, "{replica} {seq}"),
    }
}

fn put_tuple(text: &mut String, tuple: Tuple) -> Result<(), AllocError>
    ensures ok { OnOk result (string_bytes text.new ≡ string_bytes text.old ++ tuple_text tuple) }
{
    match tuple {
        Tuple::Low => text.push_str("low"),
        Tuple::At {
            pos,
            replica,
            seq,
            offset,
        } => write!(text, "{pos}.{replica}.{seq}.{offset}"),
        Tuple::High => text.push_str("high"),
    }
}

/// The tuples of an identifier, after what stands in the text, each as `low`, `high` or four numbers with points between, with a slash
/// between two. After an error a part of them may stand there.
pub fn put_ident(text: &mut String, ident: &Ident) -> Result<(), AllocError>
    ensures ok { OnOk result (string_bytes text.new ≡ string_bytes text.old ++ ident_text ident.now) }
{
    for tuple in ident.front() {
        put_tuple(text, *tuple)?;
        text.push('/')?;
    }
    put_tuple(text, ident.last().as_tuple())?;
    Ok(())
}
