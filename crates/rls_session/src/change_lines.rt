//! The lines that tell what changed in the text.
//! Why: docs/DECISIONS.md, 132.

ghost use Rattle.std.specs.Prelude.{◌≡◌, ◌++◌, ◌∷◌, [], Some, IfOk, OnOk, encode_utf8_all};
ghost use Rattle.std.specs.String.{string_bytes};
ghost use Rattle.rls_script.specs.Scripts.{text_of};
ghost use Rattle.rls_session.specs.ChangeLines.{change_lines, change_text, changes_text, escaped, escaped_char};

use rls_changes::Change;
use rls_runs::Text;
use std::alloc::{AllocError, Global};

/// Puts a line with the number of these changes after the reply, and then a line for each of them.
pub(crate) fn push_changes(
    alloc: Global,
    reply: &mut Vec<u8>,
    changes: &[Change],
) -> Result<(), AllocError>
    ensures ok { OnOk result (reply.new.items ≡ reply.old.items ++ changes_text changes.now) }
{
    let count = changes.len();
    let head = format!(in alloc; "changes {count}\n")?.into_bytes();
    reply.extend_from_slice(&head)?;
    push_lines(alloc, reply, changes)
}

// A line for each of these changes.
fn push_lines(alloc: Global, reply: &mut Vec<u8>, changes: &[Change]) -> Result<(), AllocError>
    ensures ok { OnOk result (reply.new.items ≡ reply.old.items ++ change_lines changes.now) }
{
    'changes: for i in 0..changes.len() {
        let line = change_line(alloc, &changes[i])?;
        reply.extend_from_slice(&line)?;
    }
    Ok(())
}

// The line of a script that makes this change.
fn change_line(alloc: Global, change: &Change) -> Result<Vec<u8>, AllocError>
    ensures text { IfOk result (λ text. text.items ≡ change_text change.now) }
{
    match change {
        Change::Insert { at, text } => {
            let text = escaped(alloc, text)?;
            Ok(format!(in alloc; "i {at} {text}\n")?.into_bytes())
        }
        Change::Delete { at, count } => Ok(format!(in alloc; "d {at} {count}\n")?.into_bytes()),
    }
}

// A text as a script writes it.
fn escaped(alloc: Global, text: &Text) -> Result<String, AllocError>
    ensures utf8 { IfOk result (λ utf8. string_bytes utf8 ≡ encode_utf8_all (escaped text.now)) }

    // A script reads it as that text.
    ensures meaning { text_of (escaped text.now) ≡ Some text.now }
{
    let (front, back) = text.as_slices();
    let mut written = Text::new(alloc);
    push_escaped(&mut written, front)?;
    push_escaped(&mut written, back)?;
    written.to_utf8()
}

// These characters as a script writes them.
fn push_escaped(written: &mut Text, chars: &[char]) -> Result<(), AllocError>
    ensures ok { OnOk result (written.new ≡ written.old ++ escaped chars.now) }
{
    'chars: for i in 0..chars.len() {
        push_escaped_char(written, chars[i])?;
    }
    Ok(())
}

// A character as a script writes it.
fn push_escaped_char(written: &mut Text, c: char) -> Result<(), AllocError>
    ensures ok { OnOk result (written.new ≡ written.old ++ escaped_char c) }
{
    match c {
        '\n' => push_both(written, 'n'),
        '\r' => push_both(written, 'r'),
        '\\' => push_both(written, '\\'),
        c => written.push(c),
    }
}

// A backslash and this character.
fn push_both(written: &mut Text, c: char) -> Result<(), AllocError>
    ensures ok { OnOk result (written.new ≡ written.old ++ 92 ∷ c ∷ []) }
{
    written.push('\\')?;
    written.push(c)
}
