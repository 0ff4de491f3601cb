//! The head of a file, read.

ghost use Rattle.std.specs.Prelude.{◌≡◌};
ghost use Rattle.rls_codec.specs.Gives.{Gives};
ghost use Rattle.rls_codec.specs.Reading.{with_rule, byte_at};
ghost use Rattle.rls_file.specs.ReadingFiles.{is_file_form, form_at};

use rls_codec::{ReadError, byte, magic};

/// The newest form.
const NEWEST_FORM: u8 = 4;

fn form_byte(bytes: &[u8]) -> Result<(u8, &[u8]), ReadError>
    ensures read { Gives (λ x. (x.0, x.1.now)) result (with_rule is_file_form byte_at bytes.now) }
{
    let (form, rest) = byte(bytes)?;
    if form < 1 || form > NEWEST_FORM {
        return Err(ReadError::Fault { left: bytes.len() });
    }
    Ok((form, rest))
}

/// The form, from 1 to 4, which follows the magic text.
pub fn form(bytes: &[u8]) -> Result<(u8, &[u8]), ReadError>
    ensures read { Gives (λ x. (x.0, x.1.now)) result (form_at bytes.now) }
{
    let rest = magic(b"RLSF", bytes)?;
    form_byte(rest)
}
