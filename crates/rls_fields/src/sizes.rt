//! How many bytes the entries of a snapshot have: each number is the greatest u64 where there are more.

ghost use Rattle.std.specs.Prelude.{◌≡◌, ◌-◌, ◌+◌, ◌^◌, ℕ, min, sum_by};
ghost use Rattle.rls_ops.specs.Sizes.{run_size, char_size, op_size};
ghost use Rattle.rls_fields.specs.FieldSizes.{row_size, epoch_size, text_run_size};

use rls_ident::Vector;
use rls_model::{EpochPart, TextRun};
use rls_ops::Op;
use rls_ops::size::{name_len, run_len, runs_len, text_len};
use rls_runs::{Run, Text};

/// An entry of a list.
pub(crate) trait Entry {
    ghost size: { Self → ℕ };

    fn spelled_len(&self) -> u64
        ensures size { result ≡ min (size self.now) (2 ^ 64 - 1) };
}

// A row.
impl Entry for Vector {
    ghost size = { row_size };

    fn spelled_len(&self) -> u64 {
        (self.len() as u64).saturating_mul(4)
    }
}

// The topmost epoch has its name alone.
impl Entry for EpochPart {
    ghost size = { epoch_size };

    fn spelled_len(&self) -> u64 {
        let name = name_len(&self.name);
        match self.parent {
            None => name,
            Some(_) => runs_len(self.former.as_slice())
                .saturating_add(4)
                .saturating_add(name),
        }
    }
}

impl Entry for TextRun {
    ghost size = { text_run_size };

    fn spelled_len(&self) -> u64 {
        text_run_len(&self.run, &self.text)
    }
}

impl Entry for Op {
    ghost size = { op_size };

    fn spelled_len(&self) -> u64 {
        self.encoded_len()
    }
}

/// A run of the text with its characters.
pub(crate) fn text_run_len(run: &Run, text: &Text) -> u64
    ensures size { result ≡ min (run_size run.now + (4 + sum_by char_size text.now)) (2 ^ 64 - 1) }
{
    run_len(run).saturating_add(text_len(text))
}

/// These entries, without their number.
pub(crate) fn entries_len<E: Entry>(entries: &[E]) -> u64
    ensures size { result ≡ min (sum_by E.size entries.now) (2 ^ 64 - 1) }
{
    let mut total: u64 = 0;
    for entry in entries {
        total = total.saturating_add(entry.spelled_len());
    }
    total
}
