//! Runs of the text, with their characters.

ghost use Rattle.std.specs.Prelude.{◌≡◌, ◌==◌, None, length, option_copied};
ghost use Rattle.rls_runs.specs.Runs.{is_apart};
ghost use Rattle.rls_codec.specs.Gives.{Gives};
ghost use Rattle.rls_codec.specs.Reading.{with_rule, counted_at, next_run_at, text_at};
ghost use Rattle.rls_fields.specs.ReadingFields.{run_before, text_run_at};

use crate::lists::{Found, Items, list};
use rls_codec::{ReadError, run, text, u32_at};
use rls_model::{TextRun, TextRuns};
use rls_runs::{Run, Text};
use std::alloc::Global;

// Whether the run is above the one before, where there is one, and doesn't touch it.
fn is_apart(before: Option<&TextRun>, run: &Run) -> bool
    ensures apart { result ≡ is_apart (run_before (option_copied before.entry)) run.now }
{
    match before {
        None => true,
        Some(before) => before.run.ends_below(run.first()) && !before.run.touches(run.first()),
    }
}

// A run after the one before.
fn next_run<'a>(alloc: Global, before: Option<&TextRun>, bytes: &'a [u8]) -> Found<'a, Run>
    ensures read { Gives (λ x. (x.0, x.1.now)) result (next_run_at (run_before (option_copied before.entry)) bytes.now) }
{
    let (found, rest) = run(alloc, bytes)?;
    if !is_apart(before, &found) {
        return Err(ReadError::Fault { left: bytes.len() });
    }
    Ok((found, rest))
}

// A text of so many characters.
fn text_of_len(alloc: Global, len: u32, bytes: &[u8]) -> Found<'_, Text>
    ensures read { Gives (λ x. (x.0, x.1.now)) result (with_rule (λ cs. length cs == len) text_at bytes.now) }
{
    let (found, rest) = text(alloc, bytes)?;
    if found.len() != len as usize {
        return Err(ReadError::Fault { left: bytes.len() });
    }
    Ok((found, rest))
}

// Runs, each after the one before, with their characters.
#[derive(Drop)]
struct TextRunItems(Global);

impl Items for TextRunItems {
    type Item = TextRun;

    ghost item_at = { λ r. text_run_at };

    #[tactic(auto, unfolding(crate::specs::ReadingFields::text_run_at))]
    fn next<'a>(&self, before: Option<&TextRun>, bytes: &'a [u8]) -> Found<'a, TextRun> {
        let (run, rest) = next_run(self.0, before, bytes)?;
        let (text, rest) = text_of_len(self.0, run.len(), rest)?;
        Ok((TextRun { run, text }, rest))
    }
}

/// The runs after their number.
pub(crate) fn text_runs(alloc: Global, bytes: &[u8]) -> Found<'_, TextRuns>
    ensures read { Gives (λ x. (x.0, x.1.now)) result (counted_at text_run_at bytes.now) }
{
    let (count, rest) = u32_at(bytes)?;
    let (runs, rest) = list(alloc, &TextRunItems(alloc), count, rest)?;
    Ok((runs, rest))
}
