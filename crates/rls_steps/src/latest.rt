//! The newest names of labels.

ghost use Rattle.std.specs.Prelude.{◌≡◌, ◌<◌, ◌≤◌, ◌^◌, length, take, reverse};
ghost use Rattle.rls_steps.specs.NameRuns.{AreSound, named, starts_of};
ghost use Rattle.rls_steps.specs.Index.{newest_at};

use crate::name_run::NameRun;

/// The place of a label's newest name in the first runs, if it has one there. It costs a look at each run from the end to that name.
pub(crate) fn newest_in(
    runs: &[NameRun],
    starts: &[usize],
    count: usize,
    label: u64,
) -> Option<usize>
    requires sound { AreSound runs.now }
    requires starts { starts.now ≡ starts_of 0 runs.now }
    requires few { length (named runs.now) < 2 ^ 64 }
    requires count { count ≤ length runs.now }
    ensures newest { result ≡ newest_at (reverse (named (take count runs.now))) label }
{
    let mut i = count;
    'runs: while i > 0 {
        i -= 1;
        if let Some(place) = runs[i].find_label(label) {
            return Some(starts[i] + place);
        }
    }
    None
}
