//! Names that come one by one, and are pushed run by run: the last ones wait until another run begins.

ghost use Rattle.std.specs.Prelude.{◌≡◌, ◌++◌, ◌∷◌, [], length, take, IfOk, OnOk, OnErr};
ghost use Rattle.rls_steps.specs.NameRuns.{names_in, names_of};

use crate::name_run::NameRun;
use crate::names::Names;
use rls_ident::Ident;
use std::alloc::AllocError;

/// One more name, which waits. Those that it doesn't go on from are pushed.
pub(crate) fn add_pending(
    names: &mut Names,
    last: Option<NameRun>,
    ident: Ident,
    label: u64,
) -> Result<NameRun, AllocError>
    ensures names { IfOk result (λ r. names.new ++ names_of r ≡ (names.old ++ names_in last) ++ (ident, label) ∷ []) }
    ensures front { take (length names.old) names.new ≡ names.old }
{
    match last {
        None => Ok(NameRun::of(ident, label)),
        Some(mut run) => {
            if run.take(&ident, label) {
                return Ok(run);
            }
            names.push_run(run)?;
            Ok(NameRun::of(ident, label))
        }
    }
}

/// Pushes the names that wait.
pub(crate) fn push_pending(names: &mut Names, last: Option<NameRun>) -> Result<(), AllocError>
    ensures names { OnOk result (names.new ≡ names.old ++ names_in last) }
    ensures stay { OnErr result (names.new ≡ names.old) }
{
    match last {
        None => Ok(()),
        Some(run) => names.push_run(run),
    }
}
