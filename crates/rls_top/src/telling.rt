//! The status of an end, and what is written to the errors.

ghost use Rattle.std.specs.Prelude.{◌≡◌, string_bytes};
ghost use Rattle.rls_io.specs.Device.{Rose};
ghost use Rattle.rls_stages.specs.Endings.{Writes};
ghost use Rattle.rls_top.specs.Stages.{IsStatusOf, line_of};

use crate::made::Made;
use rls_io::Sink;
use rls_report::Failure;
use rls_stages::{tell_failure, write_line};
use std::alloc::Global;

/// Writes the lines of this end, and answers its status.
pub(crate) fn tell<E: Sink>(alloc: Global, ending: Result<Made, Failure>, errors: &mut E) -> u8
    ensures status { IsStatusOf ending result }
    ensures line { Writes (Rose (E.faults errors.old) (E.faults errors.new)) (E.told errors.old) (E.told errors.new) (line_of ending result) }
{
    match ending {
        Ok(made) => {
            write_line(errors, made.lines.as_str());
            if made.refused == 0 { 0 } else { 5 }
        }
        Err(failure) => tell_failure(alloc, failure, errors),
    }
}
