//! What is written to the errors.

ghost use Rattle.std.specs.Prelude.{◌≡◌};
ghost use Rattle.rls_io.specs.Device.{Rose};
ghost use Rattle.rls_stages.specs.Endings.{IsFailureStatus, Writes, failure_line_at};

use rls_io::{Sink, write_all_of};
use rls_report::{Failure, Fault, failure_line};
use std::alloc::Global;

/// Writes the line of a failure, and answers its status. If no memory is found for the line, both are those of running out of memory.
/// If the sink fails, a part of the line was written, and the status is the same.
pub fn tell_failure<E: Sink>(alloc: Global, failure: Failure, errors: &mut E) -> u8
    ensures status { IsFailureStatus failure result }
    ensures line { Writes (Rose (E.faults errors.old) (E.faults errors.new)) (E.told errors.old) (E.told errors.new) (failure_line_at failure result) }
{
    if let Failure::Fault { fault } = failure {
        write_line(errors, fault.line());
        return failure.status();
    }
    match failure_line(alloc, failure) {
        Ok(line) => {
            write_line(errors, line.as_str());
            failure.status()
        }
        Err(_) => {
            write_line(errors, Fault::Memory.line());
            10
        }
    }
}

/// Writes a line, or a part of it if the sink fails.
pub fn write_line<E: Sink>(errors: &mut E, line: &str)
    ensures line { Writes (Rose (E.faults errors.old) (E.faults errors.new)) (E.told errors.old) (E.told errors.new) line.now }
{
    match write_all_of(errors, line.as_bytes()) {
        Ok(()) => {}
        Err(_) => {}
    }
}
