//! The input.

ghost use Rattle.std.specs.Prelude.{◌≡◌, Err, IfSome};
ghost use Rattle.rls_io.specs.Device.{Rose};
ghost use Rattle.rls_stages.specs.Errors.{Gives};
ghost use Rattle.rls_top.specs.Answered.{ReadsUnlessFailed};
ghost use Rattle.rls_top.specs.Due.{read};
ghost use Rattle.rls_top.specs.Stages.{of_input};

use crate::stages::InputError;
use rls_ident::limits::INPUT_BYTES;
use rls_io::{ReadError, Source, read_all};
use rls_report::CommandError;
use rls_stages::WorkError;
use std::alloc::Global;

/// The whole input.
pub(crate) fn read<S: Source>(alloc: Global, input: &mut S) -> Result<Vec<u8>, InputError>
    ensures read { IfSome (S.left input.old) (λ given. Gives of_input (λ bytes. bytes.items) result (read given)) }
    ensures came { ReadsUnlessFailed S.read_gives (λ given. Gives of_input (λ bytes. bytes.items) result (read given)) result input.old input.new }
    ensures input { result ≡ Err InputError.SourceFault → Rose (S.faults input.old) (S.faults input.new) }
{
    match read_all(alloc, input, INPUT_BYTES) {
        Ok(bytes) => Ok(bytes),
        Err(ReadError::Fault) => Err(InputError::SourceFault),
        Err(ReadError::TooLarge) => Err(InputError::from(WorkError::Command {
            error: CommandError::TooLarge,
        })),
        Err(ReadError::OutOfMemory) => Err(InputError::from(WorkError::OutOfMemory)),
    }
}
