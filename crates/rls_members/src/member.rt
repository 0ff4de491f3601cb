//! One member's file in memory, over which the program runs.

ghost use Rattle.std.specs.Prelude.{◌≡◌, ◌<◌, ◌≤◌, ℕ, List, length, map, slice_get, string_bytes, Some, None, IsSome, IfOk, IfSome};
ghost use Rattle.rls_ident.specs.declared.limits.TheConstants.{MEMBERS};
ghost use Rattle.rls_codec.specs.CodecLaws.{IsBytes};
ghost use Rattle.rls_model.specs.Receiving.{State};
ghost use Rattle.rls_top.specs.Due.{due};
ghost use Rattle.rls_top.specs.Groups.{IsFileOf, fresh_group};
ghost use Rattle.rls_session.specs.Endings.{IsSessionStatus};
ghost use Rattle.rls_groups.specs.Lives.{Life, lived};
ghost use Rattle.rls_groups.specs.Runs.{file_at};
ghost use Rattle.rls_members.specs.Running.{EndsAs, performed};
ghost use Rattle.rls_members.specs.Sessions.{IsLeftBy};

use crate::words::words_of_new;
use rls_groups::laws::{groups_converge, runs_are_events};
use rls_ident::rely;
use rls_io::{MemoryKeeper, MemorySink, MemorySource, Sink, Source};
use rls_session::serve;
use rls_top::run;
use std::alloc::Global;
use std::marker::Model;

/// A keeper in memory that has a file.
#[derive(Drop)]
pub(crate) struct Member {
    keeper: MemoryKeeper,
}

impl Model for Member {
    ghost use Rattle.std.specs.Prelude.{ℕ, List, IsSome};
    ghost use Rattle.rls_members.specs.Members.{file_in};

    ghost Value = { List ℕ };

    ghost view = { λ m. file_in m.keeper.file };

    ghost invariant = { λ m. IsSome m.keeper.file };
}

/// A message that was sent, in the output to which it was printed.
#[derive(Drop)]
pub(crate) struct Message {
    output: MemorySink,
}

impl Model for Message {
    ghost use Rattle.std.specs.Prelude.{ℕ, List};

    ghost Value = { List ℕ };

    ghost view = { λ m. m.output.written };
}

impl Message {
    /// The one that was printed to this output.
    pub(crate) fn of(output: MemorySink) -> Message
        ensures message { result ≡ output.written }
    {
        Message { output }
    }

    /// Its bytes.
    pub(crate) fn bytes(&self) -> &[u8]
        ensures bytes { result.now ≡ self.now }
    {
        self.output.written()
    }
}

impl Member {
    /// A member to whom nothing has happened, whose file `new` stores. If it couldn't, the status of `new`, or 10.
    pub(crate) fn new(alloc: Global, group: u64, me: u32, members: u32) -> Result<Member, u8>
        requires me { me < members }
        requires most { members ≤ MEMBERS }
        ensures fresh { IfOk result (λ file. slice_get (fresh_group group members).files me ≡ Some file) }
    {
        let Ok(mut keeper) = MemoryKeeper::new(alloc, None, &[]) else {
            return Err(10);
        };
        let status = made(alloc, group, me, members, &mut keeper);
        if status != 0 {
            return Err(status);
        }
        Ok(Member { keeper })
    }

    /// The file.
    pub(crate) fn file(&self) -> &[u8]
        ensures file { result.now ≡ self.now }
    {
        match self.keeper.file() {
            Some(bytes) => bytes,
            None => unreachable!(),
        }
    }

    /// Runs these words over this input, and answers the program's exit status.
    pub(crate) fn run<S: Source, W: Sink, E: Sink>(
        &mut self,
        alloc: Global,
        words: &[String],
        input: &mut S,
        output: &mut W,
        errors: &mut E,
    ) -> u8
        requires told { IsSome (S.left input.old) }
        ensures event { IfSome (S.left input.old) (λ given. (l : Life) (i : ℕ) → file_at l.group i ≡ Some self.old → file_at (lived l (performed i (map string_bytes words.now) given result)).group i ≡ Some self.new) }
        ensures ends { IfSome (S.left input.old) (λ given. EndsAs (due (map string_bytes words.now) (Some (Some self.old)) (Some given)) result (W.told output.old) (W.told output.new)) }
    {
        rely!(runs_are_events::<MemoryKeeper, S, W>());
        run(alloc, words, &mut self.keeper, input, output, errors)
    }

    /// Holds a session over this input, and answers the program's exit status.
    pub(crate) fn serve<S: Source, W: Sink, E: Sink>(
        &mut self,
        alloc: Global,
        input: &mut S,
        output: &mut W,
        errors: &mut E,
    ) -> u8
        ensures stores { IfSome (S.left input.old) (λ given. (l : Life) (i : ℕ) (t : State) → file_at l.group i ≡ Some self.old → IsFileOf l.group i t → IsBytes given → IsLeftBy l i given result self.new (W.told output.old) (W.told output.new)) }
        ensures status { IsSessionStatus result }
    {
        rely!(runs_are_events::<MemoryKeeper, S, W>());
        serve(alloc, &mut self.keeper, input, output, errors)
    }
}

// The status of `new` over this keeper, which has no file.
fn made(alloc: Global, group: u64, me: u32, members: u32, keeper: &mut MemoryKeeper) -> u8
    requires empty { keeper.old.file ≡ None }
    requires me { me < members }
    requires most { members ≤ MEMBERS }
    ensures stored { result ≡ 0 → (bytes : List ℕ) × (keeper.new.file ≡ Some bytes) × (slice_get (fresh_group group members).files me ≡ Some bytes) }
{
    rely!(groups_converge());
    let Ok(words) = words_of_new(alloc, group, me, members) else {
        return 10;
    };
    let Ok(mut input) = MemorySource::new(alloc, &[], &[]) else {
        return 10;
    };
    let Ok(mut output) = MemorySink::new(alloc, 100, &[]) else {
        return 10;
    };
    let Ok(mut errors) = MemorySink::new(alloc, 0, &[]) else {
        return 10;
    };
    run(alloc, &words, keeper, &mut input, &mut output, &mut errors)
}
