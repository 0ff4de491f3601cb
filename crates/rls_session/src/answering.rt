//! The requests of an input, answered one after another.

ghost use Rattle.std.specs.Prelude.{◌≡◌, is_ok, ◌+◌, ◌≤◌, ◌<◌, ℕ, IsTrue, IsFalse, length, take, Some, None, Ok, Err, IfOk, OnOk, OnErr, IfErr, IfSome};
ghost use Rattle.std.specs.List.{position_or_len};
ghost use Rattle.rls_ident.specs.declared.limits.TheConstants.{INPUT_BYTES};
ghost use Rattle.rls_io.specs.Device.{Rose, Appends, IsCutShort, Passes, PassesAndFails};
ghost use Rattle.rls_io.specs.declared.reading.ReadError.TheVariants as read;
ghost use Rattle.rls_script.specs.Scripts.{is_line_feed};
ghost use Rattle.rls_stages.specs.Endings.{IsPart};
ghost use Rattle.rls_session.specs.Answering.{is_store, of_answer, of_read, HasNoLine, IsDone, IsNear, IsNext, IsPaused, IsPrompt, IsReplied, IsUnused, LacksPart};
ghost use Rattle.rls_session.specs.AsTold.{AllAnswered, Exchanged, Given, OrderAnswered, OrderTaken};
ghost use Rattle.rls_session.specs.Courses.{course, courses, holds, replies_in};
ghost use Rattle.rls_session.specs.Drafts.{no_draft};
ghost use Rattle.rls_session.specs.Intake.{known_come, taken, to_come, KnowsEnd, KeepsEnd};
ghost use Rattle.rls_session.specs.Requests.{Does, cut_after};
ghost use Rattle.rls_session.specs.Seats.{IsDrafted, respond, resumed_seat, seat_of, seated};
ghost use Rattle.rls_session.specs.Sent.{SendsFrom};
ghost use Rattle.rls_session.specs.Sessions.{by_parts};
ghost use Rattle.rls_session.specs.declared.answering.AnswerError.TheVariants as AnswerError;
ghost use Rattle.rls_session.specs.declared.answering.Halt.TheVariants as Halt;
ghost use Rattle.rls_session.specs.declared.orders.Order.TheVariants as Order;
ghost use Rattle.rls_file.specs.Stored.{AreWritable};

use crate::desk::Desk;
use crate::draft::Draft;
use crate::intake::Intake;
use crate::orders::{Order, order_of};
use crate::seat;
use rls_io::{Failed, ReadError, Sink, Source, write_all_of};
use rls_report::{CommandError, Failure, Fault};
use std::alloc::Global;

/// What requests came to.
#[derive(Clone, Copy, Debug, PartialEq, Eq)]
pub(crate) enum Halt {
    /// An order to store: the session goes on after it.
    Store,
    /// The order to quit, or the end of the input.
    End,
}

/// Why a session ends before its file is stored.
#[derive(Clone, Copy, Debug, PartialEq, Eq)]
pub(crate) enum AnswerError {
    SourceFault,
    SinkFault,
    /// More of the input than a session goes through was taken.
    TooLarge,
    OutOfMemory,
}

impl From<ReadError> for AnswerError {
    ghost from_gives = { λ error e. e ≡ of_read error };

    fn from(error: ReadError) -> AnswerError {
        match error {
            ReadError::Fault => AnswerError::SourceFault,
            ReadError::TooLarge => AnswerError::TooLarge,
            ReadError::OutOfMemory => AnswerError::OutOfMemory,
        }
    }
}

impl From<AnswerError> for Failure {
    ghost from_gives = { λ error e. e ≡ of_answer error };

    fn from(error: AnswerError) -> Failure {
        match error {
            AnswerError::SourceFault => Failure::of_fault(Fault::Source),
            AnswerError::SinkFault => Failure::of_fault(Fault::Sink),
            AnswerError::TooLarge => Failure::Command {
                error: CommandError::TooLarge,
            },
            AnswerError::OutOfMemory => Failure::of_fault(Fault::Memory),
        }
    }
}

// Takes the next line of the input, if there is one, and answers what it asks for.
fn next_order<S: Source>(
    alloc: Global,
    intake: &mut Intake,
    input: &mut S,
) -> Result<Option<Order>, ReadError>
    ensures next { IfOk result (λ order. KnowsEnd intake.old (S.left input.old) → IsNext (to_come intake.old (S.left input.old)) order intake.old intake.new (S.left input.new)) }
    ensures known { KeepsEnd intake.old (S.left input.old) intake.new (S.left input.new) }
    ensures advances { IfOk result (λ order. IfSome order (λ _. intake.old.used < intake.new.used)) }
    ensures within { taken intake.new ≤ INPUT_BYTES + 1 }
    ensures too_large { result ≡ Err read.TooLarge → IsUnused intake.old intake.new (to_come intake.old (S.left input.old)) (to_come intake.new (S.left input.new)) × (taken intake.new ≡ INPUT_BYTES + 1) × HasNoLine intake.new }
    ensures unread { result ≡ Err read.Fault → IsUnused intake.old intake.new (to_come intake.old (S.left input.old)) (to_come intake.new (S.left input.new)) × IsFalse intake.new.ended × HasNoLine intake.new }
    ensures fault { result ≡ Err read.Fault → Rose (S.faults input.old) (S.faults input.new) }
    ensures stays_ended { IsTrue intake.old.ended → IsTrue intake.new.ended }
    ensures few { length intake.old.waiting ≤ 4096 → OnOk result (length intake.new.waiting ≤ 4096) }
    ensures near { length intake.old.waiting ≤ 4096 → IfSome (to_come intake.old (S.left input.old)) (λ bytes. IsNear bytes (S.left input.new) (position_or_len is_line_feed bytes)) }
    ensures never_falls { S.faults input.old ≤ S.faults input.new }
    ensures given { Given S.read_gives intake.old.ended (is_ok result) intake.new.ended input.old input.new (OrderTaken result intake.old intake.new) }
{
    match intake.find_line(input) {
        Err(error) => Err(error),
        Ok(n) => {
            let waiting = intake.waiting();
            if waiting.is_empty() {
                return Ok(None);
            }
            let size = (n + 1).min(waiting.len());
            match order_of(alloc, &waiting[..n]) {
                Err(_) => Err(ReadError::OutOfMemory),
                Ok(order) => {
                    intake.use_up(size);
                    Ok(Some(order))
                }
            }
        }
    }
}

// Answers an order whose line is used, but not an order to store or to quit.
fn reply_to<S: Source>(
    alloc: Global,
    desk: &mut Desk,
    draft: &mut Draft,
    intake: &mut Intake,
    input: &mut S,
    order: Order,
) -> Result<Vec<u8>, ReadError>
    requires drafted { IsDrafted by_parts (seat_of desk.old draft.old) }
    ensures reply { IfOk result (λ reply. KnowsEnd intake.old (S.left input.old) → IfSome (to_come intake.old (S.left input.old)) (λ bytes.
        IsReplied (respond by_parts (seat_of desk.old draft.old)) bytes order reply.items (seat_of desk.new draft.new) intake.old intake.new (S.left input.new))) }
    ensures drafted { OnOk result (IsDrafted by_parts (seat_of desk.new draft.new)) }
    ensures writable { AreWritable desk.old.state → OnOk result (AreWritable desk.new.state) }
    ensures sent { AreWritable desk.old.state → OnOk result (SendsFrom (seat_of desk.old draft.old) (Does order)) }
    ensures known { KeepsEnd intake.old (S.left input.old) intake.new (S.left input.new) }
    ensures advances { intake.old.used ≤ intake.new.used }
    ensures within { taken intake.old ≤ INPUT_BYTES + 1 → taken intake.new ≤ INPUT_BYTES + 1 }
    ensures too_large { result ≡ Err read.TooLarge → IsUnused intake.old intake.new (to_come intake.old (S.left input.old)) (to_come intake.new (S.left input.new)) × (taken intake.new ≡ INPUT_BYTES + 1) × LacksPart order intake.new.waiting }
    ensures unread { result ≡ Err read.Fault → IsUnused intake.old intake.new (to_come intake.old (S.left input.old)) (to_come intake.new (S.left input.new)) × IsFalse intake.new.ended × LacksPart order intake.new.waiting }
    ensures fault { result ≡ Err read.Fault → Rose (S.faults input.old) (S.faults input.new) }
    ensures stays_ended { IsTrue intake.old.ended → IsTrue intake.new.ended }
    ensures few { length intake.old.waiting ≤ 4096 → OnOk result (length intake.new.waiting ≤ 4096) }
    ensures near { length intake.old.waiting ≤ 4096 → IfSome (to_come intake.old (S.left input.old)) (λ bytes. IsNear bytes (S.left input.new) (cut_after order bytes).size) }
    ensures never_falls { S.faults input.old ≤ S.faults input.new }
    ensures given { Given S.read_gives intake.old.ended (is_ok result) intake.new.ended input.old input.new (OrderAnswered (respond by_parts (seat_of desk.old draft.old)) order (seat_of desk.new draft.new) result intake.old intake.new) }
{
    match order {
        Order::Take { len } => reply_to_message(alloc, desk, draft, intake, input, len),
        order => match seat::answer(alloc, desk, draft, order) {
            Err(_) => Err(ReadError::OutOfMemory),
            Ok(reply) => Ok(reply),
        },
    }
}

// Takes a message of `len` bytes, which follow what is used.
fn reply_to_message<S: Source>(
    alloc: Global,
    desk: &mut Desk,
    draft: &mut Draft,
    intake: &mut Intake,
    input: &mut S,
    len: u64,
) -> Result<Vec<u8>, ReadError>
    requires drafted { IsDrafted by_parts (seat_of desk.old draft.old) }
    ensures reply { IfOk result (λ reply. KnowsEnd intake.old (S.left input.old) → IfSome (to_come intake.old (S.left input.old)) (λ bytes.
        IsReplied (respond by_parts (seat_of desk.old draft.old)) bytes (Order.Take len) reply.items (seat_of desk.new draft.new) intake.old intake.new (S.left input.new))) }
    ensures drafted { OnOk result (IsDrafted by_parts (seat_of desk.new draft.new)) }
    ensures writable { AreWritable desk.old.state → OnOk result (AreWritable desk.new.state) }
    ensures known { KeepsEnd intake.old (S.left input.old) intake.new (S.left input.new) }
    ensures advances { intake.old.used ≤ intake.new.used }
    ensures within { taken intake.new ≤ INPUT_BYTES + 1 }
    ensures too_large { result ≡ Err read.TooLarge → IsUnused intake.old intake.new (to_come intake.old (S.left input.old)) (to_come intake.new (S.left input.new)) × (taken intake.new ≡ INPUT_BYTES + 1) × (length intake.new.waiting < len) }
    ensures unread { result ≡ Err read.Fault → IsUnused intake.old intake.new (to_come intake.old (S.left input.old)) (to_come intake.new (S.left input.new)) × IsFalse intake.new.ended × (length intake.new.waiting < len) }
    ensures fault { result ≡ Err read.Fault → Rose (S.faults input.old) (S.faults input.new) }
    ensures stays_ended { IsTrue intake.old.ended → IsTrue intake.new.ended }
    ensures few { length intake.old.waiting ≤ 4096 → OnOk result (length intake.new.waiting ≤ 4096) }
    ensures near { length intake.old.waiting ≤ 4096 → IfSome (to_come intake.old (S.left input.old)) (λ bytes. IsNear bytes (S.left input.new) (cut_after (Order.Take len) bytes).size) }
    ensures never_falls { S.faults input.old ≤ S.faults input.new }
    ensures given { Given S.read_gives intake.old.ended (is_ok result) intake.new.ended input.old input.new (OrderAnswered (respond by_parts (seat_of desk.old draft.old)) (Order.Take len) (seat_of desk.new draft.new) result intake.old intake.new) }
{
    match intake.find_bytes(len, input) {
        Err(error) => Err(error),
        Ok(true) => match seat::take(alloc, desk, draft, &intake.waiting()[..len as usize]) {
            Err(_) => Err(ReadError::OutOfMemory),
            Ok(reply) => {
                intake.use_up(len as usize);
                Ok(reply)
            }
        },
        Ok(false) => {
            let n = intake.waiting().len();
            intake.use_up(n);
            match seat::answer(alloc, desk, draft, Order::Bad) {
                Err(_) => Err(ReadError::OutOfMemory),
                Ok(reply) => Ok(reply),
            }
        }
    }
}

/// Writes a reply. After an error at least one byte of it isn't written.
pub(crate) fn write<W: Sink>(output: &mut W, reply: &[u8]) -> Result<(), AnswerError>
    ensures ok { OnOk result (Appends (W.told output.old) (W.told output.new) reply.now) }
    ensures err { OnErr result (IsCutShort (W.told output.old) (W.told output.new) reply.now) }
    ensures error { IfErr result (λ e. e ≡ AnswerError.SinkFault) }
    ensures never_falls { W.faults output.old ≤ W.faults output.new }
    ensures fault { OnErr result (Rose (W.faults output.old) (W.faults output.new)) }
    ensures gives { OnOk result (Passes W.write_gives reply.now output.old output.new) }
    ensures gives_part { OnErr result ((n : ℕ) × (n < length reply.now) × PassesAndFails W.write_gives (take n reply.now) output.old output.new) }
{
    match write_all_of(output, reply) {
        Ok(()) => Ok(()),
        Err(Failed) => Err(AnswerError::SinkFault),
    }
}

/// Answers the requests to come one after another, up to the next order to store or to quit, or to the end of the input. Each reply is
/// written before more of the input is taken. An order to store, or to quit, isn't answered, and the draft that is left isn't made.
pub(crate) fn answer_all<S: Source, W: Sink>(
    alloc: Global,
    desk: &mut Desk,
    draft: &mut Draft,
    intake: &mut Intake,
    input: &mut S,
    output: &mut W,
) -> Result<Halt, AnswerError>
    requires fresh { intake.old.used ≡ 0 }
    requires short { length intake.old.waiting ≤ 4096 }
    requires none { draft.old ≡ no_draft }
    ensures done { IfOk result (λ halt. IfSome (known_come intake.old (S.left input.old)) (λ given. IsDone (course (respond by_parts) (seated desk.old) given) (is_store halt) (seat_of desk.new draft.new) (W.told output.old) (W.told output.new))) }
    ensures drafted { OnOk result (IsDrafted by_parts (seat_of desk.new draft.new)) }
    ensures paused { result ≡ Ok Halt.Store → IfSome (known_come intake.old (S.left input.old)) (λ given. IsPaused (respond by_parts) (seated desk.old) given intake.new (S.left input.new)) }
    ensures part { OnErr result (IfSome (known_come intake.old (S.left input.old)) (λ given. IsPart (W.told output.old) (W.told output.new) (course (respond by_parts) (seated desk.old) given).replies)) }
    ensures cut { result ≡ Err AnswerError.SinkFault → IfSome (known_come intake.old (S.left input.old)) (λ given. IsCutShort (W.told output.old) (W.told output.new) (course (respond by_parts) (seated desk.old) given).replies) }
    ensures too_large { result ≡ Err AnswerError.TooLarge → IfSome (known_come intake.old (S.left input.old)) (λ given. INPUT_BYTES < (course (respond by_parts) (seated desk.old) given).used) }
    ensures prompt { result ≡ Err AnswerError.SourceFault → IfSome (known_come intake.old (S.left input.old)) (λ given. IsPrompt (λ front. replies_in (courses (respond by_parts) (resumed_seat by_parts) (seated desk.old) front)) given (S.left input.new) (W.told output.old) (W.told output.new)) }
    ensures near { IfSome (known_come intake.old (S.left input.old)) (λ given. IsNear given (S.left input.new) (course (respond by_parts) (seated desk.old) given).used) }
    ensures short { OnOk result (length intake.new.waiting ≤ 4096) }
    ensures stays_ended { IsTrue intake.old.ended → IsTrue intake.new.ended }
    ensures open { result ≡ Err AnswerError.SourceFault → IsFalse intake.old.ended }
    ensures input { result ≡ Err AnswerError.SourceFault → Rose (S.faults input.old) (S.faults input.new) }
    ensures output { result ≡ Err AnswerError.SinkFault → Rose (W.faults output.old) (W.faults output.new) }
    ensures input_never_falls { S.faults input.old ≤ S.faults input.new }
    ensures never_falls { W.faults output.old ≤ W.faults output.new }
    ensures writable { AreWritable desk.old.state → OnOk result (AreWritable desk.new.state) }
    ensures sent { AreWritable desk.old.state → OnOk result (IfSome (known_come intake.old (S.left input.old)) (λ given. holds (respond by_parts) SendsFrom (seated desk.old) given)) }

    // Also of devices that tell nothing: all of this holds of the bytes that the reads gave, with any rest after them, and of those that the writes took.
    ensures as_told { Exchanged S.read_gives W.write_gives intake.old.ended (is_ok result) intake.new.ended input.old input.new output.old output.new
        (AllAnswered (seated desk.old) (seat_of desk.new draft.new) result intake.old intake.new (AreWritable desk.old.state)) }
{
    loop {
        match next_order(alloc, intake, input) {
            Err(error) => return Err(AnswerError::from(error)),
            Ok(None) => return Ok(Halt::End),
            Ok(Some(order)) => match order {
                Order::Quit => return Ok(Halt::End),
                Order::Store => return Ok(Halt::Store),
                order => match reply_to(alloc, desk, draft, intake, input, order) {
                    Err(error) => return Err(AnswerError::from(error)),
                    Ok(reply) => match write(output, &reply) {
                        Err(error) => return Err(error),
                        Ok(()) => {}
                    },
                },
            },
        }
    }
}
