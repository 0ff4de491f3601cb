//! Endings of the program but success.

ghost use Rattle.std.specs.Prelude.{◌≡◌, IfOk, string_bytes};
ghost use Rattle.rls_report.specs.declared.failures.CommandError.TheVariants.{Edit};
ghost use Rattle.rls_report.specs.declared.failures.Failure.TheVariants.{NoCommand};
ghost use Rattle.rls_report.specs.Failures.{error_status, fault_status, status_of, fault_text, error_line, fault_line, failure_line};

use std::alloc::{AllocError, Global};

/// Why a line of a script is refused. Positions and totals are of characters.
#[derive(Clone, Copy, Debug, PartialEq, Eq)]
pub enum LineFault {
    /// This member has left.
    Left,
    /// Nothing is inserted or deleted.
    EmptyEdit,
    /// The edit reaches past the text.
    Range { at: u64, total: u64 },
    /// There is nothing to rename.
    EmptyDocument,
    TooManyChars { total: u64 },
    /// This member has no further number for an operation.
    NumbersSpent,
    OpTooLarge { bytes: u64 },
    /// No grapheme cluster ends there.
    NotBoundary { at: u64 },
}

/// Why a command does not come to its end: something is wrong with its words, the kept file or the input. Each is told by these alone.
#[derive(Clone, Copy, Debug, PartialEq, Eq)]
pub enum CommandError {
    NoReplica,
    ReplicaExists,
    /// The kept file isn't in the grammar, from this place on.
    Damaged { at: u64 },
    BadMembers { members: u32 },
    BadMe { me: u32 },
    NotMember { to: u32 },
    /// A line of the script, counted from 1, isn't in the grammar.
    BadLine { line: u64 },
    /// The message isn't in the grammar, from this place on.
    Malformed { at: u64 },
    /// The message is of another group or of another count of members.
    OtherGroup { group: u64, members: u32 },
    /// A line of the script, counted from 1, is refused.
    Edit { line: u64, fault: LineFault },
    /// The input, the kept file, or the file that is to be stored.
    TooLarge,
}

/// A device has failed, or there was no memory.
#[derive(Clone, Copy, Debug, PartialEq, Eq)]
pub enum Fault {
    Keeper,
    Source,
    Sink,
    Memory,
}

/// Why the program ends without success, but for refused operations.
#[derive(Clone, Copy, Debug, PartialEq, Eq)]
pub enum Failure {
    /// The words are no command.
    NoCommand,
    Command { error: CommandError },
    Fault { fault: Fault },
}

impl CommandError {
    fn status(&self) -> u8
        ensures status { result ≡ error_status self.now }
    {
        match self {
            CommandError::NoReplica | CommandError::ReplicaExists => 2,
            CommandError::Damaged { .. } => 3,
            CommandError::BadMembers { .. }
            | CommandError::BadMe { .. }
            | CommandError::NotMember { .. } => 4,
            CommandError::BadLine { .. }
            | CommandError::Malformed { .. }
            | CommandError::OtherGroup { .. } => 4,
            CommandError::Edit { .. } => 6,
            CommandError::TooLarge => 11,
        }
    }
}

impl Fault {
    fn status(&self) -> u8
        ensures status { result ≡ fault_status self.now }
    {
        match self {
            Fault::Keeper => 7,
            Fault::Source => 8,
            Fault::Sink => 9,
            Fault::Memory => 10,
        }
    }

    /// The line that tells it, with its line feed. It takes no memory.
    pub fn line(&self) -> &'static str
        ensures line { result.now ≡ fault_line self.now }
    {
        match self {
            Fault::Keeper => "keeper fault\n",
            Fault::Source => "source fault\n",
            Fault::Sink => "sink fault\n",
            Fault::Memory => "out of memory\n",
        }
    }
}

impl Failure {
    /// A device has failed, or there was no memory.
    pub fn of_fault(fault: Fault) -> Failure
        ensures fault { result ≡ Failure.Fault fault }
    {
        Failure::Fault { fault }
    }

    /// The status with which the program ends.
    pub fn status(&self) -> u8
        ensures status { result ≡ status_of self.now }
    {
        match self {
            Failure::NoCommand => 1,
            Failure::Command { error } => error.status(),
            Failure::Fault { fault } => fault.status(),
        }
    }
}

/// Why an edit is refused, in words, without a line feed.
pub fn fault_text(alloc: Global, fault: LineFault) -> Result<String, AllocError>
    ensures text { IfOk result (λ text. string_bytes text ≡ fault_text fault) }
{
    match fault {
        LineFault::Left => String::from_str(alloc, "left"),
        LineFault::EmptyEdit => String::from_str(alloc, "empty edit"),
        LineFault::Range { at, total } => format!(in alloc; "range {at} {total}"),
        LineFault::EmptyDocument => String::from_str(alloc, "empty document"),
        LineFault::TooManyChars { total } => format!(in alloc; "too many characters {total}"),
        LineFault::NumbersSpent => String::from_str(alloc, "numbers spent"),
        LineFault::OpTooLarge { bytes } => format!(in alloc; "operation too large {bytes}"),
        LineFault::NotBoundary { at } => format!(in alloc; "not a boundary {at}"),
    }
}

fn edit_line(alloc: Global, line: u64, fault: LineFault) -> Result<String, AllocError>
    ensures line { IfOk result (λ text. string_bytes text ≡ error_line (Edit line fault)) }
{
    let fault = fault_text(alloc, fault)?;
    format!(in alloc; "line {line}: {fault}\n")
}

fn usage_line(alloc: Global) -> Result<String, AllocError>
    ensures line { IfOk result (λ text. string_bytes text ≡ failure_line NoCommand) }
{
    String::from_str(
        alloc,
        "usage: new GROUP ME MEMBERS | edit | text | ids | stat | send TO | take | leave | trial SEED STEPS\n",
    )
}

fn error_line(alloc: Global, error: CommandError) -> Result<String, AllocError>
    ensures line { IfOk result (λ text. string_bytes text ≡ error_line error) }
{
    match error {
        CommandError::NoReplica => String::from_str(alloc, "no replica\n"),
        CommandError::ReplicaExists => String::from_str(alloc, "replica exists\n"),
        CommandError::Damaged { at } => format!(in alloc; "damaged at {at}\n"),
        CommandError::BadMembers { members } => format!(in alloc; "bad members {members}\n"),
        CommandError::BadMe { me } => format!(in alloc; "bad me {me}\n"),
        CommandError::NotMember { to } => format!(in alloc; "not a member {to}\n"),
        CommandError::BadLine { line } => format!(in alloc; "bad line {line}\n"),
        CommandError::Malformed { at } => format!(in alloc; "malformed at {at}\n"),
        CommandError::OtherGroup { group, members } => {
            format!(in alloc; "other group {group} {members}\n")
        }
        CommandError::Edit { line, fault } => edit_line(alloc, line, fault),
        CommandError::TooLarge => String::from_str(alloc, "too large\n"),
    }
}

/// The line that tells a failure, with its line feed. For a fault `Fault::line` gives it without memory.
pub fn failure_line(alloc: Global, failure: Failure) -> Result<String, AllocError>
    ensures line { IfOk result (λ text. string_bytes text ≡ failure_line failure) }
{
    match failure {
        Failure::NoCommand => usage_line(alloc),
        Failure::Command { error } => error_line(alloc, error),
        Failure::Fault { fault } => String::from_str(alloc, fault.line()),
    }
}
