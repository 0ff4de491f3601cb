//! Members whose kept file is held in memory between commands.

use rls_io::{Keeper, MemoryKeeper, MemorySink, MemorySource};
use rls_top::run;
use std::alloc::{AllocError, Global};
use std::test::Fail;
use test_steps::rows::first_fault;

/// The most bytes that a command may write here.
const ROOM: usize = 4000;

/// No call of a device fails.
pub const NO_FAULTS: [&[u64]; 4] = [&[], &[], &[], &[]];

/// The report of one edit.
pub const EDITED: &str = "edits 1 released 0 refused 0\n";

/// What a command answered.
#[derive(Drop)]
pub struct Answer {
    pub status: u8,
    pub output: Vec<u8>,
    pub errors: Vec<u8>,
}

impl Answer {
    /// Whether it has this status, this output and these errors.
    pub fn is(&self, status: u8, output: &str, errors: &str) -> bool {
        self.status == status
            && self.output.as_slice() == output.as_bytes()
            && self.errors.as_slice() == errors.as_bytes()
    }
}

/// A member with its kept file, if there is one.
#[derive(Drop)]
pub struct Member {
    pub file: Option<Vec<u8>>,
}

/// Commands one after another, and what has to come of each: the words, the input, the status, the output and the errors.
pub type Step<'a> = (&'a str, &'a [u8], u8, &'a str, &'a str);

/// The devices of a command, except for its keeper.
#[derive(Drop)]
struct Devices {
    input: MemorySource,
    output: MemorySink,
    errors: MemorySink,
}

fn words_of(alloc: Global, words: &str) -> Result<Vec<String>, AllocError> {
    let mut list = Vec::new(alloc);
    for word in words.split(' ') {
        list.push(String::from_str(alloc, word)?)?;
    }
    Ok(list)
}

/// Devices with this input, of which calls with these numbers fail: of the input, of the output, of the errors.
fn devices_of(alloc: Global, bytes: &[u8], failing: [&[u64]; 3]) -> Result<Devices, AllocError> {
    Ok(Devices {
        input: MemorySource::new(alloc, bytes, failing[0])?,
        output: MemorySink::new(alloc, ROOM, failing[1])?,
        errors: MemorySink::new(alloc, ROOM, failing[2])?,
    })
}

/// The status, and what was written to these devices.
fn answer_of(alloc: Global, status: u8, devices: &Devices) -> Result<Answer, AllocError> {
    Ok(Answer {
        status,
        output: Vec::from_slice(alloc, devices.output.written())?,
        errors: Vec::from_slice(alloc, devices.errors.written())?,
    })
}

/// Performs a command over this keeper and devices in memory, of which calls with these numbers fail: of the input, of the output,
/// of the errors.
pub fn answer_over<K: Keeper>(
    alloc: Global,
    keeper: &mut K,
    words: &str,
    bytes: &[u8],
    failing: [&[u64]; 3],
) -> Result<Answer, Fail> {
    let words = words_of(alloc, words)?;
    let mut devices = devices_of(alloc, bytes, failing)?;
    let status = run(
        alloc,
        &words,
        keeper,
        &mut devices.input,
        &mut devices.output,
        &mut devices.errors,
    );
    Ok(answer_of(alloc, status, &devices)?)
}

/// A copy of a file, if there is one.
fn copy_of(alloc: Global, file: Option<&[u8]>) -> Result<Option<Vec<u8>>, AllocError> {
    match file {
        None => Ok(None),
        Some(bytes) => Ok(Some(Vec::from_slice(alloc, bytes)?)),
    }
}

impl Member {
    /// A member without a file.
    pub fn new() -> Member {
        Member { file: None }
    }

    /// A member with a copy of this file, if there is one.
    pub fn with_file(alloc: Global, file: Option<&[u8]>) -> Result<Member, AllocError> {
        Ok(Member {
            file: copy_of(alloc, file)?,
        })
    }

    /// Performs a command over devices in memory, of which calls with these numbers fail: of the keeper, of the input, of
    /// the output, of the errors.
    pub fn under_faults(
        &mut self,
        alloc: Global,
        words: &str,
        bytes: &[u8],
        failing: [&[u64]; 4],
    ) -> Result<Answer, Fail> {
        let [loads, inputs, outputs, errors] = failing;
        let mut keeper = MemoryKeeper::new(alloc, self.file.as_deref(), loads)?;
        let answer = answer_over(alloc, &mut keeper, words, bytes, [inputs, outputs, errors])?;
        self.file = copy_of(alloc, keeper.file())?;
        Ok(answer)
    }

    /// Performs a command.
    pub fn command(&mut self, alloc: Global, words: &str, bytes: &[u8]) -> Result<Answer, Fail> {
        self.under_faults(alloc, words, bytes, NO_FAULTS)
    }

    /// Performs a step while calls with these numbers fail, and tells whether it goes as it has to.
    pub fn goes_under_faults(
        &mut self,
        alloc: Global,
        step: &Step<'_>,
        failing: [&[u64]; 4],
    ) -> Result<bool, Fail> {
        let (words, bytes, status, output, errors) = step;
        let answer = self.under_faults(alloc, words, bytes, failing)?;
        Ok(answer.is(*status, output, errors))
    }

    /// Performs a step, and tells whether it goes as it has to.
    pub fn goes(&mut self, alloc: Global, step: &Step<'_>) -> Result<bool, Fail> {
        self.goes_under_faults(alloc, step, NO_FAULTS)
    }

    /// Performs the steps in turn, and answers the first that goes otherwise than it has to.
    pub fn fault_among(
        &mut self,
        alloc: Global,
        steps: &[Step<'_>],
    ) -> Result<Option<usize>, Fail> {
        first_fault(steps, |step| self.goes(alloc, step))
    }

    /// The message for another member.
    pub fn message(&mut self, alloc: Global, words: &str) -> Result<Vec<u8>, Fail> {
        Ok(self.command(alloc, words, b"")?.output)
    }
}

/// The first of the steps that goes otherwise than it has to, of a member without a file.
pub fn fault_of_fresh(alloc: Global, steps: &[Step<'_>]) -> Result<Option<usize>, Fail> {
    Member::new().fault_among(alloc, steps)
}
