//! Runs the command that its words name, or a session, on the replica file of the current folder, and ends with its status.
#![tactic(auto)]

mod folder;
mod given;
mod performing;
mod streams;

use folder::{FolderKeeper, ReplicaKeeper, folder_keeper};
use given::words;
use performing::perform_given;
use rls_io::StdDevice;
use std::io;
use std::process::ExitCode;
use streams::{Guard, guard_streams};

/// The keeper of the current folder's file. Where the numbers of closed streams can't be taken, it is one that fails, so that
/// no file of the folder is opened.
fn keeper<'a>(
    rt: &'a HostRuntime,
    guard: &io::Result<Guard<HostRuntime>>,
) -> ReplicaKeeper<&'a HostRuntime> {
    match guard {
        Ok(_) => folder_keeper(rt),
        Err(_) => FolderKeeper::Unknown { faults: 0 },
    }
}

fn main(rt: HostRuntime) -> ExitCode {
    let guard = guard_streams(&rt);
    let mut keeper = keeper(&rt, &guard);
    let mut input = StdDevice::new(rt.stdin().lock());
    let mut output = StdDevice::new(rt.stdout());
    let mut errors = StdDevice::new(rt.stderr());
    let status = perform_given(
        rt.alloc(),
        words(&rt),
        &mut keeper,
        &mut input,
        &mut output,
        &mut errors,
    );
    drop(guard);
    ExitCode::from(status)
}

#[cfg(test)]
mod arguments;
#[cfg(test)]
mod tests;
#[cfg(test)]
mod watched;
