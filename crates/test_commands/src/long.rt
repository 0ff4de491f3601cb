//! A session whose groups have more steps than are kept.

use rls_io::{MemoryKeeper, MemorySink, MemorySource};
use rls_session::serve;
use std::alloc::{AllocError, Global};
use std::test::Fail;
use test_steps::bytes::{HELLO_FILE, bytes};

/// So many insertions, and then these requests.
fn insertions(alloc: Global, count: u32, requests: &[u8]) -> Result<Vec<u8>, AllocError> {
    let mut input = Vec::new(alloc);
    for _ in 0..count {
        input.extend_from_slice(b"i 0 a\n")?;
    }
    input.extend_from_slice(requests)?;
    Ok(input)
}

/// Whether a session over these requests ends by these replies.
fn ends_by(alloc: Global, input: &[u8], replies: &[u8]) -> Result<bool, Fail> {
    let file = bytes(alloc, HELLO_FILE)?;
    let mut keeper = MemoryKeeper::new(alloc, Some(&file), &[])?;
    let mut source = MemorySource::new(alloc, input, &[])?;
    let mut output = MemorySink::new(alloc, 1_000_000, &[])?;
    let mut errors = MemorySink::new(alloc, 1_000, &[])?;
    let status = serve(alloc, &mut keeper, &mut source, &mut output, &mut errors);
    Ok(status == 0 && output.written().ends_with(replies))
}

/// A group that is too large while it is open is forgotten whole, and so is what comes to it until it ends; the next one is kept.
#[test]
fn no_group_is_taken_back_in_part(rt: HostRuntime) -> Result<(), Fail> {
    let alloc = rt.alloc();
    let input = insertions(alloc, 16_384, b"z\ng\ni 0 b\nz\nz\n")?;
    let replies = b"ok 16385\nno nothing\ngroups 0 0\nok 16386\nback 1\nno nothing\nsaved\n";
    assert!(rt; ends_by(alloc, &input, replies)?);
    Ok(())
}
