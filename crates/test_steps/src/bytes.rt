//! Bytes of messages and files, written in hexadecimal digits. The tests of other crates use them too.

use std::alloc::Global;
use std::test::Fail;

/// The bytes of these digits, between which single spaces may stand.
pub fn bytes(alloc: Global, digits: &str) -> Result<Vec<u8>, Fail> {
    let mut all = Vec::new(alloc);
    for word in digits.split(' ') {
        let mut part = hex::decode(alloc, word)?;
        all.append(&mut part)?;
    }
    Ok(all)
}

/// this many of the first bytes.
pub fn front(bytes: &[u8], len: usize) -> &[u8] {
    match bytes.get(..len) {
        Some(front) => front,
        None => bytes,
    }
}

/// The message of 81 bytes in which member 0 of 2 in group 7 tells its insertion of `hello`.
pub const HELLO_MESSAGE: &str =
    "524c534d 03 0000000000000007 00000002 00000000 00000001 00000000 00000001 00000000 00000001 00000000 00000000 00 00 00000001 01 7fffffff 00000000 00000001 00000000 00000005 68656c6c6f";

/// The message of 33 bytes in which member 0 of 2 in group 7 tells nothing.
pub const EMPTY_MESSAGE: &str =
    "524c534d 03 0000000000000007 00000002 00000000 00000000 00000000 00000000";

/// The journal of 74 bytes of the sole member of group 7, which inserted `hello`.
pub const HELLO_FILE: &str =
    "524c5346 01 0000000000000007 00000001 00000000 00000001 00 00000000 00000001 00000000 00 00 00000001 01 7fffffff 00000000 00000001 00000000 00000005 68656c6c6f 00000000";
