//! Bytes that are given up.

/// As many bytes as the memory has that goes back last.
const LAST: usize = 1;

/// Gives bytes up that were read and aren't needed any more. All memory but a little goes back while the vector still stands, and the rest
/// with it. The C library maps a large block of its own, and lets it shrink; but where it sees a large block go as a whole, it no longer maps
/// blocks up to that size, and each vector that grows is then copied into a new place and leaves the old one behind.
pub fn give_back(mut bytes: Vec<u8>) {
    bytes.truncate(LAST);
    bytes.shrink_to_fit();
}
