//! A log, read.

ghost use Rattle.std.specs.Prelude.{◌≡◌, ◌-◌, ◌≤◌, ◌^◌, ℕ, List, length, drop, None, Ok, IfOk, IfErr, IfSome};
ghost use Rattle.rls_codec.specs.Reading.{op_at, chain_at, counted_at};
ghost use Rattle.rls_codec.specs.Gives.{Gives, Fails};
ghost use Rattle.rls_log.specs.Encoded.{EntryFound, EntriesFound, ops_in};
ghost use Rattle.rls_log.specs.Large.{AreLargeWithin};

use crate::entry::Entry;
use crate::large::{LargeDeletion, read_large};
use crate::log::Log;
use crate::scanning::scan_op;
use rls_codec::{ReadError, u32_at};
use rls_ident::limits::OPERATION_BYTES;
use std::alloc::{AllocError, Global};

/// The entries of operations that were read, and the values of the large deletions among them.
#[derive(Drop)]
struct Entries {
    entries: Vec<Entry>,
    values: Vec<LargeDeletion>,
}

// The entry of the operation at the front of the last bytes of these, and the bytes after it.
fn entry_at<'a>(
    alloc: Global,
    members: u32,
    all: &[u8],
    bytes: &'a [u8],
) -> Result<(Entry, &'a [u8]), ReadError>
    requires short { length bytes.now ≤ length all.now }
    requires back { drop (length all.now - length bytes.now) all.now ≡ bytes.now }
    ensures found { IfOk result (λ x. EntryFound all.now bytes.now members x.0 x.1.now) }
    ensures fails { IfErr result (λ e. Fails e (op_at members bytes.now)) }
{
    let (head, rest) = scan_op(alloc, members, bytes)?;
    let len = bytes.len() - rest.len();
    if len > OPERATION_BYTES as usize {
        return Err(ReadError::Fault { left: bytes.len() });
    }
    let entry = Entry {
        head,
        start: all.len() - bytes.len(),
        len: len as u32,
    };
    Ok((entry, rest))
}

/// The fewest bytes that an operation has: author, number, one count, an epoch and a kind.
const LEAST_BYTES: usize = 14;

// The entries of this many operations at the front of the bytes, with the values of the large deletions; and the bytes after them.
fn entry_list(
    alloc: Global,
    members: u32,
    count: u32,
    bytes: &[u8],
) -> Result<(Entries, &[u8]), ReadError>
    ensures found { IfOk result (λ x. EntriesFound bytes.now members count x.0.entries.items x.1.now) }
    ensures values { IfOk result (λ x. AreLargeWithin bytes.now (length bytes.now - length x.1.now) x.0.values.items) }
    ensures fails { IfErr result (λ e. Fails e (chain_at (λ before. op_at members) None count bytes.now)) }
{
    let room = (count as usize).min(bytes.len() / LEAST_BYTES);
    let mut entries = Vec::with_capacity(alloc, room)?;
    let mut values = Vec::new(alloc);
    let mut rest = bytes;
    for _ in 0..count {
        let (entry, after) = entry_at(alloc, members, bytes, rest)?;
        entries.push(entry)?;
        read_large(alloc, &mut values, entry, members, rest)?;
        rest = after;
    }
    Ok((Entries { entries, values }, rest))
}

// The log of these entries, of which all stand before the last bytes.
fn log_of(
    alloc: Global,
    members: u32,
    count: u32,
    bytes: &[u8],
    rest: &[u8],
    found: Entries,
) -> Result<Log, AllocError>
    requires found { EntriesFound bytes.now members count found.entries.items rest.now }
    requires values { AreLargeWithin bytes.now (length bytes.now - length rest.now) found.values.items }
    ensures log { IfOk result (λ log. log ≡ ops_in bytes.now found.entries.items) }
{
    let Entries { entries, values } = found;
    let (front, _) = bytes.split_at(bytes.len() - rest.len());
    let bytes = Vec::from_slice(alloc, front)?;
    let log = Log::of_entries(alloc, bytes, entries, values)?;
    Ok(log)
}

/// A number of operations, and the operations among this many members, which stay the bytes that they are. Each has at most
/// 16,777,216 bytes.
pub fn read_log(alloc: Global, members: u32, bytes: &[u8]) -> Result<(Log, &[u8]), ReadError>
    ensures read { Gives (λ x. (x.0, x.1.now)) result (counted_at (λ before. op_at members) bytes.now) }
{
    let (count, rest) = u32_at(bytes)?;
    let (found, after) = entry_list(alloc, members, count, rest)?;
    let log = log_of(alloc, members, count, rest, after, found)?;
    Ok((log, after))
}
