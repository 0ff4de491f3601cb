//! Loading a replica.
//! Why: CHOICES.md, 62, 220.

ghost use Rattle.std.specs.Prelude.{◌≡◌, ◌<◌, ◌-◌, ◌^◌, ℕ, List, length, IfOk, Ok, Err};
ghost use Rattle.rls_codec.specs.CodecLaws.{IsBytes};
ghost use Rattle.rls_codec.specs.Gives.{Gives};
ghost use Rattle.rls_parts.specs.Given.{AreGiven};
ghost use Rattle.rls_file.specs.Files.{Snapshot};
ghost use Rattle.rls_file.specs.ReadingFiles.{file_at, form_at};
ghost use Rattle.rls_file.specs.ReadingJournals.{after_form_at};
ghost use Rattle.rls_file.specs.Loading.{snapshot_behind, damage_of, ReadsParts, HasRead, IsGiven, Loads, LoadsBytes};

use crate::{form, journal};
use rls_codec::{ReadError, give_back, member, member_count, u64_at};
use rls_fields::{place_of_broken, snapshot};
use rls_ident::rely;
use rls_model::Parts;
use rls_replica::{PartsError, Replica, test_all};
use std::alloc::Global;

/// Why bytes aren't read as a file.
#[derive(Clone, Copy, Debug, PartialEq, Eq)]
pub enum FileError {
    /// They are no file: the place of the first field that is cut off or breaks its rule, or of the first surplus byte, or else of
    /// the entry that breaks the first broken rule of the parts.
    Damaged { at: u64 },
    OutOfMemory,
}

// The error of bytes of which so many were left.
fn damage(bytes: &[u8], error: ReadError) -> FileError
    ensures damage { result ≡ damage_of (length bytes.now) error }
{
    match error {
        ReadError::Fault { left } => FileError::Damaged {
            at: bytes.len().saturating_sub(left) as u64,
        },
        ReadError::OutOfMemory => FileError::OutOfMemory,
    }
}

// The error of bytes that go on after the file.
fn surplus(bytes: &[u8], after: &[u8]) -> FileError
    ensures surplus { result ≡ FileError.Damaged (length bytes.now - length after.now) }
{
    FileError::Damaged {
        at: bytes.len().saturating_sub(after.len()) as u64,
    }
}

// What follows the form of a snapshot.
#[tactic(auto, unfolding(crate::specs::Loading::snapshot_behind))]
fn parts_behind(alloc: Global, form: u8, bytes: &[u8]) -> Result<(Parts, &[u8]), ReadError>
    ensures read { Gives (λ x. (Snapshot form x.0, x.1.now)) result (snapshot_behind form bytes.now) }
{
    let (group, rest) = u64_at(bytes)?;
    let (members, rest) = member_count(rest)?;
    let (me, rest) = member(members, rest)?;
    let (parts, rest) = snapshot(alloc, form, group, members, me, rest)?;
    Ok((parts, rest))
}

// The parts in a snapshot of this form, whose rest follows it. Their rules aren't tested.
fn parts_in(alloc: Global, form: u8, bytes: &[u8], rest: &[u8]) -> Result<Parts, FileError>
    requires form { form_at bytes.now ≡ Ok (form, rest.now) }
    requires later { 1 < form }
    ensures read { ReadsParts form result bytes.now }
{
    match parts_behind(alloc, form, rest) {
        Ok((parts, after)) => match after {
            [] => Ok(parts),
            [_, ..] => Err(surplus(bytes, after)),
        },
        Err(error) => Err(damage(bytes, error)),
    }
}

/// What a file says, as it was read: a journal was replayed, and the rules of a snapshot's parts weren't tested.
#[derive(Drop)]
pub(crate) enum FileRead {
    Journal { replica: Replica },
    Snapshot { form: u8, parts: Parts },
}

// The journal whose rest follows its form, after its replica has dropped what is stable.
fn load_journal(alloc: Global, bytes: &[u8], rest: &[u8]) -> Result<Replica, FileError>
    requires form { file_at bytes.now ≡ after_form_at rest.now }
    ensures loads { Loads result bytes.now }
{
    let (mut replica, after) = match journal(alloc, rest) {
        Ok(read) => read,
        Err(error) => return Err(damage(bytes, error)),
    };
    if !after.is_empty() {
        return Err(surplus(bytes, after));
    }
    replica.drop_stable();
    Ok(replica)
}

// What a file says. The rules of a snapshot's parts aren't tested.
fn read(alloc: Global, bytes: &[u8]) -> Result<FileRead, FileError>
    ensures bytes { IsBytes bytes.now }
    ensures read { HasRead result bytes.now }
    ensures given { IfOk result IsGiven }
{
    let (form, rest) = match form(bytes) {
        Ok(found) => found,
        Err(error) => return Err(damage(bytes, error)),
    };
    if form > 1 {
        let parts = parts_in(alloc, form, bytes, rest)?;
        return Ok(FileRead::Snapshot { form, parts });
    }
    let replica = load_journal(alloc, bytes, rest)?;
    Ok(FileRead::Journal { replica })
}

// The replica of a file that was read. Of a snapshot the rules of the parts are tested now.
fn restored(alloc: Global, found: FileRead) -> Result<Replica, FileError>
    requires given { IsGiven found }
    ensures loads { (bytes : List ℕ) → IsBytes bytes → length bytes < 2 ^ 64 → HasRead (Ok found) bytes → Loads result bytes }
{
    match found {
        FileRead::Journal { replica } => Ok(replica),
        FileRead::Snapshot { form, parts } => of_parts(alloc, form, parts),
    }
}

// The replica of parts that stand in a file of this form, or the place of the first rule that they break.
fn of_parts(alloc: Global, form: u8, parts: Parts) -> Result<Replica, FileError>
    requires given { AreGiven parts }
    ensures loads { (bytes : List ℕ) → IsBytes bytes → length bytes < 2 ^ 64 → ReadsParts form (Ok parts) bytes → Loads result bytes }
{
    match test_all(alloc, &parts) {
        Ok(tested) => match Replica::from_tested(alloc, parts, tested) {
            Ok(replica) => Ok(replica),
            Err(_) => Err(FileError::OutOfMemory),
        },
        Err(PartsError::Broken { rule, index }) => Err(FileError::Damaged {
            at: place_of_broken(form, &parts, rule, index),
        }),
        Err(PartsError::OutOfMemory) => Err(FileError::OutOfMemory),
    }
}

fn load(alloc: Global, bytes: &[u8]) -> Result<Replica, FileError>
    ensures loads { Loads result bytes.now }
{
    rely!(let _len = bytes.len());
    let found = read(alloc, bytes)?;
    restored(alloc, found)
}

// As `load`, of bytes that are given up as soon as they are read.
fn load_bytes(alloc: Global, bytes: Vec<u8>) -> Result<Replica, FileError>
    ensures bytes { IsBytes bytes.items }
    ensures loads { Loads result bytes.items }
{
    rely!(let _len = bytes.len());
    let found = read(alloc, &bytes)?;
    give_back(bytes);
    restored(alloc, found)
}

/// The replica that the bytes are, in any of the forms 1 to 4. A snapshot is read in one pass, and its text is made a tree in one
/// pass; a journal's events are replayed one after another, and what is stable then is dropped.
///
/// # Errors
///
/// `Damaged` with the place of the first fault exactly where the bytes are no file, and `OutOfMemory` for want of memory alone.
pub fn decode_file(alloc: Global, bytes: &[u8]) -> Result<Replica, FileError>
    ensures loads { LoadsBytes result bytes.now }
{
    load(alloc, bytes)
}

/// The replica that the bytes are, as `decode_file` says. The bytes are given up as soon as they are read: where the rules of a
/// snapshot's parts are tested and its text is made a tree, they take no memory any more.
///
/// # Errors
///
/// As those of `decode_file`.
pub fn load_file(alloc: Global, bytes: Vec<u8>) -> Result<Replica, FileError>
    ensures loads { LoadsBytes result bytes.items }
{
    load_bytes(alloc, bytes)
}
