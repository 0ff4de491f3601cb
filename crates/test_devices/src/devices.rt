//! Devices in memory, of the system, and over readers and writers that fail.

ghost use Rattle.std.specs.Prelude.{◌≤◌, IfOk};

use rls_io::{
    CurrentFolder, FileKeeper, Found, Keeper, MemoryKeeper, MemorySink, MemorySource, ReadError,
    Source, StdDevice, StoreError, read_all, write_all_of,
};
use std::alloc::Global;
use std::io::{ErrorKind, PipeReader, PipeWriter, Read, Write};
use std::test::Fail;
use std::{fs, io};

/// Whether the second store fails, and leaves the file as it was.
fn stores_once(alloc: Global, keeper: &mut MemoryKeeper) -> bool {
    let first = keeper.store(alloc, b"hello").is_ok();
    let second = keeper.store(alloc, b"other");
    first && matches!(second, Err(StoreError::Failed)) && has_hello(keeper)
}

/// Whether the keeper has the first file.
fn has_hello(keeper: &MemoryKeeper) -> bool {
    match keeper.file() {
        Some(file) => file == b"hello".as_slice(),
        None => false,
    }
}

#[test]
fn a_keeper_fails_where_it_is_to(rt: HostRuntime) -> Result<(), Fail> {
    let mut keeper = MemoryKeeper::new(rt.alloc(), None, &[1])?;
    assert!(rt; stores_once(rt.alloc(), &mut keeper));
    Ok(())
}

/// Whether the sink fails after four bytes of the second text.
fn writes_nine(sink: &mut MemorySink) -> bool {
    let first = write_all_of(sink, b"hello").is_ok();
    let second = write_all_of(sink, b"world").is_err();
    first && second && sink.written() == b"helloworl".as_slice()
}

#[test]
fn a_sink_fails_where_it_is_to(rt: HostRuntime) -> Result<(), Fail> {
    let mut sink = MemorySink::new(rt.alloc(), 9, &[2])?;
    assert!(rt; writes_nine(&mut sink));
    Ok(())
}

/// Whether the input is these bytes, unless it isn't read.
fn read(
    alloc: Global,
    source: &mut impl Source,
    limit: u32,
    expected: &[u8],
) -> Result<bool, ReadError> {
    Ok(read_all(alloc, source, limit as u64)?.as_slice() == expected)
}

/// Whether an input of five bytes is read up to a limit of five.
fn reads_five(alloc: Global) -> Result<bool, Fail> {
    let mut source = MemorySource::new(alloc, b"hello", &[])?;
    Ok(read(alloc, &mut source, 5, b"hello")?)
}

/// Whether an input of five bytes is too long for a limit of three, and its last byte is left.
fn leaves_one(alloc: Global) -> Result<bool, Fail> {
    let mut source = MemorySource::new(alloc, b"hello", &[])?;
    let failed = read(alloc, &mut source, 3, b"hello").is_err();
    Ok(failed && source.left() == b"o".as_slice())
}

#[test]
fn an_input_is_read_up_to_its_limit(rt: HostRuntime) -> Result<(), Fail> {
    assert!(rt; reads_five(rt.alloc())? && leaves_one(rt.alloc())?);
    Ok(())
}

/// What comes of a call of a reader or a writer: so many bytes pass, or an error of this kind comes.
#[derive(Clone, Copy)]
enum Turn {
    Passes(usize),
    Fails(ErrorKind),
}

/// How many bytes pass, of as many as there is room for. When there is no turn left, none does.
fn next(turns: &mut &'static [Turn], room: usize) -> io::Result<usize>
    ensures fits { IfOk result (λ n. n ≤ room) }
{
    let Some((turn, rest)) = turns.split_first() else {
        return Ok(0);
    };
    *turns = rest;
    match turn {
        Turn::Passes(n) => Ok((*n).min(room)),
        Turn::Fails(kind) => Err(io::Error::from(*kind)),
    }
}

/// Gives bytes turn by turn.
#[derive(Drop)]
struct Giver {
    left: &'static [u8],
    turns: &'static [Turn],
}

impl Read for Giver {
    fn read(&mut self, buf: &mut [u8]) -> io::Result<usize> {
        let n = next(&mut self.turns, buf.len().min(self.left.len()))?;
        let (front, left) = self.left.split_at(n);
        buf[..n].copy_from_slice(front);
        self.left = left;
        Ok(n)
    }
}

/// Takes bytes turn by turn.
#[derive(Drop)]
struct Taker {
    bytes: Vec<u8>,
    turns: &'static [Turn],
}

impl Write for Taker {
    fn write(&mut self, buf: &[u8]) -> io::Result<usize> {
        let n = next(&mut self.turns, buf.len())?;
        self.bytes.extend_from_slice(&buf[..n])?;
        Ok(n)
    }

    fn flush(&mut self) -> io::Result<()> {
        Ok(())
    }
}

const INTERRUPTED: Turn = Turn::Fails(ErrorKind::Interrupted);

const BROKEN: Turn = Turn::Fails(ErrorKind::BrokenPipe);

/// What the reader passes before it fails, and after that.
const GIVEN: &[Turn] = &[
    Turn::Passes(2),
    INTERRUPTED,
    Turn::Passes(1),
    BROKEN,
    Turn::Passes(9),
];

#[test]
fn readers_halt(rt: HostRuntime) {
    let left: &'static [u8] = b"hello";
    let turns = GIVEN;
    let mut source = StdDevice::new(Giver { left, turns });
    let alloc = rt.alloc();
    let broken = read(alloc, &mut source, 9, b"");
    let rest = read(alloc, &mut source, 9, b"lo");
    assert!(rt; broken == Err(ReadError::Fault) && rest == Ok(true));
}

/// What the writer passes before it fails.
const TAKEN: &[Turn] = &[Turn::Passes(2), INTERRUPTED, Turn::Passes(9), BROKEN];

/// Whether the first of three writes is done, the second is broken, and the third finds no room.
fn writes_once(taker: &mut Taker) -> bool {
    let mut sink = StdDevice::new(taker);
    let written = write_all_of(&mut sink, b"hello").is_ok();
    let broken = write_all_of(&mut sink, b"!").is_err();
    written && broken && write_all_of(&mut sink, b"!").is_err()
}

#[test]
fn writers_halt(rt: HostRuntime) {
    let bytes = Vec::new(rt.alloc());
    let turns = TAKEN;
    let mut taker = Taker { bytes, turns };
    let once = writes_once(&mut taker);
    assert!(rt; once && taker.bytes.as_slice() == b"hello".as_slice());
}

/// Whether two bytes are read that are written first; three more are written then.
fn reads_while_written(source: &mut StdDevice<PipeReader>, writer: &mut PipeWriter) -> bool {
    let mut buffer = [0; 9];
    let begun = writer.write_all(b"he").is_ok();
    let read = matches!(source.read(&mut buffer), Ok(2));
    let ended = writer.write_all(b"llo").is_ok();
    begun && ended && read && buffer == *b"he\0\0\0\0\0\0\0"
}

/// Whether two bytes are read of a pipe, and three more after the writer is gone.
fn pipes(alloc: Global, reader: PipeReader, writer: PipeWriter) -> Result<bool, ReadError> {
    let (mut source, mut writer) = (StdDevice::new(reader), writer);
    let first = reads_while_written(&mut source, &mut writer);
    drop(writer);
    Ok(first && read(alloc, &mut source, 3, b"llo")?)
}

#[test]
fn a_pipe_is_read_over_several_reads(rt: HostRuntime) -> Result<(), Fail> {
    let (reader, writer) = io::pipe(&rt)?;
    assert!(rt; pipes(rt.alloc(), reader, writer)?);
    Ok(())
}

/// Whether this is loaded.
fn loads(alloc: Global, keeper: &mut impl Keeper, limit: u32, expected: &[u8]) -> bool {
    match keeper.load(alloc, limit as u64) {
        Ok(Found::Bytes(bytes)) => bytes.as_slice() == expected,
        Ok(Found::Missing) => expected == b"(missing)".as_slice(),
        Ok(Found::Longer) => expected == b"(longer)".as_slice(),
        Err(_) => false,
    }
}

/// Whether a file is missing, and is stored.
fn stores(alloc: Global, keeper: &mut impl Keeper) -> bool {
    loads(alloc, keeper, 5, b"(missing)") && keeper.store(alloc, b"hello").is_ok()
}

/// Whether the file is loaded, is too long for a lesser limit, and is replaced.
fn replaces(alloc: Global, keeper: &mut impl Keeper) -> bool {
    let whole = loads(alloc, keeper, 5, b"hello");
    let longer = loads(alloc, keeper, 4, b"(longer)");
    whole && longer && keeper.store(alloc, b"new").is_ok()
}

/// Whether the file of this name isn't there.
fn is_missing(rt: &HostRuntime, name: &str) -> bool {
    matches!(fs::exists(rt, name), Ok(false))
}

#[test]
fn a_file_is_stored_loaded_and_replaced(rt: HostRuntime) {
    let _ = fs::remove_file(&rt, "replica.rls");
    let alloc = rt.alloc();
    let mut keeper = FileKeeper::new(CurrentFolder::new(&rt));
    assert!(rt; stores(alloc, &mut keeper));
    assert!(rt; replaces(alloc, &mut FileKeeper::new(CurrentFolder::new(&rt))));
    assert!(rt; loads(alloc, &mut keeper, 5, b"new"));
    assert!(rt; is_missing(&rt, "replica.rls.new"));
    assert!(rt; fs::remove_file(&rt, "replica.rls").is_ok());
}
