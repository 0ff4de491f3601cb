use crate::arguments::Arguments;
use crate::folder::{ReplicaKeeper, folder_keeper};
use crate::given::words;
use crate::performing::{perform, perform_in_folder};
use crate::watched::{Watch, Watched};
use rls_io::{Found, Keeper, MemoryKeeper, MemorySink, MemorySource};
use std::alloc::{AllocError, Global};
use std::fs;
use std::rt::Files;
use std::test::Fail;

/// Which of the two keepers is meant.
#[derive(Clone, Copy, PartialEq)]
enum Kind {
    File,
    Slots,
}

/// What is loaded: `o` for the file `old`, `n` for `new`, `?` where the keeper fails, and `!` for all else.
fn load(alloc: Global, keeper: &mut impl Keeper) -> char {
    match keeper.load(alloc, 9) {
        Ok(Found::Bytes(bytes)) if bytes.as_slice() == b"old".as_slice() => 'o',
        Ok(Found::Bytes(bytes)) if bytes.as_slice() == b"new".as_slice() => 'n',
        Ok(_) => '!',
        Err(_) => '?',
    }
}

fn kept(rt: &HostRuntime) -> char {
    load(rt.alloc(), &mut folder_keeper(rt))
}

fn clear(rt: &HostRuntime) {
    for name in [
        "replica.rls",
        "replica.rls.new",
        "replica.0",
        "replica.1",
        "replica.gate",
    ] {
        let _ = fs::remove_file(rt, name);
    }
}

/// Empties the folder, and stores `old` by the keeper that is meant. Answers whether it succeeds.
fn begin(rt: &HostRuntime, kind: Kind) -> bool {
    clear(rt);
    if kind == Kind::File && fs::write(rt, "replica.rls", b"older").is_err() {
        return false;
    }
    folder_keeper(rt).store(rt.alloc(), b"old").is_ok()
}

/// What comes of storing `new`, in the words of `load`, where the call with this number fails; `N` where it succeeds.
fn outcome(rt: &HostRuntime, kind: Kind, watch: &Watch) -> char {
    if !begin(rt, kind) {
        return '!';
    }
    let mut keeper = folder_keeper(Watched { rt, watch });
    let is_stored = keeper.store(rt.alloc(), b"new").is_ok();
    match (is_stored, kept(rt)) {
        (true, 'n') => 'N',
        (true, _) => '!',
        (false, found) => found,
    }
}

/// What comes of it where each call fails in turn, up to the first that isn't made.
fn outcomes(rt: &HostRuntime, kind: Kind) -> Result<String, Fail> {
    let mut all = String::new(rt.alloc());
    for failing in 0..40 {
        let outcome = outcome(rt, kind, &Watch::new(rt.alloc(), failing));
        all.push(outcome)?;
        if outcome == 'N' {
            break;
        }
    }
    clear(rt);
    Ok(all)
}

#[test]
fn a_call_that_fails_leaves_a_whole_file(rt: HostRuntime) -> Result<(), Fail> {
    assert_eq!(rt;
        outcomes(&rt, Kind::Slots)?.as_str(),
        "oooooooooooooooooooonN"
    );
    assert_eq!(rt; outcomes(&rt, Kind::File)?.as_str(), "ooooonnN");
    Ok(())
}

/// The calls that change something while `new` is stored.
fn calls(rt: &HostRuntime, kind: Kind) -> Result<String, Fail> {
    let watch = Watch::new(rt.alloc(), u64::MAX);
    let outcome = outcome(rt, kind, &watch);
    clear(rt);
    match outcome {
        'N' => Ok(watch.told()?),
        _ => Err(Fail::new("not stored")),
    }
}

#[test]
fn what_is_stored_is_synced_before_it_is_named(rt: HostRuntime) -> Result<(), Fail> {
    assert_eq!(rt;
        calls(&rt, Kind::Slots)?.as_str(),
        " write replica.gate sync replica.gate sync . sync replica.0 write replica.1 write replica.1 sync replica.1 write replica.gate sync replica.gate"
    );
    assert_eq!(rt;
        calls(&rt, Kind::File)?.as_str(),
        " make replica.rls.new write replica.rls.new sync replica.rls.new rename replica.rls sync ."
    );
    Ok(())
}

#[test]
fn the_folder_is_synced_before_its_file_is_loaded(rt: HostRuntime) -> Result<(), Fail> {
    let watch = Watch::new(rt.alloc(), u64::MAX);
    let is_begun = begin(&rt, Kind::File);
    let found = load(
        rt.alloc(),
        &mut folder_keeper(Watched {
            rt: &rt,
            watch: &watch,
        }),
    );
    clear(&rt);
    assert_eq!(rt; (is_begun, found), (true, 'o'));
    assert_eq!(rt; watch.told()?.as_str(), " sync .");
    Ok(())
}

/// What is loaded where each call fails in turn, up to the first that isn't made.
fn loads(rt: &HostRuntime, kind: Kind) -> Result<String, Fail> {
    let mut all = String::new(rt.alloc());
    for failing in 0..40 {
        let is_begun = begin(rt, kind);
        let watch = Watch::new(rt.alloc(), failing);
        let found = load(
            rt.alloc(),
            &mut folder_keeper(Watched { rt, watch: &watch }),
        );
        all.push(if is_begun { found } else { '!' })?;
        if found != '?' {
            break;
        }
    }
    clear(rt);
    Ok(all)
}

#[test]
fn a_file_that_cannot_be_read_is_not_missing(rt: HostRuntime) -> Result<(), Fail> {
    assert_eq!(rt; loads(&rt, Kind::Slots)?.as_str(), "??????????????????o");
    assert_eq!(rt; loads(&rt, Kind::File)?.as_str(), "??????o");
    Ok(())
}

#[test]
fn the_first_store_syncs_the_folder_that_has_its_files(rt: HostRuntime) -> Result<(), Fail> {
    clear(&rt);
    let watch = Watch::new(rt.alloc(), u64::MAX);
    let mut keeper = folder_keeper(Watched {
        rt: &rt,
        watch: &watch,
    });
    let is_stored = keeper.store(rt.alloc(), b"new").is_ok();
    let end = (is_stored, kept(&rt));
    clear(&rt);
    assert_eq!(rt; end, (true, 'n'));
    assert_eq!(rt;
        watch.told()?.as_str(),
        " sync . make replica.0 write replica.0 write replica.0 make replica.1 write replica.1 write replica.1 sync replica.0 sync . sync replica.1 make replica.gate write replica.gate sync replica.gate sync ."
    );
    Ok(())
}

/// Whether so many bytes are stored over what is there, and loaded again.
fn keeps(rt: &HostRuntime, len: usize) -> Result<bool, AllocError> {
    let mut bytes = Vec::new(rt.alloc());
    for i in 0..len {
        bytes.push((i % 251) as u8)?;
    }
    let is_stored = folder_keeper(rt).store(rt.alloc(), &bytes).is_ok();
    Ok(match folder_keeper(rt).load(rt.alloc(), len as u64) {
        Ok(Found::Bytes(found)) => is_stored && found.as_slice() == bytes.as_slice(),
        _ => false,
    })
}

#[test]
fn a_large_file_is_kept_whole(rt: HostRuntime) -> Result<(), Fail> {
    for (kind, len) in [
        (Kind::File, 300_000),
        (Kind::File, 0),
        (Kind::Slots, 300_000),
        (Kind::Slots, 0),
    ] {
        let is_begun = begin(&rt, kind);
        let left = fs::write(&rt, "replica.rls.new", b"of a store that was stopped");
        let is_kept = keeps(&rt, len)?;
        clear(&rt);
        assert_eq!(rt;
            (is_begun, left.is_ok(), is_kept),
            (true, true, true),
            "{len}"
        );
    }
    Ok(())
}

/// Each row: what the program is given, its name first, and the words that this comes to, each with a bar behind it.
const ARGUMENTS: &[(&[&[u8]], &str)] = &[
    (&[b"rls"], ""),
    (&[b"rls", b"text"], "text|"),
    (&[b"rls", b"send", b"", b"1"], "send||1|"),
    (&[b"rls", b"text", b"\xff"], "|"),
    (&[], ""),
];

#[test]
fn all_words_are_handed_on(rt: HostRuntime) -> Result<(), Fail> {
    for (given, wanted) in ARGUMENTS {
        let mut told = String::new(rt.alloc());
        for word in words(&(Arguments { words: given }, rt.alloc()))? {
            told.push_str(word.as_str())?;
            told.push('|')?;
        }
        assert_eq!(rt; told.as_str(), *wanted);
    }
    Ok(())
}

/// The words between which single spaces stand.
fn words_of(alloc: Global, words: &str) -> Result<Vec<String>, AllocError> {
    let mut list = Vec::new(alloc);
    for word in words.split(' ') {
        list.push(String::from_str(alloc, word)?)?;
    }
    Ok(list)
}

/// Performs these words with this input.
fn perform_words(
    alloc: Global,
    keeper: &mut MemoryKeeper,
    words: &str,
    given: &[u8],
    output: &mut MemorySink,
) -> Result<(), AllocError> {
    let words = words_of(alloc, words)?;
    let mut input = MemorySource::new(alloc, given, &[])?;
    let mut errors = MemorySink::new(alloc, 1000, &[])?;
    let _status = perform(alloc, &words, keeper, &mut input, output, &mut errors);
    Ok(())
}

/// Whether this is printed if these words are given with this input.
fn prints(
    alloc: Global,
    keeper: &mut MemoryKeeper,
    words: &str,
    given: &[u8],
    expected: &[u8],
) -> Result<bool, AllocError> {
    let mut output = MemorySink::new(alloc, 1000, &[])?;
    perform_words(alloc, keeper, words, given, &mut output)?;
    Ok(output.written() == expected)
}

#[test]
fn one_word_begins_a_session(rt: HostRuntime) -> Result<(), Fail> {
    let alloc = rt.alloc();
    let mut keeper = MemoryKeeper::new(alloc, None, &[])?;
    for (words, given, wanted) in [
        ("new 7 0 2", "", "new 7 0 2\n"),
        ("session", "i 0 a\nt\n", "ok 1\ntext 1\na\nsaved\n"),
        ("text", "t\n", "a"),
        ("session now", "t\n", ""),
        ("Session", "t\n", ""),
    ] {
        let is_so = prints(
            alloc,
            &mut keeper,
            words,
            given.as_bytes(),
            wanted.as_bytes(),
        )?;
        assert!(rt; is_so, "{words}");
    }
    Ok(())
}

/// Puts the replica of a fresh member into the folder, by the keeper that is meant.
fn begin_replica(rt: &HostRuntime, kind: Kind) -> Result<(), Fail> {
    clear(rt);
    let mut memory = MemoryKeeper::new(rt.alloc(), None, &[])?;
    let _is_new = prints(rt.alloc(), &mut memory, "new 7 0 2", b"", b"")?;
    let file = memory.file().unwrap_or(&[]);
    if kind == Kind::File {
        fs::write(rt, "replica.rls", file)?;
    } else if folder_keeper(rt).store(rt.alloc(), file).is_err() {
        return Err(Fail::new("not stored"));
    }
    Ok(())
}

/// The status of a session over these devices.
fn session_status<R: Files>(
    alloc: Global,
    keeper: &mut ReplicaKeeper<R>,
    input: &mut MemorySource,
    output: &mut MemorySink,
) -> Result<u8, Fail> {
    let words = words_of(alloc, "session")?;
    let mut errors = MemorySink::new(alloc, 1000, &[])?;
    Ok(perform_in_folder(alloc, &words, keeper, input, output, &mut errors))
}

/// The status of a session of one insertion over this keeper, and how many bytes it answered. These calls of the input and of the output
/// fail.
fn session_over<R: Files>(
    alloc: Global,
    keeper: &mut ReplicaKeeper<R>,
    failing_reads: &[u64],
    failing_writes: &[u64],
) -> Result<(u8, usize), Fail> {
    let mut input = MemorySource::new(alloc, b"i 0 a\n", failing_reads)?;
    let mut output = MemorySink::new(alloc, 1000, failing_writes)?;
    let status = session_status(alloc, keeper, &mut input, &mut output)?;
    Ok((status, output.written().len()))
}

/// The same in a real folder, where the call of the file system with this number fails too.
fn session_end(
    rt: &HostRuntime,
    kind: Kind,
    failing: u64,
    failing_reads: &[u64],
    failing_writes: &[u64],
) -> Result<(u8, usize), Fail> {
    begin_replica(rt, kind)?;
    let watch = Watch::new(rt.alloc(), failing);
    let mut keeper = folder_keeper(Watched { rt, watch: &watch });
    let end = session_over(rt.alloc(), &mut keeper, failing_reads, failing_writes);
    clear(rt);
    end
}

/// Each row: the keeper, the call of the file system, the reads and the writes that fail, the status, and how many bytes are answered.
type End<'a> = (Kind, u64, &'a [u64], &'a [u64], u8, usize);

const NEVER: u64 = u64::MAX;

const ENDS: &[End<'_>] = &[
    // The choice of the keeper, its load, and its store, each with all later devices.
    (Kind::File, 0, &[0], &[0], 7, 0),
    (Kind::File, 1, &[0], &[0], 7, 0),
    (Kind::File, 7, &[], &[1], 7, 5),
    (Kind::Slots, 0, &[0], &[0], 7, 0),
    (Kind::Slots, 1, &[0], &[0], 7, 0),
    (Kind::Slots, 25, &[], &[1], 7, 5),
    // The input before the output, and both before the store.
    (Kind::File, 7, &[0], &[0], 8, 0),
    (Kind::File, 7, &[1], &[0], 9, 0),
    (Kind::Slots, 25, &[0], &[0], 8, 0),
    (Kind::Slots, 25, &[1], &[0], 9, 0),
    // The output after the store, and no device.
    (Kind::File, NEVER, &[], &[1], 9, 5),
    (Kind::File, NEVER, &[], &[], 0, 11),
    (Kind::Slots, NEVER, &[], &[1], 9, 5),
    (Kind::Slots, NEVER, &[], &[], 0, 11),
];

#[test]
fn the_first_device_that_fails_decides_the_status(rt: HostRuntime) -> Result<(), Fail> {
    for (i, (kind, failing, reads, writes, status, answered)) in ENDS.iter().enumerate() {
        let end = session_end(&rt, *kind, *failing, reads, writes)?;
        assert_eq!(rt; end, (*status, *answered), "{i}");
    }
    Ok(())
}
