use crate::pieces::Pieces;
use rls_io::{MemoryKeeper, MemorySink};
use rls_session::serve;
use std::alloc::{AllocError, Global};
use std::test::Fail;
use test_steps::bytes::{HELLO_FILE, bytes};
use test_steps::rows::{all_go, cut, first_fault};

/// Member 0 of 2 in group 7 after its insertion of `hello`.
const TYPED: &str =
    "524c5346 04 0000000000000007 00000002 00000000 0000000100000000 0000000000000000 00000000 00000001 00000001 00000000 00000005 00000000 00000001 00 00000001 00000001 01 7fffffff 00000000 00000001 00000000 00000005 00000005 68656c6c6f 00000001 00000000 00000001 0000000000000000 00 00 00000001 01 7fffffff 00000000 00000001 00000000 00000005 68656c6c6f 00000000";

/// A fresh member 1 of 2 in group 7.
const FRESH: &str =
    "524c5346 04 0000000000000007 00000002 00000001 0000000000000000 0000000000000000 00000000 0000000000000000 00000001 00 00000000 00000000 00000000";

/// No call fails.
const NO_FAULTS: [&[u64]; 3] = [&[], &[], &[]];

/// More than a session asks for at once.
const WHOLE: usize = 10_000;

/// The devices of a session.
#[derive(Drop)]
struct Devices {
    keeper: MemoryKeeper,
    source: Pieces,
    output: MemorySink,
    errors: MemorySink,
}

/// Devices with this file and this input, of which a read brings at most this many bytes. The calls with these numbers fail: of the
/// keeper, the input and the output.
fn devices_of(
    alloc: Global,
    file: Option<&[u8]>,
    input: &[u8],
    step: usize,
    failing: [&[u64]; 3],
) -> Result<Devices, AllocError> {
    Ok(Devices {
        keeper: MemoryKeeper::new(alloc, file, failing[0])?,
        source: Pieces::new(alloc, input, step, failing[1])?,
        output: MemorySink::new(alloc, 10_000, failing[2])?,
        errors: MemorySink::new(alloc, 1_000, &[])?,
    })
}

impl Devices {
    /// Holds a session, and answers its status.
    fn hold(&mut self, alloc: Global) -> u8 {
        serve(
            alloc,
            &mut self.keeper,
            &mut self.source,
            &mut self.output,
            &mut self.errors,
        )
    }

    /// Whether this was written.
    fn wrote(&self, output: &[u8], errors: &[u8]) -> bool {
        self.output.written() == output && self.errors.written() == errors
    }

    /// Whether this file is kept.
    fn keeps(&self, file: &[u8]) -> bool {
        self.keeper.file() == Some(file)
    }
}

/// Each row: the input, the replies, and whether the file is another one afterwards, with ` | ` between them.
const ROWS: &[&str] = &[
    // An insertion in front of the cursor moves it, and is taken back.
    "k 3\ni 0 A\np\nu\nt\nq\n | cursor 3\nok 2\ncursor 4\nundone 1 1\ntext 5\nhello\nsaved\n | other",
    // Refused, unknown, nothing to undo, no such member, and the end without `q`.
    "i 9 x\nx\nu\ns 5\n | no range 9 5\nbad\nno nothing\nno not a member 5\nsaved\n | same",
    // No input, an empty line, a last line without its line feed.
    " | saved\n | same",
    "\n | bad\nsaved\n | same",
    "p | cursor 0\nsaved\n | same",
    "q | saved\n | same",
    "qx\nq \n q\n | bad\nbad\nbad\nsaved\n | same",
    // Nothing after `q` is looked at.
    "q\ni 0 x\n | saved\n | same",
    "p\nq\nm 9\nabc | cursor 0\nsaved\n | same",
    // Messages: none of its bytes, fewer than it says, and one that the end cuts off.
    "m 0\np\n | no malformed at 0\ncursor 0\nsaved\n | same",
    "m 0 | no malformed at 0\nsaved\n | same",
    "m 5 | bad\nsaved\n | same",
    "m 5\n | bad\nsaved\n | same",
    "m 5\nabcd | bad\nsaved\n | same",
    "p\nm 3\n\n\n | cursor 0\nbad\nsaved\n | same",
    "m 3\nq\n\np\n | no malformed at 0\ncursor 0\nsaved\n | same",
    "m 18446744073709551616\np\n | bad\ncursor 0\nsaved\n | same",
    // Cursors, numbers, deletions, clusters, renames and line feeds.
    "k 6\nk 05\nk -1\nk 5\np\n | no range 6 5\nbad\nbad\ncursor 5\ncursor 5\nsaved\n | same",
    "d 1 3\nt\nu\nt\n | ok 2\ntext 2\nho\nundone 1 3\ntext 5\nhello\nsaved\n | other",
    "b 5\nr\nt\n | ok 2\nok 3\ntext 4\nhell\nsaved\n | other",
    "i 5 \\n\nt\n | ok 2\ntext 6\nhello\n\nsaved\n | other",
    // Stores in between: each is answered, and what undoes the edits and the cursor stay.
    "w\n | saved\nsaved\n | same",
    "w | saved\nsaved\n | same",
    "w\nw\nq\nw\n | saved\nsaved\nsaved\n | same",
    "w \n w\nw 1\nW\n | bad\nbad\nbad\nbad\nsaved\n | same",
    "k 3\ni 0 A\nw\np\nu\nt\n | cursor 3\nok 2\nsaved\ncursor 4\nundone 1 1\ntext 5\nhello\nsaved\n | other",
    "d 1 3\nr\nw\ni 2 x\nw\nu\nu\nt\n | ok 2\nok 3\nsaved\nok 4\nsaved\nundone 1 1\nundone 1 3\ntext 5\nhello\nsaved\n | other",
    "m 2\nw\nw\nm 9\nw\n | no malformed at 0\nsaved\nbad\nsaved\n | same",
    "v\nv \nV\n | version 2\nbad\nbad\nsaved\n | same",
    // The numbers, as `stat` prints them.
    "n\nn 1\nn | stat 87\ngroup 7\nme 0\nmembers 2\naccepted 1 0\ntotal 5\nruns 1\nheld 0\nunstable 1\nepochs 1\nformer 0\n\nbad\nstat 87\ngroup 7\nme 0\nmembers 2\naccepted 1 0\ntotal 5\nruns 1\nheld 0\nunstable 1\nepochs 1\nformer 0\n\nsaved\n | same",
    "r\nd 0 1\nw\nn\n | ok 2\nok 3\nsaved\nstat 87\ngroup 7\nme 0\nmembers 2\naccepted 3 0\ntotal 4\nruns 1\nheld 0\nunstable 3\nepochs 2\nformer 5\n\nsaved\n | other",
    // Changes that are told, from `c 1` to `c 0`: of an insertion with what is escaped, a deletion and an undo.
    "c 1\ni 5 \\n\\\\x\\r\nd 0 2\nu\nc 0\nd 0 1\n | telling 1\nok 2\nchanges 1\ni 5 \\n\\\\x\\r\nok 3\nchanges 1\nd 0 2\nundone 1 2\nchanges 1\ni 0 he\ntelling 0\nok 5\nsaved\n | other",
    // Of a refused edit, a cluster, a rename, an undo after it, and where there is nothing to undo.
    "c 1\ni 9 x\nb 5\nr\nu\nu\nt\n | telling 1\nno range 9 5\nchanges 0\nok 2\nchanges 1\nd 4 1\nok 3\nchanges 0\nundone 1 1\nchanges 1\ni 4 o\nno nothing\nchanges 0\ntext 5\nhello\nsaved\n | other",
    // Other requests tell none, and a message that isn't there to its end is bad.
    "c 1\nk 2\np\nm 0\nm 5\nabcd | telling 1\ncursor 2\ncursor 2\nno malformed at 0\nchanges 0\nbad\nsaved\n | same",
    "c\nc 2\nc 01\nc 1 \nc  1\nc 1 1\n | bad\nbad\nbad\nbad\nbad\nbad\nsaved\n | same",
    // Cursors with numbers.
    "k 1 0\nk 5 63\nk 3 7\np 7\np 63\np\np 0\np 8\nk 4 7\ni 2 AB\nr\np 7\np 63\np 0\nk 8 7\np 7\n | cursor 1\ncursor 5\ncursor 3\ncursor 3\ncursor 5\ncursor 1\ncursor 1\nno cursor 8\ncursor 4\nok 2\nok 3\ncursor 6\ncursor 7\ncursor 1\nno range 8 7\ncursor 6\nsaved\n | other",
    "p 0\np 1\np 64\np 01\np 1 \nk 1 64\nk 1  1\nk 1 1 1\nk x 1\nk 9 1\np 1\n | cursor 0\nno cursor 1\nbad\nbad\nbad\nbad\nbad\nbad\nbad\nno range 9 5\nno cursor 1\nsaved\n | same",
    // Steps that are taken back and done again, in groups, and what that changes.
    "z\ny\ng\nc 1\nz\ny\n | no nothing\nno nothing\ngroups 0 0\ntelling 1\nno nothing\nchanges 0\nno nothing\nchanges 0\nsaved\n | same",
    "i 5 !\nd 0 2\ng\ni 0 AB\ng\nc 1\nz\nz\ny\ny\ny\nt\n | ok 2\nok 3\ngroups 1 0\nok 4\ngroups 2 0\ntelling 1\nback 1\nchanges 1\nd 0 2\nback 2\nchanges 2\ni 0 he\nd 5 1\nagain 2\nchanges 2\ni 5 !\nd 0 2\nagain 1\nchanges 1\ni 0 AB\nno nothing\nchanges 0\ntext 6\nABllo!\nsaved\n | other",
    // Both end the open group, and an edit after them can't be followed by what was taken back before it.
    "i 0 A\nz\ny\ni 1 B\ng\nz\nz\nt\n | ok 2\nback 1\nagain 1\nok 5\ngroups 2 0\nback 1\nback 1\ntext 5\nhello\nsaved\n | other",
    "i 0 A\nz\ni 5 B\ny\nt\n | ok 2\nback 1\nok 4\nno nothing\ntext 6\nhelloB\nsaved\n | other",
    // Over a rename and stores, beside an undo, which is no step and may leave nothing of one, and where an edit was refused.
    "i 0 A\nr\nw\nz\nw\ng\ny\nt\n | ok 2\nok 3\nsaved\nback 1\nsaved\ngroups 0 1\nagain 1\ntext 6\nAhello\nsaved\n | other",
    "i 0 A\nz\nu\ny\nt\n | ok 2\nback 1\nundone 0 0\nagain 1\ntext 6\nAhello\nsaved\n | other",
    "i 5 a\ng\ni 6 b\nz\nu\nu\nz\ng\ny\ny\nz\nz\nz\nt\n | ok 2\ngroups 1 0\nok 3\nback 1\nundone 0 0\nundone 1 1\nback 1\ngroups 0 2\nagain 1\nagain 1\nback 1\nback 1\nno nothing\ntext 5\nhello\nsaved\n | other",
    "i 9 x\nb 5\nr\nz\nt\n | no range 9 5\nok 2\nok 3\nback 1\ntext 5\nhello\nsaved\n | other",
    "z 1\ny \nzz\ng 0\nZ\n | bad\nbad\nbad\nbad\nbad\nsaved\n | same",
    // A cursor of the character after it, beside one of the character before it; at the end both are the same.
    "j 3\nk 3 1\ni 3 XY\np\np 1\nd 5 1\np\nj 6 2\ni 6 !\np 2\nj 8\nj 3 64\nj\nj x\n | cursor 3\ncursor 3\nok 2\ncursor 5\ncursor 3\nok 3\ncursor 5\ncursor 6\nok 4\ncursor 6\nno range 8 7\nbad\nbad\nbad\nsaved\n | other",
    // Places as words, here and from elsewhere: of a character that never came, and of an epoch that isn't known.
    "a 0\na 3\na 6\nl beginning\nl after:origin:2147483647.0.1.2\nl before:origin:2147483647.0.1.2\nl after:origin:2147483647.9.9.9\nl after:0.9:1.1.1.1\nl after:origin:2147483647.0.1.2 \nl\na x\n | anchor beginning\nanchor after:origin:2147483647.0.1.2\nno range 6 5\ncursor 0\ncursor 3\ncursor 2\ncursor 5\nno epoch\nbad\nbad\nbad\nsaved\n | same",
    "r\na 3\nl after:0.2:2147483647.0.2.2\nl after:origin:2147483647.0.1.2\ni 0 A\nl after:origin:2147483647.0.1.2\n | ok 2\nanchor after:0.2:2147483647.0.2.2\ncursor 3\ncursor 3\nok 3\ncursor 4\nsaved\n | other",
    // The versions of the protocol.
    "v 4\nv 3\nv 1\nv 2\nv 5\nv 0\nv x\nv \nv\n | version 4\nversion 3\nversion 1\nversion 2\nbad\nbad\nbad\nbad\nversion 2\nsaved\n | same",
    // Messages by told counts: one for each member, each a number, with one space between two.
    "s 1 0\ns 1 0 0 0\ns 2 0 0\ns 2 0\ns 1 0 0 \ns 1  0 0\ns 1 0 x\ns 1 0 4294967296\ns x 0 0\n | bad\nbad\nno not a member 2\nbad\nbad\nbad\nbad\nbad\nbad\nsaved\n | same",
    // What a rename would bring: of three runs, of what it made of them, of an empty text, and with a draft.
    "i 2 XY\no\nr\no\nd 0 7\no\nr\ne 0 0 draft\no\no \nO\n | ok 2\nrename 114 limit 16777216 runs 3 tuples 4 epochs 1 own 2 bytes 110\nok 3\nrename 55 limit 16777216 runs 1 tuples 1 epochs 2 own 3 bytes 224\nok 4\nrename 30 limit 16777216 runs 0 tuples 0 epochs 2 own 4 bytes 279\nno empty document\nok\nrename 55 limit 16777216 runs 1 tuples 1 epochs 2 own 5 bytes 335\nbad\nbad\nsaved\n | other",
    // Changes of an editor: one, at the end without a line feed; and what comes to nothing.
    "e 4 1 X\nt\n | ok\ntext 5\nhellX\nsaved\n | other",
    "e 0 1 J | ok\nsaved\n | other",
    "e 5 0 !\ne 6 0 ?\ne 6 1 \ne 5 1 \nz\n | ok\nok\nok\nok\nno nothing\nsaved\n | same",
    // They go on with each other, but not over a store, nor elsewhere.
    "e 4 1 \ne 3 1 \ne 3 0 p\nt\n | ok\nok\nok\ntext 4\nhelp\nsaved\n | other",
    "e 4 1 \nw\ne 4 0 p\nt\n | ok\nsaved\nok\ntext 5\nhellp\nsaved\n | other",
    "e 5 0 !\ne 0 0 A\nn\n | ok\nok\nstat 87\ngroup 7\nme 0\nmembers 2\naccepted 3 0\ntotal 7\nruns 1\nheld 0\nunstable 3\nepochs 1\nformer 0\n\nsaved\n | other",
    "e 2 0 XYZ\ne 3 1 pq\nt\ne 1 5 Q\nt\n | ok\nok\ntext 9\nheXpqZllo\nok\ntext 5\nhQllo\nsaved\n | other",
    // Refused, and lines that are none of them; what is shown is as before.
    "e 6 0 a\ne 5 1 a\ne 9 1 \ne 0 18446744073709551615 a\ne 0 0 \ne 0 1\ne 0\ne\ne 01 1 a\ne 0 1 \\q\n | no range 6 5\nno range 5 5\nno range 9 5\nno range 0 5\nno empty edit\nbad\nbad\nbad\nbad\nbad\nsaved\n | same",
    "e 5 0 !\ne 7 0 a\ne 6 1 a\ne 0 0 \nt\n | ok\nno range 7 6\nno range 6 6\nno empty edit\ntext 6\nhello!\nsaved\n | other",
    // Told changes have nothing of them; to steps and entries they are what is made of them.
    "c 1\ne 5 0 !\ne 0 1 J\ni 1 u\nz\ny\n | telling 1\nok\nok\nok 5\nchanges 1\ni 1 u\nback 4\nchanges 4\nd 1 1\ni 1 h\nd 0 1\nd 5 1\nagain 4\nchanges 4\ni 5 !\ni 0 J\nd 1 1\ni 1 u\nsaved\n | other",
    "e 4 1 X\nz\ny\nt\n | ok\nback 2\nagain 2\ntext 5\nhellX\nsaved\n | other",
    "e 4 1 X\nu\nu\nu\nt\n | ok\nundone 1 1\nundone 1 1\nno nothing\ntext 5\nhello\nsaved\n | other",
    "i 5 !\nz\ne 5 0 X\ne 5 1 \ny\ne 6 0 ?\ng\ne 7 0 .\ng\nz\nz\n | ok 2\nback 1\nok\nok\nagain 1\nok\ngroups 2 0\nok\ngroups 3 0\nback 1\nback 1\nsaved\n | other",
    // Before cursors and places, and at the end of the input.
    "e 5 0 !\nk 6\ne 0 0 A\np\na 7\n | ok\ncursor 6\nok\ncursor 7\nanchor after:origin:2147483647.0.1.5\nsaved\n | other",
    "e 5 0 !\nm 9\nabc | ok\nbad\nsaved\n | other",
    "e 5 0 \\n\\\\\\r\nt\n | ok\ntext 8\nhello\n\\\r\nsaved\n | other",
    // An undo and a cursor over two renames.
    "k 3\ni 1 XY\nr\nr\np\nu\np\nr\np\nu\nt\n | cursor 3\nok 2\nok 3\nok 4\ncursor 5\nundone 1 2\ncursor 3\nok 6\ncursor 3\nno nothing\ntext 5\nhello\nsaved\n | other",
];

/// Whether a row goes as it has to, if a read brings at most this many bytes.
fn goes(alloc: Global, file: &[u8], step: usize, row: &'static str) -> Result<bool, Fail> {
    let (input, rest) = cut(row)?;
    let (replies, end) = cut(rest)?;
    let mut devices = devices_of(alloc, Some(file), input.as_bytes(), step, NO_FAULTS)?;
    let status = devices.hold(alloc);
    let is_other = !devices.keeps(file);
    Ok(status == 0 && devices.wrote(replies.as_bytes(), b"") && is_other == (end == "other"))
}

/// The first row that goes otherwise than it has to, if a read brings at most this many bytes.
fn other_row(alloc: Global, file: &[u8], step: usize) -> Result<Option<usize>, Fail> {
    first_fault(ROWS, |row| goes(alloc, file, step, row))
}

/// The same over the file after `hello`.
fn fault_of_rows(alloc: Global, step: usize) -> Result<Option<usize>, Fail> {
    let file = bytes(alloc, TYPED)?;
    other_row(alloc, &file, step)
}

#[test]
fn requests_are_answered_in_order(rt: HostRuntime) -> Result<(), Fail> {
    assert_eq!(rt; fault_of_rows(rt.alloc(), WHOLE)?, None);
    Ok(())
}

#[test]
fn requests_come_byte_by_byte(rt: HostRuntime) -> Result<(), Fail> {
    assert_eq!(rt; fault_of_rows(rt.alloc(), 1)?, None);
    Ok(())
}

/// How many bytes a session over this file leaves that gets its input byte by byte.
fn left_of(alloc: Global, file: &[u8], input: &[u8]) -> Result<usize, AllocError> {
    let mut devices = devices_of(alloc, Some(file), input, 1, NO_FAULTS)?;
    let _status = devices.hold(alloc);
    Ok(devices.source.left())
}

/// The same over the file after `hello`.
fn left_after_hello(alloc: Global, input: &[u8]) -> Result<usize, Fail> {
    let file = bytes(alloc, TYPED)?;
    Ok(left_of(alloc, &file, input)?)
}

#[test]
fn nothing_is_read_after_the_last_request(rt: HostRuntime) -> Result<(), Fail> {
    assert_eq!(rt; left_after_hello(rt.alloc(), b"m 2\nq\nq\ni 0 x\n")?, 6);
    Ok(())
}

/// Each row: how many bytes a read brings at most, a file, an input and its output. The message of 81 bytes that tells the insertion of
/// `hello` is taken in pieces, and sent.
type Exchange = (usize, &'static str, &'static [u8], &'static [u8]);

const EXCHANGES: &[Exchange] = &[
    (
        7,
        FRESH,
        b"m 81\nRLSM\x03\0\0\0\0\0\0\0\x07\0\0\0\x02\0\0\0\0\0\0\0\x01\0\0\0\0\0\0\0\x01\0\0\0\0\0\0\0\x01\0\0\0\0\0\0\0\0\0\0\0\0\0\x01\x01\x7f\xff\xff\xff\0\0\0\0\0\0\0\x01\0\0\0\0\0\0\0\x05hellot\n",
        b"applied 1 released 0 repeated 0 held 0 refused 0\ntext 5\nhello\nsaved\n",
    ),
    (
        3,
        FRESH,
        b"c 1\nm 81\nRLSM\x03\0\0\0\0\0\0\0\x07\0\0\0\x02\0\0\0\0\0\0\0\x01\0\0\0\0\0\0\0\x01\0\0\0\0\0\0\0\x01\0\0\0\0\0\0\0\0\0\0\0\0\0\x01\x01\x7f\xff\xff\xff\0\0\0\0\0\0\0\x01\0\0\0\0\0\0\0\x05hellod 1 1\n",
        b"telling 1\napplied 1 released 0 repeated 0 held 0 refused 0\nchanges 1\ni 0 hello\nok 1\nchanges 1\nd 1 1\nsaved\n",
    ),
    (
        WHOLE,
        TYPED,
        b"s 1\n",
        b"message 81\nRLSM\x03\0\0\0\0\0\0\0\x07\0\0\0\x02\0\0\0\0\0\0\0\x01\0\0\0\0\0\0\0\x01\0\0\0\0\0\0\0\x01\0\0\0\0\0\0\0\0\0\0\0\0\0\x01\x01\x7f\xff\xff\xff\0\0\0\0\0\0\0\x01\0\0\0\0\0\0\0\x05hello\nsaved\n",
    ),
];

/// What is written by a session over a file, and nothing on errors.
fn writes(
    alloc: Global,
    file: &[u8],
    step: usize,
    input: &[u8],
    output: &[u8],
) -> Result<bool, AllocError> {
    let mut devices = devices_of(alloc, Some(file), input, step, NO_FAULTS)?;
    let _status = devices.hold(alloc);
    Ok(devices.wrote(output, b""))
}

fn is_answered(alloc: Global, exchange: &Exchange) -> Result<bool, Fail> {
    let (step, digits, input, output) = exchange;
    let file = bytes(alloc, digits)?;
    Ok(writes(alloc, &file, *step, input, output)?)
}

#[test]
fn messages_come_and_go(rt: HostRuntime) -> Result<(), Fail> {
    all_go(EXCHANGES, |exchange| is_answered(rt.alloc(), exchange))
}

/// Each row: how many bytes a read brings at most, which calls of the keeper, the input and the output fail, the status, the output,
/// and whether the file is another one afterwards. The input is an insertion and a request for the text.
type Fault<'a> = (usize, [&'a [u64]; 3], u8, &'a [u8], bool);

const FAULTS: &[Fault<'_>] = &[
    // In one piece: each call of each device.
    (WHOLE, [&[0], &[], &[]], 7, b"", false),
    (WHOLE, [&[1], &[], &[]], 7, b"ok 2\ntext 6\nAhello\n", false),
    (WHOLE, [&[], &[0], &[]], 8, b"", false),
    (WHOLE, [&[], &[1], &[]], 8, b"ok 2\ntext 6\nAhello\n", false),
    (WHOLE, [&[], &[], &[0]], 9, b"", false),
    (WHOLE, [&[], &[], &[1]], 9, b"ok 2\n", false),
    (WHOLE, [&[], &[], &[2]], 9, b"ok 2\ntext 6\nAhello\n", true),
    // Byte by byte: each whole request has its reply before the next read.
    (1, [&[], &[0], &[]], 8, b"", false),
    (1, [&[], &[1], &[]], 8, b"", false),
    (1, [&[], &[2], &[]], 8, b"", false),
    (1, [&[], &[3], &[]], 8, b"", false),
    (1, [&[], &[4], &[]], 8, b"", false),
    (1, [&[], &[5], &[]], 8, b"", false),
    (1, [&[], &[6], &[]], 8, b"ok 2\n", false),
    (1, [&[], &[7], &[]], 8, b"ok 2\n", false),
    (1, [&[], &[8], &[]], 8, b"ok 2\ntext 6\nAhello\n", false),
    // Several devices: the first in the order of work decides the status.
    (WHOLE, [&[0], &[0], &[0]], 7, b"", false),
    (WHOLE, [&[1], &[0], &[0]], 8, b"", false),
    (WHOLE, [&[1], &[1], &[0]], 9, b"", false),
    (WHOLE, [&[1], &[1], &[1]], 9, b"ok 2\n", false),
    (
        WHOLE,
        [&[1], &[1], &[2]],
        8,
        b"ok 2\ntext 6\nAhello\n",
        false,
    ),
    (
        WHOLE,
        [&[1], &[], &[2]],
        7,
        b"ok 2\ntext 6\nAhello\n",
        false,
    ),
];

/// The same of a session that stores three times: after an insertion, after another one, and at its end. Each row has also the text that
/// is kept.
type StoreFault<'a> = (usize, [&'a [u64]; 3], u8, &'a [u8], &'a [u8]);

const STORE_FAULTS: &[StoreFault<'_>] = &[
    // Each store fails: the file is that of the one before.
    (WHOLE, [&[1], &[], &[]], 7, b"ok 2\n", b"hello"),
    (
        WHOLE,
        [&[2], &[], &[]],
        7,
        b"ok 2\nsaved\nok 3\n",
        b"Ahello",
    ),
    (
        WHOLE,
        [&[3], &[], &[]],
        7,
        b"ok 2\nsaved\nok 3\nsaved\n",
        b"BAhello",
    ),
    // The output fails at each reply: the file is the new one from each `saved` on.
    (WHOLE, [&[], &[], &[0]], 9, b"", b"hello"),
    (WHOLE, [&[], &[], &[1]], 9, b"ok 2\n", b"Ahello"),
    (WHOLE, [&[], &[], &[2]], 9, b"ok 2\nsaved\n", b"Ahello"),
    (
        WHOLE,
        [&[], &[], &[3]],
        9,
        b"ok 2\nsaved\nok 3\n",
        b"BAhello",
    ),
    // The input fails, byte by byte: what `w` stored is kept, and its reply is there before the next read.
    (1, [&[], &[5], &[]], 8, b"", b"hello"),
    (1, [&[], &[6], &[]], 8, b"ok 2\n", b"hello"),
    (1, [&[], &[7], &[]], 8, b"ok 2\n", b"hello"),
    (1, [&[], &[8], &[]], 8, b"ok 2\nsaved\n", b"Ahello"),
    (1, [&[], &[14], &[]], 8, b"ok 2\nsaved\nok 3\n", b"Ahello"),
];

/// The text that a session over this file shows.
fn shown(alloc: Global, file: &[u8]) -> Result<Vec<u8>, AllocError> {
    let mut devices = devices_of(alloc, Some(file), b"t\n", WHOLE, NO_FAULTS)?;
    let _status = devices.hold(alloc);
    Vec::from_slice(alloc, devices.output.written())
}

/// The reply with this text, and the end.
fn shows(alloc: Global, text: &[u8]) -> Result<Vec<u8>, AllocError> {
    let len = text.len();
    let mut reply = format!(in alloc; "text {len}\n")?.into_bytes();
    reply.extend_from_slice(text)?;
    reply.extend_from_slice(b"\nsaved\n")?;
    Ok(reply)
}

/// Whether a row goes as it has to over this file.
fn store_fails(alloc: Global, file: &[u8], row: &StoreFault<'_>) -> Result<bool, Fail> {
    let (step, failing, due, output, text) = row;
    let input = b"i 0 A\nw\ni 0 B\nw\n";
    let mut devices = devices_of(alloc, Some(file), input, *step, *failing)?;
    let status = devices.hold(alloc);
    let kept = shown(alloc, devices.keeper.file().unwrap_or(&[]))?;
    let is_kept = kept.as_slice() == shows(alloc, text)?.as_slice();
    Ok(status == *due && is_kept && devices.wrote(output, fault_line(*due)))
}

/// The line on errors for the status of a device that failed.
fn fault_line(status: u8) -> &'static [u8] {
    match status {
        7 => b"keeper fault\n",
        8 => b"source fault\n",
        _ => b"sink fault\n",
    }
}

/// Whether a row goes as it has to over this file.
fn fails(alloc: Global, file: &[u8], row: &Fault<'_>) -> Result<bool, Fail> {
    let (step, failing, due, output, is_other) = row;
    let mut devices = devices_of(alloc, Some(file), b"i 0 A\nt\n", *step, *failing)?;
    let status = devices.hold(alloc);
    let is_kept = devices.keeps(file) != *is_other;
    Ok(status == *due && is_kept && devices.wrote(output, fault_line(*due)))
}

/// Whether all rows go as they have to over the file after `hello`.
fn all_fail(alloc: Global) -> Result<(), Fail> {
    let file = bytes(alloc, TYPED)?;
    all_go(FAULTS, |row| fails(alloc, &file, row))?;
    all_go(STORE_FAULTS, |row| store_fails(alloc, &file, row))
}

#[test]
fn devices_fail(rt: HostRuntime) -> Result<(), Fail> {
    all_fail(rt.alloc())
}

/// Each row: a file, and the status and the errors of a session over it, and how many bytes are kept.
type Ending = (&'static str, u8, &'static [u8], usize);

const ENDINGS: &[Ending] = &[
    // The front of 30 bytes of the file after `hello`.
    (
        "524c5346 04 0000000000000007 00000002 00000000 0000000100000000 00",
        3,
        b"damaged at 29\n",
        30,
    ),
    // A journal, which is stored in the newest form.
    (HELLO_FILE, 0, b"", 96),
];

/// Whether a session ends with this status, these errors and this many bytes.
fn ends(
    alloc: Global,
    file: Option<&[u8]>,
    due: u8,
    errors: &[u8],
    kept: usize,
) -> Result<bool, AllocError> {
    let mut devices = devices_of(alloc, file, b"t\n", WHOLE, NO_FAULTS)?;
    let status = devices.hold(alloc);
    let len = devices.keeper.file().unwrap_or(&[]).len();
    Ok(status == due && len == kept && devices.errors.written() == errors)
}

fn ends_so(alloc: Global, ending: &Ending) -> Result<bool, Fail> {
    let (digits, due, errors, kept) = ending;
    let file = bytes(alloc, digits)?;
    Ok(ends(alloc, Some(&file), *due, errors, *kept)?)
}

#[test]
fn sessions_end(rt: HostRuntime) -> Result<(), Fail> {
    all_go(ENDINGS, |ending| ends_so(rt.alloc(), ending))
}

#[test]
fn there_is_no_file(rt: HostRuntime) -> Result<(), Fail> {
    assert!(rt; ends(rt.alloc(), None, 2, b"no replica\n", 0)?);
    Ok(())
}

/// Whether an input is too large for a session over this file, which stays.
fn is_too_large(alloc: Global, file: &[u8], input: &[u8]) -> Result<bool, AllocError> {
    let mut devices = devices_of(alloc, Some(file), input, WHOLE, NO_FAULTS)?;
    let status = devices.hold(alloc);
    Ok(status == 11 && devices.wrote(b"", b"too large\n") && devices.keeps(file))
}

/// Whether an input of this many letters is too large for a session over the file after `hello`.
fn are_too_many(alloc: Global, letters: usize) -> Result<bool, Fail> {
    let file = bytes(alloc, TYPED)?;
    let input = Vec::from_elem(alloc, b'a', letters)?;
    Ok(is_too_large(alloc, &file, &input)?)
}

/// One byte more than is read, without a whole request.
#[test]
fn inputs_are_too_large(rt: HostRuntime) -> Result<(), Fail> {
    assert!(rt; are_too_many(rt.alloc(), 67_108_865)?);
    Ok(())
}
