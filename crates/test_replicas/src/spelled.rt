//! Operations, messages and scripts as they are spelled.

use rls_codec::{DecodeError, decode_message, decode_op, encode_message, encode_op};
use rls_ident::EpochName;
use rls_ops::{Op, Text};
use rls_replica::{Edit, Replica, SendError};
use rls_script::{ClusterError, Line, Lines, ScriptError, cluster_before, number, parse};
use rls_sync::{TakeBytesError, message_bytes, take_bytes};
use std::alloc::{AllocError, Global};
use std::test::Fail;
use test_steps::bytes::{EMPTY_MESSAGE, HELLO_MESSAGE, bytes, front};
use test_steps::told::{Deed, ORIGIN, Told, at, op_of};

/// The places at which the fields of the message of 81 bytes begin.
const FIELDS: [usize; 21] = [
    0, 4, 5, 13, 17, 21, 25, 29, 33, 37, 41, 45, 49, 50, 51, 55, 56, 60, 64, 68, 72,
];

/// The place of the field that is cut off if this many of the 81 bytes are left.
fn cut_at(len: usize) -> u64 {
    let mut at = 0;
    for field in FIELDS {
        if field <= len {
            at = field;
        }
    }
    if len < 76 { at as u64 } else { 76 }
}

/// Why the bytes are no message, if they are none.
fn fault(alloc: Global, bytes: &[u8]) -> Option<DecodeError> {
    match decode_message(alloc, bytes) {
        Ok(_) => None,
        Err(error) => Some(error),
    }
}

/// Whether the bytes are a fault at this place.
fn is_fault(alloc: Global, bytes: &[u8], at: u64) -> bool {
    fault(alloc, bytes) == Some(DecodeError::Malformed { at })
}

/// How many operations there are in the message of 81 bytes.
fn operations(alloc: Global, hello: &[u8]) -> Result<usize, Fail> {
    if hello.len() != 81 {
        return Err(Fail::new("bytes"));
    }
    Ok(decode_message(alloc, hello)?.ops.len())
}

#[test]
fn messages_are_cut_off(rt: HostRuntime) -> Result<(), Fail> {
    let alloc = rt.alloc();
    let hello = bytes(alloc, HELLO_MESSAGE)?;
    for len in 0..81 {
        assert!(rt;
            is_fault(alloc, front(&hello, len), cut_at(len)),
            "{len} bytes"
        );
    }
    assert!(rt; operations(alloc, &hello)? == 1);
    Ok(())
}

/// A byte of the message of 81 bytes, what is there instead, and the place of the fault.
const FAULTS: &[(usize, u8, u64)] = &[
    (0, 0, 0),
    (4, 0, 4),
    (4, 4, 4),
    (16, 0, 13),
    (16, 65, 13),
    (20, 2, 17),
    (49, 2, 49),
    (50, 4, 50),
    (54, 0, 51),
    (55, 0, 55),
    (55, 3, 55),
    (68, 64, 68),
    (75, 6, 76),
    (75, 4, 80),
    (76, 255, 76),
];

/// Whether the message with this byte at a place is a fault at another.
fn breaks(alloc: Global, place: usize, byte: u8, at: u64) -> Result<bool, Fail> {
    let mut message = bytes(alloc, HELLO_MESSAGE)?;
    if place < message.len() {
        message[place] = byte;
    }
    Ok(is_fault(alloc, &message, at))
}

#[test]
fn fields_break_their_rules(rt: HostRuntime) -> Result<(), Fail> {
    for (place, byte, at) in FAULTS {
        assert!(rt;
            breaks(rt.alloc(), *place, *byte, *at)?,
            "{byte} at {place}"
        );
    }
    Ok(())
}

/// Two bytes, and those of the operation after them.
fn spelled(alloc: Global, op: &Op) -> Result<Vec<u8>, Fail> {
    if op.encoded_len() > 1000 {
        return Err(Fail::new("bytes"));
    }
    let mut out = Vec::from_slice(alloc, b"..")?;
    encode_op(&mut out, op)?;
    Ok(out)
}

/// Whether the bytes after the first two are the operation.
fn is_spelled(alloc: Global, bytes: &[u8], op: &Op) -> Result<bool, Fail> {
    if bytes.len() < 2 {
        return Ok(false);
    }
    let (again, next) = decode_op(alloc, bytes, 2, 2)?;
    Ok(again.same(op) && next == bytes.len() as u64)
}

/// Whether the operation comes back from its bytes.
fn comes_back(alloc: Global, told: Told<'_>) -> Result<bool, Fail> {
    let op = op_of(alloc, told)?;
    let bytes = spelled(alloc, &op)?;
    is_spelled(alloc, &bytes, &op)
}

#[test]
fn operations_back_and_forth(rt: HostRuntime) -> Result<(), Fail> {
    let first = at(5, 1, 1, -3);
    let renamed = EpochName::Of { replica: 0, seq: 1 };
    let insert = Deed::Insert(first, "e\u{301}\u{1F1EB}");
    let cases: &[Told<'_>] = &[
        (0, 1, &[0, 0], ORIGIN, insert),
        (1, 3, &[1, 2], renamed, Deed::Delete(first, 9)),
        (1, 3, &[1, 2], renamed, Deed::Rename(first, 9)),
        (1, 3, &[1, 2], renamed, Deed::Leave),
    ];
    for (i, told) in cases.iter().enumerate() {
        assert!(rt; comes_back(rt.alloc(), *told)?, "case {i}");
    }
    Ok(())
}

/// Whether the bytes are a message in group 7 with no operation and counts of two members, and come back from it.
fn are_empty(alloc: Global, bytes: &[u8]) -> Result<bool, Fail> {
    let message = decode_message(alloc, bytes)?;
    if !message.ops.is_empty() || message.vector.len() != 2 {
        return Ok(false);
    }
    let again = encode_message(alloc, &message)?;
    Ok(message.group == 7 && again.as_slice() == bytes)
}

#[test]
fn messages_back_and_forth(rt: HostRuntime) -> Result<(), Fail> {
    let empty = bytes(rt.alloc(), EMPTY_MESSAGE)?;
    assert!(rt; are_empty(rt.alloc(), &empty)?);
    Ok(())
}

/// Member 0 of 2 in group 7, which inserted `hello`.
fn hello(alloc: Global) -> Result<Replica, Fail> {
    let mut replica = Replica::new(alloc, 7, 0, 2)?;
    let text = Text::from_str(alloc, "hello")?;
    let _seq = replica.edit(&Edit::Insert { at: 0, text })?;
    Ok(replica)
}

/// Whether the replica sends these bytes to member 1, and nothing to a member that there isn't.
fn sends(alloc: Global, replica: &Replica, expected: &[u8]) -> Result<bool, Fail> {
    let nobody = message_bytes(alloc, replica, 2).err() == Some(SendError::NotMember);
    Ok(nobody && message_bytes(alloc, replica, 1)?.as_slice() == expected)
}

/// Whether the replica with `hello` sends the message of 81 bytes.
fn sends_hello(alloc: Global) -> Result<bool, Fail> {
    let replica = hello(alloc)?;
    let expected = bytes(alloc, HELLO_MESSAGE)?;
    sends(alloc, &replica, &expected)
}

#[test]
fn replicas_send_bytes(rt: HostRuntime) -> Result<(), Fail> {
    assert!(rt; sends_hello(rt.alloc())?);
    Ok(())
}

/// Whether the operation of these bytes is applied, and is repeated when they come again.
fn takes_twice(alloc: Global, replica: &mut Replica, sent: &[u8]) -> Result<bool, Fail> {
    let first = take_bytes(alloc, replica, sent)?.applied;
    let again = take_bytes(alloc, replica, sent)?.repeated;
    Ok((first, again, replica.total()) == (1, 1, 5))
}

/// Whether a fresh replica takes the message of 81 bytes twice.
fn takes_hello(alloc: Global) -> Result<bool, Fail> {
    let sent = bytes(alloc, HELLO_MESSAGE)?;
    let mut second = Replica::new(alloc, 7, 1, 2)?;
    takes_twice(alloc, &mut second, &sent)
}

#[test]
fn replicas_take_bytes(rt: HostRuntime) -> Result<(), Fail> {
    assert!(rt; takes_hello(rt.alloc())?);
    Ok(())
}

/// Whether the bytes aren't taken by an empty replica for this reason, and leave it empty.
fn refuses(alloc: Global, replica: &mut Replica, bytes: &[u8], why: TakeBytesError) -> bool {
    let error = match take_bytes(alloc, replica, bytes) {
        Ok(_) => None,
        Err(error) => Some(error),
    };
    error == Some(why) && replica.total() == 0
}

/// Whether a fresh replica of this group refuses this many of the 81 bytes.
fn is_refused(alloc: Global, group: u64, len: usize, why: TakeBytesError) -> Result<bool, Fail> {
    let hello = bytes(alloc, HELLO_MESSAGE)?;
    let mut replica = Replica::new(alloc, group, 1, 2)?;
    Ok(refuses(alloc, &mut replica, front(&hello, len), why))
}

/// The group of the replica, how many of the 81 bytes it gets, and why they aren't taken.
const REFUSED: &[(u64, usize, TakeBytesError)] = &[
    (7, 80, TakeBytesError::Malformed { at: 76 }),
    (
        8,
        81,
        TakeBytesError::OtherGroup {
            group: 7,
            members: 2,
        },
    ),
    (8, 80, TakeBytesError::Malformed { at: 76 }),
];

#[test]
fn bytes_are_not_taken(rt: HostRuntime) -> Result<(), Fail> {
    for (group, len, why) in REFUSED {
        assert!(rt; is_refused(rt.alloc(), *group, *len, *why)?, "{len} bytes");
    }
    Ok(())
}

/// Whether the line inserts this text at the beginning.
fn inserts(line: &Line, expected: &str) -> Result<bool, AllocError> {
    match line {
        Line::Insert { at: 0, text } => Ok(text.to_utf8()?.as_str() == expected),
        _ => Ok(false),
    }
}

/// Whether the lines delete two characters, delete a cluster and rename.
fn are_others(delete: &Line, back: &Line, rename: &Line) -> bool {
    matches!(delete, Line::Delete { at: 1, count: 2 })
        && matches!(back, Line::Back { at: 3 })
        && matches!(rename, Line::Rename)
}

/// Whether the four lines of a script are as they are written.
fn are_read(lines: &Lines) -> Result<bool, AllocError> {
    if lines.len() != 4 {
        return Ok(false);
    }
    let others = are_others(lines.get(1), lines.get(2), lines.get(3));
    Ok(others && inserts(lines.get(0), "a\n\\b ")?)
}

/// Whether a script of no bytes has no line.
fn reads_nothing(alloc: Global) -> Result<bool, ScriptError> {
    Ok(parse(alloc, b"")?.is_empty())
}

#[test]
fn scripts(rt: HostRuntime) -> Result<(), Fail> {
    let lines = parse(rt.alloc(), b"i 0 a\\n\\\\b \nd 1 2\nb 3\nr")?;
    assert!(rt; are_read(&lines)? && reads_nothing(rt.alloc())?);
    Ok(())
}

/// Whether the script is bad in this line.
fn is_bad(alloc: Global, script: &[u8], line: u64) -> bool {
    match parse(alloc, script) {
        Ok(_) => false,
        Err(error) => error == ScriptError::BadLine { line },
    }
}

const BAD: &[(&[u8], u64)] = &[
    (b"r\nq\n", 2),
    (b"r\n\nr\n", 2),
    (b"i 01 A", 1),
    (b"d 1 +2", 1),
    (b"i 0 \\x", 1),
    (b"i 0 \\", 1),
    (b"i 0 \xff", 1),
    (b"d 18446744073709551616 1", 1),
];

#[test]
fn bad_scripts(rt: HostRuntime) {
    for (i, (script, line)) in BAD.iter().enumerate() {
        assert!(rt; is_bad(rt.alloc(), script, *line), "script {i}");
    }
    let greatest = number("18446744073709551615");
    assert!(rt; greatest == Some(18_446_744_073_709_551_615));
}

#[test]
fn clusters(rt: HostRuntime) -> Result<(), Fail> {
    let (flag, accent) = ("a\u{1F1EB}\u{1F1F7}", "e\u{301}");
    let cases: &[(&str, u64, Result<u64, ClusterError>)] = &[
        (flag, 1, Ok(0)),
        (flag, 2, Err(ClusterError::NotBoundary { at: 2 })),
        (flag, 3, Ok(1)),
        (flag, 4, Err(ClusterError::Range { at: 4, total: 3 })),
        (accent, 0, Err(ClusterError::Range { at: 0, total: 2 })),
        (accent, 1, Err(ClusterError::NotBoundary { at: 1 })),
        (accent, 2, Ok(0)),
    ];
    for (text, at, expected) in cases {
        assert_eq!(rt; cluster_before(text, *at), *expected, "{text} at {at}");
    }
    Ok(())
}
