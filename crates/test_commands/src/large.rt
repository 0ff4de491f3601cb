//! Inputs and texts at their limits.

use crate::members::{Member, Step};
use std::alloc::Global;
use std::test::Fail;

/// A fresh member 0 of 2 in group 7.
fn fresh(alloc: Global) -> Result<Member, Fail> {
    let mut member = Member::new();
    let _made = member.command(alloc, "new 7 0 2", b"")?;
    Ok(member)
}

/// An input of one byte more than is read.
#[test]
fn inputs_are_too_large(rt: HostRuntime) -> Result<(), Fail> {
    let alloc = rt.alloc();
    let mut member = fresh(alloc)?;
    let kept = Vec::from_slice(alloc, member.file.as_deref().unwrap_or(&[]))?;
    let input = Vec::from_elem(alloc, b'a', 67_108_865)?;
    for words in ["edit", "take"] {
        let answer = member.command(alloc, words, &input)?;
        assert_eq!(rt; answer.status, 11, "{words}");
        assert_eq!(rt; answer.errors.as_slice(), b"too large\n".as_slice());
        assert!(rt; answer.output.is_empty());
        assert_eq!(rt; member.file.as_deref(), Some(kept.as_slice()));
    }
    Ok(())
}

/// Five insertions of as many characters as one may have.
#[test]
fn texts_are_too_long_to_rename(rt: HostRuntime) -> Result<(), Fail> {
    let alloc = rt.alloc();
    let characters = Vec::from_elem(alloc, b'a', 1_048_576)?;
    let mut script = Vec::new(alloc);
    for _ in 0..5 {
        script.extend_from_slice(b"i 0 ")?;
        script.extend_from_slice(&characters)?;
        script.push(b'\n')?;
    }
    let steps: &[Step<'_>] = &[
        ("edit", &script, 0, "edits 5 released 0 refused 0\n", ""),
        (
            "edit",
            b"r\n",
            6,
            "",
            "line 1: too many characters 5242880\n",
        ),
    ];
    assert_eq!(rt; fresh(alloc)?.fault_among(alloc, steps)?, None);
    Ok(())
}

#[test]
fn large_insertions(rt: HostRuntime) -> Result<(), Fail> {
    let alloc = rt.alloc();
    let mut member = Member::new();
    let start: &[Step<'_>] = &[("new 7 0 2", b"", 0, "new 7 0 2\n", "")];
    assert_eq!(rt; member.fault_among(alloc, start)?, None);
    let mut script = Vec::from_slice(alloc, b"i 0 ")?;
    for _ in 0..1_048_577u32 {
        script.push(b'a')?;
    }
    let many = member.command(alloc, "edit", &script)?;
    assert_eq!(rt; many.status, 6);
    assert_eq!(rt;
        many.errors.as_slice(),
        b"line 1: too many characters 1048577\n".as_slice()
    );
    let _last = script.pop();
    assert_eq!(rt; member.command(alloc, "edit", &script)?.status, 0);
    Ok(())
}
