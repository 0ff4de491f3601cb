//! Undo by steps at three members who edit and rename at the same time.

use super::pairs::{give, pass, shows};
use super::stepping::step;
use rls_replica::Replica;
use rls_steps::Steps;
use std::alloc::Global;
use std::test::Fail;
use test_steps::rows::{all_go, change_of, cut, number, word};

/// A member, and its steps.
#[derive(Drop)]
struct Member {
    replica: Replica,
    steps: Steps,
}

/// A member's number and what it does: `edit` or `pass` with an edit after it, `send` with the number of the member that takes its
/// message, `undo`, `redo`, `close` or `count`; then the answer, and the text of that member, after `send` of the one that took.
type Row = &'static str;

/// The members of a group of three.
fn trio_of(alloc: Global) -> Result<Vec<Member>, Fail> {
    let mut members = Vec::new(alloc);
    for me in 0..3 {
        members.push(Member {
            replica: Replica::new(alloc, 7, me, 3)?,
            steps: Steps::new(alloc),
        })?;
    }
    Ok(members)
}

/// The member with this number.
fn member_at(members: &mut [Member], number: usize) -> Result<&mut Member, Fail> {
    members.get_mut(number).ok_or_else(|| Fail::new("member"))
}

/// What a member does by itself.
fn does(alloc: Global, member: &mut Member, words: &'static str) -> Result<String, Fail> {
    let (verb, rest) = word(words);
    match verb {
        "pass" => Ok(pass(alloc, &mut member.replica, change_of(rest)?)?),
        _ => step(alloc, &mut member.steps, &mut member.replica, words),
    }
}

/// One takes the message of another, which is taken out of the group meanwhile.
fn send(alloc: Global, members: &mut Vec<Member>, from: usize, to: usize) -> Result<String, Fail> {
    if from >= members.len() {
        return Err(Fail::new("from"));
    }
    let sender = members.remove(from);
    let to = if to > from { to - 1 } else { to };
    let answer = give(alloc, &sender.replica, &mut member_at(members, to)?.replica)?;
    members.insert(from, sender)?;
    Ok(answer)
}

/// The answer, and the number of the member whose text is looked at.
fn answer_of(
    alloc: Global,
    members: &mut Vec<Member>,
    words: &'static str,
) -> Result<(String, usize), Fail> {
    let (me, rest) = number(words)?;
    let (verb, to) = word(rest);
    if verb == "send" {
        let (to, _) = number(to)?;
        return Ok((send(alloc, members, me, to)?, to));
    }
    Ok((does(alloc, member_at(members, me)?, rest)?, me))
}

/// Whether the row goes as it has to.
fn goes(alloc: Global, members: &mut Vec<Member>, row: Row) -> Result<bool, Fail> {
    let (words, rest) = cut(row)?;
    let (expected, text) = cut(rest)?;
    let (answer, seen) = answer_of(alloc, members, words)?;
    match answer.as_str() == expected {
        true => shows(&member_at(members, seen)?.replica, text),
        false => Ok(false),
    }
}

/// All edit in groups, and rename at the same time; then each takes its group back and does it again, before it knows of the others'.
const AT_ONCE: &[Row] = &[
    "0 edit insert 0 hello | 1 | hello",
    "0 close | closed | hello",
    "0 send 1 | true | hello",
    "0 send 2 | true | hello",
    "1 edit insert 5 ! | 1 | hello!",
    "1 edit insert 0 > | 2 | >hello!",
    "2 edit delete 0 2 | 1 | llo",
    "2 edit insert 1 - | 2 | l-lo",
    "0 edit delete 4 1 | 2 | hell",
    "0 edit insert 2 p | 3 | hepll",
    "0 pass rename | 4 | hepll",
    "1 pass rename | 3 | >hello!",
    "2 pass rename | 3 | l-lo",
    "1 send 0 | true | >hepll!",
    "2 send 0 | true | >pl-l!",
    "0 send 1 | true | >pl-l!",
    "0 send 2 | true | >pl-l!",
    "1 undo | 2 | pl-l",
    "2 undo | 2 | he>pll!",
    "0 undo | 2 | >l-lo!",
    "0 count | 1 1 | >l-lo!",
    "1 send 0 | true | l-lo",
    "2 send 0 | true | hello",
    "0 send 1 | true | hello",
    "0 send 2 | true | hello",
    "1 redo | 2 | >hell!o",
    "2 redo | 2 | l-lo",
    "0 redo | 2 | hepll",
    "1 send 0 | true | >hepll!",
    "2 send 0 | true | >pl-l!",
    "0 send 1 | true | >pl-l!",
    "0 send 2 | true | >pl-l!",
    "0 undo | 2 | >l-lo!",
    "0 undo | 1 | >-!",
    "0 count | 0 2 | >-!",
];

#[test]
fn three_take_back(rt: HostRuntime) -> Result<(), Fail> {
    let mut members = trio_of(rt.alloc())?;
    all_go(AT_ONCE, |row| goes(rt.alloc(), &mut members, *row))
}
