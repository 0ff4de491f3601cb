//! Replicas that are led from step to step: what is done, and what has to come of it.

use crate::answers::{edited, made, received, released, sent, taken, tally};
use crate::rows::first_fault;
use crate::told::{Told, op_of};
use rls_ident::Vector;
use rls_model::{Edit, Taken};
use rls_ops::{Message, Op, Ops, Text};
use rls_replica::{Replica, TakeError};
use std::alloc::{AllocError, Global};
use std::test::Fail;

/// An edit: a place and a text, or a place and a count.
#[derive(Clone, Copy)]
pub enum Change {
    Insert(u64, &'static str),
    Delete(u64, u64),
    Rename,
    Leave,
}

/// What a replica is asked.
#[derive(Clone, Copy)]
pub enum Question {
    /// Its group, its own number, the count of members, and the number of characters.
    Itself,
    /// Whether the member has left.
    Left(u32),
    /// The characters from a place on, this many.
    Text(u64, u64),
    /// The last offset of the identifier at a place, and where this identifier is found.
    Ident(u64),
    /// The number of runs of the identifiers, and the height of the tree.
    Runs,
    /// The message for the member.
    Message(u32),
    /// Whether an edit makes this operation.
    Made(Change, Told<'static>),
}

/// What is done with a replica.
#[derive(Clone, Copy)]
pub enum Step {
    Edit(Change),
    Receive(Told<'static>),
    Replay(Told<'static>),
    Release,
    ReleaseAll,
    /// Three operations are taken at once.
    TakeOps(Told<'static>, Told<'static>, Told<'static>),
    /// The member is said to have accepted this much.
    Acknowledge(u32, &'static [u32]),
    /// What is stable is dropped.
    Drop,
    Ask(Question),
}

/// A step, what the replica has to answer, and how it has to stand then: the text, the counts, how many operations wait and
/// how many are kept, and the greatest epoch.
pub type Row = (Step, &'static str, &'static str);

/// What one of two replicas does, or which takes the message of the other; then comes the answer, and how the replica stands.
#[derive(Clone, Copy)]
pub enum Turn {
    First(Row),
    Second(Row),
    FirstTakes(&'static str, &'static str),
    SecondTakes(&'static str, &'static str),
    /// Each takes a message of the other, which were made at the same time.
    BothTake(&'static str, &'static str),
}

/// The edit.
pub fn edit_of(alloc: Global, change: Change) -> Result<Edit, AllocError> {
    Ok(match change {
        Change::Insert(at, text) => Edit::Insert {
            at,
            text: Text::from_str(alloc, text)?,
        },
        Change::Delete(at, count) => Edit::Delete { at, count },
        Change::Rename => Edit::Rename,
        Change::Leave => Edit::Leave,
    })
}

fn ops_of(alloc: Global, all: &[Told<'_>]) -> Result<Ops, Fail> {
    let mut ops = Ops::new(alloc);
    for told in all {
        let op = op_of(alloc, *told)?;
        ops.push(op)?;
    }
    Ok(ops)
}

fn edits(alloc: Global, replica: &mut Replica, change: Change) -> Result<String, Fail> {
    let edit = edit_of(alloc, change)?;
    let answer = replica.edit(&edit);
    Ok(edited(alloc, answer)?)
}

fn receives(alloc: Global, replica: &mut Replica, told: Told<'_>) -> Result<String, Fail> {
    let op = op_of(alloc, told)?;
    let receipt = replica.receive(op)?;
    Ok(received(alloc, &receipt)?)
}

fn replays(alloc: Global, replica: &mut Replica, told: Told<'_>) -> Result<String, Fail> {
    let op = op_of(alloc, told)?;
    let receipt = replica.replay(op)?;
    Ok(received(alloc, &receipt)?)
}

fn releases(alloc: Global, replica: &mut Replica) -> Result<String, Fail> {
    let release = replica.release()?;
    Ok(released(alloc, &release)?)
}

fn releases_all(alloc: Global, replica: &mut Replica) -> Result<String, Fail> {
    let mut taken = Taken::new(alloc);
    replica.release_all(&mut taken)?;
    Ok(tally(alloc, &taken)?)
}

fn takes_ops(alloc: Global, replica: &mut Replica, all: &[Told<'_>]) -> Result<String, Fail> {
    let ops = ops_of(alloc, all)?;
    let taken = replica.take_ops(ops)?;
    Ok(tally(alloc, &taken)?)
}

/// Whether the acknowledgement counts.
fn acknowledges(
    alloc: Global,
    replica: &mut Replica,
    from: u32,
    row: &[u32],
) -> Result<String, Fail> {
    let vector = Vector::from_counts(alloc, row)?;
    if from >= replica.members() || vector.len() != replica.members() as usize {
        return Err(Fail::new("member or vector"));
    }
    let counts = replica.acknowledge(from, &vector);
    Ok(format!(in alloc; "{counts}")?)
}

fn drops(alloc: Global, replica: &mut Replica) -> Result<String, Fail> {
    replica.drop_stable();
    Ok(String::from_str(alloc, "dropped")?)
}

/// What the replica answers to the message.
pub fn takes(replica: &mut Replica, message: Message) -> Result<Result<Taken, TakeError>, Fail> {
    if message.from >= message.members || message.vector.len() != message.members as usize {
        return Err(Fail::new("sender or vector"));
    }
    Ok(replica.take(message))
}

fn itself(alloc: Global, replica: &Replica) -> Result<String, Fail> {
    let (group, me, members) = (replica.group(), replica.me(), replica.members());
    let total = replica.total();
    Ok(format!(in alloc; "{group} {me} {members} {total}")?)
}

fn has_left(replica: &Replica, member: u32) -> Result<bool, Fail> {
    if member >= replica.members() {
        return Err(Fail::new("member"));
    }
    Ok(replica.left(member))
}

fn text_of(replica: &Replica, from: u64, count: u64) -> Result<String, Fail> {
    let total = replica.total();
    if from > total || count > total - from {
        return Err(Fail::new("places"));
    }
    Ok(replica.text_of(from, count)?.to_utf8()?)
}

fn ident_at(alloc: Global, replica: &Replica, place: u64) -> Result<String, Fail> {
    if place >= replica.total() {
        return Err(Fail::new("place"));
    }
    let id = replica.ident_at(place)?;
    let (offset, found) = (id.last().offset, replica.find(&id));
    Ok(format!(in alloc; "{offset} {found:?}")?)
}

fn runs(alloc: Global, replica: &Replica) -> Result<String, Fail> {
    let count = replica.runs()?.run_count();
    let height = replica.tree().height();
    Ok(format!(in alloc; "{count} {height}")?)
}

/// Whether the edit makes the operation.
fn makes(alloc: Global, replica: &Replica, edit: &Edit, expected: &Op) -> Result<String, Fail> {
    let answer = replica.made(edit);
    Ok(made(alloc, &answer, expected)?)
}

/// The same, of an edit and what is told of the operation.
fn makes_told(
    alloc: Global,
    replica: &Replica,
    edit: &Edit,
    told: Told<'_>,
) -> Result<String, Fail> {
    let expected = op_of(alloc, told)?;
    makes(alloc, replica, edit, &expected)
}

/// Whether the change makes the operation.
fn changes(
    alloc: Global,
    replica: &Replica,
    change: Change,
    told: Told<'_>,
) -> Result<String, Fail> {
    let edit = edit_of(alloc, change)?;
    makes_told(alloc, replica, &edit, told)
}

fn answer_to(alloc: Global, replica: &Replica, question: Question) -> Result<String, Fail> {
    match question {
        Question::Itself => itself(alloc, replica),
        Question::Left(member) => {
            let left = has_left(replica, member)?;
            Ok(format!(in alloc; "{left}")?)
        }
        Question::Text(from, count) => text_of(replica, from, count),
        Question::Ident(place) => ident_at(alloc, replica, place),
        Question::Runs => runs(alloc, replica),
        Question::Message(to) => Ok(sent(alloc, &replica.message_for(to))?),
        Question::Made(change, told) => changes(alloc, replica, change, told),
    }
}

/// Does the step, and tells the answer.
fn answer(alloc: Global, replica: &mut Replica, step: Step) -> Result<String, Fail> {
    match step {
        Step::Edit(change) => edits(alloc, replica, change),
        Step::Receive(told) => receives(alloc, replica, told),
        Step::Replay(told) => replays(alloc, replica, told),
        Step::Release => releases(alloc, replica),
        Step::ReleaseAll => releases_all(alloc, replica),
        Step::TakeOps(one, two, three) => takes_ops(alloc, replica, &[one, two, three]),
        Step::Acknowledge(from, row) => acknowledges(alloc, replica, from, row),
        Step::Drop => drops(alloc, replica),
        Step::Ask(question) => answer_to(alloc, replica, question),
    }
}

/// What a replica shows: the text, the counts, how many operations wait and how many are kept, and the greatest epoch.
fn state(alloc: Global, replica: &Replica) -> Result<String, Fail> {
    let text = replica.text()?.to_utf8()?;
    let counts = replica.vector().counts();
    let (held, kept) = (replica.held().len(), replica.logged().len());
    let epoch = replica.greatest();
    Ok(format!(in alloc; "{text} {counts:?} {held} {kept} {epoch:?}")?)
}

/// Whether the replica is so.
fn stands(alloc: Global, replica: &Replica, stand: &str) -> Result<bool, Fail> {
    Ok(state(alloc, replica)?.as_str() == stand)
}

/// Whether the step is answered as it has to be.
fn answers(alloc: Global, replica: &mut Replica, row: &Row) -> Result<bool, Fail> {
    Ok(answer(alloc, replica, row.0)?.as_str() == row.1)
}

/// Whether the step goes as it has to.
fn goes(alloc: Global, replica: &mut Replica, row: &Row) -> Result<bool, Fail> {
    match answers(alloc, replica, row)? {
        true => stands(alloc, replica, row.2),
        false => Ok(false),
    }
}

/// What the replica answers to the message, as text.
fn answer_of(alloc: Global, replica: &mut Replica, message: Message) -> Result<String, Fail> {
    let answer = takes(replica, message)?;
    Ok(taken(alloc, &answer)?)
}

/// Whether the message is answered so.
fn is_answered(
    alloc: Global,
    message: Message,
    replica: &mut Replica,
    expected: &str,
) -> Result<bool, Fail> {
    Ok(answer_of(alloc, replica, message)?.as_str() == expected)
}

/// Whether the message is taken as it has to be.
fn reaches(
    alloc: Global,
    message: Message,
    replica: &mut Replica,
    expected: &str,
    stand: &str,
) -> Result<bool, Fail> {
    match is_answered(alloc, message, replica, expected)? {
        true => stands(alloc, replica, stand),
        false => Ok(false),
    }
}

/// The message of the one for the other.
pub fn letter(from: &Replica, to: &Replica) -> Result<Message, Fail> {
    Ok(from.message_for(to.me())?)
}

/// Whether the one takes the other's message as it has to.
fn send(
    alloc: Global,
    from: &Replica,
    to: &mut Replica,
    expected: &str,
    stand: &str,
) -> Result<bool, Fail> {
    let message = letter(from, to)?;
    reaches(alloc, message, to, expected, stand)
}

/// Whether the first takes the second's message as it has to, and the second this message.
fn cross(
    alloc: Global,
    message: Message,
    first: &mut Replica,
    second: &mut Replica,
    expected: &str,
    stand: &str,
) -> Result<bool, Fail> {
    match send(alloc, second, first, expected, stand)? {
        true => reaches(alloc, message, second, expected, stand),
        false => Ok(false),
    }
}

/// Whether each takes the other's message as it has to.
fn exchange(
    alloc: Global,
    first: &mut Replica,
    second: &mut Replica,
    expected: &str,
    stand: &str,
) -> Result<bool, Fail> {
    let message = letter(first, second)?;
    cross(alloc, message, first, second, expected, stand)
}

/// Whether the turn goes as it has to.
fn turns(
    alloc: Global,
    first: &mut Replica,
    second: &mut Replica,
    turn: &Turn,
) -> Result<bool, Fail> {
    match turn {
        Turn::First(row) => goes(alloc, first, row),
        Turn::Second(row) => goes(alloc, second, row),
        Turn::FirstTakes(expected, stand) => send(alloc, second, first, expected, stand),
        Turn::SecondTakes(expected, stand) => send(alloc, first, second, expected, stand),
        Turn::BothTake(expected, stand) => exchange(alloc, first, second, expected, stand),
    }
}

/// The first row that goes otherwise than it has to.
fn fault_among(alloc: Global, replica: &mut Replica, rows: &[Row]) -> Result<Option<usize>, Fail> {
    first_fault(rows, |row| goes(alloc, replica, row))
}

/// The first turn that goes otherwise than it has to.
fn fault_between(
    alloc: Global,
    first: &mut Replica,
    second: &mut Replica,
    all: &[Turn],
) -> Result<Option<usize>, Fail> {
    first_fault(all, |turn| turns(alloc, first, second, turn))
}

/// Leads a fresh one of this many members in group 7 through the rows.
fn fault_in(alloc: Global, me: u32, members: u32, rows: &[Row]) -> Result<Option<usize>, Fail> {
    let mut replica = Replica::new(alloc, 7, me, members)?;
    fault_among(alloc, &mut replica, rows)
}

/// Leads a fresh member of two in group 7 through the rows, and answers the first that goes otherwise than it has to.
pub fn fault(alloc: Global, me: u32, rows: &[Row]) -> Result<Option<usize>, Fail> {
    fault_in(alloc, me, 2, rows)
}

/// Leads a fresh member of three in group 7 through the rows, and answers the first that goes otherwise than it has to.
pub fn fault_of_three(alloc: Global, me: u32, rows: &[Row]) -> Result<Option<usize>, Fail> {
    fault_in(alloc, me, 3, rows)
}

/// Leads both through the first turns, and then through the others.
fn fault_through(
    alloc: Global,
    first: &mut Replica,
    second: &mut Replica,
    begun: &[Turn],
    all: &[Turn],
) -> Result<Option<usize>, Fail> {
    match fault_between(alloc, first, second, begun)? {
        None => fault_between(alloc, first, second, all),
        Some(fault) => Ok(Some(fault)),
    }
}

/// The same of member 0 and a fresh member 1 in this group.
fn fault_beside(
    alloc: Global,
    first: &mut Replica,
    group: u64,
    begun: &[Turn],
    all: &[Turn],
) -> Result<Option<usize>, Fail> {
    let mut second = Replica::new(alloc, group, 1, 2)?;
    fault_through(alloc, first, &mut second, begun, all)
}

/// The same of a fresh member 0 in group 7 and that member 1. No function holds both: it would cost minutes to prove.
fn fault_from(
    alloc: Global,
    group: u64,
    begun: &[Turn],
    all: &[Turn],
) -> Result<Option<usize>, Fail> {
    let mut first = Replica::new(alloc, 7, 0, 2)?;
    fault_beside(alloc, &mut first, group, begun, all)
}

/// Leads member 0 of two in group 7 and member 1 of two in the other group through the turns, and answers the first that goes
/// otherwise than it has to.
pub fn fault_of_two(alloc: Global, group: u64, all: &[Turn]) -> Result<Option<usize>, Fail> {
    fault_from(alloc, group, &[], all)
}

/// The edit that inserts `hello` into an empty text.
pub const HELLO: Step = Step::Edit(Change::Insert(0, "hello"));

/// Member 0 inserts `hello`, and each takes the other's message.
const BEGUN: &[Turn] = &[
    Turn::First((HELLO, "1", "hello [1, 0] 0 1 Origin")),
    Turn::SecondTakes("1 0 0 0 0", "hello [1, 0] 0 1 Origin"),
    Turn::FirstTakes("0 0 0 0 0", "hello [1, 0] 0 1 Origin"),
];

/// Leads two in group 7, both of whom have `hello` by member 0 and know it of each other, through the turns, and answers the first
/// that goes otherwise than it has to.
pub fn fault_after_hello(alloc: Global, all: &[Turn]) -> Result<Option<usize>, Fail> {
    fault_from(alloc, 7, BEGUN, all)
}
