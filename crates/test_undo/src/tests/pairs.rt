//! Two members, of whom the first has something beside its replica: what the tables of such pairs share.

use rls_replica::{PastError, Replica};
use std::alloc::{AllocError, Global};
use std::test::Fail;
use test_steps::answers::edited;
use test_steps::rows::{change_of, cut, first_fault, word};
use test_steps::steps::{Change, edit_of, letter, takes};

/// A move, its answer, and the text that the first member then shows, with ` | ` between them.
pub(crate) type Row = &'static str;

/// A pair that makes moves.
pub(crate) trait Pair: Sized {
    /// Two fresh members of group 7, of which the first knows of this many.
    fn fresh(alloc: Global, members: u32) -> Result<Self, Fail>;

    /// Makes the move that the words are, and answers it.
    fn play(&mut self, alloc: Global, words: &'static str) -> Result<String, Fail>;

    fn first(&self) -> &Replica;
}

/// Two members.
#[derive(Drop)]
pub(crate) struct Members {
    pub(crate) first: Replica,
    pub(crate) second: Replica,
}

impl Members {
    /// Two fresh members of group 7, of which the first knows of this many.
    pub(crate) fn fresh(alloc: Global, members: u32) -> Result<Members, Fail> {
        Ok(Members {
            first: Replica::new(alloc, 7, 0, members)?,
            second: Replica::new(alloc, 7, 1, 2)?,
        })
    }

    /// What takes nothing but the replicas: `pass` or `other` with an edit of the first or of the second after it, `give` or `take`,
    /// by which the second takes the message of the first or the first that of the second, and `drop`, by which the first drops what is
    /// stable. Other moves are not made, and not answered.
    pub(crate) fn play(
        &mut self,
        alloc: Global,
        words: &'static str,
    ) -> Result<Option<String>, Fail> {
        let (verb, rest) = word(words);
        Ok(Some(match verb {
            "pass" => pass(alloc, &mut self.first, change_of(rest)?)?,
            "other" => pass(alloc, &mut self.second, change_of(rest)?)?,
            "give" => give(alloc, &self.first, &mut self.second)?,
            "take" => give(alloc, &self.second, &mut self.first)?,
            "drop" => drop_stable(alloc, &mut self.first)?,
            _ => return Ok(None),
        }))
    }
}

/// An edit of which nothing is kept.
pub(crate) fn pass(
    alloc: Global,
    replica: &mut Replica,
    change: Change,
) -> Result<String, AllocError> {
    let edit = edit_of(alloc, change)?;
    edited(alloc, replica.edit(&edit))
}

/// The one's message is taken by the other.
pub(crate) fn give(alloc: Global, from: &Replica, to: &mut Replica) -> Result<String, Fail> {
    let message = letter(from, to)?;
    let taken = takes(to, message)?.is_ok();
    Ok(format!(in alloc; "{taken}")?)
}

fn drop_stable(alloc: Global, replica: &mut Replica) -> Result<String, AllocError> {
    replica.drop_stable();
    String::from_str(alloc, "dropped")
}

pub(crate) fn text_of_settled(
    alloc: Global,
    answer: Result<(), PastError>,
) -> Result<String, AllocError> {
    format!(in alloc; "{answer:?}")
}

/// Whether the replica shows this text.
pub(crate) fn shows(replica: &Replica, text: &str) -> Result<bool, Fail> {
    Ok(replica.text()?.to_utf8()?.as_str() == text)
}

/// Whether the move is answered so.
fn is_answered<P: Pair>(
    alloc: Global,
    pair: &mut P,
    words: &'static str,
    expected: &str,
) -> Result<bool, Fail> {
    Ok(pair.play(alloc, words)?.as_str() == expected)
}

/// Whether the move goes as it has to.
fn goes<P: Pair>(alloc: Global, pair: &mut P, row: Row) -> Result<bool, Fail> {
    let (words, rest) = cut(row)?;
    let (expected, text) = cut(rest)?;
    match is_answered(alloc, pair, words, expected)? {
        true => shows(pair.first(), text),
        false => Ok(false),
    }
}

/// Leads a fresh pair, the first member of a group of this many, through the rows, and answers the first that goes otherwise than
/// it has to.
pub(crate) fn fault<P: Pair + Drop>(
    alloc: Global,
    members: u32,
    rows: &[Row],
) -> Result<Option<usize>, Fail> {
    let mut pair = P::fresh(alloc, members)?;
    first_fault(rows, |row| goes(alloc, &mut pair, *row))
}
