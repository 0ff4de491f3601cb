//! Rows of tables: the first that goes otherwise than it has to, and rows written as one text, which is parts with ` | ` between them,
//! of which the first is words with spaces between them.

use crate::steps::Change;
use std::fmt::Debug;
use std::str::FromStr;
use std::test::Fail;

/// The place of a row that goes otherwise than it has to.
#[derive(Debug, Drop)]
struct RowFault {
    row: usize,
}

/// The place of a table with such a row, and the place of that row.
#[derive(Debug, Drop)]
struct TableFault {
    table: usize,
    row: usize,
}

/// The first row that goes otherwise than it has to.
pub fn first_fault<R, F: FnMut(&R) -> Result<bool, Fail>>(
    rows: &[R],
    mut goes: F,
) -> Result<Option<usize>, Fail>
    requires { F.IsAlwaysCallable goes }
{
    for (i, row) in rows.iter().enumerate() {
        if !goes(row)? {
            return Ok(Some(i));
        }
    }
    Ok(None)
}

/// The first table with such a row, and the first such row of it.
pub fn first_fault_within<T, F: FnMut(&T) -> Result<Option<usize>, Fail>>(
    tables: &[T],
    mut fault_of: F,
) -> Result<Option<(usize, usize)>, Fail>
    requires { F.IsAlwaysCallable fault_of }
{
    for (i, table) in tables.iter().enumerate() {
        if let Some(row) = fault_of(table)? {
            return Ok(Some((i, row)));
        }
    }
    Ok(None)
}

/// Fails if a row goes otherwise than it has to, and tells its place.
pub fn all_go<R, F: FnMut(&R) -> Result<bool, Fail>>(rows: &[R], goes: F) -> Result<(), Fail>
    requires { F.IsAlwaysCallable goes }
{
    match first_fault(rows, goes)? {
        None => Ok(()),
        Some(row) => Err(Fail::from(RowFault { row })),
    }
}

/// The same of tables of rows.
pub fn all_go_within<T, F: FnMut(&T) -> Result<Option<usize>, Fail>>(
    tables: &[T],
    fault_of: F,
) -> Result<(), Fail>
    requires { F.IsAlwaysCallable fault_of }
{
    match first_fault_within(tables, fault_of)? {
        None => Ok(()),
        Some((table, row)) => Err(Fail::from(TableFault { table, row })),
    }
}

/// The first part of a row, and the parts after it.
pub fn cut(row: &'static str) -> Result<(&'static str, &'static str), Fail> {
    row.split_once(" | ").ok_or_else(|| Fail::new(row))
}

/// The first word, and the words after it.
pub fn word(words: &'static str) -> (&'static str, &'static str) {
    words.split_once(' ').unwrap_or((words, ""))
}

/// The first word as a number, and the words after it.
pub fn number<N: FromStr>(words: &'static str) -> Result<(N, &'static str), Fail>
where
    N::Err: Debug + Drop,
{
    let (digits, rest) = word(words);
    Ok((digits.parse::<N>()?, rest))
}

/// The edit: `insert 2 XY`, `delete 0 1`, `rename` or `leave`.
pub fn change_of(words: &'static str) -> Result<Change, Fail> {
    let (verb, rest) = word(words);
    match verb {
        "insert" => {
            let (at, text) = number(rest)?;
            Ok(Change::Insert(at, text))
        }
        "delete" => {
            let (at, count) = number(rest)?;
            Ok(Change::Delete(at, number(count)?.0))
        }
        "rename" => Ok(Change::Rename),
        "leave" => Ok(Change::Leave),
        _ => Err(Fail::new(words)),
    }
}
