//! Where an unstable deletion that names an identifier is likely to stand in the log.

ghost use Rattle.std.specs.Prelude.{◌≡◌};

use crate::marks::Mark;
use rls_ident::{EpochName, Spot};
use rls_runs::Runs;
use std::alloc::{AllocError, Global};
use std::collections::BTreeMap;
use std::ops::Bound;

/// The offset at which a run of identifiers has ended, and the place in the log of the last deletion that names them.
#[derive(Clone, Copy, Drop)]
struct Naming {
    end: i64,
    place: usize,
}

/// The place in the log of a deletion that names an identifier, and how many identifiers it names in a row from that one on.
#[derive(Clone, Copy, Drop)]
pub(crate) struct Hint {
    pub(crate) place: usize,
    pub(crate) count: u32,
}

/// For each identifier that deletions of one author name, the last of these: runs of them, of which no two have an identifier in common,
/// each under the mark of its first one. The operations of an author become stable in their order, so if the last one is stable, so are
/// the others.
#[derive(Drop)]
pub(crate) struct Namings {
    author: u32,
    runs: BTreeMap<Mark, Naming>,
}

impl Namings {
    // The last deletion that names the identifier that ends so. It takes a logarithm of the runs.
    pub(crate) fn find(&self, last: Spot) -> Option<Hint> {
        let mark = Mark::of(last);
        let (first, naming) = self.last_up_to(Bound::Included(mark))?;
        if !first.is_beside(&mark) || naming.end <= mark.offset {
            return None;
        }
        let count = naming.end.saturating_sub(mark.offset);
        Some(Hint {
            place: naming.place,
            count: u32::try_from(count).unwrap_or(u32::MAX),
        })
    }

    // Notes that the deletion at a place of the log, which comes after those that were noted, names these identifiers. It takes a
    // logarithm of the runs for each of theirs and for each that it replaces.
    fn note(&mut self, ids: &Runs, place: usize) -> Result<(), AllocError> {
        for run in ids.as_slice() {
            let first = Mark::of(run.first().last());
            let past = Mark::past(run.first().last(), run.len());
            self.make_room(first, past)?;
            let naming = Naming {
                end: past.offset,
                place,
            };
            self.runs.insert(first, naming)?;
        }
        Ok(())
    }

    // Takes out what there is from a mark up to another one.
    fn make_room(&mut self, first: Mark, past: Mark) -> Result<(), AllocError> {
        self.cut_at(first)?;
        self.cut_at(past)?;
        for _ in 0..self.runs.len() {
            let Some(inner) = self.first_between(first, past) else {
                break;
            };
            let _naming = self.runs.remove(&inner);
        }
        Ok(())
    }

    // Makes two runs of the one that goes on past a mark, if there is one.
    fn cut_at(&mut self, mark: Mark) -> Result<(), AllocError> {
        let Some((first, naming)) = self.last_up_to(Bound::Excluded(mark)) else {
            return Ok(());
        };
        if !first.is_beside(&mark) || naming.end <= mark.offset {
            return Ok(());
        }
        self.runs.insert(mark, naming)?;
        let front = Naming {
            end: mark.offset,
            ..naming
        };
        self.runs.insert(first, front)?;
        Ok(())
    }

    // The last run that begins within a bound.
    fn last_up_to(&self, bound: Bound<Mark>) -> Option<(Mark, Naming)> {
        let (first, naming) = self.runs.range((Bound::Unbounded, bound)).next_back()?;
        Some((*first, *naming))
    }

    // Where the first run begins from a mark on and before another one, if there is one.
    fn first_between(&self, from: Mark, past: Mark) -> Option<Mark> {
        let (first, _) = self
            .runs
            .range((Bound::Included(from), Bound::Unbounded))
            .next()?;
        if *first < past {
            return Some(*first);
        }
        None
    }
}

/// What is kept of the log so that gone targets are found in it: the identifiers that deletions among its first operations name, in
/// one epoch. It is only a hint: where it is out of date, it takes longer to find a target.
#[derive(Drop)]
pub(crate) struct Hints {
    pub(crate) epoch: EpochName,
    // How many operations of the log were noted.
    pub(crate) noted: usize,
    // What the deletions of each author name.
    pub(crate) namings: Vec<Namings>,
}

impl Hints {
    // Nothing is noted.
    pub(crate) fn new(alloc: Global, epoch: EpochName) -> Hints
        ensures epoch { result.epoch ≡ epoch }
    {
        Hints {
            epoch,
            noted: 0,
            namings: Vec::new(alloc),
        }
    }
}

// Notes that the deletion of an author at a place of the log, which comes after those that were noted, names these identifiers.
pub(crate) fn note(
    alloc: Global,
    namings: &mut Vec<Namings>,
    author: u32,
    ids: &Runs,
    place: usize,
) -> Result<(), AllocError> {
    for known in namings.iter_mut() {
        if known.author == author {
            return known.note(ids, place);
        }
    }
    let mut first = Namings {
        author,
        runs: BTreeMap::new(alloc),
    };
    first.note(ids, place)?;
    namings.push(first)?;
    Ok(())
}
