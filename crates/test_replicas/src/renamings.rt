//! Renamings on worked values: identifiers and whole runs, forward and back.

use crate::spelling::{MIDDLE, Spelled, are, is_ident, list_of, own, run_of};
use rls_ident::limits::IDENTIFIERS;
use rls_ident::{Ident, Tuple};
use rls_rename::{Renaming, RenamingError};
use rls_runs::{Run, RunList, Runs};
use std::alloc::Global;
use std::test::Fail;

fn at(pos: u32, replica: u32, seq: u32, offset: i32) -> Tuple {
    Tuple::At {
        pos,
        replica,
        seq,
        offset,
    }
}

/// A tuple of member 0's first operation.
fn old(offset: i32) -> Tuple {
    own(1, offset)
}

/// A tuple of the rename, which is member 0's second operation.
fn new(offset: i32) -> Tuple {
    own(2, offset)
}

/// The renaming of the first identifiers of member 0's first operation.
fn renaming(alloc: Global, len: u32) -> Result<Result<Renaming, RenamingError>, Fail> {
    let former = list_of(alloc, (&[old(0)], len))?;
    Ok(Renaming::new(alloc, former, 0, 2))
}

/// Identifiers before and after a renaming, by their tuples.
type Pair<'a> = (&'a [Tuple], &'a [Tuple]);

/// Whether it takes the first identifier to the second.
fn takes(alloc: Global, renaming: &Renaming, pair: Pair<'_>) -> Result<bool, Fail> {
    let found = renaming.forward(&Ident::from_tuples(alloc, pair.0)?)?;
    is_ident(alloc, &found, pair.1)
}

/// Whether it takes the second identifier back to the first.
fn takes_back(alloc: Global, renaming: &Renaming, pair: Pair<'_>) -> Result<bool, Fail> {
    let found = renaming.back(&Ident::from_tuples(alloc, pair.1)?)?;
    is_ident(alloc, &found, pair.0)
}

/// Both.
fn takes_both(alloc: Global, renaming: &Renaming, pair: Pair<'_>) -> Result<(bool, bool), Fail> {
    let forward = takes(alloc, renaming, pair)?;
    Ok((forward, takes_back(alloc, renaming, pair)?))
}

/// The same of the renaming of five identifiers.
fn takes_in_five(alloc: Global, pair: Pair<'_>) -> Result<(bool, bool), Fail> {
    let renaming = renaming(alloc, 5)??;
    takes_both(alloc, &renaming, pair)
}

#[test]
fn identifiers_go_forward_and_back(rt: HostRuntime) -> Result<(), Fail> {
    let outer = at(MIDDLE, 1, 1, 0);
    let third = at(MIDDLE, 0, 3, 0);
    let low = at(1_073_741_823, 1, 1, 0);
    let fourth = at(1_073_741_823, 0, 4, 0);
    let ninth = at(5, 0, 9, 0);
    let pairs: &[Pair<'_>] = &[
        (&[old(-1), Tuple::High, third], &[new(-1), third]),
        (&[low], &[low]),
        (&[old(4), outer], &[new(4), old(4), outer]),
        (
            &[old(1), Tuple::Low, old(1), Tuple::Low, ninth],
            &[new(1), old(1), Tuple::Low, ninth],
        ),
        (&[old(1), Tuple::High, third], &[new(1), third]),
        (&[old(1), Tuple::Low, fourth], &[new(1), fourth]),
        (&[new(5)], &[new(5)]),
    ];
    for (i, pair) in pairs.iter().enumerate() {
        assert_eq!(rt; takes_in_five(rt.alloc(), *pair)?, (true, true), "pair {i}");
    }
    Ok(())
}

/// Which way a run goes.
#[derive(Clone, Copy)]
enum Way {
    Forward,
    Back,
}

/// The run after the renaming, or before it.
fn renamed(renaming: &Renaming, way: Way, run: &Run) -> Result<RunList, Fail> {
    Ok(match way {
        Way::Forward => renaming.forward_run(run)?,
        Way::Back => renaming.back_run(run)?,
    })
}

/// How many identifiers are renamed, a way, a run, the run that it goes to, and the one after that if it goes to two.
type Case<'a> = (u32, Way, Spelled<'a>, Spelled<'a>, Option<Spelled<'a>>);

/// Whether the run goes to these.
fn run_goes(alloc: Global, renaming: &Renaming, case: Case<'_>) -> Result<bool, Fail> {
    let (_, way, run, first, second) = case;
    let found = renamed(renaming, way, &run_of(alloc, run)?)?;
    match second {
        None => are(alloc, &found, &[first]),
        Some(second) => are(alloc, &found, &[first, second]),
    }
}

/// How many identifiers the renaming of a case has, and whether the run goes to these.
fn goes(alloc: Global, case: Case<'_>) -> Result<(u64, bool), Fail> {
    let renaming = renaming(alloc, case.0)??;
    Ok((renaming.total(), run_goes(alloc, &renaming, case)?))
}

#[test]
fn runs_go_forward_and_back(rt: HostRuntime) -> Result<(), Fail> {
    let (most, long) = (4_194_304, 1_073_741_819);
    assert_eq!(rt; most as u64, IDENTIFIERS);
    let cases: &[Case<'_>] = &[
        (5, Way::Forward, (&[old(0)], 5), (&[new(0)], 5), None),
        (5, Way::Back, (&[new(0)], 5), (&[old(0)], 5), None),
        (
            5,
            Way::Forward,
            (&[old(3)], 4),
            (&[new(3)], 2),
            Some((&[new(4), old(5)], 2)),
        ),
        // Long runs go at once.
        (
            most,
            Way::Forward,
            (&[old(0)], most),
            (&[new(0)], most),
            None,
        ),
        (most, Way::Back, (&[new(0)], most), (&[old(0)], most), None),
        (
            5,
            Way::Forward,
            (&[old(5)], long),
            (&[new(4), old(5)], long),
            None,
        ),
        (
            5,
            Way::Back,
            (&[new(4), old(5)], long),
            (&[old(5)], long),
            None,
        ),
    ];
    for (i, case) in cases.iter().enumerate() {
        let found = goes(rt.alloc(), *case)?;
        assert_eq!(rt; found, (case.0 as u64, true), "case {i}");
    }
    Ok(())
}

/// Why there is no renaming of this many identifiers, if there is none.
fn refused(alloc: Global, len: u32) -> Result<Option<RenamingError>, Fail> {
    Ok(renaming(alloc, len)?.err())
}

/// The same of no identifier.
fn refused_without_any(alloc: Global) -> Option<RenamingError> {
    Renaming::new(alloc, Runs::new(alloc), 0, 2).err()
}

/// What a copy of the renaming of five identifiers tells: how many there are, in how many runs, the member, and its operation.
fn copied(alloc: Global) -> Result<(u64, u64, u32, u32), Fail> {
    let copy = renaming(alloc, 5)??.copy()?;
    Ok((
        copy.total(),
        copy.former().run_count(),
        copy.replica(),
        copy.seq(),
    ))
}

#[test]
fn renamings_are_made(rt: HostRuntime) -> Result<(), Fail> {
    let alloc = rt.alloc();
    let many = RenamingError::TooMany { total: 4_194_305 };
    assert_eq!(rt; refused_without_any(alloc), Some(RenamingError::EmptyList));
    assert_eq!(rt; refused(alloc, 4_194_305)?, Some(many));
    assert_eq!(rt; copied(alloc)?, (5, 1, 0, 2));
    Ok(())
}
