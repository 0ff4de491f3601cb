//! What a member answers on paths that a function which always lacks memory would shut.

use super::tuples::{at, old};
use rls_ident::{EpochName, Ident};
use rls_ops::Text;
use rls_replica::{Edit, Replica};
use rls_runs::Run;
use std::alloc::Global;
use std::test::Fail;
use test_steps::steps::{Change, Row, Step, Turn};
use test_steps::told::{Deed, ORIGIN, Told};

const RENAME: Step = Step::Edit(Change::Rename);

const DELETION: Step = Step::Edit(Change::Delete(0, 1));

/// One character is deleted by both members.
pub const BY_BOTH: &[Turn] = &[
    Turn::First((DELETION, "2", "ello [2, 0] 0 2 Origin")),
    Turn::Second((DELETION, "1", "ello [1, 1] 0 2 Origin")),
    Turn::BothTake("1 0 0 0 0", "ello [2, 1] 0 3 Origin"),
];

/// A deletion of an older epoch is accepted.
pub const OF_AN_OLDER_EPOCH: &[Turn] = &[
    Turn::First((RENAME, "2", "hello [2, 0] 0 2 Of { replica: 0, seq: 2 }")),
    Turn::Second((DELETION, "1", "ello [1, 1] 0 2 Origin")),
    Turn::BothTake("1 0 0 0 0", "ello [2, 1] 0 3 Of { replica: 0, seq: 2 }"),
];

/// Two members delete one character, one of them after a rename that the other has not: each deletion that arrives is of another
/// epoch than the one that makes its target known.
pub const KNOWN_BY_ANOTHER: &[Turn] = &[
    Turn::Second((RENAME, "1", "hello [1, 1] 0 2 Of { replica: 1, seq: 1 }")),
    Turn::Second((DELETION, "2", "ello [1, 2] 0 3 Of { replica: 1, seq: 1 }")),
    Turn::First((DELETION, "2", "ello [2, 0] 0 2 Origin")),
    Turn::SecondTakes("1 0 0 0 0", "ello [2, 2] 0 4 Of { replica: 1, seq: 1 }"),
    Turn::FirstTakes("2 0 0 0 0", "ello [2, 2] 0 4 Of { replica: 1, seq: 1 }"),
];

/// The epoch of member 0's second operation.
const RENAMED: EpochName = EpochName::Of { replica: 0, seq: 2 };

/// The first operations of member 0: it inserts, renames and leaves.
const HELLO: Told<'static> = (0, 1, &[0, 0], ORIGIN, Deed::Insert(old!(0), "hello"));

const RENAMING: Told<'static> = (0, 2, &[1, 0], ORIGIN, Deed::Rename(old!(0), 5));

const LEAVE: Told<'static> = (0, 3, &[2, 0], RENAMED, Deed::Leave);

/// A rename and a leave that waited are released.
pub const RELEASED: &[Row] = &[
    (Step::Receive(LEAVE), "held", " [0, 0] 1 0 Origin"),
    (Step::Receive(RENAMING), "held", " [0, 0] 2 0 Origin"),
    (Step::Receive(HELLO), "applied", "hello [1, 0] 2 1 Origin"),
    (
        Step::Release,
        "0 2 applied",
        "hello [2, 0] 1 2 Of { replica: 0, seq: 2 }",
    ),
    (
        Step::Release,
        "0 3 applied",
        "hello [3, 0] 0 3 Of { replica: 0, seq: 2 }",
    ),
    (
        Step::Release,
        "none",
        "hello [3, 0] 0 3 Of { replica: 0, seq: 2 }",
    ),
];

/// How many identifiers of a run of seven follow one another in the tree with none between, from three places of the run on.
fn standing(replica: &Replica, run: &Run) -> Result<(u32, u32, u32), Fail> {
    if run.len() != 7 {
        return Err(Fail::new("length"));
    }
    let tree = replica.tree();
    let (all, rest) = (tree.standing(run, 0)?, tree.standing(run, 3)?);
    Ok((all, rest, tree.standing(run, 5)?))
}

/// The same of the run that begins with a text of member 0.
fn standing_after(
    alloc: Global,
    replica: &mut Replica,
    text: &str,
) -> Result<(u32, u32, u32), Fail> {
    let text = Text::from_str(alloc, text)?;
    let _seq = replica.edit(&Edit::Insert { at: 0, text })?;
    let run = Run::new(Ident::from_tuples(alloc, &[old!(0)])?, 7)?;
    standing(replica, &run)
}

/// The same of a fresh member 0.
fn standing_in(alloc: Global, text: &str) -> Result<(u32, u32, u32), Fail> {
    let mut replica = Replica::new(alloc, 7, 0, 2)?;
    standing_after(alloc, &mut replica, text)
}

#[test]
fn a_run_stands_as_far_as_its_text_goes(rt: HostRuntime) -> Result<(), Fail> {
    assert_eq!(rt; standing_in(rt.alloc(), "hello")?, (5, 2, 0));
    Ok(())
}
