//! The two documents, to which the same calls are made.

ghost use Rattle.std.specs.Prelude.{◌≡◌, ◌<◌, ◌≤◌, IfOk, length};
ghost use Rattle.rls_doc.specs.Documents.{KeepsOrder};
ghost use Rattle.rls_rename.specs.Renaming.{forward};
ghost use Rattle.rls_runs.specs.Runs.{idents_of};

use crate::spelling::{MIDDLE, own};
use rls_doc::{Document, RunMap, VecDocument};
use rls_ident::{Ident, Tuple, rely};
use rls_ops::Text;
use rls_rename::Renaming;
use rls_replica::{Edit, Replica};
use rls_runs::{Run, RunList, Runs};
use rls_tree::{BlockTree, Node};
use std::alloc::{AllocError, Global};
use std::test::Fail;

/// What a document answers has to be the same for both, so it is told by one number for each step.
type Trace = Vec<u64>;

/// Numbers without a pattern, from a seed.
#[derive(Drop)]
struct Draws {
    state: u64,
}

impl Draws {
    /// A number below this one.
    fn below(&mut self, limit: u64) -> u64
        requires some { 0 < limit }
        ensures below { result < limit }
    {
        self.state = self
            .state
            .wrapping_mul(6_364_136_223_846_793_005)
            .wrapping_add(1_442_695_040_888_963_407);
        (self.state >> 33) % limit
    }
}

fn mixed(trace: u64, number: u64) -> u64 {
    (trace ^ number).wrapping_mul(1_099_511_628_211)
}

fn of_tuple(trace: u64, tuple: Tuple) -> u64 {
    let Tuple::At {
        pos,
        replica,
        seq,
        offset,
    } = tuple
    else {
        return mixed(trace, if matches!(tuple, Tuple::Low) { 1 } else { 2 });
    };
    let place = (offset as i64 + 2_147_483_648) as u64;
    let spot = mixed(mixed(trace, pos as u64), replica as u64);
    mixed(mixed(spot, seq as u64), place)
}

fn of_ident(trace: u64, id: &Ident) -> u64 {
    let mut trace = mixed(trace, id.len() as u64);
    for i in 0..id.len() {
        trace = of_tuple(trace, id.tuple(i));
    }
    trace
}

fn of_runs(trace: u64, runs: &Runs) -> u64 {
    let mut trace = mixed(trace, runs.run_count());
    for run in runs.as_slice() {
        trace = mixed(of_ident(trace, run.first()), run.len() as u64);
    }
    trace
}

fn of_text(trace: u64, text: &Text) -> u64 {
    let mut trace = mixed(trace, text.len() as u64);
    for i in 0..text.len() {
        trace = mixed(trace, text.get(i) as u64);
    }
    trace
}

fn of_place(trace: u64, place: Result<u64, u64>) -> u64 {
    match place {
        Ok(place) => mixed(trace, place),
        Err(below) => mixed(mixed(trace, below), 1),
    }
}

/// An identifier: of one tuple, or after a tuple with an offset of the first ones.
fn some_ident(alloc: Global, draws: &mut Draws) -> Result<Ident, Fail> {
    let outer = Tuple::At {
        pos: MIDDLE,
        replica: draws.below(2) as u32,
        seq: 1,
        offset: draws.below(40) as i32 - 8,
    };
    let inner = own(2, draws.below(6) as i32);
    match draws.below(3) {
        0 => Ok(Ident::from_tuples(alloc, &[outer, inner])?),
        _ => Ok(Ident::from_tuples(alloc, &[outer])?),
    }
}

/// A few runs, of which those count that stand above the one before and apart from it.
fn some_runs(alloc: Global, draws: &mut Draws) -> Result<Runs, Fail> {
    let mut runs = Runs::new(alloc);
    for _ in 0..1 + draws.below(6) {
        let run = Run::new(some_ident(alloc, draws)?, 1 + draws.below(5) as u32)?;
        if runs.total() < 900 {
            let _put = runs.push(run);
        }
    }
    Ok(runs)
}

/// This many letters.
fn some_text(alloc: Global, draws: &mut Draws, count: u64) -> Result<Text, Fail> {
    let mut text = Text::new(alloc);
    for _ in 0..count {
        text.push((b'a' + draws.below(26) as u8) as char)?;
    }
    Ok(text)
}

/// The maximal runs.
fn runs_in(alloc: Global, idents: &Runs) -> Result<RunList, AllocError>
    ensures same { IfOk result (λ runs. idents_of runs ≡ idents.now) }
{
    let mut list = RunList::new(alloc);
    for run in idents.as_slice() {
        list.push(run.copy()?)?;
    }
    Ok(list)
}

/// Takes out those of these identifiers that are there, and puts all of them in with these characters.
fn replace<D: Document>(
    alloc: Global,
    document: &mut D,
    idents: &Runs,
    text: &Text,
) -> Result<u64, Fail>
    requires as_many { length idents.now ≡ length text.now }
    requires some { 0 < length text.now }
    requires few { length text.now ≤ 10000 }
{
    let removed = document.remove_all(idents)?;
    let runs = runs_in(alloc, idents)?;
    rely!(let _total = idents.total());
    if document.total() > 1_000_000 {
        return Err(Fail::new("length"));
    }
    document.insert_runs(&runs, text)?;
    Ok(removed)
}

/// The same, if there are some characters and as many identifiers.
fn replace_as_many<D: Document>(
    alloc: Global,
    document: &mut D,
    idents: &Runs,
    text: &Text,
) -> Result<Option<u64>, Fail> {
    if text.len() == 0 || text.len() > 10_000 || idents.total() != text.len() as u64 {
        return Ok(None);
    }
    Ok(Some(replace(alloc, document, idents, text)?))
}

/// Puts some runs in, and answers how many of their identifiers were there.
fn inserts<D: Document>(alloc: Global, document: &mut D, draws: &mut Draws) -> Result<u64, Fail> {
    let idents = some_runs(alloc, draws)?;
    let text = some_text(alloc, draws, idents.total())?;
    Ok(replace_as_many(alloc, document, &idents, &text)?.unwrap_or(0))
}

/// Renames identifiers.
#[derive(Drop)]
struct RenamedBy<'a> {
    renaming: &'a Renaming,
    ghost ordered: { KeepsOrder (forward renaming.now) },
}

impl<'a> RenamedBy<'a> {
    fn new(renaming: &'a Renaming) -> RenamedBy<'a> {
        rely!(let _total = renaming.total());
        RenamedBy { renaming }
    }
}

impl<'a> RunMap for RenamedBy<'a> {
    ghost image = { λ m. forward m.renaming.now };

    fn map(&self, _alloc: Global, run: &Run) -> Result<RunList, AllocError> {
        self.renaming.forward_run(run)
    }

    ghost keeps_order = { λ m. m.ordered };
}

/// Renames a part of the identifiers, and answers how many.
fn renames<D: Document>(alloc: Global, document: &mut D, draws: &mut Draws) -> Result<u64, Fail> {
    let total = document.total();
    if total == 0 {
        return Ok(0);
    }
    let from = draws.below(total);
    let count = 1 + draws.below(total - from);
    let renaming = Renaming::new(alloc, document.runs_of(from, count)?, 1, 3)?;
    let former = renaming.total();
    document.map_runs(&RenamedBy::new(&renaming))?;
    Ok(former)
}

/// All that a document tells, with a look at one place and at one identifier.
fn looks<D: Document>(document: &D, id: &Ident, draws: &mut Draws) -> Result<u64, Fail> {
    let total = document.total();
    let mut trace = mixed(mixed(0, total), document.run_count());
    trace = of_text(trace, &document.text()?);
    trace = of_runs(trace, &document.runs_of(0, total)?);
    trace = of_place(trace, document.find(id));
    if total > 0 {
        let i = draws.below(total);
        trace = mixed(trace, document.char_at(i) as u64);
        trace = of_ident(trace, &document.ident_at(i)?);
        trace = of_runs(trace, &document.runs_of(i, draws.below(total - i))?);
    }
    Ok(trace)
}

/// A change of some kind, and how many characters it took out or renamed.
fn changes<D: Document>(alloc: Global, document: &mut D, draws: &mut Draws) -> Result<u64, Fail> {
    match draws.below(16) {
        0..9 => inserts(alloc, document, draws),
        9..15 => Ok(document.remove_all(&some_runs(alloc, draws)?)?),
        _ => renames(alloc, document, draws),
    }
}

/// Makes a change, and tells all answers.
fn takes_step<D: Document>(
    alloc: Global,
    document: &mut D,
    draws: &mut Draws,
) -> Result<u64, Fail> {
    let changed = changes(alloc, document, draws)?;
    let id = some_ident(alloc, draws)?;
    Ok(mixed(looks(document, &id, draws)?, changed))
}

/// Makes this many changes that the seed decides, and tells all answers.
fn plays<D: Document>(
    alloc: Global,
    document: &mut D,
    seed: u64,
    steps: u32,
) -> Result<Trace, Fail> {
    let mut draws = Draws { state: seed };
    let mut trace = Vec::new(alloc);
    for _ in 0..steps {
        trace.push(takes_step(alloc, document, &mut draws)?)?;
    }
    Ok(trace)
}

/// What an empty document answers to 200 changes, and whether it has characters then.
fn played<D: Document>(alloc: Global, document: &mut D, seed: u64) -> Result<(Trace, bool), Fail> {
    let trace = plays(alloc, document, seed, 200)?;
    Ok((trace, document.total() > 0))
}

/// Whether both documents answer the same, and whether the tree has characters then.
fn agree(alloc: Global, seed: u64) -> Result<(bool, bool), Fail> {
    let (expected, _) = played(alloc, &mut VecDocument::new(alloc), seed)?;
    let (answers, has_characters) = played(alloc, &mut BlockTree::new(alloc), seed)?;
    Ok((answers == expected, has_characters))
}

#[test]
fn both_documents_answer_the_same(rt: HostRuntime) -> Result<(), Fail> {
    for seed in 1..4 {
        assert_eq!(rt; agree(rt.alloc(), seed)?, (true, true), "seed {seed}");
    }
    Ok(())
}

/// A run: the offset of its first identifier among those of the first operation, whether it is within the text of that one, right after
/// this identifier, and its length.
type Place = (i32, bool, u32);

/// Runs, and their characters, that are put in at once.
type Put = (&'static [Place], &'static str);

/// What is put in, one after another, the text that comes of it, and how many runs it has.
type Row = (&'static [Put], &'static str, u64);

const ROWS: &[Row] = &[
    // A run is cut at two places, and goes on at its end.
    (
        &[
            (&[(0, false, 10)], "abcdefghij"),
            (&[(1, true, 2), (5, true, 1), (10, false, 2)], "XYZkl"),
        ],
        "abXYcdefZghijkl",
        5,
    ),
    // Others are between the identifiers of a run.
    (
        &[(&[(1, true, 2)], "XY"), (&[(0, false, 4)], "abcd")],
        "abXYcd",
        3,
    ),
    // One run before all, and a gap that is filled.
    (
        &[
            (&[(0, false, 2), (4, false, 2)], "abef"),
            (&[(-3, false, 1), (2, false, 2)], "*cd"),
        ],
        "*abcdef",
        2,
    ),
    // Each new run touches both neighbours.
    (
        &[
            (&[(2, false, 1), (5, false, 1)], "cf"),
            (&[(0, false, 2), (3, false, 2), (6, false, 2)], "abdegh"),
        ],
        "abcdefgh",
        1,
    ),
    // A run touches two blocks, of which the second one is cut.
    (
        &[
            (&[(0, false, 2), (5, false, 4)], "abfghi"),
            (&[(2, false, 3), (6, true, 1)], "cdeX"),
        ],
        "abcdefgXhi",
        3,
    ),
    // Before and after all, touching nothing.
    (
        &[
            (&[(0, false, 2)], "ab"),
            (&[(-5, false, 1), (9, false, 1)], "<>"),
        ],
        "<ab>",
        3,
    ),
    // Two runs in one gap, of which one touches the block after it.
    (
        &[
            (&[(0, false, 1), (9, false, 2)], "ajk"),
            (&[(3, false, 1), (8, false, 1)], "di"),
        ],
        "adijk",
        3,
    ),
    // Into nothing.
    (&[(&[(0, false, 1), (3, false, 1)], "ad")], "ad", 2),
];

/// The run at a place.
fn placed(alloc: Global, place: Place) -> Result<Run, Fail> {
    let (offset, is_within, len) = place;
    let first = if is_within {
        Ident::from_tuples(alloc, &[own(1, offset), own(2, 0)])?
    } else {
        Ident::from_tuples(alloc, &[own(1, offset)])?
    };
    Ok(Run::new(first, len)?)
}

/// The identifiers of the runs at these places.
fn placed_runs(alloc: Global, places: &[Place]) -> Result<Runs, Fail> {
    let mut idents = Runs::new(alloc);
    for place in places {
        if idents.total() < 900 {
            idents.push(placed(alloc, *place)?)?;
        }
    }
    Ok(idents)
}

/// Puts runs in, and tells whether none of their identifiers was there.
fn puts<D: Document>(alloc: Global, document: &mut D, put: Put) -> Result<bool, Fail> {
    let (places, characters) = put;
    let idents = placed_runs(alloc, places)?;
    let text = Text::from_str(alloc, characters)?;
    Ok(replace_as_many(alloc, document, &idents, &text)? == Some(0))
}

/// Whether what is put in leads to the text of a row.
fn leads<D: Document>(alloc: Global, document: &mut D, row: &Row) -> Result<bool, Fail> {
    for put in row.0 {
        if !puts(alloc, document, *put)? {
            return Ok(false);
        }
    }
    let text = document.text()?.to_utf8()?;
    Ok(text.as_str() == row.1 && document.run_count() == row.2)
}

/// Whether it does so in either document.
fn both_lead(alloc: Global, row: &Row) -> Result<(bool, bool), Fail> {
    let plain = leads(alloc, &mut VecDocument::new(alloc), row)?;
    Ok((plain, leads(alloc, &mut BlockTree::new(alloc), row)?))
}

#[test]
fn runs_go_into_gaps(rt: HostRuntime) -> Result<(), Fail> {
    for (i, row) in ROWS.iter().enumerate() {
        assert_eq!(rt; both_lead(rt.alloc(), row)?, (true, true), "row {i}");
    }
    Ok(())
}

/// Whether the block of a node has this first identifier and these characters.
fn is_block(alloc: Global, node: &Node, first: &[Tuple], text: &str) -> Result<bool, Fail> {
    let first = Ident::from_tuples(alloc, first)?;
    let characters = node.text().to_utf8()?;
    Ok(
        node.run().first().compare(&first).is_eq()
            && node.run().len() as usize == text.len()
            && characters.as_str() == text,
    )
}

/// Whether there is such a node, and none below it.
fn is_leaf(alloc: Global, node: Option<&Node>, first: &[Tuple], text: &str) -> Result<bool, Fail> {
    match node {
        None => Ok(false),
        Some(node) => {
            let alone = node.left().is_none() && node.right().is_none();
            Ok(alone && node.height() == 1 && is_block(alloc, node, first, text)?)
        }
    }
}

/// Puts a text in.
fn insert(alloc: Global, replica: &mut Replica, at: u64, text: &str) -> Result<u32, Fail> {
    let text = Text::from_str(alloc, text)?;
    Ok(replica.edit(&Edit::Insert { at, text })?)
}

/// Whether the tree of `heXYllo` has the block of `XY` above the two others.
fn is_balanced(alloc: Global, tree: &BlockTree) -> Result<bool, Fail> {
    let Some(root) = tree.root() else {
        return Ok(false);
    };
    let middle = is_block(alloc, root, &[own(1, 1), own(2, 0)], "XY")?;
    let left = is_leaf(alloc, root.left(), &[own(1, 0)], "he")?;
    let right = is_leaf(alloc, root.right(), &[own(1, 2)], "llo")?;
    Ok(root.height() == 2 && middle && left && right)
}

/// Puts `hello` in, and `XY` between its characters. Answers both numbers, the height of the tree, and whether it is balanced.
fn types(alloc: Global, replica: &mut Replica) -> Result<(u32, u32, u32, bool), Fail> {
    let hello = insert(alloc, replica, 0, "hello")?;
    let between = insert(alloc, replica, 2, "XY")?;
    let tree = replica.tree();
    Ok((hello, between, tree.height(), is_balanced(alloc, tree)?))
}

/// What a fresh member 0 of 2 in group 7 answers to that.
fn typed(alloc: Global) -> Result<(u32, u32, u32, bool), Fail> {
    let mut replica = Replica::new(alloc, 7, 0, 2)?;
    types(alloc, &mut replica)
}

#[test]
fn nodes_are_balanced(rt: HostRuntime) -> Result<(), Fail> {
    let alloc = rt.alloc();
    assert_eq!(rt; typed(alloc)?, (1, 2, 2, true));
    Ok(())
}
