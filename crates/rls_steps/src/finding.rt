//! Where labels stand in a text.

ghost use Rattle.std.specs.Prelude.{◌≡◌, ◌<◌, ◌^◌, ◌+◌, ◌++◌, ◌∷◌, [], ℕ, reverse, Some, None, Ok, Err, IfOk, OnOk, IfSome, List, length, false, ◌⊎◌, IsTrue, ◌≤◌, take, drop, slice_get, slice_index, pos};
ghost use Rattle.rls_ident.specs.declared.tuple.Tuple.{Tuple};
ghost use Rattle.rls_ident.specs.Identifiers.{ident_lt, shifted};
ghost use Rattle.rls_runs.specs.Places.{below_count};
ghost use Rattle.rls_runs.specs.Runs.{place_of, run_idents};
ghost use Rattle.rls_seen.specs.Seen.{idents_over};
ghost use Rattle.rls_undo.specs.Plans.{put_place, ranges_of};
ghost use Rattle.rls_steps.specs.Marks.{marks, label_places, label_place, numbers_from};
ghost use Rattle.rls_steps.specs.Labelled.{marked_by};
ghost use Rattle.rls_steps.specs.Index.{tail_at, place_list, named_places, all_places, IsAfter};
ghost use Rattle.rls_steps.specs.Intervals.{IsBetween};
ghost use Rattle.rls_steps.specs.Rows.{LiesBefore, row_places};
ghost use Rattle.rls_steps.specs.Courses.{ident_of, below_or_none, place_over, ranges_over};
ghost use Rattle.rls_steps.specs.Recorded.{held_by};

use crate::interval::Interval;
use crate::labelling::push_rising;
use crate::names::Names;
use rls_doc::Document;
use rls_ident::{Ident, rely};
use rls_replica::Replica;
use rls_runs::Run;
use std::alloc::AllocError;

/// The maximal ranges of the places where one of these labels stands: each as its first place and its length, the last range first.
///
/// It costs a few searches for each row of these labels: they follow one another, their newest names are identifiers of one run, and these
/// stand in the text one behind another, or none of them does. Besides it costs a few steps for each label; and where other characters
/// stand between the places that one of them had, a search for each of its names.
pub(crate) fn ranges(
    replica: &Replica,
    names: &Names,
    labels: &[u64],
) -> Result<Vec<(u64, u64)>, AllocError>
    ensures ranges { IfOk result (λ rs. (next : ℕ) → rs.items ≡ ranges_over (held_by replica.now next names.now) labels.now) }
{
    let places = places(replica, names, labels)?;
    let ranges = joined(&places)?;
    Ok(ranges)
}

// The places where one of these labels stands, from the first on.
fn places(replica: &Replica, names: &Names, labels: &[u64]) -> Result<Vec<u64>, AllocError>
    ensures places { IfOk result (λ ps. ps.items ≡ label_places 0 labels.now (marks (marked_by (reverse names.now) replica.now.text))) }
{
    rely!(replica.sane());
    rely!(names.apart());
    let mut places = all_places(replica, names, labels)?;
    places.sort_unstable();
    places.dedup();
    Ok(places)
}

// Where identifiers of these labels stand, one label after another.
fn all_places(replica: &Replica, names: &Names, labels: &[u64]) -> Result<Vec<u64>, AllocError>
    ensures places { IfOk result (λ ps. ps.items ≡ all_places (idents_over replica.now) labels.now (reverse names.now)) }
{
    let mut places = Vec::new(names.alloc());
    let mut apart = 0;
    let mut i = 0;
    'labels: while i < labels.len() {
        i = push_next(&mut places, replica, names, labels, i, &mut apart)?;
    }
    Ok(places)
}

// Where identifiers of the labels from one on stand: of as many as are found at once, or else of one. Answers the place behind these labels.
fn push_next(
    places: &mut Vec<u64>,
    replica: &Replica,
    names: &Names,
    labels: &[u64],
    i: usize,
    apart: &mut usize,
) -> Result<usize, AllocError>
    requires place { i < length labels.now }
    ensures later { IfOk result (λ end. i < end) }
    ensures places { IfOk result (λ end. places.new.items ++ all_places (idents_over replica.now) (drop end labels.now) (reverse names.now) ≡ places.old.items ++ all_places (idents_over replica.now) (drop i labels.now) (reverse names.now)) }
    ensures within { IfOk result (λ end. end ≤ length labels.now) }
{
    match row_places(replica, names, labels, i, apart)? {
        None => {
            push_places(places, replica, names, labels[i])?;
            Ok(i + 1)
        }
        Some((at, count)) => {
            push_row(places, at, count)?;
            Ok(i + count as usize)
        }
    }
}

// So many places from one on, or none.
fn push_row(places: &mut Vec<u64>, at: Option<u64>, count: u32) -> Result<(), AllocError>
    requires end { IfSome at (λ p. p + count < 2 ^ 64) }
    ensures places { OnOk result (places.new.items ≡ places.old.items ++ row_places at count) }
{
    match at {
        None => Ok(()),
        Some(at) => push_rising(places, at, count),
    }
}

// Where the labels from one on follow one another, and their newest names stand in the text one behind another, and no other name of theirs
// does: the place of the first one, and how many there are, as far as that is seen at once. There is no place where none of these names is
// in the text. It isn't looked for before a place of the list, which goes behind a row of which other names may be in the text.
fn row_places(
    replica: &Replica,
    names: &Names,
    labels: &[u64],
    i: usize,
    apart: &mut usize,
) -> Result<Option<(Option<u64>, u32)>, AllocError>
    requires place { i < length labels.now }
    ensures some { IfOk result (λ o. IfSome o (λ p. 0 < p.1)) }
    ensures within { IfOk result (λ o. IfSome o (λ p. i + p.1 ≤ length labels.now)) }
    ensures room { IfOk result (λ o. IfSome o (λ p. IfSome p.0 (λ at. at + p.1 < 2 ^ 64))) }
    ensures places { IfOk result (λ o. IfSome o (λ p. all_places (idents_over replica.now) (drop i labels.now) (reverse names.now) ≡ row_places p.0 p.1 ++ all_places (idents_over replica.now) (drop (i + p.1) labels.now) (reverse names.now))) }
{
    rely!(replica.sane());
    rely!(names.apart());
    if i < *apart || !goes_on(labels, i, 1) {
        return Ok(None);
    }
    let most = (labels.len() - i).min(u32::MAX as usize) as u32;
    let Some(row) = names.row_from(labels[i], most)? else {
        return Ok(None);
    };
    if !is_clear(replica, &row.before) {
        *apart = i.saturating_add(row.run.len() as usize);
        return Ok(None);
    }
    match replica.find(row.run.first()) {
        Err(at) => {
            let count = gone_from(replica, &row.run, at)?;
            Ok(Some((None, rising(labels, i, count))))
        }
        Ok(at) => {
            let count = standing(replica, &row.run, at)?;
            Ok(Some((Some(at), rising(labels, i, count))))
        }
    }
}

// How many of the first identifiers of a run aren't in the text, where the first one isn't, and would be at this place: those up to the one
// that is there.
fn gone_from(replica: &Replica, run: &Run, at: u64) -> Result<u32, AllocError>
    requires first { place_of run.now.0 (idents_over replica.now) ≡ Err at }
    ensures some { IfOk result (λ n. 0 < n) }
    ensures most { IfOk result (λ n. n ≤ run.now.1) }
    ensures gone { IfOk result (λ n. (k q : ℕ) → k < n → place_of (shifted (pos k) run.now.0) (idents_over replica.now) ≡ Ok q → ⊥) }
{
    rely!(replica.sane());
    let len = run.len();
    if at >= replica.total() {
        return Ok(len);
    }
    let next = replica.ident_at(at)?;
    Ok(count_less(run, &next))
}

// How many identifiers of a run are less than this one.
fn count_less(run: &Run, ident: &Ident) -> u32
    ensures less { result ≡ below_count (run_idents run.now.0 run.now.1) ident.now }
{
    match run.find(ident) {
        Ok(at) => at,
        Err(below) => below,
    }
}

// How many identifiers of a run stand in the text one behind another, from the place of the first one on, as far as that is seen at once.
fn standing(replica: &Replica, run: &Run, at: u64) -> Result<u32, AllocError>
    requires at { slice_get (idents_over replica.now) at ≡ Some run.now.0 }
    ensures some { IfOk result (λ n. 0 < n) }
    ensures most { IfOk result (λ n. n ≤ run.now.1) }
    ensures there { IfOk result (λ n. (k : ℕ) → k < n → slice_get (idents_over replica.now) (at + k) ≡ Some (shifted (pos k) run.now.0)) }
{
    rely!(let _len = run.len());
    let standing = replica.tree().standing(run, 0)? as u64;
    let most = standing.max(1).min(replica.total() - at);
    let there = replica.tree().runs_of(at, most)?;
    let (other, from) = there.locate(0);
    Ok(run.len().min(other.len() - from))
}

/// How many of the labels from one on, at most so many, follow one another.
pub(crate) fn rising(labels: &[u64], from: usize, most: u32) -> u32
    requires place { from < length labels.now }
    requires some { 0 < most }
    ensures some { 0 < result }
    ensures most { result ≤ most }
    ensures within { from + result ≤ length labels.now }
    ensures rising { take result (drop from labels.now) ≡ numbers_from (slice_index labels.now from) result }
{
    let mut count = 1;
    'labels: while count < most && goes_on(labels, from, count) {
        count += 1;
    }
    count
}

// Whether so many places after a label stands the one that is greater by as much.
fn goes_on(labels: &[u64], from: usize, count: u32) -> bool
    requires place { from < length labels.now }
    ensures next { IsTrue result → slice_get labels.now (from + count) ≡ Some (slice_index labels.now from + count) }
{
    let by = count as usize;
    if labels.len() - from <= by {
        return false;
    }
    let (first, next) = (labels[from], labels[from + by]);
    first < next && next - first == count as u64
}

// Whether the text has nothing of an interval, if there is one.
fn is_clear(replica: &Replica, before: &Option<Interval>) -> bool
    ensures clear { IsTrue result → (x : List Tuple) (k : ℕ) → LiesBefore before.now x → place_of x (idents_over replica.now) ≡ Ok k → ⊥ }
{
    match before {
        None => true,
        Some(interval) => is_alone(replica, interval, None),
    }
}

// Where identifiers of a label stand, the newest first. What came before them isn't looked for if the text has nothing between them.
fn push_places(
    places: &mut Vec<u64>,
    replica: &Replica,
    names: &Names,
    label: u64,
) -> Result<(), AllocError>
    ensures ok { OnOk result (places.new.items ≡ places.old.items ++ named_places (idents_over replica.now) label (reverse names.now)) }
{
    rely!(replica.sane());
    rely!(names.apart());
    let mut cursor = names.newest(label);
    let mut found = None;
    'names: while let Some(at) = cursor {
        let (ident, _) = names.name(at)?;
        found = push_place(places, replica, &ident, found)?;
        cursor = name_before(replica, names, at, found);
    }
    Ok(())
}

// Where an identifier stands, if it is there. Answers that place, or else the one that was found before.
fn push_place(
    places: &mut Vec<u64>,
    replica: &Replica,
    ident: &Ident,
    found: Option<u64>,
) -> Result<Option<u64>, AllocError>
    ensures ok { OnOk result (places.new.items ≡ places.old.items ++ place_list (place_of ident.now (idents_over replica.now))) }
    ensures found { IfOk result (λ o. (o ≡ found) ⊎ ((k : ℕ) × (o ≡ Some k) × (place_of ident.now (idents_over replica.now) ≡ Ok k))) }
{
    match replica.find(ident) {
        Err(_) => Ok(found),
        Ok(at) => {
            places.push(at)?;
            Ok(Some(at))
        }
    }
}

// The name that the label of the name at a place had before, if one of those that it had may be in the text, but for the place found.
fn name_before(replica: &Replica, names: &Names, at: usize, found: Option<u64>) -> Option<usize>
    requires place { at < length names.now }
    ensures after { (n : List Tuple × ℕ) (ms : List (List Tuple × ℕ)) → tail_at (reverse names.now) at ≡ n ∷ ms → IsAfter (idents_over replica.now) n ms found result }
{
    let Some(older) = names.older(at) else {
        return None;
    };
    match names.interval_before(at) {
        None => Some(older),
        Some(interval) => {
            if is_alone(replica, interval, found) {
                return None;
            }
            Some(older)
        }
    }
}

// Whether no identifier of an interval is in the text, but for one at the place that was found.
fn is_alone(replica: &Replica, interval: &Interval, found: Option<u64>) -> bool
    ensures alone { IsTrue result → (x : List Tuple) (k : ℕ) → IsBetween interval.now x → place_of x (idents_over replica.now) ≡ Ok k → found ≡ Some k }
{
    rely!(replica.sane());
    let from = replica.count_below(&interval.low);
    let end = up_to(replica, &interval.high);
    if end <= from {
        return true;
    }
    match found {
        None => false,
        Some(at) => at == from && end - from == 1,
    }
}

// How many identifiers of the text are up to one of the greatest epoch.
fn up_to(replica: &Replica, ident: &Ident) -> u64
    ensures up_to { (x : List Tuple) (k : ℕ) → ident_lt ident.now x ≡ false → place_of x (idents_over replica.now) ≡ Ok k → k < result }
{
    rely!(replica.sane());
    match replica.find(ident) {
        Ok(at) => at + 1,
        Err(at) => at,
    }
}

// The maximal ranges of these places, the last range first.
fn joined(places: &Vec<u64>) -> Result<Vec<(u64, u64)>, AllocError>
    ensures ranges { IfOk result (λ rs. rs.items ≡ reverse (ranges_of places.now.items)) }
{
    let mut ranges = Vec::new(*places.allocator());
    let mut i = places.len();
    'places: while i > 0 {
        i -= 1;
        put_range(&mut ranges, places[i])?;
    }
    Ok(ranges)
}

// One more place, before those of the last range of the list.
#[tactic(auto, using(rls_undo::proofs::Finding::put_joined, rls_undo::proofs::Finding::put_apart, rls_undo::proofs::Finding::put_alone))]
fn put_range(ranges: &mut Vec<(u64, u64)>, at: u64) -> Result<(), AllocError>
    ensures ok { OnOk result (ranges.new.items ≡ reverse (put_place at (reverse ranges.old.items))) }
{
    let Some((next, count)) = ranges.pop() else {
        ranges.push((at, 1))?;
        return Ok(());
    };
    if at < next && next - at == 1 {
        let Some(more) = count.checked_add(1) else {
            return Err(AllocError);
        };
        ranges.push((at, more))?;
        return Ok(());
    }
    ranges.push((next, count))?;
    ranges.push((at, 1))?;
    Ok(())
}

/// Where cut characters come back. It costs a few searches for each of both neighbours, and what `ranges` says where others stand between.
pub(crate) fn place(
    replica: &Replica,
    names: &Names,
    left: Option<u64>,
    right: Option<u64>,
) -> Result<u64, AllocError>
    ensures place { IfOk result (λ at. (next : ℕ) → at ≡ place_over (held_by replica.now next names.now) left right) }
{
    let Some(left) = left else {
        return Ok(0);
    };
    match place_of(replica, names, left)? {
        Some(at) => Ok(at + 1),
        None => place_before(replica, names, left, right),
    }
}

// The same where the left neighbour isn't in the text.
fn place_before(
    replica: &Replica,
    names: &Names,
    left: u64,
    right: Option<u64>,
) -> Result<u64, AllocError>
    requires none { label_place (marks (marked_by (reverse names.now) replica.now.text)) left ≡ None }
    ensures place { IfOk result (λ at. (next : ℕ) → at ≡ place_over (held_by replica.now next names.now) (Some left) right) }
{
    let Some(right) = right else {
        return gone(replica, names, left);
    };
    match place_of(replica, names, right)? {
        Some(at) => Ok(at),
        None => gone(replica, names, left),
    }
}

// The first place of a label, if it is there.
fn place_of(replica: &Replica, names: &Names, label: u64) -> Result<Option<u64>, AllocError>
    ensures place { IfOk result (λ at. at ≡ label_place (marks (marked_by (reverse names.now) replica.now.text)) label) }
    ensures within { IfOk result (λ at. IfSome at (λ i. i + 1 < 2 ^ 64)) }
{
    rely!(replica.sane());
    let places = places(replica, names, &[label])?;
    Ok(places.first().copied())
}

// Where the character with this label would be that is gone.
fn gone(replica: &Replica, names: &Names, label: u64) -> Result<u64, AllocError>
    ensures gone { IfOk result (λ at. at ≡ below_or_none (idents_over replica.now) (ident_of (reverse names.now) label)) }
{
    let newest = newest_ident(names, label)?;
    match newest {
        None => Ok(0),
        Some(ident) => Ok(replica.count_below(&ident)),
    }
}

/// The newest identifier of a label, if it has one. It costs a few searches.
pub(crate) fn newest_ident(names: &Names, label: u64) -> Result<Option<Ident>, AllocError>
    ensures ident { IfOk result (λ o. o ≡ ident_of (reverse names.now) label) }
{
    match names.newest(label) {
        None => Ok(None),
        Some(at) => {
            let (ident, _) = names.name(at)?;
            Ok(Some(ident))
        }
    }
}
