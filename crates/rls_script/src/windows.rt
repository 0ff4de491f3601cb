//! Grapheme clusters in a window of a text.
//! Why: docs/DECISIONS.md, 90; CHOICES.md, 161.

ghost use Rattle.std.specs.Prelude.{◌≡◌, ℕ, ◌+◌, ◌-◌, ◌<◌, ◌≤◌, List, length, drop, take, IfOk, IfSome, IfNone};
ghost use Rattle.std.specs.List.{position_or_len};
ghost use Rattle.rls_script.specs.Clusters.{cluster_before, is_barrier_break, cluster_in, is_barrier_conjunct, is_barrier, is_control, is_inside, is_mark, are_joined, left_out, placed};

use crate::clusters::{ClusterError, cluster_before};
use rls_runs::Text;
use std::alloc::AllocError;
use ucd_breaks::GraphemeClusterBreak;
use ucd_derived::IndicConjunctBreak;

// Whether the value is none that a rule reads together with what stands before its character.
fn is_barrier_break(value: GraphemeClusterBreak) -> bool
    ensures barrier { result ≡ is_barrier_break value }
{
    !matches!(
        value,
        GraphemeClusterBreak::Extend
            | GraphemeClusterBreak::Zwj
            | GraphemeClusterBreak::RegionalIndicator
    )
}

// The same of the values for conjuncts.
fn is_barrier_conjunct(value: IndicConjunctBreak) -> bool
    ensures barrier { result ≡ is_barrier_conjunct value }
{
    !matches!(
        value,
        IndicConjunctBreak::Linker | IndicConjunctBreak::Extend
    )
}

// Whether no rule on a boundary after the character reads what stands before it.
#[tactic(auto, unfolding(crate::specs::Clusters::is_barrier))]
fn is_barrier(c: char) -> bool
    ensures barrier { result ≡ is_barrier c }
{
    is_barrier_break(GraphemeClusterBreak::for_char(c))
        && is_barrier_conjunct(IndicConjunctBreak::for_char(c))
}

// Whether the value is one of a character that ends a cluster by itself.
fn is_control(value: GraphemeClusterBreak) -> bool
    ensures control { result ≡ is_control value }
{
    matches!(
        value,
        GraphemeClusterBreak::Control | GraphemeClusterBreak::Cr | GraphemeClusterBreak::Lf
    )
}

// Whether the value is one of a mark or a joiner.
fn is_mark(value: GraphemeClusterBreak) -> bool
    ensures mark { result ≡ is_mark value }
{
    matches!(
        value,
        GraphemeClusterBreak::Extend | GraphemeClusterBreak::Zwj | GraphemeClusterBreak::SpacingMark
    )
}

// Whether no boundary is between the two characters, whatever stands before them.
#[tactic(auto, unfolding(crate::specs::Clusters::are_joined))]
fn are_joined(before: char, after: char) -> bool
    ensures joined { result ≡ are_joined before after }
{
    !is_control(GraphemeClusterBreak::for_char(before))
        && is_mark(GraphemeClusterBreak::for_char(after))
}

// Whether so it is at this place of a window.
fn is_inside(window: &Text, place: usize) -> bool
    requires some { 0 < place }
    requires within { place ≤ length window.now }
    ensures inside { result ≡ is_inside window.now place }
{
    place < window.len() && are_joined(window.get(place - 1), window.get(place))
}

// The place of the first barrier, or the number of characters.
fn first_barrier(text: &Text) -> usize
    ensures place { result ≡ position_or_len is_barrier text.now }
{
    for i in 0..text.len() {
        if is_barrier(text.get(i)) {
            return i;
        }
    }
    text.len()
}

// How many characters of a window that begins at `from` are left out.
fn left_out(window: &Text, from: u64) -> usize
    ensures left_out { result ≡ left_out from window.now }
{
    if from == 0 { 0 } else { first_barrier(window) }
}

// What was found in the characters from `start` on, as places of the text.
fn placed(
    start: u64,
    at: u64,
    found: Result<u64, ClusterError>,
) -> Option<Result<u64, ClusterError>>
    requires before { IfOk found (λ begin. start + begin ≤ at) }
    ensures placed { result ≡ placed start at found }
{
    match found {
        Ok(0) if start > 0 => None,
        Ok(begin) => Some(Ok(start + begin)),
        Err(_) => Some(Err(ClusterError::NotBoundary { at })),
    }
}

/// What a window of a text tells of the grapheme cluster that ends at position `at` of the text: `None`, if the cluster may begin
/// before the window, and else what `cluster_before` gives. The window begins at position `from` of the text, and holds the
/// character after `at` too, if there is one. A window that begins at the text's start tells it always.
///
/// The time is linear in the length of the window. Where the characters around `at` alone tell that no cluster ends between them, as
/// before a mark or a joiner mostly, it is constant.
pub fn cluster_in(
    window: Text,
    from: u64,
    at: u64,
) -> Result<Option<Result<u64, ClusterError>>, AllocError>
    requires begins { from < at }
    requires reaches { at ≤ from + length window }
    ensures found { IfOk result (λ found. found ≡ cluster_in window from at) }

    // For each text of which this is a window.
    ensures told { IfOk result (λ found. IfSome found (λ begin. (text : List ℕ) → take (at + 1 - from) (drop from text) ≡ window → begin ≡ cluster_before text at)) }
    ensures start { IfOk result (λ found. IfNone found (0 < from)) }
{
    if is_inside(&window, (at - from) as usize) {
        return Ok(Some(Err(ClusterError::NotBoundary { at })));
    }
    let mut window = window;
    let skipped = left_out(&window, from);
    if at - from <= skipped as u64 {
        return Ok(None);
    }
    window.drop_front(skipped);
    let utf8 = window.to_utf8()?;
    let start = from + skipped as u64;
    Ok(placed(start, at, cluster_before(utf8.as_str(), at - start)))
}
