//! Grapheme clusters before a position.
//! Why: CHOICES.md, 24.

ghost use Rattle.std.specs.Prelude.{◌≡◌, true, map, length};
ghost use Rattle.std.specs.Str.{IsUtf8, chars};
ghost use Rattle.unicode_segmentation.specs.Grapheme.{graphemes};
ghost use Rattle.rls_script.specs.Clusters.{cluster_before, clusters_of};

use thiserror::Error;
use unicode_segmentation::UnicodeSegmentation;

/// Why no grapheme cluster ends at a position. Positions are of characters.
#[derive(Clone, Copy, Debug, PartialEq, Eq, Error)]
pub enum ClusterError {
    /// The position is 0 or above the number of characters.
    #[error("position {at} isn't within the {total} characters")]
    Range { at: u64, total: u64 },
    /// The position stands inside a cluster.
    #[error("no cluster ends at position {at}")]
    NotBoundary { at: u64 },
}

// How many characters there are.
fn char_count(text: &str) -> u64
    ensures count { result ≡ length (chars text.now) }
    ensures utf8 { IsUtf8 text.now }
{
    text.chars().count() as u64
}

/// The position of the character at which the grapheme cluster that ends at position `at` begins.
///
/// `Range` exactly where `at` is 0 or above the number of characters, `NotBoundary` exactly where
/// `at` is elsewhere and no extended grapheme cluster ends there. It takes no memory, and reads the
/// text once, no further than `at` but where it fails by `Range`.
pub fn cluster_before(text: &str, at: u64) -> Result<u64, ClusterError>
    ensures cluster { result ≡ cluster_before (chars text.now) at }

    // The clusters are those that `unicode_segmentation` tells of the bytes.
    ensures clusters { map chars (graphemes true text.now) ≡ clusters_of (chars text.now) }
{
    if at == 0 {
        return Err(ClusterError::Range {
            at,
            total: char_count(text),
        });
    }
    let mut begin = 0;
    for cluster in text.graphemes(true) {
        let len = char_count(cluster);
        if len == at - begin {
            return Ok(begin);
        }
        if len > at - begin {
            return Err(ClusterError::NotBoundary { at });
        }
        begin += len;
    }
    Err(ClusterError::Range { at, total: begin })
}
