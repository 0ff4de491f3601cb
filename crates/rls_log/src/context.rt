//! The context of an operation, compared where it stands.

ghost use Rattle.std.specs.Prelude.{◌≡◌, ◌≤◌, ◌∷◌, [], length, drop, Ok};
ghost use Rattle.std.specs.Int.{w32};
ghost use Rattle.rls_ident.specs.Vectors.{at_most};
ghost use Rattle.rls_codec.specs.Reading.{number_at};
ghost use Rattle.rls_log.specs.Encoded.{SpellOne, op_spelled};

/// How many bytes an operation has before its context.
const BEFORE_CONTEXT: usize = 8;

// Whether the context of the operation that the bytes spell counts at most what these counts say, member by member.
pub(crate) fn is_context_at_most(members: u32, bytes: &[u8], counts: &[u32]) -> bool
    requires spelled { SpellOne members bytes.now }
    ensures test { result ≡ at_most (op_spelled members bytes.now).context counts.now }
{
    let (_, mut rest) = bytes.split_at(BEFORE_CONTEXT);
    for member in 0..members {
        let (count, after) = first_count(rest);
        if !is_at_most(count, counts, member as usize) {
            return false;
        }
        rest = after;
    }
    true
}

// The count at the front of the bytes, and the bytes after it.
fn first_count(bytes: &[u8]) -> (u32, &[u8])
    requires room { 4 ≤ length bytes.now }
    ensures read { number_at w32 bytes.now ≡ Ok (result.0, result.1.now) }
{
    let (front, rest) = bytes.split_at(4);
    let count = u32::from_be_bytes([front[0], front[1], front[2], front[3]]);
    (count, rest)
}

// Whether the count is at most the one of these at a place, if there is one.
fn is_at_most(count: u32, counts: &[u32], place: usize) -> bool
    ensures test { result ≡ at_most (count ∷ []) (drop place counts.now) }
{
    match counts.get(place) {
        Some(most) => count <= *most,
        None => false,
    }
}
