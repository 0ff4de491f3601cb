//! How many bytes the file of a replica has: each number is the greatest u64 where there are more.

ghost use Rattle.std.specs.Prelude.{◌≡◌, ◌-◌, ◌^◌, min};
ghost use Rattle.rls_seen.specs.Kept.{retained_over};
ghost use Rattle.rls_file.specs.Sizes.{rows_size, stems_size, epochs_size, text_size, log_size, held_size, stored_size};

use rls_fields::{kept_epochs_len, left_count, other_rows_len, stems_len, tree_len, waiting_len};
use rls_ident::rely;
use rls_parts::Places;
use rls_replica::Replica;

// The head, the rows and the members that have left.
fn rows_part(replica: &Replica) -> u64
    ensures size { result ≡ min (rows_size replica.now) (2 ^ 64 - 1) }
{
    let (acks, members) = (replica.acks(), replica.members());
    let left = left_count(acks, members) as u64;
    other_rows_len(acks, members)
        .saturating_add(4 * members as u64)
        .saturating_add(4 * left)
        .saturating_add(25)
}

fn stems_part(replica: &Replica) -> u64
    ensures size { result ≡ min (stems_size replica.now) (2 ^ 64 - 1) }
{
    stems_len(replica.stems(), replica.members())
}

// The epochs that must stay.
fn epochs_part(replica: &Replica, places: &Places) -> u64
    requires names { places.now ≡ retained_over replica.now }
    ensures size { result ≡ min (epochs_size replica.now) (2 ^ 64 - 1) }
{
    kept_epochs_len(replica.epochs(), places)
}

fn text_part(replica: &Replica) -> u64
    ensures size { result ≡ min (text_size replica.now) (2 ^ 64 - 1) }
{
    tree_len(replica.tree())
}

// The unstable operations.
fn log_part(replica: &Replica) -> u64
    ensures size { result ≡ min (log_size replica.now) (2 ^ 64 - 1) }
{
    rely!(replica.sane());
    replica.logged().missing_len(replica.acks().stable())
}

fn held_part(replica: &Replica) -> u64
    ensures size { result ≡ min (held_size replica.now) (2 ^ 64 - 1) }
{
    waiting_len(replica.held())
}

/// The whole file, with these epochs.
pub(crate) fn stored_len(replica: &Replica, places: &Places) -> u64
    requires names { places.now ≡ retained_over replica.now }
    ensures size { result ≡ min (stored_size replica.now) (2 ^ 64 - 1) }
{
    rows_part(replica)
        .saturating_add(stems_part(replica))
        .saturating_add(epochs_part(replica, places))
        .saturating_add(text_part(replica))
        .saturating_add(log_part(replica))
        .saturating_add(held_part(replica))
        .saturating_add(16)
}
