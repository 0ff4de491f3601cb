//! What a rename would bring, told before it is made.

ghost use Rattle.std.specs.Prelude.{◌≡◌, ℕ, ◌-◌, ◌^◌, min, length, string_bytes, sum_by, IfOk};
ghost use Rattle.rls_ops.specs.Sizes.{op_size};
ghost use Rattle.rls_ops.specs.Rows.{missing_for};
ghost use Rattle.rls_seen.specs.Seen.{idents_over, unstable_over};
ghost use Rattle.rls_seen.specs.View.{plain};
ghost use Rattle.rls_session.specs.Costs.{costs_over, costs_text, own_of, rename_size, rename_words, tuples_in};

use rls_ident::Vector;
use rls_ident::limits::OPERATION_BYTES;
use rls_log::Log;
use rls_ops::{Body, Op};
use rls_replica::Replica;
use rls_runs::{Run, Runs};
use std::alloc::{AllocError, Global};

/// What a rename would bring, and what the own operations have that some member isn't known to have.
#[derive(Clone, Copy)]
pub(crate) struct Costs {
    /// The bytes of the operation that a rename would make now.
    pub rename: u64,
    /// The runs of the text.
    pub runs: u64,
    /// The tuples of their first identifiers.
    pub tuples: u64,
    /// The epochs that are kept.
    pub epochs: u64,
    /// The own operations that some member isn't known to have.
    pub own: u64,
    /// The bytes of these operations.
    pub bytes: u64,
}

/// The line that tells what a rename would bring. It goes over the tuples of each run, and over the kept operations and epochs as `stat` does, and
/// takes memory for a copy of the runs' first identifiers.
pub(crate) fn tell_costs(alloc: Global, replica: &Replica) -> Result<Vec<u8>, AllocError>
    ensures reply { IfOk result (λ reply. reply.items ≡ costs_text (costs_over replica.now)) }
{
    let costs = costs_of(replica)?;
    costs_line(alloc, &costs)
}

fn costs_line(alloc: Global, costs: &Costs) -> Result<Vec<u8>, AllocError>
    ensures line { IfOk result (λ line. line.items ≡ costs_text costs.now) }
{
    let mut line = rename_words(alloc, costs.rename, costs.runs, costs.tuples)?;
    let (epochs, own, bytes) = (costs.epochs, costs.own, costs.bytes);
    write!(line, " epochs {epochs} own {own} bytes {bytes}\n")?;
    Ok(line.into_bytes())
}

fn rename_words(alloc: Global, rename: u64, runs: u64, tuples: u64) -> Result<String, AllocError>
    ensures words { IfOk result (λ words. string_bytes words ≡ rename_words rename runs tuples) }
{
    let limit = OPERATION_BYTES;
    format!(in alloc; "rename {rename} limit {limit} runs {runs} tuples {tuples}")
}

#[tactic(auto, using(crate::proofs::Sizes::costs_are))]
fn costs_of(replica: &Replica) -> Result<Costs, AllocError>
    ensures costs { IfOk result (λ costs. costs ≡ costs_over replica.now) }
{
    let counts = replica.counts()?;
    let runs = replica.runs()?;
    let tuples = exactly(count_tuples(runs.as_slice()))?;
    let (own, own_bytes) = own_unstable(replica);
    let bytes = exactly(own_bytes)?;
    let rename = exactly(rename_bytes(replica, runs)?)?;
    Ok(Costs {
        rename,
        runs: counts.runs,
        tuples,
        epochs: counts.epochs,
        own,
        bytes,
    })
}

// A number that is told. The greatest u64 may stand for more, and is answered as want of memory.
fn exactly(total: u64) -> Result<u64, AllocError>
    ensures exact { (n : ℕ) → total ≡ min n (2 ^ 64 - 1) → IfOk result (λ m. m ≡ n) }
{
    if total == u64::MAX {
        return Err(AllocError);
    }
    Ok(total)
}

// The bytes of the operation that a rename would make, or the greatest u64 if there are more. The number of an operation makes no byte of it more.
fn rename_bytes(replica: &Replica, runs: Runs) -> Result<u64, AllocError>
    requires runs { runs ≡ idents_over replica.now }
    ensures size { IfOk result (λ size. size ≡ min (rename_size (plain replica.now)) (2 ^ 64 - 1)) }
{
    let op = Op {
        author: replica.me(),
        seq: 1,
        context: replica.vector().copy()?,
        epoch: replica.greatest(),
        body: Body::Rename { former: runs },
    };
    Ok(op.encoded_len())
}

// The tuples of these runs' first identifiers, or the greatest u64 if there are more.
fn count_tuples(runs: &[Run]) -> u64
    ensures tuples { result ≡ min (tuples_in runs.now) (2 ^ 64 - 1) }
{
    let mut total: u64 = 0;
    for run in runs {
        total = total.saturating_add(run.first().len() as u64);
    }
    total
}

fn own_unstable(replica: &Replica) -> (u64, u64)
    ensures own { result.0 ≡ length (own_of replica.now.acks.me (unstable_over replica.now)) }
    ensures bytes { result.1 ≡ min (sum_by op_size (own_of replica.now.acks.me (unstable_over replica.now))) (2 ^ 64 - 1) }
{
    own_beyond(replica.logged(), replica.acks().stable(), replica.me())
}

// The operations of a member that a vector doesn't cover, and their bytes, or the greatest u64 if there are more.
fn own_beyond(log: &Log, stable: &Vector, me: u32) -> (u64, u64)
    ensures own { result.0 ≡ length (own_of me (missing_for stable.now log.now)) }
    ensures bytes { result.1 ≡ min (sum_by op_size (own_of me (missing_for stable.now log.now))) (2 ^ 64 - 1) }
{
    let mut own: u64 = 0;
    let mut bytes: u64 = 0;
    for i in 0..log.len() {
        let head = log.head(i);
        if head.is_covered(stable) {
            continue;
        }
        if head.author != me {
            continue;
        }
        own += 1;
        bytes = bytes.saturating_add(log.part(i).len() as u64);
    }
    (own, bytes)
}
