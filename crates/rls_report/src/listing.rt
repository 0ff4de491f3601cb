//! The listing of identifiers.

ghost use Rattle.std.specs.Prelude.{◌≡◌, ◌++◌, ◌∷◌, [], IfOk, OnOk, map, string_bytes};
ghost use Rattle.std.specs.List.{join_with_byte};
ghost use Rattle.serde_json.specs.Written.{compact_text};
ghost use Rattle.rls_model.specs.Receiving.{State};
ghost use Rattle.rls_seen.specs.Stands.{StandsFor};
ghost use Rattle.rls_report.specs.Listing.{json_tuple, json_name, json_run, ids_data, ids_text, ids_of, ids_over};

use rls_ident::{EpochName, Ident, Tuple};
use rls_replica::Replica;
use rls_runs::Run;
use std::alloc::{AllocError, Global};

fn put_tuple(text: &mut String, tuple: Tuple) -> Result<(), AllocError>
    ensures ok { OnOk result (string_bytes text.new ≡ string_bytes text.old ++ json_tuple tuple) }
{
    match tuple {
        Tuple::Low => text.push_str("\"low\""),
        Tuple::At {
            pos,
            replica,
            seq,
            offset,
        } => write!(text, "[{pos},{replica},{seq},{offset}]"),
        Tuple::High => text.push_str("\"high\""),
    }
}

// The tuples, with a comma between two.
fn put_tuples(text: &mut String, ident: &Ident) -> Result<(), AllocError>
    ensures ok { OnOk result (string_bytes text.new ≡ string_bytes text.old ++ join_with_byte 44 (map json_tuple ident.now)) }
{
    for tuple in ident.front() {
        put_tuple(text, *tuple)?;
        text.push(',')?;
    }
    put_tuple(text, ident.last().as_tuple())?;
    Ok(())
}

fn put_name(text: &mut String, name: EpochName) -> Result<(), AllocError>
    ensures ok { OnOk result (string_bytes text.new ≡ string_bytes text.old ++ json_name name) }
{
    match name {
        EpochName::Origin => text.push_str("null"),
        EpochName::Of { replica, seq } => write!(text, "[{replica},{seq}]"),
    }
}

fn put_run(text: &mut String, run: &Run) -> Result<(), AllocError>
    ensures ok { OnOk result (string_bytes text.new ≡ string_bytes text.old ++ json_run run.now) }
{
    text.push_str("{\"first\":[")?;
    put_tuples(text, run.first())?;
    text.push_str("],\"length\":")?;
    let length = run.len();
    write!(text, "{length}")?;
    text.push('}')?;
    Ok(())
}

// The runs, with a comma between two.
fn put_runs(text: &mut String, runs: &[Run]) -> Result<(), AllocError>
    ensures ok { OnOk result (string_bytes text.new ≡ string_bytes text.old ++ join_with_byte 44 (map json_run runs.now)) }
{
    let Some((last, front)) = runs.split_last() else {
        return Ok(());
    };
    for run in front {
        put_run(text, run)?;
        text.push(',')?;
    }
    put_run(text, last)?;
    Ok(())
}

// The line of JSON that lists an epoch and runs, with its line feed: the compact text of the data.
#[tactic(auto, using(crate::proofs::Listed::ids_listed))]
fn ids_line(alloc: Global, epoch: EpochName, runs: &[Run]) -> Result<String, AllocError>
    ensures line { IfOk result (λ line. string_bytes line ≡ ids_text epoch runs.now) }
    ensures data { IfOk result (λ line. string_bytes line ≡ compact_text (ids_data epoch runs.now) ++ 10 ∷ []) }
{
    let mut line = String::new(alloc);
    line.push_str("{\"epoch\":")?;
    put_name(&mut line, epoch)?;
    line.push_str(",\"runs\":[")?;
    put_runs(&mut line, runs)?;
    line.push_str("]}\n")?;
    Ok(line)
}

/// The line of JSON that lists the replica's greatest epoch and the maximal runs of the identifiers of its text, with its line feed.
///
/// The time is that of `Replica::runs`, and linear in the number of tuples of the runs' first identifiers. Beside the line it takes
/// memory for one copy of these identifiers.
///
/// # Errors
///
/// Running out of memory alone.
pub fn ids_json(alloc: Global, replica: &Replica) -> Result<String, AllocError>
    ensures line { IfOk result (λ line. string_bytes line ≡ ids_over replica.now) }

    // For every history and waiting operations that the replica stands for.
    ensures stands { IfOk result (λ line. (t : State) → StandsFor replica.now t → string_bytes line ≡ ids_of t.history) }
{
    let runs = replica.runs()?;
    ids_line(alloc, replica.greatest(), runs.as_slice())
}
