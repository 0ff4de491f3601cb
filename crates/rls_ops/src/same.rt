//! Equal operations.

ghost use Rattle.std.specs.Prelude.{◌≡◌, ◌↔◌, IsTrue, length};
ghost use Rattle.rls_ident.specs.Identifiers.{ident_eq};
ghost use Rattle.rls_ops.specs.Same.{numbers_eq, idents_eq, body_eq, op_eq};

use crate::op::{Body, Op};
use rls_ident::{Ident, Vector};
use rls_runs::{Run, Runs, Text};

impl Op {
    /// Whether it is equal to another in every field. Lists of identifiers are compared run by run.
    /// It takes no memory.
    pub fn same(&self, other: &Op) -> bool
        ensures same { result ≡ op_eq self.now other.now }
    {
        self.author == other.author
            && self.seq == other.seq
            && same_counts(&self.context, &other.context)
            && self.epoch.same(&other.epoch)
            && same_body(&self.body, &other.body)
    }
}

fn same_counts(vector: &Vector, other: &Vector) -> bool
    ensures same { result ≡ numbers_eq vector.now other.now }
{
    vector.counts().cmp(other.counts()).is_eq()
}

fn same_ident(ident: &Ident, other: &Ident) -> bool
    ensures same { result ≡ ident_eq ident.now other.now }
{
    ident.compare(other).is_eq()
}

fn same_body(body: &Body, other: &Body) -> bool
    ensures same { result ≡ body_eq body.now other.now }
{
    match (body, other) {
        (
            Body::Insert { first, text },
            Body::Insert {
                first: other_first,
                text: other_text,
            },
        ) => same_ident(first, other_first) && same_text(text, other_text),
        (
            Body::Delete { targets },
            Body::Delete {
                targets: other_targets,
            },
        ) => same_idents(targets, other_targets),
        (
            Body::Rename { former },
            Body::Rename {
                former: other_former,
            },
        ) => same_idents(former, other_former),
        (Body::Leave, Body::Leave) => true,
        _ => false,
    }
}

fn same_idents(idents: &Runs, others: &Runs) -> bool
    ensures same { result ≡ idents_eq idents.now others.now }
{
    same_runs(idents.as_slice(), others.as_slice())
}

fn same_run(run: &Run, other: &Run) -> bool
    ensures same { IsTrue result ↔ (run.now ≡ other.now) }
{
    run.len() == other.len() && same_ident(run.first(), other.first())
}

fn same_runs(runs: &[Run], others: &[Run]) -> bool
    ensures same { IsTrue result ↔ (runs.now ≡ others.now) }
{
    if runs.len() != others.len() {
        return false;
    }
    for i in 0..runs.len() {
        if !same_run(&runs[i], &others[i]) {
            return false;
        }
    }
    true
}

fn same_text(text: &Text, other: &Text) -> bool
    ensures same { result ≡ numbers_eq text.now other.now }
{
    if text.len() != other.len() {
        return false;
    }
    for i in 0..text.len() {
        if text.get(i) != other.get(i) {
            return false;
        }
    }
    true
}
