//! The lines that are printed, each as it is defined.

use rls_ident::{EpochName, Ident, Tuple, Vector};
use rls_model::{Counts, Refusal};
use rls_ops::Shape;
use rls_report::{
    CommandError, Failure, Fault, LineFault, edit_report, failure_line, new_report, refusal_line,
    stat_report, take_report, trial_report,
};
use std::alloc::{AllocError, Global};
use std::sync::Arc;
use std::test::Fail;
use test_steps::told::{Deed, ORIGIN, at, op_of};

/// Whether the text is this line.
fn is(text: Result<String, AllocError>, line: &str) -> Result<bool, AllocError> {
    Ok(text?.as_str() == line)
}

/// Whether the failure has this status and this line.
fn fails(alloc: Global, failure: Failure, status: u8, line: &str) -> Result<bool, AllocError> {
    Ok(failure.status() == status && is(failure_line(alloc, failure), line)?)
}

const USAGE: &str =
    "usage: new GROUP ME MEMBERS | edit | text | ids | stat | send TO | take | leave | trial SEED STEPS\n";

#[test]
fn failures(rt: HostRuntime) -> Result<(), Fail> {
    let alloc = rt.alloc();
    assert!(rt; fails(alloc, Failure::NoCommand, 1, USAGE)?);
    let errors: &[(CommandError, u8, &str)] = &[
        (CommandError::NoReplica, 2, "no replica\n"),
        (CommandError::ReplicaExists, 2, "replica exists\n"),
        (CommandError::Damaged { at: 71 }, 3, "damaged at 71\n"),
        (
            CommandError::BadMembers { members: 65 },
            4,
            "bad members 65\n",
        ),
        (CommandError::BadMe { me: 2 }, 4, "bad me 2\n"),
        (CommandError::NotMember { to: 2 }, 4, "not a member 2\n"),
        (CommandError::BadLine { line: 2 }, 4, "bad line 2\n"),
        (CommandError::Malformed { at: 76 }, 4, "malformed at 76\n"),
        (
            CommandError::OtherGroup {
                group: 8,
                members: 2,
            },
            4,
            "other group 8 2\n",
        ),
        (CommandError::TooLarge, 11, "too large\n"),
    ];
    for (error, status, line) in errors {
        let failure = Failure::Command { error: *error };
        assert!(rt; fails(alloc, failure, *status, line)?, "{line}");
    }
    Ok(())
}

#[test]
fn faults(rt: HostRuntime) -> Result<(), Fail> {
    let faults: &[(Fault, u8, &str)] = &[
        (Fault::Keeper, 7, "keeper fault\n"),
        (Fault::Source, 8, "source fault\n"),
        (Fault::Sink, 9, "sink fault\n"),
        (Fault::Memory, 10, "out of memory\n"),
    ];
    for (fault, status, line) in faults {
        let failure = Failure::Fault { fault: *fault };
        assert!(rt; fails(rt.alloc(), failure, *status, line)?, "{line}");
        assert!(rt; fault.line() == *line, "{line}");
    }
    Ok(())
}

#[test]
fn refused_edits(rt: HostRuntime) -> Result<(), Fail> {
    let cases: &[(LineFault, &str)] = &[
        (LineFault::Left, "line 3: left\n"),
        (LineFault::EmptyEdit, "line 3: empty edit\n"),
        (LineFault::Range { at: 9, total: 6 }, "line 3: range 9 6\n"),
        (LineFault::EmptyDocument, "line 3: empty document\n"),
        (
            LineFault::TooManyChars { total: 5_242_880 },
            "line 3: too many characters 5242880\n",
        ),
        (LineFault::NumbersSpent, "line 3: numbers spent\n"),
        (
            LineFault::OpTooLarge { bytes: 26_214_422 },
            "line 3: operation too large 26214422\n",
        ),
        (
            LineFault::NotBoundary { at: 2 },
            "line 3: not a boundary 2\n",
        ),
    ];
    for (fault, line) in cases {
        let error = CommandError::Edit {
            line: 3,
            fault: *fault,
        };
        let failure = Failure::Command { error };
        assert!(rt; fails(rt.alloc(), failure, 6, line)?, "{line}");
    }
    Ok(())
}

/// Whether the refused operation (1, 2) has this line.
fn is_refused(alloc: Global, refusal: &Refusal, line: &str) -> Result<bool, AllocError> {
    is(refusal_line(alloc, 1, 2, refusal), line)
}

/// Why an operation is refused, if this is told in numbers alone.
enum Reason {
    Own(u32),
    Left(u32),
    Shape(Shape),
    Stem(Option<u32>),
    Epoch(EpochName),
}

/// The refusal for this reason.
fn refusal_of(reason: &Reason) -> Refusal {
    match reason {
        Reason::Own(seq) => Refusal::Own { seq: *seq },
        Reason::Left(seq) => Refusal::Left { seq: *seq },
        Reason::Shape(shape) => Refusal::Shape(*shape),
        Reason::Stem(due) => Refusal::WrongStem { due: *due },
        Reason::Epoch(due) => Refusal::WrongEpoch { due: *due },
    }
}

const REASONS: &[(Reason, &str)] = &[
    (Reason::Own(2), "refused 1 2 own\n"),
    (Reason::Left(1), "refused 1 2 left 1\n"),
    (Reason::Shape(Shape::Author), "refused 1 2 author\n"),
    (Reason::Shape(Shape::Context), "refused 1 2 context\n"),
    (Reason::Shape(Shape::EmptyBody), "refused 1 2 empty\n"),
    (
        Reason::Shape(Shape::TooLong { n: 1_048_577 }),
        "refused 1 2 too long 1048577\n",
    ),
    (Reason::Shape(Shape::OffsetEnd), "refused 1 2 offset end\n"),
    (Reason::Stem(None), "refused 1 2 wrong stem none\n"),
    (Reason::Stem(Some(0)), "refused 1 2 wrong stem 0\n"),
    (Reason::Stem(Some(5)), "refused 1 2 wrong stem 5\n"),
    (Reason::Epoch(ORIGIN), "refused 1 2 wrong epoch origin\n"),
    (
        Reason::Epoch(EpochName::Of { replica: 3, seq: 4 }),
        "refused 1 2 wrong epoch 3 4\n",
    ),
];

/// Whether an operation that is refused for this reason has this line.
fn is_refused_for(alloc: Global, reason: &Reason, line: &str) -> Result<bool, AllocError> {
    is_refused(alloc, &refusal_of(reason), line)
}

#[test]
fn refusals_in_numbers(rt: HostRuntime) -> Result<(), Fail> {
    for (reason, line) in REASONS {
        assert!(rt; is_refused_for(rt.alloc(), reason, line)?, "{line}");
    }
    Ok(())
}

/// Whether an operation that forks another has its line.
fn is_refused_as_forked(alloc: Global) -> Result<bool, Fail> {
    let leave = op_of(alloc, (0, 1, &[0, 0], ORIGIN, Deed::Leave))?;
    let held = Arc::new(alloc, leave)?;
    let line = "refused 1 2 forked\n";
    Ok(is_refused(alloc, &Refusal::Forked { held }, line)?)
}

/// Whether a context that goes backward has its line.
fn is_refused_as_backward(alloc: Global) -> Result<bool, AllocError> {
    let known = Vector::from_counts(alloc, &[1, 0, 4_294_967_295])?;
    let line = "refused 1 2 backward 1 0 4294967295\n";
    is_refused(alloc, &Refusal::Backward { known }, line)
}

/// Whether a target that isn't known has its line.
fn is_refused_for_target(alloc: Global) -> Result<bool, Fail> {
    let tuples = [Tuple::Low, Tuple::High, at(5, 1, 1, -2)];
    let id = Ident::from_tuples(alloc, &tuples)?;
    let line = "refused 1 2 unknown target low/high/5.1.1.-2\n";
    Ok(is_refused(alloc, &Refusal::UnknownTarget { id }, line)?)
}

#[test]
fn other_refusals(rt: HostRuntime) -> Result<(), Fail> {
    let alloc = rt.alloc();
    assert!(rt; is_refused_as_forked(alloc)? && is_refused_as_backward(alloc)?);
    assert!(rt; is_refused_for_target(alloc)?);
    Ok(())
}

/// Whether the state of a replica is reported in these lines.
fn is_state(alloc: Global, lines: &str) -> Result<bool, AllocError> {
    let accepted = Vector::from_counts(alloc, &[1, 0])?;
    let counts = Counts {
        total: 5,
        runs: 1,
        held: 0,
        unstable: 1,
        epochs: 1,
        former: 0,
    };
    is(stat_report(alloc, 7, 0, 2, &accepted, &counts), lines)
}

/// Whether a trial of three members is reported in these lines.
fn is_trial(alloc: Global, lines: &str) -> Result<bool, AllocError> {
    let members = [(8, 1), (8, 1), (8, 1)];
    is(
        trial_report(alloc, 42, 1, &[0, 1, 0], &members, 1, 0),
        lines,
    )
}

const STATE: &str =
    "group 7\nme 0\nmembers 2\naccepted 1 0\ntotal 5\nruns 1\nheld 0\nunstable 1\nepochs 1\nformer 0\n";

const TRIAL: &str =
    "trial 42 1\naccepted 0 1 0\nmember 0 total 8 runs 1\nmember 1 total 8 runs 1\nmember 2 total 8 runs 1\nepochs 1 former 0\n";

#[test]
fn reports(rt: HostRuntime) -> Result<(), Fail> {
    let alloc = rt.alloc();
    let edits = "edits 1 released 2 refused 3\n";
    let taken = "applied 1 released 2 repeated 3 held 4 refused 5\n";
    assert!(rt; is(new_report(alloc, 7, 0, 2), "new 7 0 2\n")?);
    assert!(rt; is(edit_report(alloc, 1, 2, 3), edits)?);
    assert!(rt; is(take_report(alloc, 1, 2, 3, 4, 5), taken)?);
    assert!(rt; is_state(alloc, STATE)? && is_trial(alloc, TRIAL)?);
    Ok(())
}
