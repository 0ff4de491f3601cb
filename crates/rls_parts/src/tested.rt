//! All rules, one after another.

ghost use Rattle.std.specs.Prelude.{◌≡◌, ℕ, [], None, Some, IfOk, IsErrOf, OnOk};
ghost use Rattle.rls_parts.specs.Given.{AreGiven};
ghost use Rattle.rls_parts.specs.Reading.{epochs_of, stable_of_parts};
ghost use Rattle.rls_parts.specs.Rules.{broken, row_fault, stem_fault, epoch_fault, text_fault};
ghost use Rattle.rls_parts.specs.Whole.{IsMade};

use crate::StemTable;
use crate::epochs::tree;
use crate::held::held_fault;
use crate::log::log_fault;
use crate::retained::are_retained;
use crate::rows::{acks, row_fault};
use crate::stems::{stem_fault, table};
use crate::text::text_fault;
use rls_epoch::Epochs;
use rls_ident::Vector;
use rls_model::Parts;
use rls_stable::Acks;
use std::alloc::{AllocError, Global};

/// Why parts are no replica's.
#[derive(Clone, Copy, Debug, PartialEq, Eq)]
pub enum PartsError {
    /// The first rule that is broken, and the place in its list of the first entry that breaks it.
    Broken { rule: u8, index: u64 },
    OutOfMemory,
}

impl From<AllocError> for PartsError {
    ghost use Rattle.std.specs.Prelude.{◌≡◌};
    ghost use Rattle.rls_parts.specs.declared.tested.PartsError.TheVariants.{OutOfMemory};

    ghost from_gives = { λ _ e. e ≡ OutOfMemory };

    fn from(_: AllocError) -> PartsError {
        PartsError::OutOfMemory
    }
}

/// What is made of a replica where its parts are tested.
#[derive(Drop)]
pub struct Tested {
    pub acks: Acks,
    pub stems: StemTable,
    pub epochs: Epochs,
}

/// Tests the rules in their order. Rules 3 and 4 cost what `tree` and `text_fault` say, each other one a step for each entry.
///
/// # Errors
///
/// `Broken` exactly where a rule is broken, unless memory runs out.
pub fn test_all(alloc: Global, parts: &Parts) -> Result<Tested, PartsError>
    requires given { AreGiven parts.now }
    ensures made { IfOk result (IsMade parts.now) }
    ensures broken { (rule index : ℕ) → IsErrOf result (PartsError.Broken rule index) → broken parts.now ≡ Some (record { rule = rule; index = index }) }
{
    test_rows_and_stems(parts)?;
    let stems = table(alloc, parts)?;
    let epochs = test_epochs_and_text(alloc, parts, &stems)?;
    let acks = acks(alloc, parts)?;
    test_operations(alloc, parts, &epochs, acks.stable())?;
    Ok(Tested {
        acks,
        stems,
        epochs,
    })
}

// Rules 1 and 2.
fn test_rows_and_stems(parts: &Parts) -> Result<(), PartsError>
    requires given { AreGiven parts.now }
    ensures rows { OnOk result (row_fault parts.now 0 parts.now.rows ≡ None) }
    ensures stems { OnOk result (stem_fault parts.now None 0 parts.now.stems ≡ None) }
    ensures broken { (rule index : ℕ) → IsErrOf result (PartsError.Broken rule index) → broken parts.now ≡ Some (record { rule = rule; index = index }) }
{
    if let Some(index) = row_fault(parts) {
        return Err(PartsError::Broken { rule: 1, index });
    }
    if let Some(index) = stem_fault(parts) {
        return Err(PartsError::Broken { rule: 2, index });
    }
    Ok(())
}

// Rules 3 and 4, where those before them are kept. Answers the epochs.
fn test_epochs_and_text(
    alloc: Global,
    parts: &Parts,
    stems: &StemTable,
) -> Result<Epochs, PartsError>
    requires given { AreGiven parts.now }
    requires rows { row_fault parts.now 0 parts.now.rows ≡ None }
    requires stems { stem_fault parts.now None 0 parts.now.stems ≡ None }
    requires stems_are { stems.now.stems ≡ parts.now.stems }
    ensures epochs { IfOk result (λ epochs. epochs.epochs ≡ epochs_of parts.now) }
    ensures rule { OnOk result (epoch_fault parts.now [] parts.now.epochs ≡ None) }
    ensures text { OnOk result (text_fault parts.now 0 parts.now.text ≡ None) }
    ensures broken { (rule index : ℕ) → IsErrOf result (PartsError.Broken rule index) → broken parts.now ≡ Some (record { rule = rule; index = index }) }
{
    let epochs = match tree(alloc, parts, stems)? {
        Ok(epochs) => epochs,
        Err(index) => return Err(PartsError::Broken { rule: 3, index }),
    };
    if let Some(index) = text_fault(alloc, parts, stems, &epochs)? {
        return Err(PartsError::Broken { rule: 4, index });
    }
    Ok(epochs)
}

// Rules 5 to 8, where those before them are kept.
fn test_operations(
    alloc: Global,
    parts: &Parts,
    epochs: &Epochs,
    stable: &Vector,
) -> Result<(), PartsError>
    requires given { AreGiven parts.now }
    requires rows { row_fault parts.now 0 parts.now.rows ≡ None }
    requires stems { stem_fault parts.now None 0 parts.now.stems ≡ None }
    requires rule { epoch_fault parts.now [] parts.now.epochs ≡ None }
    requires text { text_fault parts.now 0 parts.now.text ≡ None }
    requires epochs_are { epochs.now.epochs ≡ epochs_of parts.now }
    requires stable_is { stable.now ≡ stable_of_parts parts.now }
    ensures unbroken { OnOk result (broken parts.now ≡ None) }
    ensures broken { (rule index : ℕ) → IsErrOf result (PartsError.Broken rule index) → broken parts.now ≡ Some (record { rule = rule; index = index }) }
{
    match log_fault(parts, epochs, stable)? {
        Err(index) => return Err(PartsError::Broken { rule: 5, index }),
        Ok(false) => return Err(PartsError::Broken { rule: 6, index: 0 }),
        Ok(true) => {}
    }
    if !are_retained(alloc, parts, epochs, stable)? {
        return Err(PartsError::Broken { rule: 7, index: 0 });
    }
    if let Some(index) = held_fault(parts) {
        return Err(PartsError::Broken { rule: 8, index });
    }
    Ok(())
}
