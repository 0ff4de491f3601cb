//! Laws: facts over the definitions, for all values. Each call runs nothing and takes no memory; its contract states the fact.

ghost use Rattle.rls_changes.specs.ChangesLaws.{ChangesPlayed, ChangesExact, OwnChanges, ChangesAlike, TellsBeside, TakenPlayed, TakenAlike, ReleasedAlike};
ghost use Rattle.rls_changes.specs.Edits.{EditsPlayed, AllPerformed, EditsExact, PerformedAlike};

/// The changes of an accepted operation, played one after another over the text before, give the text after, and they insert and delete
/// no more than that: just the characters that are new, and as many as are gone.
pub fn played()
    ensures played { ChangesPlayed }
    ensures exact { ChangesExact }
{}

/// The change of an own insertion or deletion is itself.
pub fn own()
    ensures own { OwnChanges }
{}

/// The changes are those of each history that the replica stands for: of an operation, of a message or some of its steps, of releases
/// until none is ready, and of own edits up to the first that is refused.
pub fn alike()
    ensures alike { ChangesAlike }
    ensures taken { TakenAlike }
    ensures released { ReleasedAlike }
    ensures performed { PerformedAlike }
{}

/// Taking a message with its changes does what taking it does, and the changes lead from the text before to the text after.
pub fn taken()
    ensures beside { TellsBeside }
    ensures played { TakenPlayed }
{}

/// What own edits change, one after another up to the first that is refused, leads from the text before to the text after. It inserts just
/// the characters that they insert, and deletes as many as they do.
pub fn edited()
    ensures played { EditsPlayed }
    ensures all { AllPerformed }
    ensures exact { EditsExact }
{}
