//! Laws of taking back, for all values. Each call runs nothing and takes no memory; its contract states the fact.

ghost use Rattle.rls_steps.specs.BackLaws.{PutBack, CutBack, Exchanged, ReturnsBeside};
ghost use Rattle.rls_steps.specs.Courses.{AsCopied, AsCopiedFromFirst, UndoneAndRedone, TakesOwnAlone};
ghost use Rattle.rls_steps.specs.Forgetting.{ForgettingShows};
ghost use Rattle.rls_steps.specs.GroundLaws.{RecordedAlike, TurnedAlike, KeptAlike, TurnedPerformed, TurnedPerformedIn, TurnedEditsAlike};
ghost use Rattle.rls_steps.specs.Parts.{DeletionShows};
ghost use Rattle.rls_steps.specs.Recorded.{RenamingShows};
ghost use Rattle.rls_steps.specs.Sweeping.{SweepingShows};
ghost use Rattle.rls_steps.specs.StepChanges.{PieceChanges};
ghost use Rattle.rls_steps.specs.StepLaws.{LabelledLead, CutTakenBack, PutTakenBack, InsertionLeads, DeletionLeads, RenamingLeads, AppliedRenames};

/// A step that is taken back leaves the text before it, and those below it as they were; the step that does it again stands on the other
/// side.
pub fn taken_back()
    ensures put { PutBack }
    ensures cut { CutBack }
    ensures beside { ReturnsBeside }
{}

/// What steps lead back to doesn't depend on the names of characters: neither labels that further characters get nor renames change it.
pub fn exchanged()
    ensures exchanged { Exchanged }
{}

/// At a replica: neither labels that characters get nor a rename changes anything, and what was cut out comes back as it was.
pub fn returned()
    ensures labelled { LabelledLead }
    ensures renamed { RenamingLeads }
    ensures applied { AppliedRenames }
    ensures cut { CutTakenBack }
{}

/// At a replica: an own insertion and an own deletion are steps, and what was put in goes again.
pub fn stepped()
    ensures insertion { InsertionLeads }
    ensures deletion { DeletionLeads }
    ensures put { PutTakenBack }
{}

/// Whatever own edits, undos, redos and renames follow one another, the text is that of an editor that keeps a copy of each text; there
/// k undos give the text before the last k pieces, and k redos after them give all back.
pub fn as_copied()
    ensures course { AsCopied }
    ensures first { AsCopiedFromFirst }
    ensures undone { UndoneAndRedone }
{}

/// Whatever others did, a piece that is taken back takes out just its own characters that are still there, or puts its text in at its
/// place, and changes nothing else.
pub fn own_alone()
    ensures own { TakesOwnAlone }
{}

/// A deletion that leaves several pieces is a step of an editor that keeps a copy of each text, with texts in between; and renames,
/// whoever made them, change nothing of what is recorded. If the oldest steps are forgotten, the others lead to their texts as before, and so they do
/// if names go that no step needs.
pub fn followed()
    ensures deletion { DeletionShows }
    ensures renaming { RenamingShows }
    ensures forgetting { ForgettingShows }
    ensures sweeping { SweepingShows }
{}

/// What is recorded over a replica's parts is what is recorded over each history that the replica stands for: after an edit, a group that
/// is taken back or done again, also up to an edit that is refused, and a sweep. Such a group is some edits, one after another.
pub fn agreed()
    ensures recorded { RecordedAlike }
    ensures turned { TurnedAlike }
    ensures kept { KeptAlike }
    ensures performed { TurnedPerformed }
    ensures performed_in { TurnedPerformedIn }
    ensures edits { TurnedEditsAlike }
{}

/// The changes of a step that is taken back, played over the text before, give the text after. Of what was put in just what is still there
/// goes, and nothing comes.
pub fn changed()
    ensures changed { PieceChanges }
{}
