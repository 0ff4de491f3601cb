//! Laws: facts over the definitions, for all values. Each call runs nothing and takes no memory; its contract states the fact.

ghost use Rattle.rls_seen.specs.SeenLaws.{FreshStands, ReceivedStands, ReplayedStands, ReleasedStands, ReleasedAllStands};
ghost use Rattle.rls_seen.specs.SeenLaws.{AcknowledgedStands, EditedStands, TakenStands, MachinesAgree, EditsRunAlike, MessageAlike, ToldAlike, ShownAlike, NumbersAlike, DroppedStands};
ghost use Rattle.rls_seen.specs.SeenLaws.{FreshSane, ReceivedSane, ReleasedSane, AcknowledgedSane, EditedSane, DroppedSane, InsertsNew, EpochsKept};

/// A fresh replica stands for the history in which nothing has happened, and is sane.
pub fn fresh()
    ensures stands { FreshStands }
    ensures sane { FreshSane }
{}

/// A replica that receives an operation answers as each history does that it stands for, stands for the history afterwards, and
/// stays sane; so where its own operations are taken too.
pub fn received()
    ensures stands { ReceivedStands }
    ensures replayed { ReplayedStands }
    ensures sane { ReceivedSane }
{}

/// A replica that releases what is ready answers as each history does that it stands for, stands for the history afterwards, and
/// stays sane.
pub fn released()
    ensures stands { ReleasedStands }
    ensures all { ReleasedAllStands }
    ensures sane { ReleasedSane }
{}

/// A replica notes an acknowledgement just where each history does that it stands for, stands for the history afterwards, and stays
/// sane.
pub fn acknowledged()
    ensures stands { AcknowledgedStands }
    ensures sane { AcknowledgedSane }
{}

/// A replica refuses an edit, or makes an operation of it, as each history does that it stands for. What it makes may be applied,
/// and then it stands for the history afterwards and stays sane.
pub fn edited()
    ensures stands { EditedStands }
    ensures sane { EditedSane }
{}

/// A replica that takes a message, or some of its steps, counts and refuses what each history does that it stands for, and stands
/// for the history afterwards.
pub fn taken()
    ensures stands { TakenStands }
{}

/// A replica and each history that it stands for, given the same operations, acknowledgements and edits, answer, release and refuse
/// alike, one step after another: the parts of a replica implement what is specified by histories. So edits, one after another, are
/// all made on both, or stop on both at the same one for the same fault.
pub fn machines()
    ensures agree { MachinesAgree }
    ensures edits { EditsRunAlike }
{}

/// The message for a member is that of each history that the replica stands for, whatever was dropped; so is the one for a member that told these
/// counts.
pub fn message()
    ensures alike { MessageAlike }
    ensures told { ToldAlike }
{}

/// The text, its identifiers, the greatest epoch and the vector are those of each history that the replica stands for.
pub fn shown()
    ensures alike { ShownAlike }
{}

/// The numbers and the parts are those of each history that the replica stands for, whatever was dropped.
pub fn numbers()
    ensures alike { NumbersAlike }
{}

/// A replica that drops what is stable stands for the same histories and stays sane; it keeps as many operations as are unstable,
/// and as many epochs and former identifiers as are retained.
pub fn dropped()
    ensures stands { DroppedStands }
    ensures sane { DroppedSane }
{}

/// The identifiers that an insertion adds rise, and none of them is in the text.
pub fn inserts_new()
    ensures new { InsertsNew }
{}

/// The epoch of an operation that may be applied is kept, and the one that it may open isn't kept yet.
pub fn epochs_kept()
    ensures kept { EpochsKept }
{}
