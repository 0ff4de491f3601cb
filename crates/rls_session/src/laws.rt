//! Laws: facts over the definitions, for all values. Each call runs nothing and takes no memory; its contract states the fact.

ghost use Rattle.rls_session.specs.Costs.{RenamesAsTold};
ghost use Rattle.rls_session.specs.Drafts.{MergesShown};
ghost use Rattle.rls_session.specs.SessionLaws.{ChangesAreEdits, ChangesShow, CoursesAreRequests, DraftsAreMade, ToldIsFound};
ghost use Rattle.rls_session.specs.Remembering.{TextsAlong, TextsAtFirst, TextsStay};
ghost use Rattle.rls_session.specs.Turns.{TurnsTakeOwn, UndoneAtOnce};

/// The word that `a AT` answers is found by `l` at the same replica: where nothing has happened since, the reply is AT.
pub fn told_places_are_found()
    ensures found { ToldIsFound }
{}

/// What `o` tells of a rename's size is what decides at the same replica: above the limit no rename is made, and one that is refused as too large is
/// refused with this number.
pub fn renames_as_told()
    ensures told { RenamesAsTold }
{}

/// Where a change goes on with a draft, the text with both in it is the one with the draft in it, changed so.
pub fn merges_shown()
    ensures shown { MergesShown }
{}

/// A draft that was kept is never refused when it is made, and the text is then what was shown.
pub fn drafts_are_made()
    ensures made { DraftsAreMade }
{}

/// After each `e` that is answered `ok` the text that is shown is the one before with that replacement, and after one that is refused the
/// one before, where nothing waits for the operations of the draft before it. In a group nothing ever does.
pub fn changes_shown()
    ensures shown { ChangesShow }
{}

/// What a session with `e` does is what the session without it does in which each draft's edits stand in its place, as lines `i` and `d`:
/// the replica, and so the file and the messages, and all else that the session works on are the same, and so is the answer to each other
/// request; where nothing waits for these edits. In a group nothing ever does.
pub fn changes_are_edits()
    ensures edits { ChangesAreEdits }
    ensures requests { CoursesAreRequests }
{}

/// Whatever others did, and unless an edit is refused, `z` and `y` take a group back and do it again step by step: only own characters of the
/// group that are still in the text go, what was cut out comes back beside its neighbour, and nothing else changes.
pub fn turns_take_own()
    ensures own { TurnsTakeOwn }
{}

/// As long as nobody else edits, `z` leads back to the text before the last group, and as many of them as there are groups through all
/// texts before groups, and `y` forward again: over every request, from the beginning of a session on, and over stores.
pub fn texts_remembered()
    ensures first { TextsAtFirst }
    ensures along { TextsAlong }
    ensures stay { TextsStay }
{}

/// An edit that `u` takes back at once gives the text before, unless an edit of that is refused.
pub fn undone_at_once()
    ensures undone { UndoneAtOnce }
{}
