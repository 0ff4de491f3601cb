//! Laws of passages. Each call runs nothing and takes no memory; its contract states the fact.

ghost use Rattle.rls_passages.specs.Lasting.{WorldsLast};
ghost use Rattle.rls_passages.specs.Limits.{Limits};
ghost use Rattle.rls_passages.specs.Passages.{MadeApart, PassagesStay, PastsMade, WorldsApart, WritesBefore, WritesOn};

/// In a legal history of which edits made all operations, who writes between two neighbours of a passage has seen one of them; so
/// passages that were written apart stand apart, and concurrent insertions do.
pub fn made_apart()
    ensures made_apart { MadeApart }
{}

/// In a world passages that were written apart stand apart.
pub fn worlds_apart()
    ensures worlds_apart { WorldsApart }
{}

/// In a world a character that was inserted is shown by each history of a member that has its insertion, unless that history has a deletion
/// too that was to take out this character, of a member that was shown it. And it stands, for all members and for ever, between what its own
/// member was shown before the place and behind it.
pub fn worlds_last()
    ensures worlds_last { WorldsLast }
{}

/// Who writes right behind the end of an own passage goes on with it, unless something was written there already.
pub fn writes_on()
    ensures writes_on { WritesOn }
{}

/// Who writes right before the start of an own passage begins it anew there, unless something was written there already.
pub fn writes_before()
    ensures writes_before { WritesBefore }
{}

/// Edits made all operations of a member's history in a world, now and earlier.
pub fn pasts_made()
    ensures pasts_made { PastsMade }
{}

/// A passage stays one, whatever else is known.
pub fn passages_stay()
    ensures passages_stay { PassagesStay }
{}

/// Where passages end, by three worked examples: an operation that no edit makes, a passage with a correction in it, and one that goes
/// on behind a character that a rename took.
pub fn limits()
    ensures limits { Limits }
{}
