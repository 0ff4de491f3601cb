//! Laws: facts over the definitions, for all values. Each call runs nothing and takes no memory; its contract states the fact.

ghost use Rattle.rls_places.specs.PlacesLaws.{AreOneWord, LocatedBack, ReadBack};

/// A place is written as one word of ASCII, and that is read as the same place, whatever its side, epoch and identifier are. So at the
/// replica where it was written, and where nothing has happened since, it is where it was.
pub fn read_back()
    ensures word { AreOneWord }
    ensures back { ReadBack }
    ensures located { LocatedBack }
{}
