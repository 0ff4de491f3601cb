//! Laws of files and of stored replicas. Each call runs nothing and takes no memory; its contract states the fact.

ghost use Rattle.rls_file.specs.FileLaws.{FilesAreRead, ReadAreFiles, JournalsAreRead, PlacesOfBroken, PartsAreGiven};
ghost use Rattle.rls_file.specs.Histories.{FreshIsStorable, LinesKeepStorable, SentIsMessage, StorableIsReadBack, TakenIsStorable, ToldIsMessage};
ghost use Rattle.rls_file.specs.InFlight.{InFlight};
ghost use Rattle.rls_file.specs.Kept.{FreshIsWritable, LinesKeepWritable, LoadedIsWritable, TakenIsWritable};
ghost use Rattle.rls_file.specs.Stored.{StoredAgain};

/// A file is read exactly where the bytes are one, of any form: what is spelled is read, and what is read is spelled so.
pub fn files()
    ensures spelled { FilesAreRead }
    ensures read { ReadAreFiles }
{}

/// The journal of a legal history is read back, with what waits.
pub fn journals()
    ensures journals { JournalsAreRead }
{}

/// A broken rule of a snapshot has the place of the first byte of what it names: an entry, or the number of a list.
pub fn places()
    ensures places { PlacesOfBroken }
{}

/// The parts that a file spells meet all that is asked of parts before their rules are tested.
pub fn given()
    ensures given { PartsAreGiven }
{}

/// What is stored is a file again: the parts of a replica have a spelling and break no rule, so that they are read back.
pub fn stored_again()
    ensures stored_again { StoredAgain }
{}

/// What a file says, also one of an older form or a forged one, is sane and may be written as a file again.
pub fn loaded()
    ensures loaded { LoadedIsWritable }
{}

/// A fresh replica may be written as a file, and one that may be written still may after edits without a fault and after a message,
/// each with the releases that follow it.
pub fn stays_writable<L, F>()
    ensures fresh { FreshIsWritable }
    ensures lines { LinesKeepWritable L F }
    ensures taken { TakenIsWritable }
{}

/// A history of which each operation has a spelling goes on as one, from the one in which nothing has happened, by edits without a fault
/// and by messages. What it sends has a spelling, and what is stored of a replica that stands for it is read back.
pub fn histories_are_stored<L, F>()
    ensures fresh { FreshIsStorable }
    ensures lines { LinesKeepStorable L F }
    ensures taken { TakenIsStorable }
    ensures sent { SentIsMessage }
    ensures told { ToldIsMessage }
    ensures read_back { StorableIsReadBack }
{}

/// A file keeps one operation for each count that isn't stable. If every member that hasn't left has acknowledged all, it keeps no
/// operation and one epoch, without a former list.
pub fn in_flight()
    ensures in_flight { InFlight }
{}
