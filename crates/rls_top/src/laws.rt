//! Laws of commands. Each function runs nothing and takes no memory; its contract states the fact.

ghost use Rattle.rls_top.specs.Groups.{GroupsClean};

/// Whatever commands the members of a group give, each over its own file, and however the messages that they write are passed on,
/// repeated or lost: no command calls for a refused operation, edits release nothing, what waits was made by its author, each written
/// message is taken unless the file to be stored is too long, members whose counts are equal show the same text and identifiers, and one
/// order orders the texts of all files at all times.
pub fn groups_clean()
    ensures groups_clean { GroupsClean }
{}
