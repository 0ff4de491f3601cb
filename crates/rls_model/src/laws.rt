//! Laws: facts over the definitions, for all values. Each call runs nothing and takes no memory; its contract states the fact.

ghost use Rattle.rls_model.specs.Laws.{Meaning, OrderKept, Inverse, LastKept, PathFree, Spanned, WindowSame, TestsEqual};
ghost use Rattle.rls_model.specs.Laws.{OneOrder, OrderAgreed, PastKept, EditAlone, MadeByEdits, Gathered, StrongList, ArrivalApplied, SentArrives, EditsAreEvents, OneGroup, CommandsClean};
ghost use Rattle.rls_model.specs.Laws.{OneTree, NoneUsed, AllUsed, OwnStems, Distinct, TextsAreCharacters, Stable, MadeFits, RenamedRun, InsertionLands};
ghost use Rattle.rls_model.specs.Laws.{KeptOn, ToldByWindow, Dropped, SameOperations, CutShort, EditApplied, WorldsLegal, EqualVectors, NoRefusal, EditsClean};
ghost use Rattle.rls_model.specs.Exchanges.{TurnsBring};
ghost use Rattle.rls_model.specs.Rounds.{AllTold, OneRound, OneHub};

/// A renaming takes a former identifier to the new one at its place, and what the old map of a gap gives to what its new map gives
/// (this project, after `renameId` of RenamableLogootSplit).
pub fn meaning()
    ensures meaning { Meaning }
{}

/// Each direction of a renaming keeps the order of all identifiers.
pub fn order_kept()
    ensures order_kept { OrderKept }
{}

/// Each direction of a renaming takes identifiers to identifiers and undoes the other.
pub fn inverse()
    ensures inverse { Inverse }
{}

/// Each direction of a renaming keeps the last tuple of what it doesn't rename.
pub fn last_kept()
    ensures last_kept { LastKept }
{}

/// Translation takes identifiers to identifiers, doesn't depend on the way and keeps the order.
pub fn path_free()
    ensures path_free { PathFree }
{}

/// The spanned part of a tree of epochs is connected, holds the given epochs, lies within each connected part that holds them, and
/// is listed in increasing order.
pub fn spanned()
    ensures spanned { Spanned }
{}

/// A window of the epochs gives for what it keeps the translations, the order, the greatest epochs and the spanned parts that the
/// whole gives.
pub fn window_same()
    ensures window_same { WindowSame }
{}

/// The test of two operations, field by field, says that they are equal.
pub fn tests_equal()
    ensures tests_equal { TestsEqual }
{}

/// The epochs of a legal history form one tree.
pub fn one_tree()
    ensures one_tree { OneTree }
{}

/// What the next operation of a member uses was used by none before; afterwards just this is used beside what was used before; and
/// the stems of a member depend on its own operations alone.
pub fn fresh()
    ensures none_used { NoneUsed }
    ensures all_used { AllUsed }
    ensures own_stems { OwnStems }
{}

/// In each epoch of a legal history two different characters have different identifiers.
pub fn distinct()
    ensures distinct { Distinct }
{}

/// The text of a legal history consists of characters.
pub fn texts_are_characters()
    ensures texts_are_characters { TextsAreCharacters }
{}

/// The stable vector is at most the count and at most the row of each member that hasn't left, and nothing that may follow lowers it.
pub fn stable()
    ensures stable { Stable }
{}

/// The operation that an accepted edit makes may follow.
pub fn made_fits()
    ensures made_fits { MadeFits }
{}

/// An accepted rename makes one run of the text, which an insertion right after it lengthens at its end or at its front.
pub fn renamed_run()
    ensures renamed_run { RenamedRun }
{}

/// An accepted insertion lands where it was asked for.
pub fn insertion_lands()
    ensures insertion_lands { InsertionLands }
{}

/// A legal history orders all characters that were ever inserted there: each legal history whose operations stand there shows its own
/// ones in this order, an edit does to them what was asked, and a deletion names just what was asked wherever it was accepted.
pub fn one_order()
    ensures one_order { OneOrder }
{}

/// Two legal histories that agree on the operations with one author and number order the characters of both alike.
pub fn order_agreed()
    ensures order_agreed { OrderAgreed }
{}

/// All epochs of a legal history are a window that keeps the retained ones, and such a window is one again after each entry.
pub fn kept_on()
    ensures kept_on { KeptOn }
{}

/// A window that keeps the retained epochs gives the greatest epoch, the greatest one within what is at least stable and the retained
/// ones, and keeps the epoch of each operation that is unstable or fits.
pub fn told_by_window()
    ensures told_by_window { ToldByWindow }
{}

/// Dropping all but the retained epochs leaves a window that keeps them.
pub fn dropped()
    ensures dropped { Dropped }
{}

/// Two legal histories with the same operations show the same text with the same identifiers at the same greatest epoch.
pub fn same_operations()
    ensures same_operations { SameOperations }
{}

/// An event that is cut short after no step changes nothing; after enough of them it is whole.
pub fn cut_short()
    ensures cut_short { CutShort }
{}

/// The operation that an edit makes is in the history after it, whatever is released after that.
pub fn edit_applied()
    ensures edit_applied { EditApplied }
{}

/// Another member's operation that arrives first under its number, has its shape and its causes, and fits, is applied and stands in the
/// history from then on.
pub fn arrival_applied()
    ensures arrival_applied { ArrivalApplied }
{}

/// In a world a member that takes a sent message then has each of its operations, or holds it until its causes are there.
pub fn sent_arrives()
    ensures sent_arrives { SentArrives }
{}

/// In a world where nobody edits any more, who is told each operation by somebody that knows it has all of them in the end, and nothing
/// waits. So one round of messages makes all members equal, in whatever order they are taken: one from each to each other one, or one from
/// each to one of them and then one from that one to each.
pub fn one_round()
    ensures all_told { AllTold }
    ensures one_round { OneRound }
    ensures one_hub { OneHub }
{}

/// Two members who send each other messages in turn, each by the counts that the other told last, get on, however little a message holds, as long as
/// it holds each single operation: whatever happened before, and however often they exchanged since, the next message brings its receiver an
/// operation that it lacked, or it lacks none that the sender has. So after as many messages as operations are missing, none is.
pub fn turns_bring()
    ensures turns_bring { TurnsBring }
{}

/// In a world each member's history is legal, and its waiting operations fit to it.
pub fn worlds_legal()
    ensures worlds_legal { WorldsLegal }
{}

/// In a world two members with equal vectors have the same operations and show the same.
pub fn equal_vectors()
    ensures equal_vectors { EqualVectors }
{}

/// In a world nothing is refused, and each waiting operation was made by its author.
pub fn no_refusal()
    ensures no_refusal { NoRefusal }
{}

/// In a world edits of one member, of which none is refused, release nothing that is refused.
pub fn edits_clean()
    ensures edits_clean { EditsClean }
{}

/// Whatever happens in a world, what a member's history was stays a front of it, and so does the history right after an edit.
pub fn past_kept()
    ensures past_kept { PastKept }
{}

/// In a world where no event was cut short an edit that isn't either adds its operation to the history, and nothing else.
pub fn edit_alone()
    ensures edit_alone { EditAlone }
{}

/// In a world each operation that a member knows was made by an edit of its author.
pub fn made_by_edits()
    ensures made_by_edits { MadeByEdits }
{}

/// The strong specification of lists: in a world some legal history has just the operations of all members, and it gives one total order
/// of all characters that were ever inserted, which whatever happens later keeps. Each member at each moment shows just those that were
/// inserted and not deleted as it knows, in this order; an edit does to its list what was asked; and a deletion deletes, at each member
/// that knows it, just what was asked.
pub fn strong_list()
    ensures gathered { Gathered }
    ensures strong_list { StrongList }
{}

/// Edits of one member, of which none is refused, lead to the world that their events lead to.
pub fn edits_are_events()
    ensures edits_are_events { EditsAreEvents }
{}

/// In a world each member has its own number, and all members and all sent messages have one group and one count of members.
pub fn one_group()
    ensures one_group { OneGroup }
{}

/// Whatever members that began afresh were told, runs of edits, messages to be sent and to be taken, each done whole or not at all, none
/// reports a refused operation, and two that have equal counts show the same.
pub fn commands_clean()
    ensures commands_clean { CommandsClean }
{}
