//! The laws of histories, for any object.
ghost use Rattle.pass_book.specs.Laws.{EntryAdded, EntriesAdded, NoteTaken, ShorterBeginsLonger, ListIsSublist};

use crate::objects::Object;

/// An entry of one caller at the end of a legal history, where the object may so step, keeps the book
/// legal. That caller's page gains it and has seen the whole history, and no other page changes.
pub fn entry_added<O: Object>()
    ensures { EntryAdded O.opens O.step }
{}

/// Entries of one caller at the end of a legal history, where the object may so step, keep the book legal.
/// That caller's page gains them and has seen the whole history, and no other page changes.
pub fn entries_added<O: Object>()
    ensures { EntriesAdded O.opens O.step }
{}

/// A caller that takes in a note, which has seen a beginning of the history, keeps the book legal.
pub fn note_taken<O: Object>()
    ensures { NoteTaken O.opens O.step }
{}

/// Of two beginnings of one history the shorter is a beginning of the longer.
pub fn shorter_begins_longer<O: Object>()
    ensures { ShorterBeginsLonger O.Call O.Reply }
{}

/// A caller's list in a legal book has the history's entries with its number, in their order, and no other.
pub fn list_is_sublist<O: Object>()
    ensures { ListIsSublist O.opens O.step }
{}
