//! Laws of legal entries.

ghost use Rattle.ca_shared.specs.Legal.{LegalEntriesKeep, RefusalsAreExact};

/// Behind legal entries an entry is legal exactly where nothing refuses it.
pub fn an_entry_is_legal_where_nothing_refuses_it()
    ensures { RefusalsAreExact }
{}

/// Legal entries leave owned mutexes and ended threads that are there, and at most 64 threads. While the run is open, each
/// thread that has ended was made by a create.
pub fn legal_entries_keep_numbers()
    ensures { LegalEntriesKeep }
{}
