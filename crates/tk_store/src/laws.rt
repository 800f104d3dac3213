//! The law of paging.

ghost use Rattle.tk_store.specs.Paging.{PagingCompletes};

/// States a law: paging loses nothing.
///
/// A receiver that knows all that its vector covers, and takes in every page made for that vector,
/// knows what the sender knew at the first page: each fact is held, or its dot is skipped. The
/// pages end when no more slots follow. Between the pages the sender may have taken in more facts,
/// and skipped some.
pub fn paging_completes()
    ensures { PagingCompletes }
{}
