//! What holds of shares and of joined texts, each the contract of a function that does nothing.
ghost use Rattle.heesch_parts.specs.AllShares.{JoinedSharesAreCatalogues, ShareOutputsAreShares};
ghost use Rattle.heesch_parts.specs.Faults.{SharesHaveNoFault, OneFault};
ghost use Rattle.heesch_parts.specs.Shares.{OneJoin, JoinedAreCatalogues};
ghost use Rattle.heesch_parts.specs.Spans.{SpansFollow, SpansCoverOnce, SpansStayWithin, SharesAreTheList};

/// The spans of shares 1 to k follow each other: the first begins at 0, each other where the one before it ends, and
/// the last ends at the length.
pub fn spans_follow()
    ensures { SpansFollow }
{}

/// The spans of shares 1 to k have each place of the list once, and no other place.
pub fn spans_cover_once()
    ensures once { SpansCoverOnce }
    ensures within { SpansStayWithin }
{}

/// The shares of a list of shapes, by their spans and one behind the other, are the list.
pub fn shares_are_the_list()
    ensures { SharesAreTheList }
{}

/// The text of K shares has no fault, where no more bytes than are read are in it. So a joiner's `finish` answers Ok
/// exactly where the bytes are the text of K shares, and a fault exactly where they aren't, where memory suffices.
pub fn shares_have_no_fault()
    ensures { SharesHaveNoFault }
{}

/// A text has one first fault at most: its line and its number.
pub fn one_fault()
    ensures { OneFault }
{}

/// A text is that of shares in one way, so that it tells its header and the entries of each share.
pub fn one_join()
    ensures { OneJoin }
{}

/// The items of a joined catalogue, written one after the other, are the catalogue text of the entries of all shares
/// under the header of the shares.
pub fn joined_are_catalogues()
    ensures { JoinedAreCatalogues }
{}

/// The outputs of `share` 1 to K, one behind the other, are share texts, so that joining them tells no fault.
pub fn share_outputs_are_shares()
    ensures { ShareOutputsAreShares }
{}

/// And what they are joined to is the catalogue of the size: the catalogue text of true entries, with right verdicts,
/// of every free polyform of n cells, each once and in order.
pub fn joined_shares_are_catalogues()
    ensures { JoinedSharesAreCatalogues }
{}
