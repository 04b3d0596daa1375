//! Laws of every call and of every run of an exchange, each a contract, so that the crate is proved only with its proof.
ghost use Rattle.rules.specs.Sane.{StepsKeepOrder, CountsBalance, SentBytesStay, LoanIsSure, HistoryIsLastSends, LinksStayInOrder};

/// Whatever is called, on whichever port, and whatever is refused, the bank stays safe and every publisher in order; and so in a run,
/// whatever its calls, their order and their number.
pub fn steps_keep_order_stands()
    ensures { StepsKeepOrder }
{}

/// After every call of every run from a new exchange, a chunk's count is its loans, its history entries and the links of its publisher that
/// hold it; its bucket is taken exactly where that is not zero; a chunk on loan has no other holder; and no count passes 10.
pub fn counts_balance_stands()
    ensures { CountsBalance }
{}

/// A chunk shows, when its send ends, what it showed as the send began; and as long as a link holds it, whatever is called, it is lent to no
/// one and shows the same bytes.
pub fn sent_bytes_stay_stands()
    ensures { SentBytesStay }
{}

/// Where a publisher's memory has as many buckets as large as asked, free or taken, as its settings can ever bind, no loan is refused for want
/// of memory, whatever was called before and in whatever order its receivers let go.
pub fn loan_is_sure_stands()
    ensures { LoanIsSure }
{}

/// After every call of every run from a new exchange, a publisher that is open keeps in its history what it sent last, of sends that came to
/// their delivery, as many as its settings say; one that is closed keeps none.
pub fn history_is_last_sends_stands()
    ensures { HistoryIsLastSends }
{}

/// After every call of every run from a new exchange, every link keeps to its bounds and has no offset twice, and each attached sender end
/// stands in exactly one slot of its publisher.
pub fn links_stay_in_order_stands()
    ensures { LinksStayInOrder }
{}
