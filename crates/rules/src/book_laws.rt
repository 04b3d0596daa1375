//! Laws of a publisher's books, each a contract, so that the crate is proved only with its proof.
ghost use Rattle.rules.specs.Books.{CallsKeepOrder, MovesKeepTheBooks, SendsKeepOrder};

/// Counting a further holder, letting one go, and one holder becoming another keep every chunk's count equal to its holders, and its
/// bucket taken exactly while there are any.
pub fn moves_keep_the_books_stands()
    ensures { MovesKeepTheBooks }
{}

/// Reclaiming, removing a link, tagging and sweeping slots, loaning, filling, returning, closing, and a link that takes a chunk keep the
/// books, and each slot wired to a link of its own.
pub fn calls_keep_order_stands()
    ensures { CallsKeepOrder }
{}

/// Taking over a list of subscribers, and a whole send, keep the books and the wiring of the publisher and of every other one, and leave the
/// bank as it must be; a send ends its loan whatever it answers.
pub fn sends_keep_order_stands()
    ensures { SendsKeepOrder }
{}
