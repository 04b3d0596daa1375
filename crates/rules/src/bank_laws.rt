//! Laws of a bank of links, each a contract, so that the crate is proved only with its proof.
ghost use Rattle.rules.specs.Bank.{StaysSound, StaysSafe};
ghost use Rattle.rules.specs.Holdings.{NothingTakenAway, OnlyStirred};

/// Whatever is called, lists stay within their bounds, no offset stands twice in a link, and no two links have the same ports.
pub fn bank_stays_sound_stands()
    ensures { StaysSound }
{}

/// Whatever a subscriber calls, and whatever a turn moves, every sender keeps its links, and they hold for it what they held.
pub fn nothing_taken_away_stands()
    ensures { NothingTakenAway }
{}

/// Whatever is called and whatever marks a rig sets, the bank stays so, and a link whose sender end was never attached has empty lists.
pub fn bank_stays_safe_stands()
    ensures { StaysSafe }
{}

/// Whatever a subscriber calls, and whatever a turn moves, links hold for their senders what they held, and a bank of which all that is
/// said above holds keeps it.
pub fn only_stirred_stands()
    ensures { OnlyStirred }
{}
