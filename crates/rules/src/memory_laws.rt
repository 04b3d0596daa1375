//! Laws of memories and counts, each a contract, so that the crate is proved only with its proof.
ghost use Rattle.rules.specs.Laws.{TakenAtMostCounted, OneIsFree, TakenAtMostHeld, NoByteShared, WithinCapacity};

/// Where buckets are taken exactly if they are counted, the counts add up to at least the taken ones.
pub fn taken_at_most_counted_stands()
    ensures { TakenAtMostCounted }
{}

/// Where fewer buckets are taken than there are, one is free.
pub fn one_is_free_stands()
    ensures { OneIsFree }
{}

/// Where every taken bucket has a holder, there are no more taken buckets than holders.
pub fn taken_at_most_held_stands()
    ensures { TakenAtMostHeld }
{}

pub fn no_byte_shared_stands()
    ensures { NoByteShared }
{}

pub fn within_capacity_stands()
    ensures { WithinCapacity }
{}
