//! A queue of at most `limit` entries. Its memory, for N entries, is taken when it is made, so no later call allocates or fails for want of memory.
ghost use Rattle.std.specs.Prelude.{◌≡◌, ◌≤◌, Bool};
ghost use Rattle.std.specs.VecDeque.{deque_len, deque_capacity};

use std::alloc::{AllocError, Global};
use std::collections::VecDeque;
use std::collections::vec_deque::Iter;

/// What it holds is said of its entries, oldest first, and of the limit. No call has a condition: each says what it makes of any queue.
/// Ghost fields and no model, so that whoever has a queue knows that its entries are within its limit.
#[derive(Debug, Drop)]
pub struct Queue<T, const N: usize> {
    items: VecDeque<T>,
    limit: usize,
    ghost room: { N ≤ deque_capacity items },
    ghost within: { limit ≤ N },
    ghost few: { deque_len items ≤ limit },
}

impl<T, const N: usize> Queue<T, N> {
    ghost use Rattle.std.specs.Prelude.{◌≡◌, min, [], length, IfOk, MatchOption, is_some, ◌==◌, nat_le};
    ghost use Rattle.std.specs.List.{slice_get, remove};
    ghost use Rattle.std.specs.VecDeque.Iter.{deque_iter_rest};
    ghost use Rattle.std.specs.Option.{option_map};
    ghost use Rattle.container.specs.Queue.{entries, bound, oldest, later, pushed, handed_back, overflowed, evicted};

    pub fn new(heap: Global) -> Result<Queue<T, N>, AllocError>
        ensures { IfOk result (λ q. (entries q ≡ []) × (bound q ≡ N)) }
    {
        Queue::with_limit(heap, N)
    }

    /// A limit above N counts as N.
    pub fn with_limit(heap: Global, limit: usize) -> Result<Queue<T, N>, AllocError>
        ensures { IfOk result (λ q. (entries q ≡ []) × (bound q ≡ min limit N)) }
    {
        let items = VecDeque::with_capacity(heap, N)?;
        Ok(Queue {
            items,
            limit: limit.min(N),
        })
    }

    /// Empties the queue and gives it another limit, in the memory that it has.
    pub fn restart(&mut self, limit: usize)
    where
        T: Drop,
        ensures items { entries self.new ≡ [] }
        ensures limit { bound self.new ≡ min limit N }
    {
        self.items.clear();
        self.limit = limit.min(N);
    }

    pub fn len(&self) -> usize
        ensures { result ≡ length (entries self.now) }
    {
        self.items.len()
    }

    pub fn is_empty(&self) -> bool
        ensures { result ≡ (length (entries self.now) == 0) }
    {
        self.items.is_empty()
    }

    pub fn is_full(&self) -> bool
        ensures { result ≡ nat_le (bound self.now) (length (entries self.now)) }
    {
        self.len() >= self.limit
    }

    pub fn limit(&self) -> usize
        ensures { result ≡ bound self.now }
    {
        self.limit
    }

    /// Where there is no room the entry is handed back.
    pub fn push(&mut self, x: T) -> Result<(), T>
        ensures value { result ≡ handed_back (bound self.old) (entries self.old) x }
        ensures items { entries self.new ≡ pushed (bound self.old) (entries self.old) x }
        ensures limit { bound self.new ≡ bound self.old }
    {
        if self.len() < self.limit {
            self.items.push_back_reserved(x);
            return Ok(());
        }
        Err(x)
    }

    pub fn pop(&mut self) -> Option<T>
        ensures value { result ≡ oldest (entries self.old) }
        ensures items { entries self.new ≡ later (entries self.old) }
        ensures limit { bound self.new ≡ bound self.old }
    {
        self.items.pop_front()
    }

    /// Pushes in any case. Where there is no room the oldest entry makes way and is answered: at limit 0, the pushed entry itself.
    pub fn push_with_overflow(&mut self, x: T) -> Option<T>
        ensures value { result ≡ evicted (bound self.old) (entries self.old) x }
        ensures items { entries self.new ≡ overflowed (bound self.old) (entries self.old) x }
        ensures limit { bound self.new ≡ bound self.old }
    {
        if self.limit == 0 {
            return Some(x);
        }
        let out = if self.is_full() { self.pop() } else { None };
        self.items.push_back_reserved(x);
        out
    }

    /// Counted from the oldest.
    pub fn get(&self, i: usize) -> Option<&T>
        ensures { option_map (λ x. x.now) result ≡ slice_get (entries self.now) i }
    {
        self.items.get(i)
    }

    // Takes out the entry at a place that a search answered, and says whether there was one.
    fn take_out(&mut self, place: Option<usize>) -> bool
    where
        T: Drop,
        ensures value { result ≡ is_some place }
        ensures items { MatchOption place (entries self.new ≡ entries self.old) (λ i. entries self.new ≡ remove (entries self.old) i) }
        ensures limit { bound self.new ≡ bound self.old }
    {
        let Some(i) = place else {
            return false;
        };
        let _ = self.items.remove(i);
        true
    }

    /// Oldest first.
    pub fn iter(&self) -> Iter<'_, T>
        ensures { deque_iter_rest result ≡ entries self.now }
    {
        self.items.iter()
    }
}

/// Entries that can be told apart by a test of their own, as by a key that they carry. It need not be `==`, nor symmetric, nor transitive.
pub trait Same: Copy {
    ghost like: { Self → Self → Bool };

    fn same(self, other: Self) -> bool
        ensures { result ≡ like self other };
}

impl<T: PartialEq, const N: usize> Queue<T, N> {
    ghost use Rattle.std.specs.Prelude.{◌≡◌};
    ghost use Rattle.container.specs.Queue.{entries, bound, has, without, Place};

    /// The place of the oldest entry equal to `x`.
    fn position(&self, x: &T) -> Option<usize>
        ensures { Place T.eq (entries self.now) x.now result }
    {
        self.iter().position(|y| y == x)
    }

    pub fn contains(&self, x: &T) -> bool
        ensures { result ≡ has T.eq (entries self.now) x.now }
    {
        self.position(x).is_some()
    }

    /// Takes out the oldest entry equal to `x`, and answers whether there was one.
    pub fn remove(&mut self, x: &T) -> bool
    where
        T: Drop,
        ensures value { result ≡ has T.eq (entries self.old) x.now }
        ensures items { entries self.new ≡ without T.eq (entries self.old) x.now }
        ensures limit { bound self.new ≡ bound self.old }
    {
        let place = self.position(x);
        self.take_out(place)
    }
}

impl<T: Same, const N: usize> Queue<T, N> {
    ghost use Rattle.std.specs.Prelude.{◌≡◌};
    ghost use Rattle.container.specs.Queue.{entries, bound, has, without, Place};

    /// The place of the oldest entry like `x`.
    fn position_same(&self, x: T) -> Option<usize>
        ensures { Place T.like (entries self.now) x result }
    {
        self.iter().position(|y| y.same(x))
    }

    /// `contains` by the entries' own test.
    pub fn contains_same(&self, x: T) -> bool
        ensures { result ≡ has T.like (entries self.now) x }
    {
        self.position_same(x).is_some()
    }

    /// `remove` by the entries' own test.
    pub fn remove_same(&mut self, x: T) -> bool
        ensures value { result ≡ has T.like (entries self.old) x }
        ensures items { entries self.new ≡ without T.like (entries self.old) x }
        ensures limit { bound self.new ≡ bound self.old }
    {
        let place = self.position_same(x);
        self.take_out(place)
    }
}

impl<T: Copy, const N: usize> Queue<T, N> {
    ghost use Rattle.std.specs.Prelude.{◌≡◌, ◌++◌, take};
    ghost use Rattle.container.specs.Queue.{entries, bound};

    /// Pushes a copy of each entry onto `out`, oldest first, as far as there is room.
    pub fn append_copies_to<const K: usize>(&self, out: &mut Queue<T, K>)
        ensures items { entries out.new ≡ take (bound out.old) (entries out.old ++ entries self.now) }
        ensures limit { bound out.new ≡ bound out.old }
    {
        for x in self.iter() {
            let _ = out.push(*x);
        }
    }
}
