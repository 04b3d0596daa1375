//! The buckets of one segment.
ghost use Rattle.std.specs.Prelude.{◌≡◌, ◌≤◌, false, [], replicate, vec_len, vec_capacity};
ghost use Rattle.rules.specs.Memory.{Fair};
ghost use Rattle.pool.specs.Order.{Counted, Listed, Apart};

use crate::request::SegmentLayout;
use memory::data_segment::Buckets;
use std::alloc::{AllocError, Global};
use std::marker::Model;

/// Ghost fields and no model, here and in the memories: the law of every memory is proved of its fields' facts.
#[derive(Debug, Drop)]
pub struct PoolAllocator {
    start: usize,
    bucket_size: usize,
    taken: Vec<bool>,
    // The freed buckets, the last freed last. There is room for all, so that freeing one allocates nothing.
    freed: Vec<usize>,
    // The lowest bucket never taken.
    fresh: usize,
    ghost fair: { Fair bucket_size (vec_len taken) },
    ghost counted: { Counted taken.items freed.items fresh (vec_capacity freed) },
    ghost listed: { Listed taken.items freed.items fresh },
    ghost apart: { Apart freed.items },
}

impl PoolAllocator {
    ghost use Rattle.std.specs.Prelude.{◌≡◌, true, false, IfOk, slice_index_or};
    ghost use Rattle.rules.specs.Pools.{new_pool, next, took, gave, fits};
    ghost use Rattle.pool.specs.Model.{pool_of};

    pub(crate) fn new(
        heap: Global,
        start: usize,
        layout: SegmentLayout,
    ) -> Result<PoolAllocator, AllocError>
        ensures { IfOk result (λ p. pool_of p ≡ new_pool start layout.bucket_size layout.count) }
    {
        let spare = SpareSegment::new(heap, layout)?;
        Ok(spare.lay(start, layout.bucket_size))
    }

    /// Whether a bucket as large as `size` can be taken.
    pub(crate) fn serves(&self, size: usize) -> bool
        ensures { result ≡ fits size (pool_of self.now) }
    {
        size <= self.bucket_size && (!self.freed.is_empty() || self.fresh < self.taken.len())
    }

    pub(crate) fn take(&mut self) -> Option<usize>
        ensures value { result ≡ next (pool_of self.old) }
        ensures after { pool_of self.new ≡ took (pool_of self.old) }
    {
        if let Some(bucket) = self.freed.pop() {
            self.taken[bucket] = true;
            return Some(bucket);
        }
        let bucket = self.fresh;
        *self.taken.get_mut(bucket)? = true;
        self.fresh += 1;
        Some(bucket)
    }

    pub(crate) fn give_back(&mut self, bucket: usize)
        requires { slice_index_or (pool_of self.old).buckets.taken bucket false ≡ true }
        ensures { pool_of self.new ≡ gave (pool_of self.old) bucket }
    {
        self.taken[bucket] = false;
        self.freed.push_reserved(bucket);
    }
}

impl Buckets for PoolAllocator {
    ghost use Rattle.pool.specs.Model.{pool_of};

    ghost segment = { λ p. (pool_of p).buckets };

    fn start(&self) -> usize {
        self.start
    }

    fn bucket_size(&self) -> usize {
        self.bucket_size
    }

    fn number_of_buckets(&self) -> usize {
        self.taken.len()
    }

    fn is_taken(&self, bucket: usize) -> bool {
        self.taken.get(bucket).copied().unwrap_or(false)
    }
}

/// The memory for a segment to be, reserved so that making the segment allocates nothing.
#[derive(Debug, Drop)]
pub struct SpareSegment {
    taken: Vec<bool>,
    freed: Vec<usize>,
}

impl Model for SpareSegment {
    ghost use Rattle.std.specs.Prelude.{◌≡◌, ◌≤◌, ℕ, false, [], replicate, vec_len, vec_capacity};

    // How many buckets it will have.
    ghost Value = { ℕ };

    ghost view = { λ p. vec_len p.taken };

    ghost invariant = { λ p. (1 ≤ vec_len p.taken) × (vec_len p.taken ≤ 256) × (vec_len p.taken ≤ vec_capacity p.freed) × (p.taken.items ≡ replicate (vec_len p.taken) false) × (p.freed.items ≡ []) };
}

impl SpareSegment {
    ghost use Rattle.std.specs.Prelude.{◌≡◌, IfOk};
    ghost use Rattle.rules.specs.Memory.{Fair};
    ghost use Rattle.rules.specs.Pools.{new_pool};
    ghost use Rattle.pool.specs.Model.{pool_of};

    pub(crate) fn new(heap: Global, layout: SegmentLayout) -> Result<SpareSegment, AllocError>
        ensures { IfOk result (λ p. p ≡ layout.count) }
    {
        let taken = vec![in heap; false; layout.count]?;
        let freed = Vec::with_capacity(heap, layout.count)?;
        Ok(SpareSegment { taken, freed })
    }

    /// Gives the segment its place and the size of its buckets.
    pub(crate) fn lay(self, start: usize, bucket_size: usize) -> PoolAllocator
        requires { Fair bucket_size self }
        ensures { pool_of result ≡ new_pool start bucket_size self }
    {
        let SpareSegment { taken, freed } = self;
        PoolAllocator {
            start,
            bucket_size,
            taken,
            freed,
            fresh: 0,
        }
    }
}
