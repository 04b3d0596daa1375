//! How many hold each chunk of a memory. An offset that names no chunk has the count 0, and nothing changes it.
ghost use Rattle.std.specs.Prelude.{◌≡◌, ℕ, ◌≤◌, replicate, IfOk, slice_index, slice_set};
ghost use Rattle.rules.specs.Counts.{counts_of};

use crate::data_segment::{Memory, Segmented};
use elementary::pointer_offset::PointerOffset;
use std::alloc::{AllocError, Global};
use std::marker::Model;

/// A chunk has at most one loan, one entry in the history and eight connections.
const MAX_HOLDERS: u64 = 10;

/// The counts of one segment's buckets, none of which passes 10.
#[derive(Debug, Drop)]
pub struct ReferenceCounts {
    counts: Vec<u64>,
}

impl Model for ReferenceCounts {
    ghost use Rattle.std.specs.Prelude.{ℕ, ◌≤◌, List, slice_index};

    ghost Value = { List ℕ };

    ghost view = { λ r. r.counts.items };

    ghost invariant = { λ r. ((bucket : ℕ) → slice_index r.counts.items bucket ≤ 10) };
}

impl ReferenceCounts {
    fn new(heap: Global, buckets: usize) -> Result<ReferenceCounts, AllocError>
        ensures { IfOk result (λ row. row ≡ replicate buckets 0) }
    {
        let counts = vec![in heap; 0u64; buckets]?;
        Ok(ReferenceCounts { counts })
    }

    fn get(&self, bucket: usize) -> u64
        ensures value { result ≡ slice_index self.now bucket }
        ensures few { result ≤ 10 }
    {
        self.counts.get(bucket).copied().unwrap_or(0)
    }

    fn put(&mut self, bucket: usize, count: u64)
        requires { count ≤ 10 }
        ensures { self.new ≡ slice_set self.old bucket count }
    {
        if let Some(place) = self.counts.get_mut(bucket) {
            *place = count;
        }
    }
}

/// The counts of all segments that a memory may come to have. They are asked with the memory beside them and do not own it, so that the
/// signatures say which calls only read it: all but the last. A ghost field and no model, so that whoever has counts knows that none
/// passes 10.
#[derive(Debug, Drop)]
pub struct SegmentState {
    segments: Vec<ReferenceCounts>,
    pub ghost low: { (segment : ℕ) (bucket : ℕ) → slice_index (counts_of segments.items segment) bucket ≤ 10 },
}

impl SegmentState {
    ghost use Rattle.std.specs.Prelude.{◌≡◌, ℕ, ◌≤◌, replicate, IfOk, slice_index, slice_set};
    ghost use Rattle.rules.specs.Memory.{home};
    ghost use Rattle.rules.specs.Counts.{counts_of, count_at, counted, uncounted, released};
    ghost use Rattle.memory.specs.State.{counts_in, chunks_of};

    /// Counts for so many segments of so many buckets, all 0.
    pub fn new(heap: Global, segments: usize, buckets: usize) -> Result<SegmentState, AllocError>
        ensures { IfOk result (λ s. counts_in s ≡ replicate segments (replicate buckets 0)) }
    {
        let mut rows = Vec::with_capacity(heap, segments)?;
        // A plain count, with the memory for all rows there already: of rows collected in a chain no clause says what they are.
        for _ in 0..segments {
            rows.push_reserved(ReferenceCounts::new(heap, buckets)?);
        }
        Ok(SegmentState { segments: rows })
    }

    fn get(&self, segment: usize, bucket: usize) -> u64
        ensures value { result ≡ slice_index (counts_of (counts_in self.now) segment) bucket }
        ensures few { result ≤ 10 }
    {
        self.segments.get(segment).map_or(0, |row| row.get(bucket))
    }

    fn put(&mut self, segment: usize, bucket: usize, count: u64)
        requires { count ≤ 10 }
        ensures { counts_in self.new ≡ slice_set (counts_in self.old) segment (slice_set (counts_of (counts_in self.old) segment) bucket count) }
    {
        if let Some(row) = self.segments.get_mut(segment) {
            row.put(bucket, count);
        }
    }

    /// How many hold a chunk.
    pub fn reference_count<M: Segmented>(&self, memory: &M, offset: PointerOffset) -> u64
        ensures value { result ≡ count_at (M.model memory.now).segments (counts_in self.now) offset.value }
        ensures few { result ≤ 10 }
    {
        let segment = usize::from(offset.segment_id());
        memory
            .bucket(offset)
            .map_or(0, |bucket| self.get(segment, bucket))
    }

    /// One holder more; answers how many there were, and the size of the chunk's bucket.
    pub fn borrow_sample<M: Segmented>(&mut self, memory: &M, offset: PointerOffset) -> (u64, usize)
        ensures value { result ≡ (count_at (M.model memory.now).segments (counts_in self.old) offset.value, (home (M.model memory.now).segments offset.value).size) }
        ensures after { counts_in self.new ≡ counted (M.model memory.now).segments (counts_in self.old) offset.value }
        ensures few { result.0 ≤ 10 }
    {
        let segment = usize::from(offset.segment_id());
        let size = memory.bucket_size(segment);
        let Some(bucket) = memory.bucket(offset) else {
            return (0, size);
        };
        let before = self.get(segment, bucket);
        self.put(segment, bucket, (before + 1).min(MAX_HOLDERS));
        (before, size)
    }

    /// One holder less; answers how many there were.
    pub fn release_sample<M: Segmented>(&mut self, memory: &M, offset: PointerOffset) -> u64
        ensures value { result ≡ count_at (M.model memory.now).segments (counts_in self.old) offset.value }
        ensures after { counts_in self.new ≡ uncounted (M.model memory.now).segments (counts_in self.old) offset.value }
        ensures few { result ≤ 10 }
    {
        let segment = usize::from(offset.segment_id());
        let Some(bucket) = memory.bucket(offset) else {
            return 0;
        };
        let before = self.get(segment, bucket);
        self.put(segment, bucket, before.saturating_sub(1));
        before
    }

    /// No count passes 10, whoever has made or changed them: a fact of every value.
    pub fn at_most_ten(&self)
        ensures { (segment : ℕ) (bucket : ℕ) → slice_index (counts_of (counts_in self.now) segment) bucket ≤ 10 }
    {}

    /// One holder less, and the bucket is freed if that was the last.
    pub fn release_chunk<M: Memory>(&mut self, memory: &mut M, offset: PointerOffset) -> u64
        ensures value { result ≡ count_at (M.model memory.old).segments (counts_in self.old) offset.value }
        ensures after { chunks_of (M.model memory.new) self.new ≡ released (chunks_of (M.model memory.old) self.old) offset.value }
        ensures few { result ≤ 10 }
    {
        let before = self.release_sample(memory, offset);
        if before == 1 {
            let _ = memory.deallocate_bucket(offset);
        }
        before
    }
}
