//! A publisher's memory with the counts and the bytes of its chunks.
ghost use Rattle.std.specs.Prelude.{◌≡◌, IfOk};
ghost use Rattle.std.specs.Result.{result_err, result_ok};
ghost use Rattle.rules.specs.Memory.{allocation_fault, Allocates, taken_at};
ghost use Rattle.rules.specs.Counts.{count_at, counted, borrowed, released};
ghost use Rattle.rules.specs.Bytes.{fill_fault, filled, read_fault, payload};
ghost use Rattle.rules.specs.Pools.{by};
ghost use Rattle.memory.specs.State.{chunks_of, counts_in};

use elementary::error::{AllocationError, FillError, ReadError};
use elementary::pointer_offset::PointerOffset;
use memory::chunk;
use memory::data_segment::{Memory, Segmented};
use memory::segment_state::SegmentState;
use std::alloc::{AllocError, Global};

// No segment has more buckets.
const MAX_BUCKETS: usize = 256;

#[derive(Drop)]
pub(crate) struct Feed<M: Memory> {
    memory: M,
    state: SegmentState,
    bytes: Vec<u8>,
    taken: u64,
    freed: u64,
}

impl<M: Memory> Feed<M> {
    pub(crate) fn new(heap: Global, memory: M) -> Result<Feed<M>, AllocError>
    where
        M: Drop,
    {
        let state = SegmentState::new(heap, M::max_number_of_segments(), MAX_BUCKETS)?;
        let bytes = vec![in heap; 0u8; memory.capacity()]?;
        Ok(Feed {
            memory,
            state,
            bytes,
            taken: 0,
            freed: 0,
        })
    }

    pub(crate) fn taken(&self) -> u64
        ensures { result ≡ self.now.taken }
    {
        self.taken
    }

    pub(crate) fn freed(&self) -> u64
        ensures { result ≡ self.now.freed }
    {
        self.freed
    }

    pub(crate) fn is_taken(&self, offset: PointerOffset) -> bool
        ensures { result ≡ taken_at (M.model self.now.memory).segments offset.value }
    {
        self.memory.is_taken(offset)
    }

    // A chunk that its loan holds.
    pub(crate) fn loan(&mut self, size: usize) -> Result<PointerOffset, AllocationError>
        ensures fault { result_err result ≡ allocation_fault (M.model self.old.memory) size 8 }
        ensures memory { Allocates (M.model self.old.memory) size result (M.model self.new.memory) }
        ensures counts { counts_in self.new.state ≡ by (result_ok result) (counts_in self.old.state) (λ o. counted (M.model self.new.memory).segments (counts_in self.old.state) o.value) }
    {
        let offset = self.memory.allocate(size, 8)?;
        let _ = self.state.borrow_sample(&self.memory, offset);
        self.taken = self.taken.saturating_add(1);
        Ok(offset)
    }

    pub(crate) fn fill(&mut self, offset: PointerOffset, source: &[u8]) -> Result<(), FillError>
        ensures fault { result_err result ≡ fill_fault (M.model self.old.memory) self.old.bytes.items offset.value source.now }
        ensures bytes { self.new.bytes.items ≡ filled (M.model self.old.memory) self.old.bytes.items offset.value source.now }
        ensures chunks { (self.new.memory ≡ self.old.memory) × (self.new.state ≡ self.old.state) }
    {
        chunk::fill(&self.memory, &mut self.bytes, offset, source)
    }

    pub(crate) fn payload(&self, offset: PointerOffset) -> Result<&[u8], ReadError>
        ensures fault { result_err result ≡ read_fault (M.model self.now.memory) self.now.bytes.items offset.value }
        ensures part { IfOk result (λ p. p.now ≡ payload (M.model self.now.memory) self.now.bytes.items offset.value) }
    {
        chunk::payload(&self.memory, &self.bytes, offset)
    }

    // One holder more; answers how many there were.
    pub(crate) fn hold(&mut self, offset: PointerOffset) -> u64
        ensures value { result ≡ count_at (M.model self.old.memory).segments (counts_in self.old.state) offset.value }
        ensures after { chunks_of (M.model self.new.memory) self.new.state ≡ borrowed (chunks_of (M.model self.old.memory) self.old.state) offset.value }
    {
        let (before, _) = self.state.borrow_sample(&self.memory, offset);
        before
    }

    // One holder less, and a free bucket if that was the last; answers how many there were.
    pub(crate) fn let_go(&mut self, offset: PointerOffset) -> u64
        ensures value { result ≡ count_at (M.model self.old.memory).segments (counts_in self.old.state) offset.value }
        ensures after { chunks_of (M.model self.new.memory) self.new.state ≡ released (chunks_of (M.model self.old.memory) self.old.state) offset.value }
    {
        let before = self.state.release_chunk(&mut self.memory, offset);
        if before == 1 {
            self.freed = self.freed.saturating_add(1);
        }
        before
    }
}
