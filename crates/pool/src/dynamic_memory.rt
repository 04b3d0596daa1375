//! A memory that makes segments as it needs them, up to four.
ghost use Rattle.std.specs.Prelude.{◌≡◌, ◌∷◌, [], ◌+◌, ◌≤◌, IfOk, vec_len, vec_capacity};
ghost use Rattle.rules.specs.Pools.{new_pool, segments_of};
ghost use Rattle.pool.specs.Model.{pools_in};
ghost use Rattle.pool.specs.Layout.{Sized, Laid, Rising, Even, Spares};

use crate::data_segment_view::DataSegmentView;
use crate::pool_allocator::{PoolAllocator, SpareSegment};
use crate::request::{SegmentLayout, check_request};
use elementary::error::{AllocationError, DeallocationError, SetUpError};
use elementary::pointer_offset::PointerOffset;
use memory::data_segment::{Memory, Segmented, SegmentedMemory, Segments};
use std::alloc::{AllocError, Global};

// No request is larger than the largest bucket that a segment may have.
const LARGEST: usize = 65536;

#[derive(Debug, Drop)]
pub struct DynamicMemory {
    live: Vec<PoolAllocator>,
    // Segments to be: they hold their memory already, so that making one allocates nothing.
    spare: Vec<SpareSegment>,
    // How many buckets each segment has.
    count: usize,
    // Where the last segment ends.
    end: usize,
    capacity: usize,
    ghost four: { vec_len live + vec_len spare ≡ 4 },
    ghost room: { 4 ≤ vec_capacity live },
    ghost sized: { Sized (vec_len live) end capacity count },
    ghost laid: { Laid (segments_of (pools_in live.items)) end },
    ghost rising: { Rising (segments_of (pools_in live.items)) },
    ghost even: { Even (segments_of (pools_in live.items)) count },
    ghost spares: { Spares spare.items count },
}

// The first segment, with room for three more.
fn first(heap: Global, layout: SegmentLayout) -> Result<Vec<PoolAllocator>, AllocError>
    ensures { IfOk result (λ v. (pools_in v.items ≡ new_pool 0 layout.bucket_size layout.count ∷ []) × (vec_len v ≡ 1) × (4 ≤ vec_capacity v)) }
{
    let mut live = Vec::with_capacity(heap, 4)?;
    live.push_reserved(PoolAllocator::new(heap, 0, layout)?);
    Ok(live)
}

// Three segments to be.
fn three_spares(heap: Global, layout: SegmentLayout) -> Result<Vec<SpareSegment>, AllocError>
    ensures { IfOk result (λ v. Spares v.items layout.count × (vec_len v ≡ 3)) }
{
    let mut spare = Vec::with_capacity(heap, 3)?;
    // A plain count, with the memory for all three there already: collected in a chain, their number alone is known.
    for _ in 0..3usize {
        spare.push_reserved(SpareSegment::new(heap, layout)?);
    }
    Ok(spare)
}

impl DynamicMemory {
    ghost use Rattle.std.specs.Prelude.{◌≡◌, ◌≤◌, true, false, length, Some, None, if◌then◌else◌, slice_index_or, slice_set};
    ghost use Rattle.rules.specs.Pools.{next, gave, pool_at, can_grow, grown, fitting, serving, readied, handed_by, taken_in, with_pools, dynamic_answer, dynamic_after};
    ghost use Rattle.pool.specs.Dynamic.{dynamic_of, MakesDynamic};

    /// A memory with one segment of `count` buckets of `size` bytes, all free.
    pub fn new(
        heap: Global,
        size: usize,
        count: usize,
        capacity: usize,
    ) -> Result<DynamicMemory, SetUpError>
        ensures { MakesDynamic size count capacity result }
    {
        let layout = SegmentLayout::new(size, count)?;
        let end = layout.bucket_size * layout.count;
        if end > capacity {
            return Err(SetUpError::OutOfRange);
        }
        Ok(DynamicMemory {
            live: first(heap, layout)?,
            spare: three_spares(heap, layout)?,
            count: layout.count,
            end,
            capacity,
        })
    }

    // Takes the next bucket of one segment, if it has one.
    fn take_in(&mut self, segment: usize) -> Option<usize>
        ensures value { result ≡ next (pool_at (dynamic_of self.old).pools segment) }
        ensures after { dynamic_of self.new ≡ taken_in (dynamic_of self.old) segment }
    {
        self.live.get_mut(segment)?.take()
    }

    fn give_in(&mut self, segment: usize, bucket: usize)
        requires { slice_index_or (pool_at (dynamic_of self.old).pools segment).buckets.taken bucket false ≡ true }
        ensures { dynamic_of self.new ≡ with_pools (dynamic_of self.old) (slice_set (dynamic_of self.old).pools segment (gave (pool_at (dynamic_of self.old).pools segment) bucket)) }
    {
        if let Some(pool) = self.live.get_mut(segment) {
            pool.give_back(bucket);
        }
    }

    // The first segment that has a bucket for the size.
    fn find(&self, size: usize) -> Option<usize>
        ensures { result ≡ fitting size (dynamic_of self.now).pools 0 }
    {
        self.live.iter().position(|pool| pool.serves(size))
    }

    // Makes a segment for the size, unless four are there or the capacity would be passed.
    fn grow(&mut self, size: usize) -> Option<usize>
        requires { (1 ≤ size) × (size ≤ 65536) }
        ensures value { result ≡ (if can_grow (dynamic_of self.old) size then Some (length (dynamic_of self.old).pools) else None) }
        ensures after { dynamic_of self.new ≡ (if can_grow (dynamic_of self.old) size then grown (dynamic_of self.old) size else dynamic_of self.old) }
    {
        let bucket_size = size.next_multiple_of(8);
        let span = bucket_size * self.count;
        if span > self.capacity - self.end {
            return None;
        }
        let segment = self.live.len();
        let spare = self.spare.pop()?;
        self.live.push_reserved(spare.lay(self.end, bucket_size));
        self.end += span;
        Some(segment)
    }

    // The segment that serves a request, made if need be.
    fn serve(&mut self, size: usize) -> Option<usize>
        requires { (1 ≤ size) × (size ≤ 65536) }
        ensures value { result ≡ serving (dynamic_of self.old) size }
        ensures after { dynamic_of self.new ≡ readied (dynamic_of self.old) size }
    {
        if let Some(segment) = self.find(size) {
            return Some(segment);
        }
        self.grow(size)
    }

    // Takes the next bucket of one segment, and names it.
    fn take_at(&mut self, segment: usize) -> Result<PointerOffset, AllocationError>
        ensures value { result ≡ handed_by (dynamic_of self.old).pools segment }
        ensures after { dynamic_of self.new ≡ taken_in (dynamic_of self.old) segment }
    {
        let size = self.bucket_size(segment);
        let bucket = self.take_in(segment).ok_or(AllocationError::OutOfMemory)?;
        Ok(PointerOffset::from_offset_and_segment_id(bucket * size, segment as u8))
    }

    fn take_bucket(&mut self, size: usize, align: usize) -> Result<PointerOffset, AllocationError>
        ensures answer { result ≡ dynamic_answer (dynamic_of self.old) size align }
        ensures pools { dynamic_of self.new ≡ dynamic_after (dynamic_of self.old) size align }
    {
        check_request(LARGEST, size, align)?;
        let segment = self.serve(size).ok_or(AllocationError::OutOfMemory)?;
        self.take_at(segment)
    }
}

impl Segments for DynamicMemory {
    ghost use Rattle.rules.specs.Pools.{dynamic_mem};
    ghost use Rattle.pool.specs.Dynamic.{dynamic_of};
    ghost use Rattle.pool.specs.Soundness.{dynamic_sound};

    type Segment = PoolAllocator;

    ghost memory = { λ m. dynamic_mem (dynamic_of m) };

    ghost MOST = { 4 };

    const MOST: usize = 4;

    ghost lawful = { dynamic_sound };

    fn count(&self) -> usize {
        self.live.len()
    }

    fn segment(&self, segment: usize) -> Option<&PoolAllocator> {
        self.live.get(segment)
    }

    fn end(&self) -> usize {
        self.capacity
    }
}

impl Memory for DynamicMemory {
    ghost use Rattle.std.specs.Prelude.{◌≡◌};
    ghost use Rattle.std.specs.Result.{result_err};
    ghost use Rattle.rules.specs.Memory.{allocation_fault, Allocates, deallocation_fault, freed};
    ghost use Rattle.rules.specs.Pools.{dynamic_mem, dynamic_answer, dynamic_after, dynamic_freed};
    ghost use Rattle.pool.specs.Dynamic.{dynamic_of};

    type View = DataSegmentView<4>;

    /// Takes the bucket freed last, else the lowest never taken, of the first segment that fits, else of a new one.
    fn allocate(&mut self, size: usize, align: usize) -> Result<PointerOffset, AllocationError>
        ensures fault { result_err result ≡ allocation_fault (dynamic_mem (dynamic_of self.old)) size align }
        ensures after { Allocates (dynamic_mem (dynamic_of self.old)) size result (dynamic_mem (dynamic_of self.new)) }
        ensures answer { result ≡ dynamic_answer (dynamic_of self.old) size align }
        ensures pools { dynamic_of self.new ≡ dynamic_after (dynamic_of self.old) size align }
    {
        self.take_bucket(size, align)
    }

    fn deallocate_bucket(&mut self, offset: PointerOffset) -> Result<(), DeallocationError>
        ensures fault { result_err result ≡ deallocation_fault (dynamic_mem (dynamic_of self.old)) offset.value }
        ensures after { dynamic_mem (dynamic_of self.new) ≡ freed (dynamic_mem (dynamic_of self.old)) offset.value }
        ensures pools { dynamic_of self.new ≡ dynamic_freed (dynamic_of self.old) offset.value }
    {
        let bucket = self
            .taken_bucket(offset)
            .ok_or(DeallocationError::NotTaken)?;
        self.give_in(usize::from(offset.segment_id()), bucket);
        Ok(())
    }
}

impl SegmentedMemory for DynamicMemory {
    ghost use Rattle.std.specs.Prelude.{refl};

    ghost alike = { λ _. refl };
}
