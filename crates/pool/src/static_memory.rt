//! A memory of one segment, which never grows.
ghost use Rattle.std.specs.Prelude.{◌≡◌};
ghost use Rattle.pool.specs.Model.{pool_of};

use crate::data_segment_view::DataSegmentView;
use crate::pool_allocator::PoolAllocator;
use crate::request::{SegmentLayout, check_request};
use elementary::error::{AllocationError, DeallocationError, SetUpError};
use elementary::pointer_offset::PointerOffset;
use memory::data_segment::{Buckets, Memory, Segmented, SegmentedMemory, Segments};
use std::alloc::Global;

#[derive(Debug, Drop)]
pub struct StaticMemory {
    pool: PoolAllocator,
    ghost low: { (pool_of pool).buckets.start ≡ 0 },
}

impl StaticMemory {
    ghost use Rattle.std.specs.Prelude.{◌≡◌};
    ghost use Rattle.rules.specs.Pools.{static_answer, static_after};
    ghost use Rattle.pool.specs.Static.{static_of, MakesStatic};

    /// A memory of `count` buckets of `size` bytes, all free.
    pub fn new(heap: Global, size: usize, count: usize) -> Result<StaticMemory, SetUpError>
        ensures { MakesStatic size count result }
    {
        let layout = SegmentLayout::new(size, count)?;
        let pool = PoolAllocator::new(heap, 0, layout)?;
        Ok(StaticMemory { pool })
    }

    fn take_bucket(&mut self, size: usize, align: usize) -> Result<PointerOffset, AllocationError>
        ensures answer { result ≡ static_answer (static_of self.old) size align }
        ensures pool { static_of self.new ≡ static_after (static_of self.old) size align }
    {
        let bucket_size = self.pool.bucket_size();
        check_request(bucket_size, size, align)?;
        let bucket = self.pool.take().ok_or(AllocationError::OutOfMemory)?;
        Ok(PointerOffset::from_offset_and_segment_id(bucket * bucket_size, 0))
    }
}

impl Segments for StaticMemory {
    ghost use Rattle.rules.specs.Pools.{static_mem};
    ghost use Rattle.pool.specs.Static.{static_of};
    ghost use Rattle.pool.specs.Soundness.{static_sound};

    type Segment = PoolAllocator;

    ghost memory = { λ m. static_mem (static_of m) };

    ghost MOST = { 1 };

    const MOST: usize = 1;

    ghost lawful = { static_sound };

    fn count(&self) -> usize {
        1
    }

    fn segment(&self, segment: usize) -> Option<&PoolAllocator> {
        (segment == 0).then_some(&self.pool)
    }

    fn end(&self) -> usize {
        self.pool.bucket_size() * self.pool.number_of_buckets()
    }
}

impl Memory for StaticMemory {
    ghost use Rattle.std.specs.Prelude.{◌≡◌};
    ghost use Rattle.std.specs.Result.{result_err};
    ghost use Rattle.rules.specs.Memory.{allocation_fault, Allocates, deallocation_fault, freed};
    ghost use Rattle.rules.specs.Pools.{static_mem, static_answer, static_after, static_freed};
    ghost use Rattle.pool.specs.Static.{static_of};

    type View = DataSegmentView<1>;

    /// Takes the bucket freed last, else the lowest never taken.
    fn allocate(&mut self, size: usize, align: usize) -> Result<PointerOffset, AllocationError>
        ensures fault { result_err result ≡ allocation_fault (static_mem (static_of self.old)) size align }
        ensures after { Allocates (static_mem (static_of self.old)) size result (static_mem (static_of self.new)) }
        ensures answer { result ≡ static_answer (static_of self.old) size align }
        ensures pool { static_of self.new ≡ static_after (static_of self.old) size align }
    {
        self.take_bucket(size, align)
    }

    fn deallocate_bucket(&mut self, offset: PointerOffset) -> Result<(), DeallocationError>
        ensures fault { result_err result ≡ deallocation_fault (static_mem (static_of self.old)) offset.value }
        ensures after { static_mem (static_of self.new) ≡ freed (static_mem (static_of self.old)) offset.value }
        ensures pool { static_of self.new ≡ static_freed (static_of self.old) offset.value }
    {
        let bucket = self
            .taken_bucket(offset)
            .ok_or(DeallocationError::NotTaken)?;
        self.pool.give_back(bucket);
        Ok(())
    }
}

impl SegmentedMemory for StaticMemory {
    ghost use Rattle.std.specs.Prelude.{refl};

    ghost alike = { λ _. refl };
}
