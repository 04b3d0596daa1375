//! What a publisher's memory and a view of it promise.
ghost use Rattle.std.specs.Prelude.{◌≡◌, ℕ, false, length, is_some, nat_lt, IfSome, Some, None, if◌then◌else◌, slice_index_or};
ghost use Rattle.std.specs.Result.{result_err};
ghost use Rattle.rules.specs.Memory.{Mem, Segment, Sound, segment_at, bucket, bucket_at, taken_at, allocation_fault, Allocates, deallocation_fault, freed, start_of, placed};

use elementary::error::{AllocationError, DeallocationError};
use elementary::pointer_offset::PointerOffset;

/// The buckets of one segment.
pub trait Buckets: Sized {
    ghost segment: { Self → Segment };

    fn start(&self) -> usize
        ensures { result ≡ (segment self.now).start };

    fn bucket_size(&self) -> usize
        ensures { result ≡ (segment self.now).size };

    fn number_of_buckets(&self) -> usize
        ensures { result ≡ length (segment self.now).taken };

    /// False for a bucket that is not there.
    fn is_taken(&self, bucket: usize) -> bool
        ensures { result ≡ slice_index_or (segment self.now).taken bucket false };
}

/// What can be asked of a memory. Segments are named by their number from 0.
pub trait Segmented: Sized {
    ghost model: { Self → Mem };

    /// The greatest number of segments.
    ghost MAX_SEGMENTS: { ℕ };

    const MAX_SEGMENTS: usize;

    fn number_of_segments(&self) -> usize
        ensures { result ≡ length (model self.now).segments };

    /// 0 for a segment that is not there.
    fn bucket_size(&self, segment: usize) -> usize
        ensures { result ≡ (segment_at (model self.now).segments segment).size };

    /// 0 for a segment that is not there.
    fn number_of_buckets(&self, segment: usize) -> usize
        ensures { result ≡ length (segment_at (model self.now).segments segment).taken };

    fn start(&self, segment: usize) -> Option<usize>
        ensures { result ≡ start_of (model self.now).segments segment };

    fn capacity(&self) -> usize
        ensures { result ≡ (model self.now).capacity };

    fn is_bucket_taken(&self, segment: usize, bucket: usize) -> bool
        ensures { result ≡ slice_index_or (segment_at (model self.now).segments segment).taken bucket false };

    /// The bucket of its segment that an offset names, if it names one.
    fn bucket(&self, offset: PointerOffset) -> Option<usize>
        ensures { result ≡ bucket_at (model self.now).segments offset.value }
    {
        let (distance, segment) = offset.into_parts();
        let size = self.bucket_size(usize::from(segment));
        if size == 0 || distance % size != 0 {
            return None;
        }
        let bucket = distance / size;
        (bucket < self.number_of_buckets(usize::from(segment))).then_some(bucket)
    }

    /// The same, if that bucket is taken.
    fn taken_bucket(&self, offset: PointerOffset) -> Option<usize>
        ensures { result ≡ (if taken_at (model self.now).segments offset.value then Some (bucket (model self.now).segments offset.value) else None) }
    {
        let segment = usize::from(offset.segment_id());
        let bucket = self.bucket(offset)?;
        self.is_bucket_taken(segment, bucket).then_some(bucket)
    }

    fn is_taken(&self, offset: PointerOffset) -> bool
        ensures { result ≡ taken_at (model self.now).segments offset.value }
    {
        self.taken_bucket(offset).is_some()
    }

    ghost sound: { (m : Self) → Sound MAX_SEGMENTS (model m) };
}

/// A memory that keeps each segment as a value, which answers for its own buckets. Each is `Segmented`, by the impl below; a memory that
/// keeps its segments in another way implements `Segmented` itself.
pub trait Segments: Sized {
    type Segment: Buckets;

    ghost memory: { Self → Mem };

    /// The greatest number of segments.
    ghost MOST: { ℕ };

    const MOST: usize;

    fn count(&self) -> usize
        ensures { result ≡ length (memory self.now).segments };

    /// One segment, if it is there.
    fn segment(&self, segment: usize) -> Option<&Self::Segment>
        ensures there { is_some result ≡ nat_lt segment (length (memory self.now).segments) }
        ensures buckets { IfSome result (λ s. Self.Segment.segment s.now ≡ segment_at (memory self.now).segments segment) };

    /// Where the memory ends.
    fn end(&self) -> usize
        ensures { result ≡ (memory self.now).capacity };

    ghost lawful: { (m : Self) → Sound MOST (memory m) };
}

impl<M: Segments> Segmented for M {
    ghost model = { M.memory };

    ghost MAX_SEGMENTS = { M.MOST };

    const MAX_SEGMENTS: usize = M::MOST;

    ghost sound = { M.lawful };

    fn number_of_segments(&self) -> usize {
        self.count()
    }

    fn bucket_size(&self, segment: usize) -> usize {
        self.segment(segment).map_or(0, |s| s.bucket_size())
    }

    fn number_of_buckets(&self, segment: usize) -> usize {
        self.segment(segment).map_or(0, |s| s.number_of_buckets())
    }

    fn start(&self, segment: usize) -> Option<usize> {
        self.segment(segment).map(|s| s.start())
    }

    fn capacity(&self) -> usize {
        self.end()
    }

    fn is_bucket_taken(&self, segment: usize, bucket: usize) -> bool {
        self.segment(segment).is_some_and(|s| s.is_taken(bucket))
    }
}

/// The segments of a memory as a port sees them that was told their greatest number.
pub trait View: Sized {
    /// The number that it was opened with.
    ghost opened: { Self → ℕ };

    fn open(segments: usize) -> Self
        ensures { opened result ≡ segments };

    fn segments(&self) -> usize
        ensures { result ≡ opened self.now };

    /// Where in the publisher's bytes an offset lies: its segment's start plus its distance, if the view has that segment.
    fn translate<M: Segmented>(&self, memory: &M, offset: PointerOffset) -> Option<usize>
        ensures { result ≡ placed (M.model memory.now).segments (opened self.now) offset.value }
    {
        let segment = usize::from(offset.segment_id());
        if segment >= self.segments() {
            return None;
        }
        Some(memory.start(segment)? + offset.offset())
    }
}

pub trait Memory: Segmented {
    type View: View + Drop;

    fn max_number_of_segments() -> usize
        ensures { result ≡ Self.MAX_SEGMENTS }
    {
        Self::MAX_SEGMENTS
    }

    /// Takes a free bucket of at least `size` bytes, of a segment that is there or of one that it makes. Two numbers and no `Layout`, which
    /// could not hold the alignments that are refused.
    fn allocate(&mut self, size: usize, align: usize) -> Result<PointerOffset, AllocationError>
        ensures fault { result_err result ≡ allocation_fault (Self.model self.old) size align }
        ensures after { Allocates (Self.model self.old) size result (Self.model self.new) };

    fn deallocate_bucket(&mut self, offset: PointerOffset) -> Result<(), DeallocationError>
        ensures fault { result_err result ≡ deallocation_fault (Self.model self.old) offset.value }
        ensures after { Self.model self.new ≡ freed (Self.model self.old) offset.value };
}

/// A memory that hands out segments: they are those of its meaning.
pub trait SegmentedMemory: Memory + Segments {
    ghost alike: { (m : Self) → Self.Segmented.model m ≡ Self.Segments.memory m };
}
