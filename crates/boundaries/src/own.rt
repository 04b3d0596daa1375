//! What a user may bring: a memory that keeps no segment as a value, entries with a test of their own, code over every refused error.
ghost use Rattle.std.specs.Prelude.{◌≡◌, ℕ, ◌≤◌, nat_le, slice_index};
ghost use Rattle.container.specs.Queue.{entries, has, without};
ghost use Rattle.rules.specs.Memory.{segment_at};
ghost use Rattle.rules.specs.Counts.{counts_of};
ghost use Rattle.memory.specs.State.{counts_in};
ghost use Rattle.boundaries.specs.Halves.{halves, sound};

use container::queue::{Queue, Same};
use elementary::error::{CloseError, Refusal, Refused};
use elementary::pointer_offset::PointerOffset;
use memory::chunk::{fill, payload};
use memory::data_segment::{Buckets, Memory, Segmented, SegmentedMemory, Segments, View};
use memory::segment_state::SegmentState;
use pool::data_segment_view::DataSegmentView;
use pool::dynamic_memory::DynamicMemory;
use std::test::Fail;

// Its segments are computed, so that there is none to hand out.
#[derive(Clone, Copy, PartialEq, Eq, Debug)]
struct Halves;

impl Segmented for Halves {
    ghost model = { λ _. halves };

    ghost MAX_SEGMENTS = { 2 };

    const MAX_SEGMENTS: usize = 2;

    ghost sound = { λ _. sound };

    fn number_of_segments(&self) -> usize {
        2
    }

    fn bucket_size(&self, segment: usize) -> usize {
        if segment < 2 { 8 } else { 0 }
    }

    fn number_of_buckets(&self, segment: usize) -> usize {
        if segment < 2 { 8 } else { 0 }
    }

    fn start(&self, segment: usize) -> Option<usize> {
        (segment < 2).then_some(64 * segment.min(1))
    }

    fn capacity(&self) -> usize {
        128
    }

    fn is_bucket_taken(&self, segment: usize, bucket: usize) -> bool {
        segment < 2 && bucket < 8
    }
}

// A version is like each that it is at least as new as: a test that is not symmetric, beside `==`.
#[derive(Clone, Copy, PartialEq, Eq, Debug)]
struct Version {
    number: u32,
}

impl Same for Version {
    ghost like = { λ a b. nat_le b.number a.number };

    fn same(self, other: Version) -> bool {
        other.number <= self.number
    }
}

fn numbered(number: u32) -> Version
    ensures { result.number ≡ number }
{
    Version { number }
}

fn take_as_new(q: &mut Queue<Version, 4>, number: u32) -> bool
    ensures value { result ≡ has (λ a b. nat_le b.number a.number) (entries q.old) (record { number = number }) }
    ensures items { entries q.new ≡ without (λ a b. nat_le b.number a.number) (entries q.old) (record { number = number }) }
{
    q.remove_same(numbered(number))
}

fn twice<E: Refused + Copy>(error: E) -> (Refusal, Refusal)
    ensures { result.0 ≡ result.1 }
{
    (error.refusal(), error.refusal())
}

// Code over every memory that hands out its segments: what one answers is what the memory means.
fn size_of_segment<M: SegmentedMemory>(m: &M, segment: usize) -> usize
    ensures { result ≡ (segment_at (M.Segmented.model m.now).segments segment).size }
{
    m.segment(segment).map_or(0, |s| s.bucket_size())
}

// Of every value, without asking for a count.
fn at_most_ten(counts: &SegmentState)
    ensures { (segment : ℕ) (bucket : ℕ) → slice_index (counts_of (counts_in counts.now) segment) bucket ≤ 10 }
{}

#[test]
fn a_memory_that_keeps_no_segments_is_asked_itself(rt: HostRuntime) -> Result<(), Fail> {
    let second = PointerOffset::from_offset_and_segment_id(8, 1);
    let third = PointerOffset::from_offset_and_segment_id(8, 2);
    let mut bytes = [0; 128];
    let view = DataSegmentView::<4>::open(2);
    assert_eq!(&rt; Halves.bucket(second), Some(1));
    assert_eq!(&rt; Halves.taken_bucket(third), None);
    assert_eq!(&rt; view.translate(&Halves, second), Some(72));
    assert!(&rt; fill(&Halves, &mut bytes, second, &[7; 8]).is_ok());
    assert_eq!(&rt; payload(&Halves, &bytes, second).map(|p| p[0]), Ok(7));
    assert_eq!(&rt; (bytes[71], bytes[72], bytes[79], bytes[80]), (0, 7, 7, 0));
    let mut counts = SegmentState::new(rt.alloc(), 2, 8)?;
    assert_eq!(&rt; counts.borrow_sample(&Halves, second), (0, 8));
    assert_eq!(&rt; counts.reference_count(&Halves, second), 1);
    assert_eq!(&rt; counts.reference_count(&Halves, third), 0);
    at_most_ten(&counts);
    Ok(())
}

#[test]
fn a_memory_may_be_asked_for_a_segment(rt: HostRuntime) -> Result<(), Fail> {
    let mut m = DynamicMemory::new(rt.alloc(), 8, 2, 64)?;
    assert!(&rt; m.allocate(16, 8).is_ok());
    assert_eq!(&rt; size_of_segment(&m, 0), 8);
    assert_eq!(&rt; size_of_segment(&m, 1), 16);
    assert_eq!(&rt; size_of_segment(&m, 2), 0);
    Ok(())
}

#[test]
fn entries_may_have_a_test_of_their_own(rt: HostRuntime) -> Result<(), Fail> {
    let mut q: Queue<Version, 4> = Queue::new(rt.alloc())?;
    let _ = q.push(numbered(3));
    let _ = q.push(numbered(5));
    assert!(&rt; q.contains_same(numbered(4)));
    assert!(&rt; !q.contains(&numbered(4)));
    assert!(&rt; !q.contains_same(numbered(6)));
    assert!(&rt; take_as_new(&mut q, 4));
    assert!(&rt; !take_as_new(&mut q, 4));
    assert_eq!(&rt; q.pop(), Some(numbered(3)));
    Ok(())
}

#[test]
fn an_error_tells_the_same_each_time(rt: HostRuntime) {
    let told = twice(CloseError::ConnectionBrokenSinceSenderNoLongerExists);
    assert_eq!(&rt; told, (Refusal::new(8), Refusal::new(8)));
}
