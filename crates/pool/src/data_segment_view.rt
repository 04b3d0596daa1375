//! The view of every memory of this crate.

use memory::data_segment::View;

/// What a port sees of a memory. The number is the memory's greatest number of segments: by it each memory names a kind of view of its own.
#[derive(Clone, Copy, PartialEq, Eq, Debug)]
pub struct DataSegmentView<const MAX_SEGMENTS: usize> {
    segments: usize,
}

impl<const MAX_SEGMENTS: usize> View for DataSegmentView<MAX_SEGMENTS> {
    ghost opened = { λ v. v.segments };

    fn open(segments: usize) -> Self {
        DataSegmentView { segments }
    }

    fn segments(&self) -> usize {
        self.segments
    }
}
