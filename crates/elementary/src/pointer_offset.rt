//! The name of a chunk, which is one bucket of a publisher's memory.
ghost use Rattle.std.specs.Prelude.{◌≡◌, ◌^◌, ◌<◌};
ghost use Rattle.elementary.specs.Ids.{packed, distance, segment, same_chunk};

/// The bucket's distance from the start of its segment times 256, plus the segment's number: one number, as links carry it and scripts name it.
#[derive(Clone, Copy, PartialEq, Eq, Debug)]
pub struct PointerOffset {
    pub value: u64,
}

impl PointerOffset {
    pub fn from_offset_and_segment_id(offset: usize, segment_id: u8) -> PointerOffset
        requires { offset < 2 ^ 56 }
        ensures value { result.value ≡ packed offset segment_id }
        ensures apart { (distance result.value ≡ offset) × (segment result.value ≡ segment_id) }
    {
        PointerOffset {
            value: offset as u64 * 256 + u64::from(segment_id),
        }
    }

    /// The bucket's distance from the start of its segment.
    pub fn offset(self) -> usize
        ensures value { result ≡ distance self.value }
        ensures range { result < 2 ^ 56 }
    {
        (self.value / 256) as usize
    }

    pub fn segment_id(self) -> u8
        ensures { result ≡ segment self.value }
    {
        (self.value % 256) as u8
    }

    /// Both parts, of which `from_offset_and_segment_id` makes the same offset again.
    pub fn into_parts(self) -> (usize, u8)
        ensures value { result ≡ (distance self.value, segment self.value) }
        ensures range { result.0 < 2 ^ 56 }
        ensures back { packed result.0 result.1 ≡ self.value }
    {
        (self.offset(), self.segment_id())
    }

    /// What `==` answers, in the specification's words.
    pub fn is(self, other: PointerOffset) -> bool
        ensures { result ≡ same_chunk self other }
    {
        self == other
    }
}
