//! What every memory asks of a request and of its settings.
ghost use Rattle.std.specs.Prelude.{◌≡◌, MatchResult};
ghost use Rattle.std.specs.Result.{result_err};
ghost use Rattle.rules.specs.Memory.{Fair, aligned, request_fault};

use elementary::error::{AllocationError, SettingsError};

pub(crate) fn is_aligned(align: usize) -> bool
    ensures { result ≡ aligned align }
{
    matches!(align, 1 | 2 | 4 | 8)
}

/// Refuses what no memory grants: a size of 0 or above the largest, then an alignment that is none.
pub(crate) fn check_request(
    largest: usize,
    size: usize,
    align: usize,
) -> Result<(), AllocationError>
    ensures { result_err result ≡ request_fault largest size align }
{
    if size == 0 || size > largest {
        return Err(AllocationError::SizeTooLarge);
    }
    if !is_aligned(align) {
        return Err(AllocationError::AlignmentFailure);
    }
    Ok(())
}

/// How many buckets of which size a segment has.
#[derive(Clone, Copy, PartialEq, Eq, Debug)]
pub(crate) struct SegmentLayout {
    pub(crate) bucket_size: usize,
    pub(crate) count: usize,
    ghost fair: { Fair bucket_size count },
}

impl SegmentLayout {
    pub(crate) fn new(bucket_size: usize, count: usize) -> Result<SegmentLayout, SettingsError>
        ensures { MatchResult result (λ layout. (layout.bucket_size ≡ bucket_size) × (layout.count ≡ count)) (λ _. Fair bucket_size count → ⊥) }
    {
        if bucket_size % 8 == 0
            && (8..=65536).contains(&bucket_size)
            && (1..=256).contains(&count)
        {
            Ok(SegmentLayout { bucket_size, count })
        } else {
            Err(SettingsError::OutOfRange)
        }
    }
}
