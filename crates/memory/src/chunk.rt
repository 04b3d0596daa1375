//! The payload of a chunk: a part of the publisher's bytes, from its bucket's place to the bucket's end.
ghost use Rattle.std.specs.Prelude.{◌≡◌, ◌+◌, ◌≤◌, length, IfOk, IfSome, if◌then◌else◌, Some, None};
ghost use Rattle.std.specs.Result.{result_err};
ghost use Rattle.rules.specs.Memory.{is_chunk};
ghost use Rattle.rules.specs.Bytes.{place, room, overwritten, fill_fault, filled, read_fault, payload};

use crate::data_segment::Segmented;
use elementary::error::{FillError, ReadError};
use elementary::pointer_offset::PointerOffset;

/// Where a chunk's payload begins, and how long it is.
fn locate<M: Segmented>(memory: &M, offset: PointerOffset) -> Option<(usize, usize)>
    ensures value { result ≡ (if is_chunk (M.model memory.now).segments offset.value then Some (place (M.model memory.now) offset.value, room (M.model memory.now) offset.value) else None) }
    ensures within { IfSome result (λ p. p.0 + p.1 ≤ (M.model memory.now).capacity) }
{
    memory.bucket(offset)?;
    let segment = usize::from(offset.segment_id());
    let start = memory.start(segment)?;
    Some((start + offset.offset(), memory.bucket_size(segment)))
}

fn overwrite(bytes: &mut [u8], start: usize, source: &[u8])
    requires { start + length source.now ≤ length bytes.old }
    ensures { bytes.new ≡ overwritten bytes.old start source.now }
{
    let end = start + source.len();
    bytes[start..end].copy_from_slice(source);
}

/// Writes `source` from the chunk's place on, and no other byte.
pub fn fill<M: Segmented>(
    memory: &M,
    bytes: &mut [u8],
    offset: PointerOffset,
    source: &[u8],
) -> Result<(), FillError>
    ensures fault { result_err result ≡ fill_fault (M.model memory.now) bytes.old offset.value source.now }
    ensures after { bytes.new ≡ filled (M.model memory.now) bytes.old offset.value source.now }
{
    let (start, room) = locate(memory, offset).ok_or(FillError::OutOfBounds)?;
    if source.len() > room || bytes.len() < memory.capacity() {
        return Err(FillError::OutOfBounds);
    }
    overwrite(bytes, start, source);
    Ok(())
}

/// Hands out the payload of a taken chunk, without a copy.
pub fn payload<'a, M: Segmented>(
    memory: &M,
    bytes: &'a [u8],
    offset: PointerOffset,
) -> Result<&'a [u8], ReadError>
    ensures fault { result_err result ≡ read_fault (M.model memory.now) bytes.now offset.value }
    ensures part { IfOk result (λ p. p.now ≡ payload (M.model memory.now) bytes.now offset.value) }
{
    let (start, room) = locate(memory, offset).ok_or(ReadError::NotBorrowed)?;
    if !memory.is_taken(offset) {
        return Err(ReadError::NotBorrowed);
    }
    if bytes.len() < memory.capacity() {
        return Err(ReadError::OutOfBounds);
    }
    let end = start + room;
    Ok(&bytes[start..end])
}
