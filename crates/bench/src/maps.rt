//! Sag maps: 128 x 128 heights of two bytes.

pub(crate) const MAP_BYTES: usize = 32768;

const SIDE: usize = 128;

/// The map's number gives the bowl its depth, so that no two maps are alike.
pub(crate) fn draw(bytes: &mut [u8], map: usize) {
    for (i, height) in bytes.chunks_exact_mut(2).enumerate() {
        let row = (i / SIDE % SIDE) as u16;
        let column = (i % SIDE) as u16;
        let depth = (row * row + column * column) / 64 + (map % 100) as u16;
        height.copy_from_slice(&depth.to_le_bytes());
    }
}

pub(crate) fn sum(bytes: &[u8]) -> u64 {
    bytes
        .iter()
        .fold(0, |total: u64, b| total.saturating_add(u64::from(*b)))
}
