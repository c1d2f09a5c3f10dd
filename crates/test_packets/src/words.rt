//! Parts of the bytes of a line.

/// This many of the bytes, from this one on, or zeros if there are fewer.
pub fn bytes_at<const N: usize>(bytes: &[u8], start: usize) -> [u8; N] {
    let rest = bytes.get(start..).unwrap_or(&[]);
    rest.first_chunk().copied().unwrap_or([0; N])
}
