// Texts too long to write out, and what the tests ask of answers and buffers.
use smtp::Refusal;
use std::alloc::{AllocError, Global};

// The number by which a call is refused, if it is.
pub fn number<T: Copy>(answer: Result<T, Refusal>) -> Option<u8> {
    match answer {
        Ok(_) => None,
        Err(refusal) => Some(refusal.number()),
    }
}

// Whether a buffer, in which each byte was 7, holds a text at its front and is as it was behind that.
pub fn is_at_front(text: &[u8], buffer: &[u8]) -> bool {
    buffer
        .strip_prefix(text)
        .is_some_and(|rest| rest.iter().all(|b| *b == 7))
}

// A text of `n` bytes: the front, as many `x` as it takes, and the back.
pub fn padded(heap: Global, front: &[u8], n: usize, back: &[u8]) -> Result<Vec<u8>, AllocError> {
    let mut text = Vec::new(heap);
    text.extend_from_slice(front)?;
    text.resize(n.saturating_sub(back.len()), b'x')?;
    text.extend_from_slice(back)?;
    Ok(text)
}

// One line `n` times, and what stands behind that.
pub fn repeated(heap: Global, line: &[u8], n: usize, last: &[u8]) -> Result<Vec<u8>, AllocError> {
    let mut text = line.repeat(heap, n)?;
    text.extend_from_slice(last)?;
    Ok(text)
}
