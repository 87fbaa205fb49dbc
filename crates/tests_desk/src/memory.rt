//! Memory of which nothing is left.
use std::alloc::{AllocError, Global};

/// All memory, in blocks of falling size: until they are dropped not even a byte is to be had.
pub fn exhausted(alloc: Global) -> Result<Vec<Vec<u8>>, AllocError> {
    let mut held: Vec<Vec<u8>> = Vec::with_capacity(alloc, 200_000)?;
    let mut size: usize = 1 << 44;
    for _ in 0..45 {
        for _ in 0..12_000 {
            match Vec::with_capacity(alloc, size) {
                Ok(block) => {
                    if held.len() >= 199_000 {
                        return Ok(held);
                    }
                    held.push(block)?;
                }
                Err(_) => break,
            }
        }
        if size > 1 {
            size /= 2;
        }
    }
    Ok(held)
}
