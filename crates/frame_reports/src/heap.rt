//! How the C library takes memory from the system, where that costs a frame time.
use cull_base::Memory;
use std::alloc::Global;

/// Asks for a large block of bytes that nobody touches, and gives it up. The C library's heap of a thread then has room
/// for as much: otherwise it grows by what is asked for each time, in a call of the system. And freed memory is handed
/// back where more lies free than twice the largest block that was given back so far: after this, less than that is kept
/// for the next frame and isn't made anew, page by page.
pub fn keep_freed_memory(alloc: Global, bytes: usize) -> Result<(), Memory> {
    let block: Vec<u8> = Vec::with_capacity(alloc, bytes).map_err(|_| Memory)?;
    drop(block);
    Ok(())
}
