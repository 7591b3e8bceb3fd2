// Writers over memory.
use dcm_base::{MemOut, Watched};
use std::alloc::{AllocError, Global};

/// Room for so many bytes.
pub fn room(alloc: Global, size: usize) -> Result<Vec<u8>, AllocError> {
    vec![in alloc; 0; size]
}

/// A writer over memory with room for so many bytes.
pub fn memory_out(alloc: Global, size: usize) -> Result<Watched<MemOut>, AllocError> {
    Ok(Watched::new(MemOut::new(room(alloc, size)?)))
}

/// What was written into memory.
pub fn bytes_in(alloc: Global, out: &MemOut) -> Result<Vec<u8>, AllocError> {
    out.written().to_vec(alloc)
}
