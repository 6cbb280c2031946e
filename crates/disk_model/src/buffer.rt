// A buffer is made this small before it is freed.
const LEAST: usize = 4_096;

/// Frees the memory of a buffer.
///
/// The C library keeps freed memory up to twice the longest block that was freed at once, for each thread. So a long block is made
/// short first: most of it goes back to the system, and what is freed at last isn't long.
pub fn free_buffer(buffer: Vec<u8>) {
    let mut buffer = buffer;
    buffer.clear();
    buffer.shrink_to(LEAST);
}
