/// Blocks that follow one another: from the first one on, up to one that isn't among them.
#[derive(Clone, Copy)]
pub struct Span {
    pub first: u64,
    pub end: u64,
}
