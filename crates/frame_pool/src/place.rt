// The list that a frame is in.
#[derive(Clone, Copy, PartialEq, Eq)]
pub enum Place {
    Free,
    Clean,
    Dirty,
}
