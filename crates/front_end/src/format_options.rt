use image_model::Layout;

/// How an image is made of a file or of a block device.
#[derive(Clone, Copy, PartialEq, Eq)]
pub struct FormatOptions {
    /// Whether all of it is written before, and not only journal and maps.
    pub preallocates: bool,
    /// Whether data that are there may be lost.
    pub replaces: bool,
}

/// The sizes of an image that is made of a source.
#[derive(Clone, Copy)]
pub struct ImportSizes {
    /// How many blocks it has; as many as the source, if that isn't said.
    pub blocks: Option<u64>,
    /// The bytes of an area of layout 1, or of two of layout 2.
    pub area: u32,
    pub layout: Layout,
}
