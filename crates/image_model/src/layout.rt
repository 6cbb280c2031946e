ghost use Rattle.std.specs.Prelude.{◌≡◌};
ghost use Rattle.image_model.specs.Layout.{area_size_of, areas_of};

/// How the journal areas of a device lie: a ring of them has twice the bytes of a geometry's area.
#[derive(Clone, Copy, Debug, PartialEq, Eq)]
pub enum Layout {
    /// Two areas of that size.
    One,
    /// Four areas of half that size.
    Two,
}

impl Layout {
    /// The journal areas of a device.
    pub const fn areas(self) -> u8
        ensures { result ≡ areas_of self }
    {
        match self {
            Layout::One => 2,
            Layout::Two => 4,
        }
    }

    /// The bytes of each of them, if a geometry's area has `area` bytes.
    pub const fn area_size(self, area: u32) -> u32
        ensures { result ≡ area_size_of self area }
    {
        match self {
            Layout::One => area,
            Layout::Two => area / 2,
        }
    }
}
