ghost use Rattle.std.specs.Prelude.{◌≡◌, ◌<◌, MatchOption};
ghost use Rattle.image_model.specs.Side.{index_of, other_of};

/// One of two: of a device's header slots, areas or map slots.
#[derive(Clone, Copy, Debug, PartialEq, Eq)]
pub enum Side {
    Zero,
    One,
}

impl Side {
    /// The side with this index; none but 0 and 1 is one.
    pub fn from_index(index: u8) -> Option<Side>
        ensures { MatchOption result (1 < index) (λ side. index ≡ index_of side) }
    {
        match index {
            0 => Some(Side::Zero),
            1 => Some(Side::One),
            _ => None,
        }
    }

    /// 0 or 1.
    pub fn index(self) -> u8
        ensures { result ≡ index_of self }
    {
        match self {
            Side::Zero => 0,
            Side::One => 1,
        }
    }

    /// The side that isn't this one.
    pub fn other(self) -> Side
        ensures { result ≡ other_of self }
    {
        match self {
            Side::Zero => Side::One,
            Side::One => Side::Zero,
        }
    }
}
