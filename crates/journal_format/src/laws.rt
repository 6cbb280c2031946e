ghost use Rattle.std.specs.Prelude.{◌≡◌, ℕ, ◌+◌, ◌*◌, ◌<◌, ◌≤◌, ◌^◌, List, Some};
ghost use Rattle.image_model.specs.Image.{Image, apply_all};
ghost use Rattle.journal_format.specs.Area.{AreaState};
ghost use Rattle.journal_format.specs.GroupList.{IsDamaged, IsList, changes_of};
ghost use Rattle.journal_format.specs.Spelling.{StoredGroup};
ghost use Rattle.journal_format.specs.declared.touch.Touch.TheVariants.{Put};
ghost use Rattle.journal_format.specs.declared.touch.TouchedRange.{TouchedRange};
ghost use Rattle.journal_format.specs.Touches.{AreWithin, byte_after_touch, kind_after, last_touch, touched_by_groups};

/// A law: the bytes of an area hold at most one list of groups, where its first number is known.
pub fn holds_one_list()
    ensures { (area : AreaState) (first : ℕ) (content : List ℕ) (groups others : List StoredGroup) → area.blocks < 2 ^ 64
        → IsList area first groups content → IsList area first others content → groups ≡ others }
{}

/// A law: an area that is damaged holds no list of groups.
pub fn damaged_holds_none()
    ensures { (area : AreaState) (first : ℕ) (content : List ℕ) (groups : List StoredGroup) → area.blocks < 2 ^ 64
        → IsDamaged area first content → IsList area first groups content → ⊥ }
{}

/// A law: what the commands of an area's list make of an image is told by the last touch of each block: its state, and
/// its bytes, which are those that stand in the area where the last touch is a put.
pub fn last_touches_tell()
    ensures kinds { (area : AreaState) (first : ℕ) (groups : List StoredGroup) (content : List ℕ) → IsList area first groups content
        → area.touched ≡ touched_by_groups area.from groups → (image : Image) (block : ℕ)
        → (apply_all (changes_of groups) image).kind block ≡ kind_after (last_touch block area.touched) (image.kind block) }
    ensures bytes { (area : AreaState) (first : ℕ) (groups : List StoredGroup) (content : List ℕ) → IsList area first groups content
        → area.touched ≡ touched_by_groups area.from groups → (image : Image) (block offset : ℕ) → offset < 4096
        → (apply_all (changes_of groups) image).byte (4096 * block + offset)
        ≡ byte_after_touch (last_touch block area.touched) content offset (image.byte (4096 * block + offset)) }
{}

/// A law: where the bytes of all puts stand between two places of the device, so do those of a block whose last touch is
/// a put.
pub fn last_puts_within()
    ensures { (from end block place : ℕ) (touched : List TouchedRange) → AreWithin from end touched
        → last_touch block touched ≡ Some (Put place) → (from ≤ place) × (place + 4096 ≤ end) }
{}
