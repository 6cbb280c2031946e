ghost use Rattle.std.specs.Prelude.{◌≡◌, ◌<◌, ℕ, List, slice_index, Result};
ghost use Rattle.header_slots.specs.Header.{SpellsAt};
ghost use Rattle.header_slots.specs.Slots.{IsInForce, HoldsHeader, HoldsNone, HoldsBad, IsReading};
ghost use Rattle.header_slots.specs.declared.fault.HeaderFault.{HeaderFault};
ghost use Rattle.header_slots.specs.declared.header.Header.{Header};
ghost use Rattle.image_model.specs.declared.side.Side.{Side};

/// What holds of headers and slots, beside the calls. A device has at most one header in force; where it has one, neither
/// refusal 7 (no header) nor refusal 8 (bad header) stands, and where one of these stands, the other doesn't. All of this
/// depends on the first 4,136 bytes alone, and on the device's size.
pub fn header_laws()
    ensures one_slot { (content : List ℕ) (slot other : Side) → IsInForce content slot → IsInForce content other →
        slot ≡ other }
    ensures one_header { (content : List ℕ) (place : ℕ) (header other : Header) → SpellsAt content place header →
        SpellsAt content place other → header ≡ other }
    ensures held_or_none { (content : List ℕ) (size : ℕ) (header : Header) (slot : Side) →
        HoldsHeader content size header slot → HoldsNone content size → ⊥ }
    ensures held_or_bad { (content : List ℕ) (size : ℕ) (header : Header) (slot : Side) →
        HoldsHeader content size header slot → HoldsBad content size → ⊥ }
    ensures none_or_bad { (content : List ℕ) (size : ℕ) → HoldsNone content size → HoldsBad content size → ⊥ }
    ensures same_reading { (content other : List ℕ) →
        ((k : ℕ) → k < 4136 → slice_index content k ≡ slice_index other k) →
        (size : ℕ) (result : Result (Header × Side) HeaderFault) →
        IsReading content size result → IsReading other size result }
{}
