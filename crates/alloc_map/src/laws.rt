ghost use Rattle.std.specs.Prelude.{◌≡◌, ◌<◌, ℕ, List, length, slice_index};
ghost use Rattle.alloc_map.specs.Map.{IsMapOf, IsBadMap};
ghost use Rattle.image_model.specs.declared.command.Kind.{Kind};

/// What holds of maps and their bytes, beside the calls: bytes are the map of one list of states only, states have one
/// spelling only, and bytes that are a map of some states aren't refused.
pub fn map_laws()
    ensures one_map { (bytes : List ℕ) (states others : List Kind) → length states ≡ length others →
        IsMapOf bytes states → IsMapOf bytes others → states ≡ others }
    ensures one_spelling { (states : List Kind) (bytes others : List ℕ) →
        ((place : ℕ) → slice_index bytes place < 256) → ((place : ℕ) → slice_index others place < 256) →
        IsMapOf bytes states → IsMapOf others states → bytes ≡ others }
    ensures never_bad { (bytes : List ℕ) (states : List Kind) → IsMapOf bytes states →
        IsBadMap (length states) bytes → ⊥ }
{}
