ghost use Rattle.std.specs.Prelude.{◌≡◌, ◌⊎◌, ◌∷◌, ◌++◌, ◌<◌, [], IfSome};
ghost use Rattle.command_line.specs.Size.{HasUnit, IsSize};

/// The bytes that a size says, where it is one and they fit 64 bits: decimal digits, alone or with K, M, G or T after
/// them, in either case.
pub fn bytes_of(text: &str) -> Option<u64>
    ensures { IfSome result (IsSize text.now) }
{
    let (digits, unit) = split_unit(text);
    match digits.parse::<u64>() {
        Ok(number) => number.checked_mul(unit),
        Err(_) => None,
    }
}

// What stands before the letter of a size, and what the letter multiplies it by.
fn split_unit(text: &str) -> (&str, u64)
    ensures { HasUnit text.now result.0.now result.1 }
{
    if let Some(digits) = without(text, 'K', 'k') {
        return (digits, 1 << 10);
    }
    if let Some(digits) = without(text, 'M', 'm') {
        return (digits, 1 << 20);
    }
    if let Some(digits) = without(text, 'G', 'g') {
        return (digits, 1 << 30);
    }
    if let Some(digits) = without(text, 'T', 't') {
        return (digits, 1 << 40);
    }
    (text, 1)
}

// The text without one of these letters at its end.
fn without(text: &str, capital: char, small: char) -> Option<&str>
    requires capital { capital < 128 }
    requires small { small < 128 }
    ensures { IfSome result (λ rest. (text.now ≡ rest.now ++ capital ∷ []) ⊎ (text.now ≡ rest.now ++ small ∷ [])) }
{
    match text.strip_suffix(capital) {
        Some(rest) => Some(rest),
        None => text.strip_suffix(small),
    }
}
