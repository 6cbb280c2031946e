ghost use Rattle.std.specs.Prelude.{◌≡◌, ◌*◌, ℕ, IfSome};
ghost use Rattle.command_line.specs.Seconds.{IsFraction, IsNumber, IsScale, IsSeconds};

/// The milliseconds that a number of seconds says, where it is one and they fit 64 bits: decimal digits, which may have a point after them
/// and one to three more.
pub fn millis_of(text: &str) -> Option<u64>
    ensures { IfSome result (IsSeconds text.now) }
{
    match text.split_once('.') {
        Some((before, behind)) => whole(before)?.checked_add(thousandths(behind)?),
        None => whole(text),
    }
}

// The milliseconds of a whole number of seconds.
fn whole(text: &str) -> Option<u64>
    ensures { IfSome result (λ millis. (seconds : ℕ) × IsNumber text.now seconds × (millis ≡ seconds * 1000)) }
{
    match text.parse::<u64>() {
        Ok(seconds) => seconds.checked_mul(1000),
        Err(_) => None,
    }
}

// The milliseconds that digits after the point say.
fn thousandths(digits: &str) -> Option<u64>
    ensures { IfSome result (IsFraction digits.now) }
{
    let scale = scale_of(digits.len())?;
    match digits.parse::<u64>() {
        // A sign stands before the point alone.
        Ok(number) if !digits.starts_with('+') => number.checked_mul(scale),
        _ => None,
    }
}

// The milliseconds that one of the last digit counts, of this many digits after the point.
fn scale_of(digits: usize) -> Option<u64>
    ensures { IfSome result (IsScale digits) }
{
    if digits == 1 {
        return Some(100);
    }
    if digits == 2 {
        return Some(10);
    }
    if digits == 3 {
        return Some(1);
    }
    None
}
