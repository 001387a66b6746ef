//! Numbers in words.
ghost use Rattle.std.specs.Prelude.{◌≡◌, ◌≤◌, ◌↔◌, IsTrue, All, Some, option_map};
ghost use Rattle.bh_words.specs.Settings.{Finds};
ghost use Rattle.bh_words.specs.Numbers.{IsNumber, IsDigit, IsGiven};

/// Whether each byte is a decimal digit.
fn are_digits(text: &[u8]) -> bool
    ensures { IsTrue result ↔ All IsDigit text.now }
{
    text.iter().all(|byte| *byte >= b'0' && *byte <= b'9')
}

/// The number that the text is, in 1 to 13 decimal digits.
pub(crate) fn number(text: &str) -> Option<u64>
    ensures { Finds (IsNumber text.now) result }
{
    if text.is_empty() {
        return None;
    }
    if text.len() > 13 {
        return None;
    }
    if !are_digits(text.as_bytes()) {
        return None;
    }
    match text.parse::<u64>() {
        Ok(n) => Some(n),
        Err(_) => None,
    }
}

/// The number that the text is, or the default where there is no text.
pub(crate) fn given(text: Option<&str>, default: u64) -> Option<u64>
    ensures { Finds (λ n. IsGiven (option_map (λ s. s.now) text.entry) (Some default) (Some n)) result }
{
    match text {
        Some(text) => number(text),
        None => Some(default),
    }
}
