//! Numbers as decimal digits.
ghost use Rattle.console.specs.Words.{NumberRead};

/// The number that is written in decimal digits, with no sign, or none where it is not written so or not below 2^64.
pub fn number(text: &str) -> Option<u64>
    ensures { NumberRead text.now result }
{
    if text.starts_with('+') {
        return None;
    }
    text.parse().ok()
}
