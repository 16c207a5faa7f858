//! Bytes as hexadecimal digits, two a byte.
ghost use Rattle.std.specs.Prelude.{◌≡◌, IfOk, IfSome, vec_items};
ghost use Rattle.std.specs.Option.{option_map};
ghost use Rattle.console.specs.Words.{digit_of, joined, byte_of, spelt, Spells, run_word};

use std::alloc::{AllocError, Global};
use std::fmt;

/// The value of a digit in either case, or none where the character is no digit.
fn digit(character: u8) -> Option<u8>
    ensures { result ≡ digit_of character }
{
    char::from(character).to_digit(16).map(|value| value as u8)
}

/// The byte of two digits, the higher first, or none where one of them is no digit.
fn pair(high: u8, low: u8) -> Option<u8>
    ensures { result ≡ joined (digit_of high) (digit_of low) }
{
    Some(digit(high)? * 16 + digit(low)?)
}

/// The byte that is written as exactly two digits, or none.
pub fn byte(text: &str) -> Option<u8>
    ensures { result ≡ byte_of text.now }
{
    match *text.as_bytes() {
        [high, low] => pair(high, low),
        _ => None,
    }
}

/// The bytes that are written as two digits each, or none where a character is no digit or one digit is left over.
pub fn bytes(heap: Global, text: &str) -> Result<Option<Vec<u8>>, AllocError>
    ensures spelt { IfOk result (λ o. option_map vec_items o ≡ spelt text.now) }
    ensures spells { IfOk result (λ o. IfSome o (λ v. Spells text.now v.items)) }
{
    let characters = text.as_bytes();
    if characters.len() % 2 != 0 {
        return Ok(None);
    }
    let mut all = Vec::new(heap);
    for digits in characters.chunks_exact(2) {
        let Some(byte) = pair(digits[0], digits[1]) else {
            return Ok(None);
        };
        all.push(byte)?;
    }
    Ok(Some(all))
}

/// The bytes that a word stands for: a dash for no bytes, or at least one byte, as two digits each. None where it is not written so.
pub fn run(heap: Global, text: &str) -> Result<Option<Vec<u8>>, AllocError>
    ensures { IfOk result (λ o. option_map vec_items o ≡ run_word text.now) }
{
    match text {
        "" => Ok(None),
        "-" => Ok(Some(Vec::new(heap))),
        _ => bytes(heap, text),
    }
}

/// Bytes to be shown as digits in lower case, or as a dash where there are none.
#[derive(Clone, Copy)]
pub struct Hex<'a>(pub &'a [u8]);

impl fmt::Display for Hex<'_> {
    fn fmt<W: fmt::Write>(&self, f: &mut fmt::Formatter<W>) -> fmt::Result {
        if self.0.is_empty() {
            return write!(f, "-");
        }
        for byte in self.0 {
            write!(f, "{byte:02x}")?;
        }
        Ok(())
    }
}
