//! The words of a line.
ghost use Rattle.console.specs.Words.{Parted};

/// The first word of a text, and the rest, both without white space around them. Words end at a space.
pub fn first_word(text: &str) -> (&str, &str)
    ensures { Parted text.now result.0.now result.1.now }
{
    let text = text.trim();
    match text.split_once(' ') {
        Some((word, rest)) => (word, rest.trim()),
        None => (text, ""),
    }
}
