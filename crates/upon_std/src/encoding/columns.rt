// The columns that texts take in a terminal.
ghost use Rattle.std.specs.Prelude.{◌≡◌, ◌-◌, ◌≤◌, chars, nat_le};
ghost use Rattle.upon_std.specs.Encoding.Columns.{columns_of, width};

use unicode_width::UnicodeWidthChar;

// The columns of a character; 0 of a control character.
pub(crate) fn width(character: char) -> usize
    ensures { result ≡ width character }
{
    character.width().unwrap_or(0)
}

// How many columns are left of these beside a text.
pub(crate) fn columns_beside(text: &str, most: usize) -> usize
    ensures { result ≡ most - columns_of (chars text.now) }
{
    let mut left = most;
    for character in text.chars() {
        left = left.saturating_sub(width(character));
    }
    left
}

// Whether a text takes no more than these columns.
pub(crate) fn fits(text: &str, most: usize) -> bool
    ensures { result ≡ nat_le (columns_of (chars text.now)) most }
{
    let mut left = most;
    for character in text.chars() {
        let taken = width(character);
        if left < taken {
            return false;
        }
        left -= taken;
    }
    true
}
