// Texts that are handed out in the caller's buffer.
ghost use Rattle.std.specs.Prelude.{◌≡◌, ◌≤◌, ◌<◌, length, take, drop};
ghost use Rattle.upon_c.specs.Given.{GivesFailure};

use std::alloc::Global;
use upon_calls::failure::Failure;

// The status if `out` is too small, and if memory is out.
const TOO_SMALL: u8 = 4;

const OUT_OF_MEMORY: u8 = 5;

/// Writes a text to the begin of `out`, and its length to `size`, and returns the status; if `out` has no room for it,
/// that stays, and the status is 4.
pub(crate) fn give(status: u8, text: &[u8], out: &mut [u8], size: &mut usize) -> u8
    ensures size { size.new ≡ length text.now }
    ensures status { length text.now ≤ length out.old → result ≡ status }
    ensures text { length text.now ≤ length out.old → take (length text.now) out.new ≡ text.now }
    ensures rest { length text.now ≤ length out.old
        → drop (length text.now) out.new ≡ drop (length text.now) out.old }
    ensures small { length out.old < length text.now → result ≡ 4 }
    ensures same { length out.old < length text.now → out.new ≡ out.old }
{
    *size = text.len();
    if text.len() > out.len() {
        return TOO_SMALL;
    }
    out[..text.len()].copy_from_slice(text);
    status
}

/// Does the same with the text of a failure, whose status it returns. If memory is out, `size` is 0 and the status is
/// 5.
pub(crate) fn give_failure(alloc: Global, failure: Failure, out: &mut [u8], size: &mut usize) -> u8
    ensures { GivesFailure failure result size.new out.old out.new }
{
    let status = failure.status();
    match failure.into_text(alloc) {
        Ok(text) => give(status, text.as_bytes(), out, size),
        Err(_) => {
            *size = 0;
            OUT_OF_MEMORY
        }
    }
}
