// A few bytes, of which each of many bytes may be one: asked without a branch, so that many are asked at once.
ghost use Rattle.std.specs.Prelude.{◌≡◌, ◌≢◌, ◌<◌, ℕ, IfSome, slice_index_or, true};
ghost use Rattle.upon_delimiters.specs.ByteSet.{IsIn};

/// At most six bytes: so many from the first place on. What is at the others does not count.
#[derive(Clone, Copy)]
pub(crate) struct ByteSet {
    bytes: [u8; 6],
    count: usize,
}

impl ByteSet {
    /// Creates the set of no byte.
    pub(crate) fn new() -> ByteSet {
        ByteSet {
            bytes: [0; 6],
            count: 0,
        }
    }

    /// Returns these bytes and one more; `None` if they are then more than six.
    pub(crate) fn with(self, byte: u8) -> Option<ByteSet>
        ensures more { IfSome result (λ set. IsIn set byte) }
        ensures kept { IfSome result (λ set. (b : ℕ) → IsIn self b → IsIn set b) }
    {
        if self.holds(byte) {
            return Some(self);
        }
        if self.count >= 6 {
            return None;
        }
        let mut bytes = self.bytes;
        put(&mut bytes, self.count, byte);
        Some(ByteSet {
            bytes,
            count: self.count + 1,
        })
    }

    /// Returns whether there is none.
    pub(crate) fn is_empty(self) -> bool
        ensures { result ≡ true → (byte : ℕ) → IsIn self byte → ⊥ }
    {
        self.count == 0
    }

    // Whether a byte is one of them.
    fn holds(self, byte: u8) -> bool
        ensures { result ≡ true → IsIn self byte }
    {
        for place in 0..6 {
            if place < self.count && self.bytes[place] == byte {
                return true;
            }
        }
        false
    }

    /// Returns whether a byte is one of them; it may say so of 0 in any case.
    pub(crate) fn has(self, byte: u8) -> bool
        ensures { IsIn self byte → result ≡ true }
    {
        let mut found = false;
        for place in 0..6 {
            found |= self.bytes[place] == byte;
        }
        found
    }
}

// Puts a byte at a place.
fn put(bytes: &mut [u8; 6], place: usize, byte: u8)
    requires { place < 6 }
    ensures there { slice_index_or bytes.new place 0 ≡ byte }
    ensures others { (other : ℕ) → other ≢ place → slice_index_or bytes.new other 0 ≡ slice_index_or bytes.old other 0 }
{
    bytes[place] = byte;
}
