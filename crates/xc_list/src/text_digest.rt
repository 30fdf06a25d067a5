//! The digest of a text, which tells a text that was altered: eight bytes at a time, by the product that hashes a problem.
ghost use Rattle.std.specs.Prelude.{◌≡◌};
ghost use Rattle.xc_list.specs.Digests.{begun_digest, after_byte, after_text, digits_of};

use crate::digest::{START, hexadecimal, taken};

/// The digest of a text so far: the state after each eight of its bytes, and those that make no eight yet, the last of
/// them the highest byte of a number.
#[derive(Clone, Copy)]
pub struct TextDigest {
    state: u64,
    word: u64,
    held: u64,
}

impl TextDigest {
    /// That of no bytes.
    pub fn new() -> TextDigest
        ensures { result ≡ begun_digest }
    {
        TextDigest {
            state: START,
            word: 0,
            held: 0,
        }
    }

    /// The digest after one byte more.
    #[inline(always)]
    fn after_byte(self, byte: u8) -> TextDigest
        ensures { result ≡ after_byte self byte }
    {
        let word = (self.word >> 8) + (u64::from(byte) << 56);
        if self.held < 7 {
            return TextDigest {
                state: self.state,
                word,
                held: self.held + 1,
            };
        }
        TextDigest {
            state: taken(self.state, word),
            word: 0,
            held: 0,
        }
    }

    /// The digest after the bytes up to a whole eight, and those that are left.
    #[inline(always)]
    fn filled<'a>(self, bytes: &'a [u8]) -> (TextDigest, &'a [u8])
        ensures { after_text result.0 result.1.now ≡ after_text self bytes.now }
    {
        let mut digest = self;
        let mut left = bytes;
        while digest.held != 0 {
            let [first, rest @ ..] = left else {
                return (digest, left);
            };
            digest = digest.after_byte(*first);
            left = rest;
        }
        (digest, left)
    }

    /// The digest after each eight of bytes, if none is held, and those that are left.
    #[inline(always)]
    fn after_eights<'a>(self, bytes: &'a [u8]) -> (TextDigest, &'a [u8])
        ensures { after_text result.0 result.1.now ≡ after_text self bytes.now }
    {
        if self.held != 0 || self.word != 0 {
            return (self, bytes);
        }
        let mut state = self.state;
        let mut left = bytes;
        while let [a, b, c, d, e, f, g, h, rest @ ..] = left {
            state = taken(state, u64::from_le_bytes([*a, *b, *c, *d, *e, *f, *g, *h]));
            left = rest;
        }
        let digest = TextDigest {
            state,
            word: 0,
            held: 0,
        };
        (digest, left)
    }

    /// The digest after more bytes, one by one.
    #[inline(always)]
    fn after_each(self, bytes: &[u8]) -> TextDigest
        ensures { result ≡ after_text self bytes.now }
    {
        let mut digest = self;
        for byte in bytes {
            digest = digest.after_byte(*byte);
        }
        digest
    }

    /// Takes more bytes of the text.
    pub fn take(&mut self, bytes: &[u8])
        ensures { self.new ≡ after_text self.old bytes.now }
    {
        let (digest, left) = self.filled(bytes);
        let (digest, left) = digest.after_eights(left);
        *self = digest.after_each(left);
    }

    /// The digest of the text as 16 hexadecimal digits in lower case.
    pub fn digits(&self) -> [u8; 16]
        ensures { result ≡ digits_of self.now }
    {
        hexadecimal(taken(taken(self.state, self.word), self.held))
    }
}
