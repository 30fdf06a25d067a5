//! Guesses at the name that a text begins with, and at the place of a colour. They may be wrong: whoever takes one
//! compares it, and a wrong one costs only time.
//!
//! The bytes of a name are taken as a number eight at a time, where a hash takes one at a time; the names of a problem
//! are short and few beside their uses, so most guesses are right. A name of up to seven bytes is known by its number
//! alone, which no other text has: so the start of the next token doesn't wait for a table. Reading many uses takes
//! 0.29 of the instructions that looking each name up takes, and reading many coloured uses 0.38.
//!
//! The table of colours has a fixed size and learns a colour at its second use. Tried before: a guess by the first 16
//! bytes, with a look-up at each use of a longer name; a name and its colour guessed as one token, with two look-ups
//! for each; and four times as many places for 100,000 names, which was slower by cache misses.

ghost use Rattle.std.specs.Prelude.{◌≡◌, ◌<◌, ◌≤◌, ◌↔◌, ℕ, ◌+◌, ◌*◌, ◌%◌, ◌^◌, [], ◌∷◌, Some, IfOk, IfSome, length};
ghost use Rattle.std.specs.Prelude.{take, slice_get, slice_set, unwrap_or, min, replicate, All};
ghost use Rattle.xc_input.specs.Limits.{most_uses};
ghost use Rattle.xc_input.specs.inner.Stored.{word_number, IsWordOf, AreWords, key_names};

use crate::limits::{LONGEST_NAME, MOST_ITEMS, MOST_USES};
use crate::names::NameSet;
use crate::stage::{ColourGuesses, Guesses};
use std::alloc::{AllocError, Global};

/// By how many bits the bytes of a name are turned for its own number.
pub const OWN: u32 = 0;

/// The same for its other number, at which the table has it where another name has its own.
pub const OTHER: u32 = 32;

impl Guesses {
    /// For no names.
    pub fn none(alloc: Global) -> Guesses
        ensures words { result.words.items ≡ [] }
        ensures places { result.places.items ≡ [] }
    {
        Guesses {
            places: Vec::new(alloc),
            words: Vec::new(alloc),
        }
    }

    /// For these names.
    pub fn new(alloc: Global, names: &NameSet) -> Result<Guesses, AllocError>
        ensures words { IfOk result (λ g. AreWords (key_names names.now.keys) g.words.items) }
        ensures places { IfOk result (λ g. All (λ at. at < length names.now.keys) g.places.items) }
    {
        let words = words_of(alloc, names)?;
        let places = places_of(alloc, names, words.as_slice())?;
        Ok(Guesses { places, words })
    }

    /// The number that a word, or the front of a longer name, has in the table.
    #[inline(always)]
    pub fn number(&self, bytes: u64) -> usize
        ensures { 0 < length self.now.places.items → result < length self.now.places.items }
    {
        number(bytes, self.places.len())
    }

    /// The place that the table has at a number, if the name of that place is this word.
    #[inline(always)]
    pub fn known(&self, number: usize, word: u64) -> Option<usize>
        ensures { (at : ℕ) → (result ≡ Some at) ↔ ((slice_get self.now.places.items number ≡ Some at)
            × (slice_get self.now.words.items at ≡ Some word)) }
    {
        let at = *self.places.get(number)? as usize;
        if *self.words.get(at)? != word {
            return None;
        }
        Some(at)
    }

    /// The place that the table has at a number, 0 where there is no such number.
    #[inline(always)]
    pub fn guess(&self, number: usize) -> usize
        ensures { result ≡ unwrap_or (slice_get self.now.places.items number) 0 }
    {
        place_at(&self.places, number)
    }
}

impl ColourGuesses {
    /// For no colours.
    pub fn none(alloc: Global) -> ColourGuesses
        ensures { result.places.items ≡ [] }
    {
        ColourGuesses {
            places: Vec::new(alloc),
        }
    }

    /// For colours that are still to be met. The table has a fixed size, and learns a colour when it is met again.
    pub fn new(alloc: Global) -> Result<ColourGuesses, AllocError>
        ensures { IfOk result (λ g. g.places.items ≡ replicate 4096 0) }
    {
        let places = vec![in alloc; 0; 4096]?;
        Ok(ColourGuesses { places })
    }

    /// Guesses this place for the colours of this number from now on, if the table has it.
    pub fn learn(&mut self, number: usize, place: usize)
        ensures { self.new.places.items ≡ slice_set self.old.places.items number (min place most_uses) }
    {
        if let Some(known) = self.places.get_mut(number) {
            *known = place.min(MOST_USES) as u32;
        }
    }

    /// The place that was learned last for a colour of this number, 0 where none was or there is no such number.
    #[inline(always)]
    pub fn learned(&self, number: usize) -> usize
        ensures { result ≡ unwrap_or (slice_get self.now.places.items number) 0 }
    {
        place_at(&self.places, number)
    }

    /// The number that a colour has in the table: the byte itself where it has one.
    pub fn number(&self, colour: &[u8]) -> usize
        ensures byte { (byte : ℕ) → colour.now ≡ byte ∷ [] → result ≡ byte }
        ensures within { 256 ≤ length self.now.places.items → result < length self.now.places.items }
    {
        match colour {
            [a] => *a as usize,
            _ => number(first_bytes(colour), self.places.len()),
        }
    }
}

/// The place that a table has at a number, 0 where there is no such number.
#[inline(always)]
fn place_at(places: &[u32], number: usize) -> usize
    ensures { result ≡ unwrap_or (slice_get places.now number) 0 }
{
    match places.get(number) {
        Some(place) => *place as usize,
        None => 0,
    }
}

/// The numbers of the names, 0 for one of more than seven bytes.
fn words_of(alloc: Global, names: &NameSet) -> Result<Vec<u64>, AllocError>
    ensures { IfOk result (λ v. AreWords (key_names names.now.keys) v.items) }
{
    let mut words = Vec::new(alloc);
    while let Some(name) = names.get_index(words.len()) {
        words.push(short_number(name.as_slice()))?;
    }
    Ok(words)
}

/// A table of places, where a place is at the own number of its name, or at the other one where that was taken.
fn places_of(alloc: Global, names: &NameSet, words: &[u64]) -> Result<Vec<u32>, AllocError>
    ensures within { IfOk result (λ v. All (λ at. at < length names.now.keys) v.items) }
    ensures few { IfOk result (λ v. length v.items ≤ 2 ^ 18) }
{
    let few = names.len().min(MOST_ITEMS);
    let mut places = vec![in alloc; 0; (few * 16).min(1 << 18)]?;
    // From the last name to the first, since 0 stands for a free number too.
    for i in (0..few).rev() {
        let bytes = match words.get(i) {
            Some(word) if *word != 0 => *word,
            _ => match names.get_index(i) {
                Some(name) => long_word(name.as_slice()).0,
                None => 0,
            },
        };
        let own = number(bytes, places.len());
        if places.get(own) == Some(&0) {
            places[own] = i as u32;
            continue;
        }
        let other = number(bytes.rotate_left(OTHER), places.len());
        if let Some(place) = places.get_mut(other) {
            *place = i as u32;
        }
    }
    Ok(places)
}

/// A number below the size, if that isn't 0, for the bytes of a word: the high bits of a product with an odd number
/// of mixed bits, scaled to the size.
#[inline]
fn number(bytes: u64, size: usize) -> usize
    ensures { 0 < size → result < size }
{
    let product = bytes.wrapping_mul(0x9e37_79b9_7f4a_7c15);
    ((product >> 32).wrapping_mul(size as u64) >> 32) as usize
}

/// The number of the word of up to seven bytes that a text begins with, up to a colon or a byte that is at
/// most a space, and its length; or of another front of the text. The length comes from the text alone, so the start
/// of the next token doesn't wait for a table.
#[inline(always)]
#[tactic(auto, using(crate::proofs::TokenLemmas::word_numbers))]
pub fn short_word(text: &[u8]) -> Option<(u64, usize)>
    ensures { IfSome result (λ p. (p.1 ≤ length text.now) × (p.0 ≡ word_number (take p.1 text.now))) }
{
    let [a, b, c, d, e, f, g, h, ..] = text else {
        return Some(last_word(text));
    };
    let first = u64::from_le_bytes([*a, *b, *c, *d, *e, *f, *g, *h]);
    let end = end_bits(first);
    if end == 0 {
        return None;
    }
    let n = end.trailing_zeros() as usize / 8 % 8;
    Some((front_number(first, n), n))
}

/// The number of as many of the first eight bytes of a text, which come as a number.
#[inline(always)]
#[tactic(auto, using(std::proofs::lemmas::Grind::common_steps, std::proofs::lemmas::Nat::and_mask, std::proofs::lemmas::Nat::one_shl))]
fn front_number(first: u64, n: usize) -> u64
    requires { n ≤ 7 }
    ensures { result ≡ first % 2 ^ (8 * n) + 2 ^ (8 * n) }
{
    let bit = 1u64 << (8 * n);
    (first & (bit - 1)) + bit
}

/// The same of a text of fewer than eight bytes.
#[inline(never)]
fn last_word(text: &[u8]) -> (u64, usize)
    ensures within { result.1 ≤ length text.now }
    ensures word { result.0 ≡ word_number (take result.1 text.now) }
{
    let mut n = 0;
    while n < text.len() && n < 7 && text[n] > b' ' && text[n] != b':' {
        n += 1;
    }
    (word_of(&text[..n]), n)
}

/// A number that no other text has; 0 for a text of more than seven bytes.
#[tactic(auto, using(crate::proofs::TokenLemmas::word_numbers))]
fn short_number(text: &[u8]) -> u64
    ensures { IsWordOf text.now result }
{
    if text.len() > 7 {
        return 0;
    }
    word_of(text)
}

/// The number of a word.
#[tactic(auto, using(crate::proofs::TokenLemmas::word_numbers, std::proofs::lemmas::Grind::common_steps))]
fn word_of(bytes: &[u8]) -> u64
    requires { length bytes.now ≤ 7 }
    ensures { result ≡ word_number bytes.now }
{
    let mut number = 1;
    let mut n = bytes.len();
    while n > 0 {
        n -= 1;
        number = number * 256 + u64::from(bytes[n]);
    }
    number
}

/// The bytes at the front of a text of more than seven, before its first colon or byte that is at most a
/// space, as many as a name has at most, as a number, and how many they are.
#[inline(never)]
pub fn long_word(text: &[u8]) -> (u64, usize) {
    let mut number = first_bytes(text);
    let mut len = 8;
    for at in 1..LONGEST_NAME / 8 {
        if text.len() <= 8 * at {
            break;
        }
        let bytes = first_bytes(&text[8 * at..]);
        let end = end_bits(bytes);
        let more = if end == 0 {
            bytes
        } else {
            bytes & bits_below(end)
        };
        number ^= more
            .wrapping_mul(0xff51_afd7_ed55_8ccd)
            .rotate_left(at as u32);
        len = 8 * at + bytes_below(end);
        if end != 0 {
            break;
        }
    }
    (number, len)
}

/// The first eight bytes of a text, as a number.
#[inline(always)]
fn first_bytes(text: &[u8]) -> u64 {
    if let [a, b, c, d, e, f, g, h, ..] = text {
        return u64::from_le_bytes([*a, *b, *c, *d, *e, *f, *g, *h]);
    }
    few_bytes(text)
}

/// The bytes of a text of fewer than eight, as a number: of the last names of a line.
#[inline(never)]
fn few_bytes(text: &[u8]) -> u64 {
    let mut number = 0u64;
    for b in text.iter().rev() {
        number = number.wrapping_mul(256).wrapping_add(u64::from(*b));
    }
    number
}

/// The lowest bit that is set is at the first byte of a word that is a colon or at most a space.
#[inline]
fn end_bits(word: u64) -> u64 {
    let colons = word ^ 0x3a3a_3a3a_3a3a_3a3a;
    let white = word.wrapping_sub(0x2121_2121_2121_2121) & !word;
    let colon = colons.wrapping_sub(0x0101_0101_0101_0101) & !colons;
    (white | colon) & 0x8080_8080_8080_8080
}

/// The bits of the bytes below the byte of the lowest bit; those of seven bytes where there is none.
#[inline]
fn bits_below(bits: u64) -> u64 {
    (bits ^ bits.wrapping_sub(1)) >> 8
}

/// How many bytes are below that of the lowest bit; eight where there is none.
#[inline]
fn bytes_below(bits: u64) -> usize
    ensures { result ≤ 8 }
{
    bits.trailing_zeros() as usize / 8
}
