//! What an output holds back.
ghost use Rattle.std.specs.Prelude.{◌≡◌, ◌+◌, ◌-◌, ◌≤◌, ◌^◌, length, IfOk, [], ◌++◌, take, drop};

use std::alloc::{AllocError, Global};
use std::marker::Model;
use std::simd::Simd;

/// How many bytes there is room for.
pub(crate) const ROOM: usize = 65536;

/// Bytes at the front of a buffer of fixed size.
#[derive(Drop)]
pub(crate) struct Held {
    buffer: Vec<u8>,
    len: usize,
}

impl Model for Held {
    ghost use Rattle.std.specs.Prelude.{◌≡◌, ◌≤◌, ℕ, List, length, take};
    ghost use Rattle.xc_streams.specs.declared.outgoing.held.TheConstants.{ROOM};

    ghost Value = { List ℕ };

    ghost view = { λ h. take h.len h.buffer.items };

    ghost invariant = { λ h. record {
      size : length h.buffer.items ≡ ROOM;
      within : h.len ≤ ROOM;
    } };
}

impl Held {
    /// Nothing held back, with all the memory that it takes.
    pub(crate) fn new(alloc: Global) -> Result<Held, AllocError>
        ensures { IfOk result (λ h. h ≡ []) }
    {
        Ok(Held {
            buffer: vec![in alloc; 0; ROOM]?,
            len: 0,
        })
    }

    /// How many bytes are held back.
    #[inline(always)]
    pub(crate) fn len(&self) -> usize
        ensures value { result ≡ length self.now }
        ensures bound { result ≤ ROOM }
    {
        self.len
    }

    /// The bytes.
    pub(crate) fn as_slice(&self) -> &[u8]
        ensures { result.now ≡ self.now }
    {
        &self.buffer[..self.len]
    }

    /// Adds bytes for which there is room.
    #[inline(always)]
    pub(crate) fn append(&mut self, bytes: &[u8])
        requires { length self.old + length bytes.now ≤ ROOM }
        ensures { self.new ≡ self.old ++ bytes.now }
    {
        put(&mut self.buffer, self.len, bytes);
        self.len += bytes.len();
    }

    /// Drops the first bytes, and moves the rest to the front.
    #[tactic(auto, using(std::proofs::lemmas::Grind::common_steps, crate::proofs::StreamLemmas::moved_to_front))]
    pub(crate) fn remove_front(&mut self, count: usize)
        requires { count ≤ length self.old }
        ensures { self.new ≡ drop count self.old }
    {
        self.buffer.copy_within(count..self.len, 0);
        self.len -= count;
    }

    /// Drops the last bytes.
    pub(crate) fn remove_back(&mut self, count: usize)
        requires { count ≤ length self.old }
        ensures { self.new ≡ take (length self.old - count) self.old }
    {
        self.len -= count;
    }
}

/// Puts bytes in the place of others by their first `N` and their last, which may overlap. Each
/// piece is one load and one store.
#[inline(always)]
#[tactic(auto, using(crate::proofs::StreamLemmas::two_pieces))]
fn put_ends<const N: usize>(buffer: &mut [u8], at: usize, bytes: &[u8])
    requires room { at + length bytes.now ≤ length buffer.old }
    requires pieces { (N ≤ length bytes.now) × (length bytes.now ≤ N + N) }
    ensures { buffer.new ≡ take at buffer.old ++ bytes.now ++ drop (at + length bytes.now) buffer.old }
{
    let last = bytes.len() - N;
    Simd::<u8, N>::from_slice(bytes).copy_to_slice(&mut buffer[at..]);
    Simd::<u8, N>::from_slice(&bytes[last..]).copy_to_slice(&mut buffer[at + last..]);
}

/// Puts a few bytes or many in the place of others.
#[inline(always)]
fn put_few_or_many(buffer: &mut [u8], at: usize, bytes: &[u8])
    requires { at + length bytes.now ≤ length buffer.old }
    ensures { buffer.new ≡ take at buffer.old ++ bytes.now ++ drop (at + length bytes.now) buffer.old }
{
    match bytes.len() {
        2..=3 => put_ends::<2>(buffer, at, bytes),
        n => buffer[at..at + n].copy_from_slice(bytes),
    }
}

/// Puts bytes in the place of others. Pieces of a fixed size need no call.
#[inline(always)]
fn put(buffer: &mut [u8], at: usize, bytes: &[u8])
    requires { at + length bytes.now ≤ length buffer.old }
    ensures { buffer.new ≡ take at buffer.old ++ bytes.now ++ drop (at + length bytes.now) buffer.old }
{
    match bytes.len() {
        4..=7 => put_ends::<4>(buffer, at, bytes),
        8..=16 => put_ends::<8>(buffer, at, bytes),
        _ => put_few_or_many(buffer, at, bytes),
    }
}
