//! The states that a sweep has come to, and what each is worth.

ghost use Rattle.std.specs.Prelude.{ℕ, ◌≡◌, ◌≢◌, ◌<◌, ◌≤◌, ◌+◌, ◌-◌, ◌*◌, ◌/◌, ◌%◌, ◌^◌, [], ◌∷◌, ◌++◌};
ghost use Rattle.std.specs.Prelude.{length, Some, true, false, IfSome, IfNone, IfOk, OnOk, OnErr};
ghost use Rattle.std.specs.Prelude.{slice_get};
ghost use Rattle.xc_count.specs.declared.layer.State.{State};
ghost use Rattle.xc_count.specs.inner.Layers.{AreFound, AreHashed, Finds, state_bytes, charged, hash_by, slot_after};
ghost use Rattle.xc_count.specs.inner.Layers.{AreApart, told};
ghost use Rattle.xc_count.specs.inner.Added.{keyed, with_added};

use crate::errors::CountError;
use crate::worth::Worth;
use std::alloc::Global;
use std::hash::{BuildHasher, Hasher};
use xc_input::Problem;
use xc_text::Seed;

/// A state: its key, and what it is worth.
#[derive(Drop)]
pub struct State<W> {
    pub key: Vec<u32>,
    pub hash: u64,
    pub worth: W,
}

/// One more than the place of a state, or 0, and the upper half of its hash.
#[derive(Clone, Copy)]
struct Slot {
    place: u32,
    tag: u32,
}

/// States, no two of one key, and slots by which each is found.
#[derive(Drop)]
pub struct Layer<W: Worth> {
    alloc: Global,
    /// The seed by which keys are hashed.
    seed: Seed,
    pub states: Vec<State<W>>,
    slots: Vec<Slot>,
    /// How many bytes the states take, and may take.
    bytes: usize,
    bound: usize,
    /// How much work it was to add the states so far, in about nanoseconds.
    work: u64,
    ghost taken: { bytes ≡ charged W.limbs_of states.items },
    ghost within: { (bytes ≤ bound) × (bound < 2 ^ 64 - 1) },
    ghost found: { AreFound (told states.items) slots.items },
    ghost hashed: { AreHashed seed (told states.items) },
    ghost apart: { AreApart (told states.items) },
}

/// How many bytes a state counts for, beside its marks and limbs: itself, its slots, what its two allocations need.
const STATE_BYTES: usize = 160;
/// How many a mark counts for.
const MARK_BYTES: usize = 4;
/// How many a limb of its worth counts for.
const LIMB_BYTES: usize = 8;

/// How many states the caches hold, about.
const CACHED: usize = 8192;
/// The work of looking at a slot in vain, in about nanoseconds.
const PROBE_WORK: u64 = 4;
/// The work of adding a limb of a worth.
const LIMB_WORK: u64 = 2;

/// How much the second of two marks counts that are hashed as one number.
const HIGH_MARK: u64 = 0x1_0000_0000;

/// The hash of a key by a seed, two marks at a time.
fn hash_of(seed: Seed, key: &[u32]) -> u64
    ensures { result ≡ hash_by seed key.now }
{
    let mut hasher = seed.build_hasher();
    let mut place = 0;
    while place + 1 < key.len() {
        hasher.write_u64(u64::from(key[place]) + u64::from(key[place + 1]) * HIGH_MARK);
        place += 2;
    }
    if place < key.len() {
        hasher.write_u64(u64::from(key[place]));
    }
    hasher.finish()
}

/// The upper half of a hash.
fn tag_of(hash: u64) -> u32
    ensures { result ≡ hash / 2 ^ 32 }
{
    (hash >> 32) as u32
}

/// The slot of a hash.
fn slot_of(hash: u64, many: usize) -> usize
    requires { 0 < many }
    ensures is { result ≡ hash % many }
    ensures within { result < many }
{
    (hash % many as u64) as usize
}

/// The slot after one of so many.
#[inline(always)]
fn next_slot(slot: usize, many: usize) -> usize
    requires { slot < many }
    ensures is { result ≡ slot_after many slot }
    ensures within { result < many }
{
    if slot + 1 == many { 0 } else { slot + 1 }
}

/// So many empty slots.
fn empty_slots(alloc: Global, many: usize) -> Result<Vec<Slot>, CountError> {
    let mut slots = Vec::new(alloc);
    for _ in 0..many {
        slots.push(Slot { place: 0, tag: 0 })?;
    }
    Ok(slots)
}

/// What the slots have for the next state after so many.
fn place_after(many: usize) -> Result<u32, CountError>
    ensures { IfOk result (λ place. place ≡ many + 1) }
{
    if many >= u32::MAX as usize {
        return Err(CountError::OutOfBound);
    }
    Ok(many as u32 + 1)
}

/// Puts a place into the first empty slot from that of the hash on. Returns whether there is one.
fn fill_slot(slots: &mut Vec<Slot>, hash: u64, place: u32) -> bool
    requires { 0 < place }
    ensures filled { result ≡ true → Finds slots.new.items hash place }
    ensures kept { (h k : ℕ) → 0 < k → Finds slots.old.items h k → Finds slots.new.items h k }
{
    let many = slots.len();
    if many == 0 {
        return false;
    }
    let mut slot = slot_of(hash, many);
    for tried in 0..many {
        if slots[slot].place == 0 {
            slots[slot] = Slot {
                place,
                tag: tag_of(hash),
            };
            return true;
        }
        slot = next_slot(slot, many);
    }
    false
}

/// Slots for states, four for each.
fn slots_for<W>(alloc: Global, states: &[State<W>]) -> Result<Vec<Slot>, CountError>
    ensures { IfOk result (λ slots. AreFound (told states.now) slots.items) }
{
    let mut slots = empty_slots(alloc, states.len().saturating_mul(4).saturating_add(64))?;
    for k in 0..states.len() {
        if !fill_slot(&mut slots, states[k].hash, place_after(k)?) {
            return Err(CountError::Lost);
        }
    }
    Ok(slots)
}

/// Whether a state is the one of this key.
fn is_state<W>(state: &State<W>, key: &[u32]) -> bool
    ensures same { result ≡ true → state.now.key.items ≡ key.now }
    ensures other { result ≡ false → state.now.key.items ≢ key.now }
{
    state.key.as_slice() == key
}

/// Whether the state that a slot has is there and is the one of this key.
#[inline(always)]
fn is_at<W>(states: &[State<W>], place: u32, key: &[u32]) -> bool
    requires { 0 < place }
    ensures some { result ≡ true
        → (s : State W) × (slice_get states.now (place - 1) ≡ Some s) × (s.key.items ≡ key.now) }
    ensures none { result ≡ false → (s : State W) → slice_get states.now (place - 1) ≡ Some s → s.key.items ≢ key.now }
{
    let k = place as usize - 1;
    k < states.len() && is_state(&states[k], key)
}

/// The place of the state of this key and hash; none where there is no such state. Adds to `probes` how many slots it
/// looked at in vain.
fn find<W>(
    states: &[State<W>],
    slots: &[Slot],
    key: &[u32],
    hash: u64,
    probes: &mut u64,
) -> Option<usize>
    requires { AreFound (told states.now) slots.now }
    ensures some { IfSome result (λ k. (s : State W) × (slice_get states.now k ≡ Some s) × (s.key.items ≡ key.now)) }
    ensures none { IfNone result ((k : ℕ) (s : State W) → slice_get states.now k ≡ Some s → s.hash ≡ hash
        → s.key.items ≢ key.now) }
{
    let many = slots.len();
    if many == 0 {
        return None;
    }
    let mut slot = slot_of(hash, many);
    for tried in 0..many {
        let Slot { place, tag } = slots[slot];
        if place == 0 {
            return None;
        }
        if tag == tag_of(hash) && is_at(states, place, key) {
            return Some(place as usize - 1);
        }
        *probes = probes.wrapping_add(1);
        slot = next_slot(slot, many);
    }
    None
}

/// Joins a worth to that of a state. Returns how many limbs it had, and has.
fn join_at<W: Worth>(
    states: &mut Vec<State<W>>,
    place: usize,
    worth: &W,
) -> Result<(usize, usize), CountError>
    requires { place < length states.old.items }
    ensures joined { IfOk result (λ _. (s : State W) → slice_get states.old.items place ≡ Some s
        → AreApart (told states.old.items) → keyed states.new.items
        ≡ with_added W.joined s.key.items worth.now (keyed states.old.items)) }
    ensures same { told states.new.items ≡ told states.old.items }
    ensures limbs { IfOk result (λ limbs. charged W.limbs_of states.new.items + 8 * limbs.0
        ≡ charged W.limbs_of states.old.items + 8 * limbs.1) }
    ensures failed { OnErr result (charged W.limbs_of states.new.items ≡ charged W.limbs_of states.old.items) }
{
    let before = states[place].worth.limbs();
    states[place].worth.join(worth)?;
    Ok((before, states[place].worth.limbs()))
}

/// The last state, taken off.
pub fn pop_state<W>(states: &mut Vec<State<W>>) -> Option<State<W>>
    ensures some { IfSome result (λ s. states.old.items ≡ states.new.items ++ s ∷ []) }
    ensures none { IfNone result (states.old.items ≡ []) }
{
    states.pop()
}

/// Adds a state at the end.
fn push_state<W: Drop>(states: &mut Vec<State<W>>, state: State<W>) -> Result<(), CountError>
    ensures pushed { OnOk result (states.new.items ≡ states.old.items ++ state ∷ []) }
    ensures full { OnErr result (states.new.items ≡ states.old.items) }
{
    states.push(state)?;
    Ok(())
}

/// A state of this key.
fn new_state<W: Worth>(
    alloc: Global,
    key: &[u32],
    hash: u64,
    worth: &W,
) -> Result<State<W>, CountError>
    ensures key { IfOk result (λ s. s.key.items ≡ key.now) }
    ensures hash { IfOk result (λ s. s.hash ≡ hash) }
    ensures worth { IfOk result (λ s. s.worth ≡ worth.now) }
{
    Ok(State {
        key: Vec::from_slice(alloc, key)?,
        hash,
        worth: worth.copy_worth()?,
    })
}

impl<W: Worth> Layer<W> {
    /// No states of a problem, and how many bytes they may take. Their keys are hashed by the problem's seed.
    pub fn new(alloc: Global, problem: &Problem, bound: usize) -> Layer<W>
        ensures none { result.states.items ≡ [] }
        ensures bound { result.bound ≤ bound }
        ensures seed { result.seed ≡ problem.now.seed }
    {
        Layer {
            alloc,
            seed: problem.seed(),
            states: Vec::new(alloc),
            slots: Vec::new(alloc),
            bytes: 0,
            bound: bound.min(usize::MAX - 1),
            work: 0,
        }
    }

    /// How much work it was to add its states so far.
    #[inline(always)]
    pub fn work(&self) -> u64 {
        self.work
    }

    /// How many bytes of a bound another layer may take beside this.
    pub fn beside(&self, bound: usize) -> usize
        ensures { result ≡ bound - self.now.bytes }
    {
        bound.saturating_sub(self.bytes)
    }

    /// The work of adding a worth to the state of a key, which is new or not, after looking at so many slots in vain,
    /// in about nanoseconds.
    #[inline(always)]
    fn work_of(&self, key: &[u32], worth: &W, is_new: bool, probes: u64) -> u64 {
        let table: u64 = match (is_new, self.states.len() < CACHED) {
            (false, true) => 20,
            (false, false) => 230,
            (true, true) => 100,
            (true, false) => 470,
        };
        let marks = key.len() as u64;
        table
            .wrapping_add(marks.wrapping_add(marks / 2))
            .wrapping_add((worth.limbs() as u64).wrapping_mul(LIMB_WORK))
            .wrapping_add(probes.wrapping_mul(PROBE_WORK))
    }

    /// How many bytes the states take with one of this key and worth.
    fn bytes_with(&self, key: &[u32], worth: &W) -> Result<usize, CountError>
        ensures more { IfOk result (λ bytes. bytes ≡ self.now.bytes + state_bytes key.now (W.limbs_of worth.now)) }
        ensures within { IfOk result (λ bytes. bytes ≤ self.now.bound) }
    {
        let bytes = key
            .len()
            .saturating_mul(MARK_BYTES)
            .saturating_add(worth.limbs().saturating_mul(LIMB_BYTES))
            .saturating_add(STATE_BYTES)
            .saturating_add(self.bytes);
        if bytes > self.bound {
            return Err(CountError::OutOfBound);
        }
        Ok(bytes)
    }

    /// Makes new slots if with one state more over half of them would be full.
    #[inline(always)]
    fn grow(&mut self) -> Result<(), CountError>
        ensures states { self.new.states ≡ self.old.states }
        ensures bytes { self.new.bytes ≡ self.old.bytes }
        ensures bound { self.new.bound ≡ self.old.bound }
        ensures seed { self.new.seed ≡ self.old.seed }
    {
        if self.slots.len() / 2 <= self.states.len() {
            self.slots = slots_for(self.alloc, self.states.as_slice())?;
        }
        Ok(())
    }

    /// Adds a state, with which they take so many bytes.
    fn push(&mut self, state: State<W>, bytes: usize) -> Result<(), CountError>
        requires more { bytes ≡ self.old.bytes + state_bytes state.key.items (W.limbs_of state.worth) }
        requires within { bytes ≤ self.old.bound }
        requires hashed { state.hash ≡ hash_by self.old.seed state.key.items }
        requires fresh { (k : ℕ) (s : State W) → slice_get self.old.states.items k ≡ Some s
            → s.key.items ≢ state.key.items }
        ensures states { OnOk result (self.new.states.items ≡ self.old.states.items ++ state ∷ []) }
        ensures bound { self.new.bound ≡ self.old.bound }
    {
        self.grow()?;
        let place = place_after(self.states.len())?;
        if !fill_slot(&mut self.slots, state.hash, place) {
            return Err(CountError::Lost);
        }
        push_state(&mut self.states, state)?;
        self.bytes = bytes;
        Ok(())
    }

    /// The place of the state of a key; none where there is no such state.
    pub fn place_of(&self, key: &[u32]) -> Option<usize>
        ensures some { IfSome result (λ k. (s : State W) × (slice_get self.now.states.items k ≡ Some s)
            × (s.key.items ≡ key.now)) }
        ensures none { IfNone result ((k : ℕ) (s : State W) → slice_get self.now.states.items k ≡ Some s
            → s.key.items ≢ key.now) }
    {
        find(
            self.states.as_slice(),
            self.slots.as_slice(),
            key,
            hash_of(self.seed, key),
            &mut 0,
        )
    }

    /// Joins a worth to that of the state at a place.
    #[inline(always)]
    fn add_at(&mut self, place: usize, worth: &W) -> Result<(), CountError>
        requires { place < length self.old.states.items }
        ensures added { OnOk result ((s : State W) → slice_get self.old.states.items place ≡ Some s
            → keyed self.new.states.items ≡ with_added W.joined s.key.items worth.now (keyed self.old.states.items)) }
        ensures bound { self.new.bound ≡ self.old.bound }
    {
        let (before, after) = join_at(&mut self.states, place, worth)?;
        if before == after {
            return Ok(());
        }
        let bytes = after.saturating_mul(LIMB_BYTES).saturating_add(self.bytes);
        if bytes > self.bound {
            // The states would count for more than the bound, so there are none any more.
            self.states.clear();
            self.bytes = 0;
            return Err(CountError::OutOfBound);
        }
        self.bytes = bytes.saturating_sub(before.saturating_mul(LIMB_BYTES));
        Ok(())
    }

    /// Adds a worth to the state of a key: it is joined to what that was worth, or is all that it is worth where there
    /// was no such state.
    ///
    /// # Errors
    /// `OutOfBound` where the states would take more bytes than they may, and `Memory` where there is none. The layer
    /// is then of no more use.
    pub fn add(&mut self, key: &[u32], worth: &W) -> Result<(), CountError>
        ensures added { OnOk result (keyed self.new.states.items
            ≡ with_added W.joined key.now worth.now (keyed self.old.states.items)) }
        ensures bound { self.new.bound ≡ self.old.bound }
    {
        let hash = hash_of(self.seed, key);
        let mut probes = 0;
        let found = find(
            self.states.as_slice(),
            self.slots.as_slice(),
            key,
            hash,
            &mut probes,
        );
        let work = self.work_of(key, worth, found.is_none(), probes);
        self.work = self.work.wrapping_add(work);
        if let Some(place) = found {
            return self.add_at(place, worth);
        }
        let bytes = self.bytes_with(key, worth)?;
        let state = new_state(self.alloc, key, hash, worth)?;
        self.push(state, bytes)
    }
}
