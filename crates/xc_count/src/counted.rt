//! States and layers of a count: a state is worth as many as there are ways to it.
ghost use Rattle.std.specs.Prelude.{ℕ, ◌≡◌, ◌≤◌, ◌+◌, ◌*◌, Bool, List, true, IfOk, OnOk};
ghost use Rattle.natural.specs.Numerals.{limbs_above};
ghost use Rattle.xc_count.specs.inner.Worth.{EachKey, worth_by};

use crate::errors::CountError;
use crate::layer::{Layer, State};
use crate::worth::Worth;
use natural::Natural;
use std::alloc::Global;
use xc_input::Problem;

/// A state of a count.
pub type CountState = State<Natural>;

/// A layer of a count.
pub type CountLayer = Layer<Natural>;

impl Worth for Natural {
    ghost joined = { λ a b. a + b };

    ghost limbs_of = { limbs_above };

    #[inline(always)]
    fn join(&mut self, other: &Natural) -> Result<(), CountError> {
        self.add_assign(other)?;
        Ok(())
    }

    #[inline(always)]
    fn copy_worth(&self) -> Result<Natural, CountError> {
        Ok(self.clone()?)
    }

    #[inline(always)]
    fn limbs(&self) -> usize {
        Natural::limbs(self)
    }
}

/// Adds ways to the state of a key, which is added if it is not there.
#[inline(always)]
pub fn add_ways(layer: &mut CountLayer, key: &[u32], ways: &Natural) -> Result<(), CountError>
    ensures worth { OnOk result ((f : List ℕ → ℕ) → worth_by f layer.new.states.items
        ≡ worth_by f layer.old.states.items + ways.now * f key.now) }
    ensures keys { OnOk result ((q : List ℕ → Bool) → EachKey q layer.old.states.items → q key.now ≡ true
        → EachKey q layer.new.states.items) }
    ensures bound { layer.new.bound ≡ layer.old.bound }
{
    layer.add(key, ways)
}

/// A layer of one state, to which there is one way.
pub fn layer_of(
    alloc: Global,
    problem: &Problem,
    key: &[u32],
    bound: usize,
) -> Result<CountLayer, CountError>
    ensures worth { IfOk result (λ l. (f : List ℕ → ℕ) → worth_by f l.states.items ≡ f key.now) }
    ensures keys { IfOk result (λ l. (q : List ℕ → Bool) → q key.now ≡ true → EachKey q l.states.items) }
    ensures room { IfOk result (λ l. l.bytes ≤ bound) }
{
    let mut layer = Layer::new(alloc, problem, bound);
    add_ways(&mut layer, key, &Natural::from_u64(alloc, 1))?;
    Ok(layer)
}
