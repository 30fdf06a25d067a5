//! The sweep: it holds one primary item of an order after the other, and keeps each state that the choices so far leave
//! once, with the number of ways to it.
//!
//! Frontier methods work so (Simpath, Knuth; TdZDD, Iwashita and Minato, 2013). The other way is a search with a table
//! of what it met (Algorithm Z, Knuth; DXZ, Nishino and others, 2017). Both were tried as prototypes: on boards the
//! sweep took a third to a sixtieth of the search's time, with no table that has to be kept, and one invariant over a
//! list of states proves it. Queens, Langford's pairs and pentominoes leave hardly fewer states than solutions; there
//! neither gains, and the sweep is the slower one.
ghost use Rattle.std.specs.Prelude.{ℕ, ◌≡◌, ◌≤◌, ◌+◌, ◌*◌, Bool, List, true, IfOk, OnOk};
ghost use Rattle.xc_count.specs.inner.Worth.{EachKey, worth_by};

use crate::beside::Beside;
use crate::counted::{CountLayer, CountState};
use crate::errors::Halted;
use crate::layer::Layer;
use crate::states::States;
use std::alloc::Global;
use xc_input::Problem;

/// What a state becomes in the next layer.
pub trait PassOn {
    /// It is a step of a sweep.
    ghost is_step: { Self → Type 0 };

    /// Which keys it passes on, and which it makes of them.
    ghost takes: { Self → List ℕ → Bool };

    ghost makes: { Self → List ℕ → Bool };

    /// A key is worth as much by the first as all that it becomes by the second.
    ghost weighs: { Self → (List ℕ → ℕ) → (List ℕ → ℕ) → Type 0 };

    /// Adds what a state becomes to the next layer, unless what is beside the sweep ends first.
    fn pass_on<B: Beside>(
        &self,
        state: &CountState,
        next: &mut CountLayer,
        scratch: &mut Vec<u32>,
        beside: &mut B,
    ) -> Result<(), Halted>
        requires step { is_step self.now }
        requires takes { takes self.now state.now.key.items ≡ true }
        requires makes { EachKey (makes self.now) next.old.states.items }
        ensures worth { OnOk result ((f g : List ℕ → ℕ) → weighs self.now f g → worth_by g next.new.states.items
            ≡ worth_by g next.old.states.items + state.now.worth * f state.now.key.items) }
        ensures makes { OnOk result (EachKey (makes self.now) next.new.states.items) }
        ensures bound { next.new.bound ≡ next.old.bound }
        ensures same { B.searched beside.new ≡ B.searched beside.old };
}

/// What states become in the next layer, which takes no more than so many bytes.
pub fn pass<P: PassOn, S: States + Drop, B: Beside>(
    alloc: Global,
    problem: &Problem,
    passing: &P,
    mut states: S,
    room: usize,
    beside: &mut B,
) -> Result<CountLayer, Halted>
    requires step { P.is_step passing.now }
    requires takes { EachKey (P.takes passing.now) (S.left states) }
    ensures worth { IfOk result (λ l. (f g : List ℕ → ℕ) → P.weighs passing.now f g
        → worth_by g l.states.items ≡ worth_by f (S.left states)) }
    ensures makes { IfOk result (λ l. EachKey (P.makes passing.now) l.states.items) }
    ensures room { IfOk result (λ l. l.bytes ≤ room) }
    ensures same { B.searched beside.new ≡ B.searched beside.old }
{
    let mut next = Layer::new(alloc, problem, room);
    let mut scratch = Vec::new(alloc);
    while let Some(state) = states.next_state() {
        passing.pass_on(state, &mut next, &mut scratch, beside)?;
        states.drop_state();
    }
    beside.note_layer(next.work());
    Ok(next)
}
