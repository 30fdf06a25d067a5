//! Sets of names, and look-ups in them.
//!
//! An item's name is in memory twice, in its set and in the `Item` that a call returns. A set of items that are found
//! by name would need a look-up of our own, which the toolchain refuses for the library of sets.

ghost use Rattle.std.specs.Prelude.{◌≡◌, ◌≤◌, ◌++◌, ◌∷◌, [], length, map, None, OnOk, IfOk};
ghost use Rattle.xc_input.specs.Limits.{most_uses};
ghost use Rattle.xc_text.specs.Words.{place};
ghost use Rattle.xc_input.specs.inner.Stored.{number_in, key_names};
ghost use Rattle.xc_input.specs.inner.Builders.{Judged};
ghost use Rattle.indexmap.specs.IndexSet.{hasher_of};

use crate::line_error::LineError;
use indexmap::IndexSet;
use std::alloc::Global;
use xc_text::Seed;

/// Names or colours, numbered from 0 in the order in which they were met.
pub type NameSet = IndexSet<Vec<u8>, Seed>;

/// A set of no names, which hashes by this seed.
pub fn no_names(alloc: Global, seed: Seed) -> NameSet
    ensures empty { result.keys ≡ [] }
    ensures seed { hasher_of result ≡ seed }
{
    IndexSet::with_hasher(alloc, seed)
}

/// The place of a name, from 0.
pub fn place_of(names: &NameSet, name: &[u8]) -> Option<usize>
    ensures { result ≡ place (map (λ v. v.items) names.now.keys) name.now }
{
    names.get_index_of(name)
}

/// The number of a name, from 1.
pub fn number_of_name(names: &NameSet, name: &[u8]) -> Option<u32>
    requires { length names.now.keys ≤ most_uses }
    ensures { result ≡ number_in (key_names names.now.keys) name.now }
{
    let place = place_of(names, name)?;
    Some(place as u32 + 1)
}

/// Adds a new name, and returns its place.
#[inline(never)]
pub fn add_name(alloc: Global, names: &mut NameSet, name: &[u8]) -> Result<usize, LineError>
    requires { place (map (λ v. v.items) names.old.keys) name.now ≡ None }
    ensures judged { Judged None result }
    ensures added { OnOk result
        (map (λ v. v.items) names.new.keys ≡ map (λ v. v.items) names.old.keys ++ name.now ∷ []) }
    ensures place { IfOk result (λ n. n ≡ length names.old.keys) }
    ensures seed { hasher_of names.new ≡ hasher_of names.old }
{
    let key = Vec::from_slice(alloc, name)?;
    let (n, _) = names.insert_full(key)?;
    Ok(n)
}
