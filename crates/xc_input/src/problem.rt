//! A problem as it was read. Its model alone doesn't show that it is sound: most calls ensure that as well, so
//! that none is made for that alone.

ghost use Rattle.std.specs.Prelude.{◌≡◌, ◌≢◌, ◌<◌, ◌≤◌, ℕ, suc, length, map, drop, take, sum_by, option_map, Some, All};
ghost use Rattle.std.specs.Prelude.{IfSome, IfNone, IfOk};
ghost use Rattle.xc_input.specs.Problem.{IsValid, IsWithinLimits, IsSoundOption, AreSoundBounds, primary_count};
ghost use Rattle.xc_input.specs.Problem.{item_count, option_count, IsItem, numbered_get, bounds_at, IsPrimary};
ghost use Rattle.xc_input.specs.Problem.{IsSecondary, use_count, IsOption};
ghost use Rattle.xc_input.specs.Limits.{greatest_bound, most_uses};
ghost use Rattle.xc_input.specs.ItemBounds.{bounds_of, secondary_bounds};
ghost use Rattle.xc_input.specs.inner.Stored.{IsOptional, AreOptionStarts, named_from, key_names};
ghost use Rattle.xc_input.specs.Named.{Named, IsKnownUse, IsWellNamed, IsName, IsColour, IsSound};
ghost use Rattle.xc_text.specs.Words.{place};
ghost use Rattle.indexmap.specs.IndexSet.{hasher_of};

use crate::names::{NameSet, number_of_name};
use crate::options::Options;
use std::alloc::{AllocError, Global};
use std::fmt;
use std::marker::Model;
use xc_text::Seed;

/// How often an item is to be held: at least `low` and at most `high` times.
#[derive(Clone, Copy, Debug, PartialEq, Eq)]
pub struct Bounds {
    pub low: u32,
    pub high: u32,
}

/// An item: its name, and how many options of a cover hold it.
#[derive(Clone, Debug, PartialEq, Eq, Drop)]
pub struct Item {
    pub name: Vec<u8>,
    pub low: u32,
    pub high: u32,
}

impl Item {
    /// How often the item is to be held.
    pub fn bounds(&self) -> Bounds
        ensures { result ≡ bounds_of self.now }
    {
        Bounds {
            low: self.low,
            high: self.high,
        }
    }
}

/// A use of an item by an option: its number, and its colour, 0 for none.
#[derive(Clone, Copy, Debug, PartialEq, Eq, Hash)]
pub struct Use {
    pub item: u32,
    pub colour: u32,
}

/// A problem. Items, options and colours have numbers from 1. Most of its calls ensure beside their
/// answer that the whole problem is sound (`whole`).
#[derive(Drop)]
pub struct Problem {
    names: NameSet,
    items: Vec<Item>,
    primary: u32,
    uses: Vec<Use>,
    /// Where the options start among the uses, and at last where they end.
    starts: Vec<u32>,
    colours: NameSet,
}

impl Model for Problem {
    ghost use Rattle.std.specs.Prelude.{◌≡◌, ◌≤◌, length, map, drop, All};
    ghost use Rattle.xc_input.specs.Named.{Named, IsSound};
    ghost use Rattle.xc_input.specs.inner.Stored.{IsOptional, AreOptionStarts, named_from, key_names};
    ghost use Rattle.indexmap.specs.IndexSet.{hasher_of};

    ghost Value = { Named };

    ghost view = { λ p. named_from p.items.items p.primary p.uses.items p.starts.items p.colours.keys
        (hasher_of p.names) };

    ghost invariant = { λ p. record {
      names : key_names p.names.keys ≡ map (λ x. x.name.items) p.items.items;
      primary : p.primary ≤ length p.items.items;
      secondary : All IsOptional (drop p.primary p.items.items);
      starts : AreOptionStarts p.starts.items p.uses.items;
      sound : IsSound (named_from p.items.items p.primary p.uses.items p.starts.items p.colours.keys
          (hasher_of p.names));
      seed : hasher_of p.colours ≡ hasher_of p.names;
    } };
}

impl Problem {
    pub(crate) fn new(
        names: NameSet,
        items: Vec<Item>,
        primary: u32,
        uses: Vec<Use>,
        starts: Vec<u32>,
        colours: NameSet,
    ) -> Problem
        requires names { key_names names.keys ≡ map (λ x. x.name.items) items.items }
        requires primary { primary ≤ length items.items }
        requires secondary { All IsOptional (drop primary items.items) }
        requires starts { AreOptionStarts starts.items uses.items }
        requires sound { IsSound (named_from items.items primary uses.items starts.items colours.keys
            (hasher_of names)) }
        requires seed { hasher_of colours ≡ hasher_of names }
        ensures { result ≡ named_from items.items primary uses.items starts.items colours.keys (hasher_of names) }
    {
        Problem {
            names,
            items,
            primary,
            uses,
            starts,
            colours,
        }
    }

    /// The seed by which its tables hash.
    pub fn seed(&self) -> Seed
        ensures value { result ≡ self.now.seed }
        ensures whole { IsSound self.now }
    {
        *self.names.hasher()
    }

    /// How many items there are.
    pub fn items(&self) -> u32
        ensures value { result ≡ item_count self.now.puzzle }
        ensures whole { IsSound self.now }
    {
        self.items.len() as u32
    }

    /// How many items are primary. They come first.
    pub fn primary(&self) -> u32
        ensures value { result ≡ primary_count self.now.puzzle }
        ensures whole { IsSound self.now }
    {
        self.primary
    }

    /// The item of this number.
    pub fn item(&self, i: u32) -> &Item
        requires { IsItem self.now.puzzle i }
        ensures name { numbered_get self.now.names i ≡ Some result.now.name.items }
        ensures bounds { IsPrimary self.now.puzzle i → bounds_at self.now.puzzle i ≡ Some (bounds_of result.now) }
        ensures secondary { IsSecondary self.now.puzzle i → bounds_of result.now ≡ secondary_bounds }
        ensures whole { IsSound self.now }
    {
        &self.items[i as usize - 1]
    }

    /// The items in order: the one of number `i` is at place `i - 1`.
    pub fn all_items(&self) -> &[Item]
        ensures names { map (λ x. x.name.items) result.now ≡ self.now.names }
        ensures bounds { map bounds_of (take (primary_count self.now.puzzle) result.now) ≡ self.now.puzzle.bounds }
        ensures secondary { All (λ x. bounds_of x ≡ secondary_bounds)
            (drop (primary_count self.now.puzzle) result.now) }
    {
        self.items.as_slice()
    }

    /// The bounds of the primary items, in order.
    pub fn primary_bounds(&self, alloc: Global) -> Result<Vec<Bounds>, AllocError>
        ensures { IfOk result (λ v. v.items ≡ self.now.puzzle.bounds) }
    {
        let mut bounds = Vec::new(alloc);
        for i in 0..self.primary() {
            bounds.push(self.item(i + 1).bounds())?;
        }
        Ok(bounds)
    }

    /// The options in order, each as its uses.
    pub fn all_options(&self) -> Options<'_>
        ensures { result ≡ self.now.puzzle.options }
    {
        Options::new(self)
    }

    /// The name of a use's item.
    pub fn name_of(&self, u: Use) -> &[u8]
        requires { IsItem self.now.puzzle u.item }
        ensures { numbered_get self.now.names u.item ≡ Some result.now }
    {
        self.item(u.item).name.as_slice()
    }

    /// The bytes of a use's colour; None where it has no colour.
    pub fn colour_of(&self, u: Use) -> Option<&[u8]>
        requires { u.colour ≤ length self.now.colours }
        ensures { option_map (λ bytes. bytes.now) result ≡ numbered_get self.now.colours u.colour }
    {
        if u.colour == 0 {
            return None;
        }
        Some(self.colour(u.colour))
    }

    /// The number of the item with this name, if there is one.
    pub fn find(&self, name: &[u8]) -> Option<u32>
        ensures value { result ≡ option_map suc (place self.now.names name.now) }
        ensures found { IfSome result (λ i. numbered_get self.now.names i ≡ Some name.now) }
        ensures none { IfNone result ((i : ℕ) → numbered_get self.now.names i ≢ Some name.now) }
    {
        number_of_name(&self.names, name)
    }

    /// How many colours there are.
    pub fn colours(&self) -> u32
        ensures value { result ≡ length self.now.colours }
        ensures whole { IsSound self.now }
    {
        self.colours.len() as u32
    }

    /// The bytes of the colour of this number.
    #[tactic(auto, using(crate::proofs::TokenLemmas::flat_parts))]
    pub fn colour(&self, c: u32) -> &[u8]
        requires { (1 ≤ c) × (c ≤ length self.now.colours) }
        ensures { numbered_get self.now.colours c ≡ Some result.now }
    {
        match self.colours.get_index(c as usize - 1) {
            Some(bytes) => bytes.as_slice(),
            None => unreachable!(),
        }
    }

    /// The number of the colour with these bytes, if there is one.
    pub fn find_colour(&self, bytes: &[u8]) -> Option<u32>
        ensures value { result ≡ option_map suc (place self.now.colours bytes.now) }
        ensures found { IfSome result (λ c. numbered_get self.now.colours c ≡ Some bytes.now) }
        ensures none { IfNone result ((c : ℕ) → numbered_get self.now.colours c ≢ Some bytes.now) }
    {
        number_of_name(&self.colours, bytes)
    }

    /// How many options there are.
    #[tactic(auto, using(crate::proofs::TokenLemmas::flat_parts))]
    pub fn options(&self) -> u32
        ensures value { result ≡ option_count self.now.puzzle }
        ensures whole { IsSound self.now }
    {
        (self.starts.len() - 1) as u32
    }

    /// The uses of the option of this number, in file order.
    pub fn option(&self, o: u32) -> &[Use]
        requires known { IsOption self.now.puzzle o }
        ensures value { numbered_get self.now.puzzle.options o ≡ Some result.now }
        ensures known { All (IsKnownUse self.now) result.now }
        ensures whole { IsSound self.now }
    {
        let o = o as usize;
        let from = self.starts[o - 1] as usize;
        let to = self.starts[o] as usize;
        &self.uses[from..to]
    }

    /// The uses of the option of this number, in file order, if there is such an option.
    pub fn get_option(&self, o: u32) -> Option<&[Use]>
        ensures value { option_map (λ us. us.now) result ≡ numbered_get self.now.puzzle.options o }
        ensures known { IfSome result (λ us. All (IsKnownUse self.now) us.now) }
    {
        if o == 0 || self.options() < o {
            return None;
        }
        Some(self.option(o))
    }

    /// How many uses all options have.
    #[tactic(auto, using(crate::proofs::TokenLemmas::flat_parts))]
    pub fn uses(&self) -> usize
        ensures value { result ≡ use_count self.now.puzzle.options }
        ensures whole { IsSound self.now }
    {
        self.uses.len()
    }
}

/// Its counts. Names, options and the seed aren't shown.
impl fmt::Debug for Problem {
    ghost use Rattle.std.specs.Prelude.{◌++◌, codes};
    ghost use Rattle.std.specs.Fmt.{decimal};

    ghost debug_output = { λ p. Some (codes "Problem { items: " ++ decimal (item_count p.puzzle)
        ++ codes ", primary: " ++ decimal (primary_count p.puzzle) ++ codes ", options: "
        ++ decimal (option_count p.puzzle) ++ codes ", uses: " ++ decimal (use_count p.puzzle.options)
        ++ codes " }") };

    fn fmt<W: fmt::Write>(&self, f: &mut fmt::Formatter<W>) -> fmt::Result {
        let items = self.items();
        let primary = self.primary();
        let options = self.options();
        let uses = self.uses();
        write!(
            f,
            "Problem {{ items: {items}, primary: {primary}, options: {options}, uses: {uses} }}"
        )
    }
}
