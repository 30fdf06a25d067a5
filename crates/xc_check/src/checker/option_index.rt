//! The options of a problem by their bodies.
ghost use Rattle.std.specs.Prelude.{◌≡◌, ◌<◌, ◌+◌, length, slice_get, take, All, None, Some, IfOk, OnOk};
ghost use Rattle.std.specs.List.{list_any};
ghost use Rattle.std.specs.Str.{bytes_eq};
ghost use Rattle.xc_input.specs.Problem.{primary_count, option_count, IsValid, IsWithinLimits};
ghost use Rattle.xc_input.specs.Named.{IsKnownUse, IsSound};
ghost use Rattle.indexmap.specs.IndexSet.{hasher_of};
ghost use Rattle.xc_check.specs.ListingLines.{words_in};
ghost use Rattle.xc_check.specs.Listed.{is_none};
ghost use Rattle.xc_check.specs.inner.Classes.{IsIndexed, IsClassOfBody, class_size, IsUseOfWord, IsReading};
ghost use Rattle.xc_check.specs.inner.Classes.{AreClassesTo, key_uses};

use crate::checker::listing_lines::{cut_first, cut_word};
use crate::checker::rotation::rotate;
use indexmap::IndexSet;
use std::alloc::{AllocError, Global};
use std::marker::Model;
use xc_input::{Problem, Use};
use xc_text::Seed;

/// The use whose word this is. The definition compares whole words; cut at the first colon they say the same, since a
/// name has none.
fn use_of(problem: &Problem, word: &[u8]) -> Option<Use>
    requires { IsSound problem.now }
    ensures { IsUseOfWord problem.now word.now result }
{
    match cut_first(word, b':') {
        None => {
            let item = problem.find(word)?;
            Some(Use { item, colour: 0 })
        }
        Some((name, colour)) => {
            let item = problem.find(name)?;
            let colour = problem.find_colour(colour)?;
            Some(Use { item, colour })
        }
    }
}

/// Puts the uses that have a body's words into a list, in place of what it holds, if there are
/// such uses.
fn read_uses(problem: &Problem, body: &[u8], uses: &mut Vec<Use>) -> Result<bool, AllocError>
    requires { IsSound problem.now }
    ensures { IfOk result (λ read. IsReading problem.now (words_in body.now) read uses.new.items) }
{
    uses.clear();
    let mut text = body;
    loop {
        let (word, more) = cut_word(text);
        match use_of(problem, word) {
            Some(u) => uses.push(u)?,
            None => return Ok(false),
        }
        match more {
            Some(rest) => text = rest,
            None => return Ok(true),
        }
    }
}

/// Adds an option to the classes of the options before it, and counts it.
fn add_option(
    alloc: Global,
    problem: &Problem,
    o: u32,
    rotated: &mut Vec<Use>,
    classes: &mut IndexSet<Vec<Use>, Seed>,
    sizes: &mut Vec<usize>,
) -> Result<(), AllocError>
    requires option { o < option_count problem.now.puzzle }
    requires valid { IsValid problem.now.puzzle }
    requires limits { IsWithinLimits problem.now.puzzle }
    requires before { AreClassesTo problem.now.puzzle o (key_uses classes.old.keys) sizes.old.items }
    ensures classes { OnOk result
        (AreClassesTo problem.now.puzzle (o + 1) (key_uses classes.new.keys) sizes.new.items) }
    ensures seed { hasher_of classes.new ≡ hasher_of classes.old }
{
    rotate(problem.option(o + 1), rotated)?;
    match classes.get_index_of(rotated.as_slice()) {
        Some(class) => sizes[class] += 1,
        None => {
            classes.insert(Vec::from_slice(alloc, rotated.as_slice())?)?;
            sizes.push(1)?;
        }
    }
    Ok(())
}

/// The classes of a problem's options. Options whose uses are rotations of each other are of one
/// class, and a class is kept as the uses from the least item's on, cyclically, with the number of
/// its options.
#[derive(Drop)]
pub struct OptionIndex<'a> {
    problem: &'a Problem,
    classes: IndexSet<Vec<Use>, Seed>,
    sizes: Vec<usize>,
    read: Vec<Use>,
    rotated: Vec<Use>,
}

impl<'a> Model for OptionIndex<'a> {
    ghost use Rattle.std.specs.Prelude.{◌≡◌};
    ghost use Rattle.indexmap.specs.IndexSet.{hasher_of};
    ghost use Rattle.xc_check.specs.inner.Classes.{Classes, key_uses, IsOptionIndex};

    ghost Value = { Classes };

    ghost view = { λ b. record { problem = b.problem.now; classes = key_uses b.classes.keys } };

    ghost invariant = { λ b. record {
      index : IsOptionIndex b.problem.now b.classes.keys b.sizes.items;
      seed : hasher_of b.classes ≡ b.problem.now.seed;
    } };
}

impl<'a> OptionIndex<'a> {
    /// The classes of a problem's options.
    pub fn new(alloc: Global, problem: &'a Problem) -> Result<OptionIndex<'a>, AllocError>
        ensures problem { IfOk result (λ b. b.problem ≡ problem.now) }
        ensures indexed { IfOk result IsIndexed }
        ensures whole { IsSound problem.now }
    {
        let mut classes = IndexSet::with_hasher(alloc, problem.seed());
        let mut sizes = Vec::new(alloc);
        let mut rotated = Vec::new(alloc);
        for o in 0..problem.options() {
            add_option(alloc, problem, o, &mut rotated, &mut classes, &mut sizes)?;
        }
        Ok(OptionIndex {
            problem,
            classes,
            sizes,
            read: Vec::new(alloc),
            rotated,
        })
    }

    /// How many classes there are.
    pub fn classes(&self) -> usize
        ensures { result ≡ length self.now.classes }
    {
        self.classes.len()
    }

    /// The uses of a class.
    pub fn uses(&self, class: usize) -> &[Use]
        requires { class < length self.now.classes }
        ensures value { slice_get self.now.classes class ≡ Some result.now }
        ensures known { All (IsKnownUse self.now.problem) result.now }
    {
        match self.classes.get_index(class) {
            Some(uses) => uses.as_slice(),
            None => unreachable!(),
        }
    }

    /// How many options are of a class.
    pub fn size(&self, class: usize) -> usize
        requires { class < length self.now.classes }
        ensures { (us : _) → slice_get self.now.classes class ≡ Some us
            → result ≡ class_size self.now.problem.puzzle us }
    {
        self.sizes[class]
    }

    /// The class of the options that a body stands for, if it stands for any.
    pub fn class_of(&mut self, body: &[u8]) -> Result<Option<usize>, AllocError>
        ensures same { self.new ≡ self.old }
        ensures class { IfOk result (λ class. IsClassOfBody self.old (words_in body.now) class) }
    {
        if !read_uses(self.problem, body, &mut self.read)? {
            return Ok(None);
        }
        rotate(&self.read, &mut self.rotated)?;
        Ok(self.classes.get_index_of(self.rotated.as_slice()))
    }

    /// Whether a body is the word `null` and the name of a primary item.
    pub fn is_none(&self, body: &[u8]) -> bool
        ensures { result ≡ is_none self.now.problem (words_in body.now) }
    {
        let (first, Some(rest)) = cut_word(body) else {
            return false;
        };
        match cut_word(rest) {
            (name, None) => first == b"null".as_slice() && self.is_primary(name),
            (_, Some(_)) => false,
        }
    }

    /// Whether a primary item has this name.
    fn is_primary(&self, name: &[u8]) -> bool
        ensures { result ≡ list_any (bytes_eq name.now)
            (take (primary_count self.now.problem.puzzle) self.now.problem.names) }
    {
        match self.problem.find(name) {
            Some(item) => item <= self.problem.primary(),
            None => false,
        }
    }
}
