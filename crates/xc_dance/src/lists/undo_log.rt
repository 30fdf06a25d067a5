//! Lists of option numbers that can go back to how they were.
ghost use Rattle.std.specs.Prelude.{◌≡◌, ◌+◌, ◌<◌, [], ◌∷◌, length, reverse, slice_index, slice_set, sum_by};
ghost use Rattle.std.specs.Prelude.{vec_capacity, IfOk, IfSome, IsNone, MatchOption};
ghost use Rattle.xc_moves.specs.inner.Rising.{Rises};
ghost use Rattle.xc_dance.specs.inner.Lists.{numbers_of, rooms_of, list_at, less, put_back, restored};
ghost use Rattle.xc_dance.specs.inner.Lists.{still_taken, HasRoom, IsPutBack, Fits};

use crate::lists::removed::Removed;
use std::alloc::{AllocError, Global};
use std::marker::Model;

/// Lists of option numbers, which are named by their places from 0 on. They lose numbers, and can
/// go back to how they were at each mark.
#[derive(Drop)]
pub(crate) struct OptionLists {
    lists: Vec<Vec<u32>>,
    /// What was taken out, the newest last.
    taken: Vec<Removed>,
    /// How much was taken out when each mark was made.
    starts: Vec<usize>,
    room: usize,
}

impl Model for OptionLists {
    ghost use Rattle.std.specs.Prelude.{◌≤◌, ◌+◌, length, reverse, sum_by, vec_capacity};
    ghost use Rattle.xc_dance.specs.inner.Lists.{Versions, lists_at_marks, Fits, AreFalling, numbers_of, rooms_of};

    ghost Value = { Versions };

    ghost view = { λ a. record {
      lists = numbers_of a.lists.items;
      marked = lists_at_marks (reverse a.starts.items) (reverse a.taken.items) (numbers_of a.lists.items);
      room = a.room;
    } };

    ghost invariant = { λ a. record {
      fits : Fits (rooms_of a.lists.items) (reverse a.taken.items) (numbers_of a.lists.items);
      starts : AreFalling (reverse a.starts.items) (length a.taken.items);
      few : length a.starts.items ≤ a.room;
      room_to_mark : a.room ≤ vec_capacity a.starts;
      room_to_take : length a.taken.items + sum_by length (numbers_of a.lists.items) ≤ vec_capacity a.taken;
    } };
}

impl OptionLists {
    /// These lists, with no mark and room for `room` marks. No later call takes memory.
    pub(crate) fn new(
        alloc: Global,
        lists: Vec<Vec<u32>>,
        room: usize,
    ) -> Result<OptionLists, AllocError>
        ensures { IfOk result (λ v. v ≡ record { lists = numbers_of lists.items; marked = []; room = room }) }
    {
        let numbers = total(&lists).ok_or(AllocError)?;
        let taken = Vec::with_capacity(alloc, numbers)?;
        let starts = Vec::with_capacity(alloc, room)?;
        Ok(OptionLists {
            lists,
            taken,
            starts,
            room,
        })
    }

    pub(crate) fn list(&self, list: u32) -> &[u32]
        requires { list < length self.now.lists }
        ensures { result.now ≡ list_at self.now.lists list }
    {
        self.lists[list as usize].as_slice()
    }

    /// Keeps the lists as they are for `undo`.
    pub(crate) fn mark(&mut self)
        requires { length self.old.marked < self.old.room }
        ensures { self.new ≡ record self.old { marked = self.old.lists ∷ self.old.marked } }
    {
        self.starts.push_reserved(self.taken.len());
    }

    /// Takes the number out of the list, if it is there.
    pub(crate) fn take_out(&mut self, list: u32, number: u32)
        requires list { list < length self.old.lists }
        requires rises { Rises 0 (list_at self.old.lists list) }
        ensures { self.new ≡ record self.old
            { lists = slice_set self.old.lists list (less (number ∷ []) (list_at self.old.lists list)) } }
    {
        if let Some(place) = remove(&mut self.lists, list, number) {
            self.taken.push_reserved(Removed {
                place,
                list,
                number,
            });
        }
    }

    /// Takes off the newest mark, and the lists are as they were at it.
    pub(crate) fn undo(&mut self)
        requires { 0 < length self.old.marked }
        ensures lists { self.old.marked ≡ self.new.lists ∷ self.new.marked }
        ensures room { self.new.room ≡ self.old.room }
    {
        if let Some(mark) = self.starts.pop() {
            restore(&mut self.lists, &mut self.taken, mark);
        }
    }
}

/// How many numbers there are, if a `usize` can hold that.
fn total(lists: &[Vec<u32>]) -> Option<usize>
    ensures { IfSome result (λ n. n ≡ sum_by length (numbers_of lists.now)) }
{
    let mut numbers: usize = 0;
    for list in lists {
        numbers = numbers.checked_add(list.len())?;
    }
    Some(numbers)
}

/// Takes the number out of the list, if it is there, and returns the place where it was.
fn remove(lists: &mut Vec<Vec<u32>>, list: u32, number: u32) -> Option<usize>
    requires list { list < length lists.old.items }
    requires rises { Rises 0 (list_at (numbers_of lists.old.items) list) }
    ensures lists { numbers_of lists.new.items ≡ slice_set (numbers_of lists.old.items) list
        (less (number ∷ []) (list_at (numbers_of lists.old.items) list)) }
    ensures rooms { rooms_of lists.new.items ≡ rooms_of lists.old.items }
    ensures none { IsNone result → numbers_of lists.new.items ≡ numbers_of lists.old.items }
    ensures back { IfSome result
        (λ place. IsPutBack (rooms_of lists.old.items) (record { place = place; list = list; number = number })
        (numbers_of lists.new.items) (numbers_of lists.old.items)) }
{
    let row = &mut lists[list as usize];
    let place = place_in_list(row.as_slice(), number)?;
    let _ = row.remove(place);
    Some(place)
}

/// The place of the number, if it is there.
fn place_in_list(numbers: &[u32], number: u32) -> Option<usize>
    requires { Rises 0 numbers.now }
    ensures { MatchOption result (less (number ∷ []) numbers.now ≡ numbers.now)
        (λ place. (place < length numbers.now) × (slice_index numbers.now place ≡ number)) }
{
    match numbers.binary_search(&number) {
        Ok(place) => Some(place),
        Err(_) => None,
    }
}

/// Puts the number back into its list.
fn insert(lists: &mut Vec<Vec<u32>>, entry: Removed)
    requires { HasRoom (rooms_of lists.old.items) entry (numbers_of lists.old.items) }
    ensures lists { numbers_of lists.new.items ≡ put_back entry (numbers_of lists.old.items) }
    ensures rooms { rooms_of lists.new.items ≡ rooms_of lists.old.items }
{
    let row = &mut lists[entry.list as usize];
    row.insert(entry.place, entry.number).unwrap();
}

/// Puts back all but the oldest `mark` numbers, the newest first.
#[tactic(auto, using(std::proofs::lemmas::Grind::common_steps, crate::proofs::LosingLists::restored_at))]
fn restore(lists: &mut Vec<Vec<u32>>, taken: &mut Vec<Removed>, mark: usize)
    requires { Fits (rooms_of lists.old.items) (reverse taken.old.items) (numbers_of lists.old.items) }
    ensures lists { numbers_of lists.new.items ≡ restored mark (reverse taken.old.items) (numbers_of lists.old.items) }
    ensures taken { reverse taken.new.items ≡ still_taken mark (reverse taken.old.items) }
    ensures fits { Fits (rooms_of lists.new.items) (reverse taken.new.items) (numbers_of lists.new.items) }
    ensures room { vec_capacity taken.new ≡ vec_capacity taken.old }
    ensures count { length taken.new.items + sum_by length (numbers_of lists.new.items) ≡ length taken.old.items +
        sum_by length (numbers_of lists.old.items) }
{
    while taken.len() > mark {
        if let Some(entry) = taken.pop() {
            insert(lists, entry);
        }
    }
}
