//! The calls and types of `xc_dance`, each by its signature.
ghost use Rattle.std.specs.Prelude.{◌≡◌, ◌<◌, ◌⊎◌, Contains, length};
ghost use Rattle.xc_input.specs.Problem.{IsItem, IsPrimary};
ghost use Rattle.xc_moves.specs.Moves.{IsLegal, AreTweaks, IsOpenPrimary, listed_numbers};

use std::alloc::Global;
use xc_dance::{Count, Dance, Field, Full, Links, Lists, Memory, Move};
use xc_input::Problem;

fn can<D: Dance>(dance: &D, m: &Move) -> bool {
    dance.can(m)
}

fn apply<D: Dance>(dance: &mut D, m: Move) -> Result<Count, Full>
    requires { IsLegal (D.state dance.old).puzzle (D.state dance.old).trail m }
{
    dance.apply(m)
}

fn undo<D: Dance>(dance: &mut D) -> Count
    requires { 0 < length (D.state dance.old).trail }
{
    dance.undo()
}

fn undo_tweaks<D: Dance>(dance: &mut D, k: usize) -> Count
    requires { AreTweaks k (D.state dance.old).trail }
{
    dance.undo_tweaks(k)
}

fn moves<D: Dance>(dance: &D) -> (&[Move], usize) {
    (dance.moves(), dance.room())
}

fn list<D: Dance>(dance: &D, i: u32) -> (u32, Option<u32>)
    requires { IsItem (D.state dance.now).puzzle i }
{
    (dance.len(i), dance.first(i))
}

fn below<D: Dance>(dance: &D, i: u32, o: u32) -> Option<u32>
    requires item { IsItem (D.state dance.now).puzzle i }
    requires listed { Contains (listed_numbers (D.state dance.now).puzzle (D.state dance.now).trail i) o }
{
    dance.below(i, o)
}

fn open_after<D: Dance>(dance: &D, i: u32) -> Option<u32>
    requires { (i ≡ 0) ⊎ IsOpenPrimary (D.state dance.now).puzzle (D.state dance.now).trail i }
{
    dance.open_after(i)
}

fn bound<D: Dance>(dance: &D, i: u32) -> u32
    requires { IsPrimary (D.state dance.now).puzzle i }
{
    dance.bound(i)
}

fn new_lists(alloc: Global, problem: &Problem, room: usize) -> Result<Lists, Memory> {
    Lists::new(alloc, problem, room)
}

fn new_links(alloc: Global, problem: &Problem, room: usize) -> Result<Links, Memory> {
    Links::new(alloc, problem, room)
}

fn same(links: &Links, other: &Links) -> bool {
    links.same(other)
}

fn cell(links: &Links, field: Field, place: u32) -> Option<i64> {
    links.cell(field, place)
}

fn cells(count: Count) -> u64 {
    count.0
}

fn item_of(m: Move) -> u32 {
    match m {
        Move::Cover(item) => item,
        Move::Purify(item, _colour) => item,
        Move::Tweak(item) => item,
        Move::Spend(item) => item,
    }
}

fn number_of_field(field: Field) -> u8 {
    match field {
        Field::Llink => 1,
        Field::Rlink => 2,
        Field::Bound => 3,
        Field::Slack => 4,
        Field::Top => 5,
        Field::Ulink => 6,
        Field::Dlink => 7,
        Field::Color => 8,
    }
}
