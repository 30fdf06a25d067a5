//! The number of sets of options that hold each item within its bounds, by a search that makes no move.
ghost use Rattle.std.specs.Prelude.{◌≡◌, ◌<◌, ◌≤◌, ◌+◌, ◌-◌, ◌^◌, ◌⊎◌, ℕ, IfSome, slice_index, replicate, bit_or};
ghost use Rattle.std.specs.Int.{bit_at};
ghost use Rattle.xc_words.specs.Words.{bits_of};
ghost use Rattle.xc_words.specs.Bounded.{fair_sets, times_in, AreOfOptions};
ghost use Rattle.xc_words.specs.inner.Fair.{IsBranchOf, IsBeside, IsMinus, IsRight, IsWithout};

/// Up to 64 items with bounds and 64 options, each with a number from 0 to 63, which is its bit as well.
#[derive(Drop)]
pub struct BoundedWords {
    /// By item, the options that hold it.
    pub holders: [u64; 64],
    /// By option, its items. One whose other options are all in `apart` may be left out.
    pub many: [u64; 64],
    /// By option, those that can't be taken beside it.
    pub apart: [u64; 64],
    /// By item, how many options have to hold it.
    pub low: [u8; 64],
    /// By item, how many may hold it, from 1 on.
    pub high: [u8; 64],
}

impl BoundedWords {
    /// Those of no items and no options.
    pub fn new() -> BoundedWords
        ensures { result ≡ record {
          holders = replicate 64 0;
          many = replicate 64 0;
          apart = replicate 64 0;
          low = replicate 64 0;
          high = replicate 64 0;
        } }
    {
        BoundedWords {
            holders: [0; 64],
            many: [0; 64],
            apart: [0; 64],
            low: [0; 64],
            high: [0; 64],
        }
    }
}

/// The options that a search takes in turn, each without those before it, until no more are left of them than the item
/// needs: then it needs each.
#[derive(Clone, Copy)]
struct Branch {
    options: u64,
    need: u32,
}

/// Those of an unmet item that leaves the fewest branches, or of one that leaves at most one. Where none of the unmet
/// items needs an option, they are all, and none is needed. Items that need none any more are met after. Which item
/// it is decides how long a search takes, and not what it counts, so no clause says it.
#[inline(always)]
fn fewest_of(words: &BoundedWords, left: u64, set: u64, unmet: &mut u64) -> Branch
    ensures branch { IsBranchOf words.now unmet.old set result }
    ensures less { (i : ℕ) → i < 64 → bit_at unmet.new i ≡ 1 → bit_at unmet.old i ≡ 1 }
    ensures closed { (i : ℕ) → i < 64 → bit_at unmet.old i ≡ 1
        → (bit_at unmet.new i ≡ 1) ⊎ (slice_index words.now.low i ≤ times_in words.now set i) }
{
    let mut branch = Branch {
        options: u64::MAX,
        need: 0,
    };
    let mut least = u32::MAX;
    let mut rest = *unmet;
    while rest != 0 && least > 1 {
        let i = rest.trailing_zeros() as usize;
        rest &= rest - 1;
        let low = u32::from(words.low[i]);
        let held = (words.holders[i] & set).count_ones();
        if low <= held {
            *unmet = without(*unmet, i);
            continue;
        }
        let need = low - held;
        let branches = ((words.holders[i] & left).count_ones() + 1).saturating_sub(need);
        if branches < least {
            least = branches;
            branch = Branch {
                options: words.holders[i],
                need,
            };
        }
    }
    branch
}

/// A set with one member more.
#[inline(always)]
fn with(set: u64, x: usize) -> u64
    requires { x < 64 }
    ensures { result ≡ bit_or set (2 ^ x) }
{
    set | 1u64 << x
}

/// A set without one of its members.
#[inline(always)]
fn without(set: u64, x: usize) -> u64
    requires { x < 64 }
    ensures without { IsWithout set x result }
    ensures less { bit_at set x ≡ 1 → result < set }
{
    set & !(1u64 << x)
}

/// The members of a that aren't in b.
#[inline(always)]
fn minus(a: u64, b: u64) -> u64
    ensures { IsMinus a b result }
{
    a & !b
}

/// Of the options that are left, those that may be taken beside a set whose last option is x.
#[inline(always)]
fn beside(words: &BoundedWords, left: u64, set: u64, x: usize) -> u64
    requires { x < 64 }
    ensures { IsBeside words.now left set x result }
{
    let mut stay = minus(left, words.apart[x]);
    let mut rest = words.many[x];
    while rest != 0 {
        let i = rest.trailing_zeros() as usize;
        rest &= rest - 1;
        let of = words.holders[i];
        if (of & set).count_ones() >= u32::from(words.high[i]) {
            stay = minus(stay, of);
        }
    }
    stay
}

/// How many fair sets of options there are: no two of them apart, and each of these items within its bounds. None if
/// there are more than `most`, or if the budget runs out. The budget is in nodes, and is lowered by those that were
/// visited.
pub fn count_bounded(
    words: &BoundedWords,
    left: u64,
    items: u64,
    most: u64,
    budget: &mut u64,
) -> Option<u64>
    ensures counted { IfSome result (λ n. AreOfOptions words.now items left
        → n ≡ fair_sets words.now items (bits_of left) 0) }
    ensures within { IfSome result (λ n. n ≤ most) }
    ensures spent { budget.new ≤ budget.old }
{
    count_beside(words, left, 0, items, most, budget)
}

/// The same where the options of a set were taken, those that are left may be taken beside it, and items that aren't
/// unmet any more need no other option.
fn count_beside(
    words: &BoundedWords,
    left: u64,
    set: u64,
    unmet: u64,
    most: u64,
    budget: &mut u64,
) -> Option<u64>
    ensures counted { IfSome result (λ n. (items : ℕ) → IsRight words.now items left set unmet
        → n ≡ fair_sets words.now items (bits_of left) set) }
    ensures within { IfSome result (λ n. n ≤ most) }
    ensures spent { budget.new ≤ budget.old }
{
    let mut left = left;
    let mut set = set;
    let mut unmet = unmet;
    let mut sum = 0u64;
    loop {
        if *budget == 0 {
            return None;
        }
        *budget -= 1;
        let branch = fewest_of(words, left, set, &mut unmet);
        while (branch.options & left).count_ones() > branch.need {
            let x = (branch.options & left).trailing_zeros() as usize;
            left = without(left, x);
            let taken = with(set, x);
            let stay = beside(words, left, taken, x);
            let found = count_beside(words, stay, taken, unmet, most, budget)?;
            if found > most - sum {
                return None;
            }
            sum += found;
        }
        if branch.need == 0 {
            return if sum < most { Some(sum + 1) } else { None };
        }
        if (branch.options & left).count_ones() < branch.need {
            return Some(sum);
        }
        let x = (branch.options & left).trailing_zeros() as usize;
        set = with(set, x);
        left = beside(words, without(left, x), set, x);
    }
}
