//! Rows of solutions that rise, each compared while it is read.
ghost use Rattle.std.specs.Prelude.{◌≡◌, IfOk};
ghost use Rattle.xc_tools.specs.inner.SpanLines.{ends_before, has_risen, risen, TakesNumber};

use crate::joint::Rising;
use std::alloc::AllocError;

impl Rising {
    /// A row begins.
    pub fn begin(&mut self)
        ensures { self.new ≡ record self.old { tied = Some 0 } }
    {
        self.tied = Some(0);
    }

    /// Takes the next number, unless the row would come before the last one.
    pub fn push(&mut self, k: u64) -> Result<bool, AllocError>
        ensures { IfOk result (λ rises. TakesNumber (risen self.old) k rises (risen self.new)) }
    {
        let Some(depth) = self.tied else {
            self.row.push(k)?;
            return Ok(true);
        };
        if let Some(n) = self.row.get(depth) {
            if k < *n {
                return Ok(false);
            }
            if k == *n {
                self.tied = Some(depth + 1);
                return Ok(true);
            }
        }
        self.row.truncate(depth);
        self.row.push(k)?;
        self.tied = None;
        Ok(true)
    }

    /// Whether the row that ends here comes after the last one, or is that where it may be.
    pub fn has_risen(&self, may_be_same: bool) -> bool
        ensures { result ≡ has_risen (risen self.now) may_be_same }
    {
        match self.tied {
            None => true,
            Some(depth) => may_be_same && depth == self.row.len(),
        }
    }

    /// Whether a span may end at this row after so many solutions, or at the listing's end, where it's empty.
    #[tactic(auto, using(xc_list::proofs::RowOrder::precedes_less))]
    pub fn ends_before(&self, found: u64, until: &[u64]) -> bool
        ensures { result ≡ ends_before self.now.row.items found until.now }
    {
        if until.is_empty() {
            return true;
        }
        if found == 0 {
            !(until < self.row.as_slice())
        } else {
            self.row.as_slice() < until
        }
    }
}
