// The place of a pair of rows among all pairs, and the pair of a place.
ghost use Rattle.std.specs.Prelude.{◌≡◌, ℕ, ◌*◌, ◌<◌, Some, MatchResult};
ghost use Rattle.forms.specs.Limits.{max_rows};
ghost use Rattle.verdicts.specs.Pairs.{place_of, pair_of, InTable};
ghost use Rattle.verdicts.specs.Tables.{rows_in, count_in};
ghost use Rattle.verdicts.specs.declared.faults.RowFault.TheVariants.{Outside};

use super::super::faults::RowFault;
use super::Prepared;

// A pair of rows is one tuple from the callers down to here, so that its rows keep their order on the way.
impl Prepared {
    /// The place of a pair among all pairs, if it is a pair of rows: of n rows, (p, q) has the place p × n + q.
    pub fn place(&self, pair: (u8, u8)) -> Option<usize>
        ensures is { result ≡ place_of (count_in self.now) (Some pair) }
        ensures small { (k : ℕ) → result ≡ Some k → k < max_rows * max_rows }
    {
        let n = self.count();
        if (pair.0 as usize) < n && (pair.1 as usize) < n {
            Some(pair.0 as usize * n + pair.1 as usize)
        } else {
            None
        }
    }

    /// Nothing, if it is a pair of rows; else it is refused as 21.
    pub fn in_table(&self, pair: (u8, u8)) -> Result<(), RowFault>
        ensures { MatchResult result (λ _. InTable (rows_in self.now) pair.0 pair.1) (λ e. (e ≡ Outside) × (InTable (rows_in self.now) pair.0 pair.1 → ⊥)) }
    {
        self.place(pair).ok_or(RowFault::Outside)?;
        Ok(())
    }

    /// The pair with that place, if there is one.
    pub fn pair_at(&self, place: usize) -> Option<(u8, u8)>
        ensures { result ≡ pair_of (count_in self.now) place }
    {
        let n = self.count();
        if place < n * n {
            Some(((place / n) as u8, (place % n) as u8))
        } else {
            None
        }
    }
}
