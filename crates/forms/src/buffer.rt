// A table of rows in memory of its own.
ghost use Rattle.std.specs.Prelude.{◌≡◌, ℕ, ◌≤◌, true, length, slice_index_or};
ghost use Rattle.forms.specs.declared.Row.TheVariants.{Void};
ghost use Rattle.forms.specs.Limits.{max_rows};
ghost use Rattle.forms.specs.Rows.{fits};

use super::{MAX_ROWS, Row};

/// A table of at most 64 rows: the first `count` of `table`. They lie in memory of a fixed size, since no table takes any from a heap.
#[derive(Drop)]
pub struct RowBuffer {
    table: [Row; MAX_ROWS],
    count: usize,
    ghost long: { length table ≡ max_rows },
    ghost few: { count ≤ max_rows },
    ghost fit: { (k : ℕ) → fits (slice_index_or table k Void) ≡ true },
}

pub mod filling;
