// What a prepared table has: its rows, and what each of them offers.
ghost use Rattle.std.specs.Prelude.{◌≡◌, ℕ, Decides};
ghost use Rattle.std.specs.List.{slice_get};
ghost use Rattle.forms.specs.Rows.{belongs};
ghost use Rattle.forms.specs.Schema.{Offers, Inhabited, IsChannel};
ghost use Rattle.schema.specs.Rules.{OffersVoid};
ghost use Rattle.verdicts.specs.Reading.{LabelledBy};
ghost use Rattle.verdicts.specs.Ready.{IsElement};
ghost use Rattle.verdicts.specs.RowSets.{row_set};
ghost use Rattle.verdicts.specs.Tables.{rows_in};

use super::super::kinds::is_channel;
use super::super::rowsets::RowSet;
use super::Prepared;
use forms::{FormSource, Row};

impl Prepared {
    /// The row with that number, if there is one.
    pub fn row(&self, number: u8) -> Option<Row>
        ensures { result ≡ slice_get (rows_in self.now) number }
    {
        self.table.row(number)
    }

    /// Whether the row with that number is a channel row.
    pub fn is_channel(&self, number: u8) -> bool
        ensures { Decides result (IsChannel (rows_in self.now) number) }
    {
        is_channel(self.row(number))
    }

    /// Whether row p offers a void row.
    pub fn gives_void(&self, p: u8) -> bool
        ensures { Decides result (OffersVoid (rows_in self.now) p) }
    {
        RowSet::of(&self.voids, p).next().is_some()
    }

    /// The channel rows that row p offers.
    pub fn channels_of(&self, p: u8) -> RowSet<'_>
        ensures set { (c : ℕ) → Decides (row_set result c) (Offers (rows_in self.now) p c × IsChannel (rows_in self.now) c) }
        ensures start { result.start ≡ 0 }
    {
        RowSet::of(&self.channels, p)
    }

    /// The inhabited element rows that row p offers.
    pub fn elements_of(&self, p: u8) -> RowSet<'_>
        ensures set { (e : ℕ) → Decides (row_set result e) (Offers (rows_in self.now) p e × Inhabited (rows_in self.now) e × IsElement (rows_in self.now) e) }
        ensures start { result.start ≡ 0 }
    {
        RowSet::of(&self.elements, p)
    }

    /// The labels of the inhabited element rows that row p offers, as a label set.
    pub fn labels(&self, p: u8) -> u64
        ensures { (x : ℕ) → Decides (belongs x result) (LabelledBy (rows_in self.now) p x) }
    {
        self.labels.get(p as usize).copied().unwrap_or(0)
    }
}
