//! How a screen is cut into bins.
ghost use Rattle.std.specs.Prelude.{◌≡◌, MatchOption, IsSome, ◌≤◌};
ghost use Rattle.binning.specs.Cut.{CutOf, IsCut, cut_into, bin_count_of};

use std::marker::Model;

/// Columns and rows of bins, 1 to 8 each.
#[derive(Clone, Copy, Debug, PartialEq, Eq)]
pub struct Cut {
    columns: u8,
    rows: u8,
}

impl Model for Cut {
    ghost Value = { CutOf };

    ghost view = { λ c. record { columns = c.columns; rows = c.rows } };

    ghost invariant = { λ c. IsCut c.columns c.rows };

    ghost inverse = { λ v. record { columns = v.columns; rows = v.rows } };
}

impl Cut {
    /// None exactly where one of the two isn't 1 to 8.
    pub fn new(columns: u8, rows: u8) -> Option<Cut>
        ensures value { MatchOption result (IsCut columns rows → ⊥) (λ c. c ≡ cut_into columns rows) }
        ensures given { IsCut columns rows → IsSome result }
    {
        if 1 <= columns && columns <= 8 && 1 <= rows && rows <= 8 {
            Some(Cut { columns, rows })
        } else {
            None
        }
    }

    /// How many columns of bins.
    #[inline(always)]
    pub fn columns(&self) -> u32
        ensures value { result ≡ self.now.columns }
        ensures valid { IsCut self.now.columns self.now.rows }
    {
        // what is held of both is known where both are read
        let _rows = self.rows;
        u32::from(self.columns)
    }

    /// How many rows of bins.
    #[inline(always)]
    pub fn rows(&self) -> u32
        ensures value { result ≡ self.now.rows }
        ensures valid { IsCut self.now.columns self.now.rows }
    {
        // as above
        let _columns = self.columns;
        u32::from(self.rows)
    }

    /// How many bins: 1 to 64.
    pub fn bins(&self) -> u32
        ensures value { result ≡ bin_count_of self.now }
        ensures few { result ≤ 64 }
        ensures some { 1 ≤ result }
    {
        self.columns() * self.rows()
    }
}
