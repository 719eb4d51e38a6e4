//! An edge to which a pixel to the right adds something.
ghost use Rattle.std.specs.Prelude.{◌≡◌, ◌≢◌, ℕ, pos, ◌^◌, ◌<◌};
ghost use Rattle.cull_base.specs.Bounds.{Bounded};
ghost use Rattle.edge_lanes.specs.Lines.{counts_at, line};

/// An edge by its values as in `NarrowEdge`, with a column's step that isn't 0.
#[derive(Clone, Copy)]
pub struct Slant {
    pub start: i64,
    pub column: i32,
    pub row: i32,
    ghost start_bounded: { Bounded (2 ^ 58) start },
    ghost column_bounded: { Bounded (2 ^ 20) column },
    ghost row_bounded: { Bounded (2 ^ 20) row },
    ghost slants: { column ≢ pos 0 },
}

/// Rows of a screen lie within this of one another.
const ROWS: i64 = 4096;

/// A row of a level edge adds more than all columns of a screen do.
const ROW: i32 = 2048;

// A level edge, slanted so little that each sample of a screen of 2048 by 2048 pixels has the same sign: the values are
// counted in rows, a row adds 2048, and a column 1.
#[inline(always)]
fn level(start: i64, row: i32) -> Slant
    requires start { Bounded (2 ^ 58) start }
    requires row { Bounded (2 ^ 20) row }
    ensures { (x y : ℕ) → x < 2 ^ 11 → y < 2 ^ 11
        → counts_at (line result.start result.column result.row) x y ≡ counts_at (line start (pos 0) row) x y }
{
    let size = i64::from(row).abs().max(1);
    let rows = start.div_euclid(size).clamp(-ROWS, ROWS);
    Slant {
        start: i64::from(ROW) * rows,
        column: 1,
        row: ROW * row.signum(),
    }
}

impl Slant {
    /// The edge, or where it is level, one that has the same signs on a screen of 2048 by 2048 pixels.
    #[inline(always)]
    pub fn of(start: i64, column: i32, row: i32) -> Slant
        requires start { Bounded (2 ^ 58) start }
        requires column { Bounded (2 ^ 20) column }
        requires row { Bounded (2 ^ 20) row }
        ensures { (x y : ℕ) → x < 2 ^ 11 → y < 2 ^ 11
            → counts_at (line result.start result.column result.row) x y
            ≡ counts_at (line start column row) x y }
    {
        if column == 0 {
            level(start, row)
        } else {
            Slant { start, column, row }
        }
    }
}
