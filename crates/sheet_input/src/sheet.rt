// What a row of a sheet asks, as lent bytes: its cells are those of `cells`, by the plan that `header` makes. Every byte string is defined for;
// a row that is unreadable (42) asks nothing. What it is, is said by specs/sheet/Sheet.antt.
ghost use Rattle.std.specs.Prelude.{◌≡◌, [], ◌∷◌};
ghost use Rattle.sheet_input.specs.cells.Cells.{sn_cells};
ghost use Rattle.sheet_input.specs.cutting.Cut.{Cut};
ghost use Rattle.sheet_input.specs.sheet.Sheet.{request_of, told};

use super::cells::cell_under;
use super::cellwords::{Swap, swap_of, token_count};
use super::header::{Column, Plan};

// The longest row.
pub const MAX_ROW: usize = 2048;

// What a row asks, beside its cells: the swap flag, and how many tokens it has.
#[derive(Clone, Copy)]
pub struct Asked {
    pub swap: bool,
    pub count: usize,
}

// What a row asks that is cut into so many cells, if it is readable. Its token cells are lent too, for whoever draws the row takes them in any case.
pub fn read_cut(
    plan: Plan,
    row: &[u8],
    cells: usize,
    starts: &[usize],
    sn1: &[u8],
    sn2: &[u8],
    sn3: &[u8],
    sn4: &[u8],
) -> Option<Asked>
    requires { Cut row.now starts.now cells × ((sn1.now ∷ sn2.now ∷ sn3.now ∷ sn4.now ∷ []) ≡ sn_cells plan row.now) }
    ensures { result ≡ told (request_of plan row.now) }
{
    if MAX_ROW < row.len() {
        return None;
    }
    if cells != plan.cells {
        return None;
    }
    let count = token_count(sn1, sn2, sn3, sn4);
    let swap = swap_of(cell_under(plan, row, cells, starts, Column::Swap));
    match swap {
        Swap::No => Some(Asked { swap: false, count }),
        Swap::Yes => Some(Asked { swap: true, count }),
        Swap::Other => None,
    }
}
