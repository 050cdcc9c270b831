// The cells of a row, as lent bytes: a row is cut once, as `cutting` has it, and the cell of a column by the header's plan is then a part of
// it. Every byte string is defined for. What it is, is said by specs/cells/Cells.antt.
ghost use Rattle.std.specs.Prelude.{◌≡◌, get_or};
ghost use Rattle.sheet_input.specs.header.Header.{cells_of};
ghost use Rattle.sheet_input.specs.cutting.Cut.{Cut};
ghost use Rattle.sheet_input.specs.cells.Cells.{cell_at, cell_of};

use super::header::{COLUMNS, Column, Plan};

// A cell by its place from 1, a part of the row, where its start is not kept; no bytes for the place 0 and past the last.
fn cell_at(row: &[u8], place: usize) -> &[u8]
    ensures { result.now ≡ cell_at place (cells_of row.now) }
{
    if place == 0 {
        return &row[0..0];
    }
    row.split(|b| *b == b'\t')
        .nth(place - 1)
        .unwrap_or(&row[0..0])
}

// A cell of a row that is cut, by its place from 1, a part of the row; no bytes for the place 0 and past the last.
fn cell_in<'a>(row: &'a [u8], count: usize, starts: &[usize], place: usize) -> &'a [u8]
    requires { Cut row.now starts.now count }
    ensures { result.now ≡ cell_at place (cells_of row.now) }
{
    if place == 0 {
        return &row[0..0];
    }
    if count < place {
        return &row[0..0];
    }
    if starts.len() <= place {
        return cell_at(row, place);
    }
    let from = starts[place - 1];
    let to = starts[place] - 1;
    &row[from..to]
}

// The cell of a column of a row that is cut, by the column's number from 0, a part of the row; no bytes past the last column.
pub fn cell_of<'a>(
    plan: Plan,
    row: &'a [u8],
    count: usize,
    starts: &[usize],
    column: usize,
) -> &'a [u8]
    requires { Cut row.now starts.now count }
    ensures { result.now ≡ cell_at (get_or plan.places column 0) (cells_of row.now) }
{
    if COLUMNS <= column {
        return &row[0..0];
    }
    let place = plan.places[column];
    cell_in(row, count, starts, place)
}

// The same by the column's name.
pub fn cell_under<'a>(
    plan: Plan,
    row: &'a [u8],
    count: usize,
    starts: &[usize],
    column: Column,
) -> &'a [u8]
    requires { Cut row.now starts.now count }
    ensures { result.now ≡ cell_of plan column row.now }
{
    cell_of(plan, row, count, starts, column.index())
}
