// A row cut into its cells, as lent bytes: how many there are and where each starts, of a row or of the line that a text begins with. Every
// byte string is defined for. What it is, is said by specs/cutting/Cut.antt.
ghost use Rattle.std.specs.Prelude.{◌≡◌, cond, ◌≤◌, set, eqb};
ghost use Rattle.sheet_input.specs.cutting.Cut.{Cut, LineCut};

// Room for where each cell of a row of all columns starts, and for one place more.
pub const STARTS: usize = 8;

// A place, kept where there is room for it.
fn keep(starts: &mut [usize], k: usize, at: usize)
    ensures { starts.new ≡ set starts.old k at }
{
    if k < starts.len() {
        starts[k] = at;
    }
}

// How many cells a row has, and where the first of them start. The place after a cell's tab is kept after each, and after the last one more
// than the length, so that a cell ends one byte before what is kept next.
pub fn cut(row: &[u8], starts: &mut [usize]) -> usize
    ensures { Cut row.now starts.new result }
{
    keep(starts, 0, 0);
    let mut t = row;
    let mut from = 0;
    let mut n = 0;
    // No plainer by split, which says what a cell is and not where it starts: n and from would be counted there too.
    loop {
        let end = scanner::find(t, b'\t');
        n += 1;
        from += end + 1;
        keep(starts, n, from);
        if end == t.len() {
            return n;
        }
        t = &t[end + 1..];
    }
}

// A line that is cut: how many cells it has, and where it ends.
#[derive(Clone, Copy)]
pub struct Line {
    pub cells: usize,
    pub end: usize,
}

// The tabs that a byte is: 1 or none.
fn tab_in(b: u8) -> usize
    ensures { (result ≡ cond (eqb b 9) 1 0) × (result ≤ 1) }
{
    if b == b'\t' { 1 } else { 0 }
}

// The line that a text begins with, up to its LF or to the end, cut as a row is. Each byte leaves the place after it as the next start, which
// stands if the byte is a tab and is written over if it is not: but for the end of the line, no branch depends on what a byte is. Where a cell
// ends is hard to guess, and a wrong guess costs more than the bytes of a cell do.
pub fn cut_line(text: &[u8], starts: &mut [usize]) -> Line
    ensures { LineCut text.now starts.new result }
{
    keep(starts, 0, 0);
    let mut n = 0;
    for (i, b) in text.iter().enumerate() {
        keep(starts, n + 1, i + 1);
        if *b == b'\n' {
            return Line {
                cells: n + 1,
                end: i,
            };
        }
        n += tab_in(*b);
    }
    keep(starts, n + 1, text.len() + 1);
    Line {
        cells: n + 1,
        end: text.len(),
    }
}
