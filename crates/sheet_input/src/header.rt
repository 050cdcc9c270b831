// The header of a sheet, as lent bytes: which cell of a row is which column. Every byte string is defined for; a header that is unreadable
// (42) has no plan. What it is, is said by specs/header/Header.antt.
ghost use Rattle.std.specs.Prelude.{◌≡◌, ◌<◌, []};
ghost use Rattle.sheet_input.specs.header.Header.{column_index, column_of, plan_of, plan_from};

// The columns of a sheet.
#[derive(Clone, Copy)]
pub enum Column {
    Class,
    Swap,
    Tail,
    Sn1,
    Sn2,
    Sn3,
    Sn4,
}

impl Column {
    // The place of a column in a plan.
    pub fn index(self) -> usize
        ensures { (result ≡ column_index self) × (result < 7) }
    {
        self as usize
    }
}

// How many columns there are.
pub const COLUMNS: usize = 7;

// What a header says: how many cells a row has and, by column, which cell it is, from 1; 0 where the header leaves it out.
#[derive(Clone, Copy)]
pub struct Plan {
    pub cells: usize,
    pub places: [usize; COLUMNS],
}

// The plan of a header whose names are all read.
fn whole_plan(n: usize, places: [usize; COLUMNS]) -> Option<Plan>
    ensures { result ≡ plan_from n places [] }
{
    if places[Column::Class.index()] == 0 {
        return None;
    }
    Some(Plan { cells: n, places })
}

// The column that a name heads, if it is known.
fn column_of(name: &[u8]) -> Option<Column>
    ensures { result ≡ column_of name.now }
{
    if scanner::same(name, b"class") {
        return Some(Column::Class);
    }
    if scanner::same(name, b"swap") {
        return Some(Column::Swap);
    }
    if scanner::same(name, b"tail") {
        return Some(Column::Tail);
    }
    if scanner::same(name, b"sn1") {
        return Some(Column::Sn1);
    }
    if scanner::same(name, b"sn2") {
        return Some(Column::Sn2);
    }
    if scanner::same(name, b"sn3") {
        return Some(Column::Sn3);
    }
    if scanner::same(name, b"sn4") {
        return Some(Column::Sn4);
    }
    None
}

// The plan that a header says.
pub fn plan_of(header: &[u8]) -> Option<Plan>
    ensures { result ≡ plan_of header.now }
{
    let mut places = [0usize; COLUMNS];
    let mut t = header;
    let mut n = 0;
    loop {
        let end = scanner::find(t, b'\t');
        let column = column_of(&t[0..end])?.index();
        if places[column] != 0 {
            return None;
        }
        n += 1;
        places[column] = n;
        if end == t.len() {
            return whole_plan(n, places);
        }
        t = &t[end + 1..];
    }
}
