// What the cells of a row say, as lent bytes: whether the swap flag is set, and how many tokens there are. Every byte string is defined for.
// What it is, is said by specs/cellwords/Words.antt.
ghost use Rattle.std.specs.Prelude.{◌≡◌, [], ◌∷◌};
ghost use Rattle.sheet_input.specs.cellwords.Words.{swap_of, last_nonblank};

// A swap cell.
#[derive(Clone, Copy)]
pub enum Swap {
    No,
    Yes,
    Other,
}

pub fn swap_of(cell: &[u8]) -> Swap
    ensures { result ≡ swap_of cell.now }
{
    if cell.len() == 0 {
        return Swap::No;
    }
    if cell.len() != 1 {
        return Swap::Other;
    }
    let b = cell[0];
    if b == b'0' {
        return Swap::No;
    }
    if b == b'1' {
        return Swap::Yes;
    }
    Swap::Other
}

// How many tokens there are: up to the last cell that is not blank.
pub fn token_count(sn1: &[u8], sn2: &[u8], sn3: &[u8], sn4: &[u8]) -> usize
    ensures { result ≡ last_nonblank (sn1.now ∷ sn2.now ∷ sn3.now ∷ sn4.now ∷ []) }
{
    if sn4.len() != 0 {
        return 4;
    }
    if sn3.len() != 0 {
        return 3;
    }
    if sn2.len() != 0 {
        return 2;
    }
    if sn1.len() != 0 {
        return 1;
    }
    0
}
