// The group table of 01 as a constant array of 17 rows, and the answers to an abbreviation: a row of the table, which `abbreviations` finds,
// or a ring of two or three carbons, which `aliases` does. A row past the table is blank. The table in words: specs/groups/Groups.antt.
ghost use Rattle.group_table.specs.groups.Groups.{RowIs};

pub const MAX_ABBR: usize = 4;

pub const MAX_BRANCH: usize = 12;

pub const ROW_COUNT: u8 = 17;
// Rows that have a name of their own here: the methyl of a branch word, the oxygen of a base, and what hydroxy and keto say.
pub const METHYL: u8 = 1;

pub const HYDROXY: u8 = 11;

pub const KETO: u8 = 12;

// One group: its abbreviation, the branch that its carbon carries, and the atoms of that branch.
#[derive(Clone, Copy)]
pub struct Row {
    pub abbr_len: u8,
    pub abbr: [u8; MAX_ABBR],
    pub branch_len: u8,
    pub branch: [u8; MAX_BRANCH],
    pub atoms: u8,
}

const ROWS: [Row; 17] = [
    Row {
        abbr_len: 2,
        abbr: [b'E', b't', 0, 0],
        branch_len: 2,
        branch: [b'C', b'C', 0, 0, 0, 0, 0, 0, 0, 0, 0, 0],
        atoms: 2,
    },
    Row {
        abbr_len: 2,
        abbr: [b'M', b'e', 0, 0],
        branch_len: 1,
        branch: [b'C', 0, 0, 0, 0, 0, 0, 0, 0, 0, 0, 0],
        atoms: 1,
    },
    Row {
        abbr_len: 2,
        abbr: [b'B', b'r', 0, 0],
        branch_len: 2,
        branch: [b'B', b'r', 0, 0, 0, 0, 0, 0, 0, 0, 0, 0],
        atoms: 1,
    },
    Row {
        abbr_len: 2,
        abbr: [b'C', b'l', 0, 0],
        branch_len: 2,
        branch: [b'C', b'l', 0, 0, 0, 0, 0, 0, 0, 0, 0, 0],
        atoms: 1,
    },
    Row {
        abbr_len: 1,
        abbr: [b'F', 0, 0, 0],
        branch_len: 1,
        branch: [b'F', 0, 0, 0, 0, 0, 0, 0, 0, 0, 0, 0],
        atoms: 1,
    },
    Row {
        abbr_len: 1,
        abbr: [b'I', 0, 0, 0],
        branch_len: 1,
        branch: [b'I', 0, 0, 0, 0, 0, 0, 0, 0, 0, 0, 0],
        atoms: 1,
    },
    Row {
        abbr_len: 3,
        abbr: [b'N', b'O', b'2', 0],
        branch_len: 12,
        branch: [
            b'[', b'N', b'+', b']', b'(', b'=', b'O', b')', b'[', b'O', b'-', b']',
        ],
        atoms: 3,
    },
    Row {
        abbr_len: 3,
        abbr: [b'O', b'M', b'e', 0],
        branch_len: 2,
        branch: [b'O', b'C', 0, 0, 0, 0, 0, 0, 0, 0, 0, 0],
        atoms: 2,
    },
    Row {
        abbr_len: 3,
        abbr: [b'N', b'H', b'2', 0],
        branch_len: 1,
        branch: [b'N', 0, 0, 0, 0, 0, 0, 0, 0, 0, 0, 0],
        atoms: 1,
    },
    Row {
        abbr_len: 3,
        abbr: [b'O', b'O', b'H', 0],
        branch_len: 2,
        branch: [b'O', b'O', 0, 0, 0, 0, 0, 0, 0, 0, 0, 0],
        atoms: 2,
    },
    Row {
        abbr_len: 2,
        abbr: [b'S', b'H', 0, 0],
        branch_len: 1,
        branch: [b'S', 0, 0, 0, 0, 0, 0, 0, 0, 0, 0, 0],
        atoms: 1,
    },
    Row {
        abbr_len: 2,
        abbr: [b'O', b'H', 0, 0],
        branch_len: 1,
        branch: [b'O', 0, 0, 0, 0, 0, 0, 0, 0, 0, 0, 0],
        atoms: 1,
    },
    Row {
        abbr_len: 3,
        abbr: [b'o', b'x', b'o', 0],
        branch_len: 2,
        branch: [b'=', b'O', 0, 0, 0, 0, 0, 0, 0, 0, 0, 0],
        atoms: 1,
    },
    Row {
        abbr_len: 2,
        abbr: [b'C', b'N', 0, 0],
        branch_len: 3,
        branch: [b'C', b'#', b'N', 0, 0, 0, 0, 0, 0, 0, 0, 0],
        atoms: 2,
    },
    Row {
        abbr_len: 1,
        abbr: [b'P', 0, 0, 0],
        branch_len: 10,
        branch: [
            b'O', b'P', b'(', b'=', b'O', b')', b'(', b'O', b')', b'O', 0, 0,
        ],
        atoms: 5,
    },
    Row {
        abbr_len: 1,
        abbr: [b'S', 0, 0, 0],
        branch_len: 11,
        branch: [
            b'O', b'S', b'(', b'=', b'O', b')', b'(', b'=', b'O', b')', b'O', 0,
        ],
        atoms: 5,
    },
    Row {
        abbr_len: 4,
        abbr: [b'C', b'O', b'O', b'H'],
        branch_len: 6,
        branch: [b'C', b'(', b'=', b'O', b')', b'O', 0, 0, 0, 0, 0, 0],
        atoms: 3,
    },
];

// Row i of the table; past its end a blank row.
pub fn row_at(i: u8) -> Row
    ensures { RowIs i result }
{
    if i < ROW_COUNT {
        let at = i as usize;
        return ROWS[at];
    }
    let abbr = [0u8; MAX_ABBR];
    let branch = [0u8; MAX_BRANCH];
    Row {
        abbr_len: 0,
        abbr,
        branch_len: 0,
        branch,
        atoms: 0,
    }
}
