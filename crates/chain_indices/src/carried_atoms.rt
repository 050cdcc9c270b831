// The atoms of what a carbon carries: the branch of a group, and the O of an acyl C1.
ghost use Rattle.std.specs.Prelude.{◌≡◌};
ghost use Rattle.reading_rules.specs.reading.Chain.{parts_end};
ghost use Rattle.chain_rules.specs.chain.Drawing.{branch_part};
ghost use Rattle.chain_pieces.specs.branches.Text.{carbonyl_of};
ghost use Rattle.chain_indices.specs.carried_atoms.Counts.{Counts};

fn wide(n: u8) -> u16
    ensures { result ≡ n }
{
    n as u16
}

// The atoms of a group's branch.
pub fn branch_atoms(row: u8) -> u16
    ensures { Counts 5 (branch_part row).size result }
{
    wide(carbons::row_atoms(row))
}

// The doubly bonded O of an acyl C1.
pub fn carbonyl_atoms(acyl: bool, k: u16) -> u16
    ensures { Counts 1 (parts_end 0 (carbonyl_of acyl k)) result }
{
    if acyl {
        if k == 1 {
            return 1;
        }
        return 0;
    }
    0
}
