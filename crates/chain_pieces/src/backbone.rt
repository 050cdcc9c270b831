// The carbons of a chain without what they carry, written at a place of a lent slice: the mark before a carbon, the O of an epoxide after it,
// and the flexible tail.
ghost use Rattle.std.specs.Prelude.{[], ◌∷◌};
ghost use Rattle.writer.specs.emit.Text.{Written};
ghost use Rattle.chain_pieces.specs.backbone.Text.{carbon_text, bridge_text, pairs_text, flexible_text};

// The mark of the bond before a carbon, if it has one, and the carbon: a bridge stands there already and is no mark.
pub fn put_carbon(out: &mut [u8], at: usize, bond: u8) -> usize
    ensures { Written out.old at (carbon_text bond) out.new result }
{
    if bond == 0 {
        return writer::put(out, at, b'C');
    }
    if bond == b'O' {
        return writer::put(out, at, b'C');
    }
    let p = writer::put(out, at, bond);
    writer::put(out, p, b'C')
}

// The O of an epoxide, between a carbon and the next.
pub fn put_bridge(out: &mut [u8], at: usize, bond: u8) -> usize
    ensures { Written out.old at (bridge_text bond) out.new result }
{
    if bond == b'O' {
        return writer::put(out, at, b'O');
    }
    at
}

fn put_pair(out: &mut [u8], at: usize) -> usize
    ensures { Written out.old at (67 ∷ 61 ∷ 67 ∷ []) out.new result }
{
    writer::put_all(out, at, b"C=C")
}

// So many `C=C`.
fn put_pairs(out: &mut [u8], at: usize, n: u16) -> usize
    ensures { Written out.old at (pairs_text n) out.new result }
{
    let mut p = at;
    let mut left = n;
    while 0 < left {
        p = put_pair(out, p);
        left -= 1;
    }
    p
}

// The flexible tail of n double bonds without a position: a carbon, n times `C=C`, a carbon.
pub fn put_flexible(out: &mut [u8], at: usize, bond: u8, n: u16) -> usize
    ensures { Written out.old at (flexible_text bond n) out.new result }
{
    if n == 0 {
        return at;
    }
    let p = put_carbon(out, at, bond);
    let q = put_pairs(out, p, n);
    writer::put(out, q, b'C')
}
