// What is kept of a chain beside its atoms.
ghost use Rattle.drawn_chain.specs.drawable.Drawn.{drawn_of, Says, DrawsSome};
ghost use Rattle.chain_indices.specs.totals.Sum.{sum_of};
ghost use Rattle.chain_indices.specs.totals.Totals.{FiguresOf};

use drawn_chain::{Lists, Shape};

// What is kept of a chain beside its atoms: whether it is acyl, its double bonds without a position, what its variables add up to, and how many
// floating groups and rings it has.
#[derive(Clone, Copy)]
pub struct Figures {
    pub acyl: bool,
    pub unlocated: u16,
    pub total: u16,
    pub float_count: u16,
    pub rings: u16,
}

// What the variables of a chain add up to. Most chains have none: then what remains of them is not looked for.
fn sum(x: Shape, part: &Lists) -> u16
    requires { DrawsSome (drawn_of x part.now) }
    ensures { Says (drawn_of x part.now) result sum_of }
{
    let n = x.unlocated;
    if n == 0 {
        return 0;
    }
    let remaining = drawn_chain::remaining(x, part);
    if remaining <= n {
        return 0;
    }
    remaining - n - 1
}

pub fn figures_of(x: Shape, part: &Lists) -> Figures
    requires { DrawsSome (drawn_of x part.now) }
    ensures { FiguresOf (drawn_of x part.now) result }
{
    let total = sum(x, part);
    let float_count = x.floats(part).len() as u16;
    let rings = x.rings(part).len() as u16;
    Figures {
        acyl: x.acyl,
        unlocated: x.unlocated,
        total,
        float_count,
        rings,
    }
}
