// The chains of a request in lent arrays: the shape of each, and its lists beside them. Every place has an answer; past the last there is an
// empty chain. Which chains they are is said by specs/chain_shapes/Shapes.antt.
ghost use Rattle.std.specs.Prelude.{◌≡◌, set, slice_index_or};
ghost use Rattle.request_chains.specs.chain_shapes.Shapes.{no_shape};
ghost use Rattle.request_chains.specs.chain_shapes.Sn.{ShapeAt};

use drawn_chain::{Lists, MAX_CHAINS, Shape};

// Past the last chain.
pub const NO_SHAPE: Shape = Shape {
    first: 0,
    carbon: 0,
    acyl: false,
    ether_base: false,
    unlocated: 0,
    bond_count: 0,
    group_count: 0,
    float_count: 0,
    ring_count: 0,
};

// The chains of a request: how many count, the shape of each, and the lists of each at the same place.
#[derive(Clone, Copy)]
pub struct Chains<'a> {
    pub count: usize,
    pub shapes: &'a [Shape; MAX_CHAINS],
    pub lists: &'a [Lists],
}

// The chain at a place; past the last an empty one.
pub fn shape_in(shapes: &[Shape; MAX_CHAINS], i: usize) -> Shape
    ensures { result ≡ slice_index_or shapes.now i no_shape }
{
    shapes.get(i).copied().unwrap_or(NO_SHAPE)
}

// The chain of an sn, whose lists stand in the part of that sn; an empty one where the request has no such token.
pub fn shape_at(count: usize, shapes: &[Shape; MAX_CHAINS], sn: u8) -> Shape
    ensures { ShapeAt count shapes.now sn result }
{
    let i = sn as usize;
    if i == 0 || count < i {
        return NO_SHAPE;
    }
    shape_in(shapes, i - 1)
}

impl<'a> Chains<'a> {
    // The same of the chains of a request.
    pub fn shape_at(self, sn: u8) -> Shape
        ensures { ShapeAt self.entry.count self.entry.shapes.now sn result }
    {
        shape_at(self.count, self.shapes, sn)
    }
}

// A chain kept at a place; past the last there is no room.
pub fn keep_shape(shapes: &mut [Shape; MAX_CHAINS], i: usize, x: Shape)
    ensures { shapes.new ≡ set shapes.old i x }
{
    if i < MAX_CHAINS {
        shapes[i] = x;
    }
}
