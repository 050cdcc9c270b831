// The places that a line has: four, one for each chain, and as many for the sites.
ghost use Rattle.std.specs.Prelude.{◌≡◌, min};

const PLACES: usize = 4;

// How many of some things have a place: a larger number stands for all four.
pub fn in_places(count: usize) -> usize
    ensures { result ≡ min count 4 }
{
    count.min(PLACES)
}
