// A table of the two digits of each number below 100, with which `carbon_lists` writes indices. What it holds is said by specs/digit_pairs/Pairs.antt.
ghost use Rattle.sheet_output.specs.digit_pairs.Pairs.{Pairs};

// How many numbers a table of digits has.
pub const PAIRS: usize = 100;

// A table of the two digits of each number below 100, so far as there is room: the tens in the low byte and the ones in the high one. It is made
// once for many rows, and saves a division for each index.
pub fn fill_pairs(pairs: &mut [u16])
    ensures { Pairs pairs.new }
{
    for n in 0..100u16 {
        let i = n as usize;
        if pairs.len() <= i {
            return;
        }
        pairs[i] = 12336 + n / 10 + n % 10 * 256;
    }
}
