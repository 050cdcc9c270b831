// What is left of a block of the input: the start of a line whose LF has not come. What is moved is said by specs/remnant/Kept.antt.
ghost use Rattle.std.specs.Prelude.{◌≡◌};
ghost use Rattle.sheet_input.specs.remnant.Kept.{Moved};

// The first bytes of a line that are kept until its LF comes: one more than the longest row has, so that a longer line stays too long.
pub const KEPT: usize = 2049;

// Moves the part of a block from a place up to another to its start, as much of it as is kept. Answers how much that is.
pub fn keep(block: &mut [u8], from: usize, to: usize) -> usize
    ensures { Moved block.old from to block.new result }
{
    let end = to.min(block.len());
    if end <= from {
        return 0;
    }
    let n = (end - from).min(KEPT);
    block.copy_within(from..from + n, 0);
    n
}
