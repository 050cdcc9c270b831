// The numbers at the head of a row of the output, written: the answer and the token's place. Each writer is of the kind of `writer::emit`: it stores
// nothing past the end and counts on. What is written is said by specs/row_heads/Text.antt.
ghost use Rattle.writer.specs.emit.Text.{Written, decimal};
ghost use Rattle.sheet_frame.specs.row_heads.Text.{ended, head_text};

use writer::{put, put_many};

// The decimal digits of n. Most numbers of a row have one, which needs no calls one within the other.
pub fn put_decimal(out: &mut [u8], at: usize, n: u64) -> usize
    ensures { Written out.old at (decimal n) out.new result }
{
    if n <= 9 {
        return put(out, at, (48 + n) as u8);
    }
    put_many(out, at, n)
}

// A number and a tab.
pub fn put_number_cell(out: &mut [u8], at: usize, n: u64) -> usize
    ensures { Written out.old at (ended (decimal n) 9) out.new result }
{
    let p = put_decimal(out, at, n);
    put(out, p, b'\t')
}

// The answer and the token's place.
pub fn put_head(out: &mut [u8], at: usize, answer: u16, token: usize) -> usize
    ensures { Written out.old at (head_text answer token) out.new result }
{
    let p = put_number_cell(out, at, answer as u64);
    put_number_cell(out, p, token as u64)
}
