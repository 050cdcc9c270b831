// The decimal digits of a number, written. Each writer is of the kind of `store`: it stores nothing past the end and counts on. What is
// written is said by `decimal` of specs/store/Text.antt.
ghost use Rattle.std.specs.Prelude.{◌≤◌, ◌<◌};
ghost use Rattle.writer.specs.store.Text.{Written, decimal};

use super::store::put;

// The decimal digits of n, most significant first, with no leading zero, one by one.
pub fn put_many(out: &mut [u8], at: usize, n: u64) -> usize
    ensures { Written out.old at (decimal n) out.new result }
{
    if n < 10 {
        put(out, at, (48 + n) as u8)
    } else {
        let p = put_many(out, at, n / 10);
        put(out, p, (48 + n % 10) as u8)
    }
}

// A number of two digits.
fn put_two(out: &mut [u8], at: usize, n: u32) -> usize
    requires le_n { 10 ≤ n }
    requires n_bound { n < 100 }
    ensures { Written out.old at (decimal n) out.new result }
{
    let p = put(out, at, (48 + n / 10) as u8);
    put(out, p, (48 + n % 10) as u8)
}

// A number of three digits.
fn put_three(out: &mut [u8], at: usize, n: u32) -> usize
    requires le_n { 100 ≤ n }
    requires n_bound { n < 1000 }
    ensures { Written out.old at (decimal n) out.new result }
{
    let p = put_two(out, at, n / 10);
    put(out, p, (48 + n % 10) as u8)
}

// The decimal digits of n. Most numbers of a line have three at most, which need no calls one within the other.
pub fn put_number(out: &mut [u8], at: usize, n: u32) -> usize
    ensures { Written out.old at (decimal n) out.new result }
{
    if n < 10 {
        return put(out, at, (48 + n) as u8);
    }
    if n < 100 {
        return put_two(out, at, n);
    }
    if n < 1000 {
        return put_three(out, at, n);
    }
    put_many(out, at, n as u64)
}
