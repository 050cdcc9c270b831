// Writing into a lent slice at a place that never runs past its end: what falls past the end is dropped and the place counts on, so the
// same functions measure on an empty part and write on the real one. Lists of elements are written here, a text as one of bytes. Each is
// defined for every slice, place and list; the place stays at the largest number that it can hold. What a slice holds afterwards is said by
// `Written` of specs/store/Text.antt.
ghost use Rattle.std.specs.Prelude.{◌+◌, ◌≤◌, length, replicate};
ghost use Rattle.writer.specs.store.Text.{Written};

use super::store::put;

// Elements one by one, where some may fall past the end.
fn put_each<T: Copy>(out: &mut [T], at: usize, xs: &[T]) -> usize
    ensures { Written out.old at xs.now out.new result }
{
    let mut p = at;
    for x in xs {
        p = put(out, p, *x);
    }
    p
}

// Elements for which there is room. A loop, and not the library's copy of a slice, which asks for the C library's `memmove`: an archive for
// C is to need no more than `memcpy` and `memset`.
fn copy_whole<T: Copy>(out: &mut [T], at: usize, xs: &[T]) -> usize
    requires { at + length xs.now ≤ length out.old }
    ensures { Written out.old at xs.now out.new result }
{
    for (i, x) in xs.iter().enumerate() {
        out[at + i] = *x;
    }
    at + xs.len()
}

// Elements one after the other: one look at the end where there is room for all of them.
pub fn put_all<T: Copy>(out: &mut [T], at: usize, xs: &[T]) -> usize
    ensures { Written out.old at xs.now out.new result }
{
    if out.len() < at {
        return put_each(out, at, xs);
    }
    if out.len() - at < xs.len() {
        return put_each(out, at, xs);
    }
    copy_whole(out, at, xs)
}

// One element so many times, one by one, where some may fall past the end.
fn repeat_each<T: Copy>(out: &mut [T], at: usize, x: T, n: usize) -> usize
    ensures { Written out.old at (replicate n x) out.new result }
{
    let mut p = at;
    for _ in 0..n {
        p = put(out, p, x);
    }
    p
}

// One element so many times, where there is room for all of them.
fn fill_same<T: Copy>(out: &mut [T], at: usize, x: T, n: usize) -> usize
    requires { at + n ≤ length out.old }
    ensures { Written out.old at (replicate n x) out.new result }
{
    for i in 0..n {
        out[at + i] = x;
    }
    at + n
}

// One element so many times: one look at the end where there is room for all of them.
pub fn put_same<T: Copy>(out: &mut [T], at: usize, x: T, n: usize) -> usize
    ensures { Written out.old at (replicate n x) out.new result }
{
    if out.len() < at {
        return repeat_each(out, at, x, n);
    }
    if out.len() - at < n {
        return repeat_each(out, at, x, n);
    }
    fill_same(out, at, x, n)
}

// Atom numbers: a name of its own, since four wrong programs in must-fail/ are of it.
pub fn copy_indices(out: &mut [u16], at: usize, numbers: &[u16]) -> usize
    ensures { Written out.old at numbers.now out.new result }
{
    put_all(out, at, numbers)
}
