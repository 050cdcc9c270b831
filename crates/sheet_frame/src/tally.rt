// How often each answer was met, and the lines that say it. Each writer is of the kind of `writer::emit`. What is counted and written is said by
// specs/tally/Counts.antt.
ghost use Rattle.std.specs.Prelude.{◌≡◌};
ghost use Rattle.writer.specs.emit.Text.{Written};
ghost use Rattle.sheet_frame.specs.tally.Counts.{counting, no_times, with_answer, count_line, count_lines};

use super::row_heads::{put_decimal, put_number_cell};
use writer::{put, put_all};

// The answers, which are numbers from 0 to 42.
pub const ANSWERS: usize = 43;

// How often each answer was met.
#[derive(Clone, Copy)]
pub struct Counts {
    pub times: [u64; ANSWERS],
}

impl Counts {
    pub fn new() -> Counts
        ensures { result ≡ counting no_times }
    {
        let times = [0u64; ANSWERS];
        Counts { times }
    }

    // One more answer.
    pub fn count(mut self, answer: u16) -> Counts
        ensures { result ≡ counting (with_answer self.times answer) }
    {
        count_in(&mut self.times, answer);
        self
    }
}

// One more answer, counted where the counts stand, up to the largest number.
pub fn count_in(times: &mut [u64], answer: u16)
    ensures { times.new ≡ with_answer times.old answer }
{
    let at = answer as usize;
    if at < times.len() {
        times[at] = times[at].saturating_add(1);
    }
}

// The line of an answer, where it was met.
fn put_count_line(out: &mut [u8], at: usize, answer: usize, times: u64) -> usize
    ensures { Written out.old at (count_line answer times) out.new result }
{
    if times == 0 {
        return at;
    }
    let p = put_all(out, at, b"#\t");
    let q = put_number_cell(out, p, answer as u64);
    let r = put_decimal(out, q, times);
    put(out, r, b'\n')
}

// The lines of all answers met, by rising answer.
pub fn put_count_lines(out: &mut [u8], at: usize, counts: Counts) -> usize
    ensures { Written out.old at (count_lines counts.times) out.new result }
{
    let times = counts.times;
    let mut p = at;
    for (answer, n) in times.iter().enumerate() {
        p = put_count_line(out, p, answer, *n);
    }
    p
}
