// The batch program: answers the sheet on standard input and writes the answers to standard output, both in large blocks. What is answered
// and written is the library's, `batch`; here are the blocks alone. Its memory does not grow: of a line that is longer than a row may be,
// only the start is kept. Where reading or writing fails it says so on standard error and ends; what it has written by then are whole rows.
#![tactic(auto)]

ghost use Rattle.std.specs.Prelude.{◌≤◌, length, IfOk};

use batch::Batch;
use std::io::Read;

// Bytes that are read at once, less what is left of the block before.
const BLOCK: usize = 65536;

// The index slice.
const INDICES: usize = 4096;

// Room for the output, and how full it may be before one more row. A row has the bytes of the line slice, five to a number of the index
// slice and 20 more at most, and the counts have 26 to each of 43 answers (proofs/Room.antt of `batch` and of `sheet_frame::tally`): together less than
// 98,304. So there is room for the line slice in the output too, and each line is drawn where it stands there.
const OUT: usize = 262144;

const LIMIT: usize = 163840;

// What ends the program early.
#[derive(Clone, Copy)]
enum Failure {
    NoRoom,
    Write,
    Read,
    Turns,
}

impl Failure {
    // What is said of it; nothing where the turns of a loop are used up, which are more than any run takes.
    fn message(self) -> Option<&'static str> {
        match self {
            Failure::NoRoom => Some("no room for an answer"),
            Failure::Write => Some("cannot write to standard output"),
            Failure::Read => Some("cannot read standard input"),
            Failure::Turns => None,
        }
    }
}

// Says on standard error what failed. Where that cannot be written either, nothing is left to say it on.
fn say(rt: HostRuntime, failure: Failure) {
    if let Some(message) = failure.message() {
        let _ = eprintln!(rt; "perlwynos: {message}");
    }
}

// Writes the output.
fn flush(rt: HostRuntime, out: &[u8], at: usize) -> Result<(), Failure> {
    if out.len() < at {
        return Err(Failure::NoRoom);
    }
    match rt.write_all(&out[0..at]) {
        Ok(_) => Ok(()),
        Err(_) => Err(Failure::Write),
    }
}

// The batch after some lines: how much of their text they are, and the place after what is written and not yet put out.
#[derive(Clone, Copy)]
struct Step {
    batch: Batch,
    used: usize,
    at: usize,
}

// All lines of a text that end in LF. The output is put out whenever it is full enough.
fn answer_text(
    rt: HostRuntime,
    batch: Batch,
    text: &[u8],
    index: &mut [u16],
    out: &mut [u8],
    at: usize,
) -> Result<Step, Failure> {
    let mut b = batch;
    let mut rest = text;
    let mut p = at;
    for _ in 0..u64::MAX {
        let lines = batch::answer_lines(b, rest, index, out, p, LIMIT);
        let used = lines.used;
        b = lines.batch;
        p = lines.next;
        rest = &rest[used..];
        if lines.whole {
            return Ok(Step {
                batch: b,
                used: text.len() - rest.len(),
                at: p,
            });
        }
        flush(rt, out, p)?;
        p = 0;
    }
    Err(Failure::Turns)
}

// How many bytes are in a block after one more read; no more at the end of the input.
fn read_more(rt: HostRuntime, block: &mut [u8], fill: usize) -> Result<usize, Failure>
    ensures { IfOk result (λ total. total ≤ length block.old) }
{
    if block.len() <= fill {
        return Err(Failure::Read);
    }
    let mut input = rt.stdin();
    match input.read(&mut block[fill..]) {
        Ok(n) => Ok(fill + n),
        Err(_) => Err(Failure::Read),
    }
}

// The program between two reads: the batch, how many bytes of the block are left of its last line, and the place after what is written and
// not yet put out.
#[derive(Clone, Copy)]
struct State {
    batch: Batch,
    fill: usize,
    at: usize,
}

// The lines of a block of which so many bytes are read.
fn answer_block(
    rt: HostRuntime,
    state: State,
    block: &mut [u8],
    total: usize,
    index: &mut [u16],
    out: &mut [u8],
) -> Result<State, Failure>
    requires { total ≤ length block.old }
{
    let step = answer_text(rt, state.batch, &block[0..total], index, out, state.at)?;
    let fill = batch::keep(block, step.used, total);
    Ok(State {
        batch: step.batch,
        fill,
        at: step.at,
    })
}

// The input could not be read: the rows that were answered are still put out.
fn stop_reading(rt: HostRuntime, out: &[u8], at: usize) -> Failure {
    if let Err(failure) = flush(rt, out, at) {
        say(rt, failure);
    }
    Failure::Read
}

// One read and what it brings; nothing goes on where the input has ended.
fn turn(
    rt: HostRuntime,
    state: State,
    block: &mut [u8],
    index: &mut [u16],
    out: &mut [u8],
) -> Result<Option<State>, Failure> {
    let Ok(total) = read_more(rt, block, state.fill) else {
        return Err(stop_reading(rt, out, state.at));
    };
    if total == state.fill {
        let end = batch::finish(state.batch, &block[0..total], index, out, state.at);
        flush(rt, out, end)?;
        return Ok(None);
    }
    let after = answer_block(rt, state, block, total, index, out)?;
    Ok(Some(after))
}

// A proved loop ends, and nothing says that the input does: the turns are more than any run takes.
fn answer_all(
    rt: HostRuntime,
    state: State,
    block: &mut [u8],
    index: &mut [u16],
    out: &mut [u8],
) -> Result<(), Failure> {
    let mut s = state;
    for _ in 0..u64::MAX {
        let Some(after) = turn(rt, s, block, index, out)? else {
            return Ok(());
        };
        s = after;
    }
    Err(Failure::Turns)
}

fn main(rt: HostRuntime) {
    let mut block = [0u8; BLOCK];
    let mut index = [0u16; INDICES];
    let mut out = [0u8; OUT];
    let at = batch::put_titles(&mut out, 0);
    let start = State {
        batch: Batch::new(),
        fill: 0,
        at,
    };
    if let Err(failure) = answer_all(rt, start, &mut block, &mut index, &mut out) {
        say(rt, failure);
    }
}
