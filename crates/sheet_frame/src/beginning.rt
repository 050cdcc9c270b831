// The beginning of a batch: the header line of the output, the header of the sheet, and what is written where a line is unreadable. What is
// written is said by specs/beginning/Beginning.antt.
ghost use Rattle.std.specs.Prelude.{◌≡◌};
ghost use Rattle.writer.specs.emit.Text.{Written};
ghost use Rattle.sheet_frame.specs.beginning.Beginning.{titles, no_batch, UnreadableWritten, HeaderAnswered};

use super::row_heads::put_head;
use super::tally::Counts;
use sheet_input::Plan;
use writer::put_all;

// The header line of the output.
pub fn put_titles(out: &mut [u8], at: usize) -> usize
    ensures { Written out.old at titles out.new result }
{
    put_all(out, at, b"answer\tat\tline\tcarbons\n")
}

// The answer to a row that is unreadable.
pub const UNREADABLE_ROW: u16 = 42;

// An answer that was written: its number, and the place after its row.
#[derive(Clone, Copy)]
pub struct Answered {
    pub number: u16,
    pub next: usize,
}

// The row of an unreadable row.
pub fn put_unreadable(out: &mut [u8], at: usize) -> Answered
    ensures { UnreadableWritten out.old at out.new result }
{
    let p = put_head(out, at, UNREADABLE_ROW, 0);
    let next = put_all(out, p, b"\t\n");
    Answered {
        number: UNREADABLE_ROW,
        next,
    }
}

// Where a sheet is: before its header, among rows that are read by a plan, or after a header that ends the batch.
#[derive(Clone, Copy)]
pub enum Stage {
    Header,
    Rows(Plan),
    Over,
}

// A batch between two lines.
#[derive(Clone, Copy)]
pub struct Batch {
    pub stage: Stage,
    pub counts: Counts,
}

impl Batch {
    pub fn new() -> Batch
        ensures { result ≡ no_batch }
    {
        Batch {
            stage: Stage::Header,
            counts: Counts::new(),
        }
    }
}

// A batch after a line, and the place after what was written.
#[derive(Clone, Copy)]
pub struct Lined {
    pub batch: Batch,
    pub next: usize,
}

// The header of the sheet.
pub fn answer_header(batch: Batch, header: &[u8], out: &mut [u8], at: usize) -> Lined
    ensures { HeaderAnswered batch header.now out.old at out.new result }
{
    let counts = batch.counts;
    match sheet_input::plan_of(header) {
        Some(plan) => Lined {
            batch: Batch {
                stage: Stage::Rows(plan),
                counts,
            },
            next: at,
        },
        None => {
            let answered = put_unreadable(out, at);
            Lined {
                batch: Batch {
                    stage: Stage::Over,
                    counts: counts.count(answered.number),
                },
                next: answered.next,
            }
        }
    }
}
