// A sheet of requests answered row by row: each row is taken apart, drawn, and written as a row of the output; the answers are counted. What
// is written of a row is said by specs/Reply.antt, and of a sheet by specs/Batch.antt. Every input has an output; what a row is refused for,
// 42 among it, is written in its row.
#![tactic(auto)]

ghost use Rattle.std.specs.Prelude.{◌+◌, ◌≤◌, length, take};
ghost use Rattle.writer.specs.emit.Text.{Written};
ghost use Rattle.judge.specs.Verdict.{tokens, verdict};
ghost use Rattle.sheet_input.specs.cutting.Cut.{Cut};
ghost use Rattle.sheet_input.specs.sheet.Sheet.{request_of};
ghost use Rattle.sheet_frame.specs.beginning.Beginning.{refused, reply_text};
ghost use Rattle.sheet_output.specs.rows.Chains.{carbons_of};
ghost use Rattle.batch.specs.Reply.{answer_text, Around, Drawn, RowAnswered};
ghost use Rattle.sheet_output.specs.digit_pairs.Pairs.{Pairs};
ghost use Rattle.batch.specs.Batch.{held_after, before, Holds, LinesAnswered, among, passed_in, held_last, Finished};

use chain_lists::Lists;
use drawn_chain::{Lists as ChainLists, MAX_CHAINS, empty_lists};
use forward::Answer;
pub use sheet_frame::{Answered, Batch, Lined, Stage, put_titles};
use sheet_frame::{Counts, answer_header, count_in, put_count_lines, put_head, put_unreadable};
pub use sheet_input::keep;
use sheet_input::{Column, Plan, cell_under, read_cut};
use sheet_output::{PAIRS, fill_pairs, put_rest, put_row_by};

// The length of the line slice.
pub const LINE: usize = 65536;

// What stands before the line in the row of an accepted request: `0`, a tab, `0` and a tab.
const HEAD: usize = 4;

// A row of the output, from an answer and the slices with its line and its indices.
fn put_answer(
    out: &mut [u8],
    at: usize,
    answer: Answer,
    line: &[u8],
    index: &[u16],
    pairs: &[u16],
) -> usize
    requires { Pairs pairs.now }
    ensures { Written out.old at (answer_text answer line.now index.now) out.new result }
{
    let n = answer.length.min(line.len());
    let lists = answer.lists;
    put_row_by(
        out,
        at,
        answer.number,
        answer.token,
        &line[0..n],
        lists,
        index,
        pairs,
    )
}

// The row of a refused request.
fn put_refused(out: &mut [u8], at: usize, number: u16, token: usize) -> usize
    ensures { Written out.old at (reply_text (refused number token)) out.new result }
{
    let p = put_head(out, at, number, token);
    writer::put_all(out, p, b"\t\n")
}

// The row of an accepted request whose line, of so many bytes, stands in its place already: its head, and what follows the line.
fn put_around(
    out: &mut [u8],
    at: usize,
    size: usize,
    lists: Lists,
    index: &[u16],
    pairs: &[u16],
) -> usize
    requires { (at + 4 + size ≤ length out.old) × Pairs pairs.now }
    ensures { Around out.old at size (carbons_of (take lists.count lists.items) index.now) out.new result }
{
    writer::put_all(out, at, b"0\t0\t");
    put_rest(out, at + HEAD + size, lists, index, pairs)
}

// A request, where the output has no room for a line slice: its line is drawn apart and copied. It is never laid into its caller, which runs
// for every row and would then hold this long array each time.
#[inline(never)]
fn answer_apart<'a>(
    class: &[u8],
    swap: bool,
    tail: &[u8],
    count: usize,
    sn1: &'a [u8],
    sn2: &'a [u8],
    sn3: &'a [u8],
    sn4: &'a [u8],
    index: &mut [u16],
    out: &mut [u8],
    at: usize,
    pairs: &[u16],
    lists: &mut [ChainLists; MAX_CHAINS],
) -> Answered
    requires { Pairs pairs.now }
    ensures { Drawn (verdict class.now tail.now count (tokens count sn1.now sn2.now sn3.now sn4.now)) swap tail.now index.old out.old at index.new out.new result }
{
    let mut line = [0u8; LINE];
    let answer = forward::draw_lent(
        class, swap, tail, count, sn1, sn2, sn3, sn4, &mut line, index, lists,
    );
    let next = put_answer(out, at, answer, &line, index, pairs);
    Answered {
        number: answer.number,
        next,
    }
}

// A row that is cut into so many cells: its answer, written at a place of the output, with a table of digits, which may be empty. Its line is
// drawn where it is to stand: four bytes after the place of the row, for the head of an accepted request is `0`, a tab, `0` and a tab. The
// part that is lent for it has the length of the line slice, so that a line too long is refused here as anywhere; a refused request leaves
// that part as it was, and its row is written over it.
fn answer_cut(
    plan: Plan,
    row: &[u8],
    cells: usize,
    starts: &[usize],
    index: &mut [u16],
    out: &mut [u8],
    at: usize,
    pairs: &[u16],
    lists: &mut [ChainLists; MAX_CHAINS],
) -> Answered
    requires { Cut row.now starts.now cells × Pairs pairs.now }
    ensures { RowAnswered (request_of plan row.now) index.old out.old at index.new out.new result }
{
    let sn1 = cell_under(plan, row, cells, starts, Column::Sn1);
    let sn2 = cell_under(plan, row, cells, starts, Column::Sn2);
    let sn3 = cell_under(plan, row, cells, starts, Column::Sn3);
    let sn4 = cell_under(plan, row, cells, starts, Column::Sn4);
    let Some(asked) = read_cut(plan, row, cells, starts, sn1, sn2, sn3, sn4) else {
        return put_unreadable(out, at);
    };
    let class = cell_under(plan, row, cells, starts, Column::Class);
    let tail = cell_under(plan, row, cells, starts, Column::Tail);
    if out.len().saturating_sub(at) < HEAD + LINE {
        return answer_apart(
            class,
            asked.swap,
            tail,
            asked.count,
            sn1,
            sn2,
            sn3,
            sn4,
            index,
            out,
            at,
            pairs,
            lists,
        );
    }
    let from = at + HEAD;
    let to = from + LINE;
    let answer = forward::draw_lent(
        class,
        asked.swap,
        tail,
        asked.count,
        sn1,
        sn2,
        sn3,
        sn4,
        &mut out[from..to],
        index,
        lists,
    );
    let number = answer.number;
    if number == 0 {
        let listed = answer.lists;
        let next = put_around(out, at, answer.length, listed, index, pairs);
        return Answered { number, next };
    }
    let next = put_refused(out, at, number, answer.token);
    Answered { number, next }
}

// A row of the sheet: its answer, written at a place of the output.
pub fn answer_row(plan: Plan, row: &[u8], index: &mut [u16], out: &mut [u8], at: usize) -> Answered
    ensures { RowAnswered (request_of plan row.now) index.old out.old at index.new out.new result }
{
    let mut starts = [0usize; sheet_input::STARTS];
    let cells = sheet_input::cut(row, &mut starts);
    let none = [0u16; 1];
    let mut lists = [empty_lists(); MAX_CHAINS];
    answer_cut(
        plan,
        row,
        cells,
        &starts,
        index,
        out,
        at,
        &none[0..0],
        &mut lists,
    )
}

// A batch after some lines, how much of their text they are, the place after what was written, and whether no LF is left in the text.
#[derive(Clone, Copy)]
pub struct Lines {
    pub batch: Batch,
    pub used: usize,
    pub next: usize,
    pub whole: bool,
}

// A row, answered and counted.
fn count_row(
    plan: Plan,
    counts: Counts,
    row: &[u8],
    index: &mut [u16],
    out: &mut [u8],
    at: usize,
) -> Lined
    ensures { Holds out.old at (held_after (before (among plan counts.times) index.old) row.now) result.batch index.new out.new result.next }
{
    let answered = answer_row(plan, row, index, out, at);
    let counted = counts.count(answered.number);
    let next = Batch {
        stage: Stage::Rows(plan),
        counts: counted,
    };
    Lined {
        batch: next,
        next: answered.next,
    }
}

// A line of the sheet, without its LF.
pub fn answer_line(batch: Batch, text: &[u8], index: &mut [u16], out: &mut [u8], at: usize) -> Lined
    ensures { Holds out.old at (held_after (before batch index.old) text.now) result.batch index.new out.new result.next }
{
    match batch.stage {
        Stage::Header => answer_header(batch, text, out, at),
        Stage::Rows(plan) => count_row(plan, batch.counts, text, index, out, at),
        Stage::Over => Lined { batch, next: at },
    }
}

// How much of a text some rows are, the place after what was written, and whether no LF is left in the text.
#[derive(Clone, Copy)]
struct Passed {
    used: usize,
    next: usize,
    whole: bool,
}

// The rows of a text that end in LF, one by one, until what is written passes a limit. A row is cut while its LF is looked for, and the answers
// are counted where the counts stand: no batch is handed from row to row.
fn answer_rows(
    plan: Plan,
    times: &mut [u64],
    text: &[u8],
    index: &mut [u16],
    out: &mut [u8],
    at: usize,
    limit: usize,
    pairs: &[u16],
) -> Passed
    requires { Pairs pairs.now }
    ensures { LinesAnswered (among plan times.old) text.now index.old out.old at limit index.new out.new (passed_in plan times.new result) }
{
    let mut lists = [empty_lists(); MAX_CHAINS];
    let mut t = text;
    let mut p = at;
    while p <= limit {
        let mut starts = [0usize; sheet_input::STARTS];
        let found = sheet_input::cut_line(t, &mut starts);
        let n = found.end;
        if n == t.len() {
            return Passed {
                used: text.len() - t.len(),
                next: p,
                whole: true,
            };
        }
        let rest = &t[n + 1..];
        let answered = answer_cut(
            plan,
            &t[0..n],
            found.cells,
            &starts,
            index,
            out,
            p,
            pairs,
            &mut lists,
        );
        count_in(times, answered.number);
        p = answered.next;
        t = rest;
    }
    Passed {
        used: text.len() - t.len(),
        next: p,
        whole: false,
    }
}

// The lines of a text that end in LF, one by one, until what is written passes a limit, in any stage.
fn answer_each(
    batch: Batch,
    text: &[u8],
    index: &mut [u16],
    out: &mut [u8],
    at: usize,
    limit: usize,
) -> Lines
    ensures { LinesAnswered batch text.now index.old out.old at limit index.new out.new result }
{
    let mut b = batch;
    let mut t = text;
    let mut p = at;
    while p <= limit {
        let n = scanner::find(t, b'\n');
        if n == t.len() {
            return Lines {
                batch: b,
                used: text.len() - t.len(),
                next: p,
                whole: true,
            };
        }
        let rest = &t[n + 1..];
        let lined = answer_line(b, &t[0..n], index, out, p);
        let after = lined.batch;
        b = after;
        p = lined.next;
        t = rest;
    }
    Lines {
        batch: b,
        used: text.len() - t.len(),
        next: p,
        whole: false,
    }
}

// The lines of a text that end in LF, one by one, until what is written passes a limit. Rows are counted where the counts stand.
fn answer_more(
    batch: Batch,
    text: &[u8],
    index: &mut [u16],
    out: &mut [u8],
    at: usize,
    limit: usize,
) -> Lines
    ensures { LinesAnswered batch text.now index.old out.old at limit index.new out.new result }
{
    let Stage::Rows(plan) = batch.stage else {
        return answer_each(batch, text, index, out, at, limit);
    };
    let mut times = batch.counts.times;
    let mut pairs = [0u16; PAIRS];
    fill_pairs(&mut pairs);
    let passed = answer_rows(plan, &mut times, text, index, out, at, limit, &pairs);
    let after = Batch {
        stage: Stage::Rows(plan),
        counts: Counts { times },
    };
    Lines {
        batch: after,
        used: passed.used,
        next: passed.next,
        whole: passed.whole,
    }
}

// The same where the first line is the header: it alone is answered by itself, for rows come after it.
fn answer_first(
    batch: Batch,
    text: &[u8],
    index: &mut [u16],
    out: &mut [u8],
    at: usize,
    limit: usize,
) -> Lines
    ensures { LinesAnswered batch text.now index.old out.old at limit index.new out.new result }
{
    if limit < at {
        return Lines {
            batch,
            used: 0,
            next: at,
            whole: false,
        };
    }
    let n = scanner::find(text, b'\n');
    if n == text.len() {
        return Lines {
            batch,
            used: 0,
            next: at,
            whole: true,
        };
    }
    let rest = &text[n + 1..];
    let lined = answer_line(batch, &text[0..n], index, out, at);
    let after = lined.batch;
    let more = answer_more(after, rest, index, out, lined.next, limit);
    let end = more.batch;
    Lines {
        batch: end,
        used: n + 1 + more.used,
        next: more.next,
        whole: more.whole,
    }
}

// The lines of a text that end in LF, one by one, until what is written passes a limit.
pub fn answer_lines(
    batch: Batch,
    text: &[u8],
    index: &mut [u16],
    out: &mut [u8],
    at: usize,
    limit: usize,
) -> Lines
    ensures { LinesAnswered batch text.now index.old out.old at limit index.new out.new result }
{
    if matches!(batch.stage, Stage::Header) {
        return answer_first(batch, text, index, out, at, limit);
    }
    answer_more(batch, text, index, out, at, limit)
}

// What follows the last LF of the sheet: a line where it has bytes, or where it is the header.
fn answer_last(batch: Batch, text: &[u8], index: &mut [u16], out: &mut [u8], at: usize) -> Lined
    ensures { Holds out.old at (held_last (before batch index.old) text.now) result.batch index.new out.new result.next }
{
    if text.len() != 0 {
        return answer_line(batch, text, index, out, at);
    }
    match batch.stage {
        Stage::Header => answer_line(batch, text, index, out, at),
        _ => Lined { batch, next: at },
    }
}

// The end of the sheet, with what follows its last LF: the last answer, if there is one, and the counts. Answers the place after them.
pub fn finish(batch: Batch, text: &[u8], index: &mut [u16], out: &mut [u8], at: usize) -> usize
    ensures { Finished batch text.now index.old out.old at index.new out.new result }
{
    let last = answer_last(batch, text, index, out, at);
    let end = last.batch;
    let counts = end.counts;
    put_count_lines(out, last.next, counts)
}
