// A row of the output, written: its answer and the token's place as `sheet_frame::row_heads` has them, the line, and the chains, whose indices are written as
// `carbon_lists` has it; or what follows the line alone. Each writer is of the kind of `writer::emit`: it stores nothing past the end and counts on.
// What is written is said by specs/row_heads/Text.antt of `sheet_frame`, and which chains are by specs/rows/Chains.antt.
ghost use Rattle.std.specs.Prelude.{take};
ghost use Rattle.writer.specs.emit.Text.{Written};
ghost use Rattle.line_parts.specs.shown.Chained.{listed};
ghost use Rattle.sheet_frame.specs.row_heads.Text.{ended, chain_text, chains_text, row_text};
ghost use Rattle.sheet_output.specs.digit_pairs.Pairs.{Pairs};
ghost use Rattle.sheet_output.specs.rows.Chains.{carbons_of, rest_text};

use super::carbon_lists::put_indices;
use chain_lists::Lists;
use line_parts::put_parting;
use sheet_frame::{put_decimal, put_head};
use writer::put;

// A chain: its sn and its indices.
fn put_chain(out: &mut [u8], at: usize, sn: u16, indices: &[u16], pairs: &[u16]) -> usize
    requires { Pairs pairs.now }
    ensures { Written out.old at (chain_text (record { sn = sn; indices = indices.now })) out.new result }
{
    let p = put_decimal(out, at, sn as u64);
    let q = put(out, p, b':');
    put_indices(out, q, indices, pairs)
}

// A chain of a list.
fn put_next_chain(
    out: &mut [u8],
    at: usize,
    more: bool,
    sn: u16,
    indices: &[u16],
    pairs: &[u16],
) -> usize
    requires { Pairs pairs.now }
    ensures { Written out.old at (listed more 59 (chain_text (record { sn = sn; indices = indices.now }))) out.new result }
{
    let p = put_parting(out, at, more, b';');
    put_chain(out, p, sn, indices, pairs)
}

// The listed chains, whose indices stand end to end.
fn put_chains(out: &mut [u8], at: usize, lists: Lists, index: &[u16], pairs: &[u16]) -> usize
    requires { Pairs pairs.now }
    ensures { Written out.old at (chains_text (carbons_of (take lists.count lists.items) index.now)) out.new result }
{
    let n = request_chains::in_places(lists.count);
    let items = lists.items;
    let mut t = index;
    let mut p = at;
    for i in 0..n {
        let list = items[i];
        let k = (list.count as usize).min(t.len());
        p = put_next_chain(out, p, 0 < i, list.sn, &t[0..k], pairs);
        t = &t[k..];
    }
    p
}

// A text and a tab.
fn put_text_cell(out: &mut [u8], at: usize, text: &[u8]) -> usize
    ensures { Written out.old at (ended text.now 9) out.new result }
{
    let p = writer::put_all(out, at, text);
    put(out, p, b'\t')
}

// A row of the output, with a table of digits, which may be empty.
pub fn put_row_by(
    out: &mut [u8],
    at: usize,
    answer: u16,
    token: usize,
    line: &[u8],
    lists: Lists,
    index: &[u16],
    pairs: &[u16],
) -> usize
    requires { Pairs pairs.now }
    ensures { Written out.old at (row_text answer token line.now (carbons_of (take lists.count lists.items) index.now)) out.new result }
{
    let p = put_head(out, at, answer, token);
    let q = put_text_cell(out, p, line);
    let r = put_chains(out, q, lists, index, pairs);
    put(out, r, b'\n')
}

// What follows the line of a row that stands in its place already: a tab, the chains, and LF.
pub fn put_rest(out: &mut [u8], at: usize, lists: Lists, index: &[u16], pairs: &[u16]) -> usize
    requires { Pairs pairs.now }
    ensures { Written out.old at (rest_text (carbons_of (take lists.count lists.items) index.now)) out.new result }
{
    let p = put(out, at, b'\t');
    let q = put_chains(out, p, lists, index, pairs);
    put(out, q, b'\n')
}
