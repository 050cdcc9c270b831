// Reads tokens from standard input, one to a line, and writes for each, on a line of its own, the record that the token reader makes of it:
// `prefix c n bonds groups rings`, or the number of its refusal. It is run on stored vectors and held to the stored answers.
#![tactic(auto)]

ghost use Rattle.std.specs.Prelude.{◌≤◌, length};

use chain_record::{
    Bridge, ChainPrefix, DbPos, GROUP_ROOM, Geometry, MAX_BONDS, MAX_RINGS, Mod, ParsedChain, Ring,
};
use std::io::Read;

// One byte past the longest token: a longer line answers as its first 256 bytes do.
const LINE: usize = 256;

const OUT: usize = 2048;

// Bytes that are read at once.
const BLOCK: usize = 4096;

fn prefix_letter(p: ChainPrefix) -> u8 {
    match p {
        ChainPrefix::Acyl => b'A',
        ChainPrefix::EtherAlkyl => b'O',
        ChainPrefix::EtherAlkenyl => b'P',
        ChainPrefix::SphingoidD => b'D',
        ChainPrefix::SphingoidT => b'T',
    }
}

// What stands before an element of a list: a blank before the first, else a comma.
fn separator(i: usize) -> u8 {
    if i == 0 { b' ' } else { b',' }
}

// A list, each of its elements put by `put`.
fn put_list<T: Copy, F: Fn(&mut [u8], usize, T) -> usize>(
    out: &mut [u8],
    at: usize,
    items: &[T],
    put: F,
) -> usize
    requires { F.IsAlwaysCallable put }
{
    if items.is_empty() {
        return writer::put_all(out, at, b" -");
    }
    let mut p = at;
    for (i, item) in items.iter().enumerate() {
        p = writer::put(out, p, separator(i));
        p = put(out, p, *item);
    }
    p
}

fn put_bond(out: &mut [u8], at: usize, bond: DbPos) -> usize {
    let p = writer::put_number(out, at, bond.pos);
    let geom = bond.geom;
    match geom {
        Geometry::Unstated => p,
        Geometry::Cis => writer::put(out, p, b'Z'),
        Geometry::Trans => writer::put(out, p, b'E'),
    }
}

fn put_branch(out: &mut [u8], at: usize, row: u8) -> usize {
    let r = group_table::row_at(row);
    let n = r.branch_len as usize;
    let branch = r.branch;
    writer::put_all(out, at, &branch[0..n])
}

fn put_group(out: &mut [u8], at: usize, group: Mod) -> usize {
    let p = writer::put_number(out, at, group.pos);
    let q = writer::put(out, p, b':');
    put_branch(out, q, group.row)
}

fn put_ring(out: &mut [u8], at: usize, ring: Ring) -> usize {
    let p = writer::put_number(out, at, ring.start as u32);
    let q = writer::put(out, p, b'-');
    let e = writer::put_number(out, q, ring.end as u32);
    let bridge = ring.bridge;
    match bridge {
        Bridge::Epoxide => writer::put(out, e, b'O'),
        Bridge::Carbocycle => e,
    }
}

// The prefix, c and n.
fn put_head(out: &mut [u8], at: usize, chain: ParsedChain) -> usize {
    let prefix = chain.prefix;
    let p = writer::put(out, at, prefix_letter(prefix));
    let q = writer::put(out, p, b' ');
    let r = writer::put_number(out, q, chain.carbon as u32);
    let s = writer::put(out, r, b' ');
    writer::put_number(out, s, chain.unlocated as u32)
}

fn put_record(out: &mut [u8], at: usize, chain: ParsedChain) -> usize {
    let p = put_head(out, at, chain);
    let bonds = chain.bond_count.min(MAX_BONDS);
    let groups = chain.group_count.min(GROUP_ROOM);
    let rings = chain.ring_count.min(MAX_RINGS);
    let q = put_list(out, p, &chain.bonds[..bonds], put_bond);
    let r = put_list(out, q, &chain.groups[..groups], put_group);
    put_list(out, r, &chain.rings[..rings], put_ring)
}

// What stands in an array where nothing was read.
const NO_BOND: DbPos = DbPos {
    pos: 0,
    geom: Geometry::Unstated,
};

const NO_GROUP: Mod = Mod { pos: 0, row: 0 };

const NO_RING: Ring = Ring {
    start: 0,
    end: 0,
    bridge: Bridge::Epoxide,
};

fn put_answer(out: &mut [u8], token: &[u8]) -> usize {
    let mut bonds = [NO_BOND; MAX_BONDS];
    let mut groups = [NO_GROUP; GROUP_ROOM];
    let mut rings = [NO_RING; MAX_RINGS];
    let read = token_reader::parse_token(token, &mut bonds, &mut groups, &mut rings);
    match read {
        Err(refusal) => {
            let p = writer::put_number(out, 0, u16::from(refusal) as u32);
            writer::put(out, p, b'\n')
        }
        Ok(said) => {
            let prefix = said.prefix;
            let counts = said.counts;
            let chain = ParsedChain {
                prefix,
                written: said.written,
                carbon: said.carbon,
                branched: said.branched,
                unlocated: said.unlocated,
                oxygens: counts.oxygens,
                bond_count: counts.bonds,
                bonds,
                group_count: counts.groups,
                groups,
                ring_count: counts.rings,
                rings,
            };
            let q = put_record(out, 0, chain);
            writer::put(out, q, b'\n')
        }
    }
}

// An answer that cannot be written is left out, and the next one tried.
fn write_answer(rt: HostRuntime, out: &mut [u8], token: &[u8]) {
    let n = put_answer(out, token);
    if n <= out.len() {
        let _ = rt.write_all(&out[0..n]);
    }
}

// A line as it comes in: a part of it may come with the next block, so its bytes stand in an array of their own (no heap).
#[derive(Clone, Copy)]
struct Line {
    len: usize,
    bytes: [u8; LINE],
}

fn empty_line() -> Line {
    let bytes = [0u8; LINE];
    Line { len: 0, bytes }
}

fn with_byte(mut line: Line, b: u8) -> Line {
    let at = line.len;
    if at < LINE {
        line.bytes[at] = b;
        line.len = at + 1;
    }
    line
}

fn answer_line(rt: HostRuntime, out: &mut [u8], line: Line) {
    let n = line.len;
    let bytes = line.bytes;
    if n <= LINE {
        write_answer(rt, out, &bytes[0..n]);
    }
}

// The lines that end in a block, and what is left of the last.
fn answer_block(rt: HostRuntime, out: &mut [u8], line: Line, block: &[u8]) -> Line {
    let mut l = line;
    for b in block {
        if *b == b'\n' {
            answer_line(rt, out, l);
            l = empty_line();
        } else {
            l = with_byte(l, *b);
        }
    }
    l
}

// Reads until the block is full, the input ends or a read fails, and answers how many bytes stand at its start.
fn read_full(rt: HostRuntime, block: &mut [u8]) -> usize
    ensures { result ≤ length block.new }
{
    let mut input = rt.stdin();
    let mut done = 0;
    while done < block.len() {
        let n = match input.read(&mut block[done..]) {
            Ok(n) => n,
            Err(_) => 0,
        };
        if n == 0 {
            break;
        }
        done += n;
    }
    done
}

// One block of input, and whether there was one.
#[derive(Clone, Copy)]
struct Turn {
    more: bool,
    line: Line,
}

fn read_block(rt: HostRuntime, out: &mut [u8], line: Line) -> Turn {
    let mut block = [0u8; BLOCK];
    let n = read_full(rt, &mut block);
    if n == 0 {
        return Turn { more: false, line };
    }
    let rest = answer_block(rt, out, line, &block[..n]);
    Turn {
        more: true,
        line: rest,
    }
}

// A proved loop ends, and nothing says that the input does: there are as many turns as no run uses up.
fn answer_all(rt: HostRuntime, out: &mut [u8]) {
    let mut line = empty_line();
    for _ in 0..u64::MAX {
        let turn = read_block(rt, out, line);
        let rest = turn.line;
        if !turn.more {
            if rest.len > 0 {
                answer_line(rt, out, rest);
            }
            return;
        }
        line = rest;
    }
}

fn main(rt: HostRuntime) {
    let mut out = [0u8; OUT];
    answer_all(rt, &mut out);
}
