// The call: a class, a swap flag, a tail and up to four tokens to one line and the index lists of its chains. Every request has an answer,
// and a request that is refused leaves both slices as they were. What is answered and written is said by specs/answer/Answer.antt of `answers`, and
// what an accepted line promises by specs/Call.antt.
#![tactic(auto)]

ghost use Rattle.std.specs.Prelude.{◌≤◌, min, length};
ghost use Rattle.judge.specs.Verdict.{verdict, tokens};
ghost use Rattle.forward.specs.Call.{Called};

pub use answers::Answer;
use drawn_chain::{Lists, MAX_CHAINS, empty_lists};
use request_chains::{Chains, NO_SHAPE};

// A request whose chains have their lists in a lent array, with room for as many as there are tokens, or for four.
fn draw_in<'a>(
    class: &[u8],
    swap: bool,
    tail: &[u8],
    count: usize,
    sn1: &'a [u8],
    sn2: &'a [u8],
    sn3: &'a [u8],
    sn4: &'a [u8],
    line: &mut [u8],
    index: &mut [u16],
    lists: &mut [Lists],
) -> Answer
    requires { min count 4 ≤ length lists.old }
    ensures { Called (verdict class.now tail.now count (tokens count sn1.now sn2.now sn3.now sn4.now)) swap tail.now line.old index.old line.new index.new result }
{
    let mut shapes = [NO_SHAPE; MAX_CHAINS];
    match judge::judge(class, tail, count, sn1, sn2, sn3, sn4, &mut shapes, lists) {
        Err(fault) => answers::refused_for(fault.refusal, fault.place),
        Ok(drawable) => {
            let chains = Chains {
                count,
                shapes: &shapes,
                lists,
            };
            drawing::draw_chains(
                line,
                index,
                drawable.class,
                swap,
                tail,
                drawable.tail_atoms,
                chains,
            )
        }
    }
}

// A request, with room for the lists of its chains that the caller lends: whoever draws many requests fills it once. What it holds before is
// of no account.
pub fn draw_lent<'a>(
    class: &[u8],
    swap: bool,
    tail: &[u8],
    count: usize,
    first: &'a [u8],
    second: &'a [u8],
    third: &'a [u8],
    fourth: &'a [u8],
    line: &mut [u8],
    index: &mut [u16],
    lists: &mut [Lists; MAX_CHAINS],
) -> Answer
    ensures { Called (verdict class.now tail.now count (tokens count first.now second.now third.now fourth.now)) swap tail.now line.old index.old line.new index.new result }
{
    draw_in(
        class, swap, tail, count, first, second, third, fourth, line, index, lists,
    )
}

// A request: refused with a number of document 01 and the place of the token, or drawn. Most have one token or two: then an array for one
// chain or two is filled, and not one for four.
pub fn draw<'a>(
    class: &[u8],
    swap: bool,
    tail: &[u8],
    count: usize,
    sn1: &'a [u8],
    sn2: &'a [u8],
    sn3: &'a [u8],
    sn4: &'a [u8],
    line: &mut [u8],
    index: &mut [u16],
) -> Answer
    ensures { Called (verdict class.now tail.now count (tokens count sn1.now sn2.now sn3.now sn4.now)) swap tail.now line.old index.old line.new index.new result }
{
    if count == 1 {
        let mut one = [empty_lists(); 1];
        return draw_in(
            class, swap, tail, count, sn1, sn2, sn3, sn4, line, index, &mut one,
        );
    }
    if count < 3 {
        let mut few = [empty_lists(); 2];
        return draw_in(
            class, swap, tail, count, sn1, sn2, sn3, sn4, line, index, &mut few,
        );
    }
    let mut lists = [empty_lists(); MAX_CHAINS];
    draw_lent(
        class, swap, tail, count, sn1, sn2, sn3, sn4, line, index, &mut lists,
    )
}
