// The chains of a line by rising sn. They stand in the line in the order of the text; here they are put in order, once for all that goes
// by sn, as their places in that text. In nearly every class the text has them by falling sn, so that the last goes first; only CL has them
// otherwise.
ghost use Rattle.std.specs.Prelude.{◌≡◌, [], ◌∷◌, ◌≤◌, length, take};
ghost use Rattle.chain_lists.specs.rising.Four.{Added};
ghost use Rattle.chain_lists.specs.rising.Order.{sns_of, places_of, Falls, from_last, InOrder};

use drawn_chain::MAX_CHAINS;
use placement::Placed;

// Every sn of a chain in its place is smaller.
const FIRST_PAST: u8 = 5;

// Places of chains with their count; small numbers, since they are handed on with each line.
#[derive(Clone, Copy)]
pub struct Rising {
    pub count: usize,
    pub items: [u8; MAX_CHAINS],
}

// ---- where the sns fall

// Whether the sns of some chains fall, from 4 at most to 1 at least: from the last chain on they rise.
fn falling(chains: &[Placed]) -> bool
    ensures { Falls chains.now result }
{
    let mut last = FIRST_PAST;
    for p in chains {
        if p.sn == 0 {
            return false;
        }
        if last <= p.sn {
            return false;
        }
        last = p.sn;
    }
    true
}

// The places of n chains from the last on.
fn backwards(n: usize) -> Rising
    requires { n ≤ 4 }
    ensures { result ≡ from_last n }
{
    let items = match n {
        2 => [1, 0, 0, 0],
        3 => [2, 1, 0, 0],
        4 => [3, 2, 1, 0],
        _ => [0, 0, 0, 0],
    };
    Rising { count: n, items }
}

// ---- where they do not

// One place more, while there is room.
fn put(places: &mut [u8; MAX_CHAINS], at: usize, place: u8) -> usize
    ensures { Added 0 (place ∷ []) at places.old result places.new }
{
    if at < MAX_CHAINS {
        places[at] = place;
        return at + 1;
    }
    at
}

// The places of those of some chains that have an sn.
fn add_sn(places: &mut [u8; MAX_CHAINS], at: usize, chains: &[Placed], sn: u8) -> usize
    requires { length chains.now ≤ 4 }
    ensures { Added 0 (places_of sn 0 (sns_of chains.now)) at places.old result places.new }
{
    let mut q = at;
    for (i, p) in chains.iter().enumerate() {
        if p.sn == sn {
            q = put(places, q, i as u8);
        }
    }
    q
}

// The places of those with an sn from 1 to 4, one sn after the other.
fn in_turn(chains: &[Placed]) -> Rising
    requires { length chains.now ≤ 4 }
    ensures { InOrder chains.now result }
{
    let mut items = [0u8; MAX_CHAINS];
    let a = add_sn(&mut items, 0, chains, 1);
    let b = add_sn(&mut items, a, chains, 2);
    let c = add_sn(&mut items, b, chains, 3);
    let d = add_sn(&mut items, c, chains, 4);
    Rising { count: d, items }
}

// ---- all of them

// The places of all chains with an sn from 1 to 4.
pub fn by_sn(notes: &[Placed; MAX_CHAINS], count: usize) -> Rising
    ensures { InOrder (take count notes.now) result }
{
    let n = request_chains::in_places(count);
    let chains = &notes[..n];
    if falling(chains) {
        return backwards(n);
    }
    in_turn(chains)
}
