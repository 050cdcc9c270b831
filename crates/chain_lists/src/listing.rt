// The listed chains of a line, by rising sn and not by the order of the text. They are made in one pass over the places of the chains, which
// `rising` has put in order. Of a chain only what is noted of it is looked at.
ghost use Rattle.std.specs.Prelude.{◌≡◌, [], ◌∷◌, ◌<◌, slice_index_or};
ghost use Rattle.placement.specs.chain_notes.Notes.{nowhere};
ghost use Rattle.chain_lists.specs.rising.Order.{places_in};
ghost use Rattle.chain_lists.specs.listing.Lists.{list_in, lists_at, ListsHeld};

use super::rising::Rising;
use drawn_chain::MAX_CHAINS;
use placement::Placed;

// A chain: its sn, and how many indices it has.
#[derive(Clone, Copy)]
pub struct Listed {
    pub sn: u16,
    pub count: u16,
}

// What stands past the last.
const NO_LIST: Listed = Listed { sn: 0, count: 0 };

// Listed chains with their count; what it does not count is zero.
#[derive(Clone, Copy)]
pub struct Lists {
    pub count: usize,
    pub items: [Listed; MAX_CHAINS],
}

// What is listed of the chain at a place.
fn list_at(notes: &[Placed; MAX_CHAINS], k: usize) -> Listed
    ensures { result ≡ list_in (slice_index_or notes.now k nowhere) }
{
    let p = placement::placed_at(notes, k);
    Listed {
        sn: p.sn as u16,
        count: p.count,
    }
}

// The list of the chain at a place.
fn one_list(notes: &[Placed; MAX_CHAINS], k: usize) -> Lists
    ensures { ListsHeld (lists_at notes.now (k ∷ [])) result }
{
    if k < MAX_CHAINS {
        let items = [list_at(notes, k), NO_LIST, NO_LIST, NO_LIST];
        return Lists { count: 1, items };
    }
    Lists {
        count: 0,
        items: [NO_LIST; MAX_CHAINS],
    }
}

// The lists of the chains at two places.
fn two_lists(notes: &[Placed; MAX_CHAINS], a: usize, b: usize) -> Lists
    requires a_bound { a < 4 }
    requires b_bound { b < 4 }
    ensures { ListsHeld (lists_at notes.now (a ∷ b ∷ [])) result }
{
    let first = list_at(notes, a);
    let second = list_at(notes, b);
    Lists {
        count: 2,
        items: [first, second, NO_LIST, NO_LIST],
    }
}

// The lists of the chains at some places, one after the other.
fn some_lists(notes: &[Placed; MAX_CHAINS], order: Rising) -> Lists
    ensures { ListsHeld (lists_at notes.now (places_in order)) result }
{
    let n = request_chains::in_places(order.count);
    let places = &order.items[..n];
    let mut lists = [NO_LIST; MAX_CHAINS];
    let mut count = 0;
    for place in places {
        let k = *place as usize;
        if k < MAX_CHAINS {
            lists[count] = list_at(notes, k);
            count += 1;
        }
    }
    Lists {
        count,
        items: lists,
    }
}

// The lists of the chains at some places. Most lines have one chain or two, for which there is no loop.
pub fn lists_by_sn(notes: &[Placed; MAX_CHAINS], order: Rising) -> Lists
    ensures { ListsHeld (lists_at notes.now (places_in order)) result }
{
    let n = request_chains::in_places(order.count);
    let items = order.items;
    if n == 2 {
        let a = items[0] as usize;
        let b = items[1] as usize;
        if a < MAX_CHAINS {
            if b < MAX_CHAINS {
                return two_lists(notes, a, b);
            }
            return some_lists(notes, order);
        }
        return some_lists(notes, order);
    }
    if n == 1 {
        return one_list(notes, items[0] as usize);
    }
    some_lists(notes, order)
}
