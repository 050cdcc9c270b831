// The call for programs in C and for whatever calls as C does: `perlwynos_draw` of include/perlwynos.h. A slice crosses as its pointer and its
// length, the swap flag as a byte, and the answer as 21 numbers. What is reported is said by specs/Report.antt; it is what `forward::draw`
// answers and nothing else.
#![tactic(auto)]

ghost use Rattle.std.specs.Prelude.{◌≡◌, not, ◌<◌, min, eqb, get_or};
ghost use Rattle.judge.specs.Verdict.{verdict, tokens};
ghost use Rattle.chain_lists.specs.listing.Lists.{no_list};
ghost use Rattle.chain_lists.specs.listing.Sites.{no_site};
ghost use Rattle.capi.specs.Report.{report_of, Reported};

use chain_lists::{Listed, Lists, Sites};
use forward::Answer;
use line_parts::Site;

// The numbers of a report.
pub const REPORT_ROOM: usize = 21;

// A count as a number of the report: it stays at the largest.
fn capped(n: usize) -> u32
    ensures { result ≡ min n 4294967295 }
{
    if n < 4294967295 {
        return n as u32;
    }
    4294967295
}

fn list_at(lists: Lists, i: usize) -> Listed
    requires { i < 4 }
    ensures { result ≡ get_or lists.items i no_list }
{
    let items = lists.items;
    items[i]
}

fn site_at(sites: Sites, i: usize) -> Site
    requires { i < 4 }
    ensures { result ≡ get_or sites.items i no_site }
{
    let items = sites.items;
    items[i]
}

// An answer as 21 numbers.
fn report_of(answer: Answer) -> [u32; REPORT_ROOM]
    ensures { result ≡ report_of answer }
{
    let lists = answer.lists;
    let sites = answer.sites;
    let number = answer.number as u32;
    let token = capped(answer.token);
    let length = capped(answer.length);
    let listed = capped(lists.count);
    let a = list_at(lists, 0);
    let b = list_at(lists, 1);
    let c = list_at(lists, 2);
    let d = list_at(lists, 3);
    let sited = capped(sites.count);
    let p = site_at(sites, 0);
    let q = site_at(sites, 1);
    let s = site_at(sites, 2);
    let t = site_at(sites, 3);
    [
        number,
        token,
        length,
        listed,
        a.sn as u32,
        a.count as u32,
        b.sn as u32,
        b.count as u32,
        c.sn as u32,
        c.count as u32,
        d.sn as u32,
        d.count as u32,
        sited,
        p.sn,
        p.atom,
        q.sn,
        q.atom,
        s.sn,
        s.atom,
        t.sn,
        t.atom,
    ]
}

// The call. The swap flag is set where it is not 0; the result is the answer's number.
#[unsafe(no_mangle)]
pub extern "C" fn perlwynos_draw<'a>(
    class: &[u8],
    swap: u8,
    tail: &[u8],
    count: usize,
    sn1: &'a [u8],
    sn2: &'a [u8],
    sn3: &'a [u8],
    sn4: &'a [u8],
    line: &mut [u8],
    index: &mut [u16],
    report: &mut [u32; REPORT_ROOM],
) -> u32
    ensures { Reported (verdict class.now tail.now count (tokens count sn1.now sn2.now sn3.now sn4.now)) (not (eqb swap 0)) tail.now line.old index.old line.new index.new report.new result }
{
    let on = swap != 0;
    let answer = forward::draw(class, on, tail, count, sn1, sn2, sn3, sn4, line, index);
    let number = answer.number;
    *report = report_of(answer);
    number as u32
}
