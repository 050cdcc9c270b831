// The answer to a request. What it is, and what both slices hold afterwards, are said by specs/answer/Answer.antt.
ghost use Rattle.std.specs.Prelude.{◌≡◌, []};
ghost use Rattle.chain_record.specs.refusal.Refusal.{number_of};
ghost use Rattle.answers.specs.answer.Answer.{lists_of, sites_of, refusal};

use chain_lists::{Listed, Lists, Sites};
use chain_record::Refusal;
use drawn_chain::MAX_CHAINS;
use line_parts::{MAX_SITES, Site};

// The answer. Accepted: number 0, the line's length, the listed chains and the sites, each by rising sn. Refused: the number and the token's
// place, and zero everywhere else. The number stays one: the C header, the README and the theorem of crates/forward/specs/Call.antt speak of it.
#[derive(Clone, Copy)]
pub struct Answer {
    pub number: u16,
    pub token: usize,
    pub length: usize,
    pub lists: Lists,
    pub sites: Sites,
}

// No lists and no sites.
fn no_lists() -> Lists
    ensures { result ≡ lists_of [] }
{
    let none = Listed { sn: 0, count: 0 };
    let items = [none; MAX_CHAINS];
    Lists { count: 0, items }
}

fn no_sites() -> Sites
    ensures { result ≡ sites_of [] }
{
    let none = Site { sn: 0, atom: 0 };
    let items = [none; MAX_SITES];
    Sites { count: 0, items }
}

// A refusal, by its number: defined for every number.
pub fn refused(number: u16, token: usize) -> Answer
    ensures { result ≡ refusal number token }
{
    Answer {
        number,
        token,
        length: 0,
        lists: no_lists(),
        sites: no_sites(),
    }
}

// A refusal, by its name.
pub fn refused_for(reason: Refusal, token: usize) -> Answer
    ensures { result ≡ refusal (number_of reason) token }
{
    refused(u16::from(reason), token)
}
