// Whether a request is refused, before its slices are looked at: class, number of tokens, tokens, kinds, tail, and what cannot be drawn, in
// the order of document 01. Every request has an answer. Which, is said by specs/Verdict.antt. The shapes of its chains (`request_chains::chain_shapes`) and
// their lists are laid into lent arrays, in the place of each token.
#![tactic(auto)]

ghost use Rattle.std.specs.Prelude.{◌≡◌, ◌≤◌, min, take, map, length};
ghost use Rattle.chain_record.specs.refusal.Refusal.{number_due};
ghost use Rattle.token_reader.specs.token.Token.{token_of};
ghost use Rattle.token_reader.specs.token.Lent.{Tells};
ghost use Rattle.token_reader.specs.token.Request.{tokens_of};
ghost use Rattle.tail_grammar.specs.tail.Grammar.{atoms_of_tail};
ghost use Rattle.judge.specs.Verdict.{tokens, wrong_tail, wrong_count, judge_read, verdict};
ghost use Rattle.judge.specs.Judged.{fault_of, fault_from, firsts_of, no_faults, with_reasons, due_of, nothing_due, KindIs, SeenIs, JudgedIs};

use chain_record::{ChainPrefix, DbPos, GROUP_ROOM, MAX_BONDS, MAX_RINGS, Mod, Refusal, Ring};
use chain_rules::Role;
use drawn_chain::drawable::{NO_BOND, NO_GROUP};
use drawn_chain::{Lists, MAX_CHAINS, Shape};
use template_rules::Class;
use token_reader::ReadChain;

// What a request is refused for, and the token's place from 1, 0 for none.
#[derive(Clone, Copy, PartialEq, Eq, Debug)]
pub struct Fault {
    pub refusal: Refusal,
    pub place: usize,
}

// A request that is drawn: its class and the atoms of its tail. Its chains stand in arrays that were lent: they would be copied at every call.
#[derive(Clone, Copy)]
pub struct Drawable {
    pub class: Class,
    pub tail_atoms: u16,
}

// What a chain that was read is refused for: 22; 32 or 33; 12 to 15.
#[derive(Clone, Copy)]
struct Reasons {
    kind: Option<Refusal>,
    place: Option<Refusal>,
    draw: Option<Refusal>,
}

// A token that was read: what its chain is refused for, and the chain as it is drawn, but for its lists.
#[derive(Clone, Copy)]
struct Looked {
    reasons: Reasons,
    shape: Shape,
}

// The first fault of each sort among the chains looked at so far. The sorts have an order of their own: a fault of a later chain comes
// before one of an earlier chain where its sort does.
#[derive(Clone, Copy)]
struct Faults {
    kind: Option<Fault>,
    place: Option<Fault>,
    draw: Option<Fault>,
}

// The fault of a refusal at a place, if one is due.
fn fault_at(reason: Option<Refusal>, place: usize) -> Option<Fault>
    ensures { result ≡ fault_from reason place }
{
    reason.map(|refusal| Fault { refusal, place })
}

impl Reasons {
    // Whether a chain is refused for nothing, as most are.
    fn nothing_due(self) -> bool
        ensures { result ≡ nothing_due self }
    {
        self.kind.or(self.place).or(self.draw).is_none()
    }
}

impl Faults {
    fn new() -> Faults
        ensures { firsts_of result ≡ no_faults }
    {
        Faults {
            kind: None,
            place: None,
            draw: None,
        }
    }

    // One chain more, with its token's place.
    fn join(self, reasons: Reasons, place: usize) -> Faults
        ensures { firsts_of result ≡ with_reasons (firsts_of self) reasons place }
    {
        Faults {
            kind: self.kind.or(fault_at(reasons.kind, place)),
            place: self.place.or(fault_at(reasons.place, place)),
            draw: self.draw.or(fault_at(reasons.draw, place)),
        }
    }

    // The fault that is due: that of a kind, of the tail if it is outside the grammar, of a place, of a drawing.
    fn due(self, outside: bool) -> Option<Fault>
        ensures { fault_of result ≡ due_of (firsts_of self) outside }
    {
        if outside {
            return self.kind.or(Some(Fault {
                refusal: Refusal::WrongTail,
                place: 0,
            }));
        }
        self.kind.or(self.place.or(self.draw))
    }
}

// 22 for a chain of the wrong kind for its place.
fn kind_refusal(role: Role, prefix: ChainPrefix, carbon: u16) -> Option<Refusal>
    ensures { KindIs role prefix carbon (number_due result) }
{
    chain_rules::wrong_kind(role, prefix, carbon).then_some(Refusal::WrongKind)
}

// Whether a tail is outside the grammar, where it counts no atoms, or stands where the class has none.
fn wrong_tail(class: Class, tail: &[u8], atoms: u16) -> bool
    requires { atoms ≡ atoms_of_tail tail.now }
    ensures { result ≡ wrong_tail class tail.now }
{
    if class_rules::has_tail(class) {
        atoms == 0
    } else {
        !tail.is_empty()
    }
}

// The chain that a token says, its lists in arrays with room for all of them.
fn read(
    token: &[u8],
    bonds: &mut [DbPos; MAX_BONDS],
    groups: &mut [Mod; GROUP_ROOM],
    rings: &mut [Ring; MAX_RINGS],
) -> Result<ReadChain, Refusal>
    ensures { Tells result bonds.new groups.new rings.new (token_of token.now) }
{
    token_reader::parse_token(token, bonds, groups, rings)
}

// A token where it stands as a role says. Its chain is drawn before its kind is known to fit: most do. Its rings are read into their room of
// its lists, its other lists into lent arrays, from which they are laid into them as they are drawn: what those held before is not asked,
// so that they are filled once for all tokens.
fn see(
    role: Role,
    token: &[u8],
    bonds: &mut [DbPos; MAX_BONDS],
    groups: &mut [Mod; GROUP_ROOM],
    part: &mut Lists,
) -> Result<Looked, Refusal>
    ensures { SeenIs role result part.new (token_of token.now) }
{
    let said = read(token, bonds, groups, &mut part.rings)?;
    let prefix = said.prefix;
    let counts = said.counts;
    let shape = drawn_chain::drawn_as(
        role,
        prefix,
        said.carbon,
        said.unlocated,
        bonds,
        counts.bonds,
        groups,
        counts.groups,
        counts.rings,
        part,
    );
    let reasons = Reasons {
        kind: kind_refusal(role, prefix, said.carbon),
        place: chain_refusals::place_refusal(shape, part),
        draw: chain_refusals::draw_refusal(shape, part),
    };
    Ok(Looked { reasons, shape })
}

// The tokens of a class, of which there are as many as it takes.
fn judge_tokens<'a>(
    class: Class,
    tail: &[u8],
    count: usize,
    tokens: &[&'a [u8]; MAX_CHAINS],
    shapes: &mut [Shape; MAX_CHAINS],
    lists: &mut [Lists],
) -> Result<Drawable, Fault>
    requires count_bound { count ≤ 4 }
    requires count_in_bounds { count ≤ length lists.old }
    ensures { JudgedIs result count shapes.new lists.new tail.now (judge_read class tail.now (tokens_of (take count (map (λ t. t.now) tokens.now)))) }
{
    let mut bonds = [NO_BOND; MAX_BONDS];
    let mut groups = [NO_GROUP; GROUP_ROOM];
    let mut faults = Faults::new();
    for i in 0..count {
        let place = i + 1;
        let role = class_rules::role_of(class, place);
        let looked = match see(role, tokens[i], &mut bonds, &mut groups, &mut lists[i]) {
            Ok(looked) => looked,
            // No later token is asked: what it says comes after this one's refusal.
            Err(refusal) => return Err(Fault { refusal, place }),
        };
        request_chains::keep_shape(shapes, i, looked.shape);
        // A chain that is refused for nothing leaves the faults as they are, which are then not copied.
        if looked.reasons.nothing_due() {
            continue;
        }
        faults = faults.join(looked.reasons, place);
    }
    let tail_atoms = tail_grammar::tail_atoms(tail);
    if let Some(fault) = faults.due(wrong_tail(class, tail, tail_atoms)) {
        return Err(fault);
    }
    Ok(Drawable { class, tail_atoms })
}

// Whether a class takes another number of tokens.
fn wrong_count(class: Class, count: usize) -> bool
    ensures { result ≡ wrong_count class count }
{
    count < class_rules::fewest(class) || class_rules::most(class) < count
}

// Whether a request is refused, and for what; or its class, the atoms of its tail, which is read once, and its chains, which are kept in the
// lent arrays: for each its shape and, in the same place, its lists; there is room for the tokens, of which there are four at most.
pub fn judge<'a>(
    class: &[u8],
    tail: &[u8],
    count: usize,
    sn1: &'a [u8],
    sn2: &'a [u8],
    sn3: &'a [u8],
    sn4: &'a [u8],
    shapes: &mut [Shape; MAX_CHAINS],
    lists: &mut [Lists],
) -> Result<Drawable, Fault>
    requires { min count 4 ≤ length lists.old }
    ensures { JudgedIs result count shapes.new lists.new tail.now (verdict class.now tail.now count (tokens count sn1.now sn2.now sn3.now sn4.now)) }
{
    let Some(known) = class_rules::class_of(class) else {
        return Err(Fault {
            refusal: Refusal::UnknownClass,
            place: 0,
        });
    };
    if wrong_count(known, count) {
        return Err(Fault {
            refusal: Refusal::WrongCount,
            place: 0,
        });
    }
    let tokens = [sn1, sn2, sn3, sn4];
    judge_tokens(known, tail, count, &tokens, shapes, lists)
}
