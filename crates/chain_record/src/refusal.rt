// The refusals of a request, each by a word of its own, and the number that the call answers for it. Which number is which is said by
// specs/refusal/Refusal.antt.
ghost use Rattle.std.specs.Prelude.{◌≡◌};
ghost use Rattle.chain_record.specs.refusal.Refusal.{number_of};

#[derive(Clone, Copy, PartialEq, Eq, Debug)]
pub enum Refusal {
    // A token, or the line of its chain, that cannot be read.
    Unreadable,
    // A located group at C1 of an acyl chain.
    GroupOnCarbonyl,
    // Double bonds without a position, and a first pin too far.
    PinTooFar,
    // A flexible tail too short for its double bonds.
    TailTooShort,
    // A group without a position, and no site for it.
    NoSite,
    // A class that is not known.
    UnknownClass,
    // A number of tokens that the class does not take.
    WrongCount,
    // A chain that is of the wrong kind for its place.
    WrongKind,
    // A tail outside its grammar.
    WrongTail,
    // More bytes, carbons, groups, rings or double bonds than a token may write.
    OverLimit,
    // A feature off the drawn chain.
    OffChain,
    // Two features that clash.
    Clash,
    // A line or an index slice that is shorter than needed.
    ShortSlice,
}

// The number that the call answers.
impl From<Refusal> for u16 {
    ghost from_gives = { λ refusal n. n ≡ number_of refusal };

    fn from(refusal: Refusal) -> u16 {
        match refusal {
            Refusal::Unreadable => 11,
            Refusal::GroupOnCarbonyl => 12,
            Refusal::PinTooFar => 13,
            Refusal::TailTooShort => 14,
            Refusal::NoSite => 15,
            Refusal::UnknownClass => 20,
            Refusal::WrongCount => 21,
            Refusal::WrongKind => 22,
            Refusal::WrongTail => 23,
            Refusal::OverLimit => 31,
            Refusal::OffChain => 32,
            Refusal::Clash => 33,
            Refusal::ShortSlice => 41,
        }
    }
}
