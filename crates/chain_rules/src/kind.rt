// Of which kind a chain is where it stands: what its place and its prefix alone say. What that is, is said by the definitions of `chain`.
ghost use Rattle.std.specs.Prelude.{◌≡◌};
ghost use Rattle.chain_rules.specs.chain.Features.{first_drawn, is_acyl};
ghost use Rattle.chain_rules.specs.chain.Refusals.{is_ether_base, is_sphingoid};
ghost use Rattle.chain_rules.specs.kind.Kind.{Kind};

use super::chain::Role;
use chain_record::ChainPrefix;

// The first drawn carbon.
pub fn first_drawn(role: Role) -> u16
    ensures { result ≡ first_drawn role }
{
    match role {
        Role::Slot | Role::Acyl => 1,
        Role::Base => 3,
    }
}

// Whether C1 carries a doubly bonded O.
#[tactic(auto, unfolding(crate::specs::chain::Features::is_acyl))]
pub fn is_acyl(role: Role, prefix: ChainPrefix) -> bool
    ensures { result ≡ is_acyl role prefix }
{
    match role {
        Role::Slot | Role::Acyl => matches!(prefix, ChainPrefix::Acyl),
        Role::Base => false,
    }
}

// Whether `O-` or `P-` stands on a base.
pub fn is_ether_base(role: Role, prefix: ChainPrefix) -> bool
    ensures { result ≡ is_ether_base role prefix }
{
    match role {
        Role::Slot | Role::Acyl => false,
        Role::Base => matches!(prefix, ChainPrefix::EtherAlkyl | ChainPrefix::EtherAlkenyl),
    }
}

// d or t.
pub fn is_sphingoid(prefix: ChainPrefix) -> bool
    ensures { result ≡ is_sphingoid prefix }
{
    matches!(prefix, ChainPrefix::SphingoidD | ChainPrefix::SphingoidT)
}

// 22: whether a chain is of the wrong kind for its place. A slot takes any chain but d and t with carbons, an acyl place an acyl chain with
// carbons, and a base's place any chain of 4 carbons or more.
pub fn wrong_kind(role: Role, prefix: ChainPrefix, carbon: u16) -> bool
    ensures { Kind role prefix carbon result }
{
    match role {
        Role::Slot => is_sphingoid(prefix) && carbon > 0,
        Role::Acyl => !is_acyl(role, prefix) || carbon == 0,
        Role::Base => carbon < 4,
    }
}
