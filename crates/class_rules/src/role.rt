// What the chain of a token is in the template of a class. What each class is, is said by the templates:
// crates/template_rules/specs/Template.antt.
ghost use Rattle.std.specs.Prelude.{◌≡◌};
ghost use Rattle.template_rules.specs.Template.{role_of};
ghost use Rattle.template_rules.specs.declared.Class.TheVariants.{Sa};

use chain_rules::Role;
use template_rules::Class;

// What the chain of a token is in the template of a class.
pub fn role_of(class: Class, sn: usize) -> Role
    ensures { result ≡ role_of class sn }
{
    match class {
        Class::Fa => Role::Acyl,
        Class::Gl1 | Class::Gl2 | Class::Gl3 | Class::Gp | Class::Cl => Role::Slot,
        Class::Sb => Role::Base,
        Class::Sa => second_acyl(sn),
    }
}

// In SA the first token is the base.
fn second_acyl(sn: usize) -> Role
    ensures { result ≡ role_of Sa sn }
{
    if sn == 1 {
        return Role::Base;
    }
    Role::Acyl
}
