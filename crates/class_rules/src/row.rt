// What a class asks of its request: the fewest and the most tokens, and whether it has a tail. What each class is, is said by the templates:
// crates/template_rules/specs/Template.antt.
ghost use Rattle.std.specs.Prelude.{◌≡◌};
ghost use Rattle.template_rules.specs.Template.{fewest as fewest_of, most as most_of, has_tail};

use template_rules::Class;

// The fewest tokens that a class takes.
pub fn fewest(class: Class) -> usize
    ensures { result ≡ fewest_of class }
{
    match class {
        Class::Fa | Class::Gl1 | Class::Gl2 | Class::Gl3 | Class::Gp | Class::Sb => 1,
        Class::Sa => 2,
        Class::Cl => 4,
    }
}

// The most tokens that a class takes.
pub fn most(class: Class) -> usize
    ensures { result ≡ most_of class }
{
    match class {
        Class::Fa | Class::Gl1 | Class::Sb => 1,
        Class::Gl2 | Class::Gp | Class::Sa => 2,
        Class::Gl3 => 3,
        Class::Cl => 4,
    }
}

// Whether a class has a tail.
pub fn has_tail(class: Class) -> bool
    ensures { result ≡ has_tail class }
{
    matches!(class, Class::Gp | Class::Sb | Class::Sa)
}
