// The eight class codes. Every byte string has an answer. What each class is, is said by the templates: crates/template_rules/specs/Template.antt.
ghost use Rattle.std.specs.Prelude.{◌≡◌};
ghost use Rattle.class_rules.specs.class.Class.{class_of};

use template_rules::Class;

// The class with a code; none of the eight has any other text.
pub fn class_of(s: &[u8]) -> Option<Class>
    ensures { result ≡ class_of s.now }
{
    if scanner::same(s, b"FA") {
        return Some(Class::Fa);
    }
    if scanner::same(s, b"GL1") {
        return Some(Class::Gl1);
    }
    if scanner::same(s, b"GL2") {
        return Some(Class::Gl2);
    }
    if scanner::same(s, b"GL3") {
        return Some(Class::Gl3);
    }
    if scanner::same(s, b"GP") {
        return Some(Class::Gp);
    }
    if scanner::same(s, b"CL") {
        return Some(Class::Cl);
    }
    if scanner::same(s, b"SB") {
        return Some(Class::Sb);
    }
    if scanner::same(s, b"SA") {
        return Some(Class::Sa);
    }
    None
}
