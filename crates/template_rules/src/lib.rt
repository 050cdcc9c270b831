// The templates, and the line and the molecule of a request, as definitions (specs/Template.antt and beside it); here the eight classes alone.
// The theorem `promise` says that the line of every accepted request reads as its molecule. Nothing here runs, and nothing is refused.
#![tactic(auto)]

#[derive(Clone, Copy)]
pub enum Class {
    Fa,
    Gl1,
    Gl2,
    Gl3,
    Gp,
    Cl,
    Sb,
    Sa,
}
