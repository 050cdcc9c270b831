// A chain in its place: whether it can be drawn there, and what is drawn and written.

// What a chain is in its template: in a slot behind an O; where only an acyl chain fits; a base from C3 on.
#[derive(Clone, Copy)]
pub enum Role {
    Slot,
    Acyl,
    Base,
}
