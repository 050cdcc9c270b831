// What one token says of a chain, in plain types: its prefix, double bonds, groups and rings, and how many of them there may be. What a chain
// is and what may be added to it is said by specs/plain/Chain.antt.

// The limits of 31.
pub const MAX_CARBONS: u16 = 255;

pub const MAX_BONDS: usize = 32;

pub const MAX_GROUPS: usize = 16;

pub const MAX_RINGS: usize = 8;
// Room for the groups read and for the two oxygens that a base draws besides.
pub const GROUP_ROOM: usize = 18;

#[derive(Clone, Copy)]
pub enum ChainPrefix {
    Acyl,
    EtherAlkyl,
    EtherAlkenyl,
    SphingoidD,
    SphingoidT,
}

#[derive(Clone, Copy)]
pub enum Geometry {
    Unstated,
    Cis,
    Trans,
}

#[derive(Clone, Copy)]
pub enum Bridge {
    Epoxide,
    Carbocycle,
}

// A double bond between the carbon pos and the next.
#[derive(Clone, Copy)]
pub struct DbPos {
    pub pos: u32,
    pub geom: Geometry,
}

// A group: its carbon, 0 where no position is stated, and its row of the group table.
#[derive(Clone, Copy)]
pub struct Mod {
    pub pos: u32,
    pub row: u8,
}

// A ring closed between two carbons of the chain.
#[derive(Clone, Copy)]
pub struct Ring {
    pub start: u16,
    pub end: u16,
    pub bridge: Bridge,
}
