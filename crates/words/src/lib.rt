// Floor 1: what every call answers. The definitions stand in specs/, the laws about them in proofs/; here are the shapes of the answers, as C takes them:
// in each `number` is 0, or the number of the refusal with zeros in every other field. In Rust a call answers a `Result` (`finder`).
#![tactic(auto)]

// The most readings that a log may have, and the places of a weighed list and of a breakdown that follow from it (`longest`, `weighed_places` and
// `breakdown_places` of specs/).
pub const LONGEST: usize = 4096;

pub const WEIGHED_PLACES: usize = 12;

pub const BREAKDOWN_PLACES: usize = 13;

// The symbol of a reading at the ceiling (`ceiling_symbol` of specs/); no symbol is greater.
pub const CEILING: u8 = 20;

// A call that only writes tables.
#[repr(C)]
#[derive(Clone, Copy)]
pub struct Written {
    pub number: u8,
}

// The enhanced table and a window: the weighed total.
#[repr(C)]
#[derive(Clone, Copy)]
pub struct Weighing {
    pub number: u8,
    pub total: u32,
}

// The list of covers: how many were written.
#[repr(C)]
#[derive(Clone, Copy)]
pub struct Listed {
    pub number: u8,
    pub used: u16,
}

// A normal form.
#[repr(C)]
#[derive(Clone, Copy)]
pub struct Normal {
    pub number: u8,
    pub k1: u16,
    pub k2: u16,
    pub k: u16,
}

// One part of a breakdown: its length with its normal form.
#[repr(C)]
#[derive(Clone, Copy)]
pub struct Part {
    pub len: u16,
    pub k1: u16,
    pub k2: u16,
    pub k: u16,
}

#[repr(C)]
#[derive(Clone, Copy)]
pub struct Breakdown {
    pub number: u8,
    pub used: u16,
    pub parts: [Part; BREAKDOWN_PLACES],
}

// The weighed list of one prefix, longest first.
#[repr(C)]
#[derive(Clone, Copy)]
pub struct Weighed {
    pub number: u8,
    pub used: u16,
    pub limit: u16,
    pub lens: [u16; WEIGHED_PLACES],
}

// The best pattern: how many readings it has.
#[repr(C)]
#[derive(Clone, Copy)]
pub struct Pattern {
    pub number: u8,
    pub len: usize,
}
