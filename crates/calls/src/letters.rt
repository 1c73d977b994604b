// The letters of an error that the card finds, each as its bit: a set of them is a number of nine bits, as ERF has it and as
// `letters_of` of csm/specs/Fields spells it.

// Format: an IV that is not E or P and 16 hex digits, an EDK that is no date.
pub const F: u64 = 4;

// Identity: an IDK2 that is not the entry's key name.
pub const I: u64 = 8;

// Parity of a key.
pub const K: u64 = 16;

// MAC.
pub const M: u64 = 32;

// Option not implemented.
pub const O: u64 = 64;

// Count.
pub const P: u64 = 128;
