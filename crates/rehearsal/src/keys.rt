// The keys of the rehearsal, each of odd parity, and the requests for them; none is a secret.
use keying::Top;

// The pair that the custodians load at both ends.
pub(crate) fn top() -> Top {
    Top::Pair(0x0123456789ABCDEF, 0xFEDCBA9876543210)
}

// On Monday one key, marked P, its name written as IDK1.
pub(crate) fn monday() -> [u8; 74] {
    *b"\x01\x13\x57\x9B\xDF\x02\x46\x8A\xCE\x03MONDAY          \x15\x15\x20\x34\x62\x37\x31\x94\x03SPARE           \x00\x00\x00\x00\x00\x00\x00\x00\x00\x00\x00\x00\x00\x00\x00\x00\x00\x00\x00\x00\x00\x00\x00"
}

// On Tuesday two such keys, notarized, and an enciphered IV.
pub(crate) fn tuesday() -> [u8; 74] {
    *b"\x02\x26\x19\x29\x19\x29\x45\x91\x45\x03TUESDAY         \x15\x15\x20\x34\x62\x37\x31\x94\x03SPARE           \x02\x31\x40\x58\x26\x52\x58\x97\x92\x00\x00\x00\x00\x00\x00\x00\x00\x00\x00\x00\x00\x00\x01"
}
