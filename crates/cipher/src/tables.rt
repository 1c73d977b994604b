// The tables of FIPS 46 that the code walks over, in read-only memory.

// The selection functions S1 to S8: four rows each, a row as its sixteen columns in hexadecimal.
pub(crate) static BOXES: [u64; 32] = [
    0xE4D12FB83A6C5907,
    0x0F74E2D1A6CB9538,
    0x41E8D62BFC973A50,
    0xFC8249175B3EA06D,
    0xF18E6B34972DC05A,
    0x3D47F28EC01A69B5,
    0x0E7BA4D158C6932F,
    0xD8A13F42B67C05E9,
    0xA09E63F51DC7B428,
    0xD709346A285ECBF1,
    0xD6498F30B12C5AE7,
    0x1AD069874FE3B52C,
    0x7DE3069A1285BC4F,
    0xD8B56F03472C1AE9,
    0xA690CB7DF13E5284,
    0x3F06A1D8945BC72E,
    0x2C417AB6853FD0E9,
    0xEB2C47D150FA3986,
    0x421BAD78F9C5630E,
    0xB8C71E2D6F09A453,
    0xC1AF92680D34E75B,
    0xAF427C9561DE0B38,
    0x9EF528C3704A1DB6,
    0x432C95FABE17608D,
    0x4B2EF08D3C975A61,
    0xD0B7491AE35C2F86,
    0x14BDC37EAF680592,
    0x6BD814A7950FE23C,
    0xD2846FB1A93E50C7,
    0x1FD8A374C56B0E92,
    0x7B419CE206ADF358,
    0x21E74A8DFC90356B,
];

// The permutation function P.
pub(crate) static P_TABLE: [u8; 32] = [
    16, 7, 20, 21, 29, 12, 28, 17, 1, 15, 23, 26, 5, 18, 31, 10, 2, 8, 24, 14, 32, 27, 3, 9, 19,
    13, 30, 6, 22, 11, 4, 25,
];

// Permuted choice 1.
pub(crate) static PC1_TABLE: [u8; 56] = [
    57, 49, 41, 33, 25, 17, 9, 1, 58, 50, 42, 34, 26, 18, 10, 2, 59, 51, 43, 35, 27, 19, 11, 3, 60,
    52, 44, 36, 63, 55, 47, 39, 31, 23, 15, 7, 62, 54, 46, 38, 30, 22, 14, 6, 61, 53, 45, 37, 29,
    21, 13, 5, 28, 20, 12, 4,
];

// Permuted choice 2.
pub(crate) static PC2_TABLE: [u8; 48] = [
    14, 17, 11, 24, 1, 5, 3, 28, 15, 6, 21, 10, 23, 19, 12, 4, 26, 8, 16, 7, 27, 20, 13, 2, 41, 52,
    31, 37, 47, 55, 30, 40, 51, 45, 33, 48, 44, 49, 39, 56, 34, 53, 46, 42, 50, 36, 29, 32,
];

// The number of left shifts of each iteration.
pub(crate) static SHIFTS: [u32; 16] = [1, 1, 2, 2, 2, 2, 2, 2, 1, 2, 2, 2, 2, 2, 2, 1];

// The exchanges that make the initial permutation: how much further left the bits go, and which bits they are.
pub(crate) static EXCHANGES: [(u32, u64); 5] = [
    (3, 0x1111111111111111),
    (6, 0x0303030303030303),
    (9, 0x0055005500550055),
    (18, 0x0000333300003333),
    (36, 0x000000000f0f0f0f),
];
