//! Codes, as RFC 9669 spells them.

/// Code that answers the byte at the offset.
pub(crate) fn byte_at(offset: u16) -> [u8; 24] {
    let [low, high] = offset.to_le_bytes();
    [
        0x07, 0x01, 0, 0, low, high, 0, 0, // r1 += offset
        0x71, 0x10, 0, 0, 0, 0, 0, 0, // ldxb r0, [r1]
        0x95, 0, 0, 0, 0, 0, 0, 0, // exit
    ]
}

/// Code that answers 7 and reads nothing.
pub(crate) const SEVEN: [u8; 16] = [
    0xb7, 0, 0, 0, 7, 0, 0, 0, // r0 = 7
    0x95, 0, 0, 0, 0, 0, 0, 0, // exit
];

/// Code that answers the first word, by way of the stack's lowest and highest bytes.
pub(crate) const BY_STACK: [u8; 48] = [
    0x79, 0x12, 0, 0, 0, 0, 0, 0, // ldxdw r2, [r1]
    0x7b, 0x2a, 0, 0xfe, 0, 0, 0, 0, // stxdw [r10-512], r2
    0x79, 0xa3, 0, 0xfe, 0, 0, 0, 0, // ldxdw r3, [r10-512]
    0x7b, 0x3a, 0xf8, 0xff, 0, 0, 0, 0, // stxdw [r10-8], r3
    0x79, 0xa0, 0xf8, 0xff, 0, 0, 0, 0, // ldxdw r0, [r10-8]
    0x95, 0, 0, 0, 0, 0, 0, 0, // exit
];

/// Code that answers 1 if the last of 64 bytes is above 9, and else 2.
pub(crate) const ABOVE_NINE: [u8; 40] = [
    0x71, 0x12, 63, 0, 0, 0, 0, 0, // ldxb r2, [r1+63]
    0xb7, 0, 0, 0, 1, 0, 0, 0, // r0 = 1
    0x25, 0x02, 0x01, 0, 9, 0, 0, 0, // if r2 > 9 goto exit
    0xb7, 0, 0, 0, 2, 0, 0, 0, // r0 = 2
    0x95, 0, 0, 0, 0, 0, 0, 0, // exit
];

/// Code that stores into its context.
pub(crate) const STORES: [u8; 24] = [
    0xb7, 0, 0, 0, 0, 0, 0, 0, // r0 = 0
    0x72, 0x01, 0, 0, 1, 0, 0, 0, // stb [r1], 1
    0x95, 0, 0, 0, 0, 0, 0, 0, // exit
];
