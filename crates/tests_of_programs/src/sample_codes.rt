//! Codes for several tests.

/// Code that answers 1 if the first of two values of the record is at least the second, else 2.
pub(crate) const GREATER: [u8; 48] = [
    0x79, 0x12, 0x38, 0, 0, 0, 0, 0, // ldxdw r2, [r1+56]
    0x79, 0x13, 0x60, 0, 0, 0, 0, 0, // ldxdw r3, [r1+96]
    0xb7, 0x00, 0, 0, 1, 0, 0, 0, // mov64 r0, 1
    0x3d, 0x32, 1, 0, 0, 0, 0, 0, // jge r2, r3, +1
    0xb7, 0x00, 0, 0, 2, 0, 0, 0, // mov64 r0, 2
    0x95, 0, 0, 0, 0, 0, 0, 0, // exit
];

/// Code of 1,024 slots: `mov64 r0, 1` 1,023 times, then `exit`.
pub(crate) fn longest_code() -> [u8; 8192] {
    let mut bytes = [0u8; 8192];
    for slot in 0..1023usize {
        bytes[8 * slot] = 0xb7;
        bytes[8 * slot + 4] = 1;
    }
    bytes[8 * 1023] = 0x95;
    bytes
}
