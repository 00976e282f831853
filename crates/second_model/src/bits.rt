// Bytes and their bits.

// The number with these bits, from bit 0 up.
pub(crate) fn number_of(bits: &[bool]) -> u8 {
    bits.iter()
        .rev()
        .fold(0, |number, bit| number << 1 | u8::from(*bit))
}
