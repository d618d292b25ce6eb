// Piece k, from 0 on, of a text that a byte separates into pieces; nothing past the last one.
pub(crate) fn piece(text: &[u8], separator: u8, k: usize) -> &[u8] {
    text.split(|byte| *byte == separator).nth(k).unwrap_or(&[])
}

// The number that a word's digits are, with its other bytes left out; 0 where it has no digit.
pub(crate) fn number(word: &[u8]) -> u64 {
    // The least number whose tenfold has more than 64 bits: before it grows, a number is taken modulo this.
    const TOO_LARGE: u64 = u64::MAX / 10 + 1;
    let mut number = 0u64;
    for byte in word {
        if byte.is_ascii_digit() {
            let tenfold = 10 * (number % TOO_LARGE);
            number = tenfold.wrapping_add(u64::from(byte - b'0'));
        }
    }
    number
}

// Its lowest 32 bits.
pub(crate) fn number_u32(word: &[u8]) -> u32 {
    (number(word) & 0xffff_ffff) as u32
}

// Its lowest byte.
pub(crate) fn number_u8(word: &[u8]) -> u8 {
    (number(word) & 0xff) as u8
}
