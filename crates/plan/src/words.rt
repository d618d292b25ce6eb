ghost use Rattle.std.specs.Prelude.{◌≡◌, ◌+◌, ◌*◌, ◌≤◌, length};
ghost use Rattle.plan.specs.Words.{word, words_of};
ghost use Rattle.std.proofs.lemmas.List.Edits.{sets};

// The little-endian number in 2 bytes from an offset on; in 4 and in 8 bytes below: one function a width, as the
// library has one `from_le_bytes` a type.
pub fn word2_at(s: &[u8], at: usize) -> u16
    requires { at + 2 ≤ length s.now }
    ensures { result ≡ word s.now at 2 }
{
    u16::from_le_bytes([s[at], s[at + 1]])
}

pub fn word4_at(s: &[u8], at: usize) -> u32
    requires { at + 4 ≤ length s.now }
    ensures { result ≡ word s.now at 4 }
{
    u32::from_le_bytes([s[at], s[at + 1], s[at + 2], s[at + 3]])
}

pub fn word8_at(s: &[u8], at: usize) -> u64
    requires { at + 8 ≤ length s.now }
    ensures { result ≡ word s.now at 8 }
{
    u64::from_le_bytes([
        s[at],
        s[at + 1],
        s[at + 2],
        s[at + 3],
        s[at + 4],
        s[at + 5],
        s[at + 6],
        s[at + 7],
    ])
}

// Writes bytes from an offset on. Formats give the offset of each part, so that is what the writers pass on: of a
// buffer that is cut into parts they would have to count what is left.
pub fn put_bytes(out: &mut [u8], at: usize, bytes: &[u8])
    requires { at + length bytes.now ≤ length out.old }
    ensures { out.new ≡ sets out.old at bytes.now }
{
    out[at..at + bytes.len()].copy_from_slice(bytes);
}

// Writes numbers in 4 bytes each from an offset on.
pub fn put_words(out: &mut [u8], at: usize, numbers: &[u32])
    requires { at + 4 * length numbers.now ≤ length out.old }
    ensures { out.new ≡ sets out.old at (words_of numbers.now) }
{
    for (i, number) in numbers.iter().enumerate() {
        put_bytes(out, at + 4 * i, &number.to_le_bytes());
    }
}
