// Big-endian numbers of 32 and of 16 bits in a list of bytes, and the signed reading of the former: the library's conversions, by the words of the
// specification. (Words and halves are apart: each function is one call of the library at its width, and has a definition of its own.)
#![tactic(auto)]

ghost use Rattle.std.specs.Prelude.{◌≡◌, ◌+◌, ◌<◌, ◌≤◌, length};
ghost use Rattle.std.proofs.lemmas.List.Edits.{sets};
ghost use Rattle.surface.specs.Words.{word_at, bytes_of, half_at, half_bytes, signed, unsigned};

// A byte as a number of 32 bits.
pub fn wide(x: u8) -> u32
    ensures { (result ≡ x) × (result < 256) }
{
    u32::from(x)
}

// The number at byte i.
pub fn word_at(file: &[u8], i: usize) -> u32
    requires { i + 4 ≤ length file.now }
    ensures { result ≡ word_at file.now i }
{
    u32::from_be_bytes([file[i], file[i + 1], file[i + 2], file[i + 3]])
}

// Puts the number n at byte i. Four stores: of one copy the compiler makes vector code in the loop over heights, which is slower (1.06 ns a post, not 0.83).
pub fn put_word(file: &mut [u8], i: usize, n: u32)
    requires { i + 4 ≤ length file.old }
    ensures { file.new ≡ sets file.old i (bytes_of n) }
{
    let [a, b, c, d] = n.to_be_bytes();
    file[i] = a;
    file[i + 1] = b;
    file[i + 2] = c;
    file[i + 3] = d;
}

// The 16-bit number at byte i.
pub fn half_at(file: &[u8], i: usize) -> u32
    requires { i + 2 ≤ length file.now }
    ensures { result ≡ half_at file.now i }
{
    u32::from(u16::from_be_bytes([file[i], file[i + 1]]))
}

// Puts the 16-bit number n at byte i.
pub fn put_half(file: &mut [u8], i: usize, n: u32)
    requires { i + 2 ≤ length file.old }
    ensures { file.new ≡ sets file.old i (half_bytes n) }
{
    let [_, _, a, b] = n.to_be_bytes();
    file[i] = a;
    file[i + 1] = b;
}

// A 32-bit number read as signed.
pub fn as_signed(n: u32) -> i32
    ensures { result ≡ signed n }
{
    n.cast_signed()
}

// The 32 bits of a signed number.
pub fn as_unsigned(z: i32) -> u32
    ensures { result ≡ unsigned z }
{
    z.cast_unsigned()
}
