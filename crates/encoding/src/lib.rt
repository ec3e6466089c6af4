// What the two formats, of policies and of messages, share: the bits of a map, and fields that are written or absent, read and written.
#![tactic(auto)]

ghost use Rattle.std.specs.Prelude.{◌≡◌, ℕ, ◌+◌, ◌*◌, ◌/◌, ◌%◌, ◌≤◌, ◌<◌, [], ◌∷◌, length, get_or, eqb, cond};
ghost use Rattle.std.proofs.lemmas.List.Edits.{sets};
ghost use Rattle.bits.specs.Digits.{gathered};
ghost use Rattle.encoding.specs.Fields.{size, written, word_of, long_of};
ghost use Rattle.encoding.specs.Layout.{value_at, takes};
ghost use Rattle.encoding.specs.Text.{bytes_of, field_text};

// Is the bit of this weight set in the map.
pub fn has(map: u8, weight: u8) -> bool
    requires { 0 < weight }
    ensures { result ≡ eqb (map / weight % 2) 1 }
{
    map / weight % 2 == 1
}

// How many bytes a field of n bytes takes.
pub fn size_of(present: bool, n: usize) -> usize
    ensures { result ≡ size present n }
{
    if present { n } else { 0 }
}

// Two bytes as a number, the lower first.
pub fn word(a: u8, b: u8) -> u16
    ensures { result ≡ word_of a b }
{
    u16::from_le_bytes([a, b])
}

// Four bytes as a number, the lowest first.
pub fn long(a: u8, b: u8, c: u8, d: u8) -> u32
    ensures { result ≡ long_of a b c d }
{
    u32::from_le_bytes([a, b, c, d])
}

// The bytes of a field at a place, all 0 where it is absent.
fn field_bytes<const N: usize>(s: &[u8], present: bool, at: usize) -> [u8; N]
    requires { at + size present N ≤ length s.now }
    ensures { (k : ℕ) → k < N → get_or result k 0 ≡ cond present (get_or s.now (at + k) 0) 0 }
{
    let mut bytes = [0; N];
    if present {
        bytes.copy_from_slice(&s[at..at + N]);
    }
    bytes
}

// Three names over one generic read: each is public, with the contract of its width. A flag beside a place and 0 for an absent field, and no
// Option: so the definitions have it (`field`, `written`).

// The field of one byte at a place, 0 where it is absent.
pub fn read8(s: &[u8], present: bool, at: usize) -> u8
    requires { at + size present 1 ≤ length s.now }
    ensures { result ≡ cond present (value_at s.now at 1) 0 }
{
    u8::from_le_bytes(field_bytes(s, present, at))
}

// The field of two bytes at a place, 0 where it is absent.
pub fn read16(s: &[u8], present: bool, at: usize) -> u16
    requires { at + size present 2 ≤ length s.now }
    ensures { result ≡ cond present (value_at s.now at 2) 0 }
{
    u16::from_le_bytes(field_bytes(s, present, at))
}

// The field of four bytes at a place, 0 where it is absent.
pub fn read32(s: &[u8], present: bool, at: usize) -> u32
    requires { at + size present 4 ≤ length s.now }
    ensures { result ≡ cond present (value_at s.now at 4) 0 }
{
    u32::from_le_bytes(field_bytes(s, present, at))
}

// A written field is not 0.
pub fn is_written(present: bool, value: u32) -> bool
    ensures { result ≡ written present value }
{
    if present { value != 0 } else { true }
}

// ---- what is written (02, request 3)

// Four functions choose between a number and 0, each in one line, as short as a call of a generic one would be.

// The bit of this weight, where the field's number is not 0.
pub fn flag(value: usize, weight: u8) -> u8
    ensures { (result ≡ takes value weight) × (result ≤ weight) }
{
    if value == 0 { 0 } else { weight }
}

// The bit of this weight, where it is to stand.
pub fn flag_if(stands: bool, weight: u8) -> u8
    ensures { (result ≡ cond stands weight 0) × (result ≤ weight) }
{
    if stands { weight } else { 0 }
}

// How many bytes a field of so many takes: none where its number is 0.
pub fn field_length(value: usize, width: usize) -> usize
    ensures { (result ≡ takes value width) × (result ≤ width) }
{
    if value == 0 { 0 } else { width }
}

// Writes one byte, and says where the next one goes.
pub fn put(out: &mut [u8], at: usize, byte: u8) -> usize
    requires { at < length out.old }
    ensures { (result ≡ at + 1) × (out.new ≡ sets out.old at (byte ∷ [])) }
{
    out[at] = byte;
    at + 1
}

// Writes the lowest bytes of a number, so many as the width says, the lowest first. By division, since the width may be any.
pub fn put_bytes(out: &mut [u8], at: usize, width: usize, value: usize) -> usize
    requires { at + width ≤ length out.old }
    ensures { (result ≡ at + width) × (out.new ≡ sets out.old at (bytes_of width value)) }
{
    let mut rest = value;
    for i in 0..width {
        out[at + i] = (rest % 256) as u8;
        rest /= 256;
    }
    at + width
}

// Writes a field, unless its number is 0.
pub fn put_field(out: &mut [u8], at: usize, width: usize, value: usize) -> usize
    requires { at + takes value width ≤ length out.old }
    ensures { (result ≡ at + takes value width) × (out.new ≡ sets out.old at (field_text width value)) }
{
    if value == 0 {
        return at;
    }
    put_bytes(out, at, width, value)
}

// The values' bits at the named places, packed one after another, lowest first. A walk by trailing zeros is a form that the project names: its turns
// are as many as the names, and no counted range says that.
pub fn gather(named: u32, values: u32) -> u32
    ensures { result ≡ gathered 32 named values }
{
    let mut rest = named;
    let mut j = 0u32;
    let mut out = 0;
    while rest != 0 {
        let k = u32::trailing_zeros(rest);
        let weight = 1u32 << k;
        out += (values / weight % 2) * (1u32 << j);
        j += 1;
        rest -= weight;
    }
    out
}
