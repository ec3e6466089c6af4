// Which policy a state was opened under (02, request 5): the origin, 517 bytes with the policy's and then zeros, and the extent, the policy's length.
#![tactic(auto)]

ghost use Rattle.std.specs.Prelude.{◌≡◌, ◌≤◌, ◌==◌, true, ◌&&◌, fold, length, get_or};
ghost use Rattle.rows.specs.Grid.{table};
ghost use Rattle.origin.specs.Origin.{stamped, origin_of, opened_under};

// How many bytes an origin has: no policy is longer.
pub const LENGTH: usize = 517;

// Are these all 0? It looks at every byte and takes no way out, so that it is vector code; `all` leaves at the first that isn't.
fn is_zero(bytes: &[u8]) -> bool
    ensures { result ≡ fold (λ zero byte. zero && byte == 0) true bytes.now }
{
    bytes.iter().fold(true, |zero, byte| zero & (*byte == 0))
}

// Is this what opening the policy writes: its length, its bytes and then zeros? It says so of an origin of 517 bytes, and of a policy that has room
// in it; others may be lent.
pub fn is_of(policy: &[u8], origin: &[u8], extent: u16) -> bool
    ensures { length policy.now ≤ 517 → length origin.now ≡ 517
        → result ≡ opened_under policy.now (stamped origin.now extent) }
{
    extent as usize == policy.len()
        && origin.starts_with(policy)
        && is_zero(&origin[policy.len()..])
}

// What the origin holds at each place: the policy's byte, and 0 past its end. Byte by byte: of `copy_from_slice` the archive would have a call of
// `memmove`, and it may call nothing but `memcpy` and `memset` (docs/EMBEDDING.md).
fn fill(policy: &[u8], origin: &mut [u8])
    ensures { origin.new ≡ table (length origin.old) (λ i. get_or policy.now i 0) }
{
    for (place, byte) in origin.iter_mut().enumerate() {
        *byte = policy.get(place).copied().unwrap_or(0);
    }
}

// Writes which policy the state is opened under: its bytes, then zeros, and its length.
pub fn stamp(policy: &[u8], origin: &mut [u8], extent: &mut u16)
    requires { (length policy.now ≤ 517) × (length origin.old ≡ 517) }
    ensures { stamped origin.new extent.new ≡ origin_of policy.now }
{
    fill(policy, origin);
    *extent = policy.len() as u16;
}
