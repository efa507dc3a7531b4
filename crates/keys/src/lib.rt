// A key of a list of calls, read from a slice of bytes by its hex digits.
#![tactic(auto)]

ghost use Rattle.std.specs.Prelude.{◌≡◌, ◌<◌, ◌≤◌, ◌%◌, length};
ghost use Rattle.numbers.specs.Numbers.{digit_of, all_digits};
ghost use Rattle.keys.specs.Keys.{is_key, hex_at, key_byte, key_bytes, key_of};

use numbers::digit;

fn all_hex(s: &[u8]) -> bool
    ensures { result ≡ all_digits 16 s.now }
{
    for &c in s {
        if digit(c) > 15 {
            return false;
        }
    }
    true
}

// Whether these are the digits of a key.
#[tactic(auto, unfolding(crate::specs::Keys::is_key))]
fn is_key(s: &[u8]) -> bool
    ensures { result ≡ is_key s.now }
{
    !s.is_empty() && s.len() <= 64 && all_hex(s)
}

fn low(c: u8) -> u8
    ensures { (result ≡ digit_of c % 16) × (result < 16) }
{
    (digit(c) % 16) as u8
}

// Digit k of a key's 64. At most 64 digits, here and below: a struct with the bound would be made for three private helpers (d).
#[tactic(auto, using(crate::proofs::Keys::hex_lead, crate::proofs::Keys::hex_digit))]
fn hex_at(s: &[u8], k: usize) -> u8
    requires { (length s.now ≤ 64) × (k < 64) }
    ensures { (result ≡ hex_at s.now k) × (result < 16) }
{
    let lead = 64 - s.len();
    if k < lead {
        return 0;
    }
    low(s[k - lead])
}

#[tactic(auto, using(crate::proofs::Keys::byte_is))]
fn key_byte(s: &[u8], i: usize) -> u8
    requires { (length s.now ≤ 64) × (i < 32) }
    ensures { result ≡ key_byte s.now i }
{
    let high = hex_at(s, 2 * i);
    let rest = hex_at(s, 2 * i + 1);
    16 * high + rest
}

fn key_bytes(s: &[u8]) -> [u8; 32]
    requires { length s.now ≤ 64 }
    ensures { result ≡ key_bytes s.now 32 }
{
    let mut out = [0u8; 32];
    for (i, byte) in out.iter_mut().enumerate() {
        *byte = key_byte(s, i);
    }
    out
}

// A key of up to 64 hex digits.
#[tactic(auto, using(crate::proofs::Keys::key_length_by, crate::proofs::Keys::key_read, crate::proofs::Keys::key_bad))]
pub fn read_key(s: &[u8]) -> Option<[u8; 32]>
    ensures { result ≡ key_of s.now }
{
    if is_key(s) { Some(key_bytes(s)) } else { None }
}
