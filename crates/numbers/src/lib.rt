// Whole and signed numbers of a list of calls, read from slices of bytes, and the digits and the sign that crates `reals` and `keys` read as well.
#![tactic(auto)]

ghost use Rattle.std.specs.Prelude.{◌≡◌, ◌<◌, ◌≤◌, ◌^◌, ◌-◌, pos, neg_ℤ};
ghost use Rattle.numbers.specs.Numbers.{digit_of, number_on, whole_of, is_minus, unsigned_of, minus_of, plus_of, signed_of};

// The value of a digit. Any other byte is 16, which is a digit in no base up to 16; `read_on` promises for every base, and there it counts as 16 (d).
#[tactic(auto, unfolding(crate::specs::Numbers::digit_of))]
pub fn digit(c: u8) -> u64
    ensures { result ≡ digit_of c }
{
    match c {
        b'0'..=b'9' => u64::from(c - b'0'),
        b'A'..=b'F' => u64::from(c - b'A') + 10,
        b'a'..=b'f' => u64::from(c - b'a') + 10,
        _ => 16,
    }
}

// The number that the digits n and then s write, up to `most`.
pub fn read_on(from: u64, s: &[u8], base: u64, most: u64) -> Option<u64>
    requires { (1 < base) × (from ≤ most) }
    ensures { result ≡ number_on base most from s.now }
{
    if s.is_empty() {
        return None;
    }
    let mut n = from;
    for &c in s {
        let d = digit(c);
        if d >= base {
            return None;
        }
        let m = n.checked_mul(base)?.checked_add(d)?;
        if m > most {
            return None;
        }
        n = m;
    }
    Some(n)
}

// A decimal number up to `most`.
#[tactic(auto, unfolding(crate::specs::Numbers::whole_of))]
pub fn read_whole(s: &[u8], most: u64) -> Option<u64>
    ensures { result ≡ whole_of most s.now }
{
    read_on(0, s, 10, most)
}

// Whether a minus sign stands in front, and what is left without it: two, each promised by itself: one that answers both
// would be a pair that each caller opens (d).
pub fn is_minus(s: &[u8]) -> bool
    ensures { result ≡ is_minus s.now }
{
    s.first() == Some(&b'-')
}

pub fn unsigned(s: &[u8]) -> &[u8]
    ensures { result.now ≡ unsigned_of s.now }
{
    s.strip_prefix(b"-").unwrap_or(s)
}

// A decimal i32. Behind a minus sign it may be one more.
#[tactic(auto, using(crate::proofs::Values::whole_within), unfolding(crate::specs::Numbers::signed_of))]
pub fn read_signed(s: &[u8]) -> Option<i32>
    ensures { result ≡ signed_of s.now }
{
    let minus = is_minus(s);
    let most = if minus { 2147483648 } else { 2147483647 };
    let n = read_whole(unsigned(s), most)? as i64;
    Some((if minus { -n } else { n }) as i32)
}
