// The correctly rounded square root of an f64. A guess in floats is tested, and set right by one, in whole numbers; what the test
// does not pass is found in whole numbers alone.
#![tactic(auto)]

ghost use Rattle.std.specs.Prelude.{◌≡◌, ℕ, ◌+◌, ◌*◌, ◌/◌, ◌%◌, ◌^◌, ◌<◌, ◌≤◌, true, T, IfSome};
ghost use Rattle.std.specs.Float.Ieee as Ieee;
ghost use Rattle.std.specs.Float.{binary64};
ghost use Rattle.root.specs.Root.{nearest54, root_units, root};

// The implied digit of a normal value: the lowest place of the exponent's field.
const IMPLIED: u64 = 1 << 52;

// The digits of a value above zero, the implied one too: 53, or 54 where a zero is put after them.
#[derive(Clone, Copy)]
struct Significand {
    n: u64,
    ghost low: { 2 ^ 52 ≤ n },
    ghost high: { n < 2 ^ 54 },
}

// The pattern of a value that is normal and above zero.
#[derive(Clone, Copy)]
struct Normal {
    bits: u64,
    ghost above_subnormals: { 2 ^ 52 ≤ bits },
    ghost below_infinity: { bits < 0x7ff0_0000_0000_0000 },
}

// The largest r with r * r <= p * 2 ^ 54. The root s of p has its upper 27 digits. The lower 27 are what is left of p, over
// 2 * s, or one less.
fn root54(p: Significand) -> u64
    ensures { (result * result ≤ p.n * 2 ^ 54) × (p.n * 2 ^ 54 < (result + 1) * (result + 1)) × (result < 2 ^ 54) }
{
    let s = p.n.isqrt();
    let left = (p.n - s * s) * (1 << 27);
    let q = left / (s * 2);
    let u = left % (s * 2);
    let r = s * (1 << 27) + q;
    if u * (1 << 27) < q * q { r - 1 } else { r }
}

// The whole number nearest to the root of p * 2 ^ 52, which half of the root of p * 2 ^ 54 is, rounded up.
#[tactic(auto, using(crate::proofs::Guessed::nearest_of_lem))]
fn nearest54(p: Significand) -> u64
    ensures { result ≡ nearest54 p.n }
{
    (root54(p) + 1) / 2
}

// The 53 digits of a value above zero, the implied one too.
fn mantissa(g: f64) -> Option<u64>
    ensures { IfSome result (λ q. (2 ^ 52 ≤ q) × (q < 2 ^ 53)) }
{
    if g > 0.0 {
        Some(g.to_bits() % IMPLIED + IMPLIED)
    } else {
        None
    }
}

// The same from a guess g, or none where it is too far off. What its digits q = s * 2 ^ 26 + t leave, d = p * 2 ^ 52 - q * q, is
// (w - 2 * s) * 2 ^ 26 - t * t for the w below. The nearest is q where -q < d <= q, and one more or one less where d is past that, but
// not by 2 * q: a w below 5 * s sees to it. A wrapped difference is large, so each test passes only a true one.
fn nearest_by(p: Significand, g: f64) -> Option<u64>
    ensures { IfSome result (λ n. n ≡ nearest54 p.n) }
{
    let q = mantissa(g)?;
    let s = q / (1 << 26);
    let t = q % (1 << 26);
    let left = p.n.wrapping_sub(s * s);
    if left >= 1 << 30 {
        return None;
    }
    let w = (left * (1 << 26) + s * 2).wrapping_sub(s * t * 2);
    if w >= s * 5 {
        return None;
    }
    let a = w * (1 << 26) + t * 2;
    let b = t * t + q;
    Some(q + (b + q * 2 < a) as u64 - (a <= b) as u64)
}

// A guess at the root of x, whose pattern is b. Nothing is proved of it but that it is a float: `nearest_by` tests its digits. It is
// given as a float, and its digits are taken behind a branch: digits chosen by a test would wait for it.
// Half of the pattern taken from a constant is 1 / x's root but for a factor, and h is from 1.5 to 1.6875. There the polynomial is
// within 2 ^ -26 of half of 1 / h's root, so u, z times it, is near half of x's; its terms wait for each other as little as they can.
// Heron's step doubles its digits; it ends above the root, and so a quarter of x is taken a little less.
#[tactic(auto, using(crate::proofs::Value::pattern_no_nan))]
fn guess(x: f64, b: Normal) -> f64
    ensures { T (Ieee.fits binary64 result) }
{
    let y = f64::from_bits(0x5fec_0000_0000_0000 - b.bits / 2);
    let z = x * y;
    let h = z * y;
    let k = h * h;
    let zk = z * k;
    let u = z * (0.9755567141 - 0.8173609030 * h)
        + zk * (0.4620517976 - 0.1381393750 * h)
        + zk * (k * 0.0168566464);
    u + 0.24999999999999997 * x / u
}

// The 53 digits of a value with the pattern b, the implied one too, and a zero after them where its exponent is odd.
fn digits(b: Normal) -> Significand
    ensures { result.n ≡ (b.bits % 2 ^ 52 + 2 ^ 52) * ((b.bits / 2 ^ 52 + 51) % 2 + 1) }
{
    let d = b.bits % (IMPLIED * 2);
    Significand {
        n: if d < IMPLIED { (d + IMPLIED) * 2 } else { d },
    }
}

// The root of the value with the pattern b, normal and above zero, from the whole number n nearest to the root of its digits.
fn root_at(b: Normal, n: u64) -> f64
    requires { n ≡ nearest54 ((b.bits % 2 ^ 52 + 2 ^ 52) * ((b.bits / 2 ^ 52 + 51) % 2 + 1)) }
    ensures { result ≡ root (Ieee.of_bits binary64 b.bits) }
{
    f64::from_bits((b.bits / IMPLIED + 1021) / 2 * IMPLIED + n)
}

// The bit pattern of the root of m * 2 ^ h / 2 ^ 52 of the smallest values, one or more of them, for an m of at most 53 digits.
fn root_pattern(m: u64, h: u64) -> u64
    requires { (m < 2 ^ 53) × (h ≤ 2097) × (2 ^ 52 ≤ m * 2 ^ h) }
    ensures { ((u : ℕ) → m * 2 ^ h ≡ u * 2 ^ 52 → Ieee.of_bits binary64 result ≡ root_units u) × (result < 0x7ff0_0000_0000_0000) }
{
    let free = m.leading_zeros() - 11;
    let k = h - free as u64;
    let p = Significand {
        n: (m << free) * (k % 2 + 1),
    };
    (k / 2 + 485) * IMPLIED + nearest54(p)
}

// The square root of x, correctly rounded: IEEE 754's squareRoot.
pub fn sqrt(x: f64) -> f64
    ensures { result ≡ root x }
{
    if x > 0.0 {
        let b = x.to_bits();
        let e = b / IMPLIED;
        if e == 0 {
            return f64::from_bits(root_pattern(b, 52));
        }
        if e == 2047 {
            return x;
        }
        let b = Normal { bits: b };
        let p = digits(b);
        return root_at(
            b,
            nearest_by(p, guess(x, b)).unwrap_or_else(|| nearest54(p)),
        );
    }
    if x == 0.0 { x } else { 0.0 / 0.0 }
}

// The pattern of a value that is normal and above zero.
fn normal_bits(x: f64) -> Option<Normal>
    ensures { IfSome result (λ b. Ieee.of_bits binary64 b.bits ≡ x) }
{
    if x > 0.0 {
        let b = x.to_bits();
        if b.wrapping_sub(IMPLIED) < 0x7fe0_0000_0000_0000 {
            return Some(Normal { bits: b });
        }
    }
    None
}

// The square roots of two numbers that are normal and above zero, or none where a guess is too far off. Both guesses are made before
// either is tested, with no branch between them, so that their steps are taken two at a time.
fn both_by_guess(x: f64, y: f64) -> Option<(f64, f64)>
    ensures { IfSome result (λ r. (r.0 ≡ root x) × (r.1 ≡ root y)) }
{
    let a = normal_bits(x)?;
    let b = normal_bits(y)?;
    let g = guess(x, a);
    let h = guess(y, b);
    let m = nearest_by(digits(a), g)?;
    let n = nearest_by(digits(b), h)?;
    Some((root_at(a, m), root_at(b, n)))
}

// The square roots of two numbers, each by itself where not both are had by guesses.
pub fn sqrt_both(x: f64, y: f64) -> (f64, f64)
    ensures { (result.0 ≡ root x) × (result.1 ≡ root y) }
{
    both_by_guess(x, y).unwrap_or_else(|| (sqrt(x), sqrt(y)))
}
