// Proportional scaling without a wider integer: the whole part of x · n / d.
ghost use Rattle.std.specs.Prelude.{◌≡◌, ◌+◌, ◌*◌, ◌/◌, ◌^◌, ◌<◌, ◌≤◌};
ghost use Rattle.amounts.specs.Inner.{Digit, Parts, Room};
ghost use Rattle.amounts.specs.Scaling.{scaled_of};

// The number q · d + r, for a divisor d that both sides know.
#[derive(Clone, Copy)]
pub(crate) struct Part {
    pub(crate) q: u64,
    pub(crate) r: u64,
}

// The sum of a and b. The test is on what is left of d, so that no sum of two remainders can wrap.
pub(crate) fn plus(a: Part, b: Part, d: u64) -> Part
    requires { (a.r < d) × (b.r < d) × Room ((a.q + b.q) * d + (a.r + b.r)) d }
    ensures { Parts ((a.q + b.q) * d + (a.r + b.r)) d result.q result.r }
{
    let left = d - b.r;
    if a.r < left {
        Part {
            q: a.q + b.q,
            r: a.r + b.r,
        }
    } else {
        Part {
            q: a.q + b.q + 1,
            r: a.r - left,
        }
    }
}

// x times y, by the binary digits of x: for every d of 64 bits.
fn doubled(x: u64, y: Part, d: u64) -> Part
    requires { (y.r < d) × Room (x * (y.q * d + y.r)) d }
    ensures { Parts (x * (y.q * d + y.r)) d result.q result.r }
{
    if x == 0 {
        return Part { q: 0, r: 0 };
    }
    let half = doubled(x / 2, y, d);
    let even = plus(half, half, d);
    if x % 2 == 0 { even } else { plus(even, y, d) }
}

// 2^k.
fn power(k: u64) -> u64
    requires { k < 64 }
    ensures { result ≡ 2 ^ k }
{
    1 << k
}

// How many binary digits of x are taken at a time: the smaller the divisor, the more. A remainder times their power and
// a digit times the divisor fit 64 bits together.
fn digits_at_once(d: u64) -> u64
    requires { d ≤ 2 ^ 62 }
    ensures { Digit d result }
{
    if d < 0x4_0000_0000 {
        return 29;
    }
    if d < 0x200_0000_0000 {
        return 22;
    }
    if d < 0x8000_0000_0000 {
        return 16;
    }
    if d < 0x10_0000_0000_0000 {
        return 11;
    }
    if d < 0x200_0000_0000_0000 {
        return 6;
    }
    1
}

// x times n, by k binary digits of x at a time.
fn by_digits(x: u64, n: u64, d: u64, k: u64) -> Part
    requires { (n ≤ d) × (0 < d) × Digit d k }
    ensures { Parts (x * n) d result.q result.r }
{
    if x == 0 {
        return Part { q: 0, r: 0 };
    }
    let base = power(k);
    let high = by_digits(x / base, n, d, k);
    let q = high.q;
    let t = high.r * base + x % base * n;
    Part {
        q: q * base + t / d,
        r: t % d,
    }
}

// The quotient and the remainder of x · n by d. Where d has 32 bits, so has what x leaves by d, and that times n fits 64.
pub(crate) fn divided(x: u64, n: u64, d: u64) -> Part
    requires { (n ≤ d) × (0 < d) × (d ≤ 2 ^ 62) }
    ensures { Parts (x * n) d result.q result.r }
{
    if d < 0x1_0000_0000 {
        let t = x % d * n;
        return Part {
            q: x / d * n + t / d,
            r: t % d,
        };
    }
    by_digits(x, n, d, digits_at_once(d))
}

// The whole part of x · n / d, for a share n / d of at most the whole.
fn share(x: u64, n: u64, d: u64) -> u64
    requires { (n ≤ d) × (0 < d) }
    ensures { result ≡ x * n / d }
{
    if d <= 0x4000_0000_0000_0000 {
        let shared = divided(x, n, d);
        return shared.q;
    }
    let whole = doubled(x, Part { q: n / d, r: n % d }, d);
    whole.q
}

// The whole part of x · n / d, for any x; x where n is d. None for a share of nothing, where d is 0, or of more than the whole, where n is
// above d.
pub fn scaled(x: u64, n: u64, d: u64) -> Option<u64>
    ensures { result ≡ scaled_of x n d }
{
    if d < n {
        return None;
    }
    if d == 0 {
        return None;
    }
    Some(share(x, n, d))
}
