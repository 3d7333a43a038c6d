// Arithmetic that knows nothing of arrays: three recursions in the manner of Euclid, each of
// which takes a number of calls that is logarithmic in its modulus; multiples below a number;
// and in words.rt words of bytes. Each equals a plain definition of specs/.
#![tactic(auto)]

ghost use Rattle.std.specs.Prelude.{◌≡◌, ◌+◌, ◌*◌, ◌/◌, ◌<◌, ◌^◌};
ghost use Rattle.numbers.specs.Gcd.{gcd};
ghost use Rattle.numbers.specs.FloorSum.{floor_sum, tri, SumFits};
ghost use Rattle.numbers.specs.FirstHit.{first_hit, Window};
ghost use Rattle.numbers.specs.Multiples.{multiples_below};

pub mod words;

// The greatest common divisor.
pub fn gcd(a: u64, b: u64) -> u64
    ensures { result ≡ gcd a b }
{
    if b == 0 { a } else { gcd(b, a % b) }
}

// The part of a floor sum that the whole multiples of m in a and b make.
fn whole_sum(n: u64, m: u64, a: u64, b: u64) -> u64
    requires { SumFits n m a b }
    ensures { result ≡ tri n * (a / m) + n * (b / m) }
{
    (n * n - n) / 2 * (a / m) + n * (b / m)
}

// The sum of (a * j + b) / m over the j below n. What a and b leave by m is summed
// with m and a in each other's place.
pub fn floor_sum(n: u64, m: u64, a: u64, b: u64) -> u64
    requires { SumFits n m a b }
    ensures { result ≡ floor_sum n m a b }
{
    let whole = whole_sum(n, m, a, b);
    let top = a % m * n + b % m;
    if top < m {
        whole
    } else {
        whole + floor_sum(top / m, a % m, m, top % m)
    }
}

// The least t with lo <= t * s % m <= hi. Where no multiple of s lies in the window
// itself, the least number y of whole m passed is the least whose multiple of m lies as
// far below a multiple of s.
pub fn first_hit(s: u64, m: u64, lo: u64, hi: u64) -> Option<u64>
    requires { Window s m lo hi }
    ensures { result ≡ first_hit s m lo hi }
{
    if s == 0 {
        return None;
    }
    let t = (lo - 1) / s + 1;
    let x = t * s;
    if x <= hi {
        return Some(t);
    }
    let y = first_hit(m % s, s, x - hi, x - lo)?;
    Some((y * m + hi) / s)
}

// How many of the first n multiples of s, from 0 on, are below d.
pub fn multiples_below(s: u64, n: u64, d: u64) -> u64
    requires { (0 < s) × (d + s < 2 ^ 64) }
    ensures { result ≡ multiples_below s n d }
{
    ((d + (s - 1)) / s).min(n)
}
