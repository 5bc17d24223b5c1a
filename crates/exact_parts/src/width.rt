ghost use Rattle.std.specs.Prelude.{◌≡◌, ◌<◌, ◌≤◌, ◌+◌, ◌-◌, ◌*◌, ◌^◌, ◌↔◌, IsTrue, SomeIff};
ghost use Rattle.exact_parts.specs.Width.{Fits};

const LIMIT: u128 = 1 << 127;

// `start` times `base` to the power `n`, where that is below 2 to the power 127.
fn times_power(start: u128, base: u32, n: u32) -> Option<u128>
    requires start { start < 2 ^ 127 }
    requires base { 1 ≤ base }
    ensures { SomeIff result (start * base ^ n < 2 ^ 127) (start * base ^ n) }
{
    let mut product = start;
    for _k in 0..n {
        match product.checked_mul(base as u128) {
            Some(next) if next < LIMIT => product = next,
            _ => return None,
        }
    }
    Some(product)
}

/// Whether the sums of a scenario stay below 2 to the power 127: `a` parts of the first chances, `d` of a drift row
/// and `g` of a look, each from 1 to 1,000,000, over a horizon of `t` periods from 1 to 32.
pub fn fits(a: u32, d: u32, g: u32, t: u32) -> bool
    requires first { (1 ≤ a) × (a ≤ 1000000) }
    requires drift { (1 ≤ d) × (d ≤ 1000000) }
    requires look { (1 ≤ g) × (g ≤ 1000000) }
    requires horizon { (1 ≤ t) × (t ≤ 32) }
    ensures { IsTrue result ↔ Fits a d g t }
{
    let start = (t as u128 + 10) * a as u128;
    match times_power(start, d, t - 1) {
        Some(product) => times_power(product, g, t + 1).is_some(),
        None => false,
    }
}

#[tactic(auto, using(crate::proofs::Widths::weight_steps))]
/// The weight of all tracks together, by the denominators and the horizon that `fits` allows.
pub fn weight_of(a: u32, d: u32, g: u32, t: u32) -> u128
    requires first { (1 ≤ a) × (a ≤ 1000000) }
    requires drift { (1 ≤ d) × (d ≤ 1000000) }
    requires look { (1 ≤ g) × (g ≤ 1000000) }
    requires horizon { (1 ≤ t) × (t ≤ 32) }
    requires fits { Fits a d g t }
    ensures { result ≡ a * d ^ (t - 1) * g ^ t }
{
    (a as u128) * (d as u128).pow(t - 1) * (g as u128).pow(t)
}
