ghost use Rattle.std.specs.Prelude.{◌≡◌, ◌<◌, ◌≤◌, ◌+◌, ◌*◌, ◌^◌, ◌++◌, length, vec_len, vec_capacity, OnOk, OnErr};
ghost use Rattle.exact_parts.specs.Percent.{thousandths as thousandths_lem, percent_text, WorkedPercents};

use crate::no_memory::NoMemory;
use crate::writing::digits;

// How many thousandths of a percent `v` of `w` are, cut off: one digit of the quotient after the other.
fn thousandths(v: u128, w: u128) -> u128
    requires some { 1 ≤ w }
    requires part { v ≤ w }
    requires room { 10 * w < 2 ^ 127 }
    ensures value { result ≡ thousandths_lem v w }
    ensures most { result ≤ 100000 }
{
    let mut n = v / w;
    let mut rest = v % w;
    for _k in 0..5u32 {
        n = n * 10 + rest * 10 / w;
        rest = rest * 10 % w;
    }
    n
}

#[tactic(auto, using(crate::proofs::Percents::percent_steps))]
/// Appends `v` of `w` in percent: the whole percent, a point, and three digits, cut off and not rounded, as `66.666`
/// for 2 of 3. At `NoMemory` nothing is appended.
pub fn push_percent(out: &mut Vec<u8>, v: u128, w: u128) -> Result<(), NoMemory>
    requires some { 1 ≤ w }
    requires part { v ≤ w }
    requires room { 10 * w < 2 ^ 127 }
    ensures ok { OnOk result (out.new.items ≡ out.old.items ++ percent_text v w) }
    ensures err { OnErr result (out.new.items ≡ out.old.items) }
    ensures full { OnErr result (vec_capacity out.old < vec_len out.old + length (percent_text v w)) }
{
    let n = thousandths(v, w);
    let mut to = [0u8; 39];
    let point = digits(n / 1000, &mut to);
    to[point] = b'.';
    to[point + 1] = b'0' + (n % 1000 / 100) as u8;
    to[point + 2] = b'0' + (n % 1000 / 10 % 10) as u8;
    to[point + 3] = b'0' + (n % 1000 % 10) as u8;
    out.extend_from_slice(&to[..point + 4])?;
    Ok(())
}

/// Four shares in percent, worked by hand.
pub fn worked_percents()
    ensures { WorkedPercents }
{}
