ghost use Rattle.std.specs.Prelude.{◌≤◌, ◌<◌, ◌*◌, ◌^◌};

use exact_parts::{Number, digits, fits, number_of, push_percent, push_u128, read_u128, weight_of};
use std::alloc::Global;
use std::test::Fail;

#[test]
fn widths(rt: HostRuntime) {
    assert!(rt; fits(4, 1024, 1024, 6));
    assert!(rt; !fits(8, 1024, 1024, 6));
    assert_eq!(rt; weight_of(2, 2, 2, 2), 16);
}

const NUMBERS: [(&[u8], Option<u128>); 5] = [
    (b"340282366920938463463374607431768211455", Some(u128::MAX)),
    (b"340282366920938463463374607431768211456", None),
    (b"0", Some(0)),
    (b"01", None),
    (b"", None),
];

#[test]
fn texts_are_read(rt: HostRuntime) {
    for (text, number) in NUMBERS {
        assert_eq!(rt; read_u128(text), number);
    }
}

#[test]
fn a_long_number_is_above(rt: HostRuntime) -> Result<(), Fail> {
    let nines = vec![in rt.alloc(); b'9'; 100_000]?;
    let long = number_of(&nines, u128::MAX);
    drop(nines);
    assert_eq!(rt; long, Number::Above);
    assert_eq!(rt; number_of(b"1000000", 1_000_000), Number::Of(1_000_000));
    assert_eq!(rt; number_of(b"1000001", 1_000_000), Number::Above);
    assert_eq!(rt; number_of(b"+1", 1_000_000), Number::NotPlain);
    Ok(())
}

#[test]
fn digits_stand_at_the_front(rt: HostRuntime) {
    let mut to = [b'.'; 39];
    assert_eq!(rt; digits(107, &mut to), 3);
    assert_eq!(rt; &to[..4], b"107.".as_slice());
}

#[test]
fn a_number_is_appended(rt: HostRuntime) -> Result<(), Fail> {
    let mut out = Vec::from_slice(rt.alloc(), b"n ")?;
    let pushed = push_u128(&mut out, u128::MAX).is_ok();
    let written = out.as_slice() == b"n 340282366920938463463374607431768211455".as_slice();
    drop(out);
    assert!(rt; pushed && written);
    Ok(())
}

const SHARES: [(u128, u128, &[u8]); 5] = [
    (2, 3, b"66.666"),
    (1, 16, b"6.250"),
    (1, 1, b"100.000"),
    (0, 5, b"0.000"),
    (1, (1 << 123) - 1, b"0.000"),
];

// Whether the percentage of a share is this text.
fn is_percentage(alloc: Global, v: u128, w: u128, text: &[u8]) -> bool
    requires some { 1 ≤ w }
    requires part { v ≤ w }
    requires room { 10 * w < 2 ^ 127 }
{
    let mut out = Vec::new(alloc);
    let pushed = push_percent(&mut out, v, w).is_ok();
    let written = out.as_slice() == text;
    drop(out);
    pushed && written
}

#[test]
fn shares_are_cut_off_after_three_digits(rt: HostRuntime) {
    for (v, w, text) in SHARES {
        assert!(rt; is_percentage(rt.alloc(), v, w, text), "{v} of {w}");
    }
}
