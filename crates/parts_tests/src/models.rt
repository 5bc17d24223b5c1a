use search_model::Path;
use std::cmp::Ordering;
use std::test::Fail;

// Whether two values are equal, and how they compare, as a caller sees it that only knows the traits.
fn compared<T: Copy + Ord>(a: T, b: T) -> (bool, Ordering) {
    (a == b, a.cmp(&b))
}

const COMPARED: [(&[u8], &[u8], Ordering); 6] = [
    (&[], &[0], Ordering::Less),
    (&[1], &[1, 0], Ordering::Less),
    (&[1, 2], &[2, 0], Ordering::Less),
    (&[2], &[1, 9], Ordering::Greater),
    (&[0], &[], Ordering::Greater),
    (&[3, 3], &[3, 3], Ordering::Equal),
];

#[test]
fn paths_compare_as_lists(rt: HostRuntime) -> Result<(), Fail> {
    for (a, b, order) in COMPARED {
        let one = Path::of(a).ok_or("no path")?;
        let other = Path::of(b).ok_or("no path")?;
        let (equal, found) = compared(one, other);
        assert_eq!(rt; equal, order == Ordering::Equal);
        assert!(rt; found == order);
    }
    Ok(())
}
