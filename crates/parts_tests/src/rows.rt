//! Texts that are cut from their front.

use std::test::Fail;
use text_rows::{after_field, cut, cut_line, first_fields, skip_blanks};

const LINE: &[u8] = b"first \t  a 1\r";

#[test]
fn lines_from_the_front(rt: HostRuntime) {
    let (line, rest) = cut_line(b"first \t  a 1\r\n\nend");
    assert_eq!(rt; line, LINE);
    assert_eq!(rt; rest, b"\nend".as_slice());
    assert_eq!(rt; cut(rest, b'x'), None);
}

fn are_the_first_two(fields: &[&[u8]]) -> bool {
    match fields {
        [one, two] => *one == b"first".as_slice() && *two == b"a".as_slice(),
        _ => false,
    }
}

#[test]
fn fields_from_the_front(rt: HostRuntime) -> Result<(), Fail> {
    let fields = first_fields(rt.alloc(), LINE, 2)?;
    let two = are_the_first_two(&fields);
    drop(fields);
    assert!(rt; two);
    assert_eq!(rt; skip_blanks(after_field(LINE)), b"a 1\r".as_slice());
    assert_eq!(rt;
        cut(LINE, b' '),
        Some((b"first".as_slice(), b"\t  a 1\r".as_slice()))
    );
    Ok(())
}
