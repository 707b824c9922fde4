// tests.rt — the octets of each line, the edges of each refusal, and what is left untouched.
use crate::*;
use refusal::Refusal;

#[test]
fn numbers(rt: HostRuntime) {
    let table = [
        (0, *b"       0.."),
        (7, *b"       7.."),
        (10, *b"      10.."),
        (120, *b"     120.."),
        (99_999_999, *b"99999999.."),
    ];
    for (n, expected) in table {
        let mut text = [b'.'; 10];
        assert_eq!(rt; write_number(&mut text, n), Ok(8));
        assert_eq!(rt; text, expected);
    }
    let mut text = [b'.'; 7];
    assert_eq!(rt;
        write_number(&mut text, 100_000_000),
        Err(Refusal::NumberTooLarge)
    );
    assert_eq!(rt; write_number(&mut text, 1), Err(Refusal::ShortText));
    assert_eq!(rt; text, *b".......");
}

#[test]
fn report_lines(rt: HostRuntime) {
    let mut text = [b'.'; 36];
    assert_eq!(rt; write_line(&mut text, b'D', [0, 1, 0, 13]), Ok(34));
    assert!(rt; text == *b"D       0       1       0      13\n..");
    assert_eq!(rt;
        write_line(&mut text, b'E', [1, 2, 3, 100_000_000]),
        Err(Refusal::NumberTooLarge)
    );
    assert!(rt; text == *b"D       0       1       0      13\n..");
    let mut text = [b'.'; 34];
    assert_eq!(rt; write_line(&mut text, b'P', [99_999_999, 0, 5, 10]), Ok(34));
    assert!(rt; text == *b"P99999999       0       5      10\n");
    let mut text = [b'.'; 33];
    assert_eq!(rt;
        write_line(&mut text, b'P', [0, 0, 0, 0]),
        Err(Refusal::ShortText)
    );
    assert!(rt; text == [b'.'; 33]);
}

#[test]
fn head_lines(rt: HostRuntime) {
    let mut text = [b'.'; 34];
    assert_eq!(rt; write_head(&mut text, b'L', 2, 3), Ok(18));
    assert!(rt; text == *b"L       2       3\n................");
    assert_eq!(rt;
        write_head(&mut text, b'L', 100_000_000, 3),
        Err(Refusal::NumberTooLarge)
    );
    let mut text = [b'.'; 33];
    assert_eq!(rt; write_head(&mut text, b'L', 2, 3), Err(Refusal::ShortText));
    assert!(rt; text == [b'.'; 33]);
}

#[test]
fn refusal_lines(rt: HostRuntime) {
    let mut text = [b'.'; 34];
    assert_eq!(rt; write_refusal(&mut text, 4, 10, 2, 7), Ok(34));
    assert!(rt; text == *b"X       4      10       2       7\n");
    let mut text = [b'.'; 33];
    assert_eq!(rt;
        write_refusal(&mut text, 1, 8, 0, 100_000_000),
        Err(Refusal::NumberTooLarge)
    );
    assert_eq!(rt;
        write_refusal(&mut text, 1, 8, 0, 0),
        Err(Refusal::ShortText)
    );
    assert!(rt; text == [b'.'; 33]);
}
