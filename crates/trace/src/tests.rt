// tests.rt — the edges of each call, as tables.
use crate::*;
use refusal::{FieldPlace, Refusal};
use std::test::Fail;

#[test]
fn numbers_in_fields(rt: HostRuntime) {
    let table = [
        (*b"       0", Some(0)),
        (*b"       7", Some(7)),
        (*b"      12", Some(12)),
        (*b"99999999", Some(99_999_999)),
        (*b"10000000", Some(10_000_000)),
        (*b"        ", None),
        (*b"      07", None),
        (*b"00000000", None),
        (*b"      00", None),
        (*b"      +7", None),
        (*b"      -7", None),
        (*b"     1 2", None),
        (*b"7       ", None),
        (*b"   12\t34", None),
        (*b"      1/", None),
        (*b"      1:", None),
    ];
    for (octets, expected) in table {
        assert_eq!(rt; number(&octets), expected);
    }
    assert_eq!(rt; number(b"      7"), None);
    assert_eq!(rt; number(b"        7"), None);
    assert_eq!(rt; number(b""), None);
}

#[test]
fn heads(rt: HostRuntime) {
    let table = [
        (*b"L       2       3\n", Ok((b'L', 2, 3))),
        (*b"R       1       1\n", Ok((b'R', 1, 1))),
        (*b"O     256    4096\n", Ok((b'O', 256, 4096))),
        (*b"L       2       3 ", Err(Refusal::LineShape)),
        (*b"l       2       3\n", Err(Refusal::Letter)),
        (*b"A       x       3\n", Err(Refusal::Letter)),
        (
            *b"L                \n",
            Err(Refusal::Field(FieldPlace::First)),
        ),
        (
            *b"L      02      x3\n",
            Err(Refusal::Field(FieldPlace::First)),
        ),
        (
            *b"L     257      03\n",
            Err(Refusal::Field(FieldPlace::Second)),
        ),
        (*b"L       0       0\n", Err(Refusal::PortCount)),
        (*b"L     257       1\n", Err(Refusal::PortCount)),
        (*b"L       1       0\n", Err(Refusal::CellCount)),
        (*b"L       1    4097\n", Err(Refusal::CellCount)),
    ];
    for (line, expected) in table {
        assert_eq!(rt; head(&line), expected);
    }
    assert_eq!(rt; head(b"L       2      3\n"), Err(Refusal::LineShape));
    assert_eq!(rt; head(b"L       2        3\n"), Err(Refusal::LineShape));
    assert_eq!(rt; head(b""), Err(Refusal::LineShape));
}

#[test]
fn events(rt: HostRuntime) {
    let table = [
        (
            *b"A       0      11\n",
            Ok(Event::Arrival { port: 0, tag: 11 }),
        ),
        (
            *b"A9999999999999999\n",
            Ok(Event::Arrival {
                port: 99_999_999,
                tag: 99_999_999,
            }),
        ),
        (*b"T                \n", Ok(Event::Tick)),
        (*b"T                 ", Err(Refusal::LineShape)),
        (*b"a       0      11\n", Err(Refusal::Letter)),
        (*b"L       2       3\n", Err(Refusal::Letter)),
        (
            *b"A                \n",
            Err(Refusal::Field(FieldPlace::First)),
        ),
        (
            *b"A      00      00\n",
            Err(Refusal::Field(FieldPlace::First)),
        ),
        (
            *b"A       0        \n",
            Err(Refusal::Field(FieldPlace::Second)),
        ),
        (
            *b"A       0      1 \n",
            Err(Refusal::Field(FieldPlace::Second)),
        ),
        (
            *b"T       0       0\n",
            Err(Refusal::Field(FieldPlace::First)),
        ),
        (
            *b"T               0\n",
            Err(Refusal::Field(FieldPlace::Second)),
        ),
        (
            *b"T               \t\n",
            Err(Refusal::Field(FieldPlace::Second)),
        ),
    ];
    for (line, expected) in table {
        assert_eq!(rt; event(&line), expected);
    }
    assert_eq!(rt; event(b"T               \n"), Err(Refusal::LineShape));
    assert_eq!(rt; event(b"T                 \n"), Err(Refusal::LineShape));
}

#[test]
fn cuts(rt: HostRuntime) {
    let (line, rest) = cut(b"ab\n\nc");
    assert!(rt; line == b"ab\n".as_slice());
    let (line, rest) = cut(rest);
    assert!(rt; line == b"\n".as_slice());
    let (line, rest) = cut(rest);
    assert!(rt; line == b"c".as_slice());
    let (line, rest) = cut(rest);
    assert!(rt; line.is_empty());
    assert!(rt; rest.is_empty());
}

// The text of examples/two_ports.trace.
#[test]
fn whole_trace(rt: HostRuntime) -> Result<(), Fail> {
    let text =
        b"L       2       3\nA       0      11\nA       0      12\nA       0      13\nA       1      21\nT                \nA       1      22\nA       1      23\nA       0      14\n";
    let summary = inspect(text)?;
    assert_eq!(rt; summary.head(), (b'L', 2, 3));
    assert_eq!(rt; summary.rule(), Rule::LowestPort);
    assert_eq!(rt;
        (summary.lines(), summary.arrivals(), summary.ticks()),
        (9, 7, 1)
    );
    assert_eq!(rt;
        (
            summary.arrivals_for(0),
            summary.arrivals_for(1),
            summary.arrivals_for(2),
        ),
        (4, 3, 0)
    );
    assert_eq!(rt;
        (summary.arrivals_for(255), summary.arrivals_for(256)),
        (0, 0)
    );
    let by_port = summary.arrivals_by_port();
    assert_eq!(rt; (by_port[0], by_port[1], by_port[2]), (4, 3, 0));
    Ok(())
}

#[test]
fn rules(rt: HostRuntime) -> Result<(), Fail> {
    let table = [
        (*b"L       2       3\n", Rule::LowestPort, "lowest port"),
        (*b"R       2       3\n", Rule::Rotating, "rotating"),
        (*b"O       2       3\n", Rule::OldestHead, "oldest head"),
    ];
    for (line, expected, words) in table {
        assert_eq!(rt; inspect(&line).map(|summary| summary.rule()), Ok(expected));
        assert_eq!(rt; line[0], expected.letter());
        let name = expected.to_string(rt.alloc())?;
        assert!(rt; name.as_str() == words);
    }
    Ok(())
}

fn first_refused(text: &[u8]) -> Option<(usize, Refusal)> {
    let damage = inspect(text).err()?;
    Some((damage.line(), damage.refusal()))
}

#[test]
fn damage_in_words(rt: HostRuntime) -> Result<(), Fail> {
    let text = b"L       2       3\nA       2       0\n";
    let Err(damage) = inspect(text) else {
        return Err(Fail::new("not refused"));
    };
    let words = damage.to_string(rt.alloc())?;
    assert!(rt; words.as_str() == "line 2: the port is at or above the number of ports");
    Ok(())
}

#[test]
fn damaged_traces(rt: HostRuntime) {
    // the text of examples/damaged.trace
    let damaged =
        b"O       3       5\nA       0       1\nA       2       2\nA       100000003\nT                \nA       1       4\n";
    assert_eq!(rt;
        first_refused(damaged),
        Some((4, Refusal::Field(FieldPlace::Second)))
    );
    assert_eq!(rt; first_refused(b""), Some((1, Refusal::LineShape)));
    assert_eq!(rt;
        first_refused(b"L       2       3"),
        Some((1, Refusal::LineShape))
    );
    assert_eq!(rt; first_refused(b"L       2       3\n"), None);
    assert_eq!(rt;
        first_refused(b"L       2       3\nA       1       0\n"),
        None
    );
    assert_eq!(rt;
        first_refused(b"L       2       3\nA       2       0\n"),
        Some((2, Refusal::NoSuchPort))
    );
    assert_eq!(rt;
        first_refused(b"L       2       3\n\n"),
        Some((2, Refusal::LineShape))
    );
    assert_eq!(rt;
        first_refused(b"L       2       3\nT                "),
        Some((2, Refusal::LineShape))
    );
    assert_eq!(rt;
        first_refused(b"L       2       3\nL       2       3\n"),
        Some((2, Refusal::Letter))
    );
}
