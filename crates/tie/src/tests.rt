// tests.rt — the rules and layers on lists of every kind, as tables.
use crate::*;
use refusal::Refusal;
use std::test::Fail;

#[derive(Clone, Copy)]
enum Marks {
    Nobody,
    // The last candidate of the list alone.
    Last,
    // Candidates 1, 4, 7 and so on.
    Third,
    All,
}

// What the rule picks from the first n of 300 candidates. Two neighbours have one stamp, and later ones a smaller one.
fn picked<R: TieRule>(rule: &R, n: usize, marks: Marks) -> usize {
    let list: [Candidate; 300] = std::array::from_fn(|port| {
        let marked = match marks {
            Marks::Nobody => false,
            Marks::Last => port + 1 == n,
            Marks::Third => port % 3 == 1,
            Marks::All => true,
        };
        Candidate::new(marked, 500 - (port / 2) as u32)
    });
    rule.pick(&list[..n.min(300)])
}

// A rotating rule that was told of this port.
fn rotating_after(port: usize) -> Rotating {
    let mut rule = Rotating::new();
    rule.told(port);
    rule
}

// Two layers: the upper shelters 0 and 1, the lower 4.
fn pile<R: TieRule + Drop>(rule: R) -> Result<Sheltering<Sheltering<R>>, Refusal> {
    let mut lower = Sheltering::new(rule);
    lower.shelter(4, true)?;
    let mut upper = Sheltering::new(lower);
    upper.shelter(0, true)?;
    upper.shelter(1, true)?;
    Ok(upper)
}

#[test]
fn picks(rt: HostRuntime) -> Result<(), Fail> {
    let start_0 = Rotating::new();
    let start_5 = rotating_after(4);
    let start_256 = rotating_after(255);
    let lowest_pile = pile(LowestPort)?;
    let rotating_pile = pile(rotating_after(4))?;
    // lowest port; rotating from 0, 5 and 256; oldest head; a pile over lowest port and one over rotating from 5
    let table = [
        (1, Marks::Nobody, [256, 256, 256, 256, 256, 256, 256]),
        (1, Marks::Last, [0, 0, 0, 0, 0, 0, 0]),
        (1, Marks::Third, [256, 256, 256, 256, 256, 256, 256]),
        (1, Marks::All, [0, 0, 0, 0, 0, 0, 0]),
        (2, Marks::Nobody, [256, 256, 256, 256, 256, 256, 256]),
        (2, Marks::Last, [1, 1, 1, 1, 1, 1, 1]),
        (2, Marks::Third, [1, 1, 1, 1, 1, 1, 1]),
        (2, Marks::All, [0, 0, 1, 0, 0, 0, 1]),
        (255, Marks::Nobody, [256, 256, 256, 256, 256, 256, 256]),
        (255, Marks::Last, [254, 254, 254, 254, 254, 254, 254]),
        (255, Marks::Third, [1, 1, 7, 1, 253, 7, 7]),
        (255, Marks::All, [0, 0, 5, 1, 254, 2, 5]),
        (256, Marks::Nobody, [256, 256, 256, 256, 256, 256, 256]),
        (256, Marks::Last, [255, 255, 255, 255, 255, 255, 255]),
        (256, Marks::Third, [1, 1, 7, 1, 253, 7, 7]),
        (256, Marks::All, [0, 0, 5, 0, 254, 2, 5]),
        (300, Marks::Nobody, [256, 256, 256, 256, 256, 256, 256]),
        (300, Marks::Last, [256, 256, 256, 256, 256, 256, 256]),
        (300, Marks::Third, [1, 1, 7, 1, 253, 7, 7]),
        (300, Marks::All, [0, 0, 5, 0, 254, 2, 5]),
    ];
    for (n, marks, expected) in table {
        assert_eq!(rt; picked(&LowestPort, n, marks), expected[0]);
        assert_eq!(rt; picked(&start_0, n, marks), expected[1]);
        assert_eq!(rt; picked(&start_5, n, marks), expected[2]);
        assert_eq!(rt; picked(&start_256, n, marks), expected[3]);
        assert_eq!(rt; picked(&OldestHead, n, marks), expected[4]);
        assert_eq!(rt; picked(&lowest_pile, n, marks), expected[5]);
        assert_eq!(rt; picked(&rotating_pile, n, marks), expected[6]);
    }
    Ok(())
}

#[test]
fn no_candidates(rt: HostRuntime) -> Result<(), Fail> {
    assert_eq!(rt; picked(&LowestPort, 0, Marks::All), 256);
    assert_eq!(rt; picked(&rotating_after(255), 0, Marks::All), 256);
    assert_eq!(rt; picked(&OldestHead, 0, Marks::All), 256);
    let lowest_pile = pile(LowestPort)?;
    assert_eq!(rt; picked(&lowest_pile, 0, Marks::All), 256);
    Ok(())
}

#[test]
fn told(rt: HostRuntime) -> Result<(), Fail> {
    let mut rule = rotating_after(4);
    rule.told(256);
    rule.told(usize::MAX);
    assert_eq!(rt; picked(&rule, 256, Marks::All), 5);
    rule.told(5);
    assert_eq!(rt; picked(&rule, 256, Marks::All), 6);
    let mut rotating_pile = pile(rule)?;
    rotating_pile.told(3);
    assert_eq!(rt; picked(&rotating_pile, 256, Marks::All), 5);
    rotating_pile.told(255);
    assert_eq!(rt; picked(&rotating_pile, 256, Marks::All), 2);
    Ok(())
}

#[test]
fn shelters(rt: HostRuntime) -> Result<(), Fail> {
    let mut layer = Sheltering::new(LowestPort);
    assert_eq!(rt; picked(&layer, 256, Marks::All), 0);
    layer.shelter(0, true)?;
    assert_eq!(rt; picked(&layer, 256, Marks::All), 1);
    assert_eq!(rt; layer.shelter(256, true), Err(Refusal::ShelterPort));
    assert_eq!(rt; Refusal::ShelterPort.number(), 17);
    assert_eq!(rt; picked(&layer, 256, Marks::All), 1);
    layer.shelter(255, true)?;
    assert_eq!(rt; picked(&layer, 256, Marks::Last), 255);
    layer.shelter(0, false)?;
    assert_eq!(rt; picked(&layer, 256, Marks::All), 0);
    Ok(())
}

// Those of docs/TIE-RULES.md.
#[test]
fn examples_of_the_page(rt: HostRuntime) -> Result<(), Fail> {
    let list = [
        Candidate::new(false, 7),
        Candidate::new(true, 5),
        Candidate::new(true, 3),
        Candidate::new(true, 3),
    ];
    assert_eq!(rt; LowestPort.pick(&list), 1);
    let mut rotating = Rotating::new();
    assert_eq!(rt; rotating.pick(&list), 1);
    rotating.told(1);
    assert_eq!(rt; rotating.pick(&list), 2);
    rotating.told(3);
    assert_eq!(rt; rotating.pick(&list), 1);
    rotating.told(255);
    assert_eq!(rt; rotating.pick(&list), 1);
    assert_eq!(rt; OldestHead.pick(&list), 2);
    let mut lower = Sheltering::new(LowestPort);
    lower.shelter(1, true)?;
    assert_eq!(rt; lower.pick(&list), 2);
    let mut upper = Sheltering::new(lower);
    upper.shelter(2, true)?;
    assert_eq!(rt; upper.pick(&list), 3);
    let mut layer = Sheltering::new(LowestPort);
    layer.shelter(1, true)?;
    layer.shelter(2, true)?;
    layer.shelter(3, true)?;
    assert_eq!(rt; layer.pick(&list), 1);
    let unmarked = [Candidate::new(false, 7); 4];
    assert_eq!(rt; OldestHead.pick(&unmarked), 256);
    assert_eq!(rt; layer.pick(&unmarked), 256);
    Ok(())
}

// The letter, as the constant has it and as the function answers it.
fn letters<R: TieRule>(_rule: &R) -> (u8, u8) {
    (R::LETTER, R::report_letter())
}

#[test]
fn one_letter(rt: HostRuntime) -> Result<(), Fail> {
    assert_eq!(rt; letters(&LowestPort), (b'L', b'L'));
    assert_eq!(rt; letters(&Rotating::new()), (b'R', b'R'));
    assert_eq!(rt; letters(&OldestHead), (b'O', b'O'));
    let oldest_pile = pile(OldestHead)?;
    assert_eq!(rt; letters(&oldest_pile), (b'O', b'O'));
    Ok(())
}
