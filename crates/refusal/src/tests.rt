// tests.rt — some rows of the table.
use crate::*;
use std::test::Fail;

#[test]
fn rows(rt: HostRuntime) {
    let table = [
        (Refusal::PortCount, 1, 0),
        (Refusal::LineShape, 8, 0),
        (Refusal::Letter, 9, 1),
        (Refusal::Field(FieldPlace::First), 10, 2),
        (Refusal::Field(FieldPlace::Second), 10, 10),
        (Refusal::ShortText, 11, 0),
        (Refusal::NumberTooLarge, 18, 0),
    ];
    for (refusal, number, column) in table {
        assert_eq!(rt; refusal.number(), number);
        assert_eq!(rt; refusal.column(), column);
    }
}

#[test]
fn words(rt: HostRuntime) -> Result<(), Fail> {
    let shape = Refusal::LineShape.to_string(rt.alloc())?;
    assert!(rt; shape.as_str() == "the line is not 18 octets that end in octet 10");
    let field = Refusal::Field(FieldPlace::Second).to_string(rt.alloc())?;
    assert!(rt; field.as_str() == "the field does not show a number, or is not blank on a T line");
    Ok(())
}
