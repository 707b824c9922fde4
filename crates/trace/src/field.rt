// field.rt — the number in a field of eight octets.
ghost use Rattle.std.specs.Prelude.{◌≡◌};
ghost use Rattle.trace.specs.Field.{number_in, Shows, FieldsApart};

// The number whose field the octets are; None where they are the field of no number.
#[tactic(auto, using(crate::proofs::Reading::space_at, crate::proofs::Reading::digit_more))]
pub fn number(octets: &[u8]) -> Option<u32>
    ensures value { result ≡ number_in octets.now }
    ensures law { Shows octets.now result }
    ensures apart { FieldsApart }
{
    if octets.len() != 8 {
        return None;
    }
    let mut value: Option<u32> = None;
    for octet in octets {
        if *octet == b' ' && value.is_none() {
            continue;
        }
        // Nothing stands after a zero that comes first.
        if value == Some(0) {
            return None;
        }
        let digit = char::from(*octet).to_digit(10)?;
        value = Some(value.unwrap_or(0) * 10 + digit);
    }
    value
}
