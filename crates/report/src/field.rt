// field.rt — the eight octets that show a number.
ghost use Rattle.std.specs.Prelude.{◌≡◌, Ok, map, nat_le};
ghost use Rattle.refusal.specs.declared.Refusal.TheVariants.{NumberTooLarge};
ghost use Rattle.trace.specs.Field.{greatest, field};
ghost use Rattle.trace.specs.Line.{unless};
ghost use Rattle.report.specs.Written.{all_fit};

use refusal::Refusal;

// The largest number that a field can show.
const LARGEST: u32 = 99_999_999;

// Gives the field of n, its decimal digits at the end of eight columns. A number that no field can show is refused.
pub(crate) fn field(n: u32) -> Result<[u8; 8], Refusal>
    ensures answer { result ≡ unless (nat_le n greatest) NumberTooLarge (Ok (field n)) }
{
    if n > LARGEST {
        return Err(Refusal::NumberTooLarge);
    }
    let mut octets = [b' '; 8];
    itoa::write_digits(u64::from(n), &mut octets, 8);
    Ok(octets)
}

// Gives the fields of four numbers. One that is too large refuses them all.
pub(crate) fn fields(numbers: [u32; 4]) -> Result<[[u8; 8]; 4], Refusal>
    ensures answer { result ≡ unless (all_fit numbers) NumberTooLarge (Ok (map field numbers)) }
{
    let [a, b, c, d] = numbers;
    Ok([field(a)?, field(b)?, field(c)?, field(d)?])
}
