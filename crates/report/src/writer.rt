// writer.rt — the calls that write at the start of a text space and answer how many octets they wrote.
ghost use Rattle.std.specs.Prelude.{◌≡◌, ℕ, ◌+◌, ◌*◌, ◌≤◌, true, List, [], ◌∷◌, ◌++◌, length, map, Ok, is_ok, nat_le};
ghost use Rattle.std.specs.List.{flat_map};
ghost use Rattle.refusal.specs.declared.Refusal.TheVariants.{ShortText};
ghost use Rattle.trace.specs.Field.{field};
ghost use Rattle.trace.specs.Line.{line_of, unless};
ghost use Rattle.report.specs.Written.{all_fit, answer_of, after, NumberBack, FieldsBack, HeadBack};

use crate::field::{field, fields};
use refusal::Refusal;

// Writes the field of n: 8 octets. It asks for no more space than that, since a field is a part of a line.
#[tactic(auto, using(crate::proofs::ReadBack::first_back))]
pub fn write_number(text: &mut [u8], n: u32) -> Result<usize, Refusal>
    ensures answer { result ≡ answer_of (n ∷ []) 8 8 text.old }
    ensures text { text.new ≡ after result (field n) text.old }
    ensures law { is_ok result ≡ true → NumberBack n text.new }
{
    let octets = field(n)?;
    asks_room(text, 8)?;
    text[..8].copy_from_slice(&octets);
    Ok(8)
}

// Writes a report line of four numbers: 34 octets. Which letter belongs to which line is for the caller to know.
#[tactic(auto, using(crate::proofs::ReadBack::fields_joined))]
pub fn write_line(text: &mut [u8], letter: u8, numbers: [u32; 4]) -> Result<usize, Refusal>
    ensures answer { result ≡ answer_of numbers 34 34 text.old }
    ensures text { text.new ≡ after result (line_of letter numbers) text.old }
    ensures law { is_ok result ≡ true → FieldsBack numbers text.new }
{
    write(text, letter, &fields(numbers)?)
}

// Writes the head line: 18 octets, in a text space that has room for any line of a report.
pub fn write_head(text: &mut [u8], letter: u8, ports: u32, cells: u32) -> Result<usize, Refusal>
    ensures answer { result ≡ answer_of (ports ∷ cells ∷ []) 34 18 text.old }
    ensures text { text.new ≡ after result (line_of letter (ports ∷ cells ∷ [])) text.old }
    ensures law { is_ok result ≡ true → HeadBack letter ports cells text.new }
{
    write(text, letter, &[field(ports)?, field(cells)?])
}

// Writes the X line (88 is the octet X), which says why a trace was not read to its end: 34 octets. All four
// are numbers that the caller has, a refusal by its number and its column.
pub fn write_refusal(
    text: &mut [u8],
    line: u32,
    refusal: u32,
    column: u32,
    period: u32,
) -> Result<usize, Refusal>
    ensures answer { result ≡ answer_of (line ∷ refusal ∷ column ∷ period ∷ []) 34 34 text.old }
    ensures text { text.new ≡ after result (line_of 88 (line ∷ refusal ∷ column ∷ period ∷ [])) text.old }
    ensures law { is_ok result ≡ true → FieldsBack (line ∷ refusal ∷ column ∷ period ∷ []) text.new }
{
    write_line(text, b'X', [line, refusal, column, period])
}

// Writes the line of the letter and the fields, of which there are at most four.
fn write(text: &mut [u8], letter: u8, fields: &[[u8; 8]]) -> Result<usize, Refusal>
    requires { length fields.now ≤ 4 }
    ensures answer { result ≡ unless (nat_le 34 (length text.old)) ShortText (Ok (8 * length fields.now + 2)) }
    ensures text { text.new ≡ after result (letter ∷ (flat_map (λ octets. octets) fields.now ++ 10 ∷ [])) text.old }
    ensures fields { (ns : List ℕ) → all_fit ns ≡ true → fields.now ≡ map field ns → is_ok result ≡ true → FieldsBack ns text.new }
    ensures head { (ports cells : ℕ) → fields.now ≡ map field (ports ∷ cells ∷ []) → is_ok result ≡ true → HeadBack letter ports cells text.new }
{
    asks_room(text, 34)?;
    let columns = fields.as_flattened();
    text[0] = letter;
    text[1..1 + columns.len()].copy_from_slice(columns);
    text[1 + columns.len()] = b'\n';
    Ok(columns.len() + 2)
}

// Asks the text space for room for this many octets, and refuses a shorter one.
fn asks_room(text: &[u8], octets: usize) -> Result<(), Refusal>
    ensures { result ≡ unless (nat_le octets (length text.now)) ShortText (Ok tt) }
{
    if text.len() < octets {
        return Err(Refusal::ShortText);
    }
    Ok(())
}
