// reader.rt — what a line of a trace says.
ghost use Rattle.std.specs.Prelude.{◌≡◌, Ok};
ghost use Rattle.trace.specs.Field.{number_in};
ghost use Rattle.trace.specs.Line.{within, numbers_in, head_in, arrival_in, tick_in, event_in, IsHead, IsEvent, ReadsBack};
ghost use Rattle.trace.specs.Steps.{Blank, Opened, Shaped, field_of};

use crate::events::Event;
use crate::field::number;
use crate::lines::ends_line;
use crate::rule::Rule;
use refusal::{FieldPlace, Refusal};

// The letter of the tie rule, the ports and the cells that the line opens a trace with. The letter is the octet that
// stands in the line, as a report's head takes it.
#[tactic(auto, using(crate::proofs::Verdicts::heads_back))]
pub fn head(line: &[u8]) -> Result<(u8, usize, usize), Refusal>
    ensures answer { result ≡ head_in line.now }
    ensures law { ReadsBack IsHead line.now result }
{
    let (rule, ports, cells) = opening(line)?;
    Ok((rule.letter(), ports, cells))
}

// The tie rule, the ports and the cells that the line opens a trace with.
#[tactic(auto, unfolding(crate::specs::Line::head_in))]
pub(crate) fn opening(line: &[u8]) -> Result<(Rule, usize, usize), Refusal>
    ensures { Opened line.now result }
{
    let line = shaped(line)?;
    let rule = match line[0] {
        b'L' => Rule::LowestPort,
        b'R' => Rule::Rotating,
        b'O' => Rule::OldestHead,
        _ => return Err(Refusal::Letter),
    };
    let (ports, cells) = numbers(line)?;
    if !(1..=256).contains(&ports) {
        return Err(Refusal::PortCount);
    }
    if !(1..=4096).contains(&cells) {
        return Err(Refusal::CellCount);
    }
    // `as`, since a `usize` has no `From` of a `u32`
    Ok((rule, ports as usize, cells as usize))
}

// The arrival or the tick that the line is.
#[tactic(auto, using(crate::proofs::Verdicts::events_back), unfolding(crate::specs::Line::event_in))]
pub fn event(line: &[u8]) -> Result<Event, Refusal>
    ensures answer { result ≡ event_in line.now }
    ensures law { ReadsBack IsEvent line.now result }
{
    let line = shaped(line)?;
    // Each letter is another format, and there are no more of them.
    match line[0] {
        b'A' => arrival(line),
        b'T' => tick(line),
        _ => Err(Refusal::Letter),
    }
}

// The line as its 18 octets, of which the last is octet 10.
fn shaped(line: &[u8]) -> Result<&[u8; 18], Refusal>
    ensures { Shaped line.now result }
{
    match line.as_array() {
        Some(octets) if ends_line(&octets[17]) => Ok(octets),
        _ => Err(Refusal::LineShape),
    }
}

// An A line: a port and a tag.
fn arrival(line: &[u8; 18]) -> Result<Event, Refusal>
    ensures { result ≡ arrival_in line.now }
{
    let (port, tag) = numbers(line)?;
    // `as`, since a `usize` has no `From` of a `u32`
    Ok(Event::Arrival {
        port: port as usize,
        tag,
    })
}

// A T line: both fields blank.
fn tick(line: &[u8; 18]) -> Result<Event, Refusal>
    ensures { result ≡ tick_in line.now }
{
    blank_at(line, FieldPlace::First)?;
    blank_at(line, FieldPlace::Second)?;
    Ok(Event::Tick)
}

// The numbers in the two fields of the line.
fn numbers(line: &[u8; 18]) -> Result<(u32, u32), Refusal>
    ensures { result ≡ numbers_in line.now }
{
    let first = number_at(line, FieldPlace::First)?;
    let second = number_at(line, FieldPlace::Second)?;
    Ok((first, second))
}

// The number in a field of the line.
fn number_at(line: &[u8; 18], place: FieldPlace) -> Result<u32, Refusal>
    ensures { result ≡ within (number_in (field_of place line.now)) place Ok }
{
    number(octets_at(line, place)).ok_or(Refusal::Field(place))
}

// That a field of the line is blank.
fn blank_at(line: &[u8; 18], place: FieldPlace) -> Result<(), Refusal>
    ensures { Blank place line.now result }
{
    if octets_at(line, place) == b"        ".as_slice() {
        Ok(())
    } else {
        Err(Refusal::Field(place))
    }
}

// The eight octets of a field of the line.
fn octets_at(line: &[u8; 18], place: FieldPlace) -> &[u8]
    ensures { result.now ≡ field_of place line.now }
{
    match place {
        FieldPlace::First => &line[1..9],
        FieldPlace::Second => &line[9..17],
    }
}
