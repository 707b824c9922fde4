// refusal — why a call of the product refused: one name for each number of the table in docs/REFUSALS.md.
#![tactic(auto)]

ghost use Rattle.std.specs.Prelude.{◌≡◌};
ghost use Rattle.refusal.specs.Table.{number_of, column_of};

use thiserror::Error;

#[cfg(test)]
mod tests;

// The two fields of a trace line: columns 2 to 9 and columns 10 to 17.
#[derive(Clone, Copy, PartialEq, Eq, Debug)]
pub enum FieldPlace {
    First,
    Second,
}

// Why a call refused; in words, for a person, by `Display`.
#[derive(Clone, Copy, PartialEq, Eq, Debug, Error)]
pub enum Refusal {
    #[error("the number of ports is outside 1 to 256")]
    PortCount,
    #[error("the number of cells is outside 1 to 4096")]
    CellCount,
    #[error("the switch is not in the state for this call")]
    NotInState,
    #[error("the port is at or above the number of ports")]
    NoSuchPort,
    #[error("fewer places were handed than the switch has cells")]
    FewPlaces,
    #[error("the switch has taken its 90000000 events")]
    EventsSpent,
    #[error("the sent list or the marks are shorter than the number of ports")]
    ShortLists,
    #[error("the line is not 18 octets that end in octet 10")]
    LineShape,
    #[error("the letter is not one that may stand here")]
    Letter,
    #[error("the field does not show a number, or is not blank on a T line")]
    Field(FieldPlace),
    #[error("the text space is too short")]
    ShortText,
    #[error("no loss spell is left")]
    NoSpellLeft,
    #[error("the id is at or above the heap's capacity")]
    IdBeyondCapacity,
    #[error("the id is in use")]
    IdInUse,
    #[error("the id is not in use")]
    IdNotInUse,
    #[error("the heap is empty")]
    EmptyHeap,
    #[error("the port to shelter is above 255")]
    ShelterPort,
    #[error("the number is above 99999999")]
    NumberTooLarge,
}

impl Refusal {
    // The number that stands for this refusal in a report, from 1 to 18.
    pub fn number(&self) -> u32
        ensures { result ≡ number_of self.now }
    {
        match self {
            Refusal::PortCount => 1,
            Refusal::CellCount => 2,
            Refusal::NotInState => 3,
            Refusal::NoSuchPort => 4,
            Refusal::FewPlaces => 5,
            Refusal::EventsSpent => 6,
            Refusal::ShortLists => 7,
            Refusal::LineShape => 8,
            Refusal::Letter => 9,
            Refusal::Field(_) => 10,
            Refusal::ShortText => 11,
            Refusal::NoSpellLeft => 12,
            Refusal::IdBeyondCapacity => 13,
            Refusal::IdInUse => 14,
            Refusal::IdNotInUse => 15,
            Refusal::EmptyHeap => 16,
            Refusal::ShelterPort => 17,
            Refusal::NumberTooLarge => 18,
        }
    }

    // The column of the trace line that is to blame, counted from 1; 0 where no column is.
    pub fn column(&self) -> u32
        ensures { result ≡ column_of self.now }
    {
        match self {
            Refusal::Letter => 1,
            Refusal::Field(FieldPlace::First) => 2,
            Refusal::Field(FieldPlace::Second) => 10,
            _ => 0,
        }
    }
}
