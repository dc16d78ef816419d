// Why a call is refused, and where: each refusal by its name, with the number that the programs print and that C is given.
#![tactic(auto)]

ghost use Rattle.std.specs.Prelude.{◌≡◌, Some};
ghost use Rattle.std.specs.Fmt.{decimal};
ghost use Rattle.refusals.specs.Says.{number_of};
ghost use Rattle.refusals.specs.Text.{refusal_text};

use std::fmt;

// What is wrong. The README has a line for each.
#[derive(Clone, Copy, Debug, PartialEq, Eq, Hash)]
pub enum Reason {
    Cut,
    UnknownKind,
    WrongLength,
    OutOfOrder,
    TooMany,
    Unfit,
    DeclaredTwice,
    NoQuery,
    NoDefinition,
    Circle,
    NotTrees,
    NotUsedOnce,
    NotInScope,
    InScope,
    OfForest,
    TypesFull,
    AnswerShort,
    WrongValues,
    NotOneTree,
    ValuesFull,
    WorkFull,
    NoSuchText,
    TooDeep,
    RoomShort,
}

impl Reason {
    // The number that stands for it outside.
    pub fn number(self) -> u16
        ensures { result ≡ number_of self }
    {
        match self {
            Reason::Cut => 1,
            Reason::UnknownKind => 2,
            Reason::WrongLength => 3,
            Reason::OutOfOrder => 4,
            Reason::TooMany => 5,
            Reason::Unfit => 6,
            Reason::DeclaredTwice => 7,
            Reason::NoQuery => 8,
            Reason::NoDefinition => 9,
            Reason::Circle => 10,
            Reason::NotTrees => 11,
            Reason::NotUsedOnce => 12,
            Reason::NotInScope => 13,
            Reason::InScope => 14,
            Reason::OfForest => 15,
            Reason::TypesFull => 16,
            Reason::AnswerShort => 17,
            Reason::WrongValues => 18,
            Reason::NotOneTree => 19,
            Reason::ValuesFull => 20,
            Reason::WorkFull => 21,
            Reason::NoSuchText => 22,
            Reason::TooDeep => 23,
            Reason::RoomShort => 30,
        }
    }
}

// As the programs print it: its number.
impl fmt::Display for Reason {
    ghost output = { λ r. Some (decimal (number_of r)) };

    fn fmt<W: fmt::Write>(&self, f: &mut fmt::Formatter<W>) -> fmt::Result {
        let number = self.number();
        write!(f, "{number}")
    }
}

// A refusal: what is wrong, and the byte, entry, definition, variable, node or length where.
#[derive(Clone, Copy, Debug, PartialEq, Eq, Hash)]
pub struct Refusal {
    pub reason: Reason,
    pub place: usize,
}

// As the programs print it.
impl fmt::Display for Refusal {
    ghost output = { λ r. Some (refusal_text (number_of r.reason) r.place) };

    fn fmt<W: fmt::Write>(&self, f: &mut fmt::Formatter<W>) -> fmt::Result {
        let reason = self.reason;
        let place = self.place;
        write!(f, "refused {reason} at {place}")
    }
}
