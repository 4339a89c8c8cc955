// Refusals as the documents number them: a number, and the place that it names.
#![tactic(auto)]

ghost use Rattle.std.specs.Prelude.{◌≡◌, Err};
ghost use Rattle.refusals.specs.declared.Place.TheVariants.{Nowhere};
ghost use Rattle.refusals.specs.Refusal.{number_of, printed};

// Where a refusal points: a byte's index, a triple of actions or a step's index, or nowhere.
#[derive(Clone, Copy, Debug, PartialEq, Eq)]
pub enum Place {
    Nowhere,
    Byte(usize),
    Triple(u8, u8, u8),
    Step(usize),
}

// Why something is refused, in the order of the documents' numbers.
#[derive(Clone, Copy, Debug, PartialEq, Eq)]
pub enum Reason {
    TablesLength,
    ActionCount,
    EntryOutside,
    NullEntry,
    NotCommutative,
    NotAssociative,
    NotAboveNull,
    NotAnOrder,
    PlanLength,
    UnknownWord,
    TooFewOperands,
    NotOnePlan,
    OverCapacity,
    RecordCutShort,
    UnknownLaw,
    ClaimedPlan,
    FileLength,
    BlockSum,
    BlockNumber,
    BlockUse,
    StationArea,
    NoText,
    TooDeep,
    TextTooLong,
    NotBasic,
    OutsideActions,
    NoPath,
    NotAPair,
    ShortArea,
    CarriedPlan,
}

impl Reason {
    // The number by which the documents name it.
    pub fn number(self) -> u8
        ensures { result ≡ number_of self }
    {
        match self {
            Reason::TablesLength => 1,
            Reason::ActionCount => 2,
            Reason::EntryOutside => 3,
            Reason::NullEntry => 4,
            Reason::NotCommutative => 5,
            Reason::NotAssociative => 6,
            Reason::NotAboveNull => 7,
            Reason::NotAnOrder => 8,
            Reason::PlanLength => 11,
            Reason::UnknownWord => 12,
            Reason::TooFewOperands => 13,
            Reason::NotOnePlan => 14,
            Reason::OverCapacity => 15,
            Reason::RecordCutShort => 16,
            Reason::UnknownLaw => 17,
            Reason::ClaimedPlan => 18,
            Reason::FileLength => 51,
            Reason::BlockSum => 52,
            Reason::BlockNumber => 53,
            Reason::BlockUse => 54,
            Reason::StationArea => 55,
            Reason::NoText => 61,
            Reason::TooDeep => 62,
            Reason::TextTooLong => 63,
            Reason::NotBasic => 70,
            Reason::OutsideActions => 71,
            Reason::NoPath => 72,
            Reason::NotAPair => 73,
            Reason::ShortArea => 74,
            Reason::CarriedPlan => 75,
        }
    }
}

// The error of every call that judges what it is handed.
#[derive(Clone, Copy, Debug, PartialEq, Eq)]
pub struct Refusal {
    pub number: u8,
    pub place: Place,
}

impl Refusal {
    // A refusal at a place.
    pub fn at(reason: Reason, place: Place) -> Refusal
        ensures { result ≡ record { number = number_of reason; place = place } }
    {
        let number = reason.number();
        Refusal { number, place }
    }
}

// A refusal that names no place.
impl From<Reason> for Refusal {
    ghost from_gives = { λ reason refusal. refusal ≡ record { number = number_of reason; place = Nowhere } };

    fn from(reason: Reason) -> Refusal {
        Refusal::at(reason, Place::Nowhere)
    }
}

// The printed form of a place.
pub fn print_place(place: Place) -> usize
    ensures whole { result ≡ printed place }
{
    match place {
        Place::Nowhere => 0,
        Place::Byte(at) => at,
        Place::Triple(a, b, c) => 1024 * (a as usize) + 32 * (b as usize) + (c as usize),
        Place::Step(at) => at,
    }
}
