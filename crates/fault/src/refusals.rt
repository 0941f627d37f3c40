// Refusals by their names. What cannot be refused answers no Result; what can says why, and where there is one, the place.
ghost use Rattle.std.specs.Prelude.{◌≡◌, ℕ, ◌<◌};
ghost use Rattle.fault.specs.Fault.{first_fault};
ghost use Rattle.fault.specs.Refusals.{number_of, code, told, nothing_by, answer_of};

use crate::Answer;

// What is refused, each with its number in the outline.
#[derive(Clone, Copy, Debug, PartialEq, Eq)]
pub enum Refusal {
    // the table
    TableShort = 1,
    CountsOutside = 2,
    DistancesOff = 3,
    StateOff = 4,
    NoInitial = 5,
    NoState = 6,
    Forgets = 7,
    SendsTwo = 8,
    DivisorOff = 9,
    // the bundle
    BundleShort = 10,
    OutOfBundle = 11,
    NotAdmitted = 12,
    StepsOff = 13,
    NotInitial = 14,
    // a step
    NoBoard = 20,
    NoRule = 21,
    OtherState = 22,
    Malformed = 23,
    NotInTransit = 24,
    NotMet = 25,
    Stopped = 26,
    MayNotStop = 27,
    // a call
    LentShort = 30,
    OtherForm = 31,
    Divides = 32,
    SameEdition = 33,
    TooDeep = 34,
    NotCounting = 35,
    // a log
    WrongLine = 50,
    TooManyLines = 51,
    NotEmpty = 52,
    // a drawing
    NoDrawing = 60,
    DrawingShort = 61,
    // a list
    Unfit = 70,
    OutOfRange = 71,
    NotListed = 72,
    LeadsOut = 73,
    Accepts = 74,
}

impl Refusal {
    pub fn number(self) -> usize
        ensures { result ≡ number_of self }
    {
        self as usize
    }

    // At a place.
    pub fn at(self, place: usize) -> Refused
        ensures { result ≡ record { refusal = self; place = place } }
    {
        Refused {
            refusal: self,
            place,
        }
    }
}

// A refusal and its place.
#[derive(Clone, Copy, Debug, PartialEq, Eq)]
pub struct Refused {
    pub refusal: Refusal,
    pub place: usize,
}

// The refusal at the lowest of the places below n that have one.
pub fn lowest<F: Fn(usize) -> Result<(), Refusal>>(n: usize, fault_at: F) -> Result<(), Refused>
    requires { (i : ℕ) → i < n → F.pre fault_at i }
    ensures { (f : ℕ → ℕ) → ((i : ℕ) (r : _) → i < n → F.post fault_at i r → code r ≡ f i) → told result ≡ first_fault f n }
{
    for place in 0..n {
        if let Err(refusal) = fault_at(place) {
            return Err(Refused { refusal, place });
        }
    }
    Ok(())
}

// The answer of a call that is refused before anything is done.
impl From<Refused> for Answer {
    ghost from_gives = { λ e a. a ≡ nothing_by e };

    fn from(refused: Refused) -> Answer {
        crate::answered(refused.refusal.number(), refused.place, 0)
    }
}

// The answer of a call that gives a count, or is refused and counts nothing.
impl From<Result<usize, Refused>> for Answer {
    ghost from_gives = { λ r a. a ≡ answer_of r };

    fn from(counted: Result<usize, Refused>) -> Answer {
        match counted {
            Ok(count) => crate::answered(0, 0, count),
            Err(refused) => Answer::from(refused),
        }
    }
}
