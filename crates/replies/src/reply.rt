ghost use Rattle.std.specs.Prelude.{◌≡◌};
ghost use Rattle.replies.specs.Replies.{refusal_number, at_first};

use values::versions::EventVersion;

// Why a call refuses: the question that is answered no.
#[derive(Clone, Copy, Debug, PartialEq, Eq)]
pub enum Refusal {
    // an output or a scratch buffer is smaller than its least size
    SmallBuffer,
    // the table breaks a rule
    BadTable,
    // the input does not read by its layout to its exact end
    BadInput,
    // the table does not have the input's type
    UnknownType,
    // places are not present, single or marked as the type has them
    BadShape,
    // a value is not in its space
    BadValue,
    // two inputs do not agree in type, source and match sets
    Disagreement,
    // all together is not inside the limits
    OverLimits,
    // the batch does not read to its exact end
    BadBatch,
    // a chosen limit is outside its range
    BadLimits,
}

impl Refusal {
    // The number that the papers give the question.
    pub fn number(self) -> u8
        ensures { result ≡ refusal_number self }
    {
        match self {
            Refusal::SmallBuffer => 1,
            Refusal::BadTable => 2,
            Refusal::BadInput => 3,
            Refusal::UnknownType => 4,
            Refusal::BadShape => 5,
            Refusal::BadValue => 6,
            Refusal::Disagreement => 7,
            Refusal::OverLimits => 8,
            Refusal::BadBatch => 9,
            Refusal::BadLimits => 18,
        }
    }
}

// What opening finds in place of a merged event: the event version and the place of a conflict, or an overfull place.
#[derive(Clone, Copy, Debug, PartialEq, Eq)]
pub enum Finding {
    Conflict(EventVersion, usize),
    Overfull(usize),
}

// The length of the merged event, or what opening finds in place of one.
#[derive(Clone, Copy, Debug, PartialEq, Eq)]
pub enum Opened {
    Merged(usize),
    Found(Finding),
}

// A batch is refused by a question, and the position of the event that it was asked of.
#[derive(Clone, Copy, Debug, PartialEq, Eq)]
pub struct BatchRefusal {
    pub refusal: Refusal,
    pub position: usize,
}

impl From<Refusal> for BatchRefusal {
    ghost from_gives = { λ q r. r ≡ at_first q };

    // A question of the whole batch has the position 0.
    fn from(refusal: Refusal) -> BatchRefusal {
        BatchRefusal {
            refusal,
            position: 0,
        }
    }
}
