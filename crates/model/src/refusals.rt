// Why a call gives no answer: the question of document 01 or 02 that was answered no.
ghost use Rattle.std.specs.Prelude.{◌≡◌};
ghost use Rattle.model.specs.Refusals.{number};
ghost use Rattle.model.specs.declared.refusals.ListError.TheVariants.{Refused};

// What the question is about. Two questions are not here, since their refusal carries more than a
// number: 13, of a list's room, is in ListError, and 14, of a sheet, has a type beside its reader.
#[derive(Clone, Copy, Debug, PartialEq, Eq)]
pub enum Refusal {
    Cells,
    Processors,
    Block,
    Alignment,
    Array,
    Triplet,
    Ends,
    Processor,
    Element,
    Place,
    Quota,
    Counts,
    Bounds,
    Sizes,
    Grid,
}

impl Refusal {
    // Its number in the documents.
    pub fn number(self) -> u32
        ensures { result ≡ number self }
    {
        match self {
            Refusal::Cells => 1,
            Refusal::Processors => 2,
            Refusal::Block => 3,
            Refusal::Alignment => 4,
            Refusal::Array => 5,
            Refusal::Triplet => 6,
            Refusal::Ends => 7,
            Refusal::Processor => 8,
            Refusal::Element => 9,
            Refusal::Place => 10,
            Refusal::Quota => 11,
            Refusal::Counts => 12,
            Refusal::Bounds => 15,
            Refusal::Sizes => 16,
            Refusal::Grid => 17,
        }
    }
}

// Why nothing was written into a lent list: it is too short for so many entries, which is 13; or
// another question was answered no.
#[derive(Clone, Copy, Debug, PartialEq, Eq)]
pub enum ListError {
    Needs(u64),
    Refused(Refusal),
}

impl From<Refusal> for ListError {
    ghost from_gives = { λ r e. e ≡ Refused r };

    fn from(refusal: Refusal) -> ListError {
        ListError::Refused(refusal)
    }
}
