// The refusals of document 01 and of the requests, under its numbers (docs/REFUSALS.md). A name says the condition.
#[derive(Clone, Copy, PartialEq, Eq)]
pub enum Refusal {
    SizeOutside = 1,
    FewBuckets = 2,
    Shrinks = 3,
    Unchanged = 4,
    BlocksFull = 5,
    BucketPast = 6,
    NoneThere = 7,
    IntervalsFull = 8,
    OrderPast = 9,
    NoMap = 10,
    HeaderWrong = 11,
    TopsWrong = 12,
    EndsWrong = 13,
    BlocksWrong = 14,
    HoldingsWrong = 15,
    AdjustmentsWrong = 16,
    RoomShort = 21,
    Unreadable = 23,
    CapacityWrong = 30,
    Overfills = 31,
    Falls = 32,
    ResultShort = 33,
    SheetShort = 34,
    WordsShort = 40,
    MarkPast = 41,
    BitsShort = 42,
}

impl Refusal {
    ghost use Rattle.std.specs.Prelude.{◌≡◌};
    ghost use Rattle.model.specs.Results.{number};

    // Its number, which is never 0.
    pub fn number(self) -> u32
        ensures { result ≡ number self }
    {
        self as u32
    }
}
