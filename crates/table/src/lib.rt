// The table of rows in the order of use: definitions and laws, for any receiver; and, for every crate that asks one, the questions that a call may be refused by.
#![tactic(auto)]

ghost use Rattle.std.specs.Prelude.{◌≡◌};
ghost use Rattle.table.specs.Refusals.{number_of};

// The question that is answered no, by its number (01, "Seven calls, seven questions"; 8 and 9 are 02's, Items 1 and 3).
#[derive(Clone, Copy)]
pub enum Refusal {
    Sizes = 1,
    NotInOrder = 2,
    NotHeld = 3,
    Degrees = 4,
    NoSite = 5,
    TooOld = 6,
    NeverJudged = 7,
    Turn = 8,
    TooSoon = 9,
}

impl Refusal {
    // No `From<Refusal> for u8`: 01 calls it the question's number, and so does the code (d).
    pub fn number(self) -> u8
        ensures { result ≡ number_of self }
    {
        self as u8
    }
}
