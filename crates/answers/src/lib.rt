// What a call answers: how many groups, transactions and records passed, or a refusal, by its ground. specs/Numbers.antt gives each
// refusal its number and place.
#![tactic(auto)]

ghost use Rattle.std.specs.Prelude.{◌≡◌, ◌≤◌};
ghost use Rattle.answers.specs.Numbers.{ground_of, answer_of};
ghost use Rattle.answers.specs.Packed.{packed_of};

#[derive(Clone, Copy)]
pub enum Refusal {
    // 1, 2: the tolerance; which of the three tables.
    Tolerance,
    Table(usize),
    // 3, 5: too many bytes, too many records.
    Long,
    Many,
    // 4: lines before the faulty one.
    Line(usize),
    // 6 to 9: a record's type or length, its place, its prefix or group number, its totals.
    Shape(usize),
    Place(usize),
    Number(usize),
    Total(usize),
    // 10, 11, 12: HDR's version; an output buffer; a sheet that has taken all the files that it may.
    Version,
    Short,
    Full,
    // 13, 14: the territory table; a transaction's header, whose claims are more than the list has entries.
    Territories,
    Crowded(usize),
}

// How many there are of each in what passed.
#[derive(Clone, Copy)]
pub struct Passed {
    pub groups: u64,
    pub transactions: u64,
    pub records: u64,
}

pub type Answer = Result<Passed, Refusal>;

// The most records that a file may have, and the place of the refusal of more.
pub const MOST_RECORDS: usize = 131072;

impl Refusal {
    // Its number and its place, 0 where it has none. Nowhere else in code is a refusal given its number.
    pub fn told(self) -> (u64, u64)
        ensures number { result.0 ≡ (ground_of self).0 }
        ensures place { result.1 ≡ (ground_of self).1 }
        ensures number_bound { result.0 ≤ 14 }
    {
        let (number, place) = match self {
            Refusal::Tolerance => (1, 0),
            Refusal::Table(i) => (2, i),
            Refusal::Long => (3, 0),
            Refusal::Line(i) => (4, i),
            Refusal::Many => (5, MOST_RECORDS),
            Refusal::Shape(i) => (6, i),
            Refusal::Place(i) => (7, i),
            Refusal::Number(i) => (8, i),
            Refusal::Total(i) => (9, i),
            Refusal::Version => (10, 0),
            Refusal::Short => (11, 0),
            Refusal::Full => (12, 0),
            Refusal::Territories => (13, 0),
            Refusal::Crowded(i) => (14, i),
        };
        (number, place as u64)
    }
}

// An answer in one number: the records that passed, or the refusal's number and its place. A refusal may hold any place, so its last
// 32 bits are taken; within the size limits they are the whole place.
pub fn packed(answer: Answer) -> u64
    ensures { result ≡ packed_of (answer_of answer) }
{
    match answer {
        Ok(passed) => passed.records,
        Err(refusal) => {
            let (number, place) = refusal.told();
            number * 4294967296 + place % 4294967296
        }
    }
}
