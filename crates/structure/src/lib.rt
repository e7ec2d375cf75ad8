// Refusals 3 to 10 over a lent file. A right file is decided by one walk that jumps from record to record by the rows' lengths. It
// stops at the first doubt, and only then plain scans look for the refusal and its place, from there on.
#![tactic(auto)]

ghost use Rattle.std.specs.Prelude.{◌≡◌, Bool, true, cond, not, ◌&&◌, ◌||◌, ◌+◌, ◌≤◌, eqb, length, take, drop};
ghost use Rattle.format.specs.Bytes.{same_bytes};
ghost use Rattle.format.specs.Table.{trl, known, at, width};
ghost use Rattle.format.specs.Cwr22.{cwr22, version22};
ghost use Rattle.format.specs.Lines.{lines};
ghost use Rattle.format.specs.Checks.{is, may_follow, closes, slot, expected, typed};
ghost use Rattle.format.specs.Structure.{unless, most_bytes, structure};
ghost use Rattle.format.specs.Numbering.{numbering, records_in};
ghost use Rattle.answers.specs.Numbers.{answer_of};
ghost use Rattle.kinds.specs.Rows.{class_in, row_for};
ghost use Rattle.counts.specs.Counting.{counts_in, Kept, CanGrow};
ghost use Rattle.structure.specs.Rest.{faultless, judged_from, rest_from, more_faults, at_end, is_good};
ghost use Rattle.structure.specs.Walk.{Roomy, Bounded, Stood, RightAt, Next, fault_in, faults_of};

use answers::{Answer, MOST_RECORDS, Passed, Refusal};
use counts::Counts;
use kinds::{Class, Row};

mod standing;

pub use standing::Stand;

// The places of the first faults by 7, 8 and 9 that were met.
#[derive(Clone, Copy)]
pub struct FirstFaults {
    pub seven: Option<usize>,
    pub eight: Option<usize>,
    pub nine: Option<usize>,
}

const MOST_BYTES: usize = 16777216;

// Whether a record of class c may stand after one of class p.
fn follows(p: Class, c: Class) -> bool
    ensures { result ≡ may_follow (class_in p) (class_in c) }
{
    matches!(
        (p, c),
        (Class::Unknown, Class::Hdr)
            | (Class::Hdr, Class::Grh)
            | (Class::Grh, Class::Head)
            | (
                Class::Head | Class::Detail,
                Class::Head | Class::Detail | Class::Grt
            )
            | (Class::Grt, Class::Grh | Class::Trl)
    )
}

// Where HDR has its version and its revision, three bytes each.
const VERSION: usize = 102;

const REVISION: usize = 105;

// 10: HDR's version and revision.
#[tactic(auto, unfolding(format::specs::Cwr22::version22))]
fn version(record: &[u8]) -> bool
    ensures { result ≡ version22 «record».now }
{
    let version = text::part(record, VERSION, 3);
    let revision = text::part(record, REVISION, 3);
    text::is_three(version, b'2', b'.', b'2')
        & text::digits(revision)
        & (text::number(revision) <= 2)
}

impl Stand {
    // After one record more, of that length and class. (Not of a row: where one is handed on, the compiler keeps it in memory.)
    pub fn after_record(self, length: u16, class: Class) -> Stand
        requires { self.at ≤ most_bytes }
        ensures { Next self length class result }
    {
        Stand {
            at: self.at + usize::from(length) + 2,
            class,
            counts: self.counts.with(class),
        }
    }
}

// Whether the record carries its numbers, where they are asked for.
fn numbered(asked: bool, counts: Counts, class: Class, record: &[u8]) -> bool
    requires { (CanGrow counts) × (at (class_in class) + width (class_in class) ≤ length «record».now) }
    ensures { result ≡ (not asked || same_bytes (slot (class_in class) «record».now) (expected (counts_in counts) (class_in class))) }
{
    !asked || counts.holds(class, record)
}

// ---- the walk

// Whether the record of that row which stands here is whole, and right in all that is asked. Where it says no, the
// record may still be right: the scans look at it again.
fn right(file: &[u8], asked: bool, s: Stand, row: Row) -> bool
    requires { (Bounded file.now s) × (length file.now ≤ most_bytes) × (Roomy row) }
    ensures { result ≡ true → RightAt file.now asked s row }
{
    let length = row.size();
    if file.len() - s.at < length + 2 {
        return false;
    }
    let end = s.at + length;
    let record = &file[s.at..end];
    // By & and not by &&: no branch between tests that nearly always hold.
    kinds::is_type(row, record[0], record[1], record[2])
        & lines::pair_at(file, end)
        & lines::all_text(record)
        & follows(s.class, row.class)
        & numbered(asked, s.counts, row.class, record)
}

// How far a file is right. A loop over a place and no `for`: each record's row says where the next record begins.
fn walk(file: &[u8], asked: bool) -> Stand
    requires { length file.now ≤ most_bytes }
    ensures { Stood file.now asked result }
{
    let rows = kinds::table();
    let mut s = Stand::start();
    loop {
        let [a, b, c, ..] = &file[s.at..] else {
            return s;
        };
        let row = rows[kinds::hint(*a, *b, *c)];
        if !right(file, asked, s, row) {
            return s;
        }
        s = s.after_record(row.length, row.class);
    }
}

// ---- the scans for a refusal and its place

// A fault at a place, unless the test passes.
fn unless(ok: bool, place: usize) -> Option<usize>
    ensures { fault_in result ≡ unless ok place }
{
    if ok { None } else { Some(place) }
}

// Whether it is the class of some type.
fn known(class: Class) -> bool
    ensures { result ≡ known (class_in class) }
{
    !matches!(class, Class::Unknown)
}

// 6: a known type, and its length.
fn shaped(row: Row, record: &[u8]) -> bool
    ensures { result ≡ (known (class_in row.class) && eqb (length «record».now) row.length) }
{
    known(row.class) & (record.len() == row.size())
}

// GRT and TRL close a group and the file.
fn closes(class: Class) -> bool
    ensures { result ≡ closes (class_in class) }
{
    matches!(class, Class::Grt | Class::Trl)
}

// The faults met with this record, which is of that row and right by 6.
fn more(asked: bool, s: Stand, m: FirstFaults, record: &[u8], row: Row) -> FirstFaults
    requires records_bound { s.counts.records ≤ most_bytes }
    requires row_value { (row ≡ row_for (take 3 «record».now)) × (typed cwr22 «record».now ≡ true) }
    ensures { faults_of result ≡ more_faults cwr22 asked (faults_of m) (class_in s.class) (counts_in s.counts) «record».now }
{
    let place = s.counts.records as usize;
    let held = numbered(asked, s.counts, row.class, record);
    let closes = closes(row.class);
    FirstFaults {
        seven: m.seven.or(unless(follows(s.class, row.class), place)),
        eight: m.eight.or(unless(closes | held, place)),
        nine: m.nine.or(unless(!closes | held, place)),
    }
}

fn is_trailer(class: Class) -> bool
    ensures { result ≡ is trl (class_in class) }
{
    matches!(class, Class::Trl)
}

// What is left to say after the last record.
#[tactic(auto, using(crate::proofs::Faults::fault_unless), unfolding(crate::specs::Rest::at_end))]
fn ended(version: bool, s: Stand, m: FirstFaults) -> Answer
    ensures { (asked : Bool) → answer_of result ≡ at_end cwr22 asked version (faults_of m) (class_in s.class) (counts_in s.counts) }
{
    let counts = s.counts;
    let last = unless(is_trailer(s.class), counts.records as usize);
    if let Some(place) = m.seven.or(last) {
        return Err(Refusal::Place(place));
    }
    if let Some(place) = m.eight {
        return Err(Refusal::Number(place));
    }
    if let Some(place) = m.nine {
        return Err(Refusal::Total(place));
    }
    if !version {
        return Err(Refusal::Version);
    }
    Ok(Passed {
        groups: counts.groups,
        transactions: counts.transactions,
        records: counts.records,
    })
}

// 6 to 10, from here on, where the lines are good. The loop is over a place, as in `walk`.
fn judge(file: &[u8], asked: bool, version: bool, start: Stand) -> Answer
    requires { (Bounded file.now start) × (length file.now ≤ most_bytes) × (is_good (lines (drop start.at file.now)) ≡ true) }
    ensures { answer_of result ≡ judged_from cwr22 asked version faultless (class_in start.class) (counts_in start.counts)
        (records_in (lines (drop start.at file.now))) }
{
    let mut s = start;
    let mut m = FirstFaults {
        seven: None,
        eight: None,
        nine: None,
    };
    while s.at < file.len() {
        let end = lines::text_end(file, s.at);
        let record = &file[s.at..end];
        let row = kinds::row_of(record);
        if !shaped(row, record) {
            return Err(Refusal::Shape(s.counts.records as usize));
        }
        m = more(asked, s, m, record, row);
        s = s.after_record(row.length, row.class);
    }
    ended(version, s, m)
}

// 4 to 10, from here on.
fn scan(file: &[u8], asked: bool, version: bool, s: Stand) -> Answer
    requires { (Bounded file.now s) × (length file.now ≤ most_bytes) }
    ensures { answer_of result ≡ rest_from cwr22 asked version (class_in s.class) (counts_in s.counts) (drop s.at file.now) }
{
    let n = lines::lines_from(file, s.at, s.counts.records as usize).map_err(Refusal::Line)?;
    if MOST_RECORDS < n {
        return Err(Refusal::Many);
    }
    judge(file, asked, version, s)
}

// ---- the whole file

// With its numbers asked for or not.
fn answer(file: &[u8], asked: bool) -> Answer
    ensures { answer_of result ≡ cond asked (structure cwr22 file.now) (numbering cwr22 file.now) }
{
    if MOST_BYTES < file.len() {
        return Err(Refusal::Long);
    }
    let end = lines::text_end(file, 0);
    let good = version(&file[0..end]);
    let s = walk(file, asked);
    scan(file, asked, good, s)
}

// Refusals 3 to 10.
pub fn check(file: &[u8]) -> Answer
    ensures { answer_of result ≡ structure cwr22 file.now }
{
    answer(file, true)
}

// Refusals 3 to 7 and 10, which numbering asks for.
pub fn check_places(file: &[u8]) -> Answer
    ensures { answer_of result ≡ numbering cwr22 file.now }
{
    answer(file, false)
}
