// The listing of a file, written into a lent buffer: one line for the answer of the check, then one for each record of a file that passes.
#![tactic(auto)]

ghost use Rattle.std.specs.Prelude.{◌≡◌, true, [], ◌∷◌, ◌++◌, ◌+◌, ◌*◌, ◌<◌, ◌≤◌, length, drop};
ghost use Rattle.format.specs.Lines.{lines};
ghost use Rattle.format.specs.Structure.{refused};
ghost use Rattle.format.specs.Numbering.{records_in};
ghost use Rattle.rules.specs.Findings.{places};
ghost use Rattle.rules.specs.Values.{largest_tolerance};
ghost use Rattle.rules.specs.Listing.{without_zeros, figure, lowest_word, record_line, answer_line, listed_after, listed, listing_tables};
ghost use Rattle.answers.specs.Numbers.{answer_of, is_passed};
ghost use Rattle.lister.specs.Promises.{Listed};
ghost use Rattle.lister.specs.Put.{Room, Put, Adds};
ghost use Rattle.lister.specs.Read.{Listable, line_at, lines_from};

use answers::{Answer, MOST_RECORDS, Passed};
use tables::Tables;
use values::Share;

const SPACE: u8 = b' ';

const LF: u8 = b'\n';

// How many zeros stand before the digits that are written: all that do, but not the last digit.
fn zeros(digits: &[u8]) -> usize
    ensures digits_value { drop result digits.now ≡ without_zeros digits.now }
    ensures upper_bound { result ≤ length digits.now }
{
    let last = digits.len().saturating_sub(1);
    digits[..last]
        .iter()
        .position(|d| *d != b'0')
        .unwrap_or(last)
}

// A lent buffer, and how many of its bytes are written. Each method writes on.
#[derive(Drop)]
struct Page<'a> {
    out: &'a mut [u8],
    at: usize,
}

impl<'a> Page<'a> {
    // ---- words

    // A word, and the byte that stands after it.
    fn word(&mut self, word: &[u8], end: u8)
        requires { Room (length word.now + 1) self.old }
        ensures { Adds (length word.now + 1) (word.now ++ end ∷ []) self.old self.new }
    {
        let e = self.at + word.len();
        self.out[self.at..e].copy_from_slice(word);
        self.out[e] = end;
        self.at = e + 1;
    }

    // A number, and the byte that stands after it.
    fn figure(&mut self, n: u64, end: u8)
        requires { Room 11 self.old }
        ensures { Adds 11 (figure n ++ end ∷ []) self.old self.new }
    {
        let mut digits = [0u8; 10];
        text::decimal(n, &mut digits);
        let from = zeros(&digits);
        self.word(&digits[from..], end);
    }

    // ---- the line of a record

    // The last word of a record's line, and LF.
    fn lowest(&mut self, set: u64)
        requires { Room 11 self.old }
        ensures { Adds 11 (lowest_word (places 64 set) ++ 10 ∷ []) self.old self.new }
    {
        let count = findings::count(set);
        let lowest = findings::lowest(set);
        if count == 0 {
            self.word(b"-", LF);
        } else {
            self.figure(u64::from(lowest), LF);
        }
    }

    // The line of the record with that number, those three bytes of type, that verdict and that set of findings.
    fn record_line(&mut self, number: u64, kind: &[u8], verdict: u64, set: u64)
        requires { (length kind.now ≡ 3) × Room 48 self.old }
        ensures { Adds 48 (record_line number kind.now verdict (places 64 set)) self.old self.new }
    {
        self.figure(number, SPACE);
        self.word(kind, SPACE);
        self.figure(verdict, SPACE);
        self.figure(u64::from(findings::count(set)), SPACE);
        self.lowest(set);
    }

    // ---- the line of the answer

    fn refused(&mut self, number: u64, place: u64)
        requires { Room 64 self.old }
        ensures { Adds 64 (answer_line (refused number place)) self.old self.new }
    {
        self.word(b"REFUSED", SPACE);
        self.figure(number, SPACE);
        self.figure(place, LF);
    }

    fn passed(&mut self, passed: Passed)
        requires { Room 64 self.old }
        ensures { Adds 64 (answer_line (answer_of (Ok passed))) self.old self.new }
    {
        self.word(b"GROUPS", SPACE);
        self.figure(passed.groups, SPACE);
        self.word(b"TRANSACTIONS", SPACE);
        self.figure(passed.transactions, SPACE);
        self.word(b"RECORDS", SPACE);
        self.figure(passed.records, LF);
    }

    // The first line.
    fn answer(&mut self, a: Answer)
        requires { Room 64 self.old }
        ensures { Adds 64 (answer_line (answer_of a)) self.old self.new }
    {
        match a {
            Ok(passed) => self.passed(passed),
            Err(refusal) => {
                let (number, place) = refusal.told();
                self.refused(number, place);
            }
        }
    }

    // ---- the lines of the records

    // The line of the record of that number, which stands there.
    fn line(&mut self, file: &[u8], at: usize, number: usize, verdicts: &[u8], findings: &[u8])
        requires { (at + 3 ≤ length file.now) × (number < length verdicts.now) × (8 * (number + 1) ≤ length findings.now)
            × Room 48 self.old }
        ensures { Adds 48 (line_at file.now at number verdicts.now findings.now) self.old self.new }
    {
        let start = 8 * number;
        let set = text::load_eight(&findings[start..start + 8]);
        self.record_line(
            number as u64,
            &file[at..at + 3],
            u64::from(verdicts[number]),
            set,
        );
    }

    // A line for each record.
    fn records(&mut self, file: &[u8], verdicts: &[u8], findings: &[u8])
        requires { Listable file.now verdicts.now findings.now × Room (10 * length file.now) self.old }
        ensures { Put (lines_from verdicts.now findings.now 0 (records_in (lines file.now))) self.old self.new }
    {
        let mut at = 0;
        let mut number = 0;
        while at < file.len() {
            self.line(file, at, number, verdicts, findings);
            at = lines::text_end(file, at) + 2;
            number += 1;
        }
    }

    // ---- the whole

    // The listing of a file that has this answer and, where it passes, what the check left in the two buffers.
    fn outcome(&mut self, file: &[u8], answer: Answer, verdicts: &[u8], findings: &[u8])
        requires { (is_passed (answer_of answer) ≡ true → Listable file.now verdicts.now findings.now)
            × Room (64 + 10 * length file.now) self.old }
        ensures { Put (answer_line (answer_of answer) ++ listed_after (answer_of answer)
            (lines_from verdicts.now findings.now 0 (records_in (lines file.now))))
            self.old self.new }
    {
        self.answer(answer);
        if let Ok(_) = answer {
            self.records(file, verdicts, findings);
        }
    }

    // The listing of a file that is not too long, by a check with the program's tables and tolerance. The buffers are lent as arrays, so
    // that their lengths are known by their types: no file has too many records for them.
    fn checked(
        &mut self,
        file: &[u8],
        verdicts: &mut [u8; MOST_RECORDS],
        findings: &mut [u8; 8 * MOST_RECORDS],
    )
        requires { Room (64 + 10 * length file.now) self.old }
        ensures { Put (listed listing_tables largest_tolerance file.now) self.old self.new }
    {
        let tables = Tables {
            languages: b"ENFRDE",
            societies: b"035044058",
            categories: b"POPJAZSER",
        };
        let answer = cwr::check(file, tables, Share::SLACK, verdicts, findings);
        self.outcome(file, answer, verdicts, findings);
    }
}

// The most bytes that are read, and what holds the listing of as many: a first line of at most 64 bytes, and ten for each that was read,
// since a record and its CR LF are five bytes at least, and its line is 48 at most.
pub const MOST_INPUT: usize = 65536;

pub const LISTING: usize = 64 + 10 * MOST_INPUT;

// The listing of an input, at the front of out; how many bytes it has.
pub fn list(input: &[u8], out: &mut [u8; LISTING]) -> usize
    ensures { Listed input.now out.old result out.new }
{
    let mut page = Page { out, at: 0 };
    if MOST_INPUT < input.len() {
        page.word(b"INPUT TOO LONG", LF);
        return page.at;
    }
    let mut verdicts = [0u8; MOST_RECORDS];
    let mut findings = [0u8; 8 * MOST_RECORDS];
    page.checked(input, &mut verdicts, &mut findings);
    page.at
}
