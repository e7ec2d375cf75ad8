// The client's catalogue sheet: the figures of the files taken so far. A file has a sheet of its own, and a sheet grows by that of one file
// more; specs/Told.antt says what a sheet in code stands for.
#![tactic(auto)]

ghost use Rattle.std.specs.Prelude.{◌≡◌, true, false, [], ◌∷◌, ◌^◌, ◌<◌, ◌≤◌, length, ◌+ℤ◌};
ghost use Rattle.std.proofs.Math.IntN.{sub_ℕ};
ghost use Rattle.format.specs.Table.{unknown};
ghost use Rattle.format.specs.Lines.{lines};
ghost use Rattle.format.specs.Structure.{most_bytes, most_records};
ghost use Rattle.format.specs.Numbering.{records_in};
ghost use Rattle.rules.specs.Tables.{language_size, society_size, category_size, right_table};
ghost use Rattle.rules.specs.Sheet.{Taken as File, answer_to, is_refused, plus, within, plus_each, with_missed, missed_by, sheet_of, with_sheet, add};
ghost use Rattle.tables.specs.Lent.{lent_in};
ghost use Rattle.structure.specs.Cursor.{Here};
ghost use Rattle.figures.specs.Counted.{told, Within, WithinAll, FiguresOf};
ghost use Rattle.sheet.specs.Told.{told_missed, told_of, added_of};

use answers::{Answer, Refusal};
use figures::{Figures, Misses};
use tables::Tables;
use transactions::Lent;
use values::{Share, Tolerance};

// Of a right: the transactions whose total is neither 0 nor the full share.
#[derive(Clone, Copy)]
pub struct Missed {
    pub transactions: u64,
    // The largest of each, and the sum of the signed differences: negative is short.
    pub shortfall: u64,
    pub excess: u64,
    pub sum: i64,
}

#[derive(Clone, Copy)]
pub struct Sheet {
    pub files: u64,
    pub refused: u64,
    pub pr: Missed,
    pub mr: Missed,
    pub sr: Missed,
    // Records by finding and by verdict.
    pub findings: [u64; 64],
    pub verdicts: [u64; 5],
}

// What taking a file leaves: its answer, and the sheet after it.
#[derive(Clone, Copy)]
pub struct Taken {
    pub answer: Answer,
    pub sheet: Sheet,
}

// The most files that a sheet takes.
const MOST_FILES: u64 = 4096;

// Each of some counts by its own of some more. (By index: of elements written through a `zip` of `iter_mut` nothing could be proved.)
fn plus_each(counts: &mut [u64], more: &[u64])
    ensures { counts.new ≡ plus_each counts.old more.now }
{
    for i in 0..counts.len().min(more.len()) {
        counts[i] = counts[i].saturating_add(more[i]);
    }
}

// ---- one right

// A signed difference of two sums.
fn difference(over: u64, short: u64) -> i64
    requires { (over < 2 ^ 63) × (short < 2 ^ 63) }
    ensures { result ≡ sub_ℕ over short }
{
    over as i64 - short as i64
}

impl Missed {
    fn none() -> Missed
        ensures { told_missed result ≡ missed_by [] }
    {
        Missed {
            transactions: 0,
            shortfall: 0,
            excess: 0,
            sum: 0,
        }
    }

    // One file's, as its figures tell them.
    fn of(m: Misses) -> Missed
        requires { Within most_records m }
        ensures { told_missed result ≡ told m }
    {
        Missed {
            transactions: m.transactions,
            shortfall: m.shortfall,
            excess: m.excess,
            sum: difference(m.over, m.short),
        }
    }

    // Sums stop at the largest number, the signed one at the least too.
    fn with(self, m: Missed) -> Missed
        ensures { told_missed result ≡ with_missed (told_missed self) (told_missed m) }
    {
        Missed {
            transactions: self.transactions.saturating_add(m.transactions),
            shortfall: self.shortfall.max(m.shortfall),
            excess: self.excess.max(m.excess),
            sum: self.sum.saturating_add(m.sum),
        }
    }
}

// ---- the figures of a file that is let in

// The tables are indexed once, in slots on the stack.
fn count(file: &[u8], tables: Tables) -> Figures
    requires here { (length file.now ≤ most_bytes) × Here file.now 0 unknown (records_in (lines file.now))
        × (length (records_in (lines file.now)) ≤ most_records) }
    requires right_tables { (right_table language_size tables.languages.now ≡ true) × (right_table society_size tables.societies.now ≡ true)
        × (right_table category_size tables.categories.now ≡ true) }
    ensures { FiguresOf (record {
      tables = lent_in tables.entry;
      file = file.now;
    }) result }
{
    let mut slots = [0u32; tables::SLOTS];
    tables.index(&mut slots);
    let lent = Lent {
        file,
        slots: &slots,
        t: Tolerance {
            hundredths: Share::SLACK,
        },
    };
    counting::count_file(&lent)
}

// ---- the sheet

impl Sheet {
    // Of no file.
    pub fn fresh() -> Sheet
        ensures { told_of result ≡ sheet_of [] }
    {
        let none = Missed::none();
        Sheet {
            files: 0,
            refused: 0,
            pr: none,
            mr: none,
            sr: none,
            findings: [0u64; 64],
            verdicts: [0u64; 5],
        }
    }

    // Of one file that is refused.
    fn of_refused() -> Sheet
        ensures { (x : File) → is_refused (answer_to x) ≡ true → told_of result ≡ sheet_of (x ∷ []) }
    {
        let mut one = Sheet::fresh();
        one.files = 1;
        one.refused = 1;
        one
    }

    // Of one file that passes, by its figures.
    fn of_passed(f: Figures) -> Sheet
        requires { WithinAll most_records f.missing }
        ensures { (x : File) → is_refused (answer_to x) ≡ false → FiguresOf x f → told_of result ≡ sheet_of (x ∷ []) }
    {
        // Not yet covered: an array moved from field to field with no variable between.
        let findings = f.findings;
        let verdicts = f.verdicts;
        Sheet {
            files: 1,
            refused: 0,
            pr: Missed::of(f.missing.pr),
            mr: Missed::of(f.missing.mr),
            sr: Missed::of(f.missing.sr),
            findings,
            verdicts,
        }
    }

    // With those of one file more.
    fn with(mut self, one: Sheet) -> Sheet
        ensures { told_of result ≡ with_sheet (told_of self) (told_of one) }
    {
        self.files = self.files.saturating_add(one.files);
        self.refused = self.refused.saturating_add(one.refused);
        self.pr = self.pr.with(one.pr);
        self.mr = self.mr.with(one.mr);
        self.sr = self.sr.with(one.sr);
        plus_each(&mut self.findings, &one.findings);
        plus_each(&mut self.verdicts, &one.verdicts);
        self
    }

    // One file more: refused by 12 where the sheet is full, else checked with the largest tolerance.
    pub fn take(self, file: &[u8], tables: Tables) -> Taken
        ensures { added_of result ≡ add (told_of self) (record {
          tables = lent_in tables.entry;
          file = file.now;
        }) }
    {
        if MOST_FILES <= self.files {
            return Taken {
                answer: Err(Refusal::Full),
                sheet: self,
            };
        }
        match admission::admit(file, tables, Share::SLACK) {
            Ok(passed) => Taken {
                answer: Ok(passed),
                sheet: self.with(Sheet::of_passed(count(file, tables))),
            },
            Err(refusal) => Taken {
                answer: Err(refusal),
                sheet: self.with(Sheet::of_refused()),
            },
        }
    }
}
