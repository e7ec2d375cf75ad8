// The library: the calls that are open to others. Each takes whatever it is lent, and its contract states the entire outcome, by one of the
// promises in specs/Promises.antt.
#![tactic(auto)]

ghost use Rattle.std.specs.Prelude.{◌≡◌, true, ◌≤◌, length};
ghost use Rattle.format.specs.Lent.{in_room};
ghost use Rattle.format.specs.Structure.{most_bytes, most_records};
ghost use Rattle.format.specs.Table.{unknown};
ghost use Rattle.rules.specs.Tables.{language_size, society_size, category_size, right_table};
ghost use Rattle.rules.specs.Values.{largest_tolerance};
ghost use Rattle.rules.specs.Records.{any};
ghost use Rattle.rules.specs.Outcome.{enough, content, short_tolerance};
ghost use Rattle.rules.specs.First.{is_grave, first_at};
ghost use Rattle.rules.specs.Claims.{sets_by_transaction};
ghost use Rattle.answers.specs.Numbers.{answer_of};
ghost use Rattle.tables.specs.Lent.{lent_in};
ghost use Rattle.structure.specs.Cursor.{Here};
ghost use Rattle.transactions.specs.Walk.{rest_at, Room};
ghost use Rattle.files.specs.Levels.{WrittenFile};
ghost use Rattle.sheet.specs.Told.{told_of};
ghost use Rattle.search.specs.Levels.{in_file};
ghost use Rattle.cwr.specs.First.{rules_first};
ghost use Rattle.cwr.specs.Packed.{packed_first};
ghost use Rattle.cwr.specs.Promises.{Checked, FirstRejected, SheetTaken, Numbered, Counted, Lowest, RightLength};

use answers::{Answer, Refusal};
use sheet::{Sheet, Taken};
use tables::Tables;
use transactions::Lent;
use values::{Share, Tolerance};

// ---- a search through a file that passed, with its tables

// The tables are indexed once, in slots on the stack.
fn seek(file: &[u8], tables: Tables, tolerance: Tolerance) -> Option<usize>
    requires here { (length file.now ≤ most_bytes) × Here file.now 0 unknown (rest_at file.now 0)
        × (length (rest_at file.now 0) ≤ most_records) }
    requires right_tables { (right_table language_size tables.languages.now ≡ true) × (right_table society_size tables.societies.now ≡ true)
        × (right_table category_size tables.categories.now ≡ true) }
    ensures { in_file result ≡ first_at (any is_grave)
        (sets_by_transaction (lent_in tables.entry) tolerance (content file.now)) }
{
    let mut slots = [0u32; tables::SLOTS];
    tables.index(&mut slots);
    let lent = Lent {
        file,
        slots: &slots,
        t: tolerance,
    };
    search::search(&lent)
}

// ---- the calls

// Checks a file. Refused, it has written nothing; passed, each record has its verdict byte and its eight bytes of findings.
pub fn check(
    file: &[u8],
    tables: Tables,
    tolerance: u64,
    verdicts: &mut [u8],
    findings: &mut [u8],
) -> Answer
    ensures { Checked (lent_in tables.entry) tolerance
        file.now verdicts.old findings.old result verdicts.new findings.new }
{
    let admitted = admission::admit(file, tables, tolerance);
    let passed = admission::in_room(admitted, verdicts.len(), findings.len())?;
    let tolerance = Tolerance {
        hundredths: tolerance,
    };
    files::judge(file, tables, tolerance, verdicts, findings);
    Ok(passed)
}

// The short form, for files that go out: without tolerance, and so never refused by 1.
pub fn check_short(file: &[u8], tables: Tables, verdicts: &mut [u8], findings: &mut [u8]) -> Answer
    ensures { Checked (lent_in tables.entry) short_tolerance
        file.now verdicts.old findings.old result verdicts.new findings.new }
{
    check(file, tables, Share::EXACT, verdicts, findings)
}

// What is answered of the first work to look at: a refusal as the check's, or the transaction's number, counted from 0 over the whole file;
// none where no record of the file has a TR or GR finding. specs/First.antt gives each case its number.
pub type First = Result<Option<usize>, Refusal>;

// In one number.
pub fn packed(first: First) -> u64
    ensures { result ≡ packed_first (rules_first first) }
{
    match first {
        Err(refusal) => answers::packed(Err(refusal)),
        Ok(None) => 4294967295,
        Ok(Some(transaction)) => transaction as u64,
    }
}

// The first transaction with a TR or GR finding of its own. Nothing is written, and no later transaction is judged.
pub fn first_rejected(file: &[u8], tables: Tables, tolerance: u64) -> First
    ensures { FirstRejected (lent_in tables.entry) tolerance
        file.now result }
{
    admission::admit(file, tables, tolerance)?;
    let tolerance = Tolerance {
        hundredths: tolerance,
    };
    Ok(seek(file, tables, tolerance))
}

// Takes one file more on a sheet, which is `Sheet::fresh()` before the first.
pub fn sheet_add(sheet: Sheet, file: &[u8], tables: Tables) -> Taken
    ensures { SheetTaken (told_of sheet) (lent_in tables.entry)
        file.now result }
{
    sheet.take(file, tables)
}

// Numbers a file into out.
pub fn number(file: &[u8], out: &mut [u8]) -> Answer
    ensures { Numbered file.now out.old result out.new }
{
    numbering::number(file, out)
}

// How many findings are in a record's set.
pub fn count(set: u64) -> u32
    ensures { Counted set result }
{
    findings::count(set)
}

// The lowest of them; 64 where there is none.
pub fn lowest(set: u64) -> u32
    ensures { Lowest set result }
{
    findings::lowest(set)
}

// How many bytes a record of this one's type has, by its first three bytes; 0 where they are no type.
pub fn record_length(record: &[u8]) -> u32
    ensures { RightLength «record».now result }
{
    let row = kinds::row_of(record);
    row.length as u32
}
