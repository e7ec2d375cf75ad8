// The library as C calls it: bytes in and out, and one number for an answer: a refusal's number times 2 to the 32 plus its place, or what
// was asked for, the number of records or of a transaction. include/cwr.h declares these calls.
#![tactic(auto)]

ghost use Rattle.std.specs.Prelude.{◌≡◌, ◌≤◌, length};
ghost use Rattle.format.specs.Bytes.{bytes_of};
ghost use Rattle.rules.specs.Outcome.{short_tolerance};
ghost use Rattle.rules.specs.Tables.{tables_of};
ghost use Rattle.tables.specs.Lent.{lent_in};
ghost use Rattle.territorial.specs.Promises.{over_of};
ghost use Rattle.cwr.specs.Promises.{Counted, Lowest, RightLength};
ghost use Rattle.cwr_c.specs.Promises.{CheckedC, FirstRejectedC, SheetAddedC, NumberedC};
ghost use Rattle.cwr_c.specs.Territories.{over_bytes, ClaimsCheckedC};
ghost use Rattle.cwr_c.specs.Told.{refused_of, packed_claimed, over_left};

use answers::Refusal;
use claims::Claim;
use tables::Tables;
use territorial::{Claimed, Over};

// The short form of the check, for files that go out: without tolerance.
#[unsafe(no_mangle)]
pub extern "C" fn cwr_check(
    file: &[u8],
    languages: &[u8],
    societies: &[u8],
    categories: &[u8],
    verdicts: &mut [u8],
    findings: &mut [u8],
) -> u64
    ensures { CheckedC (tables_of languages.now societies.now categories.now) short_tolerance
        file.now verdicts.old findings.old result verdicts.new findings.new }
{
    let tables = Tables {
        languages,
        societies,
        categories,
    };
    answers::packed(cwr::check_short(file, tables, verdicts, findings))
}

// The check within a tolerance.
#[unsafe(no_mangle)]
pub extern "C" fn cwr_check_within(
    tolerance: u64,
    file: &[u8],
    languages: &[u8],
    societies: &[u8],
    categories: &[u8],
    verdicts: &mut [u8],
    findings: &mut [u8],
) -> u64
    ensures { CheckedC (tables_of languages.now societies.now categories.now) tolerance
        file.now verdicts.old findings.old result verdicts.new findings.new }
{
    let tables = Tables {
        languages,
        societies,
        categories,
    };
    answers::packed(cwr::check(file, tables, tolerance, verdicts, findings))
}

// The first transaction with a TR or GR finding of its own, by its number; 4294967295 where there is none.
#[unsafe(no_mangle)]
pub extern "C" fn cwr_first_rejected(
    tolerance: u64,
    file: &[u8],
    languages: &[u8],
    societies: &[u8],
    categories: &[u8],
) -> u64
    ensures { FirstRejectedC (tables_of languages.now societies.now categories.now) tolerance
        file.now result }
{
    let tables = Tables {
        languages,
        societies,
        categories,
    };
    cwr::packed(cwr::first_rejected(file, tables, tolerance))
}

// Takes one file more on a sheet of 664 bytes, which are all 0 before the first.
#[unsafe(no_mangle)]
pub extern "C" fn cwr_sheet_add(
    sheet: &mut [u8],
    file: &[u8],
    languages: &[u8],
    societies: &[u8],
    categories: &[u8],
) -> u64
    ensures { SheetAddedC sheet.old (record {
      tables = tables_of languages.now societies.now categories.now;
      file = file.now;
    })
        result sheet.new }
{
    if sheet.len() < sheet_bytes::SHEET {
        return answers::packed(Err(Refusal::Short));
    }
    let tables = Tables {
        languages,
        societies,
        categories,
    };
    let before = sheet_bytes::read(sheet);
    let taken = cwr::sheet_add(before, file, tables);
    sheet_bytes::put(taken.sheet, sheet);
    answers::packed(taken.answer)
}

// Numbering.
#[unsafe(no_mangle)]
pub extern "C" fn cwr_number(file: &[u8], out: &mut [u8]) -> u64
    ensures { NumberedC file.now out.old result out.new }
{
    answers::packed(cwr::number(file, out))
}

// How many findings are in a set.
#[unsafe(no_mangle)]
pub extern "C" fn cwr_findings_count(set: u64) -> u32
    ensures { Counted set result }
{
    cwr::count(set)
}

// The lowest of them; 64 where there is none.
#[unsafe(no_mangle)]
pub extern "C" fn cwr_findings_lowest(set: u64) -> u32
    ensures { Lowest set result }
{
    cwr::lowest(set)
}

// How many bytes a record of this one's type has, by its first three bytes; 0 where they are no type.
#[unsafe(no_mangle)]
pub extern "C" fn cwr_record_length(record: &[u8]) -> u32
    ensures { RightLength «record».now result }
{
    cwr::record_length(record)
}

// ---- the check with a territory table

// Where the last buffer is too short: the refusals that come before, and else 11.
fn refuse(file: &[u8], tables: Tables, territories: &[u8], tolerance: u64) -> u64
    ensures { result ≡ refused_of (lent_in tables.entry)
        territories.now tolerance file.now }
{
    match admission::admit_with(file, tables, territories, tolerance) {
        Ok(_) => answers::packed(Err(Refusal::Short)),
        Err(refusal) => answers::packed(Err(refusal)),
    }
}

// The first territory that is over in one word, whose bytes are the transaction's number and then the territory's position.
fn word_of(over: Option<Over>) -> u64
    ensures { bytes_of 8 result ≡ over_bytes (over_of over) }
{
    match over {
        None => u64::MAX,
        Some(first) => {
            let transaction = first.transaction as u64;
            let territory = first.territory as u64;
            transaction % 4294967296 + territory % 4294967296 * 4294967296
        }
    }
}

// The answer in one number; and where it is no refusal, the first territory that is over in eight bytes.
fn tell(r: Result<Claimed, Refusal>, over: &mut [u8]) -> u64
    requires { 8 ≤ length over.old }
    ensures number { result ≡ packed_claimed r }
    ensures left { over.new ≡ over_left r over.old }
{
    match r {
        Ok(claimed) => {
            text::store_eight(word_of(claimed.over), &mut over[..8]);
            answers::packed(Ok(claimed.passed))
        }
        Err(refusal) => answers::packed(Err(refusal)),
    }
}

// The check within a tolerance and with a territory table; a list is lent for the claims of one transaction at a time.
#[unsafe(no_mangle)]
pub extern "C" fn cwr_check_claims(
    tolerance: u64,
    file: &[u8],
    languages: &[u8],
    societies: &[u8],
    categories: &[u8],
    territories: &[u8],
    claims: &mut [Claim],
    verdicts: &mut [u8],
    findings: &mut [u8],
    over: &mut [u8],
) -> u64
    ensures { ClaimsCheckedC (tables_of languages.now societies.now categories.now) territories.now tolerance
        file.now claims.old verdicts.old findings.old over.old result
        claims.new verdicts.new findings.new over.new }
{
    let tables = Tables {
        languages,
        societies,
        categories,
    };
    if over.len() < 8 {
        return refuse(file, tables, territories, tolerance);
    }
    let r = territorial::check(
        file,
        tables,
        territories,
        tolerance,
        claims,
        verdicts,
        findings,
    );
    tell(r, over)
}
