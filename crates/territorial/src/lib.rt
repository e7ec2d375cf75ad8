// The check with a territory table (M-105), as the library offers it. The check without one fills the buffers; then the file's claims are
// walked over, and of each transaction in doubt listed and counted. It stands apart from the library's other calls, because it alone is lent a
// list of structs.
#![tactic(auto)]

ghost use Rattle.std.specs.Prelude.{◌≡◌, ℕ, ◌<◌, ◌≤◌, length};
ghost use Rattle.format.specs.Bytes.{Bytes};
ghost use Rattle.format.specs.Table.{unknown};
ghost use Rattle.format.specs.Structure.{most_bytes, most_records};
ghost use Rattle.rules.specs.Tables.{Tables as LentTables};
ghost use Rattle.rules.specs.Outcome.{enough};
ghost use Rattle.rules.specs.WithTerritories.{answer_with, in_list};
ghost use Rattle.answers.specs.Numbers.{answer_of};
ghost use Rattle.tables.specs.Lent.{lent_in};
ghost use Rattle.structure.specs.Cursor.{Here};
ghost use Rattle.transactions.specs.Walk.{rest_at};
ghost use Rattle.collection.specs.Walk.{steps_left};
ghost use Rattle.territorial.specs.Promises.{Checked};
ghost use Rattle.territorial.specs.Progress.{Passes, Going, Doubted, start_walk, Counted};

use answers::{Answer, Passed, Refusal};
use claims::Claim;
pub use collection::Over;
use collection::{Sought, Walk};
use tables::Tables;
use values::Tolerance;

// What is told of a file that passes.
#[derive(Clone, Copy)]
pub struct Claimed {
    pub passed: Passed,
    pub over: Option<Over>,
}

// ---- refusals

// 14, last of all. A list with an entry for each record has room for any transaction's claims.
fn in_list(file: &[u8], answer: Answer, room: usize) -> Answer
    requires { Counted file.now (answer_of answer) }
    ensures { answer_of result ≡ in_list room (rest_at file.now 0) (answer_of answer) }
{
    let passed = answer?;
    if passed.records <= room as u64 {
        return Ok(passed);
    }
    match crowds::first_crowded(file, room) {
        None => Ok(passed),
        Some(place) => Err(Refusal::Crowded(place)),
    }
}

// 1 and 2, 13, 3 to 11, and 14: for a list of so many entries, and buffers of so many bytes.
fn answer(
    file: &[u8],
    tables: Tables,
    territories: &[u8],
    tolerance: u64,
    room: usize,
    verdicts: usize,
    findings: usize,
) -> Answer
    ensures { answer_of result ≡ answer_with (lent_in tables.entry)
        territories.now tolerance file.now (enough verdicts findings) room }
{
    let admitted = admission::admit_with(file, tables, territories, tolerance);
    let roomy = admission::in_room(admitted, verdicts, findings);
    in_list(file, roomy, room)
}

// ---- from one transaction in doubt to the next

fn start() -> Walk
    ensures { result ≡ start_walk }
{
    Walk {
        at: 0,
        index: 0,
        number: 0,
        over: None,
        header: 0,
    }
}

// The check without territories of a file that passes, and the walk to the first transaction in doubt.
fn begin(
    file: &[u8],
    tables: Tables,
    territories: &[u8],
    tolerance: u64,
    verdicts: &mut [u8],
    findings: &mut [u8],
) -> Sought
    requires { (room : ℕ) × Passes (lent_in tables) territories.now tolerance
        file.now (length verdicts.old) (length findings.old) room }
    ensures { (room : ℕ) → Passes (lent_in tables.entry) territories.now tolerance
        file.now (length verdicts.old) (length findings.old) room
        → Going (lent_in tables.entry) territories.now tolerance
        file.now room verdicts.old findings.old result verdicts.new findings.new }
{
    let most = Tolerance {
        hundredths: tolerance,
    };
    files::judge(file, tables, most, verdicts, findings);
    collection::seek(file, territories, tolerance, start(), verdicts, findings)
}

// The transaction in doubt is settled by what its claims come to; then the walk to the next.
fn go_on(
    file: &[u8],
    territories: &[u8],
    tolerance: u64,
    s: Sought,
    over: usize,
    verdicts: &mut [u8],
    findings: &mut [u8],
) -> Sought
    requires { Doubted territories.now tolerance file.now s over verdicts.old findings.old }
    ensures going { (tables : LentTables) (room : ℕ) (v₀ g₀ : Bytes)
        → Going tables territories.now tolerance file.now room v₀ g₀ s verdicts.old findings.old
        → Going tables territories.now tolerance file.now room v₀ g₀ result verdicts.new findings.new }
    ensures fewer_steps { steps_left file.now result < steps_left file.now s }
{
    let settled = collection::settle(territories, s.walk, over, verdicts, findings);
    collection::seek(file, territories, tolerance, settled, verdicts, findings)
}

// ---- the call

// Checks a file with a territory table. Refused, it has written nothing; passed, the buffers are filled, and the list is all zeros. Only the
// claims of transactions in doubt are listed and counted.
pub fn check(
    file: &[u8],
    tables: Tables,
    territories: &[u8],
    tolerance: u64,
    claims: &mut [Claim],
    verdicts: &mut [u8],
    findings: &mut [u8],
) -> Result<Claimed, Refusal>
    ensures { Checked (lent_in tables.entry) territories.now tolerance
        file.now claims.old verdicts.old findings.old result
        claims.new verdicts.new findings.new }
{
    let room = claims.len();
    let passed = answer(
        file,
        tables,
        territories,
        tolerance,
        room,
        verdicts.len(),
        findings.len(),
    )?;
    let mut s = begin(file, tables, territories, tolerance, verdicts, findings);
    while let Some(first) = s.doubt {
        let n = claim_list::fill(file, territories, first, claims);
        let over = claim_list::exceeding(&claims[..n], territories, tolerance);
        s = go_on(file, territories, tolerance, s, over, verdicts, findings);
    }
    claim_list::clear(claims);
    Ok(Claimed {
        passed,
        over: s.walk.over,
    })
}
