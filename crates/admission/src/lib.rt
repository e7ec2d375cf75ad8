// Whether a file is let in with its tables and a tolerance: refusals 1 to 10, and 13 with a territory table, before any buffer is looked at.
#![tactic(auto)]

ghost use Rattle.std.specs.Prelude.{◌≡◌};
ghost use Rattle.tables.specs.Lent.{lent_in};
ghost use Rattle.format.specs.Lent.{in_room};
ghost use Rattle.rules.specs.Outcome.{admission, enough};
ghost use Rattle.rules.specs.WithTerritories.{admission_with};
ghost use Rattle.answers.specs.Numbers.{answer_of};
ghost use Rattle.admission.specs.Follows.{ComesFirst};

use answers::{Answer, Refusal};
use tables::Tables;
use values::Share;

// What is lent beside the file, by refusals 1 and 2.
fn lent_right(tables: Tables, tolerance: u64) -> Result<(), Refusal>
    ensures { ComesFirst (lent_in tables.entry) tolerance result }
{
    if !Share::is_tolerance(tolerance) {
        return Err(Refusal::Tolerance);
    }
    if !tables::right(tables.languages, tables::LANGUAGE) {
        return Err(Refusal::Table(0));
    }
    if !tables::right(tables.societies, tables::SOCIETY) {
        return Err(Refusal::Table(1));
    }
    if !tables::right(tables.categories, tables::CATEGORY) {
        return Err(Refusal::Table(2));
    }
    Ok(())
}

// Each ground over the whole file before the next.
#[tactic(auto, unfolding(rules::specs::Outcome::admission))]
pub fn admit(file: &[u8], tables: Tables, tolerance: u64) -> Answer
    ensures { answer_of result ≡ admission (lent_in tables.entry) tolerance file.now }
{
    lent_right(tables, tolerance)?;
    structure::check(file)
}

// The same with a territory table, which is looked at before the file.
#[tactic(auto, unfolding(rules::specs::WithTerritories::admission_with))]
pub fn admit_with(file: &[u8], tables: Tables, territories: &[u8], tolerance: u64) -> Answer
    ensures { answer_of result ≡ admission_with (lent_in tables.entry) territories.now tolerance file.now }
{
    lent_right(tables, tolerance)?;
    if !territories::right(territories) {
        return Err(Refusal::Territories);
    }
    structure::check(file)
}

// 11, after all others: the buffers of a check are long enough for what passed.
pub fn in_room(answer: Answer, verdicts: usize, findings: usize) -> Answer
    ensures { answer_of result ≡ in_room (enough verdicts findings) (answer_of answer) }
{
    let passed = answer?;
    if (verdicts as u64) < passed.records || findings as u64 / 8 < passed.records {
        return Err(Refusal::Short);
    }
    Ok(passed)
}
