// The other details: EWT and VER, PER, REC, and the types of finding 24.
ghost use Rattle.std.specs.Prelude.{◌≡◌, true, List, length};
ghost use Rattle.format.specs.Bytes.{Bytes};
ghost use Rattle.rules.specs.Tables.{Tables};
ghost use Rattle.rules.specs.Other.{is24, is44, is45, is46};
ghost use Rattle.kinds.specs.declared.Sort.TheVariants.{Publisher, Writer};
ghost use Rattle.edits.specs.Kinds.{VersionRecord, PerformerRecord, RecordingRecord, Stands};
ghost use Rattle.edits.specs.Judged.{Judged};

use super::{Field, Found, gather};
use kinds::{Row, Sort};
use std::marker::Model;

// ---- finding 24 holds of these types, whatever they hold

fn misplaced() -> Found
    ensures { (tables : Tables) (before : List Bytes) (detail : Bytes) → is24 detail ≡ true → Judged tables before detail result }
{
    gather(24, &[true])
}

// ---- finding 43 alone

const TITLE: Field = Field(20, 60);

const LAST_NAME: Field = Field(20, 45);

// EWT and VER: title blank.
fn version(record: &[u8]) -> Found
    requires { VersionRecord «record».now }
    ensures { (tables : Tables) (before : List Bytes) → Judged tables before «record».now result }
{
    gather(43, &[text::blank(TITLE.of(record))])
}

// PER: last name blank.
fn performer(record: &[u8]) -> Found
    requires { PerformerRecord «record».now }
    ensures { (tables : Tables) (before : List Bytes) → Judged tables before «record».now result }
{
    gather(43, &[text::blank(LAST_NAME.of(record))])
}

// ---- REC

const RELEASE_DATE: Field = Field(20, 8);

const RELEASE_DURATION: Field = Field(88, 6);

const REST: Field = Field(99, 442);

// The bytes of a REC record, whose type and length have been seen to.
#[derive(Drop)]
struct Release<'a> {
    bytes: &'a [u8],
}

impl<'a> Model for Release<'a> {
    ghost Value = { Bytes };

    ghost view = { λ r. r.bytes.now };

    ghost invariant = { λ r. RecordingRecord r.bytes.now };
}

impl Release<'_> {
    // Release date not zeros and invalid.
    #[tactic(auto, unfolding(rules::specs::Other::is45))]
    fn found_45(&self) -> bool
        ensures { result ≡ is45 self.now }
    {
        let date = RELEASE_DATE.of(self.bytes);
        !values::zeros(date) & !values::date(date)
    }

    // Duration invalid.
    #[tactic(auto, unfolding(rules::specs::Other::is46))]
    fn found_46(&self) -> bool
        ensures { result ≡ is46 self.now }
    {
        !values::duration(RELEASE_DURATION.of(self.bytes))
    }

    // With these defaults in force date and duration are zeros, and 99 to 540 is blank.
    fn found_44(&self, b45: bool, b46: bool) -> bool
        requires { (b45 ≡ is45 self.now) × (b46 ≡ is46 self.now) }
        ensures { result ≡ is44 self.now }
    {
        let date = b45 | values::zeros(RELEASE_DATE.of(self.bytes));
        let duration = b46 | values::zeros(RELEASE_DURATION.of(self.bytes));
        date & duration && text::blank(REST.of(self.bytes))
    }
}

fn recording(bytes: &[u8]) -> Found
    requires { RecordingRecord bytes.now }
    ensures { (tables : Tables) (before : List Bytes) → Judged tables before bytes.now result }
{
    let record = Release { bytes };
    let b45 = record.found_45();
    let b46 = record.found_46();
    gather(44, &[record.found_44(b45, b46), b45, b46])
}

// ---- together

fn nothing() -> Found
    ensures { (result.set ≡ 0) × (result.level ≡ 0) }
{
    Found { set: 0, level: 0 }
}

// A detail that is neither publisher nor writer, by its row.
pub fn judge(record: &[u8], row: Row) -> Found
    requires { Stands row «record».now × (row.sort ≡ Publisher → ⊥) × (row.sort ≡ Writer → ⊥) }
    ensures { (tables : Tables) (before : List Bytes) → Judged tables before «record».now result }
{
    match row.sort {
        Sort::Ewt | Sort::Ver => version(record),
        Sort::Per => performer(record),
        Sort::Rec => recording(record),
        Sort::Misplaced => misplaced(),
        _ => nothing(),
    }
}
