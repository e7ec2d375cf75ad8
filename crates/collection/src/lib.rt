// The collection shares of a file that is right by 3 to 10, once the check without territories has filled both buffers: findings 47 and 48 are
// set beside those that stand there, and the verdicts of their transactions raised. Most transactions need no look at any territory: where
// each party's largest share fits, none can be over. A walk goes on to the next transaction in doubt, whose claims its caller counts.
#![tactic(auto)]

ghost use Rattle.std.specs.Prelude.{◌≡◌, Bool, true, false, cond, ◌&&◌, List, [], ◌∷◌, ◌++◌, ℕ, ◌+◌, ◌-◌, ◌*◌, ◌/◌, ◌<◌, ◌≤◌, length, take, drop};
ghost use Rattle.format.specs.Bytes.{Bytes};
ghost use Rattle.format.specs.Table.{head};
ghost use Rattle.format.specs.Cwr22.{cwr22};
ghost use Rattle.format.specs.Checks.{cls};
ghost use Rattle.format.specs.Structure.{most_bytes, most_records, first_record};
ghost use Rattle.format.specs.Tree.{span, is_detail};
ghost use Rattle.rules.specs.Territories.{territories_in, right_territories};
ghost use Rattle.rules.specs.Collection.{is_party};
ghost use Rattle.rules.specs.WithTerritories.{Over as RulesOver};
ghost use Rattle.claims.specs.Entries.{entry_of, over_in};
ghost use Rattle.parties.specs.Ahead.{entries_at};
ghost use Rattle.kinds.specs.Rows.{row_for};
ghost use Rattle.kinds.specs.declared.Class.TheVariants.{Detail};
ghost use Rattle.edits.specs.Kinds.{Stands};
ghost use Rattle.structure.specs.Cursor.{Here};
ghost use Rattle.transactions.specs.Walk.{rest_at};
ghost use Rattle.collection.specs.Marked.{with47, with48, raised_if, marked48};
ghost use Rattle.collection.specs.Walk.{Known, PastDetails, Lent, Standing, Owes, Doubts, Judged, Reached, past_control, steps_left};

use claims::Claim;
use findings::TR;
use kinds::{Class, Row, Sort};
use parties::{Largest, Record};
use values::Tolerance;

// ---- the buffers

// Finding 47 of a header, where it has it: the highest bit of its sixth byte.
fn set_47(over: bool, index: usize, findings: &mut [u8])
    requires { 8 * (index + 1) ≤ length findings.old }
    ensures { findings.new ≡ cond over (with47 index findings.old) findings.old }
{
    if over {
        let at = 8 * index + 5;
        findings[at] = findings[at] % 128 + 128;
    }
}

// With the lowest bit set.
fn odd(b: u8) -> u8
    ensures { result ≡ b / 2 * 2 + 1 }
{
    b / 2 * 2 + 1
}

// Finding 48, where the claim has it: the lowest bit of its seventh.
fn set_48(wrong: bool, index: usize, findings: &mut [u8])
    requires { 8 * (index + 1) ≤ length findings.old }
    ensures { findings.new ≡ cond wrong (with48 index findings.old) findings.old }
{
    if wrong {
        let at = 8 * index + 6;
        findings[at] = odd(findings[at]);
    }
}

// Leaves no verdict of these records below that of TR, where they are rejected.
fn raise(rejected: bool, from: usize, end: usize, verdicts: &mut [u8])
    requires { (from ≤ end) × (end ≤ length verdicts.old) }
    ensures { verdicts.new ≡ raised_if rejected from (end - from) verdicts.old }
{
    let least = buffers::least(rejected, TR);
    buffers::raise(&mut verdicts[from..end], least);
}

// ---- a right table

// With hints where its codes stand.
#[derive(Clone, Copy)]
struct Places<'a> {
    table: &'a [u8],
    hints: &'a territories::Hints,
    ghost right: { right_territories table.now ≡ true },
}

// ---- the claims of a transaction

// What is known of its details so far: how many parties, whether some claim has 48, and the largest shares.
#[derive(Clone, Copy)]
pub struct Tally {
    pub party: u32,
    pub wrong: bool,
    pub largest: Largest,
}

// The entry of a claim, for that party.
fn read(record: Record, places: Places, party: u32) -> Claim
    ensures { result ≡ entry_of (territories_in places.entry.table.now) party «record».entry.bytes.now }
{
    let place = territories::find(places.table, places.hints, record.code());
    record.entry(place, territories::count(places.table), party)
}

// With one claim more, which is that record of the file. An entry without a mark is that of a claim with 48.
fn judge_claim(
    record: Record,
    index: usize,
    places: Places,
    tally: Tally,
    findings: &mut [u8],
) -> Tally
    requires claim_record { (is_party «record».bytes.now ≡ false)
        × (8 * (index + 1) ≤ length findings.old) }
    requires known { (ds : List Bytes) × Known (territories_in places.table.now) ds tally × (length ds < most_records) }
    ensures known_2 { (ds : List Bytes) → Known (territories_in places.entry.table.now) ds tally
        → Known (territories_in places.entry.table.now) (ds ++ «record».entry.bytes.now ∷ []) result }
    ensures findings_after { findings.new
        ≡ marked48 (territories_in places.entry.table.now) index («record».entry.bytes.now ∷ []) findings.old }
{
    let claim = read(record, places, tally.party);
    let wrong = claim.mark == 0;
    set_48(wrong, index, findings);
    Tally {
        wrong: tally.wrong | wrong,
        largest: tally.largest.with(claim),
        ..tally
    }
}

// With one detail more, of that row.
fn judge_detail(
    record: &[u8],
    row: Row,
    index: usize,
    places: Places,
    tally: Tally,
    findings: &mut [u8],
) -> Tally
    requires stands { Stands row «record».now × (8 * (index + 1) ≤ length findings.old) }
    requires known { (ds : List Bytes) × Known (territories_in places.table.now) ds tally × (length ds < most_records) }
    ensures known_2 { (ds : List Bytes) → Known (territories_in places.entry.table.now) ds tally
        → Known (territories_in places.entry.table.now) (ds ++ «record».now ∷ []) result }
    ensures findings_after { findings.new
        ≡ marked48 (territories_in places.entry.table.now) index («record».now ∷ []) findings.old }
{
    if row.sort.is_claim() {
        let claim = Record {
            bytes: record,
            publishers: row.sort == Sort::PublishersClaim,
        };
        return judge_claim(claim, index, places, tally, findings);
    }
    if row.sort.is_party() {
        return Tally {
            party: tally.party + 1,
            ..tally
        };
    }
    tally
}

// After the last detail: where the next record begins, its number and its class.
#[derive(Clone, Copy)]
pub struct Details {
    pub at: usize,
    pub index: usize,
    pub class: Class,
    pub tally: Tally,
}

// One detail on, whose row this is.
fn pass_detail(file: &[u8], row: Row, d: Details, places: Places, findings: &mut [u8]) -> Details
    requires here { (length file.now ≤ most_bytes) × Here file.now d.at head (rest_at file.now d.at)
        × (row ≡ row_for (take 3 (drop d.at file.now))) × (row.class ≡ Detail) × (d.index < most_records) }
    requires room { 8 * (d.index + 1) ≤ length findings.old }
    requires known { (ds : List Bytes) × Known (territories_in places.table.now) ds d.tally × (length ds < most_records) }
    ensures at_value { (result.at ≡ d.at + row.length + 2) × (result.index ≡ d.index + 1) }
    ensures known_2 { (ds : List Bytes) → Known (territories_in places.entry.table.now) ds d.tally
        → Known (territories_in places.entry.table.now) (ds ++ first_record (rest_at file.now d.at) ∷ []) result.tally }
    ensures findings_after { findings.new
        ≡ marked48 (territories_in places.entry.table.now) d.index (first_record (rest_at file.now d.at) ∷ []) findings.old }
{
    let end = d.at + row.size();
    let after = judge_detail(&file[d.at..end], row, d.index, places, d.tally, findings);
    Details {
        at: end + 2,
        index: d.index + 1,
        class: Class::Detail,
        tally: after,
    }
}

// The details that stand here, after a header; the first of them is that record of the file.
fn judge_details(
    file: &[u8],
    start: usize,
    first: usize,
    places: Places,
    findings: &mut [u8],
) -> Details
    requires { (length file.now ≤ most_bytes) × Here file.now start head (rest_at file.now start)
        × (first + length (rest_at file.now start) ≤ most_records) × (8 * (first + length (rest_at file.now start)) ≤ length findings.old) }
    ensures past_details { PastDetails file.now (first + length (rest_at file.now start)) (territories_in places.entry.table.now)
        (rest_at file.now start) result }
    ensures findings_after { findings.new ≡ marked48 (territories_in places.entry.table.now) first
        (span (is_detail cwr22) (rest_at file.now start)) findings.old }
{
    let rows = kinds::table();
    let mut d = Details {
        at: start,
        index: first,
        class: Class::Detail,
        tally: Tally {
            party: 0,
            wrong: false,
            largest: Largest::start(),
        },
    };
    loop {
        let k = transactions::hint_at(file, d.at);
        let row = transactions::row_at(rows[k], file, d.at);
        let Class::Detail = row.class else {
            return Details {
                class: row.class,
                ..d
            };
        };
        d = pass_detail(file, row, d, places, findings);
    }
}

// ---- from transaction to transaction

// A territory that is over: the number of its transaction, counted from 0 over the whole file, and its position in the table.
#[derive(Clone, Copy)]
pub struct Over {
    pub transaction: usize,
    pub territory: usize,
}

// Before a record of that number, which begins at that byte and is no detail, and of the transaction of that number. The first territory
// that was found to be over; and the number of the latest header.
#[derive(Clone, Copy)]
pub struct Walk {
    pub at: usize,
    pub index: usize,
    pub number: usize,
    pub over: Option<Over>,
    pub header: usize,
}

// The walk goes on from there; or the latest transaction is in doubt, and its first detail begins at that byte.
#[derive(Clone, Copy)]
pub struct Sought {
    pub walk: Walk,
    pub doubt: Option<usize>,
}

// One transaction, before whose header the walk stands: 48 on each of its claims. It is in doubt where the largest shares do not fit.
fn judge_transaction(
    file: &[u8],
    places: Places,
    t: u64,
    w: Walk,
    verdicts: &mut [u8],
    findings: &mut [u8],
) -> Sought
    requires { (m : ℕ) × Lent file.now places.table.now t m verdicts.old findings.old × Standing file.now m w
        × (cls cwr22 (first_record (rest_at file.now w.at)) ≡ head) }
    ensures by_index { (m : ℕ) (v g : Bytes) (o : RulesOver)
        → Owes file.now places.entry.table.now t m v g o w verdicts.old findings.old
        → Judged file.now places.entry.table.now t m v g o result verdicts.new findings.new }
    ensures at_in_bounds { length (rest_at file.now result.walk.at) < length (rest_at file.now w.at) }
{
    let first = w.at + kinds::HEADER_LENGTH as usize + 2;
    let d = judge_details(file, first, w.index + 1, places, findings);
    raise(d.tally.wrong, w.index, d.index, verdicts);
    let tolerance = Tolerance { hundredths: t };
    let fits = d.tally.largest.fits(tolerance);
    Sought {
        walk: Walk {
            at: d.at,
            index: d.index,
            number: choice::pick(fits, w.number + 1, w.number),
            header: w.index,
            ..w
        },
        doubt: (!fits).then_some(first),
    }
}

impl Walk {
    // Past a record that is no part of a transaction and has so many bytes.
    fn past(self, size: usize) -> Walk
        requires { (self.at + size + 2 ≤ most_bytes) × (self.index < most_records) }
        ensures { result ≡ past_control self size }
    {
        Walk {
            at: self.at + size + 2,
            index: self.index + 1,
            ..self
        }
    }
}

// From where the walk stands to the next transaction in doubt, or to the end.
fn advance(
    file: &[u8],
    places: Places,
    t: u64,
    from: Walk,
    verdicts: &mut [u8],
    findings: &mut [u8],
) -> Sought
    requires { (m : ℕ) × Lent file.now places.table.now t m verdicts.old findings.old × Standing file.now m from }
    ensures by_index { (m : ℕ) (v g : Bytes) (o : RulesOver)
        → Owes file.now places.entry.table.now t m v g o from verdicts.old findings.old
        → Reached file.now places.entry.table.now t m v g o result verdicts.new findings.new }
    ensures result_bound { steps_left file.now result ≤ 2 * length (rest_at file.now from.at) }
{
    let rows = kinds::table();
    let mut w = from;
    loop {
        let k = transactions::hint_at(file, w.at);
        let row = transactions::row_at(rows[k], file, w.at);
        match row.class {
            Class::Trl => {
                return Sought {
                    walk: w,
                    doubt: None,
                };
            }
            Class::Head => {
                let s = judge_transaction(file, places, t, w, verdicts, findings);
                if s.doubt.is_some() {
                    return s;
                }
                w = s.walk;
            }
            _ => w = w.past(row.size()),
        }
    }
}

// The same, with the hints for codes made anew: an index of the table would not pay, since few transactions are in doubt.
pub fn seek(
    file: &[u8],
    table: &[u8],
    t: u64,
    from: Walk,
    verdicts: &mut [u8],
    findings: &mut [u8],
) -> Sought
    requires { (m : ℕ) × Lent file.now table.now t m verdicts.old findings.old × Standing file.now m from }
    ensures by_index { (m : ℕ) (v g : Bytes) (o : RulesOver)
        → Owes file.now table.now t m v g o from verdicts.old findings.old
        → Reached file.now table.now t m v g o result verdicts.new findings.new }
    ensures result_bound { steps_left file.now result ≤ 2 * length (rest_at file.now from.at) }
{
    let mut hints = [0u16; territories::SLOTS];
    territories::hint(table, &mut hints);
    let places = Places {
        table,
        hints: &hints,
    };
    advance(file, places, t, from, verdicts, findings)
}

// The transaction in doubt, once its claims are counted: the first territory that is over, or as many as there are.
pub fn settle(table: &[u8], w: Walk, over: usize, verdicts: &mut [u8], findings: &mut [u8]) -> Walk
    requires { (m : ℕ) × (f : Bytes) × (t : ℕ) × (first : ℕ) × (v' : Bytes) × (g' : Bytes) × (o : RulesOver)
        × Lent f table.now t m verdicts.old findings.old × Doubts f table.now t m v' g' o w first verdicts.old findings.old }
    ensures owes { (f : Bytes) (t m first : ℕ) (v' g' : Bytes) (o : RulesOver)
        → Doubts f table.now t m v' g' o w first verdicts.old findings.old
        → over ≡ over_in table.now t (entries_at f table.now first 0)
        → Owes f table.now t m v' g' o result verdicts.new findings.new }
    ensures at_value { result.at ≡ w.at }
{
    let is = over < territories::count(table);
    set_47(is, w.header, findings);
    raise(is, w.header, w.index, verdicts);
    let here = is.then_some(Over {
        transaction: w.number,
        territory: over,
    });
    Walk {
        number: w.number + 1,
        over: w.over.or(here),
        ..w
    }
}
