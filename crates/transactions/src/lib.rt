// One transaction of a file that is right by 3 to 10: its details are judged and counted one by one, then its header is judged by what
// was counted. Each record's set and verdict is written as it comes.
#![tactic(auto)]

ghost use Rattle.std.specs.Prelude.{◌≡◌, Bool, true, false, ◌&&◌, List, [], ◌∷◌, ◌++◌, ℕ, ◌+◌, ◌^◌, ◌<◌, ◌≤◌, eqb, length, take, drop};
ghost use Rattle.format.specs.Bytes.{Bytes, same_bytes};
ghost use Rattle.format.specs.Table.{head};
ghost use Rattle.format.specs.Cwr22.{cwr22};
ghost use Rattle.format.specs.Checks.{cls};
ghost use Rattle.format.specs.Structure.{most_records, first_record};
ghost use Rattle.format.specs.Tree.{span, is_detail};
ghost use Rattle.rules.specs.Tables.{Tables};
ghost use Rattle.rules.specs.Findings.{verdict, TR as Level-as-TR};
ghost use Rattle.tables.specs.Index.{Indexed};
ghost use Rattle.kinds.specs.Rows.{type_of, row_for};
ghost use Rattle.kinds.specs.declared.Class.TheVariants.{Detail};
ghost use Rattle.chains.specs.Tallies.{Tallied, Small};
ghost use Rattle.totals.specs.Sums.{Below};
ghost use Rattle.tally.specs.Known.{Known};
ghost use Rattle.headers.specs.Headed.{Linked, Headed};
ghost use Rattle.structure.specs.Cursor.{Here};
ghost use Rattle.transactions.specs.Walk.{Outset, Turned};
ghost use Rattle.transactions.specs.Walk.{rest_at, front_of, Prepared, Room, PastDetails, PastTransaction, FilledTransaction};
ghost use Rattle.transactions.specs.Purposes.{is_write, is_count, is_search, Writes, Wrote, Tells, Told, LentFor, DoneDetails};

use chains::Chains;
use edits::Found;
use figures::Counters;
use findings::TR;
use headers::{Head, Links};
use kinds::{Class, Row};
use tally::Tally;

mod lending;

pub use lending::Lent;

// Where a walk over a transaction's details stands: at a byte of the file, before a record of that number; and what is known of the
// details so far. The tallies of their chains are kept beside it.
#[derive(Clone, Copy)]
pub struct Walk {
    pub at: usize,
    pub index: usize,
    pub tally: Tally,
}

impl Walk {
    // Before the first detail.
    pub fn start(at: usize, index: usize) -> Walk
        ensures { Outset at index result }
    {
        Walk {
            at,
            index,
            tally: Tally::start(),
        }
    }
}

// One detail on: what was found of it, and where the walk stands after it.
#[derive(Clone, Copy)]
pub struct Turn {
    pub found: Found,
    pub walk: Walk,
}

// After the last detail, with the shares' totals in the walk's tally: what the chains have of findings 11 to 14, the class of the record
// that follows, and whether a detail has a finding that rejects the transaction.
#[derive(Clone, Copy)]
pub struct Details {
    pub walk: Walk,
    pub links: Links,
    pub class: Class,
    pub rejects: bool,
}

// Where the row of the record that begins at this byte may stand.
pub fn hint_at(file: &[u8], at: usize) -> usize
    requires { at + 3 ≤ length file.now }
    ensures { result < 38 }
{
    kinds::hint(file[at], file[at + 1], file[at + 2])
}

// The row of that record: the one hinted at, where it is of the record's type.
pub fn row_at(hinted: Row, file: &[u8], at: usize) -> Row
    requires { (at + 3 ≤ length file.now) × ((type : Bytes) → same_bytes (type_of hinted) type ≡ true → hinted ≡ row_for type) }
    ensures { result ≡ row_for (take 3 (drop at file.now)) }
{
    kinds::confirmed_row(hinted, &file[at..])
}

// The detail before which the walk stands, and whose row this is.
fn judge_detail(lent: &Lent, row: Row, w: Walk, chains: &mut Chains) -> Turn
    requires here { Here lent.now.file.now w.at head (rest_at lent.now.file.now w.at)
        × (row ≡ row_for (take 3 (drop w.at lent.now.file.now))) × (row.class ≡ Detail) × (w.index < most_records) }
    requires below { Below (2 ^ 60) w.tally.totals × Small chains.old }
    ensures at_value { (result.walk.at ≡ w.at + row.length + 2) × (result.walk.index ≡ w.index + 1) }
    ensures turned { (tables : Tables) (ds : List Bytes) → Indexed tables lent.now.slots.now → Known w.tally ds → Tallied chains.old ds
        → Turned tables ds (first_record (rest_at lent.now.file.now w.at)) result
        × Tallied chains.new (ds ++ first_record (rest_at lent.now.file.now w.at) ∷ []) }
{
    let at = w.at;
    let end = at + row.size();
    let s = details::judge(&lent.file[at..end], row, w.tally, lent.slots, chains);
    Turn {
        found: s.found,
        walk: Walk {
            at: end + 2,
            index: w.index + 1,
            tally: s.tally,
        },
    }
}

// What a walk over details is for: their entries are written into the buffers of a check, they are counted for a sheet, or one that rejects
// the transaction is searched for, and the walk ends there.
// An enum and no trait: what a purpose is lent and what it has done would be ghost members and their laws, each case a struct of borrows with
// an impl, for two calls in one loop.
#[derive(Clone, Copy, PartialEq, Eq)]
pub enum Purpose {
    Write,
    Count,
    Search,
}

impl Purpose {
    fn is_search(self) -> bool
        ensures { result ≡ is_search self }
    {
        self == Purpose::Search
    }
}

// The entry of a detail that is judged, where entries are written.
fn write(purpose: Purpose, index: usize, found: Found, verdicts: &mut [u8], findings: &mut [u8])
    requires { Writes (is_write purpose) index verdicts.old findings.old }
    ensures { Wrote (is_write purpose) index found verdicts.old findings.old verdicts.new findings.new }
{
    match purpose {
        Purpose::Write => buffers::settle(index, found.set, found.level, verdicts, findings),
        Purpose::Count | Purpose::Search => {}
    }
}

// Whether it rejects the transaction; and it is counted, where details are. Most have no finding, and are done with at once.
fn tell(purpose: Purpose, found: Found, counters: &mut Counters) -> bool
    requires { Tells (is_count purpose) found.level counters.old.findings counters.old.levels }
    ensures value { result ≡ eqb found.level (verdict Level-as-TR) }
    ensures told { Told (is_count purpose) found counters.old.findings counters.old.levels counters.new.findings counters.new.levels }
{
    if found.level == 0 {
        return false;
    }
    let rejects = found.level == TR;
    match purpose {
        Purpose::Count => {
            counters.count(found.set, found.level);
            rejects
        }
        Purpose::Write | Purpose::Search => rejects,
    }
}

// The details that stand here, after a header; the first of them is that record of the file. Each is judged and kept, as the purpose is;
// but where one that rejects the transaction is searched for, none after it.
pub fn judge_details(
    lent: &Lent,
    start: usize,
    first: usize,
    purpose: Purpose,
    verdicts: &mut [u8],
    findings: &mut [u8],
    counters: &mut Counters,
) -> Details
    requires here { Here lent.now.file.now start head (rest_at lent.now.file.now start)
        × (first + length (rest_at lent.now.file.now start) ≤ most_records)
        × LentFor purpose first (first + length (rest_at lent.now.file.now start)) verdicts.old findings.old
        counters.old.findings counters.old.levels }
    requires prepared { Prepared lent.now.slots.now }
    ensures past_details { (is_search purpose && result.rejects) ≡ false
        → PastDetails lent.now.file.now (first + length (rest_at lent.now.file.now start)) (rest_at lent.now.file.now start) result }
    ensures done_details { (tables : Tables) → Indexed tables lent.now.slots.now
        → DoneDetails purpose tables first result.walk.index (span (is_detail cwr22) (rest_at lent.now.file.now start)) result.rejects
        verdicts.old findings.old counters.old.findings counters.old.levels
        verdicts.new findings.new counters.new.findings counters.new.levels }
{
    let searched = purpose.is_search();
    let rows = kinds::table();
    let mut chains = Chains::none();
    let mut w = Walk::start(start, first);
    let mut rejects = false;
    loop {
        let at = w.at;
        let k = hint_at(lent.file, at);
        let row = row_at(rows[k], lent.file, at);
        if (row.class != Class::Detail) | (searched & rejects) {
            return Details {
                walk: w,
                links: links_of(&chains),
                class: row.class,
                rejects,
            };
        }
        let s = judge_detail(lent, row, w, &mut chains);
        let found = s.found;
        write(purpose, w.index, found, verdicts, findings);
        rejects |= tell(purpose, found, counters);
        w = s.walk;
    }
}

// Findings 11 to 14.
fn links_of(chains: &Chains) -> Links
    ensures { (ds : List Bytes) → Tallied chains.now ds → Linked result ds }
{
    Links {
        many: chains.many,
        shareless: chains.found_12(),
        joined: chains.joined,
        kept: chains.kept,
    }
}

// The header that stands here, by what is known of its details. named is the type that GRH names.
pub fn judge_header(lent: &Lent, at: usize, named: &[u8], y: Tally, links: Links) -> Head
    requires here { Here lent.now.file.now at head (rest_at lent.now.file.now at) × (cls cwr22 (first_record (rest_at lent.now.file.now at)) ≡ head) }
    requires below { Below (2 ^ 60) y.totals }
    ensures { (tables : Tables) (ds : List Bytes) → Indexed tables lent.now.slots.now → Known y ds → Linked links ds
        → Headed tables lent.now.t named.now (record { header = first_record (rest_at lent.now.file.now at); details = ds }) result }
{
    let end = at + kinds::HEADER_LENGTH as usize;
    let header = &lent.file[at..end];
    let own = edits::header::judge(header, lent.slots);
    headers::judge(header, named, own, y, links, lent.t)
}

// After a transaction: where the next record begins, its number and its class; whether the header has finding 0.
#[derive(Clone, Copy)]
pub struct Passed {
    pub at: usize,
    pub index: usize,
    pub class: Class,
    pub stray: bool,
}

// One transaction, whose header stands here and is that record of the file, in a group whose GRH names that type.
pub fn judge_transaction(
    lent: &Lent,
    at: usize,
    index: usize,
    named: &[u8],
    verdicts: &mut [u8],
    findings: &mut [u8],
) -> Passed
    requires here { Here lent.now.file.now at head (rest_at lent.now.file.now at)
        × (cls cwr22 (first_record (rest_at lent.now.file.now at)) ≡ head)
        × Room (index + length (rest_at lent.now.file.now at)) (length verdicts.old) (length findings.old) }
    requires prepared { Prepared lent.now.slots.now }
    ensures past_transaction { PastTransaction named.now lent.now.file.now (index + length (rest_at lent.now.file.now at))
        (rest_at lent.now.file.now at) result }
    ensures filled_transaction { (tables : Tables) → Indexed tables lent.now.slots.now
        → FilledTransaction tables lent.now.t named.now index result.index (front_of (rest_at lent.now.file.now at))
        verdicts.old findings.old verdicts.new findings.new }
{
    let mut none = Counters::none();
    let d = judge_details(
        lent,
        at + kinds::HEADER_LENGTH as usize + 2,
        index + 1,
        Purpose::Write,
        verdicts,
        findings,
        &mut none,
    );
    let w = d.walk;
    let h = judge_header(lent, at, named, w.tally, d.links);
    buffers::settle(index, h.set, h.level, verdicts, findings);
    let e = w.index;
    let least = buffers::least(h.rejects | d.rejects, TR);
    buffers::raise(&mut verdicts[index..e], least);
    Passed {
        at: w.at,
        index: e,
        class: d.class,
        stray: h.stray,
    }
}
