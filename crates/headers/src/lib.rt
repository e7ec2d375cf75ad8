// The findings on a transaction's header: 0 to 15, which hang on the whole transaction, joined with those on the header's own fields.
#![tactic(auto)]

ghost use Rattle.std.specs.Prelude.{◌≡◌, Bool, false, List, [], ◌∷◌, ◌++◌, ◌^◌, ◌≤◌, length, replicate};
ghost use Rattle.format.specs.Bytes.{Bytes};
ghost use Rattle.rules.specs.Tables.{Tables};
ghost use Rattle.rules.specs.Writers.{is4, is5, is6, is7, is10};
ghost use Rattle.rules.specs.Works.{is0, is9, is15};
ghost use Rattle.rules.specs.Findings.{set_of, worst};
ghost use Rattle.totals.specs.Sums.{Below};
ghost use Rattle.tally.specs.Marked.{Marked};
ghost use Rattle.edits.specs.Kinds.{HeaderRecord};
ghost use Rattle.edits.specs.Judged.{Judged};
ghost use Rattle.tally.specs.Known.{Known};
ghost use Rattle.headers.specs.Headed.{Linked, Gathered, Headed};

use edits::header::Header;
use edits::{Field, Found, is_code};
use tally::Tally;
use tally::marks::Marks;
use values::Tolerance;

// Findings 11 to 14, as the chains have them.
#[derive(Clone, Copy)]
pub struct Links {
    pub many: bool,
    pub shareless: bool,
    pub joined: bool,
    pub kept: bool,
}

// The header's set of findings and its largest verdict; whether it has a finding that rejects the transaction; whether it has finding 0.
#[derive(Clone, Copy)]
pub struct Head {
    pub set: u64,
    pub level: u8,
    pub rejects: bool,
    pub stray: bool,
}

const TYPE: Field = Field(1, 3);
// Of text and music.
const RELATIONSHIP: Field = Field(137, 3);

const VERSION_TYPE: Field = Field(143, 3);

// The header's type is not the one that GRH names.
#[tactic(auto, unfolding(rules::specs::Works::is0, format::specs::Fields::field_of))]
fn found_0(header: &Header, named: &[u8]) -> bool
    ensures { result ≡ is0 named.now header.now }
{
    !is_code(TYPE.of(header.bytes), named)
}

// No writer.
#[tactic(auto, unfolding(rules::specs::Writers::is4))]
fn found_4(marks: Marks) -> bool
    ensures { (ds : List Bytes) → Marked marks ds → result ≡ is4 ds }
{
    !marks.writer
}

// No writer that makes a work.
#[tactic(auto, unfolding(rules::specs::Writers::is5))]
fn found_5(marks: Marks) -> bool
    ensures { (ds : List Bytes) → Marked marks ds → result ≡ is5 ds }
{
    !marks.creator
}

// A modified version, and no writer that changes a work.
#[tactic(auto, unfolding(rules::specs::Writers::is6))]
fn found_6(header: &Header, marks: Marks) -> bool
    ensures { (ds : List Bytes) → Marked marks ds → result ≡ is6 header.now ds }
{
    is_code(VERSION_TYPE.of(header.bytes), b"MOD") & !marks.changer
}

// An original work, and such a writer.
#[tactic(auto, unfolding(rules::specs::Writers::is7))]
fn found_7(header: &Header, marks: Marks) -> bool
    ensures { (ds : List Bytes) → Marked marks ds → result ≡ is7 header.now ds }
{
    is_code(VERSION_TYPE.of(header.bytes), b"ORI") & marks.changer
}

// Category SER, and neither INS nor IND.
#[tactic(auto, unfolding(rules::specs::Works::is9))]
fn found_9(header: &Header, marks: Marks) -> bool
    ensures { (ds : List Bytes) → Marked marks ds → result ≡ is9 header.now ds }
{
    header.is_serious() & !marks.instrument
}

// Music alone by the relationship of text and music, and a writer of text.
#[tactic(auto, unfolding(rules::specs::Writers::is10))]
fn found_10(header: &Header, marks: Marks) -> bool
    ensures { (ds : List Bytes) → Marked marks ds → result ≡ is10 header.now ds }
{
    is_code(RELATIONSHIP.of(header.bytes), b"MUS") & marks.author
}

// More than one EWT, or more than one VER.
#[tactic(auto, unfolding(rules::specs::Works::is15))]
fn found_15(marks: Marks) -> bool
    ensures { (ds : List Bytes) → Marked marks ds → result ≡ is15 ds }
{
    marks.ewts | marks.vers
}

// Finding 0, which alone rejects the group, then 1 to 15, which reject the transaction, then the header's own. Those begin at 16 and are
// taken from there on, so that no sum wraps whatever they are.
fn join(stray: bool, works: Found, own: Found) -> Head
    requires { works.set ≤ 65534 }
    ensures { (fifteen rest : List Bool) → length fifteen ≡ 15
        → works.set ≡ set_of (replicate 1 false ++ fifteen) → works.level ≡ worst (replicate 1 false ++ fifteen)
        → own.set ≡ set_of (replicate 16 false ++ rest) → own.level ≡ worst (replicate 16 false ++ rest)
        → Gathered (stray ∷ fifteen ++ rest) stray result }
{
    let level = works.level.max(own.level);
    Head {
        set: u64::from(stray) + works.set + 65536 * (own.set / 65536),
        level: choice::pick(stray, findings::GR, level),
        rejects: (works.level == findings::TR) | (own.level == findings::TR),
        stray,
    }
}

// What a header has, where y knows the details and links their chains, and own is what the header's own fields have. named is the type that
// GRH names, and t the tolerance.
pub fn judge(bytes: &[u8], named: &[u8], own: Found, y: Tally, links: Links, t: Tolerance) -> Head
    requires header_record { HeaderRecord bytes.now }
    requires below { Below (2 ^ 60) y.totals }
    ensures { (tables : Tables) (ds : List Bytes) → Known y ds → Linked links ds → Judged tables [] bytes.now own
        → Headed tables t named.now (record { header = bytes.now; details = ds }) result }
{
    let header = Header { bytes };
    let marks = y.marks;
    let stray = found_0(&header, named);
    let works = edits::gather(
        1,
        &[
            y.totals.found_1(t),
            y.totals.found_2(t),
            y.totals.found_3(t),
            found_4(marks),
            found_5(marks),
            found_6(&header, marks),
            found_7(&header, marks),
            y.order.found_8(),
            found_9(&header, marks),
            found_10(&header, marks),
            links.many,
            links.shareless,
            links.joined,
            links.kept,
            found_15(marks),
        ],
    );
    join(stray, works, own)
}
