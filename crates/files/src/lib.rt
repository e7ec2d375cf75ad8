// A whole file that is right by 3 to 10: its groups one after the other, and in each its transactions. Each record's set and verdict is
// written as it comes; at the end of a group its verdicts are raised where a header in it has finding 0.
#![tactic(auto)]

ghost use Rattle.std.specs.Prelude.{◌≡◌, true, [], ◌∷◌, ◌+◌, ◌*◌, ◌≤◌, ◌<◌, eqb, length, get_or};
ghost use Rattle.format.specs.Table.{hdr, grh, grt, unknown};
ghost use Rattle.format.specs.Cwr22.{cwr22};
ghost use Rattle.format.specs.Checks.{cls};
ghost use Rattle.format.specs.Structure.{most_bytes, first_record};
ghost use Rattle.format.specs.Tree.{groups_in};
ghost use Rattle.rules.specs.Tables.{Tables, language_size, society_size, category_size, right_table};
ghost use Rattle.tables.specs.Index.{Indexed};
ghost use Rattle.tables.specs.Lent.{lent_in};
ghost use Rattle.structure.specs.Cursor.{Here};
ghost use Rattle.transactions.specs.Walk.{rest_at, Prepared, Room, Filled};
ghost use Rattle.files.specs.Levels.{transactions_of, group_of, PastTransactions, PastGroup, PastGroups};
ghost use Rattle.files.specs.Levels.{FilledTransactions, FilledGroup, FilledGroups, WrittenFile};

use findings::GR;
use kinds::Class;
use transactions::{Lent, Passed};
use values::Tolerance;

// Before a record of that number, which begins at that byte.
#[derive(Clone, Copy)]
pub struct Next {
    pub at: usize,
    pub index: usize,
}

// The entry of a record that has no finding: HDR, GRH, GRT or TRL.
// Verdicts and findings go on as C lends them, two buffers: what they have room for is said once, by `Room`.
fn settle_control(index: usize, verdicts: &mut [u8], findings: &mut [u8])
    requires { (index < length verdicts.old) × (8 * (index + 1) ≤ length findings.old) }
    ensures { Filled index (index + 1) (0 ∷ []) ([] ∷ [])
        verdicts.old findings.old verdicts.new findings.new }
{
    buffers::settle(index, 0, 0, verdicts, findings);
}

// The transactions of a group, after its GRH, which names that type.
fn judge_transactions(
    lent: &Lent,
    start: usize,
    first: usize,
    named: &[u8],
    verdicts: &mut [u8],
    findings: &mut [u8],
) -> Passed
    requires here { Here lent.now.file.now start grh (rest_at lent.now.file.now start)
        × Room (first + length (rest_at lent.now.file.now start)) (length verdicts.old) (length findings.old) }
    requires prepared { Prepared lent.now.slots.now }
    ensures past_transactions { PastTransactions named.now lent.now.file.now (first + length (rest_at lent.now.file.now start))
        (rest_at lent.now.file.now start) result }
    ensures filled_transactions { (tables : Tables) → Indexed tables lent.now.slots.now
        → FilledTransactions tables lent.now.t named.now first result.index (transactions_of (rest_at lent.now.file.now start))
        verdicts.old findings.old verdicts.new findings.new }
{
    let mut p = Passed {
        at: start,
        index: first,
        class: Class::Head,
        stray: false,
    };
    while let Class::Head = p.class {
        let q = transactions::judge_transaction(lent, p.at, p.index, named, verdicts, findings);
        p = Passed {
            at: q.at,
            index: q.index,
            class: q.class,
            stray: p.stray | q.stray,
        };
    }
    p
}

// One group, whose GRH stands here and is that record of the file.
fn judge_group(
    lent: &Lent,
    at: usize,
    index: usize,
    verdicts: &mut [u8],
    findings: &mut [u8],
) -> Next
    requires here { Here lent.now.file.now at grt (rest_at lent.now.file.now at)
        × (cls cwr22 (first_record (rest_at lent.now.file.now at)) ≡ grh)
        × Room (index + length (rest_at lent.now.file.now at)) (length verdicts.old) (length findings.old) }
    requires prepared { Prepared lent.now.slots.now }
    ensures past_group { PastGroup lent.now.file.now (index + length (rest_at lent.now.file.now at)) (rest_at lent.now.file.now at) result }
    ensures filled_group { (tables : Tables) → Indexed tables lent.now.slots.now
        → FilledGroup tables lent.now.t index result.index (group_of (rest_at lent.now.file.now at))
        verdicts.old findings.old verdicts.new findings.new }
{
    let end = at + kinds::GRH_LENGTH as usize;
    let opening = &lent.file[at..end];
    let named = text::field(opening, 4, 3);
    settle_control(index, verdicts, findings);
    let p = judge_transactions(lent, end + 2, index + 1, named, verdicts, findings);
    let last = p.index;
    settle_control(last, verdicts, findings);
    let e = last + 1;
    let least = buffers::least(p.stray, GR);
    buffers::raise(&mut verdicts[index..e], least);
    Next {
        at: p.at + kinds::GRT_LENGTH as usize + 2,
        index: e,
    }
}

// Whether a group begins here, where nothing else but TRL can stand.
pub fn is_group(file: &[u8], at: usize) -> bool
    requires { at < length file.now }
    ensures { result ≡ eqb (get_or file.now at 0) 71 }
{
    file[at] == b'G'
}

// The groups that stand here, up to TRL.
fn judge_groups(
    lent: &Lent,
    start: usize,
    first: usize,
    verdicts: &mut [u8],
    findings: &mut [u8],
) -> Next
    requires here { Here lent.now.file.now start hdr (rest_at lent.now.file.now start)
        × Room (first + length (rest_at lent.now.file.now start)) (length verdicts.old) (length findings.old) }
    requires prepared { Prepared lent.now.slots.now }
    ensures past_groups { PastGroups lent.now.file.now (first + length (rest_at lent.now.file.now start)) result }
    ensures filled_groups { (tables : Tables) → Indexed tables lent.now.slots.now
        → FilledGroups tables lent.now.t first result.index (groups_in cwr22 (rest_at lent.now.file.now start))
        verdicts.old findings.old verdicts.new findings.new }
{
    let mut n = Next {
        at: start,
        index: first,
    };
    'groups: while is_group(lent.file, n.at) {
        n = judge_group(lent, n.at, n.index, verdicts, findings);
    }
    n
}

// All records of a file.
pub fn judge_file(lent: &Lent, verdicts: &mut [u8], findings: &mut [u8])
    requires here { Here lent.now.file.now 0 unknown (rest_at lent.now.file.now 0)
        × Room (length (rest_at lent.now.file.now 0)) (length verdicts.old) (length findings.old) }
    requires prepared { Prepared lent.now.slots.now }
    ensures { (tables : Tables) → Indexed tables lent.now.slots.now
        → WrittenFile tables lent.now.t lent.now.file.now
        verdicts.old findings.old verdicts.new findings.new }
{
    settle_control(0, verdicts, findings);
    let n = judge_groups(lent, kinds::HDR_LENGTH as usize + 2, 1, verdicts, findings);
    settle_control(n.index, verdicts, findings);
}

// The same with the tables as they are lent: they are indexed once, in slots on the stack.
pub fn judge(
    file: &[u8],
    tables: tables::Tables,
    tolerance: Tolerance,
    verdicts: &mut [u8],
    findings: &mut [u8],
)
    requires here { (length file.now ≤ most_bytes) × Here file.now 0 unknown (rest_at file.now 0)
        × Room (length (rest_at file.now 0)) (length verdicts.old) (length findings.old) }
    requires right { (right_table language_size tables.languages.now ≡ true) × (right_table society_size tables.societies.now ≡ true)
        × (right_table category_size tables.categories.now ≡ true) }
    ensures { WrittenFile (lent_in tables.entry) tolerance file.now verdicts.old findings.old verdicts.new findings.new }
{
    let mut slots = [0u32; tables::SLOTS];
    tables.index(&mut slots);
    let lent = Lent {
        file,
        slots: &slots,
        t: tolerance,
    };
    judge_file(&lent, verdicts, findings);
}
