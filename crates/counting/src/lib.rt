// What a sheet tells of a file that is right by 3 to 10 (M-103). The walk is the check's, but nothing is written: how many records carry each
// finding and how many have each level is counted as they come, and the levels are raised at the end of a transaction or a group.
#![tactic(auto)]

ghost use Rattle.std.specs.Prelude.{◌≡◌, ◌+◌, ◌≤◌, length};
ghost use Rattle.format.specs.Table.{hdr, grh, grt, head, unknown};
ghost use Rattle.format.specs.Cwr22.{cwr22};
ghost use Rattle.format.specs.Checks.{cls};
ghost use Rattle.format.specs.Structure.{most_records, first_record};
ghost use Rattle.format.specs.Tree.{groups_in};
ghost use Rattle.rules.specs.Tables.{Tables};
ghost use Rattle.rules.specs.Sheet.{sheet_tolerance};
ghost use Rattle.tables.specs.Index.{Indexed};
ghost use Rattle.structure.specs.Cursor.{Here};
ghost use Rattle.figures.specs.Counted.{whole_of, UpTo, WithinAll, FiguresOf};
ghost use Rattle.transactions.specs.Purposes.{Begun};
ghost use Rattle.transactions.specs.Walk.{rest_at, front_of, Prepared, PastTransaction};
ghost use Rattle.files.specs.Levels.{transactions_of, group_of, PastTransactions, PastGroup, PastGroups};
ghost use Rattle.counting.specs.Levels.{transactions_among, MissingOn, CountedTransaction, CountedTransactions, CountedGroup, CountedGroups};

use figures::{Counters, Figures, Missing};
use files::Next;
use kinds::Class;
use totals::Rights;
use transactions::{Lent, Passed, Purpose};

// ---- a transaction

// The walk has passed it; and its totals.
#[derive(Clone, Copy)]
pub struct Counted {
    pub passed: Passed,
    pub total: Rights,
}

// One transaction, whose header stands here and is that record of the file, in a group whose GRH names that type.
fn count_transaction(
    lent: &Lent,
    at: usize,
    index: usize,
    named: &[u8],
    counters: &mut Counters,
) -> Counted
    requires here { Here lent.now.file.now at head (rest_at lent.now.file.now at)
        × (cls cwr22 (first_record (rest_at lent.now.file.now at)) ≡ head) × (index + length (rest_at lent.now.file.now at) ≤ most_records)
        × Begun index counters.old.findings counters.old.levels }
    requires prepared { Prepared lent.now.slots.now }
    ensures past_transaction { PastTransaction named.now lent.now.file.now (index + length (rest_at lent.now.file.now at))
        (rest_at lent.now.file.now at) result.passed }
    ensures total_value { (result.total ≡ whole_of (front_of (rest_at lent.now.file.now at)))
        × UpTo (length (front_of (rest_at lent.now.file.now at)).details) result.total }
    ensures counted_transaction { (tables : Tables) → Indexed tables lent.now.slots.now
        → CountedTransaction tables lent.now.t named.now index result.passed.index (front_of (rest_at lent.now.file.now at))
        counters.old.findings counters.old.levels counters.new.findings counters.new.levels }
{
    let before = counters.levels;
    let d = transactions::judge_details(
        lent,
        at + kinds::HEADER_LENGTH as usize + 2,
        index + 1,
        Purpose::Count,
        &mut [],
        &mut [],
        counters,
    );
    let w = d.walk;
    let h = transactions::judge_header(lent, at, named, w.tally, d.links);
    counters.count(h.set, h.level);
    counters.settle_transaction(h.rejects | d.rejects, w.index - index, before);
    Counted {
        passed: Passed {
            at: w.at,
            index: w.index,
            class: d.class,
            stray: h.stray,
        },
        total: w.tally.totals.whole(),
    }
}

// ---- a group

// After some transactions of a group: where the walk stands, and what the transactions of the file so far miss of the full share.
#[derive(Clone, Copy)]
pub struct Run {
    pub passed: Passed,
    pub missing: Missing,
}

// The transactions of a group, after its GRH, which names that type. The loop is that of a check: the two are no one generic, which would
// take the step as a parameter, and what it has done as ghost members and their laws, for the five lines that move on.
fn count_transactions(
    lent: &Lent,
    start: usize,
    first: usize,
    named: &[u8],
    missing: Missing,
    counters: &mut Counters,
) -> Run
    requires here { Here lent.now.file.now start grh (rest_at lent.now.file.now start)
        × (first + length (rest_at lent.now.file.now start) ≤ most_records) × Begun first counters.old.findings counters.old.levels × WithinAll first missing }
    requires prepared { Prepared lent.now.slots.now }
    ensures past_transactions { PastTransactions named.now lent.now.file.now (first + length (rest_at lent.now.file.now start))
        (rest_at lent.now.file.now start) result.passed }
    ensures missing_on { MissingOn first result.passed.index (transactions_of (rest_at lent.now.file.now start)) missing result.missing }
    ensures counted_transactions { (tables : Tables) → Indexed tables lent.now.slots.now
        → CountedTransactions tables lent.now.t named.now first result.passed.index (transactions_of (rest_at lent.now.file.now start))
        counters.old.findings counters.old.levels counters.new.findings counters.new.levels }
{
    let mut p = Passed {
        at: start,
        index: first,
        class: Class::Head,
        stray: false,
    };
    let mut m = missing;
    while let Class::Head = p.class {
        let one = count_transaction(lent, p.at, p.index, named, counters);
        let q = one.passed;
        m = m.with(one.total);
        p = Passed {
            at: q.at,
            index: q.index,
            class: q.class,
            stray: p.stray | q.stray,
        };
    }
    Run {
        passed: p,
        missing: m,
    }
}

// After some groups.
#[derive(Clone, Copy)]
pub struct Section {
    pub next: Next,
    pub missing: Missing,
}

// One group, whose GRH stands here and is that record of the file.
fn count_group(
    lent: &Lent,
    at: usize,
    index: usize,
    missing: Missing,
    counters: &mut Counters,
) -> Section
    requires here { Here lent.now.file.now at grt (rest_at lent.now.file.now at)
        × (cls cwr22 (first_record (rest_at lent.now.file.now at)) ≡ grh) × (index + length (rest_at lent.now.file.now at) ≤ most_records)
        × Begun index counters.old.findings counters.old.levels × WithinAll index missing }
    requires prepared { Prepared lent.now.slots.now }
    ensures past_group { PastGroup lent.now.file.now (index + length (rest_at lent.now.file.now at)) (rest_at lent.now.file.now at) result.next }
    ensures missing_on { MissingOn index result.next.index (group_of (rest_at lent.now.file.now at)).transactions missing result.missing }
    ensures counted_group { (tables : Tables) → Indexed tables lent.now.slots.now
        → CountedGroup tables lent.now.t index result.next.index (group_of (rest_at lent.now.file.now at))
        counters.old.findings counters.old.levels counters.new.findings counters.new.levels }
{
    let before = counters.levels;
    let end = at + kinds::GRH_LENGTH as usize;
    let opening = &lent.file[at..end];
    let named = text::field(opening, 4, 3);
    let run = count_transactions(lent, end + 2, index + 1, named, missing, counters);
    let p = run.passed;
    let next = p.index + 1;
    counters.settle_group(p.stray, next - index, before);
    Section {
        next: Next {
            at: p.at + kinds::GRT_LENGTH as usize + 2,
            index: next,
        },
        missing: run.missing,
    }
}

// ---- the file

// The groups that stand here, up to TRL.
fn count_groups(
    lent: &Lent,
    start: usize,
    first: usize,
    missing: Missing,
    counters: &mut Counters,
) -> Section
    requires here { Here lent.now.file.now start hdr (rest_at lent.now.file.now start)
        × (first + length (rest_at lent.now.file.now start) ≤ most_records) × Begun first counters.old.findings counters.old.levels × WithinAll first missing }
    requires prepared { Prepared lent.now.slots.now }
    ensures past_groups { PastGroups lent.now.file.now (first + length (rest_at lent.now.file.now start)) result.next }
    ensures missing_on { MissingOn first result.next.index (transactions_among (groups_in cwr22 (rest_at lent.now.file.now start))) missing result.missing }
    ensures counted_groups { (tables : Tables) → Indexed tables lent.now.slots.now
        → CountedGroups tables lent.now.t first result.next.index (groups_in cwr22 (rest_at lent.now.file.now start))
        counters.old.findings counters.old.levels counters.new.findings counters.new.levels }
{
    let mut n = Next {
        at: start,
        index: first,
    };
    let mut m = missing;
    'groups: while files::is_group(lent.file, n.at) {
        let one = count_group(lent, n.at, n.index, m, counters);
        n = one.next;
        m = one.missing;
    }
    Section {
        next: n,
        missing: m,
    }
}

// All records of a file.
pub fn count_file(lent: &Lent) -> Figures
    requires here { Here lent.now.file.now 0 unknown (rest_at lent.now.file.now 0)
        × (length (rest_at lent.now.file.now 0) ≤ most_records) }
    requires prepared { Prepared lent.now.slots.now }
    ensures within_all { WithinAll most_records result.missing }
    ensures figures_of { (tables : Tables) → Indexed tables lent.now.slots.now → lent.now.t ≡ sheet_tolerance
        → FiguresOf (record { tables = tables; file = lent.now.file.now }) result }
{
    let mut counters = Counters::none();
    let all = count_groups(
        lent,
        kinds::HDR_LENGTH as usize + 2,
        1,
        Missing::none(),
        &mut counters,
    );
    let n = all.next;
    Figures {
        missing: all.missing,
        findings: counters.findings,
        verdicts: counters.by_verdict(n.index + 1),
    }
}
