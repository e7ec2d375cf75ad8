// The first transaction of a file with a TR or GR finding of its own (M-100), in a file that is right by 3 to 10. The walk is the check's,
// but nothing is written and it stops at the first such finding, be it on a detail: no later record is judged.
#![tactic(auto)]

ghost use Rattle.std.specs.Prelude.{◌≡◌, ◌+◌, ◌≤◌, length};
ghost use Rattle.format.specs.Table.{grh, grt, head, unknown};
ghost use Rattle.format.specs.Cwr22.{cwr22};
ghost use Rattle.format.specs.Checks.{cls};
ghost use Rattle.format.specs.Structure.{most_records, first_record};
ghost use Rattle.rules.specs.Tables.{Tables};
ghost use Rattle.rules.specs.Records.{any};
ghost use Rattle.rules.specs.Works.{named_type, transaction_findings};
ghost use Rattle.rules.specs.Verdicts.{joined};
ghost use Rattle.rules.specs.Outcome.{content};
ghost use Rattle.rules.specs.First.{is_grave};
ghost use Rattle.tables.specs.Index.{Indexed};
ghost use Rattle.structure.specs.Cursor.{Here};
ghost use Rattle.transactions.specs.Walk.{rest_at, tail_of, front_of, Prepared};
ghost use Rattle.files.specs.Levels.{transactions_of, group_of};
ghost use Rattle.search.specs.Levels.{PastCleanTransaction, PastCleanGroup, is_grave_transaction};
ghost use Rattle.search.specs.Levels.{sets_of, sets_of_group, first_grave, from, in_group, in_file};

use figures::Counters;
use findings::TR;
use kinds::Class;
use transactions::{Lent, Passed, Purpose};

// One transaction, whose header stands here and is that record of the file, in a group whose GRH names that type: past it, or None where
// a record of its own has such a finding.
fn search_transaction(lent: &Lent, at: usize, index: usize, named: &[u8]) -> Option<Passed>
    requires here { Here lent.now.file.now at head (rest_at lent.now.file.now at)
        × (cls cwr22 (first_record (rest_at lent.now.file.now at)) ≡ head) × (index + length (rest_at lent.now.file.now at) ≤ most_records) }
    requires prepared { Prepared lent.now.slots.now }
    ensures past_clean_transaction { PastCleanTransaction named.now lent.now.file.now (index + length (rest_at lent.now.file.now at))
        (rest_at lent.now.file.now at) result }
    ensures result_value { (tables : Tables) → Indexed tables lent.now.slots.now
        → is_grave_transaction result ≡ any is_grave (transaction_findings tables lent.now.t named.now (front_of (rest_at lent.now.file.now at))) }
{
    let mut none = Counters::none();
    let d = transactions::judge_details(
        lent,
        at + kinds::HEADER_LENGTH as usize + 2,
        index + 1,
        Purpose::Search,
        &mut [],
        &mut [],
        &mut none,
    );
    if d.rejects {
        return None;
    }
    let w = d.walk;
    let h = transactions::judge_header(lent, at, named, w.tally, d.links);
    if h.level >= TR {
        return None;
    }
    Some(Passed {
        at: w.at,
        index: w.index,
        class: d.class,
        stray: h.stray,
    })
}

// Past the transactions of a group, none of which has such a finding; the next one of the file has that number.
#[derive(Clone, Copy)]
pub struct Clean {
    pub passed: Passed,
    pub next: usize,
}

// The transactions of a group, after its GRH, which names that type; the first of them has that number. A loop of its own beside those of the
// check and of the sheet, since it is lent no buffer and ends early. Where one
// has such a finding, its number.
fn search_transactions(
    lent: &Lent,
    start: usize,
    first: usize,
    named: &[u8],
    number: usize,
) -> Result<Clean, usize>
    requires here { Here lent.now.file.now start grh (rest_at lent.now.file.now start)
        × (first + length (rest_at lent.now.file.now start) ≤ most_records) × (number ≤ first) }
    requires prepared { Prepared lent.now.slots.now }
    ensures past_clean_group { PastCleanGroup named.now lent.now.file.now (first + length (rest_at lent.now.file.now start)) number
        (rest_at lent.now.file.now start) result }
    ensures result_value { (tables : Tables) → Indexed tables lent.now.slots.now
        → in_group result ≡ from number (first_grave (sets_of tables lent.now.t named.now (transactions_of (rest_at lent.now.file.now start)))) }
{
    let mut p = Passed {
        at: start,
        index: first,
        class: Class::Head,
        stray: false,
    };
    let mut k = number;
    while let Class::Head = p.class {
        let Some(q) = search_transaction(lent, p.at, p.index, named) else {
            return Err(k);
        };
        p = Passed {
            at: q.at,
            index: q.index,
            class: q.class,
            stray: p.stray | q.stray,
        };
        k += 1;
    }
    Ok(Clean { passed: p, next: k })
}

// One group, whose GRH stands here and is that record of the file; its first transaction has that number.
fn search_group(lent: &Lent, at: usize, index: usize, number: usize) -> Result<Clean, usize>
    requires here { Here lent.now.file.now at grt (rest_at lent.now.file.now at)
        × (cls cwr22 (first_record (rest_at lent.now.file.now at)) ≡ grh)
        × (index + length (rest_at lent.now.file.now at) ≤ most_records) × (number ≤ index) }
    requires prepared { Prepared lent.now.slots.now }
    ensures past_clean_group { PastCleanGroup (named_type (first_record (rest_at lent.now.file.now at))) lent.now.file.now
        (index + length (rest_at lent.now.file.now at)) number (tail_of (rest_at lent.now.file.now at)) result }
    ensures result_value { (tables : Tables) → Indexed tables lent.now.slots.now
        → in_group result ≡ from number (first_grave (sets_of_group tables lent.now.t (group_of (rest_at lent.now.file.now at)))) }
{
    let end = at + kinds::GRH_LENGTH as usize;
    let opening = &lent.file[at..end];
    let named = text::field(opening, 4, 3);
    search_transactions(lent, end + 2, index + 1, named, number)
}

// The groups of a file: the number of its first such transaction.
pub fn search(lent: &Lent) -> Option<usize>
    requires here { Here lent.now.file.now 0 unknown (rest_at lent.now.file.now 0)
        × (length (rest_at lent.now.file.now 0) ≤ most_records) }
    requires prepared { Prepared lent.now.slots.now }
    ensures { (tables : Tables) → Indexed tables lent.now.slots.now
        → in_file result ≡ first_grave (joined (sets_of_group tables lent.now.t) (content lent.now.file.now).groups) }
{
    let mut n = files::Next {
        at: kinds::HDR_LENGTH as usize + 2,
        index: 1,
    };
    let mut k = 0;
    'groups: while files::is_group(lent.file, n.at) {
        match search_group(lent, n.at, n.index, k) {
            Err(found) => return Some(found),
            Ok(clean) => {
                let p = clean.passed;
                n = files::Next {
                    at: p.at + kinds::GRT_LENGTH as usize + 2,
                    index: p.index + 1,
                };
                k = clean.next;
            }
        }
    }
    None
}
