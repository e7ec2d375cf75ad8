// The claims of a transaction, read off a lent file one by one; and a quick test, by each party's largest share, that they are too small to
// come to more than all anywhere.
#![tactic(auto)]

ghost use Rattle.std.specs.Prelude.{◌≡◌, true, cond, ◌||◌, List, [], ◌∷◌, ◌++◌, ℕ, ◌+◌, ◌^◌, ◌<◌, ◌≤◌, eqb, length, take, drop};
ghost use Rattle.rules.specs.Values.{full_share};
ghost use Rattle.rules.specs.Totals.{Right};
ghost use Rattle.rules.specs.Territories.{Territory, codes_of};
ghost use Rattle.rules.specs.Collection.{claim_field, mark as Collection·mark, claimed};
ghost use Rattle.claims.specs.declared.Claim.{Claim};
ghost use Rattle.claims.specs.Entries.{entry_of, share_of};
ghost use Rattle.claims.specs.Work.{of_right};
ghost use Rattle.territories.specs.Positions.{place_of};
ghost use Rattle.totals.specs.Sums.{rights, AtMost};
ghost use Rattle.rules.specs.Findings.{larger};
ghost use Rattle.kinds.specs.Rows.{of_party};
ghost use Rattle.parties.specs.Records.{ClaimRecord, Reads};
ghost use Rattle.parties.specs.Ahead.{Within, Found, Ahead, ClaimRow};
ghost use Rattle.parties.specs.Most.{most_from, Most, Begun, Added};

use claims::Claim;
use kinds::{Class, Row, Sort};
use totals::Rights;
use values::{Share, Tolerance};

// ---- a claim record

// A publisher's claim, or a writer's, as it is lent.
#[derive(Clone, Copy)]
pub struct Record<'a> {
    pub bytes: &'a [u8],
    pub publishers: bool,
    pub ghost right: { ClaimRecord publishers bytes.now },
}

// The most that five digits write.
const FIVE_NINES: u64 = 99999;

impl<'a> Record<'a> {
    // The field that begins so many bytes after the shares do. A writer's claim lacks the six constant bytes that stand before them in a
    // publisher's.
    fn field(self, on: usize, size: usize) -> &'a [u8]
        requires { on + size ≤ 20 }
        ensures result_value { result.now ≡ claim_field (35 + on) (29 + on) size self.entry.bytes.now }
        ensures result_len { length result.now ≡ size }
    {
        text::field(self.bytes, choice::pick(self.publishers, 35, 29) + on, size)
    }

    // The share that stands there.
    fn share(self, on: usize) -> Share
        requires { on + 5 ≤ 20 }
        ensures { Reads (claim_field (35 + on) (29 + on) 5 self.entry.bytes.now) result }
    {
        Share::read(self.field(on, 5), FIVE_NINES)
    }

    fn mark(self) -> u8
        ensures { Collection·mark self.entry.bytes.now ≡ result ∷ [] }
    {
        let mark = self.field(15, 1);
        mark[0]
    }

    // The code of the territory that it names.
    pub fn code(self) -> &'a [u8]
        ensures result_value { result.now ≡ claimed self.entry.bytes.now }
        ensures result_len { length result.now ≡ 4 }
    {
        self.field(16, 4)
    }

    // Its entry, for that party; that of a claim which is ignored is all zeros. place is where its code stands in a table of so many
    // territories.
    pub fn entry(self, place: usize, count: usize, party: u32) -> Claim
        requires { place < 2 ^ 32 }
        ensures { (T : List Territory) → place ≡ place_of (claimed self.entry.bytes.now) (codes_of T) → count ≡ length T
            → result ≡ entry_of T party self.entry.bytes.now }
    {
        let pr = self.share(0);
        let mr = self.share(5);
        let sr = self.share(10);
        let mark = self.mark();
        let right = (place < count)
            & ((b'I' == mark) | (b'E' == mark))
            & !pr.bad
            & !mr.bad
            & !sr.bad;
        if right {
            Claim {
                party,
                code: place as u32,
                mark: u32::from(mark),
                pr: pr.counts as u32,
                mr: mr.counts as u32,
                sr: sr.counts as u32,
            }
        } else {
            Claim::default()
        }
    }
}

// ---- each party's largest shares

// By right: what the largest shares of the parties before add up to, and that of the party at hand, which has this number.
#[derive(Clone, Copy)]
pub struct Largest {
    pub party: u32,
    pub before: Rights,
    pub current: Rights,
}

// These shares where c holds, else none.
fn only(c: bool, shares: Rights) -> Rights
    ensures value { result ≡ rights (λ right. cond c (of_right shares right) 0) }
    ensures by_index { (most : ℕ) → AtMost most shares → AtMost most result }
{
    Rights {
        pr: choice::pick(c, shares.pr, 0),
        mr: choice::pick(c, shares.mr, 0),
        sr: choice::pick(c, shares.sr, 0),
    }
}

// By right, the larger of a claim's share and one of these.
fn larger_of(claim: Claim, shares: Rights) -> Rights
    ensures { result ≡ rights (λ right. larger (share_of right claim) (of_right shares right)) }
{
    Rights {
        pr: u64::from(claim.pr).max(shares.pr),
        mr: u64::from(claim.mr).max(shares.mr),
        sr: u64::from(claim.sr).max(shares.sr),
    }
}

impl Largest {
    pub fn start() -> Largest
        ensures { Most [] result }
    {
        let none = Rights::none();
        Largest {
            party: 0,
            before: none,
            current: none,
        }
    }

    // With one claim more.
    pub fn with(self, claim: Claim) -> Largest
        requires { Begun self }
        ensures { (es : List Claim) → Most es self → Most (es ++ claim ∷ []) result }
    {
        if claim.party == 0 {
            return self;
        }
        let begins = claim.party != self.party;
        Largest {
            party: claim.party,
            before: self.before.with(only(begins, self.current)),
            current: larger_of(claim, only(!begins, self.current)),
        }
    }

    // Whether they add up to no more than all of each right. Then no territory is over; else one may be, or none.
    pub fn fits(self, t: Tolerance) -> bool
        requires { Added self }
        ensures { (es : List Claim) → Most es self → result ≡ true → (right : Right) → most_from right 0 0 es ≤ full_share + t }
    {
        let total = self.before.with(self.current);
        Share::at_most(total.pr, Share::FULL, t)
            & Share::at_most(total.mr, Share::FULL, t)
            & Share::at_most(total.sr, Share::FULL, t)
    }
}

// ---- from one claim to the next

// The next claim; where the record after it begins, and how many parties have begun by then.
#[derive(Clone, Copy)]
pub struct Next {
    pub at: usize,
    pub party: u32,
    pub claim: Claim,
}

// How many parties begin with a record of that row: 1 with SPU, OPU, SWR and OWR.
fn parties_in(row: Row) -> u32
    ensures value { result ≡ cond (of_party row.sort) 1 0 }
    ensures upper_bound { result ≤ 1 }
{
    u32::from(row.sort.is_party())
}

// The claim that stands here, and whose row this is.
fn claim_at(file: &[u8], table: &[u8], at: usize, row: Row, party: u32) -> Next
    requires { Within file.now table.now at party × ClaimRow row (take 3 (drop at file.now)) }
    ensures { Found file.now table.now at party result }
{
    let end = at + row.size();
    let record = Record {
        bytes: &file[at..end],
        publishers: row.sort == Sort::PublishersClaim,
    };
    let place = territories::position(table, record.code());
    let claim = record.entry(place, territories::count(table), party);
    Next {
        at: end + 2,
        party,
        claim,
    }
}

// From a byte on, in a transaction after its header, where so many parties have begun: the next claim, if one is left.
pub fn next_claim(file: &[u8], table: &[u8], at: usize, party: u32) -> Option<Next>
    requires { Within file.now table.now at party }
    ensures { Ahead file.now table.now at party result }
{
    let rows = kinds::table();
    let mut here = at;
    let mut parties = party;
    loop {
        let k = transactions::hint_at(file, here);
        let row = transactions::row_at(rows[k], file, here);
        let Class::Detail = row.class else {
            return None;
        };
        if row.sort.is_claim() {
            return Some(claim_at(file, table, here, row, parties));
        }
        parties += parties_in(row);
        here += row.size() + 2;
    }
}
