// The claims of a transaction as entries of a list, and what they come to in each territory. A work table has one element for a territory.
#![tactic(auto)]

ghost use Rattle.std.specs.Prelude.{◌≡◌, true, false, cond, ◌&&◌, ◌||◌, List, [], ◌∷◌, ◌++◌, ℕ, ◌+◌, ◌*◌, ◌^◌, ◌<◌, ◌≤◌, eqb, ltb, length, get_or, replicate};
ghost use Rattle.rules.specs.Values.{full_share};
ghost use Rattle.rules.specs.Totals.{PR, MR, SR, exceeds};
ghost use Rattle.rules.specs.Territories.{territories_in, right_territories};
ghost use Rattle.totals.specs.Sums.{rights, AtMost};
ghost use Rattle.claims.specs.declared.Claim.{Claim};
ghost use Rattle.claims.specs.Entries.{gives, over_in};
ghost use Rattle.claims.specs.Work.{nothing, taken_with, Small, Counted, Underway, Summed, Held};

use totals::Rights;
use values::{Share, Tolerance};

// One claim, as the caller's list holds it. A C program lends the list, so that any bytes may stand in it before.
#[repr(C)]
#[derive(Clone, Copy, Default)]
pub struct Claim {
    // The number of its party in the transaction, from 1; 0 for a claim before any party, or one that is ignored.
    pub party: u32,
    // The position of its territory in the table.
    pub code: u32,
    // The byte that says whether it includes or excludes.
    pub mark: u32,
    pub pr: u32,
    pub mr: u32,
    pub sr: u32,
}

// The mark of a claim that excludes.
const EXCLUDES: u32 = 69;

impl Claim {
    // What it gives, by right.
    fn given(self) -> Rights
        ensures value { result ≡ rights (λ right. gives right self) }
        ensures at_most { AtMost (2 ^ 32) result }
    {
        let out = self.mark == EXCLUDES;
        Rights {
            pr: choice::pick(out, 0, u64::from(self.pr)),
            mr: choice::pick(out, 0, u64::from(self.mr)),
            sr: choice::pick(out, 0, u64::from(self.sr)),
        }
    }
}

// ---- the work table

// It has an element for each territory that a table may have.
pub const TERRITORIES: usize = territories::MOST;

// What the entries counted so far come to in one territory.
#[derive(Clone, Copy)]
pub struct Taken {
    // Whether the entry at hand speaks of it.
    pub speaks: bool,
    // What the party at hand gives there.
    pub current: Rights,
    // What the parties before it gave.
    pub before: Rights,
}

impl Taken {
    // Before any entry.
    pub fn none() -> Taken
        ensures { result ≡ nothing }
    {
        Taken {
            speaks: false,
            current: Rights::none(),
            before: Rights::none(),
        }
    }

    // With one entry more, that speaks of the territory or not, and begins a party or not.
    fn with(self, speaks: bool, begins: bool, given: Rights) -> Taken
        requires { Small self }
        ensures { result ≡ taken_with speaks begins given self }
    {
        let none = Rights::none();
        Taken {
            speaks,
            current: choice::pick(speaks, given, choice::pick(begins, none, self.current)),
            before: self.before.with(choice::pick(begins, self.current, none)),
        }
    }

    // Whether some right comes to more than all.
    fn is_over(self, t: Tolerance) -> bool
        requires { Small self }
        ensures { result ≡ (exceeds t full_share (self.before.pr + self.current.pr)
            || exceeds t full_share (self.before.mr + self.current.mr)
            || exceeds t full_share (self.before.sr + self.current.sr)) }
    {
        let all = self.before.with(self.current);
        exceeds(all.pr, t) | exceeds(all.mr, t) | exceeds(all.sr, t)
    }
}

// Whether the entry at hand speaks of the group of the territory at position j. A group stands earlier, so that its flag is set by then.
fn group_spoken(work: &[Taken], group: usize, j: usize) -> bool
    requires { j ≤ length work.now }
    ensures { result ≡ (ltb group j && (get_or work.now group nothing).speaks) }
{
    group < j && work[group].speaks
}

// With one entry more, after an entry of that party; the party at hand is answered. Groups stand before what they hold, so one pass does.
pub fn count(last: u32, claim: Claim, table: &[u8], work: &mut [Taken]) -> u32
    requires { Underway table.now last work.old }
    ensures { (es : List Claim) → Counted table.now es last work.old
        → Counted table.now (es ++ claim ∷ []) result work.new }
{
    if claim.party == 0 {
        return last;
    }
    let begins = claim.party != last;
    let given = claim.given();
    let n = territories::count(table);
    let code = claim.code as usize;
    for j in 0..n {
        let group = territories::group(table, j);
        let speaks = (j == code) | group_spoken(work, group, j);
        let taken = &mut work[j];
        *taken = taken.with(speaks, begins, given);
    }
    claim.party
}

// ---- the first territory that is over

fn hold(held: &mut [bool; 512], group: usize)
    requires { length held.old ≡ 512 }
    ensures held_len { length held.new ≡ 512 }
    ensures by_index { (i : ℕ) → i < 512 → get_or held.new i false ≡ (get_or held.old i false || eqb group i) }
{
    if group < territories::MOST {
        held[group] = true;
    }
}

// Marks the positions of groups, where none is marked.
fn hold_all(table: &[u8], held: &mut [bool; 512])
    requires { (right_territories table.now ≡ true) × (held.old ≡ replicate 512 false) }
    ensures { Held (territories_in table.now) held.new }
{
    let n = territories::count(table);
    for j in 0..n {
        let group = territories::group(table, j);
        hold(held, group);
    }
}

// Whether a share is more than all.
fn exceeds(share: u64, t: Tolerance) -> bool
    ensures { result ≡ exceeds t full_share share }
{
    !Share::at_most(share, Share::FULL, t)
}

// The first territory without members in which the entries counted come to more than all of some right; where there is none, how many
// territories there are. No Option, as with a code's place.
pub fn first_over(table: &[u8], t: Tolerance, work: &[Taken]) -> usize
    requires { (right_territories table.now ≡ true) × Summed table.now work.now }
    ensures { (es : List Claim) (last : ℕ) → Counted table.now es last work.now → result ≡ over_in table.now t es }
{
    let mut held: [bool; 512] = [false; 512];
    hold_all(table, &mut held);
    let n = territories::count(table);
    for j in 0..n {
        if !held[j] & work[j].is_over(t) {
            return j;
        }
    }
    n
}
