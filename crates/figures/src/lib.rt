// What a catalogue sheet tells of one file (M-103), counted as its records and transactions come: by right what they miss of the full share,
// how many records carry each finding, and how many have each verdict.
#![tactic(auto)]

ghost use Rattle.std.specs.Prelude.{◌≡◌, Bool, cond, List, [], ◌∷◌, ◌++◌, ℕ, ◌+◌, ◌-◌, ◌*◌, ◌≤◌, length};
ghost use Rattle.format.specs.Bytes.{All};
ghost use Rattle.format.specs.Doc.{Transaction};
ghost use Rattle.format.specs.Structure.{most_records};
ghost use Rattle.rules.specs.Findings.{TR, GR, set_of, places, verdict, worst};
ghost use Rattle.rules.specs.Sheet.{counts_by_verdict};
ghost use Rattle.rules.specs.Verdicts.{raised};
ghost use Rattle.findings.specs.Many.{many};
ghost use Rattle.figures.specs.Counted.{misses_of, missing_of, whole_of, UpTo, Within, WithinAll, counts_by_level, Counts, Few, Grown, Grows, plus_bits};

use totals::Rights;
use values::Share;

// ---- what transactions miss of the full share

// Of one right: how many miss it, the largest shortfall and the largest excess, and all shortfalls and all excesses added up. The two sums
// are kept apart, since apart they need no sign.
#[derive(Clone, Copy)]
pub struct Misses {
    pub transactions: u64,
    pub shortfall: u64,
    pub excess: u64,
    pub short: u64,
    pub over: u64,
}

impl Misses {
    pub fn none() -> Misses
        ensures { (result ≡ misses_of []) × Within 0 result }
    {
        Misses {
            transactions: 0,
            shortfall: 0,
            excess: 0,
            short: 0,
            over: 0,
        }
    }

    // With a transaction more that has this total.
    pub fn with(mut self, total: u64) -> Misses
        requires { Within most_records self × (total ≤ 200000 * most_records) }
        ensures value { (totals : List ℕ) → self ≡ misses_of totals → result ≡ misses_of (totals ++ total ∷ []) }
        ensures within { (k n : ℕ) → Within k self → total ≤ 200000 * n → 1 ≤ n → Within (k + n) result }
    {
        if (total == 0) | (total == Share::FULL) {
            return self;
        }
        let short = Share::FULL.saturating_sub(total);
        let over = total.saturating_sub(Share::FULL);
        self.transactions += 1;
        self.shortfall = self.shortfall.max(short);
        self.excess = self.excess.max(over);
        self.short += short;
        self.over += over;
        self
    }
}

// Of the three rights.
#[derive(Clone, Copy)]
pub struct Missing {
    pub pr: Misses,
    pub mr: Misses,
    pub sr: Misses,
}

impl Missing {
    pub fn none() -> Missing
        ensures { (result ≡ missing_of []) × WithinAll 0 result }
    {
        let none = Misses::none();
        Missing {
            pr: none,
            mr: none,
            sr: none,
        }
    }

    // With a transaction more that has these totals.
    pub fn with(mut self, total: Rights) -> Missing
        requires { WithinAll most_records self × UpTo most_records total }
        ensures value { (xs : List Transaction) (x : Transaction) → self ≡ missing_of xs → total ≡ whole_of x → result ≡ missing_of (xs ++ x ∷ []) }
        ensures within { (k n : ℕ) → WithinAll k self → UpTo n total → 1 ≤ n → WithinAll (k + n) result }
    {
        self.pr = self.pr.with(total.pr);
        self.mr = self.mr.with(total.mr);
        self.sr = self.sr.with(total.sr);
        self
    }
}

// ---- records

// How many records carry each finding, and how many have each of the verdicts 1 to 4: those with 0 are all others.
#[derive(Clone, Copy)]
pub struct Counters {
    pub findings: [u64; 64],
    pub levels: [u64; 4],
}

impl Counters {
    // Of no record.
    pub fn none() -> Counters
        ensures { Counts [] [] result.findings result.levels }
    {
        Counters {
            findings: [0; 64],
            levels: [0; 4],
        }
    }

    // One record more, with its findings and its verdict. Most have none, and nothing is done for those.
    pub fn count(&mut self, set: u64, verdict: u8)
        requires { Few self.old.findings self.old.levels × (verdict ≤ 4) }
        ensures { (sets : List (List Bool)) (vs : List ℕ) (s : List Bool) → set ≡ set_of s → verdict ≡ worst s → length s ≤ many
            → Counts sets vs self.old.findings self.old.levels
            → Counts (sets ++ s ∷ []) (vs ++ verdict ∷ []) self.new.findings self.new.levels }
    {
        if 0 < verdict {
            count_set(set, &mut self.findings);
            let l = usize::from(verdict) - 1;
            self.levels[l] += 1;
        }
    }

    // After a transaction of so many records, each counted with its own verdict: where it is rejected, none of them stays below TR.
    // `before` are the counts by level without it.
    pub fn settle_transaction(&mut self, rejected: bool, records: usize, before: [u64; 4])
        requires { Grows records before self.old.levels }
        ensures findings { self.new.findings ≡ self.old.findings }
        ensures levels { (us vs : List ℕ) → Grown us vs records before self.old.levels
            → self.new.levels ≡ counts_by_level (us ++ raised (cond rejected (verdict TR) 0) vs) }
    {
        if rejected {
            // All but those at GR.
            let others = before[3] + records as u64 - self.levels[3];
            self.levels[0] = before[0];
            self.levels[1] = before[1];
            self.levels[2] = before[2] + others;
        }
    }

    // After a group: where it is rejected, all its records come to GR.
    pub fn settle_group(&mut self, rejected: bool, records: usize, before: [u64; 4])
        requires { Grows records before self.old.levels }
        ensures findings { self.new.findings ≡ self.old.findings }
        ensures levels { (us vs : List ℕ) → Grown us vs records before self.old.levels
            → self.new.levels ≡ counts_by_level (us ++ raised (cond rejected (verdict GR) 0) vs) }
    {
        if rejected {
            self.levels = before;
            self.levels[3] = before[3] + records as u64;
        }
    }

    // At the end of a file: how many of its records have each of the verdicts 0 to 4.
    pub fn by_verdict(&self, records: usize) -> [u64; 5]
        requires { Grows records (counts_by_level []) self.now.levels }
        ensures { (vs : List ℕ) → Grown [] vs records (counts_by_level []) self.now.levels → result ≡ counts_by_verdict vs }
    {
        let [a, b, c, d] = self.levels;
        [records as u64 - (a + b + c + d), a, b, c, d]
    }
}

// One more for each finding in the set.
fn count_set(set: u64, findings: &mut [u64; 64])
    requires { All (λ n. n ≤ most_records) findings.old }
    ensures { findings.new ≡ plus_bits findings.old (places 64 set) }
{
    let mut left = set;
    while 0 < left {
        let i = u64::trailing_zeros(left) as usize;
        findings[i] += 1;
        left = left - (1 << i);
    }
}

// ---- a whole file

#[derive(Clone, Copy)]
pub struct Figures {
    pub missing: Missing,
    pub findings: [u64; 64],
    pub verdicts: [u64; 5],
}
