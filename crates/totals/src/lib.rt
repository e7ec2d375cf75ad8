// The totals of a transaction's shares, and findings 1 to 3 on them. Nothing wraps: a transaction may hold 92,000 share records at 99999,
// whose total is past 32 bits.
#![tactic(auto)]

ghost use Rattle.std.specs.Prelude.{◌≡◌, true, List, [], ◌∷◌, ◌++◌, ℕ, ◌+◌, ◌^◌};
ghost use Rattle.format.specs.Bytes.{Bytes};
ghost use Rattle.rules.specs.Records.{is_publisher, is_writer};
ghost use Rattle.rules.specs.Totals.{publisher_share, writer_share, whole_total, zero_or_full, is1, is2, is3};
ghost use Rattle.totals.specs.Sums.{rights, plus, AtMost, Sums, Below};

use values::{Share, Tolerance};

// Shares of the three rights, in hundredths of a percent: one record's, or a total.
#[derive(Clone, Copy)]
pub struct Rights {
    pub pr: u64,
    pub mr: u64,
    pub sr: u64,
}

// The totals over SPU and OPU, and over SWR and OWR.
#[derive(Clone, Copy)]
pub struct Totals {
    pub publishers: Rights,
    pub writers: Rights,
}

impl Rights {
    pub fn none() -> Rights
        ensures { result ≡ rights (λ _. 0) }
    {
        let zero = Share::zero().counts;
        Rights {
            pr: zero,
            mr: zero,
            sr: zero,
        }
    }

    pub fn with(mut self, shares: Rights) -> Rights
        requires { AtMost (2 ^ 60) self × AtMost (2 ^ 60) shares }
        ensures { result ≡ plus self shares }
    {
        self.pr += shares.pr;
        self.mr += shares.mr;
        self.sr += shares.sr;
        self
    }
}

impl Totals {
    #[tactic(auto, unfolding(rules::specs::Totals::publishers_total, rules::specs::Totals::writers_total))]
    pub fn zero() -> Totals
        ensures { Sums result [] × Below 0 result }
    {
        let none = Rights::none();
        Totals {
            publishers: none,
            writers: none,
        }
    }

    // With the shares of one publisher record more.
    pub fn with_publisher(mut self, shares: Rights) -> Totals
        requires { Below (2 ^ 60) self × AtMost 99999 shares }
        ensures sums { (ds : List Bytes) (r : Bytes) → Sums self ds → is_publisher r ≡ true
            → shares ≡ rights (λ right. publisher_share right r) → Sums result (ds ++ r ∷ []) }
        ensures grown { (k : ℕ) → Below k self → Below (k + 99999) result }
    {
        self.publishers = self.publishers.with(shares);
        self
    }

    // With the shares of one writer record more.
    pub fn with_writer(mut self, shares: Rights) -> Totals
        requires { Below (2 ^ 60) self × AtMost 99999 shares }
        ensures sums { (ds : List Bytes) (r : Bytes) → Sums self ds → is_writer r ≡ true
            → shares ≡ rights (λ right. writer_share right r) → Sums result (ds ++ r ∷ []) }
        ensures grown { (k : ℕ) → Below k self → Below (k + 99999) result }
    {
        self.writers = self.writers.with(shares);
        self
    }

    // Of all four kinds of record together.
    pub fn whole(self) -> Rights
        requires { Below (2 ^ 60) self }
        ensures value { (ds : List Bytes) → Sums self ds → result ≡ rights (λ right. whole_total right ds) }
        ensures by_index { (k : ℕ) → Below k self → AtMost (k + k) result }
    {
        self.publishers.with(self.writers)
    }

    // Finding 1: the publishers' totals are too high.
    #[tactic(auto, unfolding(rules::specs::Totals::is1))]
    pub fn found_1(self, t: Tolerance) -> bool
        ensures { (ds : List Bytes) → Sums self ds → result ≡ is1 t ds }
    {
        let total = self.publishers;
        !Share::at_most(total.pr, Share::HALF, t)
            | !Share::at_most(total.mr, Share::FULL, t)
            | !Share::at_most(total.sr, Share::FULL, t)
    }

    // Finding 2: the writers' total for performing rights is more than small change and less than half, or one of theirs is too high.
    #[tactic(auto, unfolding(rules::specs::Totals::is2))]
    pub fn found_2(self, t: Tolerance) -> bool
        ensures { (ds : List Bytes) → Sums self ds → result ≡ is2 t ds }
    {
        let total = self.writers;
        !(Share::at_most(total.pr, 0, t) | Share::at_least(total.pr, Share::HALF, t.hundredths))
            | !Share::at_most(total.pr, Share::FULL, t)
            | !Share::at_most(total.mr, Share::FULL, t)
            | !Share::at_most(total.sr, Share::FULL, t)
    }

    // Finding 3: some right is neither without shares nor shared out in full.
    #[tactic(auto, unfolding(rules::specs::Totals::is3))]
    pub fn found_3(self, t: Tolerance) -> bool
        requires { Below (2 ^ 60) self }
        ensures { (ds : List Bytes) → Sums self ds → result ≡ is3 t ds }
    {
        let total = self.whole();
        !(zero_or_full(total.pr, t) & zero_or_full(total.mr, t) & zero_or_full(total.sr, t))
    }
}

fn zero_or_full(total: u64, t: Tolerance) -> bool
    ensures { result ≡ zero_or_full t total }
{
    (total == 0) | Share::about(total, Share::FULL, t)
}
