// The chains of publishers in a transaction, findings 11 to 14 and 32: one tally for each two-digit sequence number, 00 to 99, all empty
// at the start.
#![tactic(auto)]

ghost use Rattle.std.specs.Prelude.{◌≡◌, true, false, List, [], ◌∷◌, ◌++◌, ◌≤◌, ◌<◌};
ghost use Rattle.format.specs.Bytes.{Bytes};
ghost use Rattle.rules.specs.Records.{is_type, any};
ghost use Rattle.rules.specs.Publisher.{in_chain, is_e, is_aq, e_spu, earlier_e};
ghost use Rattle.rules.specs.Chains.{all_shares, is12};
ghost use Rattle.edits.specs.Readings.{PublisherReads, Bounded};
ghost use Rattle.chains.specs.Tallies.{begun_by, own_shares, TallyOf, Tallied, Small};

use edits::publisher::{Publisher, Sequence};

// The tallies, an entry for each chain, and what the chains have shown so far.
#[derive(Drop)]
pub struct Chains {
    // What a chain's first record is: 1 for SPU, 2 for OPU, 0 while it has none.
    pub begun: [u8; 100],
    // How many E records it has.
    pub es: [u32; 100],
    // Whether one of them is an SPU.
    pub own: [bool; 100],
    // Whether one of them has a share above 0.
    pub paid: [bool; 100],
    // The shares of its SPU records of type E and AQ, all rights together.
    pub sums: [u64; 100],
    // Finding 11: some chain has more than one E.
    pub many: bool,
    // Finding 13: an OPU is in a chain begun by SPU.
    pub joined: bool,
    // Finding 14: an AQ SPU is in a chain where an earlier E has a share.
    pub kept: bool,
}

impl Chains {
    // Before the first record.
    pub fn none() -> Chains
        ensures { Tallied result [] }
    {
        Chains {
            begun: [0; 100],
            es: [0; 100],
            own: [false; 100],
            paid: [false; 100],
            sums: [0; 100],
            many: false,
            joined: false,
            kept: false,
        }
    }

    // One publisher record more; one whose sequence number isn't two digits is in no chain.
    pub fn join(&mut self, p: Publisher)
        requires bounded { Bounded p }
        requires small { Small self.old }
        ensures { (ds : List Bytes) (r : Bytes) → Tallied self.old ds → PublisherReads p r → Tallied self.new (ds ++ r ∷ []) }
    {
        let shares = p.shares;
        match p.sequence {
            Sequence::Number(k) => self.join_chain(
                usize::from(k),
                p.spu,
                p.e,
                p.aq,
                shares.pr + shares.mr + shares.sr,
            ),
            Sequence::NotDigits | Sequence::NoRecord => {}
        }
    }

    // The same in chain k: whether the record is an SPU, its type in force, and its three shares together. What it adds to a finding is
    // read off the tallies before it.
    fn join_chain(&mut self, k: usize, spu: bool, e: bool, aq: bool, shares: u64)
        requires chain { k < 100 }
        requires shares { shares ≤ 299997 }
        requires small { Small self.old }
        ensures { (ds : List Bytes) (r : Bytes) → Tallied self.old ds
            → in_chain k r ≡ true → is_type "SPU" r ≡ spu → is_e r ≡ e → is_aq r ≡ aq → all_shares r ≡ shares
            → Tallied self.new (ds ++ r ∷ []) }
    {
        let first = self.begun[k];
        let count = self.es[k];
        let known = self.own[k];
        let earned = self.paid[k];
        let sum = self.sums[k];
        self.begun[k] = choice::pick(first == 0, choice::pick(spu, 1, 2), first);
        self.es[k] = count + u32::from(e);
        self.own[k] = known | (spu & e);
        self.paid[k] = earned | (e & (0 < shares));
        self.sums[k] = sum + choice::pick(spu & (e | aq), shares, 0);
        self.many |= e & (0 < count);
        self.joined |= !spu & (first == 1);
        self.kept |= earned & spu & aq;
    }

    // Whether the chain of the record has an SPU of type E, for finding 32.
    pub fn knows_e(&self, p: Publisher) -> bool
        requires { Bounded p }
        ensures { (ds : List Bytes) (r : Bytes) → TallyOf self.now.own false (any e_spu) ds → PublisherReads p r → result ≡ earlier_e ds r }
    {
        match p.sequence {
            Sequence::Number(k) => self.own[usize::from(k)],
            Sequence::NotDigits | Sequence::NoRecord => false,
        }
    }

    // Finding 12: in some chain begun by SPU, the SPU records of type E and AQ have no share.
    pub fn found_12(&self) -> bool
        ensures { (ds : List Bytes) → TallyOf self.now.begun 0 begun_by ds → TallyOf self.now.sums 0 own_shares ds → result ≡ is12 ds }
    {
        let mut found = false;
        for (begun, sum) in self.begun.iter().zip(self.sums.iter()) {
            found |= (*begun == 1) & (*sum == 0);
        }
        found
    }
}
