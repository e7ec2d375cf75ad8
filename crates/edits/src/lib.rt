// The findings on one record: one function finds each, and one for each kind of record puts those that it can have into a set, with the
// largest verdict among them. What serves several findings, or the transaction too, is read off the record once.
#![tactic(auto)]

ghost use Rattle.std.specs.Prelude.{◌≡◌, false, ◌||◌, [], ◌∷◌, ◌++◌, ◌+◌, ◌-◌, ◌≤◌, length, replicate};
ghost use Rattle.format.specs.Bytes.{same_bytes};
ghost use Rattle.format.specs.Fields.{field_of};
ghost use Rattle.rules.specs.Values.{full_share, share_of, bad_share};
ghost use Rattle.rules.specs.Findings.{set_of, worst};
ghost use Rattle.findings.specs.Many.{many};
ghost use Rattle.totals.specs.Sums.{AtMost};

use totals::Rights;
use values::Share;

pub mod header;
pub mod other;
pub mod publisher;
pub mod writer;

// A record's own findings, bit n for finding n, and the largest verdict among them.
#[derive(Clone, Copy)]
pub struct Found {
    pub set: u64,
    pub level: u8,
}

// A field of a record: where it begins, counted from 1, and how many bytes it has.
#[derive(Clone, Copy)]
pub struct Field(pub usize, pub usize);

impl Field {
    // The part of the record that it is: lent, not copied.
    pub fn of(self, record: &[u8]) -> &[u8]
        requires { (1 ≤ self.0) × (self.0 - 1 + self.1 ≤ length «record».now) }
        ensures value { result.now ≡ field_of self.0 self.1 «record».now }
        ensures long { length result.now ≡ self.1 }
    {
        text::field(record, self.0, self.1)
    }
}

// The findings from number `first` on hold or not, and no other does.
pub fn gather(first: usize, holds: &[bool]) -> Found
    requires { first + length holds.now ≤ many }
    ensures set_value { result.set ≡ set_of (replicate first false ++ holds.now) }
    ensures level_value { result.level ≡ worst (replicate first false ++ holds.now) }
{
    Found {
        set: findings::pack(first, holds),
        level: findings::worst(first, holds),
    }
}

// Whether a code is this one.
#[tactic(auto, using(text::proofs::Laws::sliced))]
pub fn is_code(code: &[u8], name: &[u8]) -> bool
    ensures { result ≡ same_bytes name.now code.now }
{
    name == code
}

// What the three share fields of a record count, and whether one of them is bad: no Option, as with each of them.
#[derive(Clone, Copy)]
pub struct Shares {
    pub counts: Rights,
    pub bad: bool,
}

// The most for PR is not the same on all records.
fn read_shares(pr: &[u8], mr: &[u8], sr: &[u8], most_pr: u64) -> Shares
    requires { (length pr.now ≡ 5) × (length mr.now ≡ 5) × (length sr.now ≡ 5) }
    ensures counts_value { result.counts ≡ record { pr = share_of pr.now; mr = share_of mr.now; sr = share_of sr.now } }
    ensures bad_value { result.bad ≡ (bad_share most_pr pr.now || bad_share full_share mr.now
        || bad_share full_share sr.now) }
    ensures at_most { AtMost 99999 result.counts }
{
    let p = Share::read(pr, most_pr);
    let m = Share::read(mr, Share::FULL);
    let s = Share::read(sr, Share::FULL);
    Shares {
        counts: Rights {
            pr: p.counts,
            mr: m.counts,
            sr: s.counts,
        },
        bad: p.bad | m.bad | s.bad,
    }
}
