// A list of claims that the caller lends. Each function over it is thin: what is read of a file, and what a claim adds, is the crate `claims`.
#![tactic(auto)]

ghost use Rattle.std.specs.Prelude.{◌≡◌, true, ◌++◌, ◌≤◌, length, drop, replicate};
ghost use Rattle.format.specs.Structure.{most_records};
ghost use Rattle.rules.specs.Values.{largest_tolerance};
ghost use Rattle.rules.specs.Territories.{right_territories};
ghost use Rattle.claims.specs.Zeros.{no_claim};
ghost use Rattle.claims.specs.Entries.{over_in};
ghost use Rattle.claims.specs.Work.{nothing};
ghost use Rattle.parties.specs.Ahead.{entries_at, Within};

use claims::{Claim, Taken};
use values::Tolerance;

// All entries are zeros.
pub fn clear(claims: &mut [Claim])
    ensures { claims.new ≡ replicate (length claims.old) no_claim }
{
    claims.fill(Claim::default());
}

// The claims of the details from that byte on, one entry each; how many they are.
pub fn fill(file: &[u8], table: &[u8], at: usize, claims: &mut [Claim]) -> usize
    requires { Within file.now table.now at 0 × (length (entries_at file.now table.now at 0) ≤ length claims.old) }
    ensures { (result ≡ length (entries_at file.now table.now at 0)) × (claims.new ≡ entries_at file.now table.now at 0 ++ drop result claims.old) }
{
    let mut here = at;
    let mut party = 0;
    let mut n = 0;
    while let Some(next) = parties::next_claim(file, table, here, party) {
        claims[n] = next.claim;
        n += 1;
        here = next.at;
        party = next.party;
    }
    n
}

// The first territory in which the claims come to too much, with a work table to count in where nothing is counted.
fn exceeding_in(claims: &[Claim], table: &[u8], t: Tolerance, work: &mut [Taken]) -> usize
    requires { (length claims.now ≤ most_records) × (right_territories table.now ≡ true) × (work.old ≡ replicate 512 nothing) }
    ensures { result ≡ over_in table.now t claims.now }
{
    let mut last = 0;
    for claim in claims {
        last = claims::count(last, *claim, table, work);
    }
    claims::first_over(table, t, work)
}

// The same with a work table of its own, of 512 times 56 bytes.
pub fn exceeding(claims: &[Claim], table: &[u8], t: u64) -> usize
    requires { (length claims.now ≤ most_records) × (right_territories table.now ≡ true) × (t ≤ largest_tolerance) }
    ensures { result ≡ over_in table.now t claims.now }
{
    let mut work = [Taken::none(); claims::TERRITORIES];
    let t = Tolerance { hundredths: t };
    exceeding_in(claims, table, t, &mut work)
}
