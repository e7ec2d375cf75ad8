// What a check writes into the two buffers that it was lent: for each record one verdict byte, and the eight bytes of its findings.
#![tactic(auto)]

ghost use Rattle.std.specs.Prelude.{◌≡◌, Bool, cond, List, [], ◌∷◌, ◌+◌, ◌*◌, ◌<◌, ◌≤◌, length};
ghost use Rattle.rules.specs.Findings.{set_of};
ghost use Rattle.rules.specs.Verdicts.{raised};
ghost use Rattle.buffers.specs.Written.{Written};

// Writes one record's verdict and findings, each to the record's place.
pub fn settle(index: usize, set: u64, verdict: u8, verdicts: &mut [u8], findings: &mut [u8])
    requires { (index < length verdicts.old) × (8 * (index + 1) ≤ length findings.old) }
    ensures { (s : List Bool) → set ≡ set_of s
        → Written index (verdict ∷ []) (s ∷ [])
        verdicts.old findings.old verdicts.new findings.new }
{
    verdicts[index] = verdict;
    let end = 8 * (index + 1);
    let start = end - 8;
    text::store_eight(set, &mut findings[start..end]);
}

// Below which no verdict of a transaction or a group stays: that verdict, where some record's finding gives it to all of them.
pub fn least(raises: bool, verdict: u8) -> u8
    ensures { result ≡ cond raises verdict 0 }
{
    if raises { verdict } else { 0 }
}

// Leaves no verdict below `least` in this part.
pub fn raise(part: &mut [u8], least: u8)
    ensures { part.new ≡ raised least part.old }
{
    for verdict in part {
        *verdict = least.max(*verdict);
    }
}
