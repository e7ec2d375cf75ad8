// Refusal 14 of a check with a territory table (M-105): the first transaction with more claims than the lent list has entries, in a file that is
// right by 3 to 10. One walk over all records, which stops at the first claim that is too many.
#![tactic(auto)]

ghost use Rattle.std.specs.Prelude.{◌≡◌, ◌+◌, ◌<◌, ◌≤◌, length};
ghost use Rattle.format.specs.Table.{unknown};
ghost use Rattle.format.specs.Structure.{most_bytes, most_records};
ghost use Rattle.rules.specs.WithTerritories.{crowded_from};
ghost use Rattle.structure.specs.Cursor.{Here};
ghost use Rattle.transactions.specs.Walk.{rest_at};
ghost use Rattle.crowds.specs.Crowded.{crowd_of, passed};

use kinds::{Class, Row};

// Before a record of that number, which begins at that byte; the number of the latest record that is no detail, and how many claims were met
// since.
#[derive(Clone, Copy)]
pub struct Walk {
    pub at: usize,
    pub index: usize,
    pub header: usize,
    pub claims: usize,
}

impl Walk {
    // Past the record that stands here, of that row. Each record that is no detail begins a count: where it is no header, no detail follows
    // it, and none is counted.
    fn past(self, row: Row) -> Walk
        requires { (self.at + row.length + 2 ≤ most_bytes) × (self.index < most_records) × (self.claims ≤ self.index) }
        ensures { result ≡ passed row self }
    {
        let detail = row.class == Class::Detail;
        let claim = row.sort.is_claim();
        let claims = choice::pick(claim, self.claims + 1, self.claims);
        Walk {
            at: self.at + row.size() + 2,
            index: self.index + 1,
            header: choice::pick(detail, self.header, self.index),
            claims: choice::pick(detail, claims, 0),
        }
    }
}

// By a list of that many entries: the number of its header, counted from 0 over all records, where some transaction has too many.
pub fn first_crowded(file: &[u8], room: usize) -> Option<usize>
    requires { (length file.now ≤ most_bytes) × Here file.now 0 unknown (rest_at file.now 0)
        × (length (rest_at file.now 0) ≤ most_records) }
    ensures { crowd_of result ≡ crowded_from room 0 (rest_at file.now 0) }
{
    let rows = kinds::table();
    let mut w = Walk {
        at: 0,
        index: 0,
        header: 0,
        claims: 0,
    };
    while w.at < file.len() {
        let k = transactions::hint_at(file, w.at);
        let row = transactions::row_at(rows[k], file, w.at);
        w = w.past(row);
        if room < w.claims {
            return Some(w.header);
        }
    }
    None
}
