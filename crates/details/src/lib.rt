// One detail of a transaction: judged by itself and by what stands before it, and counted for the header.
#![tactic(auto)]

ghost use Rattle.std.specs.Prelude.{List, [], ◌∷◌, ◌++◌, ◌^◌};
ghost use Rattle.format.specs.Bytes.{Bytes};
ghost use Rattle.rules.specs.Tables.{Tables};
ghost use Rattle.tables.specs.Index.{Indexed};
ghost use Rattle.totals.specs.Sums.{Below};
ghost use Rattle.edits.specs.Kinds.{Stands};
ghost use Rattle.chains.specs.Tallies.{Tallied, Small};
ghost use Rattle.tally.specs.Known.{Known};
ghost use Rattle.details.specs.Stepped.{Stepped};

use chains::Chains;
use edits::Found;
use edits::publisher::Publisher;
use edits::writer::Writer;
use kinds::{Row, Sort};
use tally::Tally;

// After one detail: its own findings, and what is known of the transaction with it. The chains' tallies are updated where they stand.
#[derive(Clone, Copy)]
pub struct Step {
    pub found: Found,
    pub tally: Tally,
}

// One detail more.
pub fn judge(record: &[u8], row: Row, y: Tally, slots: &tables::Slots, chains: &mut Chains) -> Step
    requires below { Below (2 ^ 60) y.totals × Small chains.old }
    requires stands { Stands row «record».now }
    ensures { (tables : Tables) (ds : List Bytes) → Indexed tables slots.now → Known y ds → Tallied chains.old ds
        → Stepped tables ds «record».now result × Tallied chains.new (ds ++ «record».now ∷ []) }
{
    match row.sort {
        Sort::Publisher => {
            let p = Publisher::read(record);
            let known = chains.knows_e(p);
            let found = edits::publisher::judge(p, record, slots, y.last, known);
            chains.join(p);
            Step {
                found,
                tally: y.with_publisher(row, p),
            }
        }
        Sort::Writer => {
            let w = Writer::read(record);
            let found = edits::writer::judge(w, record);
            Step {
                found,
                tally: y.with_writer(row, w),
            }
        }
        _ => {
            let found = edits::other::judge(record, row);
            Step {
                found,
                tally: y.with_other(row),
            }
        }
    }
}
