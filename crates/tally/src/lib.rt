// What a transaction's header is judged by, gathered detail by detail: totals, order, marks and the last sequence number. The chains are
// kept beside it, since they are large and only publisher records change them.
#![tactic(auto)]

ghost use Rattle.std.specs.Prelude.{◌≡◌, false, List, [], ◌∷◌, ◌++◌, ◌^◌};
ghost use Rattle.format.specs.Bytes.{Bytes};
ghost use Rattle.rules.specs.Records.{is_publisher, is_writer};
ghost use Rattle.totals.specs.Sums.{AtMost, Below};
ghost use Rattle.edits.specs.Kinds.{Detail};
ghost use Rattle.edits.specs.Readings.{PublisherReads, WriterReads};
ghost use Rattle.tally.specs.Known.{Known};

use edits::publisher::{Publisher, Sequence};
use edits::writer::Writer;
use kinds::Row;
use marks::Marks;
use order::Order;
use totals::Totals;

pub mod marks;

#[derive(Clone, Copy)]
pub struct Tally {
    pub totals: Totals,
    pub order: Order,
    pub marks: Marks,
    // The sequence number of the last publisher record.
    pub last: Sequence,
}

impl Tally {
    // Before the first detail.
    #[tactic(auto, unfolding(edits::specs::Sequences::last_sequence))]
    pub fn start() -> Tally
        ensures { Known result [] }
    {
        Tally {
            totals: Totals::zero(),
            order: Order::outset(),
            marks: Marks::none(),
            last: Sequence::NoRecord,
        }
    }

    // After one publisher record more.
    pub fn with_publisher(self, row: Row, p: Publisher) -> Tally
        requires { Below (2 ^ 60) self.totals × AtMost 99999 p.shares }
        ensures { (ds : List Bytes) (r : Bytes) → Known self ds → Detail row r → PublisherReads p r → Known result (ds ++ r ∷ []) }
    {
        Tally {
            totals: self.totals.with_publisher(p.shares),
            order: self.order.with(row),
            last: p.sequence,
            ..self
        }
    }

    // After one writer record more.
    pub fn with_writer(self, row: Row, w: Writer) -> Tally
        requires { Below (2 ^ 60) self.totals × AtMost 99999 w.shares }
        ensures { (ds : List Bytes) (r : Bytes) → Known self ds → Detail row r → WriterReads w r → Known result (ds ++ r ∷ []) }
    {
        Tally {
            totals: self.totals.with_writer(w.shares),
            order: self.order.with(row),
            marks: self.marks.with_writer(w),
            ..self
        }
    }

    // After one detail more that is neither.
    pub fn with_other(self, row: Row) -> Tally
        ensures { (ds : List Bytes) (r : Bytes) → Known self ds → Detail row r → is_publisher r ≡ false → is_writer r ≡ false
            → Known result (ds ++ r ∷ []) }
    {
        Tally {
            order: self.order.with(row),
            marks: self.marks.with_other(row),
            ..self
        }
    }
}
