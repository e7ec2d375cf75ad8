// What else of a transaction's details its header is judged by: the writers by their designations (findings 4 to 7 and 10), INS and IND
// (9), EWT and VER (15).
ghost use Rattle.std.specs.Prelude.{◌≡◌, false, List, [], ◌∷◌, ◌++◌, take};
ghost use Rattle.format.specs.Bytes.{Bytes};
ghost use Rattle.rules.specs.Records.{is_writer};
ghost use Rattle.kinds.specs.Rows.{row_for};
ghost use Rattle.edits.specs.Readings.{WriterReads};
ghost use Rattle.tally.specs.Marked.{Marked};

use edits::writer::Writer;
use kinds::{Row, Sort};

#[derive(Clone, Copy, Default)]
pub struct Marks {
    // Whether there is a writer; one that makes a work, one that changes one, one that writes text.
    pub writer: bool,
    pub creator: bool,
    pub changer: bool,
    pub author: bool,
    // Whether there is an INS or IND.
    pub instrument: bool,
    // Whether there is an EWT, and more than one; and so with VER.
    pub ewt: bool,
    pub ewts: bool,
    pub ver: bool,
    pub vers: bool,
}

impl Marks {
    // Before the first record.
    pub fn none() -> Marks
        ensures { Marked result [] }
    {
        Marks::default()
    }

    // After one writer record more.
    pub fn with_writer(mut self, w: Writer) -> Marks
        ensures { (ds : List Bytes) (r : Bytes) → Marked self ds → WriterReads w r → Marked result (ds ++ r ∷ []) }
    {
        self.writer = true;
        self.creator = w.creator | self.creator;
        self.changer = w.changer | self.changer;
        self.author = w.author | self.author;
        self
    }

    // After one record more that is no writer.
    pub fn with_other(mut self, row: Row) -> Marks
        ensures { (ds : List Bytes) (r : Bytes) → Marked self ds → row ≡ row_for (take 3 r) → is_writer r ≡ false
            → Marked result (ds ++ r ∷ []) }
    {
        let ewt = row.sort == Sort::Ewt;
        let ver = row.sort == Sort::Ver;
        self.instrument = (row.sort == Sort::Instrument) | self.instrument;
        self.ewts = (ewt & self.ewt) | self.ewts;
        self.ewt = ewt | self.ewt;
        self.vers = (ver & self.ver) | self.vers;
        self.ver = ver | self.ver;
        self
    }
}
