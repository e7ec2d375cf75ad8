// The order of a transaction's details, finding 8: where a walk stands in the sequence of stages.
#![tactic(auto)]

ghost use Rattle.std.specs.Prelude.{◌≡◌, List, [], ◌∷◌, ◌++◌, take};
ghost use Rattle.format.specs.Bytes.{Bytes};
ghost use Rattle.format.specs.Table.{detail};
ghost use Rattle.format.specs.Cwr22.{cwr22};
ghost use Rattle.format.specs.Checks.{cls};
ghost use Rattle.rules.specs.Order.{is8};
ghost use Rattle.kinds.specs.Rows.{row_for};
ghost use Rattle.order.specs.Walk.{reached, standing, takes};

use kinds::Row;

// The stage and the rank in it that the last record took, and whether some record could take none.
#[derive(Clone, Copy, Default)]
pub struct Order {
    pub stage: u8,
    pub rank: u8,
    pub broken: bool,
}

impl Order {
    // Before the first record.
    #[tactic(auto, unfolding(crate::specs::Walk::reached))]
    pub fn outset() -> Order
        ensures { standing result ≡ reached [] }
    {
        Order::default()
    }

    // After one record more, of that row. A type with no spot is one of finding 24 and is passed over.
    pub fn with(self, row: Row) -> Order
        ensures { (ds : List Bytes) (r : Bytes) → row ≡ row_for (take 3 r) → cls cwr22 r ≡ detail → standing self ≡ reached ds
            → standing result ≡ reached (ds ++ r ∷ []) }
    {
        if row.first == 0 {
            return self;
        }
        if self.takes(row, row.first) {
            return self.moved(row.first, row.rank);
        }
        if self.takes(row, row.second) {
            return self.moved(row.second, row.rank);
        }
        if self.takes(row, row.third) {
            return self.moved(row.third, row.rank);
        }
        Order {
            broken: true,
            ..self
        }
    }

    // Whether the records were out of order.
    #[tactic(auto, using(crate::proofs::Laws::broken_is))]
    pub fn found_8(self) -> bool
        ensures { (ds : List Bytes) → standing self ≡ reached ds → result ≡ is8 ds }
    {
        self.broken
    }

    // Whether a record of the row may take its spot in that stage; stage 0 is none. A leader may in its stage again and in a later one,
    // a bracketed type after its leader but not after a later bracket, and NPR and IND as the first of a later stage.
    fn takes(self, row: Row, stage: u8) -> bool
        ensures { result ≡ takes self row stage }
    {
        (0 < stage)
            & (((row.rank == 0) & (self.stage <= stage))
                | ((self.stage == stage) & (self.rank <= row.rank))
                | (row.alone & (self.stage < stage)))
    }

    fn moved(self, stage: u8, rank: u8) -> Order
        ensures { result ≡ record { stage = stage; rank = rank; broken = self.broken } }
    {
        Order {
            stage,
            rank,
            ..self
        }
    }
}
