// Where a walk over the records of a file stands.
ghost use Rattle.std.specs.Prelude.{◌≡◌, ◌≤◌};
ghost use Rattle.format.specs.Checks.{none_counted};
ghost use Rattle.kinds.specs.declared.Class.TheVariants.{Unknown};
ghost use Rattle.counts.specs.Counting.{counts_in, Kept};

use counts::Counts;
use kinds::Class;

// At a byte of the file, after a record of that class, with these counts, which no file outgrows: no record is shorter than a byte.
#[derive(Clone, Copy)]
pub struct Stand {
    pub at: usize,
    pub class: Class,
    pub counts: Counts,
    pub ghost kept: { Kept counts },
    pub ghost few: { counts.records ≤ at },
}

impl Stand {
    // Before the first record.
    pub fn start() -> Stand
        ensures place { (result.at ≡ 0) × (result.class ≡ Unknown) }
        ensures counts { counts_in result.counts ≡ none_counted }
    {
        Stand {
            at: 0,
            class: Class::Unknown,
            counts: Counts::zero(),
        }
    }
}
