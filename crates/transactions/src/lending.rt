// What every walk over a file is lent.
ghost use Rattle.std.specs.Prelude.{◌≤◌, length};
ghost use Rattle.format.specs.Structure.{most_bytes};

use values::Tolerance;

// The file, the index of the tables, of which alone a code is asked, and the tolerance. That the slots are an index of some tables stays a
// clause: a type that says of which would ask for the tables' bytes, which no walk reads. A caller whose own type says it has the clause by
// the law `prepared` of proofs/Prepared.
#[derive(Clone, Copy)]
pub struct Lent<'a> {
    pub file: &'a [u8],
    pub slots: &'a tables::Slots,
    pub t: Tolerance,
    pub ghost short: { length file.now ≤ most_bytes },
}
