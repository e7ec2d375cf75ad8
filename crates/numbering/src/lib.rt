// Numbering: a file's numbers written afresh into a lent buffer. All refusals come first, so that a refused call writes nothing; then
// one walk copies each line and writes its numbers over what stood there.
#![tactic(auto)]

ghost use Rattle.std.specs.Prelude.{◌≡◌, ◌++◌, ◌+◌, ◌≤◌, length, take, drop};
ghost use Rattle.format.specs.Table.{at, width};
ghost use Rattle.format.specs.Cwr22.{cwr22};
ghost use Rattle.format.specs.Checks.{expected};
ghost use Rattle.format.specs.Numbering.{numbered_file};
ghost use Rattle.answers.specs.Numbers.{answer_of};
ghost use Rattle.kinds.specs.Rows.{class_in};
ghost use Rattle.counts.specs.Counting.{counts_in, CanGrow};
ghost use Rattle.numbering.specs.Outcome.{number_answer, number_buffer};
ghost use Rattle.numbering.specs.Fill.{Sized};

use answers::{Answer, Refusal};
use counts::Counts;
use kinds::Class;
use structure::Stand;

// One line, with its CR LF: copied, and its numbers written over what stood there.
fn number_line(line: &[u8], out: &mut [u8], class: Class, counts: Counts)
    requires { (length out.old ≡ length line.now) × (CanGrow counts) × (at (class_in class) + width (class_in class) ≤ length line.now) }
    ensures { out.new ≡ take (at (class_in class)) line.now
        ++ expected (counts_in counts) (class_in class)
        ++ drop (at (class_in class) + width (class_in class)) line.now }
{
    out.copy_from_slice(line);
    counts.put(class, out);
}

// The file, numbered, at the front of out. The loop is over a place: each record's row says where the next one begins. The three bytes of its
// type are known to be there, so they are indexed; a slice pattern would want an arm for fewer.
#[tactic(auto, using(crate::proofs::Laws::three_bytes, crate::proofs::Laws::ends))]
fn fill(file: &[u8], out: &mut [u8])
    requires { (Sized file.now) × (length file.now ≤ length out.old) }
    ensures { out.new ≡ numbered_file cwr22 file.now ++ drop (length file.now) out.old }
{
    let rows = kinds::table();
    let mut s = Stand::start();
    while s.at < file.len() {
        let at = s.at;
        let k = kinds::hint(file[at], file[at + 1], file[at + 2]);
        let shape = kinds::confirmed(rows[k], &file[at..]);
        let end = at + shape.size() + 2;
        number_line(&file[at..end], &mut out[at..end], shape.class, s.counts);
        s = s.after_record(shape.length, shape.class);
    }
}

// Refusals 3 to 7, 10 and 11; else the numbered file in out, and the same three numbers as the check.
pub fn number(file: &[u8], out: &mut [u8]) -> Answer
    ensures result_value { answer_of result ≡ number_answer file.now (length out.old) }
    ensures out_after { out.new ≡ number_buffer file.now out.old }
{
    let passed = structure::check_places(file)?;
    if out.len() < file.len() {
        return Err(Refusal::Short);
    }
    fill(file, out);
    Ok(passed)
}
