// For tests and bench alone: the calls below the finished library that they reach.
#![tactic(auto)]

ghost use Rattle.std.specs.Prelude.{◌≡◌, length};
ghost use Rattle.format.specs.Cwr22.{cwr22};
ghost use Rattle.format.specs.Structure.{structure};
ghost use Rattle.answers.specs.Numbers.{told_of, exact};
ghost use Rattle.numbering.specs.Outcome.{number_answer, number_buffer};

// Refusals 3 to 10: number and place in one number, or the number of records.
#[unsafe(no_mangle)]
pub extern "C" fn probe_structure(file: &[u8]) -> u64
    ensures { result ≡ exact (structure cwr22 file.now) }
{
    answers::packed(structure::check(file))
}

// The number of groups, 0 where the file was refused.
#[unsafe(no_mangle)]
pub extern "C" fn probe_groups(file: &[u8]) -> u64
    ensures { result ≡ (told_of (structure cwr22 file.now)).groups }
{
    structure::check(file).map_or(0, |passed| passed.groups)
}

// The number of transactions, 0 where the file was refused.
#[unsafe(no_mangle)]
pub extern "C" fn probe_transactions(file: &[u8]) -> u64
    ensures { result ≡ (told_of (structure cwr22 file.now)).transactions }
{
    structure::check(file).map_or(0, |passed| passed.transactions)
}

// Numbering: the answer in one number, and the numbered file in out.
#[unsafe(no_mangle)]
pub extern "C" fn probe_number(file: &[u8], out: &mut [u8]) -> u64
    ensures value { result ≡ exact (number_answer file.now (length out.old)) }
    ensures out_after { out.new ≡ number_buffer file.now out.old }
{
    answers::packed(numbering::number(file, out))
}
