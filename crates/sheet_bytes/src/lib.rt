// A sheet in bytes that a caller of the C interface lends: read as a struct, and written back. specs/Layout.antt has the layout.
#![tactic(auto)]

ghost use Rattle.std.specs.Prelude.{◌≡◌, [], ◌∷◌, ◌++◌, ◌≤◌, length, drop};
ghost use Rattle.sheet.specs.Told.{told_missed, told_of};
ghost use Rattle.sheet_bytes.specs.Layout.{sheet_size, number_at, numbers_at, missed_at, missed_numbers, sheet_in, bytes_of_sheet};
ghost use Rattle.sheet_bytes.specs.Put.{Roomy, numbers_put};

use sheet::{Missed, Sheet};

// How many bytes a sheet has.
pub const SHEET: usize = 664;

// ---- read

fn number_at(bytes: &[u8], k: usize) -> u64
    requires { Roomy k 1 bytes.now }
    ensures { result ≡ number_at bytes.now k }
{
    let start = 8 * k;
    text::load_eight(&bytes[start..start + 8])
}

// One number after the other, from number k on.
fn load(bytes: &[u8], k: usize, numbers: &mut [u64])
    requires { Roomy k (length numbers.old) bytes.now }
    ensures { numbers.new ≡ numbers_at bytes.now k (length numbers.old) }
{
    for (i, n) in numbers.iter_mut().enumerate() {
        *n = number_at(bytes, k + i);
    }
}

fn missed_at(bytes: &[u8], k: usize) -> Missed
    requires { Roomy k 4 bytes.now }
    ensures { told_missed result ≡ missed_at bytes.now k }
{
    Missed {
        transactions: number_at(bytes, k),
        shortfall: number_at(bytes, k + 1),
        excess: number_at(bytes, k + 2),
        sum: number_at(bytes, k + 3).cast_signed(),
    }
}

pub fn read(bytes: &[u8]) -> Sheet
    requires { sheet_size ≤ length bytes.now }
    ensures { told_of result ≡ sheet_in bytes.now }
{
    let mut findings = [0u64; 64];
    load(bytes, 14, &mut findings);
    let mut verdicts = [0u64; 5];
    load(bytes, 78, &mut verdicts);
    Sheet {
        files: number_at(bytes, 0),
        refused: number_at(bytes, 1),
        pr: missed_at(bytes, 2),
        mr: missed_at(bytes, 6),
        sr: missed_at(bytes, 10),
        findings,
        verdicts,
    }
}

// ---- written

fn put_number(n: u64, k: usize, bytes: &mut [u8])
    requires { Roomy k 1 bytes.old }
    ensures { bytes.new ≡ numbers_put k (n ∷ []) bytes.old }
{
    let start = 8 * k;
    text::store_eight(n, &mut bytes[start..start + 8]);
}

fn store(numbers: &[u64], k: usize, bytes: &mut [u8])
    requires { Roomy k (length numbers.now) bytes.old }
    ensures { bytes.new ≡ numbers_put k numbers.now bytes.old }
{
    for (i, n) in numbers.iter().enumerate() {
        put_number(*n, k + i, bytes);
    }
}

fn missed_numbers(m: Missed) -> [u64; 4]
    ensures { result ≡ missed_numbers (told_missed m) }
{
    [m.transactions, m.shortfall, m.excess, m.sum.cast_unsigned()]
}

// What stands beyond the sheet stays.
pub fn put(s: Sheet, bytes: &mut [u8])
    requires { sheet_size ≤ length bytes.old }
    ensures { bytes.new ≡ bytes_of_sheet (told_of s) ++ drop sheet_size bytes.old }
{
    store(&[s.files, s.refused], 0, bytes);
    store(&missed_numbers(s.pr), 2, bytes);
    store(&missed_numbers(s.mr), 6, bytes);
    store(&missed_numbers(s.sr), 10, bytes);
    store(&s.findings, 14, bytes);
    store(&s.verdicts, 78, bytes);
}
