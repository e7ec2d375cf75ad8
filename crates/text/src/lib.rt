// The bytes of a field: the part of a record that a field is, what it may hold, and numbers read from it and written into it.
#![tactic(auto)]

ghost use Rattle.std.specs.Prelude.{◌≡◌, [], ◌∷◌, ◌+◌, ◌-◌, ◌%◌, ◌^◌, ◌<◌, ◌≤◌, length, eqb};
ghost use Rattle.format.specs.Bytes.{every, same_bytes, decimal, bytes_of};
ghost use Rattle.text.specs.Words.{word_of};
ghost use Rattle.format.specs.Fields.{field_of, is_blank, is_digit, are_digits, digit, number_of};

// The part of a record with this start, counted from 1, and this size: lent, not copied.
pub fn field(record: &[u8], start: usize, size: usize) -> &[u8]
    requires { (1 ≤ start) × (start - 1 + size ≤ length «record».now) }
    ensures result_value { result.now ≡ field_of start size «record».now }
    ensures result_len { length result.now ≡ size }
{
    let a = start - 1;
    let e = a + size;
    &record[a..e]
}

// The same of a record of any length: what of the field lies beyond the record's end is missing.
pub fn part(record: &[u8], start: usize, size: usize) -> &[u8]
    requires { 1 ≤ start }
    ensures result_value { result.now ≡ field_of start size «record».now }
    ensures result_len_bound { length result.now ≤ size }
{
    let n = record.len();
    let from = start - 1;
    if n < from {
        return &record[n..n];
    }
    if n - from < size {
        return &record[from..n];
    }
    let e = from + size;
    &record[from..e]
}

// Whether a field is these three bytes and no more.
pub fn is_three(field: &[u8], a: u8, b: u8, c: u8) -> bool
    ensures { result ≡ same_bytes field.now (a ∷ b ∷ c ∷ []) }
{
    field == [a, b, c].as_slice()
}

// Whether each byte is this one, as it is in an empty field.
pub fn filled(field: &[u8], b: u8) -> bool
    ensures { result ≡ every (λ x. eqb x b) field.now }
{
    field.iter().all(|x| *x == b)
}

// Whether each byte is a space.
pub fn blank(field: &[u8]) -> bool
    ensures { result ≡ is_blank field.now }
{
    filled(field, b' ')
}

pub fn is_digit(b: u8) -> bool
    ensures { result ≡ is_digit b }
{
    b.is_ascii_digit()
}

// Whether each byte is a digit, as it is in an empty field.
pub fn digits(field: &[u8]) -> bool
    ensures { result ≡ are_digits field.now }
{
    field.iter().all(|b| is_digit(*b))
}

// What a digit stands for; 0 of any other byte.
pub fn digit(b: u8) -> u64
    ensures value { result ≡ digit b }
    ensures upper_bound { result ≤ 9 }
{
    if is_digit(b) { u64::from(b - b'0') } else { 0 }
}

// The number that a field's digits write. Nineteen are the most that always fit.
pub fn number(field: &[u8]) -> u64
    requires { length field.now ≤ 19 }
    ensures value { result ≡ number_of field.now }
    ensures upper_bound { result < 10 ^ length field.now }
{
    let mut n = 0;
    for b in field {
        n = 10 * n + digit(*b);
    }
    n
}

// Writes the last digits of n over the whole of out, zero-filled, from the last byte to the first.
pub fn decimal(n: u64, out: &mut [u8])
    ensures { out.new ≡ decimal (length out.old) n }
{
    let mut rest = n;
    for i in (0..out.len()).rev() {
        out[i] = b'0' + (rest % 10) as u8;
        rest /= 10;
    }
}

// Whether decimal would write what stands there.
pub fn is_decimal(n: u64, part: &[u8]) -> bool
    ensures { result ≡ same_bytes part.now (decimal (length part.now) n) }
{
    let mut same = true;
    let mut rest = n;
    for b in part.iter().rev() {
        same = same & (*b == b'0' + (rest % 10) as u8);
        rest /= 10;
    }
    same
}

// ---- eight bytes as one word, so that they are compared and written at once

// The word of eight bytes: one load.
pub fn load_eight(part: &[u8]) -> u64
    requires { length part.now ≡ 8 }
    ensures value { result ≡ word_of part.now }
    ensures result_value { bytes_of 8 result ≡ part.now }
{
    match <[u8; 8]>::try_from(part) {
        Ok(bytes) => u64::from_le_bytes(bytes),
        Err(_) => unreachable!(),
    }
}

// Whether the bytes of a word are what stands there.
pub fn is_word(x: u64, part: &[u8]) -> bool
    requires { length part.now ≡ 8 }
    ensures { result ≡ same_bytes part.now (bytes_of 8 x) }
{
    load_eight(part) == x
}

// Writes the bytes of a word: one store.
pub fn store_eight(x: u64, out: &mut [u8])
    requires { length out.old ≡ 8 }
    ensures { out.new ≡ bytes_of 8 x }
{
    out.copy_from_slice(&x.to_le_bytes());
}

// The word of the digits of n + 1, from that of the digits of n. A last digit below 9 grows by one; a 9 becomes 0, and then the digits
// before it, which are those of `number`, grow. Nine times in ten there is no turn. (`number` is for the proof: no answer comes of it, and
// the compiler drops it.)
pub fn next_eight(word: u64, n: u64) -> u64
    requires { word ≡ word_of (decimal 8 n) }
    ensures { result ≡ word_of (decimal 8 (n + 1)) }
{
    let mut i: u64 = 8;
    let mut number = n;
    let mut rest = word;
    // What the last digit of rest counts.
    let mut unit = 72057594037927936;
    let mut zeros = 0;
    while (0 < i) & (57 * unit <= rest) {
        zeros = zeros + 48 * unit;
        rest = rest - 57 * unit;
        unit = unit / 256;
        number = number / 10;
        i -= 1;
    }
    zeros + (unit + rest)
}
