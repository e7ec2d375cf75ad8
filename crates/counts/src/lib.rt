// What a walk over the records of a file counts, and the numbers that each record has to carry: compared, and written.
#![tactic(auto)]

ghost use Rattle.std.specs.Prelude.{◌≡◌, ◌++◌, cond, ◌+◌, ◌-◌, ◌≤◌, length, take, drop};
ghost use Rattle.format.specs.Bytes.{Bytes, same_bytes, decimal, bytes_of};
ghost use Rattle.format.proofs.Decimal.{length-decimal, length-bytes};
ghost use Rattle.format.specs.Fields.{field_of};
ghost use Rattle.format.specs.Table.{at, width};
ghost use Rattle.format.specs.Checks.{none_counted, count, slot, expected};
ghost use Rattle.kinds.specs.Rows.{class_in};
ghost use Rattle.text.specs.Words.{word_of};
ghost use Rattle.counts.specs.Counting.{counts_in, Written, Kept, CanGrow};
ghost use Rattle.counts.specs.Carried.{pair, words, digits_of, start_of, size_of, over, Carried};

use kinds::Class;

// What was counted before a record, as the format's `Counts`.
#[derive(Clone, Copy)]
pub struct Counts {
    // Groups begun, and transactions begun in all of them.
    pub groups: u64,
    pub transactions: u64,
    // Of the group: transactions begun, records.
    pub in_group: u64,
    pub group_records: u64,
    // Records of the transaction.
    pub in_transaction: u64,
    // All records.
    pub records: u64,
    // As words, so that nearly no record costs a division: the digits of in_group, which the next header carries, those of one less,
    // which a detail carries, those of in_transaction, and those of one more than group_records, which GRT carries.
    pub header_word: u64,
    pub detail_word: u64,
    pub record_word: u64,
    pub closing_word: u64,
}

// The words of the eight digits of 0, 1 and 2.
const ZERO: u64 = 0x3030303030303030;

const ONE: u64 = 0x3130303030303030;

const TWO: u64 = 0x3230303030303030;

// The numbers that a record carries in its number positions.
#[derive(Clone, Copy)]
pub enum Numbers {
    // HDR, and a record of no type, has none.
    Nothing,
    // GRH: the group.
    Group(u64),
    // A header or detail: the transaction in its group and the record in its transaction, as words.
    Prefix(u64, u64),
    // GRT: the group; transactions and records, as words.
    Closing(u64, u64, u64),
    // TRL: groups, transactions, records.
    Totals(u64, u64, u64),
}

impl Counts {
    pub fn zero() -> Counts
        ensures result_value { counts_in result ≡ none_counted }
        ensures can_grow { CanGrow result × (result.records ≡ 0) }
    {
        Counts {
            groups: 0,
            transactions: 0,
            in_group: 0,
            group_records: 0,
            in_transaction: 0,
            records: 0,
            header_word: ZERO,
            detail_word: ZERO,
            record_word: ZERO,
            closing_word: ONE,
        }
    }

    // With one record more, of that class.
    pub fn with(mut self, class: Class) -> Counts
        requires { CanGrow self }
        ensures result_value { counts_in result ≡ count (counts_in self) (class_in class) }
        ensures kept { Kept result × (result.records ≡ self.records + 1) }
    {
        let next = self.grown(class == Class::Head);
        let closing = text::next_eight(self.closing_word, self.group_records + 1);
        self.records += 1;
        match class {
            Class::Grh => {
                self.groups += 1;
                self.in_group = 0; // so that each group numbers its transactions anew
                self.group_records = 1;
                self.in_transaction += 1; // any record but a header counts on; none reads it before a header begins it anew
                self.header_word = ZERO;
                self.detail_word = ZERO;
                self.record_word = next;
                self.closing_word = TWO;
                self
            }
            Class::Head => {
                self.transactions += 1;
                self.in_group += 1;
                self.group_records += 1;
                self.in_transaction = 1;
                self.detail_word = self.header_word;
                self.header_word = next;
                self.record_word = ONE;
                self.closing_word = closing;
                self
            }
            _ => {
                self.group_records += 1;
                self.in_transaction += 1;
                self.record_word = next;
                self.closing_word = closing;
                self
            }
        }
    }

    // The word of one more transaction in the group, which a header makes, or of one more record in the transaction. One call serves both,
    // so that its code stands once in a walk.
    fn grown(self, head: bool) -> u64
        requires { Written self }
        ensures { result ≡ word_of (decimal 8 (cond head self.in_group self.in_transaction + 1)) }
    {
        let word = choice::pick(head, self.header_word, self.record_word);
        let count = choice::pick(head, self.in_group, self.in_transaction);
        text::next_eight(word, count)
    }

    // The numbers that the next record has to carry, if it is of that class. Transactions are numbered from 0: a header has how many
    // began before it, and a detail one less, since its header is counted. GRT and TRL count themselves among the records.
    pub fn numbers_for(self, class: Class) -> Numbers
        requires { CanGrow self }
        ensures { Carried (counts_in self) (class_in class) result }
    {
        match class {
            Class::Grh => Numbers::Group(self.groups + 1),
            Class::Head => Numbers::Prefix(self.header_word, ZERO),
            Class::Detail => Numbers::Prefix(self.detail_word, self.record_word),
            Class::Grt => Numbers::Closing(self.groups, self.header_word, self.closing_word),
            Class::Trl => Numbers::Totals(self.groups, self.transactions, self.records + 1),
            Class::Hdr | Class::Unknown => Numbers::Nothing,
        }
    }

    // Whether the next record, of that class, carries its numbers.
    pub fn holds(self, class: Class, record: &[u8]) -> bool
        requires can_grow { CanGrow self }
        requires class_in_bounds { at (class_in class) + width (class_in class) ≤ length «record».now }
        ensures { result ≡ same_bytes (slot (class_in class) «record».now) (expected (counts_in self) (class_in class)) }
    {
        self.numbers_for(class).stand_in(record)
    }

    // Writes its numbers into the next record, of that class, which stands in out.
    pub fn put(self, class: Class, out: &mut [u8])
        requires can_grow { CanGrow self }
        requires class_in_bounds { at (class_in class) + width (class_in class) ≤ length out.old }
        ensures { out.new ≡ take (at (class_in class)) out.old ++ expected (counts_in self) (class_in class)
            ++ drop (at (class_in class) + width (class_in class)) out.old }
    {
        self.numbers_for(class).write_into(out)
    }
}

// Where the numbers of a record stand: each start counted from 1, and how many digits each has. What stands beside a number of eight digits
// has eight too.
const OPENED_GROUP: usize = 7;

const PREFIX: usize = 4;

const CLOSED_GROUP: usize = 4;

const CLOSED_COUNTS: usize = 9;

const GROUP_DIGITS: usize = 5;

const DIGITS: usize = 8;

impl Numbers {
    // Whether they stand in the record.
    fn stand_in(self, record: &[u8]) -> bool
        requires { start_of self - 1 + size_of self ≤ length «record».now }
        ensures { result ≡ same_bytes (field_of (start_of self) (size_of self) «record».now) (digits_of self) }
    {
        match self {
            Numbers::Nothing => true,
            Numbers::Group(g) => stands(g, record, OPENED_GROUP, GROUP_DIGITS),
            Numbers::Prefix(m, r) => pair_stands(Word(m), Word(r), record, PREFIX),
            Numbers::Closing(g, m, r) => {
                stands(g, record, CLOSED_GROUP, GROUP_DIGITS)
                    & pair_stands(Word(m), Word(r), record, CLOSED_COUNTS)
            },
            Numbers::Totals(g, m, r) => {
                stands(g, record, CLOSED_GROUP, GROUP_DIGITS)
                    & pair_stands(Number(m), Number(r), record, CLOSED_COUNTS)
            },
        }
    }

    // Writes them into the record that stands in out.
    fn write_into(self, out: &mut [u8])
        requires { start_of self - 1 + size_of self ≤ length out.old }
        ensures { out.new ≡ over (start_of self) (digits_of self) out.old }
    {
        match self {
            Numbers::Nothing => {}
            Numbers::Group(g) => write(g, out, OPENED_GROUP, GROUP_DIGITS),
            Numbers::Prefix(m, r) => write_pair(Word(m), Word(r), out, PREFIX),
            Numbers::Closing(g, m, r) => {
                write(g, out, CLOSED_GROUP, GROUP_DIGITS);
                write_pair(Word(m), Word(r), out, CLOSED_COUNTS)
            }
            Numbers::Totals(g, m, r) => {
                write(g, out, CLOSED_GROUP, GROUP_DIGITS);
                write_pair(Number(m), Number(r), out, CLOSED_COUNTS)
            }
        }
    }
}

// Whether the field with this start, counted from 1, and this size has the digits of n.
fn stands(n: u64, record: &[u8], start: usize, size: usize) -> bool
    requires { (1 ≤ start) × (start - 1 + size ≤ length «record».now) }
    ensures { result ≡ same_bytes (field_of start size «record».now) (decimal size n) }
{
    text::is_decimal(n, text::field(record, start, size))
}

// Writes the digits of n over that field.
fn write(n: u64, out: &mut [u8], start: usize, size: usize)
    requires { (1 ≤ start) × (start - 1 + size ≤ length out.old) }
    ensures { out.new ≡ over start (decimal size n) out.old }
{
    let a = start - 1;
    let e = a + size;
    text::decimal(n, &mut out[a..e]);
}

// A number of eight digits, as the number or as the word of its digits.
trait Eight: Copy {
    ghost shown: { Self → Bytes };

    // Whether it stands in the field with this start, counted from 1.
    fn stands(self, record: &[u8], start: usize) -> bool
        requires { (1 ≤ start) × (start - 1 + 8 ≤ length «record».now) }
        ensures { result ≡ same_bytes (field_of start 8 «record».now) (shown self) };

    // Writes it over that field.
    fn write(self, out: &mut [u8], start: usize)
        requires { (1 ≤ start) × (start - 1 + 8 ≤ length out.old) }
        ensures { out.new ≡ over start (shown self) out.old };

    ghost eight: { (x : Self) → length (shown x) ≡ 8 };
}

#[derive(Clone, Copy)]
struct Number(u64);

impl Eight for Number {
    ghost shown = { λ n. decimal 8 n.0 };

    ghost eight = { λ n. length-decimal 8 n.0 };

    fn stands(self, record: &[u8], start: usize) -> bool {
        stands(self.0, record, start, DIGITS)
    }

    fn write(self, out: &mut [u8], start: usize) {
        write(self.0, out, start, DIGITS)
    }
}

#[derive(Clone, Copy)]
struct Word(u64);

impl Eight for Word {
    ghost shown = { λ x. bytes_of 8 x.0 };

    ghost eight = { λ x. length-bytes 8 x.0 };

    fn stands(self, record: &[u8], start: usize) -> bool {
        text::is_word(self.0, text::field(record, start, DIGITS))
    }

    fn write(self, out: &mut [u8], start: usize) {
        let a = start - 1;
        let e = a + DIGITS;
        text::store_eight(self.0, &mut out[a..e]);
    }
}

// Transactions and records stand beside one another: both compared, and both written.
fn pair_stands<E: Eight>(m: E, r: E, record: &[u8], start: usize) -> bool
    requires { (1 ≤ start) × (start - 1 + (8 + 8) ≤ length «record».now) }
    ensures { result ≡ same_bytes (field_of start (8 + 8) «record».now) (E.shown m ++ E.shown r) }
{
    m.stands(record, start) & r.stands(record, start + DIGITS)
}

fn write_pair<E: Eight>(m: E, r: E, out: &mut [u8], start: usize)
    requires { (1 ≤ start) × (start - 1 + (8 + 8) ≤ length out.old) }
    ensures { out.new ≡ over start (E.shown m ++ E.shown r) out.old }
{
    m.write(out, start);
    r.write(out, start + DIGITS);
}
