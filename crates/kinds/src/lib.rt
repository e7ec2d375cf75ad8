// The record types in one fixed table, and the row of a record. specs/Rows.antt makes the same rows of the format's own table
// and stages; `table` is proved equal to them.
#![tactic(auto)]

ghost use Rattle.std.specs.Prelude.{◌≡◌, true, [], ◌∷◌, ◌<◌, ◌≤◌, length, take};
ghost use Rattle.format.specs.Bytes.{Bytes, same_bytes};
ghost use Rattle.kinds.specs.Rows.{no_row, kinds, shape_of, type_of, first_row, row_for, of_party, of_claim};

// A record type.
#[derive(Clone, Copy)]
pub struct Row {
    // The type's three bytes.
    pub a: u8,
    pub b: u8,
    pub c: u8,
    // Which says where its records stand.
    pub class: Class,
    // How many bytes a record has.
    pub length: u16,
    // The stages in which it has a spot, in sequence and counted from 1; 0 for none.
    pub first: u8,
    pub second: u8,
    pub third: u8,
    // Its rank in each of them: 0 for the leader, else the rank of its bracket.
    pub rank: u8,
    // Whether it may begin its stage without the leader.
    pub alone: bool,
    pub sort: Sort,
}

impl Row {
    pub fn size(self) -> usize
        ensures { result ≡ self.length }
    {
        usize::from(self.length)
    }

    fn shape(self) -> Shape
        ensures { result ≡ shape_of self }
    {
        Shape {
            class: self.class,
            length: self.length,
        }
    }
}

// Of a row what a walk goes by.
#[derive(Clone, Copy)]
pub struct Shape {
    pub class: Class,
    pub length: u16,
}

impl Shape {
    pub fn size(self) -> usize
        ensures { result ≡ self.length }
    {
        usize::from(self.length)
    }
}

// Where a record of a type stands: HDR, GRH, the header of a transaction, one of its details, GRT, TRL; or it is of no type.
#[derive(Clone, Copy, PartialEq, Eq)]
pub enum Class {
    Hdr,
    Grh,
    Head,
    Detail,
    Grt,
    Trl,
    Unknown,
}

// What is judged of a record besides its order.
#[derive(Clone, Copy, PartialEq, Eq)]
pub enum Sort {
    Nothing,
    // NWR, REV.
    Header,
    // SPU, OPU.
    Publisher,
    // SWR, OWR.
    Writer,
    Ewt,
    Ver,
    Per,
    Rec,
    // INS, IND.
    Instrument,
    // TER, IPA, NPA, MSG.
    Misplaced,
    // SPT, OPT.
    PublishersClaim,
    // SWT, OWT.
    WritersClaim,
}

impl Sort {
    // Whether a party of its transaction begins with a record of it.
    pub fn is_party(self) -> bool
        ensures { result ≡ of_party self }
    {
        matches!(self, Sort::Publisher | Sort::Writer)
    }

    // Whether its records are claims.
    pub fn is_claim(self) -> bool
        ensures { result ≡ of_claim self }
    {
        matches!(self, Sort::PublishersClaim | Sort::WritersClaim)
    }
}

// How many bytes a record has that opens or closes a file or a group, and a header.
pub const HDR_LENGTH: u16 = 167;

pub const GRH_LENGTH: u16 = 28;

pub const GRT_LENGTH: u16 = 37;

pub const HEADER_LENGTH: u16 = 260;

// The table. No other function names ROWS: each that does builds it on its stack, and takes seconds to check. A walk over records
// calls this once, before its loop.
pub fn table() -> [Row; 38]
    ensures { result ≡ kinds }
{
    ROWS
}

// Where the row of a type may stand. Only the bound is promised: whoever asks compares the row's type. An arm's number is the type's
// bytes, in hexadecimal.
pub fn hint(a: u8, b: u8, c: u8) -> usize
    ensures { result < 38 }
{
    match u64::from(a) * 65536 + u64::from(b) * 256 + u64::from(c) {
        0x484452 => 0, // HDR
        0x475248 => 1, // GRH
        0x475254 => 2, // GRT
        0x54524c => 3, // TRL
        0x4e5752 => 4, // NWR
        0x524556 => 5, // REV
        0x544552 => 6, // TER
        0x495041 => 7, // IPA
        0x4e5041 => 8, // NPA
        0x535055 => 9, // SPU
        0x4f5055 => 10, // OPU
        0x4e504e => 11, // NPN
        0x535054 => 12, // SPT
        0x4f5054 => 13, // OPT
        0x535752 => 14, // SWR
        0x4f5752 => 15, // OWR
        0x4e574e => 16, // NWN
        0x535754 => 17, // SWT
        0x4f5754 => 18, // OWT
        0x505752 => 19, // PWR
        0x414c54 => 20, // ALT
        0x4e4154 => 21, // NAT
        0x455754 => 22, // EWT
        0x564552 => 23, // VER
        0x504552 => 24, // PER
        0x4e5052 => 25, // NPR
        0x524543 => 26, // REC
        0x4f524e => 27, // ORN
        0x494e53 => 28, // INS
        0x494e44 => 29, // IND
        0x434f4d => 30, // COM
        0x4d5347 => 31, // MSG
        0x4e4554 => 32, // NET
        0x4e4354 => 33, // NCT
        0x4e5654 => 34, // NVT
        0x4e4f57 => 35, // NOW
        0x415249 => 36, // ARI
        0x585246 => 37, // XRF
        _ => 0,
    }
}

// Without a branch, for it is asked of nearly every record.
pub fn is_type(row: Row, a: u8, b: u8, c: u8) -> bool
    ensures { result ≡ same_bytes (type_of row) (a ∷ b ∷ c ∷ []) }
{
    (row.a == a) & (row.b == b) & (row.c == c)
}

// The row of a record that is of no type.
fn no_row() -> Row
    ensures { result ≡ no_row }
{
    Row {
        a: 0,
        b: 0,
        c: 0,
        class: Class::Unknown,
        length: 0,
        first: 0,
        second: 0,
        third: 0,
        rank: 0,
        alone: false,
        sort: Sort::Nothing,
    }
}

// The first of the rows that is of the type.
fn search(rows: [Row; 38], a: u8, b: u8, c: u8) -> Row
    ensures { result ≡ first_row rows (a ∷ b ∷ c ∷ []) }
{
    for row in rows {
        if is_type(row, a, b, c) {
            return row;
        }
    }
    no_row()
}

// The row of a type: the one hinted at, or where that is of another type the one found by a search.
fn row_of_type(a: u8, b: u8, c: u8) -> Row
    ensures { result ≡ row_for (a ∷ b ∷ c ∷ []) }
{
    let rows = table();
    let k = hint(a, b, c);
    let hinted = rows[k];
    if is_type(hinted, a, b, c) {
        hinted
    } else {
        search(rows, a, b, c)
    }
}

// The row of a record, by the record's first three bytes.
pub fn row_of(record: &[u8]) -> Row
    ensures { result ≡ row_for (take 3 «record».now) }
{
    if record.len() < 3 {
        no_row()
    } else {
        row_of_type(record[0], record[1], record[2])
    }
}

// The shape of a record whose row was hinted at: of that row where it is of the record's type. For walks, which keep the table. (Not the
// row: the compiler would build it in memory.)
pub fn confirmed(hinted: Row, record: &[u8]) -> Shape
    requires in_bounds { 3 ≤ length «record».now }
    requires hinted_value { (type : Bytes) → same_bytes (type_of hinted) type ≡ true → hinted ≡ row_for type }
    ensures { result ≡ shape_of (row_for (take 3 «record».now)) }
{
    if is_type(hinted, record[0], record[1], record[2]) {
        return hinted.shape();
    }
    row_of(record).shape()
}

// The row itself, for a walk that judges a record by more than its class and length.
pub fn confirmed_row(hinted: Row, record: &[u8]) -> Row
    requires in_bounds { 3 ≤ length «record».now }
    requires hinted_value { (type : Bytes) → same_bytes (type_of hinted) type ≡ true → hinted ≡ row_for type }
    ensures { result ≡ row_for (take 3 «record».now) }
{
    let own = is_type(hinted, record[0], record[1], record[2]);
    if own {
        return hinted;
    }
    row_of(record)
}

// In the order of the format's rows.
pub const ROWS: [Row; 38] = [
    Row {
        a: b'H',
        b: b'D',
        c: b'R',
        class: Class::Hdr,
        length: HDR_LENGTH,
        first: 0,
        second: 0,
        third: 0,
        rank: 0,
        alone: false,
        sort: Sort::Nothing,
    },
    Row {
        a: b'G',
        b: b'R',
        c: b'H',
        class: Class::Grh,
        length: GRH_LENGTH,
        first: 0,
        second: 0,
        third: 0,
        rank: 0,
        alone: false,
        sort: Sort::Nothing,
    },
    Row {
        a: b'G',
        b: b'R',
        c: b'T',
        class: Class::Grt,
        length: GRT_LENGTH,
        first: 0,
        second: 0,
        third: 0,
        rank: 0,
        alone: false,
        sort: Sort::Nothing,
    },
    Row {
        a: b'T',
        b: b'R',
        c: b'L',
        class: Class::Trl,
        length: 24,
        first: 0,
        second: 0,
        third: 0,
        rank: 0,
        alone: false,
        sort: Sort::Nothing,
    },
    Row {
        a: b'N',
        b: b'W',
        c: b'R',
        class: Class::Head,
        length: HEADER_LENGTH,
        first: 0,
        second: 0,
        third: 0,
        rank: 0,
        alone: false,
        sort: Sort::Header,
    },
    Row {
        a: b'R',
        b: b'E',
        c: b'V',
        class: Class::Head,
        length: HEADER_LENGTH,
        first: 0,
        second: 0,
        third: 0,
        rank: 0,
        alone: false,
        sort: Sort::Header,
    },
    Row {
        a: b'T',
        b: b'E',
        c: b'R',
        class: Class::Detail,
        length: 24,
        first: 0,
        second: 0,
        third: 0,
        rank: 0,
        alone: false,
        sort: Sort::Misplaced,
    },
    Row {
        a: b'I',
        b: b'P',
        c: b'A',
        class: Class::Detail,
        length: 153,
        first: 0,
        second: 0,
        third: 0,
        rank: 0,
        alone: false,
        sort: Sort::Misplaced,
    },
    Row {
        a: b'N',
        b: b'P',
        c: b'A',
        class: Class::Detail,
        length: 350,
        first: 0,
        second: 0,
        third: 0,
        rank: 0,
        alone: false,
        sort: Sort::Misplaced,
    },
    Row {
        a: b'S',
        b: b'P',
        c: b'U',
        class: Class::Detail,
        length: 183,
        first: 1,
        second: 0,
        third: 0,
        rank: 0,
        alone: false,
        sort: Sort::Publisher,
    },
    Row {
        a: b'O',
        b: b'P',
        c: b'U',
        class: Class::Detail,
        length: 183,
        first: 2,
        second: 0,
        third: 0,
        rank: 0,
        alone: false,
        sort: Sort::Publisher,
    },
    Row {
        a: b'N',
        b: b'P',
        c: b'N',
        class: Class::Detail,
        length: 512,
        first: 1,
        second: 2,
        third: 0,
        rank: 1,
        alone: false,
        sort: Sort::Nothing,
    },
    Row {
        a: b'S',
        b: b'P',
        c: b'T',
        class: Class::Detail,
        length: 58,
        first: 1,
        second: 0,
        third: 0,
        rank: 2,
        alone: false,
        sort: Sort::PublishersClaim,
    },
    Row {
        a: b'O',
        b: b'P',
        c: b'T',
        class: Class::Detail,
        length: 58,
        first: 1,
        second: 2,
        third: 0,
        rank: 2,
        alone: false,
        sort: Sort::PublishersClaim,
    },
    Row {
        a: b'S',
        b: b'W',
        c: b'R',
        class: Class::Detail,
        length: 180,
        first: 3,
        second: 0,
        third: 0,
        rank: 0,
        alone: false,
        sort: Sort::Writer,
    },
    Row {
        a: b'O',
        b: b'W',
        c: b'R',
        class: Class::Detail,
        length: 180,
        first: 4,
        second: 0,
        third: 0,
        rank: 0,
        alone: false,
        sort: Sort::Writer,
    },
    Row {
        a: b'N',
        b: b'W',
        c: b'N',
        class: Class::Detail,
        length: 350,
        first: 3,
        second: 4,
        third: 0,
        rank: 1,
        alone: false,
        sort: Sort::Nothing,
    },
    Row {
        a: b'S',
        b: b'W',
        c: b'T',
        class: Class::Detail,
        length: 52,
        first: 3,
        second: 0,
        third: 0,
        rank: 2,
        alone: false,
        sort: Sort::WritersClaim,
    },
    Row {
        a: b'O',
        b: b'W',
        c: b'T',
        class: Class::Detail,
        length: 52,
        first: 4,
        second: 0,
        third: 0,
        rank: 2,
        alone: false,
        sort: Sort::WritersClaim,
    },
    Row {
        a: b'P',
        b: b'W',
        c: b'R',
        class: Class::Detail,
        length: 112,
        first: 3,
        second: 4,
        third: 0,
        rank: 3,
        alone: false,
        sort: Sort::Nothing,
    },
    Row {
        a: b'A',
        b: b'L',
        c: b'T',
        class: Class::Detail,
        length: 83,
        first: 5,
        second: 0,
        third: 0,
        rank: 0,
        alone: false,
        sort: Sort::Nothing,
    },
    Row {
        a: b'N',
        b: b'A',
        c: b'T',
        class: Class::Detail,
        length: 663,
        first: 6,
        second: 0,
        third: 0,
        rank: 0,
        alone: false,
        sort: Sort::Nothing,
    },
    Row {
        a: b'E',
        b: b'W',
        c: b'T',
        class: Class::Detail,
        length: 364,
        first: 7,
        second: 0,
        third: 0,
        rank: 0,
        alone: false,
        sort: Sort::Ewt,
    },
    Row {
        a: b'V',
        b: b'E',
        c: b'R',
        class: Class::Detail,
        length: 364,
        first: 8,
        second: 0,
        third: 0,
        rank: 0,
        alone: false,
        sort: Sort::Ver,
    },
    Row {
        a: b'P',
        b: b'E',
        c: b'R',
        class: Class::Detail,
        length: 118,
        first: 9,
        second: 0,
        third: 0,
        rank: 0,
        alone: false,
        sort: Sort::Per,
    },
    Row {
        a: b'N',
        b: b'P',
        c: b'R',
        class: Class::Detail,
        length: 370,
        first: 9,
        second: 0,
        third: 0,
        rank: 1,
        alone: true,
        sort: Sort::Nothing,
    },
    Row {
        a: b'R',
        b: b'E',
        c: b'C',
        class: Class::Detail,
        length: 540,
        first: 10,
        second: 0,
        third: 0,
        rank: 0,
        alone: false,
        sort: Sort::Rec,
    },
    Row {
        a: b'O',
        b: b'R',
        c: b'N',
        class: Class::Detail,
        length: 348,
        first: 11,
        second: 0,
        third: 0,
        rank: 0,
        alone: false,
        sort: Sort::Nothing,
    },
    Row {
        a: b'I',
        b: b'N',
        c: b'S',
        class: Class::Detail,
        length: 75,
        first: 12,
        second: 0,
        third: 0,
        rank: 0,
        alone: false,
        sort: Sort::Instrument,
    },
    Row {
        a: b'I',
        b: b'N',
        c: b'D',
        class: Class::Detail,
        length: 25,
        first: 12,
        second: 0,
        third: 0,
        rank: 1,
        alone: true,
        sort: Sort::Instrument,
    },
    Row {
        a: b'C',
        b: b'O',
        c: b'M',
        class: Class::Detail,
        length: 308,
        first: 13,
        second: 0,
        third: 0,
        rank: 0,
        alone: false,
        sort: Sort::Nothing,
    },
    Row {
        a: b'M',
        b: b'S',
        c: b'G',
        class: Class::Detail,
        length: 185,
        first: 0,
        second: 0,
        third: 0,
        rank: 0,
        alone: false,
        sort: Sort::Misplaced,
    },
    Row {
        a: b'N',
        b: b'E',
        c: b'T',
        class: Class::Detail,
        length: 661,
        first: 7,
        second: 0,
        third: 0,
        rank: 1,
        alone: false,
        sort: Sort::Nothing,
    },
    Row {
        a: b'N',
        b: b'C',
        c: b'T',
        class: Class::Detail,
        length: 661,
        first: 13,
        second: 0,
        third: 0,
        rank: 1,
        alone: false,
        sort: Sort::Nothing,
    },
    Row {
        a: b'N',
        b: b'V',
        c: b'T',
        class: Class::Detail,
        length: 661,
        first: 8,
        second: 0,
        third: 0,
        rank: 1,
        alone: false,
        sort: Sort::Nothing,
    },
    Row {
        a: b'N',
        b: b'O',
        c: b'W',
        class: Class::Detail,
        length: 342,
        first: 7,
        second: 8,
        third: 13,
        rank: 2,
        alone: false,
        sort: Sort::Nothing,
    },
    Row {
        a: b'A',
        b: b'R',
        c: b'I',
        class: Class::Detail,
        length: 201,
        first: 14,
        second: 0,
        third: 0,
        rank: 0,
        alone: false,
        sort: Sort::Nothing,
    },
    Row {
        a: b'X',
        b: b'R',
        c: b'F',
        class: Class::Detail,
        length: 38,
        first: 15,
        second: 0,
        third: 0,
        rank: 0,
        alone: false,
        sort: Sort::Nothing,
    },
];
