// SPU and OPU.
ghost use Rattle.std.specs.Prelude.{◌≡◌, not, List, length};
ghost use Rattle.format.specs.Bytes.{Bytes, among};
ghost use Rattle.rules.specs.Tables.{Tables, society_size, publisher_types};
ghost use Rattle.rules.specs.Records.{is_type, is_publisher, only, latest};
ghost use Rattle.rules.specs.Publisher.{publisher_type, is_e, is_aq, follows, strange, earlier_e};
ghost use Rattle.rules.specs.Publisher.{is25, is26, is27, is28, is29, is31, is32, is33, is34, is35, is36, is37};
ghost use Rattle.tables.specs.Index.{Indexed};
ghost use Rattle.edits.specs.Kinds.{PublisherRecord};
ghost use Rattle.edits.specs.Sequences.{sequence_of, last_sequence};
ghost use Rattle.edits.specs.Readings.{PublisherReads, FindsPublisher, Below100, Bounded};
ghost use Rattle.edits.specs.Judged.{Judged};

use super::{Field, Found, gather, is_code, read_shares};
use std::marker::Model;
use tables::{Slots, Table};
use totals::Rights;
use values::Share;

// The sequence number of a publisher record, or of the last one before a record.
#[derive(Clone, Copy)]
pub enum Sequence {
    NoRecord,
    NotDigits,
    Number(u8),
}

// What is read off a publisher record.
#[derive(Clone, Copy)]
pub struct Publisher {
    // Whether it is an SPU; else it is an OPU.
    pub spu: bool,
    pub sequence: Sequence,
    pub indicator: u8,
    // Whether the type that stands there is in the table.
    pub listed: bool,
    // Whether the type is E or AQ, with the default of 35 in force.
    pub e: bool,
    pub aq: bool,
    pub shares: Rights,
    // Finding 30: a share that isn't five digits, or is too large.
    pub bad_share: bool,
}

// ---- fields

const SEQUENCE_NUMBER: Field = Field(20, 2);

const PARTY_NUMBER: Field = Field(22, 9);

const NAME: Field = Field(31, 45);

const INDICATOR: Field = Field(76, 1);

const PUBLISHER_TYPE: Field = Field(77, 2);

const TAX_NUMBER: Field = Field(79, 9);

const SOCIETY_PR: Field = Field(113, 3);

const SHARE_PR: Field = Field(116, 5);

const SOCIETY_MR: Field = Field(121, 3);

const SHARE_MR: Field = Field(124, 5);

const SOCIETY_SR: Field = Field(129, 3);

const SHARE_SR: Field = Field(132, 5);

// The bytes of a publisher record, whose type and length have been seen to.
#[derive(Drop)]
struct Record<'a> {
    bytes: &'a [u8],
}

impl<'a> Model for Record<'a> {
    ghost Value = { Bytes };

    ghost view = { λ r. r.bytes.now };

    ghost invariant = { λ r. PublisherRecord r.bytes.now };
}

// ---- read once

impl Publisher {
    pub fn read(bytes: &[u8]) -> Publisher
        requires { PublisherRecord bytes.now }
        ensures publisher_reads { PublisherReads result bytes.now }
        ensures bounded { Bounded result }
    {
        let record = Record { bytes };
        let spu = record.is_spu();
        let t = record.read_type(spu);
        let shares = read_shares(
            SHARE_PR.of(bytes),
            SHARE_MR.of(bytes),
            SHARE_SR.of(bytes),
            Share::HALF,
        );
        let indicator = INDICATOR.of(bytes);
        Publisher {
            spu,
            sequence: record.read_sequence(),
            indicator: indicator[0],
            listed: t.listed,
            e: t.e,
            aq: t.aq,
            shares: shares.counts,
            bad_share: shares.bad,
        }
    }
}

// As in Publisher.
#[derive(Clone, Copy)]
struct Type {
    listed: bool,
    e: bool,
    aq: bool,
}

impl Record<'_> {
    fn is_spu(&self) -> bool
        ensures spu { result ≡ is_type "SPU" self.now }
        ensures opu { not result ≡ is_type "OPU" self.now }
    {
        b'S' == self.bytes[0]
    }

    fn read_sequence(&self) -> Sequence
        ensures value { result ≡ sequence_of self.now }
        ensures below100 { Below100 result }
    {
        let number = SEQUENCE_NUMBER.of(self.bytes);
        if values::are_digits(number[0], number[1]) {
            Sequence::Number(values::number(number[0], number[1]) as u8)
        } else {
            Sequence::NotDigits
        }
    }

    fn read_type(&self, spu: bool) -> Type
        ensures listed_value { result.listed ≡ among (publisher_type self.now) publisher_types }
        ensures e_value { not spu ≡ is_type "OPU" self.now → (result.e ≡ is_e self.now) × (result.aq ≡ is_aq self.now) }
    {
        let code = PUBLISHER_TYPE.of(self.bytes);
        let e = is_code(code, b"E ");
        let aq = is_code(code, b"AQ");
        let am = is_code(code, b"AM");
        let pa = is_code(code, b"PA");
        let se = is_code(code, b"SE");
        let es = is_code(code, b"ES");
        let listed = e | (aq | (am | (pa | (se | es))));
        Type {
            listed,
            e: e | (!spu & !listed),
            aq,
        }
    }
}

// ---- the sequence number

// Whether the number here may stand after that of the publisher record before.
fn follows(last: Sequence, here: Sequence) -> bool
    ensures { (before : List Bytes) (r : Bytes) → PublisherRecord r → last ≡ last_sequence before → here ≡ sequence_of r
        → result ≡ follows (latest (only is_publisher before)) r }
{
    match here {
        Sequence::NoRecord => false,
        Sequence::NotDigits => false,
        Sequence::Number(n) => match last {
            Sequence::NoRecord => n == 1,
            Sequence::NotDigits => false,
            Sequence::Number(before) => (n == before) | (u32::from(n) == u32::from(before) + 1),
        },
    }
}

impl Publisher {
    // The number does not follow.
    #[tactic(auto, unfolding(rules::specs::Publisher::is25))]
    fn found_25(self, last: Sequence) -> bool
        ensures { (before : List Bytes) → last ≡ last_sequence before → FindsPublisher self result (is25 before) }
    {
        !follows(last, self.sequence)
    }

    // ---- the type and the shares

    // SPU type not in the table.
    #[tactic(auto, unfolding(rules::specs::Publisher::is28))]
    fn found_28(self) -> bool
        ensures { FindsPublisher self result is28 }
    {
        self.spu & !self.listed
    }

    // OPU type not in the table.
    #[tactic(auto, unfolding(rules::specs::Publisher::is35))]
    fn found_35(self) -> bool
        ensures { FindsPublisher self result is35 }
    {
        !self.spu & !self.listed
    }

    // A share above 0, and type neither E nor AQ.
    #[tactic(auto, unfolding(rules::specs::Publisher::is31))]
    fn found_31(self) -> bool
        ensures { FindsPublisher self result is31 }
    {
        ((0 < self.shares.pr) | (0 < self.shares.mr) | (0 < self.shares.sr)) & !(self.e | self.aq)
    }

    // SPU of type AQ, and no E SPU of its chain known before it.
    #[tactic(auto, unfolding(rules::specs::Publisher::is32))]
    fn found_32(self, known: bool) -> bool
        ensures { (before : List Bytes) (r : Bytes) → known ≡ earlier_e before r → PublisherReads self r → result ≡ is32 before r }
    {
        self.spu & self.aq & !known
    }

    // ---- the indicator and the name

    // Name blank where SPU, or OPU whose indicator isn't Y.
    #[tactic(auto, using(crate::proofs::Fields::one_same), unfolding(rules::specs::Publisher::is27))]
    fn found_27(self, record: &Record) -> bool
        ensures { PublisherReads self «record».now → result ≡ is27 «record».now }
    {
        (self.spu | (!self.spu & (b'Y' != self.indicator))) & text::blank(NAME.of(record.bytes))
    }

    // SPU indicator not blank.
    #[tactic(auto, using(crate::proofs::Fields::one_blank), unfolding(rules::specs::Publisher::is29))]
    fn found_29(self) -> bool
        ensures { FindsPublisher self result is29 }
    {
        self.spu & (self.indicator != b' ')
    }

    // OPU indicator not blank, Y or N.
    #[tactic(auto, using(crate::proofs::Fields::one_blank, crate::proofs::Fields::one_same), unfolding(rules::specs::Publisher::is33))]
    fn found_33(self) -> bool
        ensures { FindsPublisher self result is33 }
    {
        !self.spu
            & !((self.indicator == b' ') | (b'Y' == self.indicator) | (b'N' == self.indicator))
    }

    // OPU indicator Y with a name.
    #[tactic(auto, using(crate::proofs::Fields::one_same), unfolding(rules::specs::Publisher::is34))]
    fn found_34(self, record: &Record) -> bool
        ensures { PublisherReads self «record».now → result ≡ is34 «record».now }
    {
        !self.spu & (b'Y' == self.indicator) & !text::blank(NAME.of(record.bytes))
    }

    // ---- the other fields

    // SPU party number blank.
    #[tactic(auto, unfolding(rules::specs::Publisher::is26))]
    fn found_26(self, record: &Record) -> bool
        ensures { PublisherReads self «record».now → result ≡ is26 «record».now }
    {
        self.spu & text::blank(PARTY_NUMBER.of(record.bytes))
    }
}

// A society code entered and not in the table.
fn is_strange(code: &[u8], slots: &Slots) -> bool
    requires { length code.now ≡ society_size }
    ensures { (tables : Tables) → Indexed tables slots.now → result ≡ strange tables code.now }
{
    !text::blank(code) && !tables::has(slots, Table::Societies, code)
}

impl Record<'_> {
    #[tactic(auto, unfolding(rules::specs::Publisher::is36))]
    fn found_36(&self, slots: &Slots) -> bool
        ensures { (tables : Tables) → Indexed tables slots.now → result ≡ is36 tables self.now }
    {
        is_strange(SOCIETY_PR.of(self.bytes), slots)
            | is_strange(SOCIETY_MR.of(self.bytes), slots)
            | is_strange(SOCIETY_SR.of(self.bytes), slots)
    }

    // Tax number entered, not digits.
    #[tactic(auto, unfolding(rules::specs::Publisher::is37))]
    fn found_37(&self) -> bool
        ensures { result ≡ is37 self.now }
    {
        let number = TAX_NUMBER.of(self.bytes);
        !text::blank(number) & !text::digits(number)
    }
}

// ---- together

// last is the sequence number of the publisher record before, and known says that an E SPU of the chain stands before.
pub fn judge(p: Publisher, bytes: &[u8], slots: &Slots, last: Sequence, known: bool) -> Found
    requires { PublisherRecord bytes.now }
    ensures { (tables : Tables) (before : List Bytes) → Indexed tables slots.now → PublisherReads p bytes.now
        → last ≡ last_sequence before → known ≡ earlier_e before bytes.now → Judged tables before bytes.now result }
{
    let record = Record { bytes };
    gather(
        25,
        &[
            p.found_25(last),
            p.found_26(&record),
            p.found_27(&record),
            p.found_28(),
            p.found_29(),
            p.bad_share,
            p.found_31(),
            p.found_32(known),
            p.found_33(),
            p.found_34(&record),
            p.found_35(),
            record.found_36(slots),
            record.found_37(),
        ],
    )
}
