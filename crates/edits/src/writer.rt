// SWR and OWR.
ghost use Rattle.std.specs.Prelude.{◌≡◌, not, List, length};
ghost use Rattle.format.specs.Bytes.{Bytes, among};
ghost use Rattle.rules.specs.Tables.{Tables, designations};
ghost use Rattle.rules.specs.Records.{is_type};
ghost use Rattle.rules.specs.Writer.{designation, designation_in_force, is38, is39, is40, is42};
ghost use Rattle.rules.specs.Writers.{creators, changers, authors};
ghost use Rattle.totals.specs.Sums.{AtMost};
ghost use Rattle.edits.specs.Kinds.{WriterRecord};
ghost use Rattle.edits.specs.Readings.{WriterReads, FindsWriter};
ghost use Rattle.edits.specs.Judged.{Judged};

use super::{Field, Found, gather, is_code, read_shares};
use std::marker::Model;
use totals::Rights;
use values::Share;

// What is read off a writer record.
#[derive(Clone, Copy)]
pub struct Writer {
    // Whether it is an SWR; else it is an OWR.
    pub swr: bool,
    // Whether the designation is in the table; whether it is one of who makes a work, who changes one, who writes text.
    pub listed: bool,
    pub creator: bool,
    pub changer: bool,
    pub author: bool,
    pub shares: Rights,
    // Finding 41: a share that isn't five digits, or is over 10000.
    pub bad_share: bool,
}

// ---- fields

const PARTY_NUMBER: Field = Field(20, 9);

const LAST_NAME: Field = Field(29, 45);

const DESIGNATION: Field = Field(105, 2);

const SHARE_PR: Field = Field(130, 5);

const SHARE_MR: Field = Field(138, 5);

const SHARE_SR: Field = Field(146, 5);

// The bytes of a writer record, whose type and length have been seen to.
#[derive(Drop)]
struct Record<'a> {
    bytes: &'a [u8],
}

impl<'a> Model for Record<'a> {
    ghost Value = { Bytes };

    ghost view = { λ r. r.bytes.now };

    ghost invariant = { λ r. WriterRecord r.bytes.now };
}

// ---- read once

impl Writer {
    pub fn read(bytes: &[u8]) -> Writer
        requires { WriterRecord bytes.now }
        ensures writer_reads { WriterReads result bytes.now }
        ensures at_most { AtMost 99999 result.shares }
    {
        let record = Record { bytes };
        let roles = record.read_roles();
        let shares = read_shares(
            SHARE_PR.of(bytes),
            SHARE_MR.of(bytes),
            SHARE_SR.of(bytes),
            Share::FULL,
        );
        Writer {
            swr: record.is_swr(),
            listed: roles.listed,
            creator: roles.creator,
            changer: roles.changer,
            author: roles.author,
            shares: shares.counts,
            bad_share: shares.bad,
        }
    }
}

// As in Writer.
#[derive(Clone, Copy)]
struct Roles {
    listed: bool,
    creator: bool,
    changer: bool,
    author: bool,
}

impl Record<'_> {
    fn is_swr(&self) -> bool
        ensures swr { result ≡ is_type "SWR" self.now }
        ensures owr { not result ≡ is_type "OWR" self.now }
    {
        b'S' == self.bytes[0]
    }

    // The default of 40 is spaces, which are in the table as little as what it stands for: it changes nothing of this.
    fn read_roles(&self) -> Roles
        ensures listed_value { result.listed ≡ among (designation self.now) designations }
        ensures creator_value { result.creator ≡ among (designation_in_force self.now) creators }
        ensures changer_value { result.changer ≡ among (designation_in_force self.now) changers }
        ensures author_value { result.author ≡ among (designation_in_force self.now) authors }
    {
        let code = DESIGNATION.of(self.bytes);
        let ca = is_code(code, b"CA");
        let a = is_code(code, b"A ");
        let c = is_code(code, b"C ");
        let ar = is_code(code, b"AR");
        let ad = is_code(code, b"AD");
        let sr = is_code(code, b"SR");
        let sa = is_code(code, b"SA");
        let tr = is_code(code, b"TR");
        let pa = is_code(code, b"PA");
        Roles {
            listed: ca | (a | (c | (ar | (ad | (sr | (sa | (tr | pa))))))),
            creator: ca | (a | c),
            changer: ar | (ad | (sr | (sa | tr))),
            author: ca | (a | (sa | tr)),
        }
    }
}

// ---- the findings

impl Writer {
    // SWR last name blank.
    #[tactic(auto, unfolding(rules::specs::Writer::is38))]
    fn found_38(self, record: &Record) -> bool
        ensures { WriterReads self «record».now → result ≡ is38 «record».now }
    {
        self.swr & text::blank(LAST_NAME.of(record.bytes))
    }

    // SWR designation not in the table.
    #[tactic(auto, unfolding(rules::specs::Writer::is39))]
    fn found_39(self) -> bool
        ensures { FindsWriter self result is39 }
    {
        self.swr & !self.listed
    }

    // OWR designation entered, not in the table.
    #[tactic(auto, unfolding(rules::specs::Writer::is40))]
    fn found_40(self, record: &Record) -> bool
        ensures { WriterReads self «record».now → result ≡ is40 «record».now }
    {
        !self.swr & !text::blank(DESIGNATION.of(record.bytes)) & !self.listed
    }

    // SWR party number blank.
    #[tactic(auto, unfolding(rules::specs::Writer::is42))]
    fn found_42(self, record: &Record) -> bool
        ensures { WriterReads self «record».now → result ≡ is42 «record».now }
    {
        self.swr & text::blank(PARTY_NUMBER.of(record.bytes))
    }
}

pub fn judge(w: Writer, bytes: &[u8]) -> Found
    requires { WriterRecord bytes.now }
    ensures { (tables : Tables) (before : List Bytes) → WriterReads w bytes.now → Judged tables before bytes.now result }
{
    let record = Record { bytes };
    gather(
        38,
        &[
            w.found_38(&record),
            w.found_39(),
            w.found_40(&record),
            w.bad_share,
            w.found_42(&record),
        ],
    )
}
