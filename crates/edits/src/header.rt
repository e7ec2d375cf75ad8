// NWR and REV.
ghost use Rattle.std.specs.Prelude.{◌≡◌, List};
ghost use Rattle.format.specs.Bytes.{Bytes};
ghost use Rattle.rules.specs.Tables.{Tables};
ghost use Rattle.rules.specs.Header.{is_serious, is16, is17, is18, is19, is20, is21, is22, is23};
ghost use Rattle.tables.specs.Index.{Indexed};
ghost use Rattle.edits.specs.Kinds.{HeaderRecord};
ghost use Rattle.edits.specs.Judged.{Judged};

use super::{Field, Found, gather, is_code};
use std::marker::Model;
use tables::{Slots, Table};

// ---- fields

const TITLE: Field = Field(20, 60);

const LANGUAGE: Field = Field(80, 2);

const WORK_NUMBER: Field = Field(82, 14);

const ISWC: Field = Field(96, 11);

const COPYRIGHT_DATE: Field = Field(107, 8);

const CATEGORY: Field = Field(127, 3);

const DURATION: Field = Field(130, 6);

// The bytes of a header, whose type and length have been seen to.
#[derive(Drop)]
pub struct Header<'a> {
    pub bytes: &'a [u8],
}

impl<'a> Model for Header<'a> {
    ghost Value = { Bytes };

    ghost view = { λ h. h.bytes.now };

    ghost invariant = { λ h. HeaderRecord h.bytes.now };
}

// ---- findings

impl Header<'_> {
    // Title blank.
    #[tactic(auto, unfolding(rules::specs::Header::is16))]
    fn found_16(&self) -> bool
        ensures { result ≡ is16 self.now }
    {
        text::blank(TITLE.of(self.bytes))
    }

    // Language entered and not in the table.
    #[tactic(auto, unfolding(rules::specs::Header::is17))]
    fn found_17(&self, slots: &Slots) -> bool
        ensures { (tables : Tables) → Indexed tables slots.now → result ≡ is17 tables self.now }
    {
        let code = LANGUAGE.of(self.bytes);
        !text::blank(code) && !tables::has(slots, Table::Languages, code)
    }

    // Work number blank.
    #[tactic(auto, unfolding(rules::specs::Header::is18))]
    fn found_18(&self) -> bool
        ensures { result ≡ is18 self.now }
    {
        text::blank(WORK_NUMBER.of(self.bytes))
    }

    // ISWC entered and invalid.
    #[tactic(auto, unfolding(rules::specs::Header::is19))]
    fn found_19(&self) -> bool
        ensures { result ≡ is19 self.now }
    {
        let code = ISWC.of(self.bytes);
        !text::blank(code) & !values::iswc(code)
    }

    // Copyright date not zeros and invalid.
    #[tactic(auto, unfolding(rules::specs::Header::is20))]
    fn found_20(&self) -> bool
        ensures { result ≡ is20 self.now }
    {
        let date = COPYRIGHT_DATE.of(self.bytes);
        !values::zeros(date) & !values::date(date)
    }

    // Category not in the table; a blank one never is.
    #[tactic(auto, unfolding(rules::specs::Header::is21))]
    fn found_21(&self, slots: &Slots) -> bool
        ensures { (tables : Tables) → Indexed tables slots.now → result ≡ is21 tables self.now }
    {
        let code = CATEGORY.of(self.bytes);
        text::blank(code) | !tables::has(slots, Table::Categories, code)
    }

    // Whether the category is SER.
    pub fn is_serious(&self) -> bool
        ensures { result ≡ is_serious self.now }
    {
        is_code(CATEGORY.of(self.bytes), b"SER")
    }

    // Category SER, and duration zero or invalid.
    #[tactic(auto, unfolding(rules::specs::Header::is22))]
    fn found_22(&self) -> bool
        ensures { result ≡ is22 self.now }
    {
        let duration = DURATION.of(self.bytes);
        self.is_serious() & (values::zeros(duration) | !values::duration(duration))
    }

    // Another category, and duration invalid.
    #[tactic(auto, unfolding(rules::specs::Header::is23))]
    fn found_23(&self) -> bool
        ensures { result ≡ is23 self.now }
    {
        !self.is_serious() & !values::duration(DURATION.of(self.bytes))
    }
}

// The tables are asked by the index made of them.
pub fn judge(bytes: &[u8], slots: &Slots) -> Found
    requires { HeaderRecord bytes.now }
    ensures { (tables : Tables) (before : List Bytes) → Indexed tables slots.now → Judged tables before bytes.now result }
{
    let header = Header { bytes };
    gather(
        16,
        &[
            header.found_16(),
            header.found_17(slots),
            header.found_18(),
            header.found_19(),
            header.found_20(),
            header.found_21(slots),
            header.found_22(),
            header.found_23(),
        ],
    )
}
