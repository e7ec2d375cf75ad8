// What a field may hold beyond digits: zeros, a date, a duration, an ISWC, a share. Where the width is fixed the bytes are looked at one
// by one, with no loop: nearly every record has shares or dates.
#![tactic(auto)]

ghost use Rattle.std.specs.Prelude.{◌≡◌, ◌&&◌, [], ◌∷◌, ℕ, ◌+◌, ◌-◌, ◌<◌, ◌≤◌, leb, length, MatchOption};
ghost use Rattle.format.specs.Fields.{field_of, are_digits, number_of};
ghost use Rattle.rules.specs.Values.{are_zeros, leap_year, days_in, is_day, is_date, is_duration, iswc_sum, is_iswc};
ghost use Rattle.rules.specs.Values.{full_share, largest_tolerance, share_of, bad_share};

use std::marker::Model;

// Whether each byte is a zero, as it is in an empty field.
#[tactic(auto, unfolding(rules::specs::Values::are_zeros))]
pub fn zeros(field: &[u8]) -> bool
    ensures { result ≡ are_zeros field.now }
{
    text::filled(field, b'0')
}

// ---- two bytes

// Whether both are digits.
#[tactic(auto, using(crate::proofs::Laws::digits_two))]
pub fn are_digits(a: u8, b: u8) -> bool
    ensures { result ≡ are_digits (a ∷ b ∷ []) }
{
    text::is_digit(a) & text::is_digit(b)
}

// The number that they write.
#[tactic(auto, using(crate::proofs::Laws::number_two))]
pub fn number(a: u8, b: u8) -> u64
    ensures value { result ≡ number_of (a ∷ b ∷ []) }
    ensures upper_bound { result ≤ 99 }
{
    10 * text::digit(a) + text::digit(b)
}

// ---- a date

fn leap_year(y: u64) -> bool
    ensures { result ≡ leap_year y }
{
    (y % 4 == 0) & ((y % 100 != 0) | (y % 400 == 0))
}

// Computed, so that no list of months is loaded. Up to July the odd months have 31 days and from August on the even ones: the eighth part,
// which is 1 from there on, turns them about.
#[tactic(auto, using(crate::proofs::Laws::month))]
fn days_in(y: u64, m: u64) -> u64
    requires { (1 ≤ m) × (m ≤ 12) }
    ensures { result ≡ days_in y m }
{
    let february = choice::pick(leap_year(y), 29, 28);
    choice::pick(m == 2, february, 30 + (m + m / 8) % 2)
}

fn is_day(y: u64, m: u64, d: u64) -> bool
    ensures { result ≡ is_day y m d }
{
    (1..=12).contains(&m) && (1 <= y) & (1 <= d) & (d <= days_in(y, m))
}

#[tactic(auto, using(crate::proofs::Laws::date_is))]
pub fn date(field: &[u8]) -> bool
    requires { length field.now ≡ 8 }
    ensures { result ≡ is_date field.now }
{
    let digits = are_digits(field[0], field[1])
        & (are_digits(field[2], field[3])
            & (are_digits(field[4], field[5]) & are_digits(field[6], field[7])));
    let year = 100 * number(field[0], field[1]) + number(field[2], field[3]);
    digits & is_day(year, number(field[4], field[5]), number(field[6], field[7]))
}

// ---- a duration

#[tactic(auto, using(crate::proofs::Laws::duration_is))]
pub fn duration(field: &[u8]) -> bool
    requires { length field.now ≡ 6 }
    ensures { result ≡ is_duration field.now }
{
    let digits = are_digits(field[0], field[1])
        & (are_digits(field[2], field[3]) & are_digits(field[4], field[5]));
    digits & (number(field[2], field[3]) <= 59) & (number(field[4], field[5]) <= 59)
}

// ---- an ISWC

// The sum begins with it (ISO 15707).
const LEAD: u64 = 1;

// The sum that is a multiple of 10 where the last digit is right.
#[tactic(auto, using(crate::proofs::Laws::sum_is))]
fn iswc_sum(field: &[u8]) -> u64
    requires { length field.now ≡ 11 }
    ensures { result ≡ iswc_sum field.now }
{
    LEAD + text::digit(field[1])
        + 2 * text::digit(field[2])
        + 3 * text::digit(field[3])
        + 4 * text::digit(field[4])
        + 5 * text::digit(field[5])
        + 6 * text::digit(field[6])
        + 7 * text::digit(field[7])
        + 8 * text::digit(field[8])
        + 9 * text::digit(field[9])
        + text::digit(field[10])
}

#[tactic(auto, using(crate::proofs::Laws::ten_are))]
fn ten_digits(field: &[u8]) -> bool
    requires { length field.now ≡ 11 }
    ensures { result ≡ are_digits (field_of 2 10 field.now) }
{
    are_digits(field[1], field[2])
        & (are_digits(field[3], field[4])
            & (are_digits(field[5], field[6])
                & (are_digits(field[7], field[8]) & are_digits(field[9], field[10]))))
}

#[tactic(auto, using(crate::proofs::Laws::first_is), unfolding(rules::specs::Values::is_iswc))]
pub fn iswc(field: &[u8]) -> bool
    requires { length field.now ≡ 11 }
    ensures { result ≡ is_iswc field.now }
{
    (b'T' == field[0]) & ten_digits(field) & (iswc_sum(field) % 10 == 0)
}

// ---- a share, in hundredths of a percent

// How far a total may be off: no further than the largest tolerance.
#[derive(Clone, Copy)]
pub struct Tolerance {
    pub hundredths: u64,
}

impl Model for Tolerance {
    ghost Value = { ℕ };

    ghost view = { λ t. t.hundredths };

    ghost invariant = { λ t. t.hundredths ≤ largest_tolerance };

    ghost inverse = { λ t. record { hundredths = t } };
}

impl Tolerance {
    // None where it is too large.
    pub fn of(hundredths: u64) -> Option<Tolerance>
        ensures { MatchOption result (largest_tolerance < hundredths) (λ t. t ≡ hundredths) }
    {
        if Share::is_tolerance(hundredths) {
            Some(Tolerance { hundredths })
        } else {
            None
        }
    }
}

// A share field as it is read: what it counts, 0 where it isn't five digits; and whether it isn't, or is over the most that it may be. No
// Option: a share that is over the most still counts.
#[derive(Clone, Copy)]
pub struct Share {
    pub counts: u64,
    pub bad: bool,
}

impl Share {
    pub const FULL: u64 = 10000;

    // The publishers' half of performing rights.
    pub const HALF: u64 = 5000;

    // The largest tolerance, and none.
    pub const SLACK: u64 = 6;

    pub const EXACT: u64 = 0;

    // No share.
    pub fn zero() -> Share
        ensures { result.counts ≡ 0 }
    {
        Share {
            counts: 0,
            bad: false,
        }
    }

    #[tactic(auto, using(crate::proofs::Laws::five_are, crate::proofs::Laws::five_number), unfolding(rules::specs::Values::share_of, rules::specs::Values::bad_share))]
    pub fn read(field: &[u8], most: u64) -> Share
        requires { length field.now ≡ 5 }
        ensures counts_value { (result.counts ≡ share_of field.now) × (result.counts ≤ 99999) }
        ensures bad_value { result.bad ≡ bad_share most field.now }
    {
        let digits = are_digits(field[0], field[1])
            & (are_digits(field[2], field[3]) & text::is_digit(field[4]));
        if digits {
            let number = 1000 * number(field[0], field[1])
                + 10 * number(field[2], field[3])
                + text::digit(field[4]);
            Share {
                counts: number,
                bad: !(number <= most),
            }
        } else {
            Share {
                counts: 0,
                bad: true,
            }
        }
    }

    pub fn is_tolerance(t: u64) -> bool
        ensures { result ≡ leb t largest_tolerance }
    {
        t <= Share::SLACK
    }

    // The range tests of a total, which has no bound but its type's. The tolerance is on the total's side.
    pub fn at_most(total: u64, most: u64, tolerance: Tolerance) -> bool
        requires { most ≤ full_share }
        ensures { result ≡ leb total (most + tolerance) }
    {
        total <= most + tolerance.hundredths
    }

    // Any tolerance will do: from one as large as the least on, each total is enough.
    pub fn at_least(total: u64, least: u64, tolerance: u64) -> bool
        ensures { result ≡ leb (least - tolerance) total }
    {
        least.saturating_sub(tolerance) <= total
    }

    pub fn about(total: u64, share: u64, tolerance: Tolerance) -> bool
        requires { share ≤ full_share }
        ensures { result ≡ (leb (share - tolerance) total && leb total (share + tolerance)) }
    {
        Share::at_least(total, share, tolerance.hundredths)
            & Share::at_most(total, share, tolerance)
    }
}
