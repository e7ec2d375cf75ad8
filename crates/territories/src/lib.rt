// The lent territory table: whether it is right, where a code stands in it, and the group of a territory. Hints make the search for a code
// short; none is trusted.
#![tactic(auto)]

ghost use Rattle.std.specs.Prelude.{◌≡◌, true, [], ◌+◌, ◌*◌, ◌<◌, ◌≤◌, length, drop, get_or};
ghost use Rattle.format.specs.Bytes.{same_bytes, among};
ghost use Rattle.rules.specs.Territories.{territories_in, codes_of, no_group, most_territories, any_twice, groups_earlier, right_territories};
ghost use Rattle.territories.specs.Positions.{place_of, groups_of, hint_count, slot_of, Hinted};

// How many bytes an entry has: four of code, and two with the position of its group, the least significant first.
pub const SIZE: usize = 6;

// The most entries that a table may have.
pub const MOST: usize = 512;

// The position that stands for no group.
pub const NO_GROUP: usize = 65535;

// ---- an entry

pub fn count(table: &[u8]) -> usize
    ensures { result ≡ length (territories_in table.now) }
{
    table.len() / SIZE
}

// The position of the k-th entry's group.
pub fn group(table: &[u8], k: usize) -> usize
    requires { 6 * k + 6 ≤ length table.now }
    ensures value { result ≡ get_or (groups_of (territories_in table.now)) k no_group }
    ensures upper_bound { result ≤ 65535 }
{
    let at = SIZE * k + 4;
    usize::from(table[at]) + 256 * usize::from(table[at + 1])
}

// The k-th entry's code: lent, not copied.
fn code_at(table: &[u8], k: usize) -> &[u8]
    requires { 6 * k + 6 ≤ length table.now }
    ensures result_value { result.now ≡ get_or (codes_of (territories_in table.now)) k [] }
    ensures result_len { length result.now ≡ 4 }
{
    let start = SIZE * k;
    &table[start..start + 4]
}

// Whether the k-th entry has this code.
pub fn is_at(table: &[u8], k: usize, code: &[u8]) -> bool
    requires { (6 * k + 6 ≤ length table.now) × (length code.now ≡ 4) }
    ensures { result ≡ same_bytes (get_or (codes_of (territories_in table.now)) k []) code.now }
{
    code_at(table, k) == code
}

// ---- the place of a code

// The first entry from that one on that has this code; where none has, the end.
fn place_from(table: &[u8], from: usize, code: &[u8]) -> usize
    requires { (from ≤ length (territories_in table.now)) × (length code.now ≡ 4) }
    ensures { result ≡ from + place_of code.now (drop from (codes_of (territories_in table.now))) }
{
    let end = count(table);
    for k in from..end {
        if is_at(table, k, code) {
            return k;
        }
    }
    end
}

// The first entry that has this code; where none has, how many entries there are. No Option: whoever asks compares it with that number, as
// the rules do.
pub fn position(table: &[u8], code: &[u8]) -> usize
    requires { length code.now ≡ 4 }
    ensures { result ≡ place_of code.now (codes_of (territories_in table.now)) }
{
    place_from(table, 0, code)
}

// ---- hints

pub const SLOTS: usize = 4096;

// A slot for some code, which holds the position of an entry.
pub type Hints = [u16; SLOTS];

// The slot of a code. Codes of four digits that write less than 4,096 have slots of their own.
fn slot(code: &[u8]) -> usize
    requires { length code.now ≡ 4 }
    ensures value { result ≡ slot_of code.now }
    ensures upper_bound { result < hint_count }
{
    (usize::from(code[0] % 16) * 1000
        + usize::from(code[1] % 16) * 100
        + usize::from(code[2] % 16) * 10
        + usize::from(code[3] % 16))
        % SLOTS
}

// What the slot of a code holds.
fn hint_of(hints: &Hints, code: &[u8]) -> usize
    requires { length code.now ≡ 4 }
    ensures { result ≡ get_or hints.now (slot_of code.now) 0 }
{
    usize::from(hints[slot(code)])
}

// Stores each entry's position in the slot of its code, where a later one may follow.
pub fn hint(table: &[u8], hints: &mut Hints)
    requires { length (territories_in table.now) ≤ most_territories }
    ensures { length hints.old ≡ hint_count → Hinted (codes_of (territories_in table.now)) hints.new }
{
    for k in 0..count(table) {
        hints[slot(code_at(table, k))] = k as u16;
    }
}

// What `position` says, whatever the hints hold. In a right table no code stands twice, so that an entry with this code is the first.
pub fn find(table: &[u8], hints: &Hints, code: &[u8]) -> usize
    requires { (right_territories table.now ≡ true) × (length code.now ≡ 4) }
    ensures { result ≡ place_of code.now (codes_of (territories_in table.now)) }
{
    let k = hint_of(hints, code);
    if k < count(table) && is_at(table, k, code) {
        return k;
    }
    position(table, code)
}

// ---- a right table

// Whether the k-th entry's code stands again after it. Where its slot holds k, no later entry has that slot.
fn again(table: &[u8], hints: &Hints, k: usize) -> bool
    requires { (6 * k + 6 ≤ length table.now) × Hinted (codes_of (territories_in table.now)) hints.now }
    ensures { result ≡ among (get_or (codes_of (territories_in table.now)) k [])
        (drop (k + 1) (codes_of (territories_in table.now))) }
{
    let code = code_at(table, k);
    hint_of(hints, code) != k && place_from(table, k + 1, code) < count(table)
}

fn any_twice(table: &[u8]) -> bool
    requires { length (territories_in table.now) ≤ most_territories }
    ensures { result ≡ any_twice (codes_of (territories_in table.now)) }
{
    let mut hints: Hints = [0; SLOTS];
    hint(table, &mut hints);
    for k in 0..count(table) {
        if again(table, &hints, k) {
            return true;
        }
    }
    false
}

fn groups_earlier(table: &[u8]) -> bool
    ensures { result ≡ groups_earlier 0 (territories_in table.now) }
{
    for k in 0..count(table) {
        let position = group(table, k);
        let earlier = (position == NO_GROUP) | (position < k);
        if !earlier {
            return false;
        }
    }
    true
}

// Whether a table is right, by refusal 13. Only of one that is short enough are the codes compared.
pub fn right(table: &[u8]) -> bool
    ensures { result ≡ right_territories table.now }
{
    let short = (table.len() % SIZE == 0) & (table.len() / SIZE <= MOST);
    short && (!any_twice(table) & groups_earlier(table))
}
