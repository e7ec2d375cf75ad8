// The lent tables: whether one is right, and whether a code is in it. A file may ask for some hundred thousand codes, so the tables are
// indexed once, and then the index alone is asked. It is in slots that the caller lends.
#![tactic(auto)]

ghost use Rattle.std.specs.Prelude.{◌≡◌, true, List, ℕ, ◌+◌, ◌*◌, ◌<◌, ◌≤◌, length, take, drop, replicate};
ghost use Rattle.format.specs.Bytes.{Bytes, among};
ghost use Rattle.rules.specs.Tables.{Tables as LentTables, language_size, society_size, category_size, most_entries, right_table, entries, is_in};
ghost use Rattle.tables.specs.Index.{hint_count, part_size, slot_count, key_of, hint_of, AreBytes, Free, Ascending, Stands, Kept, Inserted};
ghost use Rattle.tables.specs.Index.{Part, Indexed};
ghost use Rattle.tables.specs.Lent.{lent_in};
ghost use Rattle.tables.specs.Which.{size_of, table_of, first_of};

// The tables that a caller lends for a run.
#[derive(Clone, Copy)]
pub struct Tables<'a> {
    pub languages: &'a [u8],
    pub societies: &'a [u8],
    pub categories: &'a [u8],
}

// Which of them.
#[derive(Clone, Copy)]
pub enum Table {
    Languages,
    Societies,
    Categories,
}

// How many bytes an entry of each table has.
pub const LANGUAGE: usize = 2;

pub const SOCIETY: usize = 3;

pub const CATEGORY: usize = 3;

// The most entries that a table may have.
const ENTRIES: usize = 1024;

// Each table has a part of the slots. First its hints: the key of an entry is put into the hint that is its own, where another's may follow.
const HINTS: usize = 4093;

// Then a slot for each entry: all keys in order, after the empty ones.
const PART: usize = HINTS + ENTRIES;

// Where the parts of the second and the third table begin.
const SOCIETIES: usize = PART;

const CATEGORIES: usize = PART + PART;

pub const SLOTS: usize = PART + PART + PART;

pub type Slots = [u32; SLOTS];

// Whether a table of entries of this size is right, by refusal 2.
pub fn right(table: &[u8], size: usize) -> bool
    requires { 0 < size }
    ensures { result ≡ right_table size table.now }
{
    (table.len() % size == 0) & (table.len() / size <= ENTRIES)
}

// The entry with this number, from 0: lent, not copied.
fn entry(table: &[u8], size: usize, k: usize) -> &[u8]
    requires { size * k + size ≤ length table.now }
    ensures result_value { result.now ≡ take size (drop (size * k) table.now) }
    ensures result_len { length result.now ≡ size }
{
    let start = size * k;
    &table[start..start + size]
}

// ---- codes

// The number that stands for a code; of two bytes the second is also the last.
fn key(code: &[u8]) -> u32
    requires { 2 ≤ length code.now }
    ensures value { result ≡ key_of code.now }
    ensures are_bytes { AreBytes code.now }
{
    let last = code.len() - 1;
    (u32::from(code[0]) * 256 + u32::from(code[1])) * 256 + u32::from(code[last]) + 1
}

// Which hint is a key's. No two codes of three digits, or of two letters, have the same: a prime sees to that.
fn hint(key: u32) -> usize
    ensures value { result ≡ hint_of key }
    ensures upper_bound { result < hint_count }
{
    (key % HINTS as u32) as usize
}

// ---- the index is made

// Puts a key into its order among the slots from one on: that one is free, and the keys after it ascend. One step where none is lower.
fn insert(slots: &mut Slots, key: u32, from: usize, end: usize)
    requires { (from < end) × (end ≤ slot_count) × (length slots.old ≡ slot_count) }
    ensures { Inserted key from end slots.old slots.new }
{
    for i in from..end - 1 {
        let next = slots[i + 1];
        if key <= next {
            slots[i] = key;
            return;
        }
        slots[i] = next;
    }
    slots[end - 1] = key;
}

// Makes the index of a right table in the part that begins at that slot; from there on the slots are empty. The last entry comes first, so
// that each key of a table in order goes before those that are there.
fn index_table(slots: &mut Slots, first: usize, table: &[u8], size: usize)
    requires part_size_bound { (first + part_size ≤ slot_count) × Free first slots.old }
    requires le_size { (2 ≤ size) × (size ≤ 3) × (right_table size table.now ≡ true) }
    ensures part { Part size (entries size table.now) first slots.new }
    ensures kept { Kept first (first + part_size) slots.old slots.new }
    ensures free { Free (first + part_size) slots.new }
{
    let end = first + PART;
    let count = table.len() / size;
    let free = end - count;
    for k in (0..count).rev() {
        let new = key(entry(table, size, k));
        slots[first + hint(new)] = new;
        insert(slots, new, free + k, end);
    }
}

impl Tables<'_> {
    // Makes the index of right tables in slots that are all empty.
    pub fn index(self, slots: &mut Slots)
        requires { (right_table language_size self.languages.now ≡ true) × (right_table society_size self.societies.now ≡ true)
            × (right_table category_size self.categories.now ≡ true) × (slots.old ≡ replicate slot_count 0) }
        ensures { Indexed (lent_in self.entry) slots.new }
    {
        index_table(slots, 0, self.languages, LANGUAGE);
        index_table(slots, SOCIETIES, self.societies, SOCIETY);
        index_table(slots, CATEGORIES, self.categories, CATEGORY);
    }
}

// ---- the index is asked

// Whether a key is among the sorted ones from that slot on.
fn listed(slots: &Slots, first: usize, key: u32) -> bool
    requires { first + most_entries ≤ slot_count }
    ensures stands { result ≡ true → Stands key first (first + most_entries) slots.now }
    ensures value { Ascending first (first + most_entries) slots.now → Stands key first (first + most_entries) slots.now
        → result ≡ true }
{
    let sorted = &slots[first..first + ENTRIES];
    sorted.binary_search(&key).is_ok()
}

impl Table {
    // Where its part of the slots begins.
    fn first(self) -> usize
        ensures value { result ≡ first_of self }
        ensures in_slots { result + part_size ≤ slot_count }
    {
        match self {
            Table::Languages => 0,
            Table::Societies => SOCIETIES,
            Table::Categories => CATEGORIES,
        }
    }
}

// Whether a code is in a table. Nearly always its hint says so: it is empty, or the code's own key; only where another code has the same hint
// the sorted keys are searched.
pub fn has(slots: &Slots, table: Table, code: &[u8]) -> bool
    requires { length code.now ≡ size_of table }
    ensures { (lent : LentTables) → Indexed lent slots.now → result ≡ is_in (size_of table) (table_of table lent) code.now }
{
    let first = table.first();
    let wanted = key(code);
    let hinted = slots[first + hint(wanted)];
    if hinted == 0 {
        return false;
    }
    if hinted == wanted {
        return true;
    }
    listed(slots, first + HINTS, wanted)
}
