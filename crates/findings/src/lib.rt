// Findings as sets, which are numbers with bit n for finding n, and as verdicts: a row of findings that hold or not packed into a set, the
// largest verdict among them, and of a set how many are in it, the lowest, and its eight bytes.
#![tactic(auto)]

ghost use Rattle.std.specs.Prelude.{◌≡◌, ◌+◌, ◌≤◌, false, ◌++◌, length, replicate};
ghost use Rattle.rules.specs.Findings.{set_of, places, count_of, lowest_of, worst};
ghost use Rattle.findings.specs.Many.{many};

// The set of the findings from number `first` on, each of which holds or not.
pub fn pack(first: usize, holds: &[bool]) -> u64
    requires { first + length holds.now ≤ many }
    ensures { result ≡ set_of (replicate first false ++ holds.now) }
{
    let mut set = 0;
    for held in holds.iter().rev() {
        set = 2 * set + u64::from(*held);
    }
    set << first
}

// The verdicts: field defaulted, record rejected, transaction rejected, group rejected. Numbers and no enum: they are the bytes that a check
// writes into the buffer of a C caller, where the larger of two is found many at a time.
pub const FR: u8 = 1;

pub const RR: u8 = 2;

pub const TR: u8 = 3;

pub const GR: u8 = 4;

// The verdict that each finding brings.
const VERDICTS: [u8; 47] = [
    // 0 to 15, which hang on a whole transaction
    GR, TR, TR, TR, TR, TR, TR, TR, TR, TR, TR, TR, TR, TR, TR, TR,
    // 16 to 23, of headers
    TR, TR, TR, FR, FR, TR, TR, FR,
    // 24
    RR,
    // 25 to 37, of publishers
    TR, TR, TR, TR, TR, TR, TR, TR, FR, FR, FR, FR, FR,
    // 38 to 42, of writers
    TR, TR, FR, TR, TR,
    // 43
    RR,
    // 44 to 46, of recordings
    RR, FR, FR,
];

// The largest verdict of the findings from number `first` on, each of which holds or not.
pub fn worst(first: usize, holds: &[bool]) -> u8
    requires { first + length holds.now ≤ many }
    ensures { result ≡ worst (replicate first false ++ holds.now) }
{
    let verdicts = VERDICTS;
    let mut most: u8 = 0;
    for (i, held) in holds.iter().enumerate() {
        most = most.max(choice::pick(*held, verdicts[first + i], 0));
    }
    most
}

// How many findings are in a set.
pub fn count(set: u64) -> u32
    ensures { result ≡ count_of (places 64 set) }
{
    u64::count_ones(set)
}

// The lowest finding in a set; 64 where there is none.
pub fn lowest(set: u64) -> u32
    ensures { result ≡ lowest_of (places 64 set) }
{
    u64::trailing_zeros(set)
}
