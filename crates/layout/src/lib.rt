// What both ends share: the rows in which a time's delta of delta is written, a window, and what is kept between two points.

#![tactic(auto)]

ghost use Rattle.std.specs.Prelude.{◌≡◌};
ghost use Rattle.layout.specs.Rows as format;
ghost use Rattle.layout.specs.Windows.{no_digit, bad_window};

// A row: its control bits, the bits of its field, and the dods that it takes.
#[derive(Clone, Copy, PartialEq, Eq)]
pub struct Row {
    pub prefix: u64,
    pub prefix_len: u32,
    pub width: u32,
    pub lowest: i64,
    pub highest: i64,
}

pub const ROWS: [Row; 4] = [
    Row {
        prefix: 0b10,
        prefix_len: 2,
        width: 7,
        lowest: -63,
        highest: 64,
    },
    Row {
        prefix: 0b110,
        prefix_len: 3,
        width: 9,
        lowest: -255,
        highest: 256,
    },
    Row {
        prefix: 0b1110,
        prefix_len: 4,
        width: 12,
        lowest: -2047,
        highest: 2048,
    },
    Row {
        prefix: 0b1111,
        prefix_len: 4,
        width: 32,
        lowest: -2147483647,
        highest: 2147483648,
    },
];

// Row i of the table, counted from 0; past its end the last one.
pub fn row_at(i: usize) -> Row
    ensures { result ≡ format.row_at i }
{
    if i < 4 {
        return ROWS[i];
    }
    ROWS[3]
}

impl Row {
    // Whether it takes a dod.
    pub fn takes(self, d: i64) -> bool
        ensures { result ≡ format.fits self d }
    {
        self.lowest <= d && d <= self.highest
    }
}

// How many zeros stand above the digits of a value's xor, and how many below.
#[derive(Clone, Copy, PartialEq, Eq)]
pub struct Window {
    pub lead: u32,
    pub trail: u32,
}

impl Window {
    // Whether its zeros leave none of 64 digits.
    pub fn has_no_digit(self) -> bool
        ensures { result ≡ no_digit 6 self }
    {
        63 < u64::from(self.lead) + u64::from(self.trail)
    }

    // Whether no encoder has it: a window without a digit, but for the 64 and 64 with which it begins.
    pub fn is_bad(self) -> bool
        ensures { result ≡ bad_window 6 self }
    {
        if self.lead == 64 {
            return self.trail != 64;
        }
        self.has_no_digit()
    }
}

// What both ends keep of a point: its time, the delta that led to it, its value's bits, and the window after it.
#[derive(Clone, Copy, PartialEq, Eq)]
pub struct State {
    pub time: u64,
    pub delta: u64,
    pub value: u64,
    pub window: Window,
}

// Nothing kept: what a decoder has before the first point, and an encoder whose opening was refused.
pub const NOTHING: State = State {
    time: 0,
    delta: 0,
    value: 0,
    window: Window { lead: 0, trail: 0 },
};
