// The delta of a delta: a signed number, and the row of the table that takes it.

ghost use Rattle.std.specs.Prelude.{◌≡◌, true, ◌≤◌};
ghost use Rattle.layout.specs.Rows.{Good, rows, fits, in_field, raw};
ghost use Rattle.layout.specs.Writing.{in_range, in_row, row_bits};
ghost use Rattle.encode.specs.Parts.{dod_for};

use layout::{ROWS, Row};

// delta - previous, or none where that is not in -(2^31 - 1) to 2^31. The difference is made in 128 bits, so that it is never cut.
pub(super) fn dod_between(delta: u64, previous: u64) -> Option<i64>
    ensures { result ≡ dod_for delta previous }
{
    let d = i128::from(delta) - i128::from(previous);
    if -2_147_483_647 <= d && d <= 2_147_483_648 {
        // `as`: there is no From of an i128, and what is in range fits
        return Some(d as i64);
    }
    None
}

// The n low bits of d.
pub(super) fn field_of(d: i64, n: u32) -> u64
    requires n_some { 1 ≤ n }
    requires n_bound { n ≤ 32 }
    requires d_value { in_field n d ≡ true }
    ensures { result ≡ raw n d }
{
    d.cast_unsigned() % (1u64 << n)
}

// The first row that takes d. The last takes every dod in range.
pub(super) fn row_of(d: i64) -> Row
    requires { in_range d ≡ true }
    ensures { (row_bits rows d ≡ in_row result d) × (fits result d ≡ true) × Good result }
{
    for row in ROWS {
        if row.takes(d) {
            return row;
        }
    }
    unreachable!()
}
