// The sum of the deltas of one currency, and how many deltas are open.
ghost use Rattle.std.specs.Prelude.{◌≡◌, ◌≤◌, if◌then◌else◌, get_or, pos, count_by};
ghost use Rattle.totals.specs.Totals.{deltas_in, is_open, open_deltas};

use book::{Book, Currency};

// The delta of one account.
fn due(row: &[i64; 8], c: Currency) -> i64
    ensures { result ≡ get_or row.now c.number (pos 0) }
{
    row[c.number as usize]
}

// Summed in i128, so that the cells need no bound; in a loop, since of signed numbers the library's `sum` asks a bound that a chain does
// not show.
pub fn deltas_in(book: &Book, c: Currency) -> i128
    ensures { result ≡ deltas_in book.now c.number }
{
    let mut sum = 0;
    for row in &book.deltas {
        sum += due(row, c) as i128;
    }
    sum
}

// 1 where the delta is open.
fn open(delta: &i64) -> u32
    ensures { result ≡ (if is_open delta.now then 1 else 0) }
{
    u32::from(*delta != 0)
}

// How many deltas of one account are open.
fn open_in(row: &[i64; 8]) -> u32
    ensures is { result ≡ count_by is_open row.now }
    ensures fits { result ≤ 8 }
{
    row.iter().map(open).sum()
}

pub fn open_deltas(book: &Book) -> u32
    ensures { result ≡ open_deltas book.now }
{
    book.deltas.iter().map(open_in).sum()
}
