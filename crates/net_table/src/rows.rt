// The rows of a table, rebuilt: zeros, and over them the rows in use.
ghost use Rattle.std.specs.Prelude.{◌≡◌, ◌≤◌, ◌<◌, length, replicate};
ghost use Rattle.net_table.specs.Table.{zero_row, padded};
ghost use Rattle.net_table.specs.Tutor.{with_row, without_row, with_id};

use route::{Net, Row};

// No table has more rows.
pub const MOST: usize = 32;

// Places without rows.
pub fn none() -> [Row; 32]
    ensures { result ≡ replicate 32 zero_row }
{
    let row = Row {
        net: Net::ZERO,
        host: 0,
    };
    [row; 32]
}

// The rows, then zeros.
fn padded(rows: &[Row]) -> [Row; 32]
    requires { length rows.now ≤ 32 }
    ensures { result ≡ padded rows.now }
{
    let mut all = none();
    all[..rows.len()].copy_from_slice(rows);
    all
}

// The rows and one more.
pub fn with_row(rows: &[Row], row: Row) -> [Row; 32]
    requires { length rows.now < 32 }
    ensures { result ≡ padded (with_row row rows.now) }
{
    let mut all = padded(rows);
    all[rows.len()] = row;
    all
}

// The rows except row k.
pub fn without_row(rows: &[Row], k: usize) -> [Row; 32]
    requires rows_bound { length rows.now ≤ 32 }
    requires le_k { 1 ≤ k }
    requires k_bound { k ≤ length rows.now }
    ensures { result ≡ padded (without_row k rows.now) }
{
    let mut all = padded(&rows[..k - 1]);
    all[k - 1..rows.len() - 1].copy_from_slice(&rows[k..]);
    all
}

// The rows, row k with another id.
pub fn with_id(rows: &[Row], k: usize, id: u8) -> [Row; 32]
    requires rows_bound { length rows.now ≤ 32 }
    requires le_k { 1 ≤ k }
    requires k_bound { k ≤ length rows.now }
    ensures { result ≡ padded (with_id k id rows.now) }
{
    let mut all = padded(rows);
    all[k - 1].host = id;
    all
}
