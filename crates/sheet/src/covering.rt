// Rows that an earlier row of their table covers.
use super::storing::row_at;
use covered::covers;

// Which row of a table covers row n of it and stands before it.
pub fn coverer(rows: &[u32], n: usize) -> Option<usize> {
    let later = row_at(rows, n);
    (0..n).position(|i| {
        let row = row_at(rows, i);
        covers(row.key, row.mask, later.key, later.mask)
    })
}
