// Whether slices are as before: all one number from a place on, or the same as a copy made before.
ghost use Rattle.std.specs.Prelude.{◌≡◌, ◌==◌, drop};
ghost use Rattle.std.specs.List.{list_all};
ghost use Rattle.refusals.specs.Filled.{same_rows};

use runs::item::Row;

// Whether all cells from a place on are this number.
pub fn is_filled(cells: &[u32], from: usize, x: u32) -> bool
    ensures { result ≡ list_all (λ c. c == x) (drop from cells.now) }
{
    cells.iter().skip(from).all(|c| *c == x)
}

// Whether all cells of all rows from a place on are.
pub fn are_filled(rows: &[Row], from: usize, x: u32) -> bool
    ensures { result ≡ list_all (list_all (λ c. c == x)) (drop from rows.now) }
{
    rows.iter().skip(from).all(|row| is_filled(row, 0, x))
}

// Whether two lists of rows are the same, cell by cell.
pub fn same_rows<const N: usize>(a: &[[u32; N]], b: &[[u32; N]]) -> bool
    ensures { result ≡ same_rows a.now b.now }
{
    a == b
}
