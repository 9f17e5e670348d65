ghost use Rattle.std.specs.Prelude.{◌≡◌, ◌≤◌, length, take};

// A row in the first of 16 cells.
pub(super) fn cells_of<T: Copy>(row: &[T], blank: T) -> [T; 16]
    requires { length row.now ≤ 16 }
    ensures { take (length row.now) result ≡ row.now }
{
    let mut cells = [blank; 16];
    cells[..row.len()].copy_from_slice(row);
    cells
}
