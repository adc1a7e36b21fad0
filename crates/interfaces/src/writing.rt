ghost use Rattle.std.specs.Prelude.{◌≡◌, length};
ghost use Rattle.rsml_meaning.specs.Words.{Each};
ghost use Rattle.interfaces.specs.Writes.{IsWithin, put, put_all};

use crate::field::Field;
use rsml_syntax::List;

/// Writes the number of a field: the number that its cell had goes into its previous cell.
fn write(cells: &mut List<i64>, field: Field, number: i64)
    requires { IsWithin (length cells.old) field }
    ensures is { cells.new ≡ put field number cells.old }
    ensures count { length cells.new ≡ length cells.old }
{
    if let Some(previous) = field.previous {
        let old = cells.as_slice()[field.cell as usize];
        cells.set(previous as usize, old);
    }
    cells.set(field.cell as usize, number);
}

/// Writes the number of each field.
pub fn write_all(cells: &mut List<i64>, fields: &[Field], numbers: &[i64])
    requires within { Each (IsWithin (length cells.old)) fields.now }
    requires count { length numbers.now ≡ length fields.now }
    ensures { cells.new ≡ put_all fields.now numbers.now cells.old }
{
    for place in 0..fields.len() {
        write(cells, fields[place], numbers[place]);
    }
}
