// 2 to 5 of each row: the tests of 01, of which 6 is the last in a row and refuses nothing here.

ghost use Rattle.std.specs.Prelude.{◌≡◌, cond, eqb};
ghost use Rattle.rows.specs.Numbers.{number_of};
ghost use Rattle.rows.specs.States.{Sized};
ghost use Rattle.table.specs.Verdicts.{verdict_of};
ghost use Rattle.mending.specs.Mended.{part_test};

use rows::Fault;
use script::RowNumber;
use table::Refusal;

// 2 to 5: the lowest row with such a fault. `tests::check_rows` would have to be told by a closure to pass 6, in as many lines.
pub fn check_parts(table: &[i32]) -> Result<(), Refusal>
    requires { Sized table.now }
    ensures { verdict_of result ≡ part_test table.now }
{
    let kinds = rows::kinds();
    let mut states = [0; 2048];
    for r in 0..script::row_count(table) {
        if let Some(fault) = part_fault(rows::row_fault(table, &kinds, r, &mut states)) {
            return Err(Refusal {
                fault,
                row: RowNumber(r),
            });
        }
    }
    Ok(())
}

// A row's first fault, unless it is 6.
fn part_fault(fault: Option<Fault>) -> Option<Fault>
    ensures { number_of result ≡ cond (eqb (number_of fault) 6) 0 (number_of fault) }
{
    fault.filter(|f| *f != Fault::LinkedTwice)
}
