// The column of one east, for the test that divides.
ghost use Rattle.std.specs.Prelude.{◌≡◌};
ghost use Rattle.probes.specs.Columns.{column_answer};

use angles::plane;
use trig::num::Num;

// The column of so many mm east, or the row of so many mm north; 65,535, C's word for none (a), where they are past the grid.
#[tactic(auto, unfolding(crate::specs::Columns::column_answer, angles::specs::Plane::near))]
pub fn probe_column(mm: i64) -> u32
    ensures { result ≡ column_answer mm }
{
    if mm.unsigned_abs() < 100000000 {
        plane::column_of(Num::from(mm)) as u32
    } else {
        65535
    }
}
