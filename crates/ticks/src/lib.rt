// The turn keeper over rows lent as records (01, "the rows are lent as a slice of records": thin entry functions): the tick of crate `turns`, once more by its name,
// so that what it promises of records stands here with no type to fill in. It has the parameters of that tick (a).
#![tactic(auto)]

ghost use Rattle.std.specs.Prelude.{◌≡◌};
ghost use Rattle.rows.specs.Read.{form, watch_is};
ghost use Rattle.turns.specs.Turn.{turn_on};

use rows::Row;
use table::Refusal;
use turns::Turned;

// A tick: the next k rows from number `next` on, and the keys of the used ones in the list, 32 bytes each.
pub fn turn(
    rows: &[Row],
    cells: &[u32],
    ends: &[u32; 3],
    next: u32,
    k: u32,
    list: &mut [u8],
) -> Result<Turned, Refusal>
    ensures { record { answer = result; list = list.new } ≡ turn_on form (watch_is rows.now cells.now ends.now) next k list.old }
{
    turns::turn(rows, cells, ends, next, k, list)
}
