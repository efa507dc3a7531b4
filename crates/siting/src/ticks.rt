// The turn keeper (02, Item 1) as a C function over the memory of the seven calls, which it only reads, and a list of keys of 32 bytes each:
// all one by one, as C has it (a).
ghost use Rattle.std.specs.Prelude.{◌≡◌};
ghost use Rattle.rows.specs.Read.{form, watch_is};
ghost use Rattle.flat.specs.Table.{rows_of};
ghost use Rattle.turns.specs.Turn.{turn_on};
ghost use Rattle.siting.specs.Ticks.{turn_words, Ticked};

use table::Refusal;
use turns::Turned;

// 6 and 0 are siting.h's codes (a).
fn put_turn(answer: &mut [u64; 9], t: Result<Turned, Refusal>)
    ensures { answer.new ≡ turn_words t }
{
    match t {
        Ok(turned) => replies::put(answer, 6, turned.count as u64, turned.next as u64, 0),
        Err(r) => replies::put(answer, 0, r.number() as u64, 0, 0),
    }
}

#[unsafe(no_mangle)]
pub extern "C" fn siting_turn(
    rows: &[u64],
    cells: &[u32],
    ends: &[u32; 3],
    answer: &mut [u64; 9],
    next: u32,
    k: u32,
    list: &mut [u8],
)
    ensures { Ticked answer.new list.new (turn_on form (watch_is (rows_of rows.now) cells.now ends.now) next k list.old) }
{
    put_turn(answer, turns::turn(rows, cells, ends, next, k, list));
}
