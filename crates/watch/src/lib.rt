// The siting watch over rows lent as records (01, "the rows are lent as a slice of records": thin entry functions): each of the seven calls of crate `lent`, once more
// by its name, so that what it promises of records stands here with no type to fill in. It has the parameters of that call (a).
#![tactic(auto)]

ghost use Rattle.std.specs.Prelude.{◌≡◌};
ghost use Rattle.receiver.specs.Calls as calls;
ghost use Rattle.rows.specs.Read.{watch_is};
ghost use Rattle.moves.specs.Answers.{outcome};

use heard::Position;
use moves::Answer;
use rows::Row;
use scans::Key;
use sites::Site;

// Every row free and as fresh, whatever was there.
pub fn fresh(rows: &mut [Row], cells: &mut [u32], ends: &mut [u32; 3]) -> Answer
    ensures { outcome result rows.new cells.new ends.new ≡ calls.fresh_call (watch_is rows.old cells.old ends.old) }
{
    lent::fresh(rows, cells, ends)
}

// The key's site is claimed, or none.
pub fn claim(
    rows: &mut [Row],
    cells: &mut [u32],
    ends: &mut [u32; 3],
    key: Key,
    site: Option<Site>,
) -> Answer
    ensures { outcome result rows.new cells.new ends.new ≡ calls.call_on (watch_is rows.old cells.old ends.old) key.bytes (calls.claim site) }
{
    lent::claim(rows, cells, ends, key, site)
}

// The key's receiver has heard an aircraft.
pub fn position(
    rows: &mut [Row],
    cells: &mut [u32],
    ends: &mut [u32; 3],
    key: Key,
    p: Position,
) -> Answer
    ensures { outcome result rows.new cells.new ends.new ≡ calls.call_on (watch_is rows.old cells.old ends.old) key.bytes (calls.position p) }
{
    lent::position(rows, cells, ends, key, p)
}

// The key's claim is judged by what was heard. This marks nothing.
pub fn judging(
    rows: &mut [Row],
    cells: &mut [u32],
    ends: &mut [u32; 3],
    key: Key,
    now_ms: u64,
    aircraft: u64,
) -> Answer
    ensures { outcome result rows.new cells.new ends.new ≡ calls.call_on (watch_is rows.old cells.old ends.old) key.bytes (calls.judging now_ms aircraft) }
{
    lent::judging(rows, cells, ends, key, now_ms, aircraft)
}

// What is held of the key's site. This marks nothing.
pub fn check(rows: &mut [Row], cells: &mut [u32], ends: &mut [u32; 3], key: Key) -> Answer
    ensures { outcome result rows.new cells.new ends.new ≡ calls.call_on (watch_is rows.old cells.old ends.old) key.bytes calls.check }
{
    lent::check(rows, cells, ends, key)
}

// The key's row is freed.
pub fn take_out(rows: &mut [Row], cells: &mut [u32], ends: &mut [u32; 3], key: Key) -> Answer
    ensures { outcome result rows.new cells.new ends.new ≡ calls.call_on (watch_is rows.old cells.old ends.old) key.bytes calls.take_out }
{
    lent::take_out(rows, cells, ends, key)
}

// The least recently used row is freed.
pub fn drop_oldest(rows: &mut [Row], cells: &mut [u32], ends: &mut [u32; 3]) -> Answer
    ensures { outcome result rows.new cells.new ends.new ≡ calls.drop_oldest (watch_is rows.old cells.old ends.old) }
{
    lent::drop_oldest(rows, cells, ends)
}
