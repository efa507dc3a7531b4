// The seven calls as C functions over lent memory: rows as 25 numbers each (crate `flat`), cells, three ends, a key as four numbers, and nine numbers
// for the answer (crate `replies`). Nothing is asked of any of them: what is no watch in order is refused, and a refusal changes nothing that was lent
// but the answer. C hands over the parts of a watch one by one and has no Option (a): a tag of 0 says that the value behind it is none. It knows each call by
// a name of its own, so the seven stand side by side.
ghost use Rattle.receiver.specs.Calls as calls;
ghost use Rattle.rows.specs.Read.{watch_is};
ghost use Rattle.flat.specs.Table.{rows_of};
ghost use Rattle.sites.specs.Sites.{given};
ghost use Rattle.replies.specs.Replies.{Told};
ghost use Rattle.packing.specs.Words.{key_of};

use heard::Position;
use replies::{key_by, tell};
use sites::Site;

#[unsafe(no_mangle)]
pub extern "C" fn siting_fresh(
    rows: &mut [u64],
    cells: &mut [u32],
    ends: &mut [u32; 3],
    answer: &mut [u64; 9],
)
    ensures { Told answer.new rows.old rows.new cells.new ends.new (calls.fresh_call (watch_is (rows_of rows.old) cells.old ends.old)) }
{
    tell(answer, lent::fresh(rows, cells, ends));
}

#[unsafe(no_mangle)]
pub extern "C" fn siting_claim(
    rows: &mut [u64],
    cells: &mut [u32],
    ends: &mut [u32; 3],
    answer: &mut [u64; 9],
    key: &[u64; 4],
    site: u8,
    lat: f64,
    lon: f64,
    alt: u8,
    alt_m: i32,
)
    ensures { Told answer.new rows.old rows.new cells.new ends.new (calls.call_on (watch_is (rows_of rows.old) cells.old ends.old) (key_of key.now) (calls.claim (given site (record { lat = lat; lon = lon; alt_m = given alt alt_m })))) }
{
    let at = Site {
        lat,
        lon,
        alt_m: (alt != 0).then_some(alt_m),
    };
    let claimed = (site != 0).then_some(at);
    tell(answer, lent::claim(rows, cells, ends, key_by(key), claimed));
}

#[unsafe(no_mangle)]
pub extern "C" fn siting_position(
    rows: &mut [u64],
    cells: &mut [u32],
    ends: &mut [u32; 3],
    answer: &mut [u64; 9],
    key: &[u64; 4],
    lat: f64,
    lon: f64,
    has_feet: u8,
    feet: i32,
    address: u32,
    at_ms: u64,
)
    ensures { Told answer.new rows.old rows.new cells.new ends.new (calls.call_on (watch_is (rows_of rows.old) cells.old ends.old) (key_of key.now) (calls.position (record { lat = lat; lon = lon; feet = given has_feet feet; address = address; at_ms = at_ms }))) }
{
    let p = Position {
        lat,
        lon,
        feet: (has_feet != 0).then_some(feet),
        address,
        at_ms,
    };
    tell(answer, lent::position(rows, cells, ends, key_by(key), p));
}

#[unsafe(no_mangle)]
pub extern "C" fn siting_judging(
    rows: &mut [u64],
    cells: &mut [u32],
    ends: &mut [u32; 3],
    answer: &mut [u64; 9],
    key: &[u64; 4],
    now_ms: u64,
    aircraft: u64,
)
    ensures { Told answer.new rows.old rows.new cells.new ends.new (calls.call_on (watch_is (rows_of rows.old) cells.old ends.old) (key_of key.now) (calls.judging now_ms aircraft)) }
{
    tell(
        answer,
        lent::judging(rows, cells, ends, key_by(key), now_ms, aircraft),
    );
}

#[unsafe(no_mangle)]
pub extern "C" fn siting_check(
    rows: &mut [u64],
    cells: &mut [u32],
    ends: &mut [u32; 3],
    answer: &mut [u64; 9],
    key: &[u64; 4],
)
    ensures { Told answer.new rows.old rows.new cells.new ends.new (calls.call_on (watch_is (rows_of rows.old) cells.old ends.old) (key_of key.now) calls.check) }
{
    tell(answer, lent::check(rows, cells, ends, key_by(key)));
}

#[unsafe(no_mangle)]
pub extern "C" fn siting_take_out(
    rows: &mut [u64],
    cells: &mut [u32],
    ends: &mut [u32; 3],
    answer: &mut [u64; 9],
    key: &[u64; 4],
)
    ensures { Told answer.new rows.old rows.new cells.new ends.new (calls.call_on (watch_is (rows_of rows.old) cells.old ends.old) (key_of key.now) calls.take_out) }
{
    tell(answer, lent::take_out(rows, cells, ends, key_by(key)));
}

#[unsafe(no_mangle)]
pub extern "C" fn siting_drop_oldest(
    rows: &mut [u64],
    cells: &mut [u32],
    ends: &mut [u32; 3],
    answer: &mut [u64; 9],
)
    ensures { Told answer.new rows.old rows.new cells.new ends.new (calls.drop_oldest (watch_is (rows_of rows.old) cells.old ends.old)) }
{
    tell(answer, lent::drop_oldest(rows, cells, ends));
}
