// The seven calls on the watch that is lent: the first 25 × C words of the rows, the first N cells, and the ends.
ghost use Rattle.std.specs.Prelude.{◌≡◌, length};
ghost use Rattle.rows.specs.Read.{watch_is};
ghost use Rattle.flat.specs.Table.{rows_of};
ghost use Rattle.lending.specs.Same.{SameLent};
ghost use Rattle.moves.specs.Answers.{outcome};
ghost use Rattle.session.specs.Watches.{call_by, Called};

use grammar::Call;
use lending::Watch;
use moves::Answer;
use scans::Key;

// One of the seven calls, on the words and cells of a watch: parts of what is lent, and so no Watch (d). Each takes what its case holds, so that no table of
// them has one type (d).
fn by(rows: &mut [u64], cells: &mut [u32], ends: &mut [u32; 3], call: Call, key: Key) -> Answer
    ensures { outcome result (rows_of rows.new) cells.new ends.new ≡ call_by call key.bytes (watch_is (rows_of rows.old) cells.old ends.old) }
{
    match call {
        Call::Fresh => lent::fresh(rows, cells, ends),
        Call::Drop => lent::drop_oldest(rows, cells, ends),
        Call::Check => lent::check(rows, cells, ends, key),
        Call::TakeOut => lent::take_out(rows, cells, ends, key),
        Call::Claim(site) => lent::claim(rows, cells, ends, key, site),
        Call::Position(p) => lent::position(rows, cells, ends, key, p),
        Call::Judging { now_ms, aircraft } => {
            lent::judging(rows, cells, ends, key, now_ms, aircraft)
        }
    }
}

// The same on the watch; what is lent behind it stays.
pub fn call_in(w: &mut Watch<'_>, asked: Call, key: Key) -> Answer
    ensures called { Called w.old.size asked key.bytes w.old.rows.now w.old.cells.now w.old.ends.now w.new.rows.now w.new.cells.now w.new.ends.now result }
    ensures long { (length w.new.rows.now ≡ length w.old.rows.now) × (length w.new.cells.now ≡ length w.old.cells.now) }
    ensures size { w.new.size ≡ w.old.size }
    ensures same { SameLent w.old w.new }
{
    let a = 25 * (w.size.rows as usize);
    let m = w.size.cells as usize;
    by(&mut w.rows[..a], &mut w.cells[..m], w.ends, asked, key)
}
