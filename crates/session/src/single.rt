// What the lines that need no watch are answered.
ghost use Rattle.std.specs.Prelude.{◌≡◌};
ghost use Rattle.session.specs.Replies.{site_of, same_of, bit_of, reply_of};

use answers::Reply;
use grammar::Line;
use sites::Site;
use table::Refusal;

fn site(lat: f64, lon: f64) -> Site
    ensures { result ≡ site_of lat lon }
{
    Site {
        lat,
        lon,
        alt_m: None,
    }
}

#[tactic(auto, unfolding(crate::specs::Replies::same_of))]
fn same(a: Site, b: Site) -> Reply
    ensures { result ≡ same_of a b }
{
    if sites::in_degrees(a) && sites::in_degrees(b) {
        Reply::Same(sites::same_place(a, b))
    } else {
        Reply::Answered(Err(Refusal::Degrees))
    }
}

// The number of an aircraft's bit.
#[tactic(auto, unfolding(crate::specs::Replies::bit_of))]
fn bit(address: u32) -> u32
    ensures { result ≡ bit_of address }
{
    u16::trailing_zeros(cells::aircraft_bit(address))
}

// Lines of the watch get no answer here.
pub fn answer(line: Line) -> Option<Reply>
    ensures { result ≡ reply_of line }
{
    match line {
        Line::Place {
            lat1,
            lon1,
            lat2,
            lon2,
        } => Some(Reply::Place(sites::place(lat1, lon1, lat2, lon2))),
        Line::Same {
            lat1,
            lon1,
            lat2,
            lon2,
        } => Some(same(site(lat1, lon1), site(lat2, lon2))),
        Line::Horizon { a, b } => Some(Reply::Horizon(floats::horizon::horizon_km(a, b))),
        Line::Bucket(feet) => Some(Reply::Bucket(cells::bucket(feet))),
        Line::Bit { address } => Some(Reply::Bit(bit(address))),
        // Named, so that a new line is asked for here (d).
        Line::Watch { .. } | Line::Call(_) | Line::Turn { .. } | Line::Digest | Line::Change(_) => {
            None
        }
    }
}
