// The judging on numbers and a slice, for the comparison runs.
ghost use Rattle.std.specs.Prelude.{◌≡◌, ◌≤◌};
ghost use Rattle.sites.specs.Sites.{given};
ghost use Rattle.probes.specs.Judged.{judgment_number, without_degrees, judged_number};

use near_field::Judgment;
use sites::Site;

// Every distance that a judging says is at most 800, so that the number fits. It is what C is given, so a match names it (a).
fn judgment_number(j: Judgment) -> u32
    requires { judgment_number j ≤ 3203 }
    ensures { result ≡ judgment_number j }
{
    match j {
        Judgment::Unjudged => 0,
        Judgment::Fits => 1,
        Judgment::Wrong { off_km, by } => 4 * off_km + by as u32,
    }
}

// The number of a judging of a row's 3,344 cells; 2 where there are not as many cells, C's word for it (a). Site and ids come by
// themselves: `heard::Heard` has a generation too, which stored judgings have not (d).
#[tactic(auto, unfolding(crate::specs::Judged::judged_number))]
pub fn judged(
    cells: &[u32],
    site: Option<Site>,
    even: Option<u64>,
    odd: Option<u64>,
    now_ms: u64,
    aircraft: u64,
) -> u32
    ensures { result ≡ judged_number cells.now site even odd now_ms aircraft }
{
    if cells.len() != 3344 {
        return 2;
    }
    judgment_number(judge::judge(site, even, odd, cells, now_ms, aircraft))
}

// A site of a judging, which looks at no degrees: they are 0.
pub fn without_degrees(alt_m: Option<i32>) -> Site
    ensures { result ≡ without_degrees alt_m }
{
    Site {
        lat: 0.0,
        lon: 0.0,
        alt_m,
    }
}

// The same of what C hands over, which has no Option: a tag of 0 says that the value behind it is none (a).
pub fn probe_judge(
    cells: &[u32],
    even_tag: u8,
    even_id: u64,
    odd_tag: u8,
    odd_id: u64,
    site_tag: u8,
    alt_tag: u8,
    alt: i32,
    now_ms: u64,
    aircraft: u64,
) -> u32
    ensures { result ≡ judged_number cells.now (given site_tag (without_degrees (given alt_tag alt))) (given even_tag even_id) (given odd_tag odd_id) now_ms aircraft }
{
    let alt_m = (alt_tag != 0).then_some(alt);
    let site = (site_tag != 0).then_some(without_degrees(alt_m));
    let even = (even_tag != 0).then_some(even_id);
    let odd = (odd_tag != 0).then_some(odd_id);
    judged(cells, site, even, odd, now_ms, aircraft)
}
