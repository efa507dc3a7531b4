// The functions of `probes` as an archive for C: a crate that others stand on is no archive, so each is called from here under the name that C knows, and its
// clause stated again.
#![tactic(auto)]

ghost use Rattle.std.specs.Prelude.{◌≡◌};
ghost use Rattle.sites.specs.Sites.{given};
ghost use Rattle.probes.specs.Columns.{column_answer};
ghost use Rattle.probes.specs.Judged.{without_degrees, judged_number};
ghost use Rattle.probes.specs.Probes.{same_answer};

// 1 where the two are one place, 0 where not, 4 for a "no" to question 4.
#[unsafe(no_mangle)]
pub extern "C" fn probe_same_place(lat1: f64, lon1: f64, lat2: f64, lon2: f64) -> u8
    ensures { result ≡ same_answer lat1 lon1 lat2 lon2 }
{
    probes::probe_same_place(lat1, lon1, lat2, lon2)
}

// The column of so many mm east, or the row of so many mm north; 65,535 where they are past the grid.
#[unsafe(no_mangle)]
pub extern "C" fn probe_column(mm: i64) -> u32
    ensures { result ≡ column_answer mm }
{
    probes::column::probe_column(mm)
}

// The judging of a row's 3,344 cells, a tag of 0 standing for none, since C has no Option (a); 2 where there are not as many cells.
#[unsafe(no_mangle)]
pub extern "C" fn probe_judge(
    cells: &[u32],
    even_tag: u8,
    even_id: u64,
    odd_tag: u8,
    odd_id: u64,
    site_tag: u8,
    alt_tag: u8,
    alt: i32,
    now_ms: u64,
    aircraft: u64,
) -> u32
    ensures { result ≡ judged_number cells.now (given site_tag (without_degrees (given alt_tag alt))) (given even_tag even_id) (given odd_tag odd_id) now_ms aircraft }
{
    probes::row::probe_judge(
        cells, even_tag, even_id, odd_tag, odd_id, site_tag, alt_tag, alt, now_ms, aircraft,
    )
}
