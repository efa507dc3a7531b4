// The words of the answers.
ghost use Rattle.std.specs.Prelude.{◌≡◌};
ghost use Rattle.answers.specs.Words.{name_text};
ghost use Rattle.answers.specs.Answers.{evidence_text, stray_text};

use near_field::Evidence;
use readers::Name;

// A field's name.
pub fn of_name(name: Name) -> &'static [u8]
    ensures { result.now ≡ name_text name }
{
    match name {
        Name::A => b"A",
        Name::Address => b"ADDRESS",
        Name::After => b"AFTER",
        Name::Aircraft => b"AIRCRAFT",
        Name::Alt => b"ALT",
        Name::AtMs => b"AT_MS",
        Name::B => b"B",
        Name::Before => b"BEFORE",
        Name::Word => b"the call",
        Name::Cells => b"N",
        Name::Distance => b"DISTANCE",
        Name::Even => b"EVEN",
        Name::Feet => b"FEET",
        Name::First => b"FIRST",
        Name::Free => b"FREE",
        Name::Generation => b"GEN",
        Name::Key => b"KEY",
        Name::Last => b"LAST",
        Name::Lat => b"LAT",
        Name::Lat1 => b"LAT1",
        Name::Lat2 => b"LAT2",
        Name::Lon => b"LON",
        Name::Lon1 => b"LON1",
        Name::Lon2 => b"LON2",
        Name::Moved => b"MOVED",
        Name::NowMs => b"NOW_MS",
        Name::Number => b"I",
        Name::Odd => b"ODD",
        Name::Others => b"OTHERS",
        Name::Rows => b"C",
        Name::Site => b"SITE",
        Name::Value => b"WORD",
        Name::Verdict => b"VERDICT",
        Name::Wrongs => b"WRONGS",
        Name::K => b"K",
        Name::Next => b"NEXT",
        Name::Room => b"ROOM",
        Name::Now => b"NOW",
    }
}

pub fn of_evidence(by: Evidence) -> &'static [u8]
    ensures { result.now ≡ evidence_text by }
{
    match by {
        Evidence::Horizon => b" horizon",
        Evidence::NearField => b" nearfield",
        Evidence::NothingNear => b" nothingnear",
    }
}

pub fn of_stray(sep: u8) -> &'static [u8]
    ensures { result.now ≡ stray_text sep }
{
    if sep == b' ' {
        b"stray space"
    } else {
        b"stray comma"
    }
}
