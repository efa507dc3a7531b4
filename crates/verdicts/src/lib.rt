// A receiver's run of judgings: its site is held wrong once three in a row found it wrong, and let go once three in a row did not.
#![tactic(auto)]

ghost use Rattle.std.specs.Prelude.{◌≡◌};
ghost use Rattle.verdicts.specs.Verdict as verdict;

use near_field::Judgment;

// What a row keeps of its last judging. Unlike `Judgment` and `CheckState` it has no distance, which a row keeps in `wrong_by`, so the three are not one (d).
#[derive(Clone, Copy)]
pub enum Last {
    Unjudged,
    Fits,
    Wrong,
}

// One receiver's run of judgings. `moved`: a move has ended the run.
#[derive(Clone, Copy)]
pub struct Verdict {
    pub last: Last,
    pub wrong_run: u8,
    pub other_run: u8,
    pub wrong_by: Option<u32>,
    pub moved: bool,
}

// A site's state as said: with the distance, when it is held wrong. Three cases, of which one has a value (d).
#[derive(Clone, Copy)]
pub enum CheckState {
    Unjudged,
    Fits,
    Wrong(u32),
}

// A Wrong by so far.
#[tactic(auto, unfolding(crate::specs::Verdict::wrongly))]
fn wrongly(v: Verdict, off_km: u32) -> Verdict
    ensures { result ≡ verdict.wrongly v off_km }
{
    let wrong_run = v.wrong_run.saturating_add(1);
    let held = 3 <= wrong_run || v.wrong_by.is_some();
    Verdict {
        last: Last::Wrong,
        wrong_run,
        other_run: 0,
        wrong_by: held.then_some(off_km),
        moved: false,
    }
}

// Any other judging.
#[tactic(auto, unfolding(crate::specs::Verdict::otherwise))]
fn otherwise(v: Verdict, last: Last) -> Verdict
    ensures { result ≡ verdict.otherwise v last }
{
    let other_run = v.other_run.saturating_add(1);
    Verdict {
        last,
        wrong_run: 0,
        other_run,
        wrong_by: if 3 <= other_run { None } else { v.wrong_by },
        moved: false,
    }
}

// The judging joins the run: each kind as its own case says (d).
fn judged_once(v: Verdict, j: Judgment) -> Verdict
    ensures { result ≡ verdict.judged_once v j }
{
    match j {
        Judgment::Wrong { off_km, by: _ } => wrongly(v, off_km),
        Judgment::Fits => otherwise(v, Last::Fits),
        Judgment::Unjudged => otherwise(v, Last::Unjudged),
    }
}

// A run begins.
fn begun() -> Verdict
    ensures { result ≡ verdict.begun }
{
    Verdict {
        last: Last::Unjudged,
        wrong_run: 0,
        other_run: 0,
        wrong_by: None,
        moved: false,
    }
}

// What a judging goes on from: a new run if there is none, or a move has ended it.
fn goes_on(v: Option<Verdict>) -> Verdict
    ensures { result ≡ verdict.goes_on v }
{
    match v {
        Some(w) => { if w.moved { begun() } else { w } }
        None => begun(),
    }
}

// One judging more. There is a run from then on: Some, as the row keeps it (d).
pub fn judged_next(v: Option<Verdict>, j: Judgment) -> Option<Verdict>
    ensures { result ≡ verdict.judged_next v j }
{
    Some(judged_once(goes_on(v), j))
}

// Earlier than half an hour after the judging that is kept (9). Nothing is added to the kept number, which may be any.
pub fn too_soon(kept: Option<u64>, now_ms: u64) -> bool
    ensures { result ≡ verdict.too_soon kept now_ms }
{
    kept.is_some_and(|ms| now_ms < ms || now_ms - ms < 1800000)
}

// A move has ended the run; check speaks of it until a new one begins.
pub fn ended(v: Option<Verdict>) -> Option<Verdict>
    ensures { result ≡ verdict.run_ended v }
{
    v.map(|w| Verdict { moved: true, ..w })
}

// What check says of a verdict: with no distance held, what the last judging found if that was Fits.
pub fn says(v: Verdict) -> CheckState
    ensures { result ≡ verdict.says_verdict v }
{
    match v.wrong_by {
        Some(d) => CheckState::Wrong(d),
        None => match v.last {
            Last::Fits => CheckState::Fits,
            Last::Unjudged | Last::Wrong => CheckState::Unjudged,
        },
    }
}

// A step of 5 from 5 to 800.
pub fn is_step(d: u32) -> bool
    ensures { result ≡ verdict.step_of5 d }
{
    d % 5 == 0 && 5 <= d && d <= 800
}

// Question 2: the held distance is a step of 5 from 5 to 800.
pub fn fits(v: Option<Verdict>) -> bool
    ensures { result ≡ verdict.verdict_fits v }
{
    v.and_then(|w| w.wrong_by).is_none_or(is_step)
}
