// The first releases of a plan, in the order in which they fall.
#![tactic(auto)]

ghost use Rattle.std.specs.Prelude.{◌≡◌, MatchOption};
ghost use Rattle.admission.specs.Planned.{figures_in};
ghost use Rattle.releases.specs.Releases.{FirstReleases};

mod agenda;
mod forecast;

use admission::Plan;
use agenda::{Agenda, SOURCES};
pub use forecast::{Forecast, Outlook, foretell};
use queue::{Release, Source};

// How many releases a forecast lists.
pub const FORECAST: usize = 8;

const NOTHING: Release = Release {
    tick: 0,
    rank: 0,
    source: Source::Collector,
};

// The first releases of a plan; none of a blank one.
pub fn first_releases(plan: &Plan) -> Option<[Release; FORECAST]>
    ensures { MatchOption result ((figures_in plan.now).period ≡ 0) (λ list. FirstReleases (figures_in plan.now) 8 list) }
{
    let figures = plan.figures();
    if figures.period == 0 {
        return None;
    }
    let mut room = [NOTHING; SOURCES];
    let mut agenda = Agenda::new(figures, &mut room);
    let mut list = [NOTHING; FORECAST];
    for entry in list.iter_mut() {
        *entry = agenda.advance()?;
    }
    Some(list)
}
