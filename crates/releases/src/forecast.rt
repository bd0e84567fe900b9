// What a table text foretells: the plan and its first releases, or the refusal.
ghost use Rattle.std.specs.Prelude.{◌≡◌, Some};
ghost use Rattle.admission.specs.Admitted.{admitted};
ghost use Rattle.releases.specs.Foretold.{Foretold};
ghost use Rattle.releases.specs.Printed.{source_number, plan_line, release_line, outlook_text, forecast_text};

use crate::{FORECAST, first_releases};
use admission::{Plan, admit};
use fault::Fault;
use queue::{Release, Source};
use std::fmt;
use table::rows::{MAX_KINDS, MAX_TASKS, NO_KIND, NO_TASK};

// The collector's period, how late a flip can be, the steps of a collection at most, the least stretch that holds one, and the first releases.
#[derive(Clone, Copy)]
pub struct Outlook {
    pub period: u32,
    pub lateness: u32,
    pub steps: u32,
    pub span: u32,
    pub releases: [Release; FORECAST],
}

pub fn foretell(text: &[u8]) -> Result<Outlook, Fault>
    ensures { Foretold (admitted text.now 32 16) result }
{
    let mut kinds = [NO_KIND; MAX_KINDS];
    let mut tasks = [NO_TASK; MAX_TASKS];
    let mut plan = Plan::blank();
    admit(text, &mut kinds, &mut tasks, &mut plan)?;
    let releases = first_releases(&plan).unwrap();
    let figures = plan.figures();
    Ok(Outlook {
        period: figures.period,
        lateness: figures.lateness,
        steps: figures.steps,
        span: figures.span,
        releases,
    })
}

// A task by its number, and 0 for the collector.
fn number_of(source: Source) -> u8
    ensures { result ≡ source_number source }
{
    match source {
        Source::Task(number) => number,
        Source::Collector => 0,
    }
}

// The line of a plan, of which the releases come after.
#[derive(Clone, Copy)]
struct PlanLine<'a>(&'a Outlook);

impl fmt::Display for PlanLine<'_> {
    ghost output = { λ l. Some (plan_line l.0.now) };

    fn fmt<W: fmt::Write>(&self, f: &mut fmt::Formatter<W>) -> fmt::Result {
        let Outlook {
            period,
            lateness,
            steps,
            span,
            ..
        } = self.0;
        writeln!(f, "plan,{period},{lateness},{steps},{span}")
    }
}

// The line of a release.
#[derive(Clone, Copy)]
struct ReleaseLine(Release);

impl fmt::Display for ReleaseLine {
    ghost output = { λ l. Some (release_line l.0) };

    fn fmt<W: fmt::Write>(&self, f: &mut fmt::Formatter<W>) -> fmt::Result {
        let tick = self.0.tick;
        let number = number_of(self.0.source);
        writeln!(f, "{tick},{number}")
    }
}

impl fmt::Display for Outlook {
    ghost output = { λ o. Some (outlook_text o) };

    fn fmt<W: fmt::Write>(&self, f: &mut fmt::Formatter<W>) -> fmt::Result {
        PlanLine(self).fmt(f)?;
        for release in &self.releases {
            ReleaseLine(*release).fmt(f)?;
        }
        Ok(())
    }
}

// What is printed of a text: the outlook, or a line of the refusal's numbers.
#[derive(Clone, Copy)]
pub struct Forecast(pub Result<Outlook, Fault>);

impl fmt::Display for Forecast {
    ghost output = { λ f. Some (forecast_text f.0) };

    fn fmt<W: fmt::Write>(&self, f: &mut fmt::Formatter<W>) -> fmt::Result {
        match &self.0 {
            Ok(outlook) => outlook.fmt(f),
            Err(fault) => {
                let number = fault.number();
                let line = fault.place_number();
                let column = fault.column();
                writeln!(f, "refused,{number},{line},{column}")
            }
        }
    }
}
