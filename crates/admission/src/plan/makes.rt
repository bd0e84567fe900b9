ghost use Rattle.std.specs.Prelude.{◌≡◌, ◌≤◌, length, OnOk};
ghost use Rattle.admission.specs.Planned.{figures_in, blank_figures};
ghost use Rattle.fault.specs.Told.{told};
ghost use Rattle.table.specs.Checking.{check};
ghost use Rattle.table.specs.Filling.{filled};
ghost use Rattle.admission.specs.Admitted.{admitted, done, planned};

use super::Plan;
use crate::accepted::Accepted;
use crate::figures::Figures;
use fault::Fault;
use table::rows::{KindRow, TaskRow};
use table::{Table, read};

// Reads a table and works out the longest period of the collector. The rows go to the front of the two lists once the text is accepted, and stay
// if a bound then breaks; the plan is blank after every refusal.
pub fn admit(
    text: &[u8],
    kinds: &mut [KindRow],
    tasks: &mut [TaskRow],
    plan: &mut Plan,
) -> Result<(), Fault>
    ensures answer { told result ≡ done (admitted text.now (length kinds.old) (length tasks.old)) }
    ensures plan { figures_in plan.new ≡ planned (admitted text.now (length kinds.old) (length tasks.old)) }
    ensures some { OnOk result (1 ≤ (figures_in plan.new).period) }
    ensures kinds { kinds.new ≡ filled (λ rows. rows.kinds) (check text.now (length kinds.old) (length tasks.old)) kinds.old }
    ensures tasks { tasks.new ≡ filled (λ rows. rows.tasks) (check text.now (length kinds.old) (length tasks.old)) tasks.old }
{
    *plan = Plan::blank();
    let Table {
        heap,
        statics,
        kind_count,
        task_count,
    } = read(text, kinds, tasks)?;
    let accepted = Accepted {
        heap,
        statics,
        kinds: &kinds[..kind_count],
        tasks: &tasks[..task_count],
    };
    *plan = Plan {
        figures: accepted.figures()?,
    };
    Ok(())
}

impl Plan {
    // Nothing is admitted.
    pub fn blank() -> Plan
        ensures { figures_in result ≡ blank_figures }
    {
        Plan {
            figures: Figures::default(),
        }
    }

    // What admission worked out; all 0 in a blank plan.
    pub fn figures(&self) -> &Figures
        ensures { result.now ≡ figures_in self.now }
    {
        &self.figures
    }
}
