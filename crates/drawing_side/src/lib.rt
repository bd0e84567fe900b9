// The entry for the drawing side, which is written in C: the answer. `drawing_side_c` exports it.
#![tactic(auto)]

ghost use Rattle.std.specs.Prelude.{◌≡◌};
ghost use Rattle.admission.specs.Admitted.{admitted};
ghost use Rattle.drawing_side.specs.Answer.{answer};

use admission::{Plan, admit};
use table::rows::{MAX_KINDS, MAX_TASKS, NO_KIND, NO_TASK};

// The collector's period for a table text, or minus the number of the refusal.
pub fn gudokpi_period(text: &[u8]) -> i32
    ensures { result ≡ answer (admitted text.now 32 16) }
{
    let mut kinds = [NO_KIND; MAX_KINDS];
    let mut tasks = [NO_TASK; MAX_TASKS];
    let mut plan = Plan::blank();
    match admit(text, &mut kinds, &mut tasks, &mut plan) {
        Ok(()) => plan.figures().period as i32,
        Err(fault) => -(fault.number() as i32),
    }
}
