ghost use Rattle.admission.specs.Sound.{Sound};

use crate::figures::Figures;

pub mod makes;

// Blank, with all measures 0, or admitted: within the limits of a table, and keeping every bound.
#[derive(Clone, Copy)]
pub struct Plan {
    figures: Figures,
    ghost sound: { Sound figures },
}
