// The entry for the drawing side as a static library that C links.
#![tactic(auto)]

ghost use Rattle.std.specs.Prelude.{◌≡◌};
ghost use Rattle.admission.specs.Admitted.{admitted};
ghost use Rattle.drawing_side.specs.Answer.{answer};

// The collector's period for a table text, or minus the number of the refusal.
#[unsafe(no_mangle)]
pub extern "C" fn gudokpi_period(text: &[u8]) -> i32
    ensures { result ≡ answer (admitted text.now 32 16) }
{
    drawing_side::gudokpi_period(text)
}
