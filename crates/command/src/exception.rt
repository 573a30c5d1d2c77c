// Exception reset.
ghost use Rattle.std.specs.Prelude.{◌≡◌};
ghost use Rattle.command.specs.Exceptions.{exceptions_cleared};

use table::{Values, place};

// The latched byte and words stand behind each other: F390, and F391 to F398 of four bytes each.
pub fn clear_latched(values: &mut Values)
    ensures { values.new ≡ exceptions_cleared values.old }
{
    values[place::LATCHED_STATUS..place::LATCHED_STATUS + place::LATCHED_SIZE].fill(0);
    sample::put_summary(values);
}
