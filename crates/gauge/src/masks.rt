// Masks that come in act on the summary at once.
ghost use Rattle.std.specs.Prelude.{◌≡◌};
ghost use Rattle.gauge.specs.Masks.{heeding};

use table::Values;

// Works the summary out anew if masks came in. With the test inside, as PROMISES names it, so that three callers need no law for two cases.
pub fn heed(values: &mut Values, came: bool)
    ensures { values.new ≡ heeding came values.old }
{
    if came {
        sample::put_summary(values);
    }
}
