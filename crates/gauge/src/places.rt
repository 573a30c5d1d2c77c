// Whose entry stands at a place: entries of one object, or of objects behind each other, fill their bytes.
ghost use Rattle.std.specs.Prelude.{◌≡◌, ◌+◌, ◌≤◌};
ghost use Rattle.gauge.specs.Among.{among};

// Is the place among the bytes from at on, so many? PROMISES names it, so it stays beside std's `contains`.
pub fn is_among(at: usize, size: usize, place: usize) -> bool
    requires { at + size ≤ 1024 }
    ensures { result ≡ among at size place }
{
    (at..at + size).contains(&place)
}
