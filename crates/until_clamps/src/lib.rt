// A clamp in a byte: its lower end and four times its higher, grades 0 to 3 each; one clamp over another.
#![tactic(auto)]

ghost use Rattle.std.specs.Prelude.{◌≡◌, ◌<◌};
ghost use Rattle.temporal.specs.Clamps.{clamp};
ghost use Rattle.until_clamps.specs.Clamps.{over};

// The higher of the lower end and the lower of the higher end and r.
fn clamped(low: u8, high: u8, r: u8) -> u8
    ensures { result ≡ clamp low high r }
{
    if high < r {
        if high < low {
            return low;
        }
        return high;
    }
    if r < low {
        return low;
    }
    r
}

// Both ends of a clamp, clamped by another.
pub fn clamp_over(outer: u8, inner: u8) -> u8
    requires { (outer < 16) × (inner < 16) }
    ensures { result ≡ over outer inner }
{
    let low = outer % 4;
    let high = outer / 4;
    clamped(low, high, inner % 4) + 4 * clamped(low, high, inner / 4)
}
