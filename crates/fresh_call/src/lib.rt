// The monitor that a station begins with.
#![tactic(auto)]

ghost use Rattle.std.specs.Prelude.{◌≡◌};
ghost use Rattle.promises.specs.Monitor.{fresh_monitor};

use promises::Monitor;

// A monitor that has seen nothing.
pub fn fresh() -> Monitor
    ensures { result ≡ fresh_monitor }
{
    Monitor {
        before: 64,
        since: 64,
    }
}
