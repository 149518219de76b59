//! What a slot leaves, for each way that it can go.
ghost use Rattle.std.specs.Prelude.{◌≡◌, ◌≤◌};
ghost use Rattle.waiting.specs.Line.{places};
ghost use Rattle.waiting.specs.Places.{waiting as waitingIn, Holds};
ghost use Rattle.steps.specs.Sent.{sent_in, booted_in, announced_in, taken_in};

use parts::Head;
use steps::slot;
use steps::slot::Way;

// The slot has sent its frame.
pub fn send(head: &mut Head, way: Way)
    requires { (head.old.core.device.settings.communication.inhibit ≤ 0xFFFF) × (Holds places head.old.line (waitingIn head.old.line)) }
    ensures { head.new ≡ sent_in head.old way }
{
    match way {
        Way::Boots => booted(head),
        Way::Announces => announced(head),
        Way::Sends => taken(head),
    }
}

fn booted(head: &mut Head)
    ensures { head.new ≡ booted_in head.old }
{
    let left = slot::boot(
        head.core.device.settings.communication.emergency,
        head.core.device.reading.good,
    );
    head.core.nmt = left.nmt;
    let line = left.line;
    head.line = line;
}

fn announced(head: &mut Head)
    requires inhibit_bound { head.old.core.device.settings.communication.inhibit ≤ 0xFFFF }
    requires holds { Holds places head.old.line (waitingIn head.old.line) }
    ensures { head.new ≡ announced_in head.old }
{
    let left = slot::announce(
        head.core.device.settings.communication.inhibit,
        head.core.device.reading.good,
        head.line,
    );
    head.core.announced = left.announced;
    head.core.timers.inhibit = left.inhibit;
    let line = left.line;
    head.line = line;
}

fn taken(head: &mut Head)
    requires { Holds places head.old.line (waitingIn head.old.line) }
    ensures { head.new ≡ taken_in head.old }
{
    let left = slot::take(head.line);
    head.line = left;
}
