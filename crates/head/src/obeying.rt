//! What a received frame leaves, for each way that it can go.
ghost use Rattle.std.specs.Prelude.{◌≡◌};
ghost use Rattle.position.specs.Profile.{ValidProfile};
ghost use Rattle.dictionary.specs.Writes.{Fits};
ghost use Rattle.steps.specs.Obey.{replied_in, synced_in, configured_in, scaled_in, entered_in, restarted_in, saved_in, emptied_in, went, Fitting, obeyed_in};
ghost use Rattle.head.specs.Writable.{Writable};

use can::Bytes;
use emergency::Telling;
use nmt::entry;
use parts::{Head, Nmt};
use server::effect;
use server::effect::Write;
use steps::hear::{Heard, Way};
use tpdo::sync;

// The head obeys the frame, if it is meant for the head.
pub fn obey(head: &mut Head, heard: Option<Heard>)
    requires { Writable head.old heard }
    ensures { head.new ≡ obeyed_in head.old heard }
{
    let Some(heard) = heard else {
        return;
    };
    if let Some(transfer) = heard.transfer {
        head.transfer = transfer;
    }
    go(head, heard.way);
}

fn go(head: &mut Head, way: Way)
    requires valid { ValidProfile head.old.core.device.settings.profile }
    requires fits { Fitting head.old.core.device.settings.profile way }
    ensures { head.new ≡ went head.old way }
{
    match way {
        Way::Replies(reply) => replied(head, reply),
        Way::Syncs => synced(head),
        Way::Configures(write) => configured(head, write),
        Way::Scales(write) => scaled(head, write),
        Way::Enters(state) => entered(head, state),
        Way::Resets { all } => restarted(head, all),
        Way::Saves { reply, key } => saved(head, reply, key),
        Way::Empties(reply) => emptied(head, reply),
        Way::Ends => {}
    }
}

fn replied(head: &mut Head, reply: Bytes)
    ensures { head.new ≡ replied_in head.old reply }
{
    let left = effect::reply(head.line, reply);
    let reply = left.reply;
    head.core.reply = reply;
    let line = left.line;
    head.line = line;
}

fn synced(head: &mut Head)
    requires { ValidProfile head.old.core.device.settings.profile }
    ensures { head.new ≡ synced_in head.old }
{
    let left = sync::sync(
        head.core.nmt,
        head.core.device.settings,
        head.core.timers,
        head.core.device.reading,
        head.core.fixed,
        head.line,
    );
    head.core.timers = left.timers;
    head.core.fixed = left.fixed;
    let line = left.line;
    head.line = line;
}

fn configured(head: &mut Head, write: Write)
    ensures { head.new ≡ configured_in head.old write }
{
    let left = effect::configure(
        Telling::of(&head.core),
        head.core.device.settings.communication,
        head.core.timers,
        head.line,
        write,
    );
    head.core.device.settings.communication = left.communication;
    head.core.timers = left.timers;
    let reply = left.reply;
    head.core.reply = reply;
    let line = left.line;
    head.line = line;
}

fn scaled(head: &mut Head, write: Write)
    requires { (ValidProfile head.old.core.device.settings.profile) × (Fits head.old.core.device.settings.profile write.key write.value) }
    ensures { head.new ≡ scaled_in head.old write }
{
    let left = effect::scale(
        head.core.device.settings.profile,
        head.core.device.reading.raw,
        head.line,
        write,
    );
    head.core.device.settings.profile = left.part;
    let reply = left.reply;
    head.core.reply = reply;
    let line = left.line;
    head.line = line;
}

fn entered(head: &mut Head, state: Nmt)
    ensures { head.new ≡ entered_in head.old state }
{
    let left = entry::enter(
        Telling::of(&head.core),
        head.core.device.settings.communication,
        head.core.timers,
        head.line,
        state,
    );
    head.core.nmt = left.nmt;
    head.core.timers = left.timers;
    let line = left.line;
    head.line = line;
}

fn restarted(head: &mut Head, all: bool)
    ensures { head.new ≡ restarted_in head.old all }
{
    let left = entry::restart(head.core.device.settings, head.core.device.saved, all);
    head.core.device.settings = left.settings;
    head.core.nmt = left.nmt;
    head.core.announced = left.announced;
    head.core.timers = left.timers;
    let line = left.line;
    head.line = line;
}

fn saved(head: &mut Head, reply: Bytes, key: u32)
    ensures { head.new ≡ saved_in head.old reply key }
{
    let left = effect::save(
        head.core.device.node,
        head.core.device.settings,
        head.line,
        reply,
        key,
    );
    head.core.device.saved = left.part;
    let reply = left.reply;
    head.core.reply = reply;
    let line = left.line;
    head.line = line;
}

fn emptied(head: &mut Head, reply: Bytes)
    ensures { head.new ≡ emptied_in head.old reply }
{
    let left = effect::empty(head.line, reply);
    head.core.device.errors = left.part;
    let reply = left.reply;
    head.core.reply = reply;
    let line = left.line;
    head.line = line;
}
