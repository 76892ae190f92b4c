// Carrying out commands over a kernel.
ghost use Rattle.std.specs.Prelude.{◌≡◌, ◌<◌, ◌≤◌, ◌&&◌, [], ◌∷◌, length, map, take, drop, None, Some, slice_index_or};
ghost use Rattle.std.specs.Prelude.{IfNone, IfSome};
ghost use Rattle.vezhnake.specs.Serving.{EndsAt, ServesEach, ServesLine};
ghost use Rattle.vezhnake.specs.RawCommands.{command_of};
ghost use Rattle.vezhnake.specs.RawReplies.{is_refused};

use crate::host_kernel::HostDevice;
use crate::raw_command::RawCommand;
use crate::raw_reply::RawReply;
use checkpoint::ObjectStore;
use kernel::{Kernel, Served};
use model::Command;
use runs::laws::crashes_in_runs_are_survived;

/// Carries out a command, as a run does for the script line with the same meaning.
#[inline(always)]
pub fn serve<S: ObjectStore<HostDevice>>(
    kernel: &mut Kernel<HostDevice, S>,
    command: &Command,
) -> Served
    ensures { ServesLine S.view S.parts kernel.old kernel.new command.now result }
{
    crashes_in_runs_are_survived::<HostDevice, S>();
    command.can_be_spelt();
    kernel.step_with_code(command)
}

// Carries out a command, and returns its answer in the form of numbers.
#[inline(always)]
fn reply_to<S: ObjectStore<HostDevice>>(
    kernel: &mut Kernel<HostDevice, S>,
    command: &Command,
) -> RawReply
    ensures { ServesEach S.view S.parts kernel.old kernel.new (Some command.now ∷ []) (result ∷ []) }
{
    let served = serve(kernel, command);
    RawReply::of(&served.answer, served.code)
}

// Returns the command at an index, or `None` if the numbers there encode none.
#[inline(always)]
fn command_at(commands: &[RawCommand], index: usize) -> Option<Command>
    requires { index < length commands.now }
    ensures { result ≡ slice_index_or (map command_of commands.now) index None }
{
    commands[index].command()
}

// Whether this reply ends the batch: `stops` is set, and the reply is a refusal.
fn is_last(stops: bool, reply: &RawReply) -> bool
    ensures { result ≡ (stops && is_refused reply.now) }
{
    stops && reply.is_refused()
}

/// Carries out a command, and returns its answer as numbers. Returns `None` if the numbers encode no command.
#[inline(always)]
pub fn serve_one<S: ObjectStore<HostDevice>>(
    kernel: &mut Kernel<HostDevice, S>,
    raw: &RawCommand,
) -> Option<RawReply>
    ensures served { IfSome result (λ reply. ServesEach S.view S.parts kernel.old kernel.new
        (command_of raw.now ∷ []) (reply ∷ [])) }
    ensures none { IfNone result ((command_of raw.now ≡ None)
        × ServesEach S.view S.parts kernel.old kernel.new [] []) }
{
    crashes_in_runs_are_survived::<HostDevice, S>();
    match raw.command() {
        Some(command) => Some(reply_to(kernel, &command)),
        None => None,
    }
}

/// Carries out commands one after another, up to the first whose numbers encode no command, and writes their answers
/// as numbers. If `stops`, it also ends after the first refusal. Returns how many commands it carried out.
pub fn serve_each<S: ObjectStore<HostDevice>>(
    kernel: &mut Kernel<HostDevice, S>,
    commands: &[RawCommand],
    stops: bool,
    replies: &mut [RawReply],
) -> usize
    requires { length commands.now ≤ length replies.old }
    ensures served { ServesEach S.view S.parts kernel.old kernel.new (take result (map command_of commands.now))
        (take result replies.new) }
    ensures rest { drop result replies.new ≡ drop result replies.old }
    ensures ends { EndsAt stops (map command_of commands.now) replies.new result }
{
    crashes_in_runs_are_survived::<HostDevice, S>();
    for index in 0..commands.len() {
        let Some(command) = command_at(commands, index) else {
            return index;
        };
        let reply = reply_to(kernel, &command);
        replies[index] = reply;
        if is_last(stops, &reply) {
            return index + 1;
        }
    }
    commands.len()
}
