// Questions about what an image saves.
ghost use Rattle.std.specs.Prelude.{◌≡◌, Result};
ghost use Rattle.jobs.specs.Faults.{IsEnd, IsReported};
ghost use Rattle.queries.specs.Queries.{AnswersImage};

use crate::describing::describe_image;
use crate::drawing::{Focus, draw_image};
use crate::inspecting::info_image;
use crate::naming::describe_named;
use crate::reaching::{ReachQuestion, reach_image};
use description::Sizes;
use device::Device;
use jobs::{Done, Fault};
use json_lines::Format;
use migrator::WholeStore;
use names::Name;
use script::Output;
use std::alloc::Global;

/// A question about what an image saves.
#[derive(Clone, Copy)]
pub enum Query<'w> {
    /// Its description, for an image of these sizes.
    Describe(Sizes),
    /// The same, with these names in its numbers.
    DescribeNamed(Sizes, &'w [Name]),
    /// Its graph.
    Draw(Focus),
    /// Its sizes, and what it holds.
    Info(Format),
    /// A question about what the processes named can ever change or read, or all processes if none is named.
    Reach {
        processes: &'w [u64],
        trusted: &'w [u64],
        question: ReachQuestion,
        format: Format,
    },
}

/// Opens a device as a run does, and writes the answer to a question about what it saves: see `describe_image`,
/// `describe_named`, `draw_image`, `info_image` and `reach_image`, which also say what the status is and which faults there are.
///
/// The device is returned. Nothing is written to it at any moment.
pub fn answer<D: Device, S: WholeStore<D>, W: Output, V: Output>(
    alloc: Global,
    device: D,
    setting: S::Setting,
    query: Query<'_>,
    writer: &mut W,
    errors: &mut V,
) -> Done<D>
    ensures { (outcome : Result (Unit {0}) Fault) × IsEnd outcome result.status result.fault
        × IsReported outcome (V.written errors.old) (V.written errors.new)
        × AnswersImage D.disk query.entry device result.device (W.written writer.old) (W.written writer.new) outcome }
{
    match query {
        Query::Describe(sizes) => describe_image::<D, S, W, V>(
            alloc, device, setting, sizes, writer, errors,
        ),
        Query::DescribeNamed(sizes, names) => describe_named::<D, S, W, V>(
            alloc, device, setting, sizes, names, writer, errors,
        ),
        Query::Draw(focus) => draw_image::<D, S, W, V>(
            alloc, device, setting, focus, writer, errors,
        ),
        Query::Info(format) => info_image::<D, S, W, V>(
            alloc, device, setting, format, writer, errors,
        ),
        Query::Reach {
            processes,
            trusted,
            question,
            format,
        } => reach_image::<D, S, W, V>(
            alloc, device, setting, format, processes, trusted, question, writer, errors,
        ),
    }
}
