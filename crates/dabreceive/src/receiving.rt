// Making calls on a receiver, and having them reported.
ghost use Rattle.std.specs.Prelude.{IfOk};
ghost use Rattle.dabreceive.specs.Reports.{SumsUp, Replays};

use crate::plan::{buffer_length, replay_calls};
use crate::reporting::Reporting;
use programs::SubchannelIndex;
use reception::{Call, drive};
use sources::{FrameQueue, PLACES};
use std::alloc::{AllocError, Global};

// Makes the calls on a receiver over an empty queue.
pub fn make_calls(
    alloc: Global,
    size: SubchannelIndex,
    calls: &[Call<'_>],
    report: &mut Reporting<'_>,
) -> Result<(), AllocError>
    ensures { IfOk result (λ _. SumsUp size calls.now report.old.summary report.new.summary) }
{
    let mut places = vec![in alloc; 0u8; PLACES * size.frame_length()]?;
    let mut buffer = vec![in alloc; 0u8; buffer_length(size)]?;
    let queue = FrameQueue::new(size.number(), &mut places);
    drive(size.number(), queue, calls, &mut buffer, report);
    Ok(())
}

// Sets the patience where it is given, and then hands in each frame of the recording and takes it.
pub fn replay(
    alloc: Global,
    size: SubchannelIndex,
    patience: Option<usize>,
    recording: &[u8],
    report: &mut Reporting<'_>,
) -> Result<(), AllocError>
    ensures { IfOk result (λ _. Replays size patience recording.now report.old.summary report.new.summary) }
{
    let calls = replay_calls(alloc, size, patience, recording)?;
    make_calls(alloc, size, &calls, report)
}
