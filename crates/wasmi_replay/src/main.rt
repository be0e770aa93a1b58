//! Runs a script of calls on a metered machine, and prints what each call answers.
#![tactic(auto)]

ghost use Rattle.std.specs.Prelude.{◌≡◌};
ghost use Rattle.std.specs.Process.{exit_status};
ghost use Rattle.wasmi_script.specs.declared.replaying.Status.{Status as ReplayStatus};
ghost use Rattle.wasmi_script.specs.Outcomes.{IsOutcomeOfReader, Replays, status_number};

use std::alloc::Global;
use std::process::ExitCode;
use wasmi_script::{Input, Output, replay};

fn main(rt: HostRuntime) -> ExitCode {
    run(rt.alloc(), &mut rt.stdin(), &mut rt.stdout())
}

/// Replays the script of the reader, and ends with the number of its status.
fn run<R: Input, W: Output>(alloc: Global, reader: &mut R, writer: &mut W) -> ExitCode
    ensures { (status : ReplayStatus)
        × Replays (IsOutcomeOfReader (R.remaining reader.old) (R.has_failed reader.new))
        (W.contents writer.old) (W.contents writer.new) (W.is_flushed writer.new) status
        × (exit_status result ≡ status_number status) }
{
    ExitCode::from(replay(alloc, reader, writer).code())
}
