//! Why a run ends before its lines do.

ghost use Rattle.salt_storage.specs.OpenErr.{OpenErr};
ghost use Rattle.salt_loop.specs.Stopping.{IsOfDevices, is_memory, ran_short, status_of, stop_at, stop_of, stop_opening};
ghost use Rattle.salt_loop.specs.declared.stop.Stop.TheVariants.{Memory, WriteFault};
ghost use Rattle.salt_storage.specs.declared.halt.Halt.TheVariants.{Stopped};
ghost use Rattle.std.specs.Prelude.{◌≡◌, ◌≢◌};

use salt_io::{IoFailed, LineErr};
use salt_place::Shape;
use salt_promise::Status;
use salt_storage::{Halt, OpenErr};
use std::alloc::AllocError;

/// Why a run ends before its lines do.
#[derive(Clone, Copy, Debug, PartialEq, Eq)]
pub enum Stop {
    Memory,
    ReadFault,
    WriteFault,
    DiskFault,
    NotSalt(u32),
    DeviceFull(u32),
    OtherShape { kept: Shape, asked: Shape },
    ScriptTooLong,
    NumbersSpent { boot: u64, decisions: u64 },
}

impl From<AllocError> for Stop {
    ghost from_gives = { λ _ stop. stop ≡ Memory };

    fn from(_e: AllocError) -> Stop {
        Stop::Memory
    }
}

impl From<IoFailed> for Stop {
    ghost from_gives = { λ _ stop. stop ≡ WriteFault };

    fn from(_e: IoFailed) -> Stop {
        Stop::WriteFault
    }
}

impl From<LineErr> for Stop {
    ghost from_gives = { λ e stop. stop ≡ stop_of e };

    fn from(e: LineErr) -> Stop {
        match e {
            LineErr::ReadFault => Stop::ReadFault,
            LineErr::ScriptTooLong => Stop::ScriptTooLong,
            LineErr::Memory => Stop::Memory,
        }
    }
}

/// How a run ends that stops so.
impl From<Stop> for Status {
    ghost from_gives = { λ stop status. status ≡ status_of stop };

    fn from(stop: Stop) -> Status {
        match stop {
            Stop::Memory => Status::Memory,
            Stop::ReadFault => Status::ReadFault,
            Stop::WriteFault => Status::WriteFault,
            Stop::DiskFault => Status::DiskFault,
            Stop::NotSalt(dev) => Status::NotSalt(dev),
            Stop::DeviceFull(dev) => Status::DeviceFull(dev),
            Stop::OtherShape { kept, asked } => Status::OtherShape { kept, asked },
            Stop::ScriptTooLong => Status::ScriptTooLong,
            Stop::NumbersSpent { boot, decisions } => Status::NumbersSpent { boot, decisions },
        }
    }
}

/// Why a run ends whose opening is halted so. A stop of the devices ends no run: it is opened again.
fn stop_at(halt: Halt) -> Stop
    requires { halt ≢ Stopped }
    ensures is { result ≡ stop_at halt }
    ensures of_devices { IsOfDevices result }
{
    match halt {
        Halt::Stopped => unreachable!(),
        Halt::DiskFault => Stop::DiskFault,
        Halt::DeviceFull(dev) => Stop::DeviceFull(dev),
        Halt::Memory => Stop::Memory,
    }
}

/// Why a run ends whose opening ends so.
pub fn stop_opening(e: OpenErr) -> Stop
    requires { e ≢ OpenErr.Stopped }
    ensures is { result ≡ stop_opening e }
    ensures of_devices { IsOfDevices result }
{
    match e {
        OpenErr::NotSalt(dev) => Stop::NotSalt(dev),
        OpenErr::OtherShape { kept, asked } => Stop::OtherShape { kept, asked },
        OpenErr::NumbersSpent { boot, decisions } => Stop::NumbersSpent { boot, decisions },
        OpenErr::Failed => Stop::DiskFault,
        OpenErr::Stopped => unreachable!(),
        OpenErr::Full(dev) => Stop::DeviceFull(dev),
        OpenErr::Memory => Stop::Memory,
    }
}

/// Whether a run ends for want of memory.
fn is_memory(stop: Stop) -> bool
    ensures { result ≡ is_memory stop }
{
    match stop {
        Stop::Memory => true,
        _ => false,
    }
}

/// Whether memory ran out in what was done.
pub fn ran_short(done: &Result<(), Stop>) -> bool
    ensures { result ≡ ran_short done.now }
{
    match done {
        Ok(()) => false,
        Err(stop) => is_memory(*stop),
    }
}
