//! Why the program stops before everything is done, what it reports then, and its exit status.

ghost use Rattle.std.specs.Prelude.{◌≡◌, [], false};
ghost use Rattle.cal_bytes.specs.rules.Puts.{Puts};
ghost use Rattle.cal_command.specs.rules.CommandFault.{shown_fault};
ghost use Rattle.cal_work.specs.rules.Stop.{command_outlet, command_stop, command_text, exit_status, fault_stop, load_outlet, load_stop, outlet_of, own_line, shown_stop, stop_text, unopened_line, zones_line};

use cal_bytes::{Sink, WriteFault, put_all, put_pieces};
use cal_command::CommandFault;
use cal_request::{RunFault, Status};
use cal_zone::{LoadFault, ZoneFault};

/// Why the program stops before everything is done.
#[derive(Drop)]
pub enum Stop {
    /// The arguments are invalid, or ask only for help or the version, or memory ran out while they were parsed.
    Command(CommandFault),
    /// The file of the zone with this name, an item of `--zones`, can't be loaded.
    Zones(String, LoadFault),
    /// The POSIX rule given for the local zone is invalid.
    LocalRule,
    /// The name given for the local zone is neither `UTC` nor the name of an item of `--zones`.
    LocalName,
    /// The clock can't be read, or it shows a time outside the supported range.
    Clock,
    /// The timer file at this path can't be opened.
    Open(String),
    /// An output or an allocation failed during the run, or an allocation failed before it.
    Run(RunFault),
}

impl Stop {
    /// Returns the exit status: 0 for help or the version; 1 if the timer file can't be opened, the run ended early or
    /// memory ran out; and 2 for everything else.
    pub fn status(&self) -> u8
        ensures { result ≡ (shown_stop self.now).status }
    {
        match self {
            Stop::Command(fault) => command_status(fault),
            Stop::Zones(_, fault) => load_status(*fault),
            Stop::LocalRule | Stop::LocalName | Stop::Clock => 2,
            Stop::Open(_) => 1,
            Stop::Run(fault) => fault_status(*fault),
        }
    }

    /// Returns where the stop is reported.
    pub(crate) fn outlet(&self) -> Outlet
        ensures { result ≡ outlet_of self.now }
    {
        match self {
            Stop::Command(fault) => command_outlet(fault),
            Stop::Zones(_, fault) => load_outlet(*fault),
            Stop::LocalRule | Stop::LocalName | Stop::Clock | Stop::Open(_) => Outlet::OnErr,
            Stop::Run(fault) => Outlet::Later(*fault),
        }
    }
}

/// Where a stop is reported.
#[derive(Clone, Copy, PartialEq, Eq)]
pub(crate) enum Outlet {
    /// Standard output, for help.
    OnOut,
    /// Standard error.
    OnErr,
    /// Standard error, but only after the output is flushed. This is for failed outputs and for running out of memory.
    /// If standard error itself has failed, nothing is reported.
    Later(RunFault),
}

/// Returns where help, an error in the arguments, or running out of memory while they are parsed is reported.
fn command_outlet(fault: &CommandFault) -> Outlet
    ensures { result ≡ command_outlet (shown_fault fault.now) }
{
    match fault {
        CommandFault::Help(_) => Outlet::OnOut,
        CommandFault::NoMemory => Outlet::Later(RunFault::NoMemory),
        _ => Outlet::OnErr,
    }
}

/// Returns where the error for a zone file that can't be loaded is reported.
fn load_outlet(fault: LoadFault) -> Outlet
    ensures { result ≡ load_outlet fault }
{
    match fault {
        LoadFault::Zone(ZoneFault::NoMemory) => Outlet::Later(RunFault::NoMemory),
        LoadFault::Zone(_) | LoadFault::ReadFailed => Outlet::OnErr,
    }
}

/// Returns the exit status: 0 for help or the version, 1 for running out of memory, and 2 for an error in the
/// arguments.
fn command_status(fault: &CommandFault) -> u8
    ensures { result ≡ (command_stop (shown_fault fault.now)).status }
{
    match fault {
        CommandFault::Help(_) => 0,
        CommandFault::NoMemory => 1,
        _ => 2,
    }
}

/// Returns the exit status for a zone file that can't be loaded: 1 if memory ran out, and otherwise 2.
fn load_status(fault: LoadFault) -> u8
    ensures { result ≡ (load_stop [] fault).status }
{
    match fault {
        LoadFault::ReadFailed => 2,
        LoadFault::Zone(ZoneFault::NoMemory) => 1,
        LoadFault::Zone(_) => 2,
    }
}

/// Returns the exit status for a run that ended early: 1 for each reason.
fn fault_status(fault: RunFault) -> u8
    ensures { result ≡ (fault_stop fault).status }
{
    match fault {
        RunFault::OutFailed | RunFault::ErrFailed | RunFault::NoMemory => 1,
    }
}

/// Writes the report of a stop: its error line or the text of help. Writes nothing if standard error is what failed.
pub fn write_stop<W: Sink>(out: &mut W, stop: &Stop) -> Result<(), WriteFault>
    requires { W.is_failed out.old ≡ false }
    ensures { Puts W.Sink out.old out.new result (stop_text stop.now) }
{
    match stop {
        Stop::Command(fault) => write_command(out, fault),
        Stop::Zones(name, fault) => write_load(out, name.as_str(), *fault),
        Stop::LocalRule => write_own(out, "--local: bad rule"),
        Stop::LocalName => write_own(out, "--local: no such zone"),
        Stop::Clock => write_own(out, "clock out of range"),
        Stop::Open(path) => write_unopened(out, path.as_str()),
        Stop::Run(RunFault::OutFailed) => write_own(out, "output failed"),
        Stop::Run(RunFault::ErrFailed) => Ok(()),
        Stop::Run(RunFault::NoMemory) => write_own(out, "out of memory"),
    }
}

/// Writes the text of help or of a usage error, or the error line for a bad value or for running out of memory.
fn write_command<W: Sink>(out: &mut W, fault: &CommandFault) -> Result<(), WriteFault>
    requires { W.is_failed out.old ≡ false }
    ensures { Puts W.Sink out.old out.new result (command_text (shown_fault fault.now)) }
{
    match fault {
        CommandFault::Usage(text) | CommandFault::Help(text) => put_all(out, text.as_bytes()),
        CommandFault::NoMemory => write_own(out, "out of memory"),
        _ => write_own(out, fault.words()),
    }
}

/// Writes the error line for a zone file that can't be loaded.
fn write_load<W: Sink>(out: &mut W, name: &str, fault: LoadFault) -> Result<(), WriteFault>
    requires { W.is_failed out.old ≡ false }
    ensures { Puts W.Sink out.old out.new result (load_stop name.now fault).err }
{
    match fault {
        LoadFault::Zone(ZoneFault::NoMemory) => write_own(out, "out of memory"),
        _ => write_zones(out, name, fault.words()),
    }
}

/// Writes an error line with this message about the file of the zone `name`, an item of `--zones`.
fn write_zones<W: Sink>(out: &mut W, name: &str, message: &str) -> Result<(), WriteFault>
    requires { W.is_failed out.old ≡ false }
    ensures { Puts W.Sink out.old out.new result (zones_line name.now message.now) }
{
    put_pieces(
        out,
        &[
            b"calendar-analyze: --zones: ",
            name.as_bytes(),
            b": ",
            message.as_bytes(),
            b"\n",
        ],
    )
}

/// Writes the error line for a timer file that can't be opened.
fn write_unopened<W: Sink>(out: &mut W, path: &str) -> Result<(), WriteFault>
    requires { W.is_failed out.old ≡ false }
    ensures { Puts W.Sink out.old out.new result (unopened_line path.now) }
{
    put_pieces(out, &[path.as_bytes(), b": cannot be read\n"])
}

/// Writes an error line that begins with the program's name.
#[tactic(auto, unfolding(crate::specs::rules::Stop::own_line))]
fn write_own<W: Sink>(out: &mut W, message: &str) -> Result<(), WriteFault>
    requires { W.is_failed out.old ≡ false }
    ensures { Puts W.Sink out.old out.new result (own_line message.now) }
{
    put_pieces(out, &[b"calendar-analyze: ", message.as_bytes(), b"\n"])
}

/// Returns the exit status of a run that wrote all its output: 0, or 1 if at least one input was rejected.
pub fn exit_status(status: Status) -> u8
    ensures { result ≡ exit_status status }
{
    match status {
        Status::Fine => 0,
        Status::Refused => 1,
    }
}
