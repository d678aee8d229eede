//! The command line of `hwdb`, as `clap` is given it: one level of subcommands, each shared option declared at both levels. `clap`
//! adds the subcommand `help`. The definition of this command as data is what contracts speak of; help texts are shown by tests.
ghost use Rattle.std.specs.Prelude.{◌≡◌, IfOk};
ghost use Rattle.clap.specs.Simple.{app_of};
ghost use Rattle.hwdb_spec_commands.specs.CommandLine.{hwdb_app, top_app};
ghost use Rattle.hwdb_cli.specs.Drafts.{IsDraft};

use crate::drafts::{Draft, shared, with_command};
use crate::{
    ask, check, device, diff, dump, explain, keys, list, near, query, scan, status, test, update,
    verify,
};
use clap::Command;
use std::alloc::{AllocError, Global};

/// The version, as the file VERSION has it.
const VERSION: &str = "1.0.0";

const ABOUT: &str = "Compiles and queries the hardware database of udev";

const AFTER: &str = "Exit status: 0 on success, 1 on errors.\nExample: hwdb query usb:v1D6Bp0002";

/// `hwdb` without its commands.
fn top_command<'a>(alloc: Global) -> Draft<'a>
    ensures { IsDraft top_app result }
{
    let command = shared(alloc, "hwdb", ABOUT, AFTER)?;
    Ok(command.version(VERSION).subcommand_required(true))
}

/// The whole command.
pub fn hwdb_command<'a>(alloc: Global) -> Result<Command<'a>, AllocError>
    ensures { IfOk result (λ r. app_of r ≡ hwdb_app) }
{
    let update = with_command(top_command(alloc), update::command(alloc));
    let query = with_command(update, query::command(alloc));
    let explain = with_command(query, explain::command(alloc));
    let ask = with_command(explain, ask::command(alloc));
    let list = with_command(ask, list::command(alloc));
    let near = with_command(list, near::command(alloc));
    let device = with_command(near, device::command(alloc));
    let check = with_command(device, check::command(alloc));
    let test = with_command(check, test::command(alloc));
    let diff = with_command(test, diff::command(alloc));
    let verify = with_command(diff, verify::command(alloc));
    let dump = with_command(verify, dump::command(alloc));
    let status = with_command(dump, status::command(alloc));
    let keys = with_command(status, keys::command(alloc));
    with_command(keys, scan::command(alloc))
}
