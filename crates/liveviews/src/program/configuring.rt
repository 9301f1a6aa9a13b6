//! Reads a configuration, and opens its session.

ghost use Rattle.liveviews.specs.Check.{ChecksFile, MeansConfig, RefusesConfig};
ghost use Rattle.liveviews.specs.Program.{IsNoConfig, IsRefused};
ghost use Rattle.std.specs.Prelude.{◌≡◌, IfErr, IfOk, length};
ghost use Rattle.view_lang.specs.ConfigRules.{IsConfig};

use crate::files::Files;
use crate::program::opening::read_file;
use crate::program::outcome::Refusal;
use session::Session;
use std::alloc::Global;
use std::fmt;
use values::Cause;
use view_config::{FaultLocation, find_fault, read_config};
use view_lang::Config;

/// Reads a configuration from the bytes of a file. The error is the cause of a fault of the text, `NotToml` also for
/// bytes that aren't UTF-8, or `Memory`.
fn parse_config(alloc: Global, bytes: &[u8]) -> Result<Config, Cause>
    ensures means { IfOk result (MeansConfig bytes.now) }
    ensures rules { IfOk result IsConfig }
    ensures refused { IfErr result (RefusesConfig bytes.now) }
{
    let Ok(text) = str::from_utf8(bytes) else {
        return Err(Cause::NotToml);
    };
    Ok(read_config(alloc, text)?)
}

/// Why the configuration in the file at `path` is refused, and where in it.
#[derive(Debug, Drop)]
struct Explained<'a> {
    path: &'a str,
    place: Option<FaultLocation>,
    cause: Cause,
}

impl fmt::Display for Explained<'_> {
    fn fmt<W: fmt::Write>(&self, f: &mut fmt::Formatter<W>) -> fmt::Result {
        write!(f, "{}: ", self.path)?;
        if let Some(place) = &self.place {
            write!(f, "{place}: ")?;
        }
        write!(f, "{}", self.cause)
    }
}

/// Reports where in the configuration in the file at `path`, whose bytes these are, the refused part is, and what the
/// cause says.
fn explain<F: Files>(alloc: Global, path: &str, bytes: &[u8], cause: Cause, files: &mut F)
    ensures sunk { F.sunk files.new ≡ F.sunk files.old }
    ensures content { F.content files.new ≡ F.content files.old }
{
    let place = match str::from_utf8(bytes) {
        Ok(text) => find_fault(alloc, text).unwrap_or(None),
        Err(_) => None,
    };
    files.remark(Explained { path, place, cause });
}

/// Reads the configuration at `path`. Where it is refused, where and why is reported through the files.
pub(crate) fn read_config_file<'a, F: Files>(
    alloc: Global,
    path: &'a str,
    files: &mut F,
) -> Result<Config, Refusal<'a>>
    ensures sunk { F.sunk files.new ≡ F.sunk files.old }
    ensures means { IfOk result (λ c. ChecksFile (F.content files.old path.now) (length c.feeds) (length c.views)) }
    ensures rules { IfOk result IsConfig }
    ensures refused { IfErr result (IsNoConfig (F.content files.old path.now)) }
{
    let bytes = read_file(path, files)?;
    match parse_config(alloc, &bytes) {
        Ok(config) => Ok(config),
        Err(cause) => {
            explain(alloc, path, &bytes, cause, files);
            Err(Refusal::Refused(cause))
        }
    }
}

/// Opens the session of the configuration at `config`.
pub(crate) fn open_session<'a, F: Files>(
    alloc: Global,
    config: &'a str,
    files: &mut F,
) -> Result<Session, Refusal<'a>>
    ensures sunk { F.sunk files.new ≡ F.sunk files.old }
    ensures refused { IfErr result IsRefused }
{
    let config = read_config_file(alloc, config, files)?;
    Ok(Session::open(alloc, config)?)
}
