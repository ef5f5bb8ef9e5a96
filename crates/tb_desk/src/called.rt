//! One file with two names, as `vi` and `view` are: called `deskview` it shows what a desk holds. By any other name it
//! is `treedesk`.

ghost use Rattle.std.specs.Prelude.{◌≡◌, ◌↔◌, codes, IfErr, IfOk, IsTrue, map, Some, string_bytes};
ghost use Rattle.std.specs.IoError.{error_kind};
ghost use Rattle.std.specs.Path.{path_file_name};
ghost use Rattle.std.specs.Process.{exit_status};
ghost use Rattle.tb_desk.specs.Programs.{DoesWords, IsCalled, IsExitWith, IsExitWithout, ShowsWords};

use crate::programs::run_program;
use crate::viewing::{DESKVIEW, Deskview};
use crate::words::Treedesk;
use std::env::Env;
use std::path::Path;
use std::process::ExitCode;
use std::{io, str};

/// The length of the longest path, in bytes.
const PATH_MAX: usize = 4_096;

/// Whether a path leads to a file of this name.
fn is_path_to(path: &str, name: &str) -> bool
    ensures { IsTrue result ↔ path_file_name path.now ≡ Some name.now }
{
    Path::new(path).file_name() == Some(name)
}

/// Whether the system's first word is such a path.
fn is_first_word(rt: &HostRuntime, name: &str) -> bool {
    let mut room = [0; PATH_MAX];
    match rt.arg(0, &mut room) {
        Ok(len) => str::from_utf8(&room[..len]).is_ok_and(|path| is_path_to(path, name)),
        Err(_) => false,
    }
}

/// Whether these words call the program so.
fn is_called(words: &[String], name: &str) -> bool
    ensures { IsTrue result ↔ IsCalled name.now (map string_bytes words.now) }
{
    match words.first() {
        Some(path) => is_path_to(path.as_str(), name),
        None => false,
    }
}

/// Whether the program is called `deskview`. Where a word is no text, the system is asked for the first alone.
fn is_deskview(rt: &HostRuntime, words: &io::Result<Vec<String>>) -> bool
    ensures { IfOk words.now (λ given. IsTrue result ↔ IsCalled (codes "deskview") (map string_bytes given.items)) }
{
    match words {
        Ok(given) => is_called(given.as_slice(), DESKVIEW),
        Err(_) => is_first_word(rt, DESKVIEW),
    }
}

/// Runs the program that its words call, on its standard streams, and returns its exit status.
pub fn run_called(rt: &HostRuntime, words: io::Result<Vec<String>>) -> ExitCode
    ensures shows { IfOk words (λ given. IsCalled (codes "deskview") (map string_bytes given.items)
        → IsExitWith ShowsWords (map string_bytes given.items) (exit_status result)) }
    ensures does { IfOk words (λ given. (¬ IsCalled (codes "deskview") (map string_bytes given.items))
        → IsExitWith DoesWords (map string_bytes given.items) (exit_status result)) }
    ensures without { IfErr words (λ e. IsExitWithout (error_kind e) (exit_status result)) }
{
    if is_deskview(rt, &words) {
        run_program(rt, &Deskview, words)
    } else {
        run_program(rt, &Treedesk, words)
    }
}
