//! What standard input is, as the system tells.
ghost use Rattle.std.specs.Prelude.{◌≡◌, ◌↔◌, IsTrue};

use command::Given;
use std::fs;
use std::os::unix::fs::FileTypeExt;
use std::rt::Files;

/// The path by which the system tells of standard input: std tells what a file is by its path alone.
const PATH: &str = "/dev/stdin";

/// What standard input is; closed too where the system has no such path.
pub fn given(files: &impl Files, is_terminal: bool) -> Given
    ensures { IsTrue is_terminal ↔ (result ≡ Given.Terminal) }
{
    if is_terminal {
        return Given::Terminal;
    }
    let Ok(metadata) = fs::metadata(files, PATH) else {
        return Given::Closed;
    };
    let kind = metadata.file_type();
    if kind.is_fifo() || kind.is_socket() {
        Given::Pipe
    } else if kind.is_char_device() {
        Given::Device
    } else {
        Given::File
    }
}
