// The words that the program is called with.
ghost use Rattle.std.specs.Prelude.{◌≡◌, ◌≢◌};
ghost use Rattle.std.specs.IoError.{error_kind};

use sn_status::Status;
use std::io;
use std::io::ErrorKind;

/// The words behind the program's name.
pub fn arguments(rt: &HostRuntime) -> io::Result<Vec<String>> {
    let words = std::env::args(rt)?.skip(1).collect(rt.alloc())?;
    Ok(words)
}

/// The status where the words can't be had: a word that isn't UTF-8 is invalid data, and a faulty command line.
pub fn status_without_words(error: &io::Error) -> Status
    ensures usage { error_kind error.now ≡ ErrorKind.InvalidData → result ≡ Status.Usage }
    ensures memory { error_kind error.now ≢ ErrorKind.InvalidData → result ≡ Status.Memory }
{
    match error.kind() {
        ErrorKind::InvalidData => Status::Usage,
        _ => Status::Memory,
    }
}
