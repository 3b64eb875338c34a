//! Pieces of the input, each asked for until it is whole.

ghost use Rattle.std.specs.Prelude.{◌≤◌, length, take};
ghost use Rattle.std.specs.Io.KnownBytes.{Consumes};
ghost use Rattle.awari_streams.specs.Counted.{inner_of, faults_of};
ghost use Rattle.awari_file.specs.FileText.{IsBytes};
ghost use Rattle.awari_file.specs.Source.{EndsFor};

use crate::faults::FileFault;
use awari_streams::Counted;
use std::io::Read;

/// How many bytes came, and why there are no more if they are fewer than were asked for.
#[derive(Clone, Copy)]
pub(crate) struct Came {
    pub count: usize,
    pub short: FileFault,
}

/// Reads until that many bytes are there, the input ends or the reader answers a fault.
pub(crate) fn fill<R: Read>(reader: &mut Counted<R>, buf: &mut [u8], wanted: usize) -> Came
    requires { wanted ≤ length buf.old }
    ensures count { result.count ≤ wanted }
    ensures bytes { Consumes (R.remaining (inner_of reader.old)) (R.remaining (inner_of reader.new)) (take result.count buf.new) }
    ensures ends { EndsFor result.short result.count wanted (R.remaining (inner_of reader.new)) (faults_of reader.old) (faults_of reader.new) }
    ensures range { IsBytes buf.new }
{
    let mut count = 0;
    while count < wanted {
        match reader.read(&mut buf[count..wanted]) {
            Ok(0) => {
                return Came {
                    count,
                    short: FileFault::Truncated,
                };
            }
            Ok(n) => count += n,
            Err(_) => {
                return Came {
                    count,
                    short: FileFault::Read,
                };
            }
        }
    }
    Came {
        count,
        short: FileFault::Truncated,
    }
}
