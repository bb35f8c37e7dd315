// Where a program reads and where it writes. The first read or write that fails is kept for the program's end: from then on the input counts as ended, and
// nothing more is written. So what was written up to a failure is never followed by what should stand further on.
#![tactic(auto)]

ghost use Rattle.std.specs.Prelude.{◌≡◌, ◌<◌, ◌≤◌, IsOk, OnOk, length, take};
ghost use Rattle.std.specs.Io.KnownBytes.{Appends, Consumes, IsAtEnd};

use std::io;
use std::io::{Read, Write};

#[derive(Drop)]
pub struct Streams<R, W> {
    pub from: R,
    pub to: W,
    pub failed: io::Result<()>,
}

impl<R: Read, W: Write> Streams<R, W> {
    pub fn new(from: R, to: W) -> Streams<R, W>
        ensures from { result.from ≡ from }
        ensures to { result.to ≡ to }
        ensures failed { IsOk result.failed }
    {
        Streams {
            from,
            to,
            failed: Ok(()),
        }
    }

    // Reads what there is, and returns how many octets that were; none at the input's end, and once a call has failed.
    pub fn read(&mut self, buf: &mut [u8]) -> usize
        ensures within { result ≤ length buf.new }
        ensures to { self.new.to ≡ self.old.to }
        ensures octets { OnOk self.new.failed (Consumes (R.remaining self.old.from) (R.remaining self.new.from) (take result buf.new)) }
        ensures end { OnOk self.new.failed (result ≡ 0 → 0 < length buf.new → IsAtEnd (R.remaining self.new.from)) }
        ensures kept { OnOk self.new.failed (IsOk self.old.failed) }
    {
        if self.failed.is_err() {
            return 0;
        }
        match self.from.read(buf) {
            Ok(n) => n,
            Err(e) => {
                self.failed = Err(e);
                0
            }
        }
    }

    // Reads until `buf` is full or the input ends, and returns how many octets that were.
    pub fn read_full(&mut self, buf: &mut [u8]) -> usize
        ensures within { result ≤ length buf.new }
        ensures to { self.new.to ≡ self.old.to }
        ensures octets { OnOk self.new.failed (Consumes (R.remaining self.old.from) (R.remaining self.new.from) (take result buf.new)) }
        ensures end { OnOk self.new.failed (result < length buf.new → IsAtEnd (R.remaining self.new.from)) }
        ensures kept { OnOk self.new.failed (IsOk self.old.failed) }
    {
        let mut done = 0;
        // no `for`: each read says how many octets it took
        while done < buf.len() {
            let n = self.read(&mut buf[done..]);
            if n == 0 {
                break;
            }
            done += n;
        }
        done
    }

    // Writes all of `octets`, unless a call has failed.
    pub fn write(&mut self, octets: &[u8])
        ensures from { self.new.from ≡ self.old.from }
        ensures octets { OnOk self.new.failed (Appends (W.contents self.old.to) (W.contents self.new.to) octets.now) }
        ensures kept { OnOk self.new.failed (IsOk self.old.failed) }
    {
        if self.failed.is_err() {
            return;
        }
        self.failed = self.to.write_all(octets);
    }

    // Hands back whether all that was asked for was read and written, else what failed first.
    pub fn finish(self) -> io::Result<()>
    where
        R: Drop,
        W: Drop,
        ensures { result ≡ self.failed }
    {
        let Streams {
            from: _,
            to: _,
            failed,
        } = self;
        failed
    }
}
