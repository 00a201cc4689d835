// What no clause says: the text of an answer; and that a read or a write that fails in the middle is told, where a failed read leaves nothing written.
use super::*;

const WHOLE_CASE: &[u8] =
    b"height width levels quota\n4 4 1 0\nsamples\n7 7 7 7\n7 7 7 7\n7 7 7 7\n7 7 7 7\n";

const ITS_SHEET: &[u8] =
    b"height width levels\n4 4 1\nlevel row col cover\n1 0 0 1\nlevel band row col value\n1 0 0 0 28\n1 0 1 0 28\n1 0 0 1 28\n1 0 1 1 28\n";

// Gives or takes one byte at a time, so many times, and then fails.
#[derive(Drop)]
struct Failing {
    left: usize,
}

impl Read for Failing {
    fn read(&mut self, buf: &mut [u8]) -> io::Result<usize> {
        if buf.is_empty() {
            return Ok(0);
        }
        if self.left == 0 {
            return Err(io::Error::other("no more reads"));
        }
        self.left -= 1;
        buf[0] = b'7';
        Ok(1)
    }
}

impl Write for Failing {
    fn write(&mut self, buf: &[u8]) -> io::Result<usize> {
        if buf.is_empty() {
            return Ok(0);
        }
        if self.left == 0 {
            return Err(io::Error::other("no more writes"));
        }
        self.left -= 1;
        Ok(1)
    }

    fn flush(&mut self) -> io::Result<()> {
        Ok(())
    }
}

#[test]
fn whole_case_is_cut(rt: HostRuntime) -> io::Result<()> {
    let mut out = Vec::new(rt.alloc());
    let mut input = WHOLE_CASE;
    run(&mut input, &mut out)?;
    assert!(rt; out.as_slice() == ITS_SHEET);
    Ok(())
}

#[test]
fn failed_read_writes_nothing(rt: HostRuntime) {
    let mut out = Vec::new(rt.alloc());
    let mut input = Failing { left: 3 };
    assert!(rt; run(&mut input, &mut out).is_err());
    assert!(rt; out.is_empty());
}

#[test]
fn failed_write_is_told(rt: HostRuntime) {
    let mut input = WHOLE_CASE;
    let mut out = Failing { left: 3 };
    assert!(rt; run(&mut input, &mut out).is_err());
}
