//! Readers and writers that fail: each failure is counted, and what doesn't fail isn't.
use super::*;
use std::io;
use std::test::Fail;

#[derive(Clone, Copy, PartialEq, Eq)]
enum Fault {
    Error,
    TakesNothing,
    Flush,
}

// Fails in its second call.
#[derive(Drop)]
struct FailsOnce {
    fault: Fault,
    calls: u8,
}

impl FailsOnce {
    fn new(fault: Fault) -> FailsOnce {
        FailsOnce { fault, calls: 0 }
    }

    fn fails(&self, fault: Fault) -> bool {
        self.calls == 2 && self.fault == fault
    }
}

impl Read for FailsOnce {
    fn read(&mut self, buf: &mut [u8]) -> io::Result<usize> {
        self.calls = self.calls.saturating_add(1);
        if self.fails(Fault::Error) {
            return Err(io::ErrorKind::Other.into());
        }
        Ok(buf.len().min(1))
    }
}

impl Write for FailsOnce {
    fn write(&mut self, buf: &[u8]) -> io::Result<usize> {
        self.calls = self.calls.saturating_add(1);
        if self.fails(Fault::Error) {
            return Err(io::ErrorKind::Other.into());
        }
        if self.fails(Fault::TakesNothing) {
            return Ok(0);
        }
        Ok(buf.len().min(1))
    }

    fn flush(&mut self) -> io::Result<()> {
        if self.fails(Fault::Flush) {
            return Err(io::ErrorKind::Other.into());
        }
        Ok(())
    }
}

#[test]
fn a_failed_read_is_counted(rt: HostRuntime) {
    let mut input = Input::new(FailsOnce::new(Fault::Error));
    let mut buffer = [0; 4];
    for (answer, faults) in [(Ok(1), 0), (Err(Failed), 1), (Ok(1), 1)] {
        assert_eq!(rt; input.read(&mut buffer), answer);
        assert_eq!(rt; input.faults, faults);
    }
}

#[test]
fn each_failure_of_a_write_is_counted(rt: HostRuntime) -> Result<(), Fail> {
    for fault in [Fault::Error, Fault::TakesNothing, Fault::Flush] {
        let mut output = Output::new(FailsOnce::new(fault));
        for (answer, faults) in [(Ok(1), 0), (Err(SinkError::Failed), 1), (Ok(1), 1)] {
            assert_eq!(rt; output.write(b"line"), answer);
            assert_eq!(rt; output.faults, faults);
        }
        assert_eq!(rt; output.write(b""), Ok(0));
        assert_eq!(rt; output.faults, 1);
    }
    Ok(())
}
