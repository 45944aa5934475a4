//! `run` on devices that move one byte a call and fail at a call, which no run of the program can show for each call,
//! and on readers and writers by the traits of the standard library that fail at one call alone.

ghost use Rattle.reg_front.specs.Faulting.{sink_of, source_of};
ghost use Rattle.reg_front.specs.Streams.{CanFail};

use reg_base::AccountNo;
use reg_front::{Command, Counted, Faulty, FrontFault, run, tell_fault};
use std::alloc::Global;
use std::io;
use std::io::{Read, Write};
use std::process::Abort;
use std::sync::Wait;
use std::thread::Threads;

// A day of five accounts, of which the first transfers 40 allowances to the second.
const DAY: &str = "\
format,1
day,2025-03-31,1
period,2021,2030
lags,0,1,1,2
surrender,operator,general
surrender,aircraft,general
surrender,aircraft,aviation
admin,901
admin,902
work,2025-03-31
work,2025-04-01
work,2025-04-02
work,2025-04-03
work,2025-04-04
account,1,operator,11,open,no,no,0,100,0
user,101,propose
user,102,approve
trusted,2,2025-03-03
account,2,trading,12,open,no,no,0,0,0
user,201,both
user,202,both
trusted,1,2025-03-03
account,3,aircraft,13,open,no,no,0,0,50
user,301,propose
user,302,approve
account,8,allocation,1,open,no,no,0,0,0
account,9,total,1,open,no,no,0,0,0
do,2025-03-31,101,102,transfer,1,2,general,40
end
";

// What that day gives.
const REPORT: &str = "\
log,1,2025-03-31,2025-03-31,101,102,transfer,1,2,general,40,done,,1,60,0,2,40,0
book,2
account,1,operator,11,open,no,no,0,60,0
user,101,propose
user,102,approve
trusted,2,2025-03-03
account,2,trading,12,open,no,no,0,40,0
user,201,both
user,202,both
trusted,1,2025-03-03
account,3,aircraft,13,open,no,no,0,0,50
user,301,propose
user,302,approve
account,8,allocation,1,open,no,no,0,0,0
account,9,total,1,open,no,no,0,0,0
totals,general,100,0,0
totals,aviation,50,0,0
end
";

// What account 1 held before that day, its log row, and what it holds after.
const STATEMENT: &str = "\
opening,1,100,0
log,1,2025-03-31,2025-03-31,101,102,transfer,1,2,general,40,done,,1,60,0,2,40,0
closing,1,60,0
end
";

// Its plan.
const PLAN: &str = "task,1,1\nend\n";

// The totals after it.
const TOTALS: &str = "totals,general,100,0,0\ntotals,aviation,50,0,0\nend\n";

// A device that has these bytes to read, moves one byte in a call, and fails at this call, counted from 1, or never if
// it is 0.
fn make_device<A: Abort>(rt: &A, alloc: Global, text: &str, call: usize) -> Faulty
    ensures reader { CanFail (source_of result) }
    ensures writer { CanFail (sink_of result) }
{
    let mut bytes = Vec::new(alloc);
    bytes
        .extend_from_slice(text.as_bytes())
        .expect(rt, "memory for a text");
    Faulty::new(alloc, bytes, 1, call)
}

// What settling the day answers, and the writer. The reader and the writer fail at these calls, as `make_device` says.
fn settle<T: Threads + Wait + Sync + Abort>(
    rt: &T,
    alloc: Global,
    workers: u32,
    calls: [usize; 2],
) -> (Result<(), FrontFault>, Faulty) {
    let [read_call, write_call] = calls;
    let mut reader = make_device(rt, alloc, DAY, read_call);
    let mut writer = make_device(rt, alloc, "", write_call);
    let command = Command::Settle { workers };
    let answer = run(rt, alloc, &mut reader, &mut writer, command);
    (answer, writer)
}

// The first call that would fail comes right behind those that are needed.
#[test]
fn moves_a_text_byte_by_byte_for_each_number_of_workers(rt: HostRuntime) {
    let behind = [DAY.len() + 2, REPORT.len() + 2];
    for workers in 1..9 {
        let (answer, writer) = settle(&rt, rt.alloc(), workers, behind);
        assert_eq!(rt; answer, Ok(()), "{workers} workers");
        assert_eq!(rt; writer.written(), REPORT.as_bytes(), "{workers} workers");
    }
}

// One call more than there are bytes finds the end.
#[test]
fn reports_each_failed_read(rt: HostRuntime) {
    for call in 1..DAY.len() + 2 {
        let (answer, writer) = settle(&rt, rt.alloc(), 4, [call, 0]);
        assert_eq!(rt; answer, Err(FrontFault::Read), "at call {call}");
        assert!(rt; writer.written().is_empty(), "at call {call}");
    }
}

// One call more than there are bytes flushes the writer.
#[test]
fn reports_each_failed_write(rt: HostRuntime) {
    for call in 1..REPORT.len() + 2 {
        let (answer, writer) = settle(&rt, rt.alloc(), 4, [0, call]);
        assert_eq!(rt; answer, Err(FrontFault::WriteFailed), "at call {call}");
        assert_eq!(rt; writer.written(), &REPORT.as_bytes()[..call - 1]);
    }
}

// Takes every byte, and fails to hand them on at its first flush alone.
#[derive(Drop)]
struct Clogged {
    taken: usize,
    flushes: usize,
}

impl Write for Clogged {
    fn write(&mut self, buf: &[u8]) -> io::Result<usize> {
        self.taken = self.taken.saturating_add(buf.len());
        Ok(buf.len())
    }

    fn flush(&mut self) -> io::Result<()> {
        self.flushes = self.flushes.saturating_add(1);
        if self.flushes > 1 {
            return Ok(());
        }
        Err(io::Error::from(io::ErrorKind::Other))
    }
}

// A flush that failed is not tried again.
#[test]
fn reports_a_writer_of_which_the_flush_alone_fails(rt: HostRuntime) {
    let mut clogged = Clogged {
        taken: 0,
        flushes: 0,
    };
    let mut reader = Counted::new(DAY.as_bytes());
    let answer = run(
        &rt,
        rt.alloc(),
        &mut reader,
        &mut Counted::new(&mut clogged),
        Command::Plan,
    );
    assert_eq!(rt; answer, Err(FrontFault::WriteFailed));
    assert_eq!(rt; clogged.taken, PLAN.len());
}

#[test]
fn hands_on_the_line_of_a_fault(rt: HostRuntime) {
    let mut clogged = Clogged {
        taken: 0,
        flushes: 0,
    };
    tell_fault(FrontFault::Read, &mut Counted::new(&mut clogged));
    assert_eq!(rt; clogged.taken, "read failed\n".len());
    assert_eq!(rt; clogged.flushes, 1);
}

// Takes every byte, and hands on none before it is flushed.
#[derive(Drop)]
struct Keeping {
    taken: usize,
    handed_on: usize,
}

impl Write for Keeping {
    fn write(&mut self, buf: &[u8]) -> io::Result<usize> {
        self.taken = self.taken.saturating_add(buf.len());
        Ok(buf.len())
    }

    fn flush(&mut self) -> io::Result<()> {
        self.handed_on = self.taken;
        Ok(())
    }
}

// How many bytes of the text of a command are handed on when it has ended.
fn handed_on<T: Threads + Wait + Sync + Abort>(rt: &T, alloc: Global, command: Command) -> usize {
    let mut keeping = Keeping {
        taken: 0,
        handed_on: 0,
    };
    let mut reader = Counted::new(DAY.as_bytes());
    let mut writer = Counted::new(&mut keeping);
    run(rt, alloc, &mut reader, &mut writer, command).expect(rt, "a text that is taken");
    keeping.handed_on
}

#[test]
fn hands_on_the_whole_text_of_each_command(rt: HostRuntime) {
    let account = AccountNo::new(1).expect(&rt, "a number within its limits");
    for (command, text) in [
        (Command::Settle { workers: 1 }, REPORT),
        (Command::Settle { workers: 4 }, REPORT),
        (Command::Plan, PLAN),
        (Command::Statement { account }, STATEMENT),
        (Command::Figures, "end\n"),
        (Command::Totals, TOTALS),
    ] {
        assert_eq!(rt;
            handed_on(&rt, rt.alloc(), command),
            text.len(),
            "{command:?}"
        );
    }
}

// A reader at its end and a writer, of which the first call alone fails, as one that a signal interrupts.
#[derive(Drop)]
struct Stumbling {
    has_failed: bool,
}

impl Stumbling {
    fn step(&mut self) -> io::Result<()> {
        if self.has_failed {
            return Ok(());
        }
        self.has_failed = true;
        Err(io::Error::from(io::ErrorKind::Interrupted))
    }
}

impl Read for Stumbling {
    fn read(&mut self, _buf: &mut [u8]) -> io::Result<usize> {
        self.step()?;
        Ok(0)
    }
}

impl Write for Stumbling {
    fn write(&mut self, buf: &[u8]) -> io::Result<usize> {
        self.step()?;
        Ok(buf.len())
    }

    fn flush(&mut self) -> io::Result<()> {
        self.step()
    }
}

#[test]
fn tries_no_failed_read_again(rt: HostRuntime) {
    let mut reader = Counted::new(Stumbling { has_failed: false });
    let mut writer = make_device(&rt, rt.alloc(), "", 0);
    let answer = run(&rt, rt.alloc(), &mut reader, &mut writer, Command::Plan);
    assert_eq!(rt; answer, Err(FrontFault::Read));
}

#[test]
fn tries_no_failed_write_again(rt: HostRuntime) {
    let mut reader = Counted::new(DAY.as_bytes());
    let mut writer = Counted::new(Stumbling { has_failed: false });
    let answer = run(&rt, rt.alloc(), &mut reader, &mut writer, Command::Plan);
    assert_eq!(rt; answer, Err(FrontFault::WriteFailed));
}
