// Runs the log: document 01's run (section 5), rings of 1, 2, 10 and 65,537 bytes, positions near the last, and media that must be refused.
// What it writes is held to the file `stdout` beside this folder, which was gone through by hand with document 01's rules.
#![tactic(auto)]

use record_log::{Appended, Handle, SetUp};
use std::io;

// The selector of the first header, by the format and not by the code that is looked at here.
const FIRST: u64 = 0xa328_42d1_9001_605e;

const LAST: u64 = u64::MAX;

// A log that is open. Each operation writes a line; where it is refused, the handle stays. (`replay` has one of its own, which writes other lines.)
#[derive(Drop)]
struct Log<'a, P: Print> {
    rt: &'a P,
    m: &'a mut [u8],
    handle: Handle,
}

impl<'a, P: Print> Log<'a, P> {
    fn set_up(rt: &'a P, m: &'a mut [u8]) -> io::Result<Option<Log<'a, P>>> {
        match operations::setup(m) {
            Ok(SetUp { capacity, handle }) => {
                println!(rt; "set up {capacity}")?;
                Ok(Some(Log { rt, m, handle }))
            }
            Err(e) => {
                println!(rt; "set up {e}")?;
                Ok(None)
            }
        }
    }

    fn open(rt: &'a P, m: &'a mut [u8]) -> io::Result<Option<Log<'a, P>>> {
        match operations::start(m) {
            Ok(handle) => {
                println!(rt; "open {handle}")?;
                Ok(Some(Log { rt, m, handle }))
            }
            Err(e) => {
                println!(rt; "open {e}")?;
                Ok(None)
            }
        }
    }

    fn append(&mut self, bytes: &[u8]) -> io::Result<()> {
        let n = bytes.len();
        match operations::append(self.m, self.handle, bytes) {
            Ok(Appended { position, handle }) => {
                self.handle = handle;
                println!(self.rt; "append {n} at {position}")
            }
            Err(e) => println!(self.rt; "append {n} {e}"),
        }
    }

    fn advance(&mut self, p: u64) -> io::Result<()> {
        match operations::advance_head(self.m, self.handle, p) {
            Ok(handle) => {
                self.handle = handle;
                println!(self.rt; "advance {p}")
            }
            Err(e) => println!(self.rt; "advance {p} {e}"),
        }
    }

    fn read(&self, p: u64, out: &mut [u8]) -> io::Result<()> {
        let n = out.len();
        match operations::read(self.m, self.handle, p, out) {
            Ok(()) => {
                print!(self.rt; "read {n} from {p} ")?;
                self.rt.write_all(out)?;
                println!(self.rt)
            }
            Err(e) => println!(self.rt; "read {n} from {p} {e}"),
        }
    }

    fn ask(&self) -> io::Result<()> {
        match operations::get_head_and_tail(self.handle, self.m.len() as u64) {
            Ok(n) => println!(self.rt; "ask {} {} {}", n.head, n.tail, n.capacity),
            Err(e) => println!(self.rt; "ask {e}"),
        }
    }
}

// Document 01, section 5.
fn document_run(rt: &impl Print) -> io::Result<()> {
    println!(rt; "-- the run of document 01")?;
    let mut m = [0; 82];
    let Some(mut log) = Log::set_up(rt, &mut m)? else {
        return Ok(());
    };
    log.append(b"abcdef")?;
    log.append(b"ghij")?;
    log.advance(5)?;
    log.append(b"ghijklm")?;
    log.read(5, &mut [0; 8])?;
    print!(rt; "stored ")?;
    if let Some(ring) = log.m.get(72..82) {
        rt.write_all(&ring[6..])?;
        rt.write_all(&ring[..3])?;
    }
    println!(rt)?;
    log.append(b"no")?;
    log.ask()?;
    Log::open(rt, &mut m)?;
    Ok(())
}

// What every ring must do, of whatever size. (Of these two the `Log` is made.)
fn tour(rt: &impl Print, m: &mut [u8]) -> io::Result<()> {
    println!(rt; "-- a medium of {}", m.len())?;
    let Some(mut log) = Log::set_up(rt, m)? else {
        return Ok(());
    };
    log.append(b"x")?;
    log.append(b"")?;
    // a name of its own: `log.advance(log.handle.tail)` is not proved
    let tail = log.handle.tail;
    log.advance(tail)?;
    log.append(b"y")?;
    let tail = log.handle.tail;
    log.advance(tail)?;
    log.append(b"zz")?;
    log.read(log.handle.head, &mut [0; 1])?;
    log.read(LAST, &mut [0; 1])?;
    log.ask()?;
    Log::open(rt, m)?;
    // a handle of zeros is no log's
    let handle = Handle {
        second: false,
        head: 0,
        tail: 0,
        size: 0,
    };
    Log { rt, m, handle }.ask()
}

// A first header of these numbers, and the selector that says that it is live. (Numbers that are right or not, in the order of the format.)
fn header(m: &mut [u8], sum: u64, head: u64, tail: u64, size: u64) {
    carrier::put_numbers(m, 0, [FIRST]);
    carrier::put_numbers(m, 8, [sum, head, tail, size]);
}

// The same with the checksum that is right.
fn craft(m: &mut [u8], head: u64, tail: u64, size: u64) {
    let content = [head, tail, size].map(u64::to_le_bytes);
    let sum = crc64::crc64(content.as_flattened());
    header(m, sum, head, tail, size);
}

// Media that the source's `start` takes for logs.
fn not_logs(rt: &impl Print) -> io::Result<()> {
    println!(rt; "-- right checksums, and no log")?;
    let mut m = [0; 73];
    for [head, tail, size] in [[0, 0, 0], [1, 0, 1], [0, 1, 1], [1, 1, 2]] {
        craft(&mut m, head, tail, size);
        Log::open(rt, &mut m)?;
    }
    Ok(())
}

// Positions near the last one.
fn last_positions(rt: &impl Print) -> io::Result<()> {
    println!(rt; "-- near the last position")?;
    let mut m = [0; 82];
    craft(&mut m, LAST - 3, LAST - 2, 10);
    if let Some(mut log) = Log::open(rt, &mut m)? {
        log.append(b"abc")?;
        log.append(b"ab")?;
        log.append(b"c")?;
        log.append(b"")?;
        log.read(LAST - 2, &mut [0; 2])?;
        log.read(LAST, &mut [0; 2])?;
        log.advance(LAST)?;
        log.ask()?;
    }
    let mut m = [0; 73];
    craft(&mut m, LAST - 1, LAST - 1, 1);
    if let Some(mut log) = Log::open(rt, &mut m)? {
        log.append(b"ab")?;
    }
    Ok(())
}

// Lengths, damage, and a cut set-up.
fn damage(rt: &impl Print) -> io::Result<()> {
    println!(rt; "-- short, damaged")?;
    let mut m = [0; 74];
    for n in [0, 71, 72, 74] {
        Log::open(rt, &mut m[..n])?;
    }
    Log::set_up(rt, &mut [0; 72])?;
    // the checksum of head 0, beside another head and beside 0
    let sum = crc64_fast::crc64_words(0, 1, 2);
    header(&mut m, sum, 256, 1, 2);
    Log::open(rt, &mut m)?;
    header(&mut m, sum, 0, 1, 2);
    Log::open(rt, &mut m)?;
    Ok(())
}

// Document 01's header of 28 flipped bits: the checksum is right, the test of head against tail refuses it.
fn twenty_eight(rt: &impl Print) -> io::Result<()> {
    let mut m = [0; 4096];
    craft(&mut m, 0, 100, 4024);
    Log::open(rt, &mut m)?;
    header(&mut m, 0x8eb6_c6d6_48f4_39d5, 1679, 100, 4024);
    Log::open(rt, &mut m)?;
    Ok(())
}

fn main(rt: HostRuntime) -> io::Result<()> {
    document_run(&rt)?;
    tour(&rt, &mut [0; 73])?;
    tour(&rt, &mut [0; 74])?;
    tour(&rt, &mut [0; 82])?;
    tour(&rt, &mut [0; 65609])?;
    not_logs(&rt)?;
    last_positions(&rt)?;
    damage(&rt)?;
    twenty_eight(&rt)
}
