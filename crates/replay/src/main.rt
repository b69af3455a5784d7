// Replays the source's sample: the operations of the first column of tests/oracle/sample.txt, and writes what it sees. The file `stdout`
// beside this folder is that sample, so what is written is held to the source's answers; tests/oracle/README.md has the format.
#![tactic(auto)]

use crc64::State;
use record_log::{Appended, Handle, Numbers, Refused, SetUp};
use std::io;

// The operations. Each line sets up a new medium.
const SAMPLE: [&str; 12] = [
    "A200200o2nrro00t",
    "Bno1001t31oto010tnnoo",
    "C02or10001onont00n0t2t1n0r",
    "D1t035tt422010251o1n2t20h0005nr",
    "Eh2nn42t12h2oh0to00no02t4nn0t3462nrt",
    "Fn10o6tnt3r03tth512t3nh7o417nt00h71h621to",
    "Gn0noth21oto281rot4n008ot24t046002n0rt51rhtt23",
    "Hh40rtr2nhnn5ootor2onn60t333t1n813n9to4rr4n6h0nrh2n",
    "I4n8ntt023tr6tohn3tth300tt3tt4no6r456r1r2322t4t2:74tot63",
    "Jt42to1nh1t342n78ht2753h1r453;t53trt132t3trt322o4tt11r5;thn5o",
    "K:r44625tohrn70021:1n;42tt3023oto34n0r4tttr1<tr71nr02h710r9ttr0t<h",
    "L0ntorohnr411r8t1n;r2nno=o5rt<nh8n3o;3:=36r=nr235oh28=03ntr<=nto32481or",
];

// The log that is set up, and where the lines about it go. (`log_run` has one of its own: its lines are others.)
#[derive(Drop)]
struct Log<'a, P: Print> {
    rt: &'a P,
    m: &'a mut [u8],
    handle: Handle,
}

impl<P: Print> Log<'_, P> {
    // An answer with its number, the log's head and tail, and the checksum of the medium and of what was read.
    fn answer(&self, letter: char, n: u64, read: &[u8]) -> io::Result<()> {
        let Log { rt, m, handle } = self;
        let sum = State::new().more(m).more(read).end();
        match operations::get_head_and_tail(*handle, m.len() as u64) {
            Ok(Numbers { head, tail, .. }) => println!(rt; "{letter} {n} {head} {tail} {sum:016x}"),
            Err(e) => println!(rt; "{letter} {n} {e} {sum:016x}"),
        }
    }

    fn reopen(&mut self) -> io::Result<()> {
        match operations::start(self.m) {
            Ok(handle) => {
                self.handle = handle;
                self.answer('o', handle.size.saturating_sub(1), &[])
            }
            Err(e) => println!(self.rt; "{e}"),
        }
    }

    // Appends n bytes: the one at position p is 7p + 1.
    fn append(&mut self, n: usize) -> io::Result<()> {
        let mut record = [0; 13];
        let Some(record) = record.get_mut(..n) else {
            return Ok(());
        };
        for (byte, p) in record.iter_mut().zip(self.handle.tail..) {
            *byte = ((p % 256 * 7 + 1) % 256) as u8;
        }
        match operations::append(self.m, self.handle, record) {
            Ok(Appended { position, handle }) => {
                self.handle = handle;
                self.answer('p', position, &[])
            }
            Err(Refused::NoRoom { room }) => self.answer('f', room, &[]),
            Err(e) => println!(self.rt; "{e}"),
        }
    }

    fn advance(&mut self, to: u64) -> io::Result<()> {
        match operations::advance_head(self.m, self.handle, to) {
            Ok(handle) => {
                self.handle = handle;
                self.answer('h', to, &[])
            }
            Err(Refused::BeyondTail { tail }) => self.answer('b', tail, &[]),
            Err(e) => println!(self.rt; "{e}"),
        }
    }

    // Reads from the head to the tail.
    fn read(&self) -> io::Result<()> {
        let Handle { head, tail, .. } = self.handle;
        let n = tail.saturating_sub(head);
        let mut out = [0; 12];
        let Some(out) = out.get_mut(..n as usize) else {
            return Ok(());
        };
        match operations::read(self.m, self.handle, head, out) {
            Ok(()) => self.answer('r', n, out),
            Err(e) => println!(self.rt; "{e}"),
        }
    }

    fn operate(&mut self, op: u8) -> io::Result<()> {
        let Handle { head, tail, .. } = self.handle;
        match op {
            b'0'..=b'=' => self.append((op - b'0') as usize),
            b'h' => self.advance(head),
            b'n' => self.advance(head.wrapping_add(1)),
            b't' => self.advance(tail),
            b'o' => self.reopen(),
            b'r' => self.read(),
            _ => Ok(()),
        }
    }
}

// Operations on a new medium, whose ring the first sets up.
fn replay(rt: &impl Print, ops: &[u8]) -> io::Result<()> {
    let [first @ b'A'..=b'L', rest @ ..] = ops else {
        return Ok(());
    };
    // byte number i is i
    let mut m = [0; 84];
    for (byte, i) in m.iter_mut().zip(0u8..) {
        *byte = i;
    }
    let m = &mut m[..73 + (first - b'A') as usize];
    let Ok(SetUp { capacity, .. }) = operations::setup(m) else {
        return Ok(());
    };
    let Ok(handle) = operations::start(m) else {
        return Ok(());
    };
    let mut log = Log { rt, m, handle };
    print!(rt; "{} ", *first as char)?;
    log.answer('c', capacity, &[])?;
    for &op in rest {
        print!(rt; "{} ", op as char)?;
        log.operate(op)?;
    }
    Ok(())
}

fn main(rt: HostRuntime) -> io::Result<()> {
    for ops in SAMPLE {
        replay(&rt, ops.as_bytes())?;
    }
    Ok(())
}
