// Writes a line for each vector: its name and its checksum. The file `stdout` beside this folder is what liblzma gives for the same bytes:
// tests/vectors/make_vectors.c wrote it, and says how.
#![tactic(auto)]

use crc64::State;
use std::io;

// Two forms of line, each written in several places.
fn line(rt: &impl Print, name: &str, sum: u64) -> io::Result<()> {
    println!(rt; "{name} {sum:016x}")
}

fn counted(rt: &impl Print, name: &str, count: usize, sum: u64) -> io::Result<()> {
    println!(rt; "{name} {count} {sum:016x}")
}

// The fast form has the same contract. That the compiled code agrees too is looked at here: where it does not, a line says so.
fn agree(rt: &impl Print, plain: u64, fast: u64) -> io::Result<()> {
    if plain != fast {
        line(rt, "the fast form differs:", fast)?;
    }
    Ok(())
}

fn texts(rt: &impl Print) -> io::Result<()> {
    let texts = [
        ("empty", ""),
        ("check", "123456789"),
        ("text 0", "0"),
        ("text 1", "1"),
        ("a", "a"),
        ("alphabet", "abcdefghijklmnopqrstuvwxyz"),
        ("fox", "The quick brown fox jumps over the lazy dog"),
    ];
    for (name, text) in texts {
        let sum = crc64::crc64(text.as_bytes());
        line(rt, name, sum)?;
        agree(rt, sum, crc64_fast::crc64(text.as_bytes()))?;
    }
    Ok(())
}

// Headers of a log: head, tail and size.
fn headers(rt: &impl Print) -> io::Result<()> {
    for [head, tail, size] in [[0u64, 0, 4024], [0, 100, 4024], [0, 0, 1]] {
        let words = [head, tail, size].map(u64::to_le_bytes);
        let h = words.as_flattened();
        let sum = crc64::crc64(h);
        println!(rt; "header {head} {tail} {size} {sum:016x}")?;
        agree(rt, sum, crc64_fast::crc64(h))?;
        agree(rt, sum, crc64_fast::crc64_words(head, tail, size))?;
    }
    Ok(())
}

// The first n bytes of s, for each n of `lengths`.
fn firsts(rt: &impl Print, name: &str, s: &[u8], lengths: &[usize]) -> io::Result<()> {
    for &n in lengths {
        if let Some(part) = s.get(..n) {
            let sum = crc64::crc64(part);
            counted(rt, name, n, sum)?;
            agree(rt, sum, crc64_fast::crc64(part))?;
        }
    }
    Ok(())
}

fn repeats(rt: &impl Print) -> io::Result<()> {
    firsts(rt, "zeros", &[0; 4096], &[1, 8, 24, 4096])?;
    counted(rt, "ones", 8, crc64::crc64(&[0xff; 8]))
}

fn fill(s: &mut [u8]) {
    let mut x: u32 = 1;
    for byte in s {
        x = ((u64::from(x) * 1103515245 + 12345) % 2147483648) as u32;
        *byte = (x / 65536 % 256) as u8;
    }
}

// Where an array this long is made in the function that lends it, the check ends with no verdict.
fn mebibyte() -> [u8; 1048576] {
    [0; 1048576]
}

fn patterns(rt: &impl Print) -> io::Result<()> {
    let mut bytes = mebibyte();
    fill(&mut bytes);
    firsts(rt, "pattern", &bytes, &[7, 8, 9, 63, 64, 65, 4087, 1048576])
}

// The checksum of s in three parts, which meet at i and at j, where those are there.
fn in_parts(s: &[u8], i: usize, j: usize) -> Option<u64> {
    let state = State::new()
        .more(s.get(..i)?)
        .more(s.get(i..j)?)
        .more(s.get(j..)?);
    Some(state.end())
}

// How many of the splits i, j, written as the two digits of numbers below `end`, give the checksum of the whole.
fn parts(rt: &impl Print, name: &str, s: &[u8], end: usize) -> io::Result<()> {
    let sum = crc64::crc64(s);
    let splits = (0..end)
        .filter(|k| in_parts(s, k / 10, k % 10) == Some(sum))
        .count();
    counted(rt, name, splits, sum)
}

// Two checksums are made at the same time, and one is taken up twice.
fn interleaved(rt: &impl Print) -> io::Result<()> {
    let a = State::new().more(b"1234");
    let b = State::new().more(b"The quick ");
    let c = a.more(b"The quick brown fox jumps over the lazy dog");
    let check = a.more(b"56789");
    let fox = b.more(b"brown fox jumps over the lazy dog");
    line(rt, "interleaved check", check.end())?;
    line(rt, "interleaved fox", fox.end())?;
    line(rt, "taken up again", c.end())
}

fn main(rt: HostRuntime) -> io::Result<()> {
    texts(&rt)?;
    headers(&rt)?;
    repeats(&rt)?;
    patterns(&rt)?;
    parts(&rt, "in two parts", b"123456789", 10)?;
    parts(&rt, "in three parts", b"123456789", 100)?;
    interleaved(&rt)
}
