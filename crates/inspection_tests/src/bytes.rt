//! Bytes from digits, and a log of every kind of record.
use std::alloc::Global;
use std::test::Fail;

/// Adds pairs of digits, as often as a number behind a star says.
fn add_part(alloc: Global, part: &str, out: &mut Vec<u8>) -> Result<(), Fail> {
    let (digits, times) = match part.split_once('*') {
        Some((digits, times)) => (digits, times.parse::<usize>()?),
        None => (part, 1),
    };
    let bytes = hex::decode(alloc, digits).ok().ok_or("digits")?;
    for _ in 0..times {
        out.extend_from_slice(&bytes)?;
    }
    Ok(())
}

/// The bytes that digits spell, with spaces and commas between them.
pub fn bytes_of(alloc: Global, text: &str) -> Result<Vec<u8>, Fail> {
    let mut out = Vec::new(alloc);
    for word in text.split_whitespace() {
        for part in word.split(',') {
            add_part(alloc, part, &mut out)?;
        }
    }
    Ok(out)
}

/// Three open blocks, in which each kind of record stands, and a closed gate.
pub const LOG: &str = "\
a5 00*7,01 00*8 0001 00*3,05
01 0000,4000
a5 00*7,02 00*8 000a 00*2,01,05
02 00*7,01 00*8 00*3,01 00*7,01 05,6170706c65 00 01,0001,31
05 00*7,01 00*7,02
03 00*7,02 00*8 00*3,01 00*7,02 01,6e 01 01,35 00
04 00*7,02 00*7,04 00*3,01 00*7,04 01,6e 00 00*8
06 00*7,02 00*7,05
07 00*3,01 00*7,05 00*3,02 00 01,6d 00 00 0001 01,71 00 0001,32
09 00*7,07 00*3,03 00 00 00 01,01,6d,00*3,02 0000
08 00*3,01 00*7,08 00*3,03 00*7,08 00*3,02 01,6d
0a 00*3,02 00*7,07
0b 00*3,01 00*7,09
a5 00*7,0c 00*7,0c 0005 00*3,e2
0c 00*7,03 00*7,01 0000,4000 00*3,01 00*7,09 00*7,09 00*8 00*8 \
00*3,01 00*7,02 00*7,05 00*8 00*3,01 00*7,04 01,6e \
00*4 00*3,01 00*3,02 0001 00*7,01 00*7,01 00*7,09 00*7,02 00*7,02
0d 00*7,01 00*4 02 00*3,01 00*7,09 00*3,02 00*7,0a
0e 00*7,02 00*7,0a 00*7,0e
0f 00*3,03
10 00*4
00
";
