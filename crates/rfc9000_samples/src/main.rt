// Reads and writes the samples of RFC 9000, appendix A.1, and the borders of the four sizes.
#![tactic(auto)]

use show::Hex;
use std::io;
use wire::varint::{Varint, read_varint, write_varint};

fn read(rt: &impl Print, s: &[u8]) -> io::Result<()> {
    print!(rt; "read {}: ", Hex(s))?;
    match read_varint(s) {
        None => println!(rt; "incomplete"),
        Some(Varint { value, size }) => println!(rt; "{value}, size {size}"),
    }
}

fn write(rt: &impl Print, n: u64, place: usize) -> io::Result<()> {
    print!(rt; "write {n} at {place}: ")?;
    let mut out = [0xaau8; 10];
    match write_varint(n, &mut out, place) {
        Err(why) => print!(rt; "refused {}", why.0)?,
        Ok(size) => print!(rt; "wrote {size}")?,
    }
    println!(rt; ", output {}", Hex(&out))
}

fn main(rt: HostRuntime) -> io::Result<()> {
    let encoded: [&[u8]; 13] = [
        b"\xc2\x19\x7c\x5e\xff\x14\xe8\x8c",
        b"\x9d\x7f\x3e\x7d",
        b"\x7b\xbd",
        b"\x25",
        b"\x40\x25",
        b"\x3f",
        b"\x40\x40",
        b"\x7f\xff",
        b"\x80\x00\x40\x00",
        b"\xbf\xff\xff\xff",
        b"\xc0\x00\x00\x00\x40\x00\x00\x00",
        b"\xff\xff\xff\xff\xff\xff\xff\xff",
        b"\xff\xff\xff\xff\xff\xff\xff",
    ];
    for s in encoded {
        read(&rt, s)?;
    }
    let numbers = [
        151288809941952652,
        494878333,
        15293,
        37,
        63,
        64,
        16383,
        16384,
        1073741823,
        1073741824,
        4611686018427387903,
        4611686018427387904,
    ];
    for n in numbers {
        write(&rt, n, 0)?;
    }
    write(&rt, 64, 8)?;
    write(&rt, 64, 9)
}
