// The grid test at the limits of the grid and where its table of shifts turns: for each bit pattern its
// number of 64ths, and then of 256ths, or that it is off that grid. The weights of case P7 are the first
// two. Then each exponent's field from which on the shift is another.
#![tactic(auto)]

use std::io;
use tropical_weight::shifts::GridShifts;
use tropical_weight::unit::Unit;

const PATTERNS: [u32; 40] = [
    0x4300_0000, // 128
    0x4300_0400, // 128.015625
    0xc300_0000, // -128
    0xc300_0400, // -128.015625
    0x42ff_f800, // 127.984375
    0x4300_0001, // the first value above 128
    0x3c80_0000, // 1 / 64
    0xbc80_0000, // -1 / 64
    0x3c00_0000, // 1 / 128
    0x3cc0_0000, // 3 / 128
    0x3f80_0000, // 1
    0xbfe0_0000, // -1.75
    0x3dcc_cccd, // 0.1
    0x4880_0000, // 262144, a sum of the largest weights
    0x0000_0000, // 0
    0x8000_0000, // negative zero
    0x0000_0001, // the least subnormal
    0x807f_ffff, // the greatest subnormal, negative
    0x7f7f_ffff, // the greatest finite value
    0x7f80_0000, // infinity
    0xff80_0000, // negative infinity
    0x7fc0_0000, // a quiet NaN
    0x7f80_0001, // a signalling NaN
    0xffff_ffff, // a negative NaN
    0x3c80_0001, // the first value above 1 / 64
    0x4280_0800, // 64.015625
    0x4b00_0000, // 2 ^ 23
    0x0080_0000, // the least normal value
    0x4200_0000, // 32
    0x4200_0400, // 32.00390625
    0xc200_0000, // -32
    0xc200_0400, // -32.00390625
    0x41ff_f800, // 31.99609375
    0x4200_0001, // the first value above 32
    0x3b80_0000, // 1 / 256
    0xbb80_0000, // -1 / 256
    0x3b00_0000, // 1 / 512
    0x3bc0_0000, // 3 / 512
    0x3b80_0001, // the first value above 1 / 256
    0x4180_0800, // 16.00390625
];

// The number of units where the pattern is on the grid. Lines of the program; no type has a text.
// No clause says what is printed, since the library promises nothing of it.
fn print_units(rt: &impl Print, unit: Unit, bits: u32) -> io::Result<()> {
    if tropical_weight::on_grid(unit, bits) {
        let cost = tropical_weight::cost(unit, tropical_weight::from_bits(bits));
        print!(rt; " {cost}")
    } else {
        print!(rt; " off the grid")
    }
}

// The pattern, and what it is in either unit.
fn print_weight(rt: &impl Print, bits: u32) -> io::Result<()> {
    print!(rt; "{bits:08x}")?;
    print_units(rt, Unit::Of64, bits)?;
    print!(rt; ",")?;
    print_units(rt, Unit::Of256, bits)?;
    println!(rt)
}

fn print_weights(rt: &impl Print) -> io::Result<()> {
    for bits in &PATTERNS {
        print_weight(rt, *bits)?;
    }
    Ok(())
}

// Each turn of the table, which is that of 64ths.
fn print_turns(rt: &impl Print) -> io::Result<()> {
    let shifts = GridShifts::new(Unit::Of64);
    let mut last = None;
    for exponent in 0..256u32 {
        let shift = shifts.shift(exponent);
        if last != Some(shift) {
            println!(rt; "from exponent {exponent} shift {shift}")?;
        }
        last = Some(shift);
    }
    Ok(())
}

fn main(rt: HostRuntime) -> io::Result<()> {
    print_weights(&rt)?;
    print_turns(&rt)
}
