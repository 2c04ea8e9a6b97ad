// Runs document 01's examples of the byte layer and prints what comes out.

#![tactic(auto)]

use std::io;

fn line(rt: &impl Print, label: &str, n: u64) -> io::Result<()> {
    println!(rt; "{label}{n}")
}

fn byte(rt: &impl Print, label: &str, x: u8) -> io::Result<()> {
    line(rt, label, u64::from(x))
}

// Byte 0 is 1 and the rest is zero.
fn example() -> [u8; 512] {
    let mut block = [0u8; 512];
    block[0] = 1;
    block
}

fn sums(rt: &impl Print) -> io::Result<()> {
    let block = example();
    let check = blocks::check_of(&block);
    line(rt, "A ", u64::from(check.a))?;
    line(rt, "B ", u64::from(check.b))
}

fn sealing(rt: &impl Print) -> io::Result<()> {
    let mut block = example();
    let answer = blocks::seal(&mut block);
    line(rt, "seal 512 number ", blocks::number(answer) as u64)?;
    line(rt, "seal 512 written ", blocks::written(answer) as u64)?;
    byte(rt, "byte 508 ", block[508])?;
    byte(rt, "byte 509 ", block[509])?;
    byte(rt, "byte 510 ", block[510])?;
    byte(rt, "byte 511 ", block[511])?;
    line(rt, "right ", u64::from(blocks::check_right(&block)))
}

fn damage(rt: &impl Print) -> io::Result<()> {
    let mut block = example();
    let _ = blocks::seal(&mut block);
    block[300] = 7;
    line(
        rt,
        "right with byte 300 changed ",
        u64::from(blocks::check_right(&block)),
    )?;
    block[300] = 1;
    block[0] = 0;
    line(
        rt,
        "right with bytes 0 and 300 exchanged ",
        u64::from(blocks::check_right(&block)),
    )
}

fn refusals(rt: &impl Print) -> io::Result<()> {
    let mut short = [7u8; 511];
    line(
        rt,
        "seal 511 number ",
        blocks::number(blocks::seal(&mut short)) as u64,
    )?;
    line(rt, "seal 511 unaltered ", u64::from(short == [7u8; 511]))?;
    let mut long = [7u8; 513];
    line(
        rt,
        "seal 513 number ",
        blocks::number(blocks::seal(&mut long)) as u64,
    )?;
    line(rt, "seal 513 unaltered ", u64::from(long == [7u8; 513]))
}

// Zeros carry their own check; 65,521 in the place of A, which is 0, does not.
fn remainders(rt: &impl Print) -> io::Result<()> {
    let mut block = [0u8; 512];
    line(
        rt,
        "right with A 0 ",
        u64::from(blocks::check_right(&block)),
    )?;
    block[508] = 241;
    block[509] = 255;
    line(
        rt,
        "right with A 65521 ",
        u64::from(blocks::check_right(&block)),
    )
}

fn layout(rt: &impl Print, label: &str, kind: u8, first: u8, second: u8) -> io::Result<()> {
    let mut block = [0u8; 512];
    block[0] = kind;
    block[1] = first;
    block[2] = second;
    line(rt, label, u64::from(blocks::layout_right(&block)))
}

fn layouts(rt: &impl Print) -> io::Result<()> {
    layout(rt, "layout of 126 atoms ", 1, 126, 0)?;
    layout(rt, "layout of 127 atoms ", 1, 127, 0)?;
    layout(rt, "layout of a secret of 63 entries ", 2, 63, 0)?;
    layout(rt, "layout of a secret of no entry ", 2, 0, 0)?;
    layout(rt, "layout of a rule of 0 and 63 entries ", 5, 0, 63)?;
    layout(rt, "layout of a rule of 64 and 1 entries ", 5, 64, 1)
}

fn main(rt: HostRuntime) -> io::Result<()> {
    sums(&rt)?;
    sealing(&rt)?;
    damage(&rt)?;
    refusals(&rt)?;
    remainders(&rt)?;
    layouts(&rt)
}
