// Lists calibration cards: for each covering its number, then the sixteen samples in cell order that show it by the steps 0 1, and by the steps 0 1 2 3; `none`
// where no choice of steps does. Each sample is a digit, so the digit tells which of the steps a cell has.
#![tactic(auto)]

use std::io;

fn write_samples(rt: &impl Print, samples: &[u16; 16]) -> io::Result<()> {
    for x in samples {
        print!(rt; "{x}")?;
    }
    Ok(())
}

fn write_card(rt: &impl Print, covering: u8, steps: &[u16]) -> io::Result<()> {
    let mut samples = [9u16; 16];
    let shown = calibration::show(covering, steps, &mut samples);
    print!(rt; " ")?;
    match shown {
        Ok(true) => write_samples(rt, &samples),
        Ok(false) => print!(rt; "none"),
        Err(_) => print!(rt; "refused"),
    }
}

fn write_line(rt: &impl Print, covering: u8) -> io::Result<()> {
    print!(rt; "{covering:03}")?;
    write_card(rt, covering, &[0, 1])?;
    write_card(rt, covering, &[0, 1, 2, 3])?;
    print!(rt; "\n")
}

fn main(rt: HostRuntime) -> io::Result<()> {
    for n in 1..=117 {
        write_line(&rt, n)?;
    }
    Ok(())
}
