// Reads a station file from standard input and writes its listing to standard output. (01, "Orders, station files, program".)
#![tactic(auto)]

ghost use Rattle.std.specs.Prelude.{◌≤◌, length, IfOk};

use std::io;

// One more byte than the longest station file has: 38 blocks of 512.
const MOST: usize = 19457;

// Reads until the input ends or the area is full: how many bytes came.
fn read_input<R: io::Read>(input: &mut R, area: &mut [u8]) -> io::Result<usize>
    ensures { IfOk result (λ got. got ≤ length area.new) }
{
    let mut done: usize = 0;
    while done < area.len() {
        let more = input.read(&mut area[done..])?;
        if more == 0 {
            break;
        }
        done += more;
    }
    Ok(done)
}

fn main(rt: HostRuntime) -> io::Result<()> {
    let mut file = [0u8; MOST];
    let Ok(size) = read_input(&mut rt.reader(), &mut file) else {
        return rt
            .stderr()
            .write_all(b"unfold: standard input cannot be read\n");
    };
    let mut text = [0u8; listing::LONGEST];
    let Some(length) = listing::list_station(&file[..size], &mut text) else {
        return Ok(());
    };
    if rt.stdout().write_all(&text[..length]).is_err() {
        return rt
            .stderr()
            .write_all(b"unfold: standard output cannot be written\n");
    }
    Ok(())
}
