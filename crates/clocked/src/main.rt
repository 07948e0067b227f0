// The example of the crate's documentation: a shift register is written bit by bit as a clock and a data signal, and decoded again.
// Prints the dump and the number that was decoded. Its stored output was made by the crate (oracle/record).
#![tactic(auto)]

mod read;
mod write_dump;

ghost use Rattle.std.specs.Prelude.{◌≡◌, length};

fn main(rt: HostRuntime) {
    let mut dump = buffer();
    let n = write_dump::write_clocked_vcd(0xC0DE1234, &mut dump);
    let first = console::write_front(rt.stdout(), &dump, n);
    let mut line = [0u8; 32];
    let m = console::put_number(
        &mut line,
        0,
        read::read_clocked_vcd(console::front(&dump, n)) as u64,
    );
    let m = console::put_byte(&mut line, m, b'\n');
    let second = console::write_front(rt.stdout(), &line, m);
    console::finish(
        rt.stderr(),
        &rt,
        first && second,
        true,
        b"clocked: writing failed\n",
    );
}

fn buffer() -> [u8; 4096]
    ensures { 4096 ≡ length result }
{
    [0; 4096]
}
