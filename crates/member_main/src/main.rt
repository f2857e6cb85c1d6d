// Document 01's test program: one member of at most 65,536 bytes on standard input, one line on standard output.
#![tactic(auto)]

use report::LINE_BYTES;
use std::io;

fn main(rt: HostRuntime) -> io::Result<()> {
    let mut buf = [0u8; input::LARGE];
    let got = input::read(&mut rt.stdin(), &mut buf)?;
    let mut out = [0u8; LINE_BYTES];
    if got.more {
        let k = report::refusal(1, 0, &mut out);
        return rt.write_all(&out[..k]);
    }
    let n = got.bytes;
    let k = report::member_line(&buf[..n], &mut out);
    rt.write_all(&out[..k])
}
