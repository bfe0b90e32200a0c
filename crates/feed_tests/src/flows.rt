//! Records out of bytes that come in pieces.
use crate::checks::check;
use wm_feed::Flow;

#[test]
fn records_that_come_in_pieces(rt: HostRuntime) {
    let mut flow = Flow::new(rt.alloc());
    check!(rt; flow.record().is_none());
    flow.push(b"Setting up.\nestab").expect(&rt, "memory");
    check!(rt; !flow.skip_through(b"established.\n"));
    flow.push(b"lished.\n/r/\0A\0/a\n").expect(&rt, "memory");
    check!(rt; flow.skip_through(b"established.\n"));
    check!(rt; flow.record().is_none());
    flow.push(b"b\0").expect(&rt, "memory");
    check!(rt; flow.record().is_none());
    flow.push(b"\n/r/\0B\0/c\0\n/r/").expect(&rt, "memory");
    check!(rt; flow.record() == Some(b"/r/\0A\0/a\nb\0".as_slice()));
    check!(rt; flow.take_record());
    check!(rt; flow.record() == Some(b"/r/\0B\0/c\0".as_slice()));
    check!(rt; flow.take_record() && !flow.take_record());
    check!(rt; flow.record().is_none() && !flow.is_lost());
}

#[test]
fn bytes_without_a_record(rt: HostRuntime) {
    let mut flow = Flow::new(rt.alloc());
    let most = vec![in rt.alloc(); b'x'; 65_536].expect(&rt, "memory");
    flow.push(&most).expect(&rt, "memory");
    check!(rt; flow.record().is_none() && !flow.is_lost());
    flow.push(b"x").expect(&rt, "memory");
    check!(rt; flow.is_lost());
}
