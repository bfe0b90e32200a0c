//! The lines of observations.
use crate::checks::check;
use wm_feed::observe_line;
use wm_names::{Kind, Meta, RelPath};

#[test]
fn line_of_two_pairs(rt: HostRuntime) {
    let alloc = rt.alloc();
    let meta = Meta {
        kind: Kind::Folder,
        size: 4_096,
        mtime_ms: 17,
    };
    let there = RelPath::read(alloc, "a \"b\"\n").expect(&rt, "a path");
    let gone = RelPath::read(alloc, "d/e").expect(&rt, "a path");
    let pairs = vec![in alloc; (there, Some(meta)), (gone, None)].expect(&rt, "memory");
    let line = observe_line(alloc, "/r", &pairs).expect(&rt, "memory");
    let wanted =
        r#"["observe","/r",[["a \"b\"\n",{"mtime_ms":17,"size":4096,"type":"d"}],["d/e",null]]]"#;
    check!(rt; line.as_str() == wanted, line);
}

#[test]
fn line_of_no_pairs(rt: HostRuntime) {
    let line = observe_line(rt.alloc(), "/r", &[]).expect(&rt, "memory");
    check!(rt; line.as_str() == r#"["observe","/r",[]]"#, line);
}
