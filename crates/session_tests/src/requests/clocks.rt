//! Lines with ages and clocks, and what is read of them.
use super::{ARGUMENTS, CLOCK, PATH};
use crate::ends::Row;

const ROWS: &[Row<'static>] = &[
    (r#"["age-out","/r",0]"#, "age-out /r 0"),
    (
        r#"["age-out","/r",9223372036854775807]"#,
        "age-out /r 9223372036854775807",
    ),
    (r#"["age-out"]"#, ARGUMENTS),
    (r#"["age-out","/r"]"#, ARGUMENTS),
    (r#"["age-out","/r",1,1]"#, ARGUMENTS),
    (r#"["age-out","/r",9223372036854775808]"#, ARGUMENTS),
    (r#"["age-out","/r",-1]"#, ARGUMENTS),
    (r#"["age-out","/r",1.0]"#, ARGUMENTS),
    (r#"["age-out","/r","1"]"#, ARGUMENTS),
    (r#"["age-out","r",null]"#, ARGUMENTS),
    (r#"["age-out","r",1]"#, PATH),
    (r#"["clock","/r"]"#, "clock /r"),
    (r#"["clock"]"#, ARGUMENTS),
    (r#"["clock",1]"#, ARGUMENTS),
    (r#"["clock","/r",1]"#, ARGUMENTS),
    (r#"["clock","r",1]"#, ARGUMENTS),
    (r#"["clock","r"]"#, PATH),
];

pub(super) fn rows() -> &'static [Row<'static>] {
    ROWS
}

const SINCE: &[Row<'static>] = &[
    (
        r#"["since","/r","c:7:2:105"]"#,
        "query /r 7 2 105 exists name new size",
    ),
    (
        r#"["since","/r","c:"]"#,
        "query /r another exists name new size",
    ),
    (
        r#"["since","/r","c:01:1:1"]"#,
        "query /r another exists name new size",
    ),
    (r#"["since"]"#, ARGUMENTS),
    (r#"["since","/r"]"#, ARGUMENTS),
    (r#"["since","/r","c:1:1:1",1]"#, ARGUMENTS),
    (r#"["since",1,"c:1:1:1"]"#, ARGUMENTS),
    (r#"["since","/r",null]"#, ARGUMENTS),
    (r#"["since","/r",true]"#, ARGUMENTS),
    (r#"["since","/r",["c:1:1:1"]]"#, ARGUMENTS),
    (r#"["since","/r",{}]"#, ARGUMENTS),
    (r#"["since","r","c:1:1:1"]"#, PATH),
    (r#"["since","r",1]"#, PATH),
    (r#"["since","r","x"]"#, PATH),
    (r#"["since","r",null]"#, ARGUMENTS),
    (r#"["since","/r",1]"#, "query /r 1 exists name new size"),
    (r#"["since","/r",0]"#, "query /r 0 exists name new size"),
    (
        r#"["since","/r",9223372036854775807]"#,
        "query /r 9223372036854775807 exists name new size",
    ),
    (r#"["since","/r",9223372036854775808]"#, CLOCK),
    (r#"["since","/r",18446744073709551616]"#, CLOCK),
    (r#"["since","/r",-1]"#, CLOCK),
    (r#"["since","/r",-1.5e3]"#, CLOCK),
    (r#"["since","/r",1.5]"#, CLOCK),
    (r#"["since","/r",1.0]"#, CLOCK),
    (r#"["since","/r","8"]"#, CLOCK),
    (
        r#"["since","/r","n:x"]"#,
        "query /r @x exists name new size",
    ),
    (r#"["since","/r","n:"]"#, CLOCK),
    (r#"["since","/r",""]"#, CLOCK),
    (r#"["since","/r","1:1:1"]"#, CLOCK),
    (r#"["since","/r","C:1:1:1"]"#, CLOCK),
];

pub(super) fn since() -> &'static [Row<'static>] {
    SINCE
}
