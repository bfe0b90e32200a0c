//! What a line asks of a server.
use crate::checks::check;
use std::alloc::{AllocError, Global};
use wm_disk::Refusal;
use wm_lines::{Request, ServerRequest};
use wm_names::{RootPath, Subtree};

/// Lines, and what they ask for.
const ASKED: &[(&str, &str)] = &[
    ("[\"recrawl\",\"/r\"]\n", "crawl /r"),
    ("[\"recrawl\",\"/r\",\"\"]\n", "crawl /r"),
    ("[\"recrawl\",\"/r\",\"d/e\"]\n", "crawl /r below d/e"),
    ("[\"recrawl\"]\n", "3 BadArguments"),
    ("[\"recrawl\",\"/r\",\"d\",1]\n", "3 BadArguments"),
    ("[\"recrawl\",\"/r\",null]\n", "3 BadArguments"),
    ("[\"recrawl\",\"r\"]\n", "4 BadPath"),
    ("[\"recrawl\",\"/r\",\"/d\"]\n", "4 BadPath"),
    ("[\"recrawl\",\"/r\"", "1 BadLine"),
    ("[\"recrawls\",\"/r\"]\n", "2 BadCommand"),
    ("[\"version\"]\n", "a version"),
    ("[\"clock\",\"/r\"]\n", "another"),
    ("[\"clock\"]\n", "3 BadArguments"),
];

fn crawl(alloc: Global, root: &RootPath, part: &Subtree) -> Result<String, AllocError> {
    let root = root.as_str();
    match part {
        Subtree::Whole => format!(in alloc; "crawl {root}"),
        Subtree::Below(top) => {
            let top = top.as_str();
            format!(in alloc; "crawl {root} below {top}")
        }
    }
}

fn asked(alloc: Global, read: &Result<ServerRequest, Refusal>) -> Result<String, AllocError> {
    match read {
        Ok(ServerRequest::Recrawl(root, part)) => crawl(alloc, root, part),
        Ok(ServerRequest::Common(Request::Version)) => String::from_str(alloc, "a version"),
        Ok(ServerRequest::Common(_)) => String::from_str(alloc, "another"),
        Err(refusal) => String::from_str(alloc, refusal.text()),
    }
}

/// What a line asks for. (What was read is let go by a call, since an enum of so many variants is dear to prove where it ends.)
fn told(alloc: Global, line: &str) -> Result<String, AllocError> {
    let read = ServerRequest::read(alloc, line.as_bytes());
    let told = asked(alloc, &read);
    drop(read);
    told
}

#[test]
fn lines_of_the_table(rt: HostRuntime) {
    for (line, wanted) in ASKED {
        let told = told(rt.alloc(), line).expect(&rt, "memory");
        check!(rt; told.as_str() == *wanted, (line, told));
    }
}
