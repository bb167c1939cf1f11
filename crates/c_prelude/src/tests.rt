//! Each header is found by its name, and nothing else is.

use crate::header::{HEADERS, header_text};

#[test]
fn headers_are_found_by_their_names(rt: HostRuntime) {
    for header in HEADERS {
        assert_eq!(rt; header_text(header.name()), Some(header.text()));
    }
}

#[test]
fn other_names_have_no_text(rt: HostRuntime) {
    for name in ["math.h", "threads.h", "stdio", " stdio.h", "STDIO.H", ""] {
        assert_eq!(rt; header_text(name.as_bytes()), None);
    }
}
