// What a person is told on a terminal, beside what is printed.

use crate::remarks::Remark;
use byte_io::push_escaped;
use file_reading::finding_line;
use std::io::IsTerminal;
use std::rt::HostRuntime;

/// Tells a person what was found of a store or a file, on a terminal: a script, which has the standard error in a file or a pipe, sees
/// nothing of it. The path is told as names are, with no control codes. What cannot be told is not. No guarantee: of what is
/// printed the checker knows nothing.
pub(crate) fn tell_person(rt: &HostRuntime, path: &str, found: &str) {
    if !rt.stderr().is_terminal() {
        return;
    }
    let mut shown = Vec::new(rt.alloc());
    if push_escaped(&mut shown, path.as_bytes()).is_err() {
        return;
    }
    if let Ok(shown) = str::from_utf8(&shown) {
        let _told = eprintln!(rt; "{shown}: {found}");
    }
}

/// Tells a person what was found of files. No guarantee: as `tell_person`.
pub(crate) fn tell_remarks(rt: &HostRuntime, remarks: &[Remark<'_>]) {
    for remark in remarks {
        tell_person(rt, remark.path, finding_line(remark.finding));
    }
}
