//! The commands that take a first id, and those that may be done in pages.
use super::lines::command;
use crate::cases::parts;
use std::alloc::Global;
use std::process::Abort;

/// Asserts whether a command takes a start, and whether it may be done in pages.
fn assert_scope(rt: &impl Abort, alloc: Global, case: &str) {
    let (words, wanted) = parts(rt, case);
    let command = command(rt, alloc, words);
    let takes = command.task().takes_from();
    let pages = command.is_listing();
    drop(command);
    let got = format!(in alloc; "{takes} {pages}").expect(rt, "memory");
    assert!(rt; got.as_str() == wanted, "{case}: got {got}");
}

/// `words|whether they take a start, and may be done in pages`.
const SCOPES: &str = "sdr hex|true true
sdr --from 00a0 hex|true true
sdr list|true true
sdr elist all|true true
sdr get Fan|true false
sdr info|false false
sel|false false
sel list|true true
sel --from 0003 list|true true
sel list 0|true true
sel list 3|true false
sel list last 3|true false
sel get 0x1F|false false
fru|false false
fru print 7|false false
image rewrite|false false";

#[test]
fn each_command_has_its_scope(rt: HostRuntime) {
    for case in SCOPES.lines() {
        assert_scope(&rt, rt.alloc(), case);
    }
}
