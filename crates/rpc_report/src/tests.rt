use crate::{put_cause, put_error, put_fault};
use bp_num::Why;
use bp_value::{Blob, Listed, OutOfMemory, Sexp};
use rpc_msg::{CloseCause, MsgFault, RpcError};
use std::alloc::Global;
use std::process::Abort;
use std::test::Fail;

/// Each error has this text.
fn check_errors(
    rt: &impl Abort,
    alloc: Global,
    rows: &[(RpcError, &[u8])],
) -> Result<(), OutOfMemory> {
    for (error, want) in rows {
        let mut out = Vec::new(alloc);
        put_error(error, &mut out)?;
        assert!(rt; out.as_slice() == *want);
    }
    Ok(())
}

/// Each fault has this text.
fn check_faults(
    rt: &impl Abort,
    alloc: Global,
    rows: &[(MsgFault, &[u8])],
) -> Result<(), OutOfMemory> {
    for (fault, want) in rows {
        let mut out = Vec::new(alloc);
        put_fault(fault, &mut out)?;
        assert!(rt; out.as_slice() == *want);
    }
    Ok(())
}

/// Each cause has this text.
fn check_causes(
    rt: &impl Abort,
    alloc: Global,
    rows: &[(CloseCause, &[u8])],
) -> Result<(), OutOfMemory> {
    for (cause, want) in rows {
        let mut out = Vec::new(alloc);
        put_cause(cause, &mut out)?;
        assert!(rt; out.as_slice() == *want);
    }
    Ok(())
}

fn atom(alloc: Global, text: &[u8]) -> Result<Sexp, OutOfMemory> {
    Ok(Sexp::Atom(Blob::from_slice(alloc, text)?))
}

fn pair(alloc: Global, first: &[u8], second: &[u8]) -> Result<Sexp, OutOfMemory> {
    let items = Vec::from_array(alloc, [atom(alloc, first)?, atom(alloc, second)?])?;
    Ok(Sexp::List(Listed::from_vec(items)))
}

fn bad(at: u64, why: Why) -> MsgFault {
    MsgFault::Bad { at, why }
}

#[test]
fn each_error_has_its_text(rt: HostRuntime) -> Result<(), Fail> {
    let alloc = rt.alloc();
    let tag = Blob::from_slice(alloc, b"echo")?;
    let rows: [(RpcError, &[u8]); 6] = [
        (
            RpcError::BinIo(atom(alloc, b"short")?),
            br#"bin_io "short""#,
        ),
        (RpcError::ConnectionClosed, b"connection_closed"),
        (
            RpcError::WriteError(pair(alloc, b"it's", b"")?),
            br#"write_error ("it\'s" "")"#,
        ),
        (
            RpcError::Uncaught(Sexp::List(Listed::from_vec(Vec::new(alloc)))),
            b"uncaught ()",
        ),
        (
            RpcError::Unimplemented { tag, version: -2 },
            br#"unimplemented "echo" -2"#,
        ),
        (RpcError::UnknownId(7), b"unknown_id 7"),
    ];
    check_errors(&rt, alloc, &rows)?;
    Ok(())
}

#[test]
fn each_fault_has_its_text(rt: HostRuntime) -> Result<(), Fail> {
    let rows: [(MsgFault, &[u8]); 9] = [
        (bad(0, Why::Code), b"refused at 0: code"),
        (bad(3, Why::Sign), b"refused at 3: sign"),
        (bad(9, Why::Range), b"refused at 9: range"),
        (bad(10, Why::Length), b"refused at 10: length"),
        (bad(11, Why::Byte), b"refused at 11: byte"),
        (bad(12, Why::Case), b"refused at 12: case"),
        (
            bad(u64::MAX, Why::Tag),
            b"refused at 18446744073709551615: tag",
        ),
        (MsgFault::Cut { at: 7 }, b"cut at 7"),
        (MsgFault::Trailing { at: 120 }, b"trailing at 120"),
    ];
    check_faults(&rt, rt.alloc(), &rows)?;
    Ok(())
}

#[test]
fn each_cause_has_its_text(rt: HostRuntime) -> Result<(), Fail> {
    let fault = bad(5, Why::Code);
    let cut = MsgFault::Cut { at: 18 };
    let rows: [(CloseCause, &[u8]); 14] = [
        (CloseCause::BadFrame { at: 4 }, b"frame too long at 4"),
        (CloseCause::BadHeader(fault), b"header refused at 5: code"),
        (CloseCause::NoCommonProtocol, b"no common protocol"),
        (CloseCause::BadMessage(cut), b"message cut at 18"),
        (CloseCause::UnknownId { id: -1 }, b"unknown id -1"),
        (
            CloseCause::BadStreamData { id: 6, fault },
            b"stream 6 refused at 5: code",
        ),
        (CloseCause::DuplicateQuery { id: 8 }, b"duplicate query 8"),
        (
            CloseCause::TooManyOpen { count: 65536 },
            b"too many open 65536",
        ),
        (
            CloseCause::Late {
                last: 0,
                now: 30001,
            },
            b"late 0 30001",
        ),
        (CloseCause::EndOfInput, b"end of input"),
        (CloseCause::ClosedHere, b"closed here"),
        (CloseCause::LinkFault, b"link fault"),
        (CloseCause::JournalFull { got: 100 }, b"journal full 100"),
        (CloseCause::OutOfMemory, b"out of memory"),
    ];
    check_causes(&rt, rt.alloc(), &rows)?;
    Ok(())
}

#[test]
fn what_stood_before_stays(rt: HostRuntime) -> Result<(), Fail> {
    let mut out = Vec::new(rt.alloc());
    put_error(&RpcError::UnknownId(1), &mut out)?;
    put_fault(&MsgFault::Cut { at: 2 }, &mut out)?;
    put_cause(&CloseCause::ClosedHere, &mut out)?;
    assert!(rt; out.as_slice() == b"unknown_id 1cut at 2closed here".as_slice());
    Ok(())
}
