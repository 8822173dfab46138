use bp_value::{Blob, Listed, Sexp};

/// The first frame of each end: the protocol versions that it speaks (`protocol.ml`, `Header.t`).
#[derive(Debug, Drop)]
pub struct Header {
    pub versions: Listed<i64>,
}

/// What each frame after the header holds (`protocol.ml`, `Message.t`).
#[derive(Debug, Drop)]
pub enum Message {
    Heartbeat,
    Query(Query),
    Response(Response),
}

/// A call of a procedure, or an abort of one.
#[derive(Debug, Drop)]
pub struct Query {
    /// The procedure's name.
    pub tag: Blob,
    pub version: i64,
    /// The caller's number for the call: each response to it has the same.
    pub id: i64,
    /// The data, spelled by the procedure's shape.
    pub body: Blob,
}

/// An answer to a query, or one part of it.
#[derive(Debug, Drop)]
pub struct Response {
    /// The query's number.
    pub id: i64,
    pub result: Answer,
}

/// What a response says.
#[derive(Debug, Drop)]
pub enum Answer {
    /// The data, spelled by the procedure's shape.
    Ok(Blob),
    Error(RpcError),
}

/// Why a query failed (`protocol.ml`, `Rpc_error.t`).
#[derive(Debug, Drop)]
pub enum RpcError {
    /// The data could not be read: `Bin_io_exn`.
    BinIo(Sexp),
    ConnectionClosed,
    WriteError(Sexp),
    /// The procedure raised an exception: `Uncaught_exn`.
    Uncaught(Sexp),
    /// No procedure has this name and version: `Unimplemented_rpc`.
    Unimplemented { tag: Blob, version: i64 },
    /// `Unknown_query_id`.
    UnknownId(i64),
}
