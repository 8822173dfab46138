// The tags of the polymorphic variants of the protocol, as words of four bytes (bin_prot,
// "Polymorphic variants").
ghost use Rattle.std.specs.Prelude.{◌≡◌};

/// `` `Version ``.
pub const VERSION: u32 = 0x9486_1DF1;

/// `` `Query ``.
pub const QUERY: u32 = 0xE22F_F5D1;

/// `` `Abort ``.
pub const ABORT: u32 = 0x5C4E_7721;

/// `` `Ok ``.
pub const OK: u32 = 0x0000_8A79;

/// `` `Eof ``.
pub const EOF: u32 = 0x0069_7939;
