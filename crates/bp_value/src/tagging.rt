ghost use Rattle.std.specs.Prelude.{◌≡◌};
ghost use Rattle.bp_value.specs.Tags.{tag_of};

/// The tag of a polymorphic variant's case, by its name without the backtick: OCaml's hash h of the
/// name, as the number `2h + 1`. Its four bytes, the lowest first, stand before the case's argument
/// (bin_prot's "Binary protocol specification", polymorphic variants).
///
/// Two names may have one tag; `check` refuses a variant that has both. Any bytes are hashed, names
/// or not. The time grows with the length.
pub fn poly_tag(name: &[u8]) -> i32
    ensures { result ≡ tag_of name.now }
{
    let mut hash: u32 = 0;
    for byte in name {
        hash = hash.wrapping_mul(223).wrapping_add(u32::from(*byte));
    }
    hash.wrapping_mul(2).wrapping_add(1).cast_signed()
}
