// The menu: which versions of a procedure an end offers, as `Versioned_rpc` asks for it.
ghost use Rattle.std.specs.Prelude.{◌≡◌, ◌↔◌, List, [], ◌∷◌, ◌++◌, map, Some, IfOk, IsTrue};
ghost use Rattle.std.specs.List.{All, Contains};
ghost use Rattle.rpc_schema.specs.declared.desc.Listing.{Listing};
ghost use Rattle.bp_value.specs.Form.{form_of};
ghost use Rattle.rpc_schema.specs.Entries.{IsAnyOf};
ghost use Rattle.rpc_schema.specs.Choice.{menu_description, menu_shape, menu_value, listing_value, IsListing, IsChoice, IsAtLeast};

use crate::desc::{Kind, Listing, Menu, RpcDesc};
use bp_value::{Blob, Boxed, Listed, OutOfMemory, Shape, Value};
use std::alloc::Global;

/// The name of the procedure that answers the menu.
pub const MENU_NAME: &[u8] = b"__Versioned_rpc.Menu";

/// The procedure that answers the menu, version 1: from `unit` to `(string * int) list`.
pub fn menu_desc(alloc: Global) -> Result<RpcDesc, OutOfMemory>
    ensures { IfOk result (λ desc. desc ≡ menu_description) }
{
    Ok(RpcDesc {
        name: Blob::from_slice(alloc, MENU_NAME)?,
        version: 1,
        kind: Kind::Plain,
        query: Shape::Unit,
        first: menu_shape(alloc)?,
        item: Shape::Unit,
        error: Shape::Unit,
    })
}

// `(string * int) list`
fn menu_shape(alloc: Global) -> Result<Shape, OutOfMemory>
    ensures { IfOk result (λ shape. shape ≡ menu_shape) }
{
    let mut parts = Vec::with_capacity(alloc, 2)?;
    parts.push(Shape::Text)?;
    parts.push(Shape::Int)?;
    let listing = Shape::Tuple(Listed::from_vec(parts));
    Ok(Shape::List(Boxed::new(alloc, listing)?))
}

/// The menu that an answer tells.
pub fn menu_from(alloc: Global, value: &Value) -> Result<Menu, OutOfMemory>
    requires { IsAnyOf (form_of menu_shape) value.now }
    ensures { IfOk result (λ menu. value.now ≡ menu_value menu.entries) }
{
    let Value::Items(items) = value else {
        unreachable!();
    };
    let listings = listings_from(alloc, items.as_slice())?;
    Ok(Menu {
        entries: Listed::from_vec(listings),
    })
}

// The names and versions that the items of the answer tell.
fn listings_from(alloc: Global, items: &[Value]) -> Result<Vec<Listing>, OutOfMemory>
    requires { All IsListing items.now }
    ensures { IfOk result (λ listings. map listing_value listings.items ≡ items.now) }
{
    let mut listings = Vec::with_capacity(alloc, items.len())?;
    for item in items {
        listings.push(listing_from(alloc, item)?)?;
    }
    Ok(listings)
}

// The name and version that an item of the answer tells.
fn listing_from(alloc: Global, item: &Value) -> Result<Listing, OutOfMemory>
    requires { IsListing item.now }
    ensures { IfOk result (λ listing. item.now ≡ listing_value listing) }
{
    let Value::Parts(parts) = item else {
        unreachable!();
    };
    let [Value::Text(name), Value::Num(version)] = parts.as_slice() else {
        unreachable!();
    };
    Ok(Listing {
        name: name.copy(alloc)?,
        version: *version,
    })
}

/// The greatest version that is one's own and stands in the menu under the name. No memory.
///
/// Each entry of the menu under the name is looked for in `own`.
pub fn best(own: &[i64], menu: &Menu, name: &[u8]) -> Option<i64>
    ensures { IsChoice own.now menu.now.entries name.now result }
{
    let mut best = None;
    for listing in menu.entries.as_slice() {
        best = better(best, own, listing, name);
    }
    best
}

// The choice with one entry of the menu more.
fn better(best: Option<i64>, own: &[i64], listing: &Listing, name: &[u8]) -> Option<i64>
    ensures { (before : List Listing) → IsChoice own.now before name.now best
        → IsChoice own.now (before ++ listing.now ∷ []) name.now result }
{
    if !is_candidate(own, listing, name) {
        return best;
    }
    if is_at_least(best, listing) {
        return best;
    }
    version_of(listing)
}

fn version_of(listing: &Listing) -> Option<i64>
    ensures { result ≡ Some listing.now.version }
{
    Some(listing.version)
}

// Whether the entry is one of the name, and of a version of one's own.
fn is_candidate(own: &[i64], listing: &Listing, name: &[u8]) -> bool
    ensures { IsTrue result
        ↔ ((listing.now.name ≡ name.now) × Contains own.now listing.now.version) }
{
    listing.name.as_slice() == name && own.contains(&listing.version)
}

// Whether the choice so far is not below the entry.
fn is_at_least(best: Option<i64>, listing: &Listing) -> bool
    ensures { IsTrue result ↔ IsAtLeast best listing.now.version }
{
    match best {
        Some(best) => listing.version <= best,
        None => false,
    }
}
