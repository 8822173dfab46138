// The data of the answer to who asks for the menu.
ghost use Rattle.std.specs.Prelude.{◌≡◌, ◌++◌, IfOk, OnOk};
ghost use Rattle.rpc_msg.specs.Adds.{Adds, EndsAlike};
ghost use Rattle.rpc_server.specs.Rules.{listing_data, menu_data, IsMenuData};

use bp_codec::PutError;
use bp_codec::encoding::put_bytes;
use bp_codec::numbers::{put_int, put_nat};
use bp_value::{Blob, OutOfMemory};
use rpc_schema::{Listing, Schema};
use std::alloc::Global;

/// The menu of what a schema offers. No text or list in it is limited.
pub fn menu_data(alloc: Global, schema: &Schema) -> Result<Blob, OutOfMemory>
    ensures { IfOk result (λ menu. IsMenuData schema.now menu) }
{
    let menu = schema.menu_of(alloc)?;
    listings_data(alloc, menu.entries.as_slice())
}

fn listings_data(alloc: Global, listings: &[Listing]) -> Result<Blob, OutOfMemory>
    ensures { IfOk result (λ blob. blob ≡ menu_data listings.now) }
{
    let mut out = Vec::new(alloc);
    unbounded(put_nat(listings.len() as u64, u64::MAX, &mut out))?;
    for listing in listings {
        put_listing(listing, &mut out)?;
    }
    Ok(Blob::from_vec(out))
}

fn put_listing(listing: &Listing, out: &mut Vec<u8>) -> Result<(), OutOfMemory>
    ensures { OnOk result (out.new.items ≡ out.old.items ++ listing_data listing.now) }
{
    unbounded(put_bytes(listing.name.as_slice(), u64::MAX, out))?;
    unbounded(put_int(listing.version, u64::MAX, out))
}

// No list has more bytes than the bound here, so that a part which was not put wanted memory.
fn unbounded(put: Result<(), PutError>) -> Result<(), OutOfMemory>
    ensures { EndsAlike put result }
{
    match put {
        Ok(()) => Ok(()),
        Err(_) => Err(OutOfMemory),
    }
}
