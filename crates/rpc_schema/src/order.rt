// The order of procedures: by the bytes of the name, and then by the version.
ghost use Rattle.std.specs.Prelude.{Some, refl};
ghost use Rattle.std.specs.Cmp;
ghost use Rattle.std.specs.Cmp.Rules.{comparing};
ghost use Rattle.std.specs.Ordering.{eq_by_cmp};
ghost use Rattle.std.proofs.Common.{rules};
ghost use Rattle.rpc_schema.specs.Entries.{listing_cmp};

use crate::desc::Listing;
use std::cmp::Ordering;

impl PartialEq for Listing {
    ghost eq = { eq_by_cmp listing_cmp };

    ghost laws = { Prim.search (comparing, rules) };

    fn eq(&self, other: &Listing) -> bool {
        self.cmp(other).is_eq()
    }
}

impl Eq for Listing {
    ghost laws = { Prim.search (comparing, rules) };
}

impl PartialOrd for Listing {
    ghost partial_cmp = { λ x y. Some (listing_cmp x y) };

    ghost laws = { Prim.search (comparing, rules) };

    fn partial_cmp(&self, other: &Listing) -> Option<Ordering> {
        Some(self.cmp(other))
    }
}

impl Ord for Listing {
    ghost cmp = { listing_cmp };

    ghost total = { Prim.search (comparing, rules) };

    ghost matches_partial_cmp = { λ x y. refl };

    ghost matches_eq = { λ x y. refl };

    fn cmp(&self, other: &Listing) -> Ordering {
        let names = self.name.as_slice().cmp(other.name.as_slice());
        names.then(self.version.cmp(&other.version))
    }
}
