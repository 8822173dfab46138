// Which acts may be done, and the data that they tell.
ghost use Rattle.std.specs.Prelude.{◌≡◌, ◌≤◌, ◌^◌, Some, slice_get};
ghost use Rattle.bp_codec.specs.Fitting.{IsFitting};
ghost use Rattle.bp_value.specs.Form.{form_of};
ghost use Rattle.rpc_schema.specs.Entries.{IsDesc};
ghost use Rattle.rpc_schema.specs.declared.desc.Entry.{Entry};
ghost use Rattle.rpc_server.specs.Giving.{GivesBytes};
ghost use Rattle.rpc_server.specs.Steps.{data_for, shape_for, step_kind_refusal, step_standing_refusal, IsAdmitted, MakesData};
ghost use Rattle.rpc_server.specs.declared.table.Standing.TheVariants.{Open};

use crate::data::{begun_data, declined_data, item_data, reply_data};
use crate::error::ActError;
use crate::hearing::Rules;
use crate::steps::{Step, Telling};
use crate::table::Standing;
use bp_codec::EncodeError;
use bp_value::{Blob, Shape, Value, fits};
use rpc_schema::RpcDesc;
use std::alloc::Global;

impl Rules {
    /// The place of the entry that is called, where an act may be done.
    pub fn admit(&self, step: Step, standing: Standing) -> Result<usize, ActError>
        ensures { IsAdmitted (step_standing_refusal self.now step standing) standing result }
    {
        match standing {
            Standing::Nowhere => Err(ActError::NoSuch),
            Standing::Stopped => Err(ActError::Stopped),
            Standing::Open { place, begun } => self.admit_open(step, place, begun),
        }
    }

    fn admit_open(&self, step: Step, place: usize, begun: bool) -> Result<usize, ActError>
        ensures { let entry = slice_get self.now.entries place in
            IsAdmitted (step_kind_refusal step begun entry) (Open place begun) result }
    {
        let Some(entry) = self.schema.entries().get(place) else {
            return Err(ActError::NoSuch);
        };
        match step.refusal(entry.desc.kind, begun) {
            Some(error) => Err(error),
            None => Ok(place),
        }
    }

    /// The data of an act with a value, done with a query to the entry at the place.
    pub fn tell(&self, telling: Telling, place: usize, value: &Value) -> Result<Blob, ActError>
        ensures { (e : Entry) → slice_get self.now.entries place ≡ Some e
            → MakesData self.now.limits.max_message telling e.desc value.now result }
    {
        let Some(entry) = self.schema.entries().get(place) else {
            return Err(ActError::NoSuch);
        };
        tell_by(
            self.alloc,
            self.limits.max_message,
            telling,
            &entry.desc,
            value,
        )
    }
}

// The data of an act with a value, by the shapes of a procedure.
fn tell_by(
    alloc: Global,
    max: u64,
    telling: Telling,
    desc: &RpcDesc,
    value: &Value,
) -> Result<Blob, ActError>
    requires desc { IsDesc desc.now }
    requires limit { max ≤ 2 ^ 30 }
    ensures { MakesData max telling desc.now value.now result }
{
    if !fits(shape_for(telling, desc), value, max) {
        return Err(ActError::BadValue);
    }
    match data_for(alloc, max, telling, desc, value) {
        Ok(bytes) => Ok(bytes),
        Err(EncodeError::TooLong { max }) => Err(ActError::TooLong { max }),
        Err(EncodeError::OutOfMemory) => Err(ActError::OutOfMemory),
    }
}

fn data_for(
    alloc: Global,
    max: u64,
    telling: Telling,
    desc: &RpcDesc,
    value: &Value,
) -> Result<Blob, EncodeError>
    requires desc { IsDesc desc.now }
    requires fits { IsFitting (form_of (shape_for telling desc.now)) value.now }
    ensures { GivesBytes max (data_for telling desc.now value.now) result }
{
    match telling {
        Telling::Reply => reply_data(alloc, &desc.first, value, max),
        Telling::Begin => begun_data(alloc, &desc.first, value, max),
        Telling::Decline => declined_data(alloc, &desc.error, value, max),
        Telling::Item => item_data(alloc, &desc.item, value, max),
    }
}

// The shape of the value that an act tells.
fn shape_for(telling: Telling, desc: &RpcDesc) -> &Shape
    ensures { result.now ≡ shape_for telling desc.now }
{
    match telling {
        Telling::Reply | Telling::Begin => &desc.first,
        Telling::Decline => &desc.error,
        Telling::Item => &desc.item,
    }
}
