// The command `menu`.
ghost use Rattle.std.specs.Prelude.{◌≡◌, ◌++◌, ℤ, List, Option, IfOk, OnOk, codes};
ghost use Rattle.bp_value.specs.Form.{form_of};
ghost use Rattle.rpc_schema.specs.declared.desc.Listing.{Listing};
ghost use Rattle.rpc_schema.specs.Entries.{IsAnyOf};
ghost use Rattle.rpc_schema.specs.Choice.{menu_shape, menu_value, IsChoice};
ghost use Rattle.rpc_tool.specs.Lines.{line};
ghost use Rattle.rpc_tool.specs.Answers.{Answers};
ghost use Rattle.rpc_tool.specs.MenuCommands.{choice_text, listing_line, menu_text, IsMenuShown};
ghost use Rattle.rpc_tool.specs.Spelled.{IsSpelled};
ghost use Rattle.rpc_tool.specs.ValueCommands.{IsShowRefusal};

use crate::answers::Answer;
use crate::spelled::{Spelled, read_spelled};
use crate::versions::Wanted;
use bp_text::{put_decimal, put_quoted};
use bp_value::{OutOfMemory, Shape, Value};
use rpc_schema::{Listing, best, menu_desc, menu_from};
use std::alloc::Global;

/// Writes the entries of the menu that the bytes of a hex text spell, and the version that is
/// chosen. The time is linear in the text, and in the versions wanted for each entry of the name.
pub fn menu(alloc: Global, wanted: &Wanted, input: &[u8]) -> Result<Answer, OutOfMemory>
    ensures { IfOk result (Answers (IsMenuShown wanted.now.name wanted.now.own input.now)
        (IsShowRefusal (form_of menu_shape) input.now)) }
{
    match read_menu(alloc, input)? {
        Spelled::Value { value, .. } => Ok(Answer::Done(listed(alloc, wanted, &value)?)),
        Spelled::Refused(line) => Ok(Answer::Refused(line)),
    }
}

// The value of a menu that the bytes of a hex text spell.
fn read_menu(alloc: Global, input: &[u8]) -> Result<Spelled, OutOfMemory>
    ensures { IfOk result (IsSpelled (form_of menu_shape) input.now) }
{
    let shape = menu_shape(alloc)?;
    read_spelled(alloc, &shape, input)
}

// The shape of a menu.
fn menu_shape(alloc: Global) -> Result<Shape, OutOfMemory>
    ensures { IfOk result (λ shape. shape ≡ menu_shape) }
{
    Ok(menu_desc(alloc)?.first)
}

// The lines of a menu's entries, and the one of the choice.
fn listed(alloc: Global, wanted: &Wanted, value: &Value) -> Result<Vec<u8>, OutOfMemory>
    requires { IsAnyOf (form_of menu_shape) value.now }
    ensures { IfOk result (λ text. (ls : List Listing) × (choice : Option ℤ)
        × (value.now ≡ menu_value ls) × IsChoice wanted.now.own ls wanted.now.name choice
        × (text.items ≡ menu_text ls choice)) }
{
    let menu = menu_from(alloc, value)?;
    let choice = best(wanted.own.as_slice(), &menu, wanted.name.as_slice());
    let mut text = Vec::new(alloc);
    for listing in menu.entries.as_slice() {
        put_listing(listing, &mut text)?;
    }
    put_choice(choice, &mut text)?;
    Ok(text)
}

// The line of an entry. Where memory runs out a front of it may have been appended.
fn put_listing(listing: &Listing, out: &mut Vec<u8>) -> Result<(), OutOfMemory>
    ensures { OnOk result (out.new.items ≡ out.old.items ++ listing_line listing.now) }
{
    put_quoted(listing.name.as_slice(), out)?;
    out.push(b' ')?;
    put_decimal(listing.version, out)?;
    out.push(b'\n')?;
    Ok(())
}

// The line of the choice, or a front of it.
fn put_choice(choice: Option<i64>, out: &mut Vec<u8>) -> Result<(), OutOfMemory>
    ensures { OnOk result (out.new.items
        ≡ out.old.items ++ line (codes "choice " ++ choice_text choice)) }
{
    out.extend_from_slice(b"choice ")?;
    match choice {
        Some(version) => put_decimal(version, out)?,
        None => out.extend_from_slice(b"none")?,
    }
    out.push(b'\n')?;
    Ok(())
}
