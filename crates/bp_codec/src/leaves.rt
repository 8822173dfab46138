// Leaves that stand side by side in a list are read in one go, straight into its values.

ghost use Rattle.std.specs.Prelude.{◌^◌, ◌<◌};
ghost use Rattle.readers.specs.Reader.{one};
ghost use Rattle.bp_grammar.specs.Spells.{char_of, unit_of};
ghost use Rattle.bp_codec.specs.Keeping.{Cuts};
ghost use Rattle.bp_codec.specs.Leaves.{bool_value, number_value, text_value, TakesItems};
ghost use Rattle.bp_codec.specs.Levels.{reach_of};
ghost use Rattle.bp_codec.specs.Taking.{Takes};

use crate::heads::{char_at, flag_at, number_at, text_at, unit_at};
use crate::levels::{Left, Level};
use crate::stop::Stop;
use bp_num::{IntKind, Why};
use bp_value::Value;
use std::alloc::Global;

impl Level {
    /// Takes a number, and in a list all that follow it.
    #[inline(never)]
    pub fn take_numbers(&mut self, kind: IntKind, rest: &mut &[u8]) -> Result<(), Stop>
        requires { reach_of self.old.left < 2 ^ 64 }
        ensures { Takes (number_value kind) self.old self.new rest.old.now rest.new.now result }
    {
        if let Left::Items { node, mut count } = self.left {
            // The cursor of the loop is a local, so that it need not be in memory.
            let mut cursor = *rest;
            let result = numbers(kind, &mut count, &mut self.values, &mut cursor);
            *rest = cursor;
            self.left = Left::Items { node, count };
            return result;
        }
        match number_at(rest, kind) {
            Ok(number) => self.put(Value::Num(number)),
            Err(stop) => Err(stop),
        }
    }

    /// Takes a unit.
    pub fn take_unit(&mut self, rest: &mut &[u8]) -> Result<(), Stop>
        requires { reach_of self.old.left < 2 ^ 64 }
        ensures { Takes (one unit_of Why.Byte) self.old self.new rest.old.now rest.new.now result }
    {
        match unit_at(rest) {
            Ok(()) => self.put(Value::Unit),
            Err(stop) => Err(stop),
        }
    }

    /// Takes a bool.
    pub fn take_bool(&mut self, rest: &mut &[u8]) -> Result<(), Stop>
        requires { reach_of self.old.left < 2 ^ 64 }
        ensures { Takes bool_value self.old self.new rest.old.now rest.new.now result }
    {
        match flag_at(rest, Why::Byte) {
            Ok(flag) => self.put(Value::Bool(flag)),
            Err(stop) => Err(stop),
        }
    }

    /// Takes a char.
    pub fn take_char(&mut self, rest: &mut &[u8]) -> Result<(), Stop>
        requires { reach_of self.old.left < 2 ^ 64 }
        ensures { Takes (one char_of Why.Byte) self.old self.new rest.old.now rest.new.now result }
    {
        match char_at(rest) {
            Ok(byte) => self.put(Value::Char(byte)),
            Err(stop) => Err(stop),
        }
    }

    /// Takes a text, and in a list all that follow it.
    #[inline(never)]
    pub fn take_texts(&mut self, alloc: Global, rest: &mut &[u8], max: u64) -> Result<(), Stop>
        requires reach { reach_of self.old.left < 2 ^ 64 }
        requires limit { max < 2 ^ 62 }
        ensures { Takes (text_value max) self.old self.new rest.old.now rest.new.now result }
    {
        if let Left::Items { node, mut count } = self.left {
            let result = texts(alloc, &mut count, &mut self.values, rest, max);
            self.left = Left::Items { node, count };
            return result;
        }
        match text_at(rest, alloc, max) {
            Ok(text) => self.put(Value::Text(text)),
            Err(stop) => Err(stop),
        }
    }
}

// Numbers until none is left, one at least.
fn numbers(
    kind: IntKind,
    count: &mut usize,
    values: &mut Vec<Value>,
    rest: &mut &[u8],
) -> Result<(), Stop>
    ensures keeps { TakesItems (number_value kind) count.old values.old.items
        count.new values.new.items rest.old.now rest.new.now result }
    ensures taken { Cuts rest.old.now rest.new.now result }
{
    'numbers: loop {
        match number_at(rest, kind) {
            Ok(number) => values.push(Value::Num(number))?,
            Err(stop) => return Err(stop),
        }
        if *count <= 1 {
            *count = 0;
            return Ok(());
        }
        *count -= 1;
    }
}

// Texts until none is left, one at least.
fn texts(
    alloc: Global,
    count: &mut usize,
    values: &mut Vec<Value>,
    rest: &mut &[u8],
    max: u64,
) -> Result<(), Stop>
    requires { max < 2 ^ 62 }
    ensures keeps { TakesItems (text_value max) count.old values.old.items
        count.new values.new.items rest.old.now rest.new.now result }
    ensures taken { Cuts rest.old.now rest.new.now result }
{
    'texts: loop {
        match text_at(rest, alloc, max) {
            Ok(text) => values.push(Value::Text(text))?,
            Err(stop) => return Err(stop),
        }
        *count = count.saturating_sub(1);
        if *count == 0 {
            return Ok(());
        }
    }
}
