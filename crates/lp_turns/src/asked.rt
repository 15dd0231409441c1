//! What a program that is asked goes by.

ghost use Rattle.std.specs.Prelude.{◌≡◌, [], Some, None, IfOk, MatchOption, map, string_bytes};
ghost use Rattle.lp_core.specs.Store.{program_of};
ghost use Rattle.lp_core.specs.JoinMeaning.{texts_of};
ghost use Rattle.lp_core.specs.FrameView.{state_of};
ghost use Rattle.lp_core.specs.Endings.{Ends};
ghost use Rattle.lp_core.specs.Eval.{run_call};
ghost use Rattle.lp_turns.specs.Readings.{field_values};

use crate::readings::{field_values, strings_of};
use lp_core::{Ending, Setting, Value, World, call};
use std::alloc::{AllocError, Global};
use std::marker::Model;

/// A program on its items, and the parameters that the fields of its machine are, by number.
#[derive(Drop)]
pub struct Asked<'p> {
    alloc: Global,
    setting: Setting<'p>,
    fields: &'p [Option<usize>],
}

impl<'p> Model for Asked<'p> {
    ghost use Rattle.lp_turns.specs.Asking.{Asking};

    ghost Value = { Asking };

    ghost use Rattle.std.specs.Coded.{codes};
    ghost use Rattle.lp_core.specs.contracts.expr.Function as function;
    ghost use Rattle.lp_core.specs.contracts.expr.Table as table;

    ghost coded = { Prim.hlevel (codes, function.the_row.coded, table.the_row.coded) };

    ghost use Rattle.lp_core.specs.Store.{program_of};

    ghost view = { λ a. record { program = program_of a.setting; fields = a.fields.now } };
}

impl<'p> Asked<'p> {
    /// A program with its fields.
    pub fn new(alloc: Global, setting: Setting<'p>, fields: &'p [Option<usize>]) -> Asked<'p>
        ensures { result ≡ record { program = program_of setting.entry; fields = fields.now } }
    {
        Asked {
            alloc,
            setting,
            fields,
        }
    }

    /// The allocator that it was made with.
    pub fn alloc(&self) -> Global {
        self.alloc
    }

    /// Whether items have the locations that they were given.
    pub fn is_located(&self) -> bool
        ensures { result ≡ self.now.program.located }
    {
        self.setting.located
    }

    /// The values of the fields, if each is a parameter of the grammar.
    pub fn field_values(&self) -> Result<Option<Vec<Value>>, AllocError>
        ensures { IfOk result (λ o. MatchOption o (field_values [] self.now.fields ≡ None) (λ l. field_values [] self.now.fields ≡ Some l.items)) }
    {
        match field_values(self.alloc, self.fields)? {
            None => Ok(None),
            Some(values) => Ok(Some(values)),
        }
    }

    /// The texts that a list of texts names.
    pub fn texts(&self, v: &Value) -> Result<Option<Vec<String>>, AllocError>
        ensures { IfOk result (λ o. MatchOption o (texts_of self.now.program v.now ≡ None) (λ l. texts_of self.now.program v.now ≡ Some (map string_bytes l.items))) }
    {
        match lp_core::join::texts_of(self.alloc, &self.setting, v)? {
            None => Ok(None),
            Some(texts) => Ok(Some(strings_of(self.alloc, texts)?)),
        }
    }

    /// Calls a function, by its number.
    pub fn call(
        &self,
        world: &mut World,
        left: &mut u64,
        function: usize,
        args: Vec<Value>,
    ) -> Result<Ending, AllocError>
        ensures { IfOk result (λ ending. Ends ending (state_of world.new left.new) (run_call self.now.program function args.items (state_of world.old left.old))) }
    {
        let ending = call(self.alloc, &self.setting, world, left, function, args)?;
        Ok(ending)
    }
}
