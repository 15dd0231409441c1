//! What grows while a program is entered: its functions by name, tables and texts.

ghost use Rattle.std.specs.Prelude.{◌≡◌, ◌+◌, ◌<◌, ◌^◌, ◌++◌, [], ◌∷◌, Some, length, map, IfOk, OnOk};
ghost use Rattle.lp_core.specs.Tree.{Apply};
ghost use Rattle.lp_view.specs.PartLists.{listed};
ghost use Rattle.lp_maker.specs.Texts.{binding};
ghost use Rattle.lp_maker.specs.Slots.{after_slots};
ghost use Rattle.lp_maker.specs.Constructs.{write, joined, give_back, here, on_tags, on_option, on_result, opened, tried, absent, fitted, state, index, function_of};
ghost use Rattle.lp_maker.specs.Making.{making, unmade, number_in, with_name, with_function, declared, defined, with_text, with_table, with_variant, variant_tag, call_named, read_name, read_written, read_all, bind, bind_row, parameters, finished, entries_of, take_name};

use crate::forms::{Form, is_a};
use crate::scope::Scope;
use crate::texts::{Bound, bound_by, numbered, parted, plain_name};
use lp_core::{Case, Code, Expr, Function, Join, Leaf, Op, Place, StateType, Table, Tag, Test};
use lp_form::Part;
use lp_repr::Text;
use std::alloc::{AllocError, Global};
use std::collections::BTreeMap;

/// The code that was made so far.
#[derive(Drop)]
pub struct Maker<'p> {
    pub alloc: Global,
    /// In front of each name that the printed text makes itself.
    pub prefix: &'p str,
    /// Functions by name, without the prefix.
    names: BTreeMap<Text, usize>,
    variants: BTreeMap<Text, usize>,
    functions: Vec<Option<Function>>,
    tables: Vec<Table>,
    texts: Vec<Text>,
    /// The names of the terminals, as texts.
    pub terminals: Vec<usize>,
    /// The number of the action table among the tables; `usize::MAX` until it is known.
    pub action_table: usize,
    /// That of the table of actions at the end of input, likewise.
    pub eof_table: usize,
    /// The closure of the token source, if it has one.
    pub item_closure: Option<usize>,
}

impl<'p> Maker<'p> {
    /// Nothing is made yet. `prefix` is in front of each name that the printed text makes itself.
    pub fn new(alloc: Global, prefix: &'p str) -> Maker<'p>
        ensures { making result ≡ unmade prefix.now }
    {
        Maker {
            alloc,
            prefix,
            names: BTreeMap::new(alloc),
            variants: BTreeMap::new(alloc),
            functions: Vec::new(alloc),
            tables: Vec::new(alloc),
            texts: Vec::new(alloc),
            terminals: Vec::new(alloc),
            action_table: usize::MAX,
            eof_table: usize::MAX,
            item_closure: None,
        }
    }

    /// A number for a function that is to be made. The first one of a name has it.
    pub fn declare(&mut self, name: &str, rest: &str) -> Result<usize, AllocError>
        ensures number { IfOk result (λ n. n ≡ length (making self.old).functions) }
        ensures made { OnOk result (making self.new ≡ declared (name.now ++ rest.now) (making self.old)) }
    {
        let number = self.functions.len();
        self.functions.push(None)?;
        let name = numbered(self.alloc, name, rest)?;
        self.keep(name, number)?;
        Ok(number)
    }

    // The first number of a name is kept.
    fn keep(&mut self, name: Text, number: usize) -> Result<(), AllocError>
        ensures { OnOk result (making self.new ≡ with_name name number (making self.old)) }
    {
        match self.names.get(&name).copied() {
            Some(_) => Ok(()),
            None => {
                self.names.insert(name, number)?;
                Ok(())
            }
        }
    }

    /// The number of a function, by its name.
    pub fn find(&self, name: &str, rest: &str) -> Result<Option<usize>, AllocError>
        ensures { IfOk result (λ o. o ≡ number_in (name.now ++ rest.now) (making self.now).names) }
    {
        let name = numbered(self.alloc, name, rest)?;
        Ok(self.names.get(&name).copied())
    }

    /// Gives a declared function its body.
    pub fn define(&mut self, number: usize, function: Function)
        ensures { making self.new ≡ defined number function (making self.old) }
    {
        if number >= self.functions.len() {
            return;
        }
        self.functions[number] = Some(function);
    }

    /// A closure: a function without a name.
    pub fn closure(&mut self, function: Function) -> Result<usize, AllocError>
        ensures number { IfOk result (λ n. n ≡ length (making self.old).functions) }
        ensures made { OnOk result (making self.new ≡ with_function (Some function) (making self.old)) }
    {
        let number = self.functions.len();
        self.functions.push(Some(function))?;
        Ok(number)
    }

    /// Adds a text; answers its number, counted from 0. Fails where memory runs out.
    pub fn text(&mut self, text: Text) -> Result<usize, AllocError>
        ensures number { IfOk result (λ n. n ≡ length (making self.old).texts) }
        ensures made { OnOk result (making self.new ≡ with_text text (making self.old)) }
    {
        let number = self.texts.len();
        self.texts.push(text)?;
        Ok(number)
    }

    /// Adds a table; answers its number, counted from 0. Fails where memory runs out.
    pub fn table(&mut self, table: Table) -> Result<usize, AllocError>
        ensures number { IfOk result (λ n. n ≡ length (making self.old).tables) }
        ensures made { OnOk result (making self.new ≡ with_table (entries_of table) (making self.old)) }
    {
        let number = self.tables.len();
        self.tables.push(table)?;
        Ok(number)
    }

    /// The tag of a variant, by its name.
    pub fn variant(&mut self, name: &str) -> Result<Tag, AllocError>
        ensures tag { IfOk result (λ t. t ≡ variant_tag name.now (making self.old)) }
        ensures made { OnOk result (making self.new ≡ with_variant name.now (making self.old)) }
    {
        let name = Text::from_str(self.alloc, name)?;
        match self.variants.get(&name).copied() {
            Some(number) => Ok(Tag::Variant(number)),
            None => {
                let number = self.variants.len();
                self.variants.insert(name, number)?;
                Ok(Tag::Variant(number))
            }
        }
    }

    /// A call of a function by its name; a name that isn't there has no meaning.
    pub fn call(&self, name: &str, rest: &str, args: Vec<Expr>) -> Result<Expr, AllocError>
        ensures { IfOk result (λ r. r ≡ call_named (name.now ++ rest.now) args.items (making self.now)) }
    {
        match self.find(name, rest)? {
            None => Ok(Expr::stuck()),
            Some(number) => Ok(Expr::call(number, args)),
        }
    }

    /// What a name of the scope holds.
    pub fn name(&self, scope: &Scope, name: &str) -> Expr
        ensures { result ≡ read_name scope.now name.now }
    {
        match scope.find(name) {
            None => Expr::stuck(),
            Some(slot) => Expr::read(slot),
        }
    }

    /// What a name of the scope holds, which isn't read again.
    pub fn taken(&self, scope: &Scope, name: &str) -> Expr
        ensures { result ≡ take_name scope.now name.now }
    {
        match scope.find(name) {
            None => Expr::stuck(),
            Some(slot) => Expr::take(slot),
        }
    }

    /// What a printed name, perhaps with `&` before it, holds.
    pub fn written(&self, scope: &Scope, text: &str) -> Result<Expr, AllocError>
        ensures { IfOk result (λ r. r ≡ read_written (making self.now).prefix scope.now text.now) }
    {
        let name = plain_name(self.alloc, self.prefix, text)?;
        Ok(self.name(scope, name.as_str()))
    }

    /// What the names of a list hold, after the other arguments.
    pub fn arguments(
        &self,
        scope: &Scope,
        texts: &str,
        args: &mut Vec<Expr>,
    ) -> Result<(), AllocError>
        ensures { OnOk result (args.new.items ≡ args.old.items ++ read_all (making self.now).prefix scope.now texts.now) }
    {
        let names = parted(self.alloc, texts, ", ")?;
        self.read_each(scope, names, args)
    }

    // What these names hold, after the other arguments.
    fn read_each(
        &self,
        scope: &Scope,
        names: Vec<&str>,
        args: &mut Vec<Expr>,
    ) -> Result<(), AllocError>
        ensures { OnOk result (args.new.items ≡ args.old.items ++ map (read_written (making self.now).prefix scope.now) (map (λ name. name.now) names.entry.items)) }
    {
        for name in names {
            let value = self.written(scope, name)?;
            args.push(value)?;
        }
        Ok(())
    }

    /// The names of a function with this header; its parameters have the first slots.
    pub fn parameters(&self, header: Form<'p>) -> Result<Scope, AllocError>
        ensures { IfOk result (λ names. names ≡ parameters (making self.now).prefix (listed header.entry)) }
    {
        let mut scope = Scope::new(self.alloc);
        for row in header.parts() {
            self.bind_row(&mut scope, row)?;
        }
        Ok(scope)
    }

    // A row of a header binds what it binds, if it is a parameter.
    fn bind_row(&self, scope: &mut Scope, row: Form<'p>) -> Result<(), AllocError>
        ensures { OnOk result (scope.new ≡ bind_row (making self.now).prefix scope.old (listed row.entry)) }
    {
        if is_a(Part::ParameterRow, row) {
            self.bind(scope, bound_by(row.hole(0)))
        } else {
            Ok(())
        }
    }

    fn bind(&self, scope: &mut Scope, bound: Bound<'p>) -> Result<(), AllocError>
        ensures { OnOk result (scope.new ≡ bind (making self.now).prefix (binding bound.entry) scope.old) }
    {
        match bound {
            Bound::Nothing => Ok(()),
            Bound::Triple => {
                scope.fresh()?;
                Ok(())
            }
            Bound::Named(name) => {
                let name = plain_name(self.alloc, self.prefix, name)?;
                scope.bind(self.alloc, name.as_str())?;
                Ok(())
            }
        }
    }

    /// A function whose parameters take the first slots of the scope.
    pub fn function(&self, params: usize, scope: &Scope, body: Expr) -> Function
        ensures { result ≡ function_of params scope.now body }
    {
        Function {
            params,
            slots: scope.slots().saturating_sub(params),
            body,
        }
    }

    /// All that was made; a function without a body has no meaning.
    pub fn finish(self) -> Result<Code, AllocError>
        ensures functions { IfOk result (λ code. code.functions.items ≡ map finished (making self.entry).functions) }
        ensures tables { IfOk result (λ code. map entries_of code.tables.items ≡ (making self.entry).tables) }
        ensures texts { IfOk result (λ code. code.texts.items ≡ (making self.entry).texts) }
    {
        let Maker {
            alloc,
            functions,
            tables,
            texts,
            ..
        } = self;
        let functions = finished_all(alloc, functions)?;
        Ok(Code {
            functions,
            tables,
            texts,
        })
    }

    /// `let` and assignment: writes the value to a slot. Fails where memory runs out.
    pub fn write(&self, slot: usize, e: Expr) -> Result<Expr, AllocError>
        ensures { IfOk result (λ r. r ≡ write slot e) }
    {
        Expr::write(self.alloc, slot, e)
    }

    /// What is done with the value of `e`. Fails where memory runs out.
    pub fn apply(&self, op: Op, e: Expr) -> Result<Expr, AllocError>
        ensures { IfOk result (λ r. r ≡ Apply op e) }
    {
        Expr::apply(self.alloc, op, e)
    }

    /// `return`: ends the call with the value. Fails where memory runs out.
    pub fn give_back(&self, e: Expr) -> Result<Expr, AllocError>
        ensures { IfOk result (λ r. r ≡ give_back e) }
    {
        self.apply(Op::Return, e)
    }

    /// What is done with the values of two expressions, of which `a` comes first. Fails where
    /// memory runs out.
    pub fn pair(&self, join: Join, a: Expr, b: Expr) -> Result<Expr, AllocError>
        ensures { IfOk result (λ r. r ≡ joined join (a ∷ b ∷ [])) }
    {
        Ok(Expr::join(join, vec![in self.alloc; a, b]?))
    }

    /// Writes the parts of a value to new slots, the first of which is answered. Fails where no
    /// number is left for a slot, or memory runs out.
    pub fn unpack(
        &self,
        scope: &mut Scope,
        count: usize,
        e: Expr,
    ) -> Result<(usize, Expr), AllocError>
        ensures first { IfOk result (λ r. r.0 ≡ scope.old.next) }
        ensures fits { IfOk result (λ r. r.0 + count < 2 ^ 64) }
        ensures value { IfOk result (λ r. r.1 ≡ Apply (Op.Parts scope.old.next count) e) }
        ensures names { OnOk result (scope.new ≡ after_slots count scope.old) }
    {
        let first = scope.fresh_many(count)?;
        Ok((first, self.apply(Op::Parts(first, count), e)?))
    }

    /// A match on two tags: what is in the value of the second one is unpacked into so many slots,
    /// from the slot on, which is that of the value too.
    pub fn on_tags(
        &self,
        value: Expr,
        slot: usize,
        first: (Tag, Expr),
        second: (Tag, Expr),
    ) -> Result<Expr, AllocError>
        ensures { IfOk result (λ r. r ≡ on_tags value slot first second) }
    {
        let (first_tag, first_body) = first;
        let (second_tag, second_body) = second;
        let cases = vec![in self.alloc;
            here(Test::Is(first_tag), 0),
            here(Test::Is(second_tag), 1),
        ]?;
        let bodies = vec![in self.alloc; first_body, second_body, Expr::stuck()]?;
        Expr::select(self.alloc, value, slot, cases, bodies)
    }

    /// `match value { None => none, Some(x) => some }`, where x stands in the slot.
    pub fn on_option(
        &self,
        value: Expr,
        slot: usize,
        none: Expr,
        some: Expr,
    ) -> Result<Expr, AllocError>
        ensures { IfOk result (λ r. r ≡ on_option value slot none some) }
    {
        let inside = self.opened(slot, some)?;
        self.on_tags(value, slot, (Tag::Absent, none), (Tag::Present, inside))
    }

    /// `match value { Ok(x) => good, Err(x) => bad }`, where x stands in the slot.
    pub fn on_result(
        &self,
        value: Expr,
        slot: usize,
        good: Expr,
        bad: Expr,
    ) -> Result<Expr, AllocError>
        ensures { IfOk result (λ r. r ≡ on_result value slot good bad) }
    {
        let good = self.opened(slot, good)?;
        let bad = self.opened(slot, bad)?;
        self.on_tags(value, slot, (Tag::Success, good), (Tag::Failure, bad))
    }

    /// Puts what is in the slot's value in its place, and goes on.
    pub fn opened(&self, slot: usize, e: Expr) -> Result<Expr, AllocError>
        ensures { IfOk result (λ r. r ≡ opened slot e) }
    {
        let open = self.apply(Op::Parts(slot, 1), Expr::take(slot))?;
        Ok(Expr::block(vec![in self.alloc; open, e]?))
    }

    /// `value?`.
    pub fn tried(&self, scope: &mut Scope, value: Expr) -> Result<Expr, AllocError>
        ensures value { IfOk result (λ r. r ≡ tried scope.old.next value) }
        ensures names { OnOk result (scope.new ≡ after_slots 1 scope.old) }
    {
        let slot = scope.fresh()?;
        let error = self.apply(Op::Wrap(Tag::Failure), Expr::take(slot))?;
        let back = self.give_back(error)?;
        self.on_result(value, slot, Expr::take(slot), back)
    }

    /// `None`.
    pub fn absent(&self) -> Expr
        ensures { result ≡ absent }
    {
        Expr::plain(Leaf::Empty(Tag::Absent))
    }

    /// A number of a state type.
    pub fn state(&self, kind: Option<StateType>, number: Option<i64>) -> Expr
        ensures { result ≡ state kind number }
    {
        match kind {
            None => Expr::stuck(),
            Some(kind) => match number {
                None => Expr::stuck(),
                Some(number) => fitted(kind, kind.fitting(number)),
            },
        }
    }

    /// A printed `usize`.
    pub fn index(&self, number: Option<usize>) -> Expr
        ensures { result ≡ index number }
    {
        match number {
            Some(number) => Expr::index(number),
            None => Expr::stuck(),
        }
    }
}

// A number that fits a state type.
fn fitted(kind: StateType, number: Option<i32>) -> Expr
    ensures { result ≡ fitted kind number }
{
    match number {
        None => Expr::stuck(),
        Some(number) => Expr::plain(Leaf::State(kind, number)),
    }
}

// The functions; one without a body has no meaning.
fn finished_all(
    alloc: Global,
    functions: Vec<Option<Function>>,
) -> Result<Vec<Function>, AllocError>
    ensures { IfOk result (λ made. made.items ≡ map finished functions.items) }
{
    let mut made = Vec::new(alloc);
    for function in functions {
        made.push(finished(function))?;
    }
    Ok(made)
}

fn finished(function: Option<Function>) -> Function
    ensures { result ≡ finished function }
{
    match function {
        Some(function) => function,
        None => Function {
            params: 0,
            slots: 0,
            body: Expr::stuck(),
        },
    }
}

/// A test of the value itself.
pub fn here(test: Test, body: usize) -> Case
    ensures { result ≡ here test body }
{
    Case {
        place: Place::Here,
        test,
        body,
    }
}
