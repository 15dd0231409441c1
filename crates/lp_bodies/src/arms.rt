//! The arms of a match over a header's parameters, gathered row by row.

ghost use Rattle.std.specs.Prelude.{◌≡◌, IfOk, OnOk};
ghost use Rattle.lp_view.specs.PartLists.{listed};
ghost use Rattle.lp_maker.specs.Slots.{after_slots};
ghost use Rattle.lp_maker.specs.Making.{making};
ghost use Rattle.lp_bodies.specs.Arms.{gathered, no_arms, with_header, with_case, with_number_case, with_body, choice, choice_function};

use lp_core::{Case, Expr, Function, Test};
use lp_maker::forms::Form;
use lp_maker::maker::{Maker, here};
use lp_maker::scope::Scope;
use lp_maker::texts::wide_number;
use std::alloc::{AllocError, Global};

/// The names of the header so far with the number of its parameters, the tests, and the bodies.
#[derive(Drop)]
pub struct Arms {
    pub scope: Scope,
    pub params: usize,
    pub cases: Vec<Case>,
    pub bodies: Vec<Expr>,
}

impl Arms {
    /// No names, no tests and no bodies.
    pub fn new(alloc: Global) -> Arms
        ensures { gathered result ≡ no_arms }
    {
        Arms {
            scope: Scope::new(alloc),
            params: 0,
            cases: Vec::new(alloc),
            bodies: Vec::new(alloc),
        }
    }

    /// The header's parameters are the names.
    pub fn header<'p>(&mut self, maker: &Maker<'p>, header: Form<'p>) -> Result<(), AllocError>
        ensures { OnOk result (gathered self.new ≡ with_header (making maker.now).prefix (listed header.entry) (gathered self.old)) }
    {
        let scope = maker.parameters(header)?;
        self.params = scope.slots();
        self.scope = scope;
        Ok(())
    }

    /// A test that leads to the next body.
    pub fn case(&mut self, test: Test) -> Result<(), AllocError>
        ensures { OnOk result (gathered self.new ≡ with_case test (gathered self.old)) }
    {
        let body = self.bodies.len();
        self.cases.push(here(test, body))?;
        Ok(())
    }

    /// A test for a printed number that leads to the next body, if it is one.
    pub fn number_case(&mut self, text: &str) -> Result<(), AllocError>
        ensures { OnOk result (gathered self.new ≡ with_number_case text.now (gathered self.old)) }
    {
        match wide_number(text) {
            None => Ok(()),
            Some(n) => self.case(Test::Between(n, n)),
        }
    }

    /// The next body.
    pub fn body(&mut self, body: Expr) -> Result<(), AllocError>
        ensures { OnOk result (gathered self.new ≡ with_body body (gathered self.old)) }
    {
        self.bodies.push(body)?;
        Ok(())
    }

    /// How many parameters there are, the names, and the match of a value, whose slot is the next one; what fits
    /// no test goes on with the last body.
    pub fn choice(
        self,
        alloc: Global,
        value: Expr,
        last: Expr,
    ) -> Result<(usize, Scope, Expr), AllocError>
        ensures params { IfOk result (λ r. r.0 ≡ (gathered self).params) }
        ensures names { IfOk result (λ r. r.1 ≡ after_slots 1 (gathered self).names) }
        ensures value { IfOk result (λ r. r.2 ≡ choice value last (gathered self)) }
    {
        let Arms {
            mut scope,
            params,
            cases,
            mut bodies,
        } = self;
        bodies.push(last)?;
        let slot = scope.fresh()?;
        let body = Expr::select(alloc, value, slot, cases, bodies)?;
        Ok((params, scope, body))
    }

    /// The function whose body is the match.
    pub fn finish<'p>(
        self,
        maker: &Maker<'p>,
        value: Expr,
        last: Expr,
    ) -> Result<Function, AllocError>
        ensures { IfOk result (λ f. f ≡ choice_function value last (gathered self)) }
    {
        let (params, scope, body) = self.choice(maker.alloc, value, last)?;
        Ok(maker.function(params, &scope, body))
    }
}
