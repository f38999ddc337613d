//! Resolved profiles.

ghost use Rattle.std.specs.Prelude.{◌≡◌};
ghost use Rattle.sem_profile.specs.Resolved.{IsSound};

use crate::asked::AskedField;
use crate::{Method, MethodSizes};
use sqlite_items::Items;
use std::marker::Model;

/// A resolved profile: its methods in the order of the text, where those that the top doesn't reach have no formats; the bounds of each; the place of
/// the top among them; and the asked fields of the top. It is within the limits of `too_large`.
#[derive(Drop)]
pub struct Profile {
    methods: Items<Method>,
    sizes: Items<MethodSizes>,
    top: usize,
    asked: Items<AskedField>,
}

impl Model for Profile {
    ghost use Rattle.sem_profile.specs.Resolved.{Resolved, IsSound};
    ghost use Rattle.sem_expr.specs.contracts.expr.Expr as expr;
    ghost use Rattle.sem_expr.specs.contracts.expr.Cond as cond;
    ghost use Rattle.std.specs.Coded.{codes};

    ghost Value = { Resolved };

    ghost coded = { Prim.hlevel (codes, expr.the_row.coded, cond.the_row.coded) };

    ghost view = { λ p. record { methods = p.methods; sizes = p.sizes; top = p.top; asked = p.asked } };

    ghost invariant = { λ p. IsSound (record { methods = p.methods; sizes = p.sizes; top = p.top; asked = p.asked }) };
}

impl Profile {
    /// The profile of these methods with their bounds and the top's asked fields.
    pub fn of(
        methods: Items<Method>,
        sizes: Items<MethodSizes>,
        top: usize,
        asked: Items<AskedField>,
    ) -> Profile
        requires { IsSound (record { methods = methods; sizes = sizes; top = top; asked = asked }) }
        ensures methods { result.methods ≡ methods }
        ensures sizes { result.sizes ≡ sizes }
        ensures top { result.top ≡ top }
        ensures asked { result.asked ≡ asked }
    {
        Profile {
            methods,
            sizes,
            top,
            asked,
        }
    }

    /// The methods in the order of the text.
    pub fn methods(&self) -> &[Method]
        ensures { result.now ≡ self.now.methods }
    {
        self.methods.as_slice()
    }

    /// The bounds of each method.
    pub fn sizes(&self) -> &[MethodSizes]
        ensures { result.now ≡ self.now.sizes }
    {
        self.sizes.as_slice()
    }

    /// A law of profiles: what each one keeps.
    pub fn keeps(&self)
        ensures { IsSound self.now }
    {
        let _ = &self.methods;
    }

    /// The place of the top among the methods.
    pub fn top(&self) -> usize
        ensures { result ≡ self.now.top }
    {
        self.top
    }

    /// The asked fields of the top, in the order of CONTROL.
    pub fn asked(&self) -> &[AskedField]
        ensures { result.now ≡ self.now.asked }
    {
        self.asked.as_slice()
    }
}
