//! What the names in an expression stand for.

ghost use Rattle.std.specs.Prelude.{◌≡◌, [], IfOk, IfErr, IfSome};
ghost use Rattle.text_statements.specs.Names as spec;
ghost use Rattle.text_statements.specs.Constants.{earlier};
ghost use Rattle.text_statements.specs.Judged.{owner_fault, place_of};

use sem_expr::{Expr, Measure, Side, Subject};
use sem_profile::{ProfileFault, ProfileFaultKind, Words, word};
use std::marker::Model;
use text_source::Span;
use text_tree::tree;

/// The text that the names are parts of, and what they may stand for.
#[derive(Drop)]
pub struct Scope<'a, 't> {
    text: &'t [u8],
    constants: &'a Words<'t>,
    values: &'a [i128],
    parameters: &'a Words<'t>,
    fields: &'a Words<'t>,
    has_attributes: bool,
}

impl<'a, 't> Model for Scope<'a, 't> {
    ghost use Rattle.text_statements.specs.Names.{Names};

    ghost Value = { Names };

    ghost view = { λ s. record { text = s.text.now; constants = s.constants.now; values = s.values.now; parameters = s.parameters.now; fields = s.fields.now; has_attributes = s.has_attributes } };
}

impl<'a, 't> Scope<'a, 't> {
    /// The scope of a format's expressions. The values are those of the constants in their order; fields are in field order.
    pub fn new(
        text: &'t [u8],
        constants: &'a Words<'t>,
        values: &'a [i128],
        parameters: &'a Words<'t>,
        fields: &'a Words<'t>,
    ) -> Scope<'a, 't>
        ensures { result ≡ spec.names text.now constants.now values.now parameters.now fields.now }
    {
        Scope {
            text,
            constants,
            values,
            parameters,
            fields,
            has_attributes: true,
        }
    }

    /// The scope of a constant's expression: the first constants have values, there are no parameters, and no attribute may stand there.
    pub(crate) fn of_constants(
        text: &'t [u8],
        constants: &'a Words<'t>,
        values: &'a [i128],
        none: &'a Words<'t>,
    ) -> Scope<'a, 't>
        requires { none.now ≡ [] }
        ensures { result ≡ earlier text.now constants.now values.now }
    {
        Scope {
            text,
            constants,
            values,
            parameters: none,
            fields: none,
            has_attributes: false,
        }
    }

    /// The text that the names are parts of.
    pub fn text(&self) -> &'a [u8]
        ensures { result.now ≡ self.now.text }
    {
        self.text
    }

    /// The index of the field of a name, in field order.
    pub fn field(&self, name: Span) -> Option<usize>
        ensures { result ≡ spec.field_of self.now name }
    {
        self.fields.position(word(self.text, name))
    }

    /// The number of the constant at a name.
    fn constant(&self, name: Span) -> Option<i128>
        ensures { result ≡ spec.number_named self.now name }
    {
        let index = self.constants.position(word(self.text, name))?;
        self.values.get(index).copied()
    }

    /// What a name stands for by itself: a parameter, or else a constant's number.
    pub(crate) fn plain(&self, name: Span) -> Option<Expr>
        ensures value { result ≡ spec.plain self.now name }
        ensures place { IfSome result (λ e. place_of e ≡ name) }
    {
        match self.parameters.position(word(self.text, name)) {
            Some(index) => Some(Expr::Parameter(name, index)),
            None => {
                let number = self.constant(name)?;
                Some(Expr::Number(name, number))
            }
        }
    }

    /// Whose bits an attribute speaks of.
    pub(crate) fn subject(&self, owner: tree::Owner) -> Result<Subject, ProfileFault>
        ensures found { IfOk result (λ whose. spec.subject_of self.now owner ≡ Some whose) }
        ensures known { IfOk result (λ _. owner_fault self.now owner ≡ None) }
        ensures refused { IfErr result (λ f. owner_fault self.now owner ≡ Some f) }
    {
        match owner {
            tree::Owner::This => Ok(Subject::This),
            tree::Owner::Field(name) => match self.fields.position(word(self.text, name)) {
                Some(index) => Ok(Subject::Field(index)),
                None => Err(ProfileFault::about(ProfileFaultKind::UnknownName, name)),
            },
        }
    }

    /// Whether attributes may stand there.
    pub(crate) fn has_attributes(&self) -> bool
        ensures { result ≡ self.now.has_attributes }
    {
        self.has_attributes
    }
}

/// The side of an attribute's word.
pub(crate) fn side(which: tree::Attribute) -> Side
    ensures { result ≡ spec.side_of which }
{
    match which {
        tree::Attribute::Uvalue => Side::Uncompressed,
        tree::Attribute::Ulength => Side::Uncompressed,
        tree::Attribute::Cvalue => Side::Compressed,
        tree::Attribute::Clength => Side::Compressed,
    }
}

/// What an attribute's word counts.
pub(crate) fn measure(which: tree::Attribute) -> Measure
    ensures { result ≡ spec.measure_of which }
{
    match which {
        tree::Attribute::Uvalue => Measure::Value,
        tree::Attribute::Cvalue => Measure::Value,
        tree::Attribute::Ulength => Measure::Length,
        tree::Attribute::Clength => Measure::Length,
    }
}
