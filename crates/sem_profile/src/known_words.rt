//! The names in methods.

ghost use Rattle.std.specs.Prelude.{◌≡◌, true};
ghost use Rattle.std.specs.List.{list_all};
ghost use Rattle.sem_profile.specs.Words.{is_name};
ghost use Rattle.sem_profile.specs.Named as spec;

use crate::{Field, Format, Method, Name};

/// A law of methods: each name in them is a letter, then letters, digits and underscores.
pub fn are_words(methods: &[Method])
    ensures { spec.AreWords methods.now }
{
    for method in methods {
        method_words(method);
    }
}

fn method_words(method: &Method)
    ensures { spec.method_has_words method.now ≡ true }
{
    method.name.keeps();
    parameter_words(method.parameters.as_slice());
    format_words(method.formats.as_slice());
}

fn parameter_words(names: &[Name])
    ensures { list_all is_name names.now ≡ true }
{
    for name in names {
        name.keeps();
    }
}

fn format_words(formats: &[Format])
    ensures { list_all spec.format_has_words formats.now ≡ true }
{
    for format in formats {
        format_name(&format.name);
        field_words(format.fields.as_slice());
    }
}

fn format_name(name: &Option<Name>)
    ensures { spec.is_name_if_any name.now ≡ true }
{
    if let Some(name) = name {
        name.keeps();
    }
}

fn field_words(fields: &[Field])
    ensures { list_all spec.field_has_word fields.now ≡ true }
{
    for field in fields {
        field.declared.name.keeps();
    }
}
