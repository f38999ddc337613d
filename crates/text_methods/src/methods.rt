//! A method of a file in its normal form.

ghost use Rattle.std.specs.Prelude.{◌≡◌, List, IfOk};
ghost use Rattle.sem_profile.specs.Precedence.{Judged};
ghost use Rattle.text_sections.specs.declared.mention.Mention.{Mention as ListedMention};
ghost use Rattle.text_sections.specs.Tables.{IsTable};
ghost use Rattle.text_sections.specs.Mentions.{encoded as encoded_mentions, mentions_in as mentions_of_group};
ghost use Rattle.text_methods.specs.Worded.{AreSectionsWorded, MethodIsWorded};
ghost use Rattle.text_methods.specs.Drafts as drafts;
ghost use Rattle.text_statements.specs.Givens.{AreGiven, IsNotGiven};
ghost use Rattle.text_methods.specs.MethodFormats.{AreFormats, FormatCause};
ghost use Rattle.text_methods.specs.Methods as spec;

use crate::defaults::default_fault;
use crate::method_formats::{Formats, listed_formats};
use crate::parameters::{parameter_names, parameter_table};
use crate::{Setting, kept_statements};
use sem_profile::{Format, Method, Name, ProfileFault, Words, earlier, word};
use sqlite_items::Items;
use std::alloc::{AllocError, Global};
use text_sections::{Group, Table, encoded, judge, mentions};
use text_statements::{Givens, JudgedGivens, Methods, Scope, given};
use text_tree::{Section, tree};

/// What all methods of a file have in common: its text, its constants with their values, and its methods' names and counts of parameters.
#[derive(Drop)]
pub struct FileSetting<'a, 't> {
    pub text: &'t [u8],
    pub constants: &'a Words<'t>,
    pub values: &'a [i128],
    pub methods: &'a Methods<'a, 't>,
    /// The table of the places where constants are named.
    pub listed: &'a Table<'t>,
}

/// A method, and the earliest fault in it. With a fault the method is not whole.
#[derive(Drop)]
pub struct MethodDraft {
    pub method: Method,
    pub fault: Option<ProfileFault>,
}

/// The normal form of a method of the file. The top method alone has asked fields.
pub fn resolved_method(
    alloc: Global,
    file: &FileSetting<'_, '_>,
    method: &tree::Method,
    is_top: bool,
) -> Result<MethodDraft, AllocError>
    requires { MethodIsWorded file.now.text.now method.now }
    ensures { (names : List ListedMention) → IsTable file.now.text.now names file.now.listed.now → IfOk result (λ d. Judged (spec.IsMethod file.now names method.now is_top d.method) (spec.MethodCause file.now names method.now) d.fault) }
{
    let named = judge(alloc, file.text, file.listed, method)?;
    let body = method_body(alloc, file, method, is_top)?;
    let name = Name::of_octets(alloc, word(file.text, method.name))?;
    let parameters = parameter_names(alloc, file.text, method.parameters.as_slice())?;
    Ok(MethodDraft {
        method: Method {
            name,
            place: method.name,
            parameters,
            formats: body.formats,
        },
        fault: earlier(named, body.fault),
    })
}

/// What a method's sections give, and the earliest fault in them but for their names.
#[derive(Drop)]
pub struct MethodBody {
    pub formats: Items<Format>,
    pub fault: Option<ProfileFault>,
}

fn method_body(
    alloc: Global,
    file: &FileSetting<'_, '_>,
    method: &tree::Method,
    is_top: bool,
) -> Result<MethodBody, AllocError>
    requires { AreSectionsWorded file.now.text.now method.now.sections }
    ensures { IfOk result (λ b. Judged (spec.IsBody file.now method.now is_top b.formats) (spec.BodyCause file.now method.now) b.fault) }
{
    let parameters = parameter_table(alloc, file.text, method.parameters.as_slice())?;
    let given = givens_with(alloc, file, method, &parameters, is_top)?;
    let body = body_with(alloc, file, method, &parameters, &given.givens)?;
    Ok(MethodBody {
        formats: body.formats,
        fault: earlier(given.fault, body.fault),
    })
}

/// What a method with these parameters is given.
fn givens_with<'t>(
    alloc: Global,
    file: &FileSetting<'_, 't>,
    method: &tree::Method,
    parameters: &Words<'t>,
    is_top: bool,
) -> Result<JudgedGivens<'t>, AllocError>
    requires { parameters.now ≡ spec.distinct_words file.now.text.now method.now.parameters }
    ensures { IfOk result (λ g. Judged (AreGiven (spec.bare_scope file.now method.now) method.now.sections is_top g.givens) (IsNotGiven (spec.bare_scope file.now method.now) method.now.sections) g.fault) }
{
    let none = Words::new(alloc);
    let scope = Scope::new(file.text, file.constants, file.values, parameters, &none);
    given(alloc, file.text, &scope, method.sections.as_slice(), is_top)
}

/// The body of a method with these parameters and givens.
fn body_with<'t>(
    alloc: Global,
    file: &FileSetting<'_, 't>,
    method: &tree::Method,
    parameters: &Words<'t>,
    givens: &Givens<'t>,
) -> Result<MethodBody, AllocError>
    requires parameters { parameters.now ≡ spec.distinct_words file.now.text.now method.now.parameters }
    requires sections { AreSectionsWorded file.now.text.now method.now.sections }
    ensures { IfOk result (λ b. spec.HasFormats file.now method.now givens.now b.formats b.fault) }
{
    let sections = method.sections.as_slice();
    let base = encoded_in(alloc, file.text, Group::Base, sections)?;
    let default = encoded_in(alloc, file.text, Group::Default, sections)?;
    let setting = Setting {
        text: file.text,
        constants: file.constants,
        values: file.values,
        parameters,
        methods: file.methods,
        sections,
        base: &base,
        default: &default,
        initial_names: &givens.names,
        initial_values: givens.values.as_slice(),
        asked: &givens.asked,
    };
    body_of(alloc, &setting)
}

/// The body of the method of this setting.
fn body_of(alloc: Global, setting: &Setting<'_, '_>) -> Result<MethodBody, AllocError>
    requires { AreSectionsWorded setting.now.text.now setting.now.sections.now }
    ensures { IsTable setting.now.text.now (drafts.base setting.now) setting.now.base.now → IsTable setting.now.text.now (drafts.default setting.now) setting.now.default.now → IfOk result (λ b. spec.AreListed setting.now b.formats b.fault) }
{
    let listed = formats_of(alloc, setting)?;
    let defaults = default_fault(alloc, setting)?;
    Ok(MethodBody {
        formats: listed.found,
        fault: earlier(listed.fault, defaults),
    })
}

/// The formats of the method of this setting. What they share is kept for so long.
fn formats_of(alloc: Global, setting: &Setting<'_, '_>) -> Result<Formats, AllocError>
    requires { AreSectionsWorded setting.now.text.now setting.now.sections.now }
    ensures { IsTable setting.now.text.now (drafts.base setting.now) setting.now.base.now → IsTable setting.now.text.now (drafts.default setting.now) setting.now.default.now → IfOk result (λ all. Judged (AreFormats setting.now 0 setting.now.sections.now all.found) (FormatCause setting.now) all.fault) }
{
    let kept = kept_statements(alloc, setting)?;
    listed_formats(alloc, setting, &kept)
}

/// The table of the encoded fields of a group of sections.
fn encoded_in<'t>(
    alloc: Global,
    text: &'t [u8],
    group: Group,
    sections: &[Section],
) -> Result<Table<'t>, AllocError>
    ensures { IfOk result (IsTable text.now (encoded_mentions (mentions_of_group text.now group 0 sections.now))) }
{
    let all = mentions(alloc, text, sections, group)?;
    let bound = encoded(alloc, all.as_slice())?;
    Table::of(alloc, text, bound.as_slice())
}
