//! A certificate that grows as its lines are read one by one.

ghost use Rattle.std.specs.Prelude.{◌≡◌, ◌-◌, ◌≤◌, ◌∷◌, ◌++◌, [], length, map, IfOk, OnOk, MatchOption};
ghost use Rattle.std.specs.Option.{option_copied};
ghost use Rattle.cert_text.specs.declared.draft.Stage.TheVariants as stage;
ghost use Rattle.cert_text.specs.Drafts as spec;
ghost use Rattle.cert_types.specs.Kept.{owed_after, depth_limit};
ghost use Rattle.cert_text.specs.Shapes as shapes;

use crate::words::{node_of, place_of_format, place_of_method, step_of, version_of};
use cert_types::{
    DEPTH_LIMIT, FormatPlans, MethodPlans, NODE_LIMIT, Node, Plans, STEP_LIMIT, Step, Version,
};
use sem_profile::{Format, Method};
use sqlite_items::Items;
use std::alloc::{AllocError, Global};
use std::marker::Model;
use std::mem;

/// What the next line may be.
#[derive(Clone, Copy)]
pub enum Stage {
    /// The version.
    Version,
    /// A method, or the end.
    Between,
    /// A node.
    Tree,
    /// A format, a method, or the end.
    Formats,
    /// The line that begins the plan to read.
    Head,
    /// A step to read, or the line that begins the plan to write.
    Read,
    /// A step to write, or what may come after the format.
    Write,
    /// Nothing.
    End,
}

/// Where a line stands: what it may be, and the places of the method and the format that are open, or come next.
#[derive(Clone, Copy)]
pub struct Standing {
    pub version: Version,
    pub stage: Stage,
    pub method: usize,
    pub format: usize,
}

/// The depths of the trees that are still to come, the next one first.
#[derive(Drop)]
pub struct Owed {
    depths: Items<usize>,
}

impl Model for Owed {
    ghost use Rattle.std.specs.Prelude.{List, ℕ, reverse};

    ghost Value = { List ℕ };

    ghost view = { λ o. reverse o.depths };
}

impl Owed {
    fn new(alloc: Global) -> Owed
        ensures { result ≡ [] }
    {
        Owed {
            depths: Items::new(alloc),
        }
    }

    fn push(&mut self, depth: usize) -> Result<(), AllocError>
        ensures { OnOk result (self.new ≡ depth ∷ self.old) }
    {
        self.depths.push(depth)
    }

    /// What comes after the node after which these are to come.
    fn after_node(&self) -> Stage
        ensures { result ≡ spec.after_node self.now }
    {
        if self.depths.is_empty() {
            Stage::Formats
        } else {
            Stage::Tree
        }
    }

    fn pop(&mut self) -> Option<usize>
        ensures { MatchOption result (self.old ≡ []) (λ depth. self.old ≡ depth ∷ self.new) }
    {
        self.depths.pop()
    }
}

/// A certificate whose lines are read so far, of the first version until its line tells another one. What is said of the methods before the one that is open, by their places; of the open one its nodes, the
/// depths of the trees that are still to come, and its formats before the one that is open; of that one its steps.
#[derive(Drop)]
pub struct Draft {
    pub version: Version,
    pub stage: Stage,
    pub entries: Items<Option<MethodPlans>>,
    pub tree: Items<Node>,
    pub owed: Owed,
    pub formats: Items<FormatPlans>,
    pub read: Items<Step>,
    pub write: Items<Step>,
}

impl Draft {
    /// Before the first line.
    pub fn new(alloc: Global) -> Draft
        ensures { result ≡ spec.start }
    {
        Draft {
            version: Version::One,
            stage: Stage::Version,
            entries: Items::new(alloc),
            tree: Items::new(alloc),
            owed: Owed::new(alloc),
            formats: Items::new(alloc),
            read: Items::new(alloc),
            write: Items::new(alloc),
        }
    }

    /// Takes the words of a line. Whether they may come next.
    pub fn next(
        &mut self,
        alloc: Global,
        methods: &[Method],
        words: &[&str],
    ) -> Result<bool, AllocError>
        ensures { IfOk result (λ taken. spec.next methods.now self.old (map (λ w. w.now) words.now) ≡ spec.when taken self.new) }
    {
        match words {
            [word] => self.one_word(alloc, methods, word),
            [word, name] => self.two_words(alloc, methods, word, name),
            [word, more @ ..] => self.inner(methods, word, more),
            [] => Ok(false),
        }
    }

    fn one_word(
        &mut self,
        alloc: Global,
        methods: &[Method],
        word: &str,
    ) -> Result<bool, AllocError>
        ensures { IfOk result (λ taken. spec.one_word methods.now self.old word.now ≡ spec.when taken self.new) }
    {
        if word == "read" {
            return Ok(self.turn(Stage::Head, Stage::Read));
        }
        if word == "write" {
            return Ok(self.turn(Stage::Read, Stage::Write));
        }
        if word == "end" {
            self.close_format(alloc, methods)?;
            self.close_method(alloc, methods)?;
            return self.finish(methods);
        }
        self.inner(methods, word, &[])
    }

    fn two_words(
        &mut self,
        alloc: Global,
        methods: &[Method],
        word: &str,
        name: &str,
    ) -> Result<bool, AllocError>
        ensures { IfOk result (λ taken. spec.two_words methods.now self.old word.now name.now ≡ spec.when taken self.new) }
    {
        if word == "method" {
            self.close_format(alloc, methods)?;
            self.close_method(alloc, methods)?;
            return self.begin_method(methods, name);
        }
        if word == "format" {
            self.close_format(alloc, methods)?;
            return self.begin_format(alloc, methods, name);
        }
        if word == "rohcfn-certificate" {
            return Ok(self.begin(name));
        }
        self.inner(methods, word, &[name])
    }
}

impl Draft {
    /// Where the next line stands.
    pub fn stands(&self) -> Standing
        ensures { result ≡ shapes.stands_at self.now }
    {
        Standing {
            version: self.version,
            stage: self.stage,
            method: self.entries.len(),
            format: self.formats.len(),
        }
    }

    /// Whether all is read.
    pub fn is_whole(&self) -> bool
        ensures { result ≡ spec.is_stage self.now.stage stage.End }
    {
        same(self.stage, Stage::End)
    }

    /// Takes the version's name. Whether it may come next.
    fn begin(&mut self, name: &str) -> bool
        ensures { spec.begin self.old name.now ≡ spec.when result self.new }
    {
        let Some(version) = version_of(name) else {
            return false;
        };
        if !same(self.stage, Stage::Version) {
            return false;
        }
        self.version = version;
        self.stage = Stage::Between;
        true
    }

    /// Goes from one stage to another. Whether it was at the first.
    fn turn(&mut self, from: Stage, to: Stage) -> bool
        ensures { spec.when (spec.is_stage self.old.stage from) (spec.at to self.old) ≡ spec.when result self.new }
    {
        if !same(self.stage, from) {
            return false;
        }
        self.stage = to;
        true
    }

    /// A line that is no heading: a node, or a step.
    fn inner(&mut self, methods: &[Method], word: &str, more: &[&str]) -> Result<bool, AllocError>
        ensures { IfOk result (λ taken. spec.inner_at self.old.stage methods.now self.old word.now (map (λ w. w.now) more.now) ≡ spec.when taken self.new) }
    {
        match self.stage {
            Stage::Tree => self.node(methods, word, more),
            Stage::Read => self.read_step(methods, word, more),
            Stage::Write => self.write_step(methods, word, more),
            Stage::Version | Stage::Between | Stage::Formats | Stage::Head | Stage::End => Ok(
                false,
            ),
        }
    }

    fn node(&mut self, methods: &[Method], word: &str, more: &[&str]) -> Result<bool, AllocError>
        ensures { IfOk result (λ taken. spec.inner_at stage.Tree methods.now self.old word.now (map (λ w. w.now) more.now) ≡ spec.when taken self.new) }
    {
        let Some(method) = methods.get(self.entries.len()) else {
            return Ok(false);
        };
        let Some(node) = node_of(self.version, method, word, more) else {
            return Ok(false);
        };
        self.with_node(node)
    }

    fn with_node(&mut self, node: Node) -> Result<bool, AllocError>
        ensures { IfOk result (λ taken. spec.with_node self.old node ≡ spec.when taken self.new) }
    {
        let Some(depth) = self.owed.pop() else {
            return Ok(false);
        };
        if self.tree.len() >= NODE_LIMIT || depth > DEPTH_LIMIT {
            return Ok(false);
        }
        self.tree.push(node)?;
        owe(&mut self.owed, node, depth)?;
        self.stage = self.owed.after_node();
        Ok(true)
    }

    fn read_step(
        &mut self,
        methods: &[Method],
        word: &str,
        more: &[&str],
    ) -> Result<bool, AllocError>
        ensures { IfOk result (λ taken. spec.inner_at stage.Read methods.now self.old word.now (map (λ w. w.now) more.now) ≡ spec.when taken self.new) }
    {
        let Some(format) = self.open_format(methods) else {
            return Ok(false);
        };
        let Some(step) = step_of(format, word, more) else {
            return Ok(false);
        };
        if self.read.len() >= STEP_LIMIT {
            return Ok(false);
        }
        self.read.push(step)?;
        Ok(true)
    }

    fn write_step(
        &mut self,
        methods: &[Method],
        word: &str,
        more: &[&str],
    ) -> Result<bool, AllocError>
        ensures { IfOk result (λ taken. spec.inner_at stage.Write methods.now self.old word.now (map (λ w. w.now) more.now) ≡ spec.when taken self.new) }
    {
        let Some(format) = self.open_format(methods) else {
            return Ok(false);
        };
        let Some(step) = step_of(format, word, more) else {
            return Ok(false);
        };
        if self.write.len() >= STEP_LIMIT {
            return Ok(false);
        }
        self.write.push(step)?;
        Ok(true)
    }

    /// The format that is open, or the next one.
    fn open_format<'a>(&self, methods: &'a [Method]) -> Option<&'a Format>
        ensures { option_copied result ≡ spec.open_format methods.now self.now }
    {
        let method = methods.get(self.entries.len())?;
        method.formats.as_slice().get(self.formats.len())
    }

    /// After the last step of a format the format is done.
    fn close_format(&mut self, alloc: Global, methods: &[Method]) -> Result<(), AllocError>
        ensures { OnOk result (self.new ≡ spec.close_format methods.now self.old) }
    {
        if !same(self.stage, Stage::Write) {
            return Ok(());
        }
        match self.open_format(methods) {
            Some(format) => self.push_format(alloc, format),
            None => Ok(()),
        }
    }

    fn push_format(&mut self, alloc: Global, format: &Format) -> Result<(), AllocError>
        ensures { OnOk result (self.new ≡ spec.with_format self.old format.now) }
    {
        let plans = Plans {
            read: mem::replace(&mut self.read, Items::new(alloc)),
            write: mem::replace(&mut self.write, Items::new(alloc)),
        };
        let entry = FormatPlans::of(alloc, format, Some(plans))?;
        self.formats.push(entry)?;
        self.stage = Stage::Formats;
        Ok(())
    }

    /// After the last format of a method the method is done.
    fn close_method(&mut self, alloc: Global, methods: &[Method]) -> Result<(), AllocError>
        ensures { OnOk result (self.new ≡ spec.close_method methods.now self.old) }
    {
        if !same(self.stage, Stage::Formats) {
            return Ok(());
        }
        match methods.get(self.entries.len()) {
            Some(method) => self.push_method(alloc, method),
            None => Ok(()),
        }
    }

    fn push_method(&mut self, alloc: Global, method: &Method) -> Result<(), AllocError>
        ensures { OnOk result (self.new ≡ spec.with_method self.old method.now) }
    {
        let formats = method.formats.as_slice();
        push_blanks(alloc, &mut self.formats, formats, formats.len())?;
        let tree = mem::replace(&mut self.tree, Items::new(alloc));
        let formats = mem::replace(&mut self.formats, Items::new(alloc));
        let entry = MethodPlans::of(alloc, method, tree, formats)?;
        self.entries.push(Some(entry))?;
        self.stage = Stage::Between;
        Ok(())
    }

    fn begin_method(&mut self, methods: &[Method], name: &str) -> Result<bool, AllocError>
        ensures { IfOk result (λ taken. spec.begin_method methods.now self.old name.now ≡ spec.when taken self.new) }
    {
        let Some(place) = place_of_method(methods, name) else {
            return Ok(false);
        };
        let Some(method) = methods.get(place) else {
            return Ok(false);
        };
        if !same(self.stage, Stage::Between)
            || self.entries.len() > place
            || method.formats.is_empty()
        {
            return Ok(false);
        }
        push_nones(&mut self.entries, place)?;
        self.owed.push(1)?;
        self.stage = Stage::Tree;
        Ok(true)
    }

    fn begin_format(
        &mut self,
        alloc: Global,
        methods: &[Method],
        name: &str,
    ) -> Result<bool, AllocError>
        ensures { IfOk result (λ taken. spec.begin_format methods.now self.old name.now ≡ spec.when taken self.new) }
    {
        let Some(method) = methods.get(self.entries.len()) else {
            return Ok(false);
        };
        let Some(place) = place_of_format(method, name) else {
            return Ok(false);
        };
        if !same(self.stage, Stage::Formats) || self.formats.len() > place {
            return Ok(false);
        }
        push_blanks(alloc, &mut self.formats, method.formats.as_slice(), place)?;
        self.stage = Stage::Head;
        Ok(true)
    }

    fn finish(&mut self, methods: &[Method]) -> Result<bool, AllocError>
        ensures { IfOk result (λ taken. spec.finish methods.now self.old ≡ spec.when taken self.new) }
    {
        if !same(self.stage, Stage::Between) {
            return Ok(false);
        }
        push_nones(&mut self.entries, methods.len())?;
        self.stage = Stage::End;
        Ok(true)
    }
}

/// Whether two stages are one.
fn same(one: Stage, other: Stage) -> bool
    ensures { result ≡ spec.is_stage one other }
{
    match one {
        Stage::Version => matches!(other, Stage::Version),
        Stage::Between => matches!(other, Stage::Between),
        Stage::Tree => matches!(other, Stage::Tree),
        Stage::Formats => matches!(other, Stage::Formats),
        Stage::Head => matches!(other, Stage::Head),
        Stage::Read => matches!(other, Stage::Read),
        Stage::Write => matches!(other, Stage::Write),
        Stage::End => matches!(other, Stage::End),
    }
}

/// The trees that are to come after a node at a depth.
fn owe(owed: &mut Owed, node: Node, depth: usize) -> Result<(), AllocError>
    requires { depth ≤ depth_limit }
    ensures { OnOk result (owed.new ≡ owed_after node depth owed.old) }
{
    match node {
        Node::Bit(_) => owe_two(owed, depth + 1),
        Node::Parameter(_, _) => owe_two(owed, depth + 1),
        Node::Reference(_, _) => owe_two(owed, depth + 1),
        Node::Leaf(_) => Ok(()),
        Node::Nowhere => Ok(()),
    }
}

fn owe_two(owed: &mut Owed, depth: usize) -> Result<(), AllocError>
    ensures { OnOk result (owed.new ≡ depth ∷ depth ∷ owed.old) }
{
    owed.push(depth)?;
    owed.push(depth)
}

/// Says nothing of the methods up to a place.
fn push_nones(entries: &mut Items<Option<MethodPlans>>, to: usize) -> Result<(), AllocError>
    ensures { OnOk result (entries.new ≡ entries.old ++ spec.nones (to - length entries.old)) }
{
    for _ in entries.len()..to {
        entries.push(None)?;
    }
    Ok(())
}

/// Adds the formats up to a place, without plans.
fn push_blanks(
    alloc: Global,
    entries: &mut Items<FormatPlans>,
    formats: &[Format],
    to: usize,
) -> Result<(), AllocError>
    ensures { OnOk result (entries.new ≡ entries.old ++ spec.blanks formats.now (length entries.old) to) }
{
    for place in entries.len()..to {
        if let Some(format) = formats.get(place) {
            entries.push(FormatPlans::of(alloc, format, None)?)?;
        }
    }
    Ok(())
}
