//! Objects of JSON (RFC 8259), a member at a time.

ghost use Rattle.std.specs.Prelude.{◌≡◌, ◌++◌, ◌∷◌, [], IfOk, OnOk, decimal, option_map, string_bytes};
ghost use Rattle.std.specs.Fmt.{signed_decimal};
ghost use Rattle.std.specs.Str.{IsUtf8};
ghost use Rattle.sem_bits.specs.Octets.{Holds};
ghost use Rattle.hex.specs.Hex.{encode_lower};
ghost use Rattle.tool_input.specs.BitTexts.{octets_of};
ghost use Rattle.tool_names.specs.Objects as spec;

use itoa::Buffer;
use json::{Writer, is_number};
use sem_bits::Bits;
use std::alloc::{AllocError, Global};
use std::marker::Model;

/// An object that is being written, from its bracket on. Contracts see its tokens so far.
#[derive(Drop)]
pub struct Object {
    writer: Writer,
}

impl Model for Object {
    ghost use Rattle.std.specs.Prelude.{List, ◌≡◌, []};
    ghost use Rattle.json.specs.Token.{Token, tokens_code};

    ghost Value = { List Token };

    ghost coded = { tokens_code };

    ghost view = { λ object. object.writer.tokens };

    ghost invariant = { λ object. object.writer.before ≡ [] };
}

impl Object {
    /// An object without members.
    pub fn new(alloc: Global) -> Result<Object, AllocError>
        ensures { IfOk result (λ object. object ≡ spec.opened) }
    {
        let mut writer = Writer::new(Vec::new(alloc));
        writer.begin_object()?;
        Ok(Object { writer })
    }

    /// A member that is a text.
    pub fn text(&mut self, key: &str, text: &str) -> Result<(), AllocError>
        ensures { OnOk result (self.new ≡ self.old ++ spec.text key.now text.now) }
    {
        self.writer.key(key)?;
        self.writer.string(text)
    }

    /// A member that is a text, or null where there is none.
    pub fn optional_text(&mut self, key: &str, text: Option<&str>) -> Result<(), AllocError>
        ensures { OnOk result (self.new ≡ self.old ++ spec.optional_text key.now (option_map (λ t. t.now) text.entry)) }
    {
        match text {
            Some(text) => self.text(key, text),
            None => self.null(key),
        }
    }

    /// A member that is a count.
    pub fn number(&mut self, key: &str, number: usize) -> Result<(), AllocError>
        ensures { OnOk result (self.new ≡ self.old ++ spec.number key.now number) }
    {
        self.writer.key(key)?;
        self.writer.u64(number as u64)
    }

    /// A member that is a count, or null where there is none.
    pub fn optional_number(&mut self, key: &str, number: Option<usize>) -> Result<(), AllocError>
        ensures { OnOk result (self.new ≡ self.old ++ spec.optional_number key.now number) }
    {
        match number {
            Some(number) => self.number(key, number),
            None => self.null(key),
        }
    }

    /// A member that is a number of this text, where that is one of JSON's, and else this text.
    pub fn figure(&mut self, key: &str, text: &str) -> Result<(), AllocError>
        ensures { OnOk result (self.new ≡ self.old ++ spec.figure key.now text.now) }
    {
        self.writer.key(key)?;
        if is_number(text) {
            self.writer.number(text)
        } else {
            self.writer.string(text)
        }
    }

    /// A member that is a number of up to 128 bits.
    pub fn wide(&mut self, key: &str, number: u128) -> Result<(), AllocError>
        ensures { OnOk result (self.new ≡ self.old ++ spec.figure key.now (decimal number)) }
    {
        let mut buffer = Buffer::new();
        self.figure(key, buffer.format(number))
    }

    /// The same, which may be below 0.
    pub fn signed(&mut self, key: &str, number: i128) -> Result<(), AllocError>
        ensures { OnOk result (self.new ≡ self.old ++ spec.figure key.now (signed_decimal number)) }
    {
        let mut buffer = Buffer::new();
        self.figure(key, buffer.format(number))
    }

    /// A member that is null.
    pub fn null(&mut self, key: &str) -> Result<(), AllocError>
        ensures { OnOk result (self.new ≡ self.old ++ spec.null_member key.now) }
    {
        self.writer.key(key)?;
        self.writer.null()
    }

    /// A member that is bits: their count, and their octets in hex.
    pub fn bits(&mut self, alloc: Global, key: &str, bits: &Bits) -> Result<(), AllocError>
        ensures { OnOk result (self.new ≡ self.old ++ spec.bits key.now bits.now) }
    {
        let hex = hex_of(alloc, bits)?;
        self.counted(key, bits.len(), hex.as_str())
    }

    /// A member that is so many bits, with these digits.
    pub fn counted(&mut self, key: &str, count: usize, hex: &str) -> Result<(), AllocError>
        ensures { OnOk result (self.new ≡ self.old ++ spec.counted key.now count hex.now) }
    {
        self.writer.key(key)?;
        self.writer.begin_object()?;
        self.number("bits", count)?;
        self.text("hex", hex)?;
        self.writer.end_object()
    }

    /// A member that is bits, or null where there are none.
    pub fn optional_bits(
        &mut self,
        alloc: Global,
        key: &str,
        bits: Option<&Bits>,
    ) -> Result<(), AllocError>
        ensures { OnOk result (self.new ≡ self.old ++ spec.optional_bits key.now (option_map (λ b. b.now) bits.entry)) }
    {
        match bits {
            Some(bits) => self.bits(alloc, key, bits),
            None => self.null(key),
        }
    }

    /// The beginning of a member that is an array.
    pub fn begin_array(&mut self, key: &str) -> Result<(), AllocError>
        ensures { OnOk result (self.new ≡ self.old ++ spec.array_opened key.now) }
    {
        self.writer.key(key)?;
        self.writer.begin_array()
    }

    /// The end of an array.
    pub fn end_array(&mut self) -> Result<(), AllocError>
        ensures { OnOk result (self.new ≡ self.old ++ spec.array_closed) }
    {
        self.writer.end_array()
    }

    /// The beginning of a member that is an object.
    pub fn begin_member(&mut self, key: &str) -> Result<(), AllocError>
        ensures { OnOk result (self.new ≡ self.old ++ spec.member_opened key.now) }
    {
        self.writer.key(key)?;
        self.writer.begin_object()
    }

    /// The beginning of an object in an array.
    pub fn begin_element(&mut self) -> Result<(), AllocError>
        ensures { OnOk result (self.new ≡ self.old ++ spec.opened) }
    {
        self.writer.begin_object()
    }

    /// The end of an object inside this one.
    pub fn end_object(&mut self) -> Result<(), AllocError>
        ensures { OnOk result (self.new ≡ self.old ++ spec.closed) }
    {
        self.writer.end_object()
    }

    /// A text in an array.
    pub fn element(&mut self, text: &str) -> Result<(), AllocError>
        ensures { OnOk result (self.new ≡ self.old ++ spec.element text.now) }
    {
        self.writer.string(text)
    }

    /// Adds the object as a line of its own.
    pub fn push_line(self, output: &mut String) -> Result<(), AllocError>
        ensures line { OnOk result (string_bytes output.new ≡ string_bytes output.old ++ spec.line self) }
        ensures reads_back { OnOk result (spec.ReadsBack (self ++ spec.closed)) }
    {
        let Object { mut writer } = self;
        writer.end_object()?;
        let octets = writer.into_inner();
        push_octets(output, octets.as_slice())?;
        output.push('\n')
    }
}

/// Adds octets that are a text.
fn push_octets(output: &mut String, octets: &[u8]) -> Result<(), AllocError>
    requires { IsUtf8 octets.now }
    ensures { OnOk result (string_bytes output.new ≡ string_bytes output.old ++ octets.now) }
{
    match str::from_utf8(octets) {
        Ok(text) => output.push_str(text),
        Err(_) => unreachable!(),
    }
}

/// The octets that hold bits, in hex.
fn hex_of(alloc: Global, bits: &Bits) -> Result<String, AllocError>
    ensures { IfOk result (λ text. string_bytes text ≡ encode_lower (octets_of bits.now)) }
{
    let octets = octets_in(alloc, bits)?;
    hex::encode(alloc, octets.as_slice())
}

/// The octets that hold bits.
#[tactic(auto, using(crate::proofs::OctetsHeld::octets_are))]
fn octets_in(alloc: Global, bits: &Bits) -> Result<Vec<u8>, AllocError>
    ensures { IfOk result (λ octets. octets.items ≡ octets_of bits.now) }
{
    bits.to_octets(alloc)
}
