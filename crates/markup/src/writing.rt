// The text of a page that is made piece by piece.
ghost use Rattle.std.specs.Prelude.{◌≡◌, ◌++◌, [], map, OnOk};
ghost use Rattle.std.specs.List.{flat_map};
ghost use Rattle.markup.specs.Escapes.{escaped};
ghost use Rattle.markup.specs.Nodes.{attribute_of, attribute_text, doctype, end_tag, line_end, node_text, start_tag};
ghost use Rattle.markup.specs.Nodes.Node.{Element, Text};

use crate::escapes::put_escaped;
use crate::tag::{AttributeName, Tag};
use std::alloc::{AllocError, Global};
use std::marker::Model;

/// An attribute: its name, and its value before it is escaped.
#[derive(Clone, Copy)]
pub struct Attribute<'a> {
    /// The name.
    pub name: AttributeName,
    /// The value before it is escaped.
    pub value: &'a str,
}

/// The text of a page so far.
#[derive(Drop)]
pub struct Markup {
    bytes: Vec<u8>,
}

impl Model for Markup {
    ghost use Rattle.std.specs.Prelude.{ℕ, List};

    ghost Value = { List ℕ };

    ghost view = { λ m. m.bytes.items };
}

impl Markup {
    /// Nothing yet.
    pub fn new(alloc: Global) -> Markup
        ensures { result ≡ [] }
    {
        Markup {
            bytes: Vec::new(alloc),
        }
    }

    /// What the text has its memory from.
    pub fn allocator(&self) -> Global {
        *self.bytes.allocator()
    }

    // Puts a piece as it stands.
    fn put(&mut self, piece: &str) -> Result<(), AllocError>
        ensures { OnOk result (self.new ≡ self.old ++ piece.now) }
    {
        self.bytes.extend_from_slice(piece.as_bytes())
    }

    // Puts an attribute behind a blank.
    fn attribute(&mut self, attribute: Attribute<'_>) -> Result<(), AllocError>
        ensures { OnOk result (self.new ≡ self.old ++ attribute_text (attribute_of attribute.entry)) }
    {
        self.put(" ")?;
        self.put(attribute.name.name())?;
        self.put("=\"")?;
        self.text(attribute.value.as_bytes())?;
        self.put("\"")
    }

    // Puts attributes in their order.
    fn attributes(&mut self, attributes: &[Attribute<'_>]) -> Result<(), AllocError>
        ensures { OnOk result (self.new
            ≡ self.old ++ flat_map attribute_text (map attribute_of attributes.now)) }
    {
        for attribute in attributes {
            self.attribute(*attribute)?;
        }
        Ok(())
    }

    // Puts the end of a line, where one is wanted.
    fn line_end(&mut self, wanted: bool) -> Result<(), AllocError>
        ensures { OnOk result (self.new ≡ self.old ++ line_end wanted) }
    {
        if wanted { self.put("\n") } else { Ok(()) }
    }

    /// Puts what stands in front of a page: what kind of document it is.
    #[tactic(auto, unfolding(crate::specs::Nodes::doctype))]
    pub fn doctype(&mut self) -> Result<(), AllocError>
        ensures { OnOk result (self.new ≡ self.old ++ doctype) }
    {
        self.put("<!doctype html>\n")
    }

    /// Puts a text, which is escaped.
    pub fn text(&mut self, text: &[u8]) -> Result<(), AllocError>
        ensures { OnOk result (self.new ≡ self.old ++ escaped text.now) }
    {
        put_escaped(&mut self.bytes, text)
    }

    /// Puts the start of an element.
    #[tactic(auto, unfolding(crate::specs::Nodes::start_tag))]
    pub fn start(&mut self, tag: Tag, attributes: &[Attribute<'_>]) -> Result<(), AllocError>
        ensures { OnOk result (self.new ≡ self.old ++ start_tag tag (map attribute_of attributes.now)) }
    {
        self.put("<")?;
        self.put(tag.name())?;
        self.attributes(attributes)?;
        self.put(">")?;
        self.line_end(tag.opens_line())
    }

    /// Puts the end of an element.
    #[tactic(auto, unfolding(crate::specs::Nodes::end_tag))]
    pub fn end(&mut self, tag: Tag) -> Result<(), AllocError>
        ensures { OnOk result (self.new ≡ self.old ++ end_tag tag) }
    {
        if tag.is_void() {
            return Ok(());
        }
        self.put("</")?;
        self.put(tag.name())?;
        self.put(">")?;
        self.line_end(tag.ends_line())
    }

    /// Puts an element that holds a text, which is escaped.
    pub fn element(
        &mut self,
        tag: Tag,
        attributes: &[Attribute<'_>],
        text: &[u8],
    ) -> Result<(), AllocError>
        ensures { OnOk result (self.new
            ≡ self.old ++ node_text (Element tag (map attribute_of attributes.now) (Text text.now))) }
    {
        self.start(tag, attributes)?;
        self.text(text)?;
        self.end(tag)
    }

    /// The text.
    pub fn into_bytes(self) -> Vec<u8>
        ensures { result.items ≡ self }
    {
        self.bytes
    }
}
