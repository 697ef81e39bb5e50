//! A text of HTML as it is written, piece by piece.
ghost use Rattle.std.specs.Prelude.{◌≡◌, ◌++◌, [], OnOk, string_bytes};
ghost use Rattle.sk_document.specs.Html.{attribute, begun, element, element_at, ended, escape, escaped};

use std::alloc::{AllocError, Global};
use std::marker::Model;

/// What is written.
#[derive(Drop)]
pub struct Html {
    alloc: Global,
    written: Vec<u8>,
}

impl Model for Html {
    ghost use Rattle.std.specs.Prelude.{ℕ, List};
    ghost use Rattle.std.specs.Coded.{coded_list, coded_ℕ};

    ghost Value = { List ℕ };

    ghost coded = { coded_list coded_ℕ };

    ghost view = { λ it. it.written.items };
}

impl Html {
    /// Nothing yet.
    pub fn new(alloc: Global) -> Html
        ensures nothing { result ≡ [] }
    {
        let written = Vec::new(alloc);
        Html { alloc, written }
    }

    /// All of it.
    pub fn finished(self) -> Vec<u8>
        ensures written { result.items ≡ self }
    {
        self.written
    }

    /// A text that is to be shown.
    pub fn text(&self) -> String
        ensures nothing { string_bytes result ≡ [] }
    {
        String::new(self.alloc)
    }

    /// Adds markup as it stands.
    pub fn markup(&mut self, markup: &str) -> Result<(), AllocError>
        ensures added { OnOk result (self.new ≡ self.old ++ markup.now) }
    {
        self.written.extend_from_slice(markup.as_bytes())
    }

    /// Adds a text as it is shown.
    pub fn shown(&mut self, text: &[u8]) -> Result<(), AllocError>
        ensures added { OnOk result (self.new ≡ self.old ++ escaped text.now) }
    {
        for byte in text {
            self.byte(*byte)?;
        }
        Ok(())
    }

    #[tactic(auto, unfolding(crate::specs::Html::escape))]
    fn byte(&mut self, byte: u8) -> Result<(), AllocError>
        ensures added { OnOk result (self.new ≡ self.old ++ escape byte) }
    {
        match byte {
            b'&' => self.markup("&amp;"),
            b'<' => self.markup("&lt;"),
            b'>' => self.markup("&gt;"),
            b'"' => self.markup("&quot;"),
            b'\'' => self.markup("&#39;"),
            _ => Ok(self.written.push(byte)?),
        }
    }

    /// Begins an element with one attribute.
    #[tactic(auto, unfolding(crate::specs::Html::begun))]
    pub fn begin_at(&mut self, name: &str, key: &str, value: &str) -> Result<(), AllocError>
        ensures added { OnOk result (self.new ≡ self.old ++ begun name.now (attribute key.now value.now)) }
    {
        self.markup("<")?;
        self.markup(name)?;
        self.attribute(key, value)?;
        self.markup(">")
    }

    #[tactic(auto, unfolding(crate::specs::Html::attribute))]
    fn attribute(&mut self, key: &str, value: &str) -> Result<(), AllocError>
        ensures added { OnOk result (self.new ≡ self.old ++ attribute key.now value.now) }
    {
        self.markup(" ")?;
        self.markup(key)?;
        self.markup("=\"")?;
        self.markup(value)?;
        self.markup("\"")
    }

    /// Begins an element with attributes, each behind a blank.
    #[tactic(auto, unfolding(crate::specs::Html::begun))]
    pub fn begin_with(&mut self, name: &str, attributes: &str) -> Result<(), AllocError>
        ensures added { OnOk result (self.new ≡ self.old ++ begun name.now attributes.now) }
    {
        self.markup("<")?;
        self.markup(name)?;
        self.markup(attributes)?;
        self.markup(">")
    }

    /// Begins an element without attributes.
    pub fn begin(&mut self, name: &str) -> Result<(), AllocError>
        ensures added { OnOk result (self.new ≡ self.old ++ begun name.now []) }
    {
        self.begin_with(name, "")
    }

    /// Ends an element.
    #[tactic(auto, unfolding(crate::specs::Html::ended))]
    pub fn end(&mut self, name: &str) -> Result<(), AllocError>
        ensures added { OnOk result (self.new ≡ self.old ++ ended name.now) }
    {
        self.markup("</")?;
        self.markup(name)?;
        self.markup(">\n")
    }

    /// Adds an element with markup in it.
    pub fn element(&mut self, name: &str, inner: &str) -> Result<(), AllocError>
        ensures added { OnOk result (self.new ≡ self.old ++ element name.now inner.now) }
    {
        self.begin(name)?;
        self.markup(inner)?;
        self.end(name)
    }

    /// Adds an element with one attribute, and markup in it.
    pub fn element_at(
        &mut self,
        name: &str,
        key: &str,
        value: &str,
        inner: &str,
    ) -> Result<(), AllocError>
        ensures added { OnOk result (self.new ≡ self.old ++ element_at name.now key.now value.now inner.now) }
    {
        self.begin_at(name, key, value)?;
        self.markup(inner)?;
        self.end(name)
    }

    /// Adds an element with a text in it, as it is shown.
    pub fn shown_in(&mut self, name: &str, text: &[u8]) -> Result<(), AllocError>
        ensures added { OnOk result (self.new ≡ self.old ++ element name.now (escaped text.now)) }
    {
        self.begin(name)?;
        self.shown(text)?;
        self.end(name)
    }
}
