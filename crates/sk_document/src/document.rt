//! A document of JSON as it is written, token by token.
ghost use Rattle.std.specs.Prelude.{◌≡◌, ◌++◌, ◌∷◌, [], IfOk, OnOk, string_bytes};
ghost use Rattle.json.specs.Token.{begin_array, begin_object, end_array, end_object};
ghost use Rattle.sk_document.specs.Documents.{at, boolean_at, counted, decided, document, none, number_at, said, string_at, word_at};

use json::Writer;
use std::alloc::{AllocError, Global};
use std::marker::Model;

/// The tokens that are written.
#[derive(Drop)]
pub struct Document {
    alloc: Global,
    writer: Writer<Global>,
}

impl Model for Document {
    ghost use Rattle.std.specs.Prelude.{◌≡◌, List, []};
    ghost use Rattle.json.specs.Token.{Token, tokens_code};

    ghost Value = { List Token };

    ghost coded = { tokens_code };

    ghost view = { λ it. it.writer.tokens };

    ghost invariant = { λ it. it.writer.before ≡ [] };
}

impl Document {
    /// No token yet.
    pub fn new(alloc: Global) -> Document
        ensures none { result ≡ [] }
    {
        let writer = Writer::new(Vec::new(alloc));
        Document { alloc, writer }
    }

    /// The text of the document.
    pub fn finished(self) -> Result<Vec<u8>, AllocError>
        ensures document { IfOk result (λ text. text.items ≡ document self) }
    {
        let mut text = self.writer.into_inner();
        text.push(b'\n')?;
        Ok(text)
    }

    /// A text that becomes a string.
    pub fn text(&self) -> String
        ensures none { string_bytes result ≡ [] }
    {
        String::new(self.alloc)
    }

    /// Opens an object.
    pub fn begin_object(&mut self) -> Result<(), AllocError>
        ensures added { OnOk result (self.new ≡ self.old ++ begin_object ∷ []) }
    {
        self.writer.begin_object()
    }

    /// Closes an object.
    pub fn end_object(&mut self) -> Result<(), AllocError>
        ensures added { OnOk result (self.new ≡ self.old ++ end_object ∷ []) }
    {
        self.writer.end_object()
    }

    /// Opens an array.
    pub fn begin_array(&mut self) -> Result<(), AllocError>
        ensures added { OnOk result (self.new ≡ self.old ++ begin_array ∷ []) }
    {
        self.writer.begin_array()
    }

    /// Closes an array.
    pub fn end_array(&mut self) -> Result<(), AllocError>
        ensures added { OnOk result (self.new ≡ self.old ++ end_array ∷ []) }
    {
        self.writer.end_array()
    }

    /// Adds a key, behind which its value stands.
    #[tactic(auto, unfolding(crate::specs::Documents::at))]
    pub fn at(&mut self, name: &str) -> Result<(), AllocError>
        ensures added { OnOk result (self.new ≡ self.old ++ at name.now) }
    {
        self.writer.key(name)
    }

    /// Adds a number.
    pub fn number(&mut self, number: u64) -> Result<(), AllocError>
        ensures added { OnOk result (self.new ≡ self.old ++ counted number) }
    {
        self.writer.u64(number)
    }

    /// Adds a string.
    pub fn string(&mut self, text: &str) -> Result<(), AllocError>
        ensures added { OnOk result (self.new ≡ self.old ++ said text.now) }
    {
        self.writer.string(text)
    }

    /// Adds `true` or `false`.
    pub fn boolean(&mut self, is: bool) -> Result<(), AllocError>
        ensures added { OnOk result (self.new ≡ self.old ++ decided is) }
    {
        self.writer.boolean(is)
    }

    /// Adds `null`.
    pub fn null(&mut self) -> Result<(), AllocError>
        ensures added { OnOk result (self.new ≡ self.old ++ none) }
    {
        self.writer.null()
    }

    /// Adds a key with a number.
    #[tactic(auto, unfolding(crate::specs::Documents::number_at))]
    pub fn number_at(&mut self, name: &str, number: u64) -> Result<(), AllocError>
        ensures added { OnOk result (self.new ≡ self.old ++ number_at name.now number) }
    {
        self.at(name)?;
        self.number(number)
    }

    /// Adds a key with a string.
    #[tactic(auto, unfolding(crate::specs::Documents::string_at))]
    pub fn string_at(&mut self, name: &str, text: &str) -> Result<(), AllocError>
        ensures added { OnOk result (self.new ≡ self.old ++ string_at name.now text.now) }
    {
        self.at(name)?;
        self.string(text)
    }

    /// Adds the word that was asked.
    #[tactic(auto, unfolding(crate::specs::Documents::word_at))]
    pub fn word_at(&mut self, word: &str) -> Result<(), AllocError>
        ensures added { OnOk result (self.new ≡ self.old ++ word_at word.now) }
    {
        self.string_at("word", word)
    }

    /// Adds a key with `true` or `false`.
    #[tactic(auto, unfolding(crate::specs::Documents::boolean_at))]
    pub fn boolean_at(&mut self, name: &str, is: bool) -> Result<(), AllocError>
        ensures added { OnOk result (self.new ≡ self.old ++ boolean_at name.now is) }
    {
        self.at(name)?;
        self.boolean(is)
    }
}
