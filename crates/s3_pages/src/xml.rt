//! The writing of XML.
ghost use Rattle.std.specs.Prelude.{◌≡◌, ◌<◌, ◌++◌, IfOk, OnOk};
ghost use Rattle.std.specs.List.{list_all};
ghost use Rattle.gate_base.specs.Told.{moment_limit};
ghost use Rattle.s3_pages.specs.Bodies.{
  etag_element,
  initiator,
  number_element,
  owner,
  storage_class,
  text_element,
  time_element,
  truth_element,
  where_true,
};
ghost use Rattle.hex.specs.Hex.{encode_lower};
ghost use Rattle.s3_pages.specs.Texts.{id_text};
ghost use Rattle.s3_pages.specs.Xml.{declaration, element, end_of, escape_of, escaped, is_plain, root};

use crate::texts;
use gate_base::{Bytes, Memory};
use itoa::Buffer;
use s3_names::encode_path;
use std::alloc::Global;
use text_forms::append_decimal;

/// A document that is being written. Of one whose writing ran out of memory nothing is known.
#[derive(Drop)]
pub struct Xml {
    alloc: Global,
    pub text: Bytes,
}

impl Xml {
    /// A document with its declaration alone.
    pub fn new(alloc: Global) -> Result<Xml, Memory>
        ensures { IfOk result (λ xml. xml.text ≡ declaration) }
    {
        Ok(Xml {
            alloc,
            text: Bytes::from_slice(alloc, b"<?xml version=\"1.0\" encoding=\"UTF-8\"?>\n")?,
        })
    }

    /// Appends tags as they are, unescaped.
    pub fn tags(&mut self, text: &[u8]) -> Result<(), Memory>
        ensures { OnOk result (self.new.text ≡ self.old.text ++ text.now) }
    {
        self.text.append(text)
    }

    /// Appends a text, escaped. One in which nothing is to be escaped is appended at once.
    #[tactic(auto, using(crate::proofs::Escapes::plain_escaped))]
    pub fn escaped(&mut self, text: &[u8]) -> Result<(), Memory>
        ensures { OnOk result (self.new.text ≡ self.old.text ++ escaped text.now) }
    {
        if are_plain_in_xml(text) {
            self.tags(text)
        } else {
            self.escape_each(text)
        }
    }

    /// The same byte by byte.
    #[tactic(auto, using(crate::proofs::Escapes::escapes))]
    fn escape_each(&mut self, text: &[u8]) -> Result<(), Memory>
        ensures { OnOk result (self.new.text ≡ self.old.text ++ escaped text.now) }
    {
        for byte in text {
            self.escape(*byte)?;
        }
        Ok(())
    }

    /// Appends an element that has a text alone.
    #[tactic(auto, unfolding(crate::specs::Xml::element))]
    pub fn element(&mut self, name: &[u8], text: &[u8]) -> Result<(), Memory>
        ensures { OnOk result (self.new.text ≡ self.old.text ++ element name.now text.now) }
    {
        self.tags(b"<")?;
        self.tags(name)?;
        self.tags(b">")?;
        self.escaped(text)?;
        self.tags(b"</")?;
        self.tags(name)?;
        self.tags(b">")
    }

    /// Appends the first tag of the root, with the name space of S3.
    #[tactic(auto, unfolding(crate::specs::Xml::root))]
    pub fn root(&mut self, name: &[u8]) -> Result<(), Memory>
        ensures { OnOk result (self.new.text ≡ self.old.text ++ root name.now) }
    {
        self.tags(b"<")?;
        self.tags(name)?;
        self.tags(b" xmlns=\"http://s3.amazonaws.com/doc/2006-03-01/\">")
    }

    /// Appends the last tag of an element.
    #[tactic(auto, unfolding(crate::specs::Xml::end_of))]
    pub fn end(&mut self, name: &[u8]) -> Result<(), Memory>
        ensures { OnOk result (self.new.text ≡ self.old.text ++ end_of name.now) }
    {
        self.tags(b"</")?;
        self.tags(name)?;
        self.tags(b">")
    }

    /// Appends an element with a number in decimal.
    pub fn number(&mut self, name: &[u8], number: u64) -> Result<(), Memory>
        ensures { OnOk result (self.new.text ≡ self.old.text ++ number_element name.now number) }
    {
        let mut buffer = Buffer::new();
        self.element(name, buffer.format(number).as_bytes())
    }

    pub fn count(&mut self, name: &[u8], number: u32) -> Result<(), Memory>
        ensures { OnOk result (self.new.text ≡ self.old.text ++ number_element name.now number) }
    {
        self.number(name, u64::from(number))
    }

    /// Appends an element with a moment in seconds since the beginning of 1970, before the year 10000.
    pub fn time(&mut self, name: &[u8], moment: u64) -> Result<(), Memory>
        requires { moment < moment_limit }
        ensures { OnOk result (self.new.text ≡ self.old.text ++ time_element name.now moment) }
    {
        self.element(name, &texts::iso_time(moment))
    }

    /// Appends an element with the id of an upload.
    pub fn id(&mut self, name: &[u8], id: u128) -> Result<(), Memory>
        ensures { OnOk result (self.new.text ≡ self.old.text ++ element name.now (id_text id)) }
    {
        self.element(name, &texts::id_digits(id))
    }

    /// Appends an element with the word for whether something is so.
    pub fn truth(&mut self, name: &[u8], is_so: bool) -> Result<(), Memory>
        ensures { OnOk result (self.new.text ≡ self.old.text ++ truth_element name.now is_so) }
    {
        if is_so {
            self.element(name, b"true")
        } else {
            self.element(name, b"false")
        }
    }

    /// Appends the element of an ETag, which stands in double quotes.
    pub fn etag(&mut self, etag: &[u8]) -> Result<(), Memory>
        ensures { OnOk result (self.new.text ≡ self.old.text ++ etag_element etag.now) }
    {
        let quoted = texts::quoted(self.alloc, etag)?;
        self.element(b"ETag", quoted.as_slice())
    }

    /// Appends an element with a text of a listing, escaped as in a path where that was asked for.
    pub fn shown(&mut self, name: &[u8], url: bool, text: &[u8]) -> Result<(), Memory>
        ensures { OnOk result
            (self.new.text ≡ self.old.text ++ text_element url name.now text.now) }
    {
        if !url {
            return self.element(name, text);
        }
        let escaped = encode_path(self.alloc, text)?;
        self.element(name, escaped.as_slice())
    }

    /// Appends the one who owns all.
    pub fn owner(&mut self) -> Result<(), Memory>
        ensures { OnOk result (self.new.text ≡ self.old.text ++ owner) }
    {
        self.tags(b"<Owner><ID>s3gate</ID><DisplayName>s3gate</DisplayName></Owner>")
    }

    pub fn owner_if(&mut self, test: bool) -> Result<(), Memory>
        ensures { OnOk result (self.new.text ≡ self.old.text ++ where_true test owner) }
    {
        if test { self.owner() } else { Ok(()) }
    }

    /// Appends the one who began every upload.
    pub fn initiator(&mut self) -> Result<(), Memory>
        ensures { OnOk result (self.new.text ≡ self.old.text ++ initiator) }
    {
        self.tags(b"<Initiator><ID>s3gate</ID><DisplayName>s3gate</DisplayName></Initiator>")
    }

    pub fn storage_class(&mut self) -> Result<(), Memory>
        ensures { OnOk result (self.new.text ≡ self.old.text ++ storage_class) }
    {
        self.tags(b"<StorageClass>STANDARD</StorageClass>")
    }

    /// Appends tags where the test is true.
    pub fn tags_if(&mut self, test: bool, text: &[u8]) -> Result<(), Memory>
        ensures { OnOk result (self.new.text ≡ self.old.text ++ where_true test text.now) }
    {
        if test { self.tags(text) } else { Ok(()) }
    }

    /// Appends an element with a text in lower-case hexadecimal.
    pub fn hex(&mut self, name: &[u8], text: &[u8]) -> Result<(), Memory>
        ensures { OnOk result
            (self.new.text ≡ self.old.text ++ element name.now (encode_lower text.now)) }
    {
        let digits = hex::encode(self.alloc, text)?;
        self.element(name, digits.as_bytes())
    }

    fn escape(&mut self, byte: u8) -> Result<(), Memory>
        ensures { OnOk result (self.new.text ≡ self.old.text ++ escape_of byte) }
    {
        match byte {
            b'&' => self.tags(b"&amp;"),
            b'<' => self.tags(b"&lt;"),
            b'>' => self.tags(b"&gt;"),
            b'"' => self.tags(b"&quot;"),
            0..=31 => {
                self.tags(b"&#")?;
                append_decimal(&mut self.text, u64::from(byte))?;
                self.tags(b";")
            }
            _ => self.text.push(byte),
        }
    }
}

/// Whether all bytes stand in a document as they are.
fn are_plain_in_xml(text: &[u8]) -> bool
    ensures { result ≡ list_all is_plain text.now }
{
    text.iter().all(|byte| is_plain_in_xml(*byte))
}

fn is_plain_in_xml(byte: u8) -> bool
    ensures { result ≡ is_plain byte }
{
    match byte {
        b'&' => false,
        b'<' => false,
        b'>' => false,
        b'"' => false,
        0..=31 => false,
        _ => true,
    }
}
