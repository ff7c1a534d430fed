//! Texts and lists that a value owns: contracts see a text as the list of its bytes, and a list as it is.
ghost use Rattle.std.specs.Prelude.{◌≡◌, [], IsUtf8, string_bytes, IfOk};

use arrayvec::ArrayString;
use lu_prims::OutOfMemory;
use std::alloc::Global;
use std::marker::Model;

/// The most bytes of a text that is kept in place.
const SHORT_BYTES: usize = 16;

/// Where the bytes of a text are kept: in place, or in the block of the string that it was made from.
#[derive(Debug, Drop)]
enum Kept {
    Short(ArrayString<SHORT_BYTES>),
    Long(String),
}

/// A text that its value owns. It is made from a `String` without taking memory; a copy of a short text is kept in place.
#[derive(Debug, Drop)]
pub struct Text {
    kept: Kept,
}

impl Model for Text {
    ghost use Rattle.std.specs.Prelude.{ℕ, List, IsUtf8};
    ghost use Rattle.lu_types.specs.KeptTexts.{kept_bytes};

    ghost Value = { List ℕ };

    ghost view = { λ t. kept_bytes t.kept };

    ghost invariant = { λ t. IsUtf8 (kept_bytes t.kept) };
}

impl Text {
    /// The text that the string holds.
    pub fn new(inner: String) -> Text
        ensures { result ≡ string_bytes inner }
    {
        Text {
            kept: Kept::Long(inner),
        }
    }

    /// The text: in place where it is short, else in a block of its own that has no room to spare.
    pub fn from_str(alloc: Global, text: &str) -> Result<Text, OutOfMemory>
        ensures { IfOk result (λ copy. copy ≡ text.now) }
    {
        match ArrayString::from(text) {
            Ok(short) => Ok(Text {
                kept: Kept::Short(short),
            }),
            Err(_) => Ok(Text::new(String::from_str(alloc, text)?)),
        }
    }

    /// The text that the string holds, with its spare room given back to the allocator: an empty text keeps no block.
    pub fn fitted(mut inner: String) -> Text
        ensures { result ≡ string_bytes inner }
    {
        inner.shrink_to_fit();
        Text::new(inner)
    }

    /// The text, lent.
    pub fn as_str(&self) -> &str
        ensures same { result.now ≡ self.now }
        ensures text { IsUtf8 self.now }
    {
        match &self.kept {
            Kept::Short(short) => short.as_str(),
            Kept::Long(inner) => inner.as_str(),
        }
    }

    /// The text as a string: the one that it was made from, without taking memory; or a copy of a text that is kept in place.
    pub fn into_string(self, alloc: Global) -> Result<String, OutOfMemory>
        ensures { IfOk result (λ string. string_bytes string ≡ self) }
    {
        let Text { kept } = self;
        match kept {
            Kept::Short(short) => Ok(String::from_str(alloc, short.as_str())?),
            Kept::Long(inner) => Ok(inner),
        }
    }
}

/// The payload of a token, which mostly is empty: then it takes no memory, and else one small block besides its bytes.
#[derive(Debug, Drop)]
pub struct Payload {
    inner: Option<Box<Vec<u8>>>,
}

impl Model for Payload {
    ghost use Rattle.std.specs.Prelude.{ℕ, List};
    ghost use Rattle.lu_grammar.specs.Bytes.{IsBytes};
    ghost use Rattle.lu_types.specs.KeptTexts.{payload_bytes};

    ghost Value = { List ℕ };

    ghost view = { λ p. payload_bytes p.inner };

    ghost invariant = { λ p. IsBytes (payload_bytes p.inner) };
}

impl Payload {
    /// No payload.
    pub fn none() -> Payload
        ensures { result ≡ [] }
    {
        Payload { inner: None }
    }

    /// The payload that these bytes are.
    pub fn new(alloc: Global, bytes: Vec<u8>) -> Result<Payload, OutOfMemory>
        ensures { IfOk result (λ payload. payload ≡ bytes.items) }
    {
        if bytes.is_empty() {
            return Ok(Payload::none());
        }
        match Box::new(alloc, bytes) {
            Ok(inner) => Ok(Payload { inner: Some(inner) }),
            Err(_) => Err(OutOfMemory),
        }
    }

    /// Its bytes, lent.
    pub fn as_slice(&self) -> &[u8]
        ensures { result.now ≡ self.now }
    {
        match &self.inner {
            Some(bytes) => bytes.as_ref().as_slice(),
            None => b"".as_slice(),
        }
    }

    /// The list that it was made from, without taking memory.
    pub fn into_vec(self, alloc: Global) -> Vec<u8>
        ensures { result.items ≡ self }
    {
        let Payload { inner } = self;
        match inner {
            Some(bytes) => Box::into_inner(bytes),
            None => Vec::new(alloc),
        }
    }
}

/// Bytes that their value owns.
pub type Bytes = Items<u8>;

/// Items that their value owns, in order. They are made from a `Vec` and give it back, without taking memory.
#[derive(Debug, Drop)]
pub struct Items<T> {
    inner: Vec<T>,
}

impl<T> Model for Items<T> {
    ghost use Rattle.std.specs.Prelude.{List};

    ghost Value = { List T };

    ghost view = { λ l. l.inner.items };
}

impl<T> Items<T> {
    /// The items that the list holds.
    pub fn new(inner: Vec<T>) -> Items<T>
        ensures { result ≡ inner.items }
    {
        Items { inner }
    }

    /// The items that the list holds, with its spare room given back to the allocator: an empty list keeps no block.
    pub fn fitted(mut inner: Vec<T>) -> Items<T>
        ensures { result ≡ inner.items }
    {
        inner.shrink_to_fit();
        Items { inner }
    }

    /// The items, lent.
    pub fn as_slice(&self) -> &[T]
        ensures { result.now ≡ self.now }
    {
        self.inner.as_slice()
    }

    /// The list that the items were made from.
    pub fn into_vec(self) -> Vec<T>
        ensures { result.items ≡ self }
    {
        self.inner
    }
}
