//! Small types over a text and over bytes, which contracts see as the list of their bytes.
ghost use Rattle.std.specs.Prelude.{◌≡◌, ℕ, List, IfOk};
ghost use Rattle.std.specs.Str.{bytes_eq};
ghost use Rattle.std.specs.String.{string_bytes};

use std::alloc::{AllocError, Global};
use std::marker::Model;

/// A name: a text that contracts see as the list of its bytes.
#[derive(Drop)]
pub struct Name {
    text: String,
}

impl Model for Name {
    ghost Value = { List ℕ };

    ghost view = { λ n. string_bytes n.text };
}

impl Name {
    /// The name with this text. It takes no memory.
    pub fn new(text: String) -> Self
        ensures { result ≡ string_bytes text }
    {
        Name { text }
    }

    /// The text of the name.
    pub fn as_str(&self) -> &str
        ensures { result.now ≡ self.now }
    {
        self.text.as_str()
    }

    /// Whether it is this name, byte for byte.
    pub fn is_same(&self, other: &Self) -> bool
        ensures { result ≡ bytes_eq self.now other.now }
    {
        self.text == other.text
    }

    /// The same name once more, in memory of its own.
    pub fn try_copy(&self, alloc: Global) -> Result<Self, AllocError>
        ensures { IfOk result (λ copy. copy ≡ self.now) }
    {
        let text = String::from_str(alloc, self.as_str())?;
        Ok(Name { text })
    }

    /// Gives the text back. It takes no memory.
    pub fn into_string(self) -> String
        ensures { string_bytes result ≡ self }
    {
        self.text
    }
}

/// A list of bytes, which contracts see as that list.
#[derive(Drop)]
pub struct Bytes {
    items: Vec<u8>,
}

impl Model for Bytes {
    ghost Value = { List ℕ };

    ghost view = { λ b. b.items.items };
}

impl Bytes {
    /// The list with these bytes. It takes no memory.
    pub fn new(bytes: Vec<u8>) -> Self
        ensures { result ≡ bytes.items }
    {
        Bytes { items: bytes }
    }

    /// The bytes, in their order.
    pub fn as_slice(&self) -> &[u8]
        ensures { result.now ≡ self.now }
    {
        self.items.as_slice()
    }

    /// Whether they are these bytes.
    pub fn is_same(&self, other: &Self) -> bool
        ensures { result ≡ bytes_eq self.now other.now }
    {
        self.as_slice() == other.as_slice()
    }

    /// The same bytes once more, in memory of their own.
    pub fn try_copy(&self, alloc: Global) -> Result<Self, AllocError>
        ensures { IfOk result (λ copy. copy ≡ self.now) }
    {
        let items = Vec::from_slice(alloc, self.as_slice())?;
        Ok(Bytes { items })
    }

    /// Gives the bytes back. It takes no memory.
    pub fn into_vec(self) -> Vec<u8>
        ensures { result.items ≡ self }
    {
        self.items
    }
}
