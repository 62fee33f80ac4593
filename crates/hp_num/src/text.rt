//! Owned bytes, as the names in traces are. They need not be UTF-8, so this is no `String`.
ghost use Rattle.std.specs.Prelude.{◌≡◌, IfOk};

use crate::memory::NoMemory;
use std::alloc::Global;
use std::marker::Model;

/// Bytes that are owned: a name, a path, a command.
///
/// Contracts see it as the list of its bytes.
#[derive(Drop)]
pub struct Text {
    content: Vec<u8>,
}

impl Model for Text {
    ghost use Rattle.std.specs.Prelude.{List, ℕ};

    ghost Value = { List ℕ };

    ghost view = { λ t. t.content.items };
}

impl Text {
    /// A copy of `bytes`, or `NoMemory`.
    pub fn new(alloc: Global, bytes: &[u8]) -> Result<Text, NoMemory>
        ensures copied { IfOk result (λ text. text ≡ bytes.now) }
    {
        let content = Vec::from_slice(alloc, bytes)?;
        Ok(Text { content })
    }

    /// The bytes.
    pub fn bytes(&self) -> &[u8]
        ensures content { result.now ≡ self.now }
    {
        self.content.as_slice()
    }

    /// The bytes as a vector. It takes no memory.
    pub fn into_bytes(self) -> Vec<u8>
        ensures content { result.items ≡ self }
    {
        self.content
    }
}

/// Takes the vector's bytes over, without a copy and without memory.
impl From<Vec<u8>> for Text {
    ghost from_gives = { λ bytes text. text ≡ bytes.items };

    fn from(bytes: Vec<u8>) -> Text {
        Text { content: bytes }
    }
}
