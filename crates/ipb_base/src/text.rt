ghost use Rattle.std.specs.Prelude.{◌≡◌, IfOk, IfErr, IsOk, IsUtf8, string_bytes};

use crate::NoMemory;
use std::alloc::Global;
use std::marker::Model;

/// A text that is kept, as a name or a line of a script. Contracts see it as its bytes, which are UTF-8.
#[derive(Debug, Drop)]
pub struct Text {
    content: String,
}

impl Model for Text {
    ghost use Rattle.std.specs.Prelude.{List, ℕ, string_bytes};

    ghost Value = { List ℕ };

    ghost view = { λ text. string_bytes text.content };
}

impl PartialEq for Text {
    ghost use Rattle.std.specs.Cmp.{partial_equiv_from_equiv};
    ghost use Rattle.std.specs.Cmp.Lexicographic.{pointwise, nat_list_eq_equiv};
    ghost use Rattle.std.specs.Prelude.{nat_eq};

    ghost eq = { pointwise nat_eq };

    ghost laws = { partial_equiv_from_equiv nat_list_eq_equiv };

    fn eq(&self, other: &Text) -> bool {
        self.as_str() == other.as_str()
    }
}

impl Eq for Text {
    ghost use Rattle.std.specs.Cmp.Lexicographic.{nat_list_eq_equiv};

    ghost laws = { nat_list_eq_equiv };
}

impl Text {
    /// The text of a string. It takes no memory.
    pub fn from_string(content: String) -> Text
        ensures { result ≡ string_bytes content }
    {
        Text { content }
    }

    /// The text of bytes that are UTF-8; other bytes are given back. It takes no memory.
    pub fn from_vec(bytes: Vec<u8>) -> Result<Text, Vec<u8>>
        ensures found { IfOk result (λ text. text ≡ bytes.items) }
        ensures same { IfErr result (λ given. given ≡ bytes) }
        ensures only { IsUtf8 bytes.items → IsOk result }
    {
        match String::from_utf8(bytes) {
            Ok(content) => Ok(Text { content }),
            Err(error) => Err(error.into_bytes()),
        }
    }

    /// A copy of a text, which shares no memory with it. An error means that memory ran out.
    pub fn copy_of(alloc: Global, text: &str) -> Result<Text, NoMemory>
        ensures { IfOk result (λ copied. copied ≡ text.now) }
    {
        Ok(Text {
            content: String::from_str(alloc, text)?,
        })
    }

    /// The text as a string slice.
    pub fn as_str(&self) -> &str
        ensures { result.now ≡ self.now }
    {
        self.content.as_str()
    }

    /// The bytes of the text.
    pub fn as_slice(&self) -> &[u8]
        ensures { result.now ≡ self.now }
    {
        self.content.as_bytes()
    }

    /// The string of this text. It takes no memory.
    pub fn into_string(self) -> String
        ensures { string_bytes result ≡ self }
    {
        let Text { content } = self;
        content
    }
}
