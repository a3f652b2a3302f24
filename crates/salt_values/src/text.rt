//! Text values.

ghost use Rattle.std.specs.Prelude.{◌≡◌, IfOk, OnOk, OnErr, IsErrOf, true, false};
ghost use Rattle.std.specs.List.{list_all};
ghost use Rattle.salt_values.specs.Text.{is_printable, is_text};
ghost use Rattle.salt_values.specs.declared.text.TextErr.TheVariants.{Memory};

use crate::limits::TEXT_MOST;
use sqlite_items::Items;
use std::alloc::{AllocError, Global};
use std::marker::Model;

/// At most 255 bytes, each from 32 to 126. Contracts see the list of its bytes.
#[derive(Debug, Drop)]
pub struct Text {
    bytes: Items<u8>,
}

impl Model for Text {
    ghost use Rattle.std.specs.Prelude.{List, ℕ, ◌≡◌, true};
    ghost use Rattle.salt_values.specs.Text.{is_text};

    ghost Value = { List ℕ };

    ghost view = { λ t. t.bytes };

    ghost invariant = { λ t. is_text t.bytes ≡ true };
}

/// Why bytes are no text.
#[derive(Clone, Copy, Debug, PartialEq, Eq)]
pub enum TextErr {
    /// There are more than 255 bytes, or one is outside 32 to 126.
    NotText,
    /// Memory ran out.
    Memory,
}

impl From<AllocError> for TextErr {
    ghost from_gives = { λ _ e. e ≡ Memory };

    fn from(_e: AllocError) -> TextErr {
        TextErr::Memory
    }
}

fn is_printable(b: u8) -> bool
    ensures { result ≡ is_printable b }
{
    32 <= b && b <= 126
}

fn are_printable(bytes: &[u8]) -> bool
    ensures { result ≡ list_all is_printable bytes.now }
{
    bytes.iter().all(|b| is_printable(*b))
}

fn is_text(bytes: &[u8]) -> bool
    ensures { result ≡ is_text bytes.now }
{
    bytes.len() <= TEXT_MOST && are_printable(bytes)
}

impl Text {
    /// The text of these bytes. `NotText` where they are none.
    pub fn new(alloc: Global, bytes: &[u8]) -> Result<Text, TextErr>
        ensures found { IfOk result (λ t. t ≡ bytes.now) }
        ensures ok { OnOk result (is_text bytes.now ≡ true) }
        ensures not_text { IsErrOf result TextErr.NotText → is_text bytes.now ≡ false }
    {
        if !is_text(bytes) {
            return Err(TextErr::NotText);
        }
        let bytes = Items::from_slice(alloc, bytes)?;
        Ok(Text { bytes })
    }

    /// Its bytes, at most 255, each from 32 to 126.
    pub fn as_bytes(&self) -> &[u8]
        ensures bytes { result.now ≡ self.now }
        ensures text { is_text self.now ≡ true }
    {
        self.bytes.as_slice()
    }

    /// An equal text.
    pub fn copy(&self, alloc: Global) -> Result<Text, AllocError>
        ensures { IfOk result (λ t. t ≡ self.now) }
    {
        let bytes = Items::from_slice(alloc, self.bytes.as_slice())?;
        Ok(Text { bytes })
    }
}
