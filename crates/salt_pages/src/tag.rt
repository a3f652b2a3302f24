//! A row's tag, the last byte of its key as it is spelled: most rows are told apart by it.

ghost use Rattle.salt_pages.specs.Tags.{tag_of};
ghost use Rattle.std.specs.Prelude.{OnErr, OnOk, [], ◌++◌, ◌∷◌, ◌≡◌};

use crate::fill::bytes_of;
use salt_values::Key;
use std::alloc::AllocError;

/// A key's tag.
pub fn tag_of(key: &Key) -> u8
    ensures { result ≡ tag_of key.now }
{
    match key {
        Key::Int(number) => bytes_of(*number)[7],
        Key::Text(text) => {
            let bytes = text.as_bytes();
            if bytes.is_empty() {
                0
            } else {
                bytes[bytes.len() - 1]
            }
        }
        Key::Null => 0,
    }
}

/// A row's place and its tag behind those of the others; neither where memory runs out.
pub fn put_place(
    places: &mut Vec<u16>,
    tags: &mut Vec<u8>,
    place: u16,
    tag: u8,
) -> Result<(), AllocError>
    ensures placed { OnOk result (places.new.items ≡ places.old.items ++ place ∷ []) }
    ensures tagged { OnOk result (tags.new.items ≡ tags.old.items ++ tag ∷ []) }
    ensures err_places { OnErr result (places.new.items ≡ places.old.items) }
    ensures err_tags { OnErr result (tags.new.items ≡ tags.old.items) }
{
    tags.push(tag)?;
    match places.push(place) {
        Ok(()) => Ok(()),
        Err(_failed) => {
            tags.pop();
            Err(AllocError)
        }
    }
}
