// What keys the hashes of a document's names.
use ld_tree::{Members, Text, Tree, Trees};
use sha2::{Digest, Sha512};

/// The SHA-512 of all that may be looked up in these items: the texts under `@id`, and the labels of blank nodes wherever they stand. Behind
/// each comes a byte that no text has, so that other names are other bytes. Nobody can choose names for what the digest of them will be.
/// On 64 bits SHA-512 takes a third less for a byte than SHA-256.
pub(crate) fn digest_of(items: &Trees) -> [u8; 64] {
    let mut digest = Sha512::new();
    note_items(&mut digest, items);
    digest.finalize()
}

#[cycle(names)]
fn note_tree(digest: &mut Sha512, tree: &Tree) {
    match tree {
        Tree::Str(text) => note_label(digest, text),
        Tree::Items(items) => note_items(digest, items),
        Tree::Map(members) => note_members(digest, members),
        _ => {}
    }
}

#[cycle(names)]
fn note_items(digest: &mut Sha512, items: &Trees) {
    for item in items {
        note_tree(digest, item);
    }
}

#[cycle(names)]
fn note_members(digest: &mut Sha512, members: &Members) {
    for (key, value) in members {
        note_member(digest, key, value);
    }
}

#[cycle(names)]
fn note_member(digest: &mut Sha512, key: &Text, value: &Tree) {
    note_label(digest, key);
    match value {
        Tree::Str(text) => note_text(digest, key, text),
        _ => note_tree(digest, value),
    }
}

/// Notes a text that stands under this key.
fn note_text(digest: &mut Sha512, key: &Text, text: &Text) {
    if key.as_str() == "@id" {
        note_name(digest, text);
    } else {
        note_label(digest, text);
    }
}

/// Notes a text if it is the label of a blank node.
fn note_label(digest: &mut Sha512, text: &Text) {
    if text.is_blank() {
        note_name(digest, text);
    }
}

fn note_name(digest: &mut Sha512, name: &Text) {
    digest.update(name.as_str().as_bytes());
    digest.update(b"\xff");
}
