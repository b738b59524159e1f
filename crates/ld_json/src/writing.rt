// The compact text of a tree.
ghost use Rattle.std.specs.Prelude.{◌≡◌, ◌++◌, OnOk, IfOk};
ghost use Rattle.json.specs.Tree.{json_tokens};
ghost use Rattle.ld_model.specs.CompactText.{compact};
ghost use Rattle.ld_tree.specs.View.{view};
ghost use Rattle.ld_json.specs.Written.{json_of};

use json::Writer;
use ld_tree::Tree;
use std::alloc::{AllocError, Global};

/// The compact JSON text of a tree (RFC 8259): no white space, members in the order of their keys, and in strings only
/// `"`, `\` and the characters below U+0020 escaped.
pub fn text_of(alloc: Global, tree: &Tree) -> Result<Vec<u8>, AllocError>
    ensures { IfOk result (λ v. v.items ≡ compact (view tree.now)) }
{
    let mut out = Writer::new(Vec::new(alloc));
    write_tree(&mut out, tree)?;
    Ok(out.into_inner())
}

fn write_tree(out: &mut Writer, tree: &Tree) -> Result<(), AllocError>
    ensures before { OnOk result (out.new.before ≡ out.old.before) }
    ensures tokens { OnOk result (out.new.tokens ≡ out.old.tokens ++ json_tokens (json_of (view tree.now))) }
{
    match tree {
        Tree::Null => out.null(),
        Tree::Truth(truth) => out.boolean(*truth),
        Tree::Whole(number) => out.i64(*number),
        Tree::OneOne => out.number("1.1"),
        Tree::Str(text) => out.string(text.as_str()),
        Tree::Items(trees) => {
            out.begin_array()?;
            for tree in trees {
                write_tree(out, tree)?;
            }
            out.end_array()
        }
        Tree::Map(members) => {
            out.begin_object()?;
            for (key, tree) in members {
                out.key(key.as_str())?;
                write_tree(out, tree)?;
            }
            out.end_object()
        }
    }
}
