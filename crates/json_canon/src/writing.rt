// The canonical text of a tree.
ghost use Rattle.std.specs.Prelude.{◌≡◌, ◌++◌, [], map, OnOk, IfOk};
ghost use Rattle.json.specs.Tree.{json_tokens};
ghost use Rattle.ld_tree.specs.View.{view};
ghost use Rattle.json_canon.specs.Lent.{lent};
ghost use Rattle.ld_json.specs.Written.{json_of};
ghost use Rattle.json_canon.specs.Canonical.{canonical_text, in_order, with_members_in_order};

use crate::order::compare_utf16;
use json::Writer;
use ld_json::{Members, Tree};
use std::alloc::{AllocError, Global};

/// The canonical text of a tree (RFC 8785): no white space; the members of each object in the order of the UTF-16
/// code units of their names (section 3.2.3); in strings only `"`, `\` and the characters below U+0020 escaped, by the
/// short escape where there is one and else by `\u00` and two lower case digits (section 3.2.2.2); numbers in plain
/// decimal (section 3.2.2.3). Fails only where memory is refused.
pub fn canonical(alloc: Global, tree: &Tree) -> Result<Vec<u8>, AllocError>
    ensures { IfOk result (λ v. v.items ≡ canonical_text (view tree.now)) }
{
    let mut out = Writer::new(Vec::new(alloc));
    write_tree(alloc, &mut out, tree)?;
    Ok(out.into_inner())
}

fn write_tree(alloc: Global, out: &mut Writer, tree: &Tree) -> Result<(), AllocError>
    ensures before { OnOk result (out.new.before ≡ out.old.before) }
    ensures tokens { OnOk result (out.new.tokens
        ≡ out.old.tokens ++ json_tokens (json_of (with_members_in_order (view tree.now)))) }
{
    match tree {
        Tree::Null => out.null(),
        Tree::Truth(truth) => out.boolean(*truth),
        Tree::Whole(number) => out.i64(*number),
        Tree::OneOne => out.number("1.1"),
        Tree::Str(text) => out.string(text.as_str()),
        Tree::Items(trees) => {
            out.begin_array()?;
            for tree in trees {
                write_tree(alloc, out, tree)?;
            }
            out.end_array()
        }
        Tree::Map(members) => {
            out.begin_object()?;
            let sorted = sorted_members(alloc, members)?;
            for (name, tree) in sorted.as_slice() {
                out.key(name)?;
                write_tree(alloc, out, tree)?;
            }
            out.end_object()
        }
    }
}

/// The members of an object in the order of the UTF-16 code units of their names.
fn sorted_members(alloc: Global, members: &Members) -> Result<Vec<(&str, &Tree)>, AllocError>
    ensures { IfOk result (λ v. map lent v.items ≡ in_order members.now) }
{
    let mut sorted = Vec::with_capacity(alloc, members.len())?;
    for (name, tree) in members {
        sorted.push((name.as_str(), tree))?;
    }
    sorted.sort_by(|a, b| compare_utf16(a.0, b.0))?;
    Ok(sorted)
}
