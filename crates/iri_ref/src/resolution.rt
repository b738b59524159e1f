//! A reference resolved against a base.
ghost use Rattle.std.specs.Prelude.{◌≡◌, ◌++◌, IfOk, IsTrue, if◌then◌else◌, List, ℕ, OnOk, string_bytes};
ghost use Rattle.std.specs.Option.{option_copied};
ghost use Rattle.iri_ref.specs.Parts.{bytes_of, has_scheme};
ghost use Rattle.iri_ref.specs.Dots.{remove_dots as without_dots};
ghost use Rattle.iri_ref.specs.Resolve.{directory_of, is_absolute, marked, merged, resolved, scheme_text, target_of, text_of};

use crate::dots::remove_dots;
use crate::reference::{Parts, split};
use ld_text::Text;
use std::alloc::{AllocError, Global};

/// The reference, resolved against the base (RFC 3986, section 5.2.2, strict, and 5.3).
///
/// Nothing is normalized but the dots of a path: no case, no percent escape, no host. It takes a
/// time that grows with the length of both texts.
pub fn resolve(alloc: Global, base: &str, reference: &str) -> Result<Text, AllocError>
    ensures target { IfOk result (λ t. t ≡ resolved base.now reference.now) }
    // An IRI is its own target, whatever the base is.
    ensures base_ignored { IsTrue (has_scheme reference.now) → (other : List ℕ) → IfOk result (λ t. t ≡ resolved other reference.now) }
{
    let base = split(base);
    let reference = split(reference);
    Ok(Text::from_string(target(alloc, &base, &reference)?)?)
}

fn target(alloc: Global, base: &Parts, reference: &Parts) -> Result<String, AllocError>
    ensures { IfOk result (λ s. string_bytes s ≡ text_of (target_of (bytes_of base.now) (bytes_of reference.now))) }
{
    let fragment = reference.fragment;
    if reference.scheme.is_some() {
        let kept = remove_dots(alloc, reference.path)?;
        let path = kept.as_str();
        return compose(alloc, &Parts { path, ..*reference });
    }
    if reference.authority.is_some() {
        let kept = remove_dots(alloc, reference.path)?;
        let (scheme, path) = (base.scheme, kept.as_str());
        return compose(
            alloc,
            &Parts {
                scheme,
                path,
                ..*reference
            },
        );
    }
    if reference.path.is_empty() {
        let query = reference.query.or(base.query);
        return compose(
            alloc,
            &Parts {
                query,
                fragment,
                ..*base
            },
        );
    }
    let kept = path_behind(alloc, base, reference.path)?;
    let (path, query) = (kept.as_str(), reference.query);
    compose(
        alloc,
        &Parts {
            path,
            query,
            fragment,
            ..*base
        },
    )
}

// A path that begins with a slash alone, and another behind that of the base, both without dots.
fn path_behind(alloc: Global, base: &Parts, path: &str) -> Result<String, AllocError>
    ensures { IfOk result (λ s. string_bytes s ≡ without_dots (if is_absolute path.now then path.now else merged (bytes_of base.now) path.now)) }
{
    if path.starts_with('/') {
        return remove_dots(alloc, path);
    }
    remove_dots(alloc, merge(alloc, base, path)?.as_str())
}

// A path behind the directory of the base's path (RFC 3986, section 5.2.3).
fn merge(alloc: Global, base: &Parts, path: &str) -> Result<String, AllocError>
    ensures { IfOk result (λ s. string_bytes s ≡ merged (bytes_of base.now) path.now) }
{
    let directory = if base.authority.is_some() && base.path.is_empty() {
        "/"
    } else {
        directory(base.path)
    };
    let mut merged = String::with_capacity(alloc, directory.len())?;
    merged.push_str(directory)?;
    merged.push_str(path)?;
    Ok(merged)
}

fn directory(path: &str) -> &str
    ensures { result.now ≡ directory_of path.now }
{
    match path.rfind('/') {
        Some(at) => &path[..at + 1],
        None => "",
    }
}

// The parts put together (RFC 3986, section 5.3).
fn compose(alloc: Global, parts: &Parts) -> Result<String, AllocError>
    ensures { IfOk result (λ s. string_bytes s ≡ text_of (bytes_of parts.now)) }
{
    let mut text = String::new(alloc);
    if let Some(scheme) = parts.scheme {
        text.push_str(scheme)?;
        text.push(':')?;
    }
    push_marked(&mut text, "//", parts.authority)?;
    text.push_str(parts.path)?;
    push_marked(&mut text, "?", parts.query)?;
    push_marked(&mut text, "#", parts.fragment)?;
    Ok(text)
}

// Appends a part behind its mark, where there is one.
fn push_marked(text: &mut String, mark: &str, part: Option<&str>) -> Result<(), AllocError>
    ensures { OnOk result (string_bytes text.new ≡ string_bytes text.old ++ marked mark.now (option_copied part.entry)) }
{
    match part {
        Some(part) => {
            text.push_str(mark)?;
            text.push_str(part)
        }
        None => Ok(()),
    }
}
