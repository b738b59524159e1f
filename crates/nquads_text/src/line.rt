// One line.
ghost use Rattle.std.specs.Prelude.{◌≡◌, ◌≤◌, length, drop, IfOk, Some, None};
ghost use Rattle.std.specs.List.{prefix_len};
ghost use Rattle.std.specs.Str.{is_utf8};
ghost use Rattle.case_tables.specs.Datatype.{datatype_name};
ghost use Rattle.case_tables.specs.declared.datatype.Datatype.TheVariants.{XsdString, RdfLangString};
ghost use Rattle.nquads_terminals.specs.Terminals.{IsReadAt, iriref};
ghost use Rattle.nquads_text.specs.Statement.{is_blank, gap, spaced, iri, blank, node, dot, typed, tagged, annotated, literal, subject, predicate, object, graph, ending, statement, said};
ghost use Rattle.nquads_text.specs.Places.{IsPlace, IsPart, IsWhole};

use case_tables::Datatype;
use ld_text::Text;
use nquads_terminals::{iriref_at, label_at, langtag_at, string_at};
use rdf_terms::{Quad, Term};
use std::alloc::{AllocError, Global};
use std::str;

/// Why a line gave nothing.
pub(crate) enum Stop {
    /// The first terminal that can't be read should begin at this byte of the line, counted from 0.
    Bad(usize),
    /// Memory was refused.
    OutOfMemory,
}

impl From<AllocError> for Stop {
    ghost use Rattle.nquads_text.specs.declared.line.Stop.TheVariants.{OutOfMemory};

    ghost from_gives = { λ _ e. e ≡ OutOfMemory };

    fn from(_error: AllocError) -> Stop {
        Stop::OutOfMemory
    }
}

/// The datatypes that N-Quads doesn't write. Literals share them.
#[derive(Drop)]
pub(crate) struct Names {
    string: Text,
    lang_string: Text,
    ghost is_string: { string ≡ datatype_name XsdString },
    ghost is_lang_string: { lang_string ≡ datatype_name RdfLangString },
}

impl Names {
    pub(crate) fn new(alloc: Global) -> Result<Names, AllocError> {
        let string = Text::new(alloc, Datatype::XsdString.name())?;
        let lang_string = Text::new(alloc, Datatype::RdfLangString.name())?;
        Ok(Names {
            string,
            lang_string,
        })
    }
}

/// The place of the first byte from `at` on that is neither a space nor a tab.
fn unspaced(line: &[u8], at: usize) -> usize
    requires { at ≤ length line.now }
    ensures within { result ≤ length line.now }
    ensures place { drop result line.now ≡ drop (prefix_len is_blank (drop at line.now)) (drop at line.now) }
{
    let mut place = at;
    while place < line.len() && is_blank(line[place]) {
        place += 1;
    }
    place
}

fn is_blank(byte: u8) -> bool
    ensures { result ≡ is_blank byte }
{
    byte == b' ' || byte == b'\t'
}

fn is_text(bytes: &[u8]) -> bool
    ensures { result ≡ is_utf8 bytes.now }
{
    match str::from_utf8(bytes) {
        Ok(_) => true,
        Err(_) => false,
    }
}

/// The place behind the spaces, the tabs and the comment that stand at a place.
fn gap(line: &[u8], at: usize) -> Result<usize, Stop>
    requires { at ≤ length line.now }
    ensures { IsPlace line.now result (gap (drop at line.now)) }
{
    let place = unspaced(line, at);
    if place == line.len() || line[place] != b'#' {
        return Ok(place);
    }
    if is_text(&line[place..]) {
        Ok(line.len())
    } else {
        Err(Stop::Bad(place))
    }
}

/// A term that ends at a place, and where the next terminal should begin.
fn spaced(line: &[u8], term: Term, at: usize) -> Result<(Term, usize), Stop>
    requires { at ≤ length line.now }
    ensures { IsPart line.now result (spaced term (drop at line.now)) }
{
    let next = gap(line, at)?;
    Ok((term, next))
}

fn iri(alloc: Global, line: &[u8], at: usize) -> Result<Option<(Term, usize)>, AllocError>
    ensures { IfOk result (λ found. IsReadAt line.now found (iri (drop at line.now))) }
{
    match iriref_at(alloc, line, at)? {
        Some((iri, end)) => Ok(Some((Term::Iri(iri), end))),
        None => Ok(None),
    }
}

fn blank(alloc: Global, line: &[u8], at: usize) -> Result<Option<(Term, usize)>, AllocError>
    ensures { IfOk result (λ found. IsReadAt line.now found (blank (drop at line.now))) }
{
    match label_at(alloc, line, at)? {
        Some((label, end)) => Ok(Some((Term::Blank(label), end))),
        None => Ok(None),
    }
}

/// The IRI or the blank node that begins at the place.
fn node(alloc: Global, line: &[u8], at: usize) -> Result<Option<(Term, usize)>, AllocError>
    ensures { IfOk result (λ found. IsReadAt line.now found (node (drop at line.now))) }
{
    if let Some(found) = iri(alloc, line, at)? {
        return Ok(Some(found));
    }
    let found = blank(alloc, line, at)?;
    Ok(found)
}

fn subject(alloc: Global, line: &[u8], at: usize) -> Result<(Term, usize), Stop>
    requires { at ≤ length line.now }
    ensures { IsPart line.now result (subject (drop at line.now)) }
{
    match node(alloc, line, at)? {
        Some((term, end)) => spaced(line, term, end),
        None => Err(Stop::Bad(at)),
    }
}

fn predicate(alloc: Global, line: &[u8], at: usize) -> Result<(Term, usize), Stop>
    requires { at ≤ length line.now }
    ensures { IsPart line.now result (predicate (drop at line.now)) }
{
    match iri(alloc, line, at)? {
        Some((term, end)) => spaced(line, term, end),
        None => Err(Stop::Bad(at)),
    }
}

/// The literal of a string whose `^^` ends at the place.
fn typed(alloc: Global, line: &[u8], at: usize, lexical: Text) -> Result<(Term, usize), Stop>
    requires { at ≤ length line.now }
    ensures { IsPart line.now result (typed lexical (drop at line.now)) }
{
    let at = gap(line, at)?;
    match iriref_at(alloc, line, at)? {
        Some((datatype, end)) => {
            let term = Term::Literal {
                lexical,
                datatype,
                language: None,
            };
            spaced(line, term, end)
        }
        None => Err(Stop::Bad(at)),
    }
}

/// The literal of a string behind which an `@` stands at the place.
fn tagged(
    alloc: Global,
    names: &Names,
    line: &[u8],
    at: usize,
    lexical: Text,
) -> Result<(Term, usize), Stop>
    requires { at ≤ length line.now }
    ensures { IsPart line.now result (tagged lexical (drop at line.now)) }
{
    match langtag_at(alloc, line, at)? {
        Some((tag, end)) => {
            let term = Term::Literal {
                lexical,
                datatype: names.lang_string.copy()?,
                language: Some(tag),
            };
            spaced(line, term, end)
        }
        None => Err(Stop::Bad(at)),
    }
}

/// The literal of a string, with what stands behind it at the place.
fn annotated(
    alloc: Global,
    names: &Names,
    line: &[u8],
    at: usize,
    lexical: Text,
) -> Result<(Term, usize), Stop>
    requires { at ≤ length line.now }
    ensures { IsPart line.now result (annotated lexical (drop at line.now)) }
{
    let rest = &line[at..];
    if rest.starts_with(b"^^") {
        return typed(alloc, line, at + 2, lexical);
    }
    if rest.starts_with(b"@") {
        return tagged(alloc, names, line, at, lexical);
    }
    let term = Term::Literal {
        lexical,
        datatype: names.string.copy()?,
        language: None,
    };
    Ok((term, at))
}

fn literal(alloc: Global, names: &Names, line: &[u8], at: usize) -> Result<(Term, usize), Stop>
    requires { at ≤ length line.now }
    ensures { IsPart line.now result (literal (drop at line.now)) }
{
    match string_at(alloc, line, at)? {
        Some((lexical, end)) => {
            let next = gap(line, end)?;
            annotated(alloc, names, line, next, lexical)
        }
        None => Err(Stop::Bad(at)),
    }
}

fn object(alloc: Global, names: &Names, line: &[u8], at: usize) -> Result<(Term, usize), Stop>
    requires { at ≤ length line.now }
    ensures { IsPart line.now result (object (drop at line.now)) }
{
    match node(alloc, line, at)? {
        Some((term, end)) => spaced(line, term, end),
        None => literal(alloc, names, line, at),
    }
}

fn graph(alloc: Global, line: &[u8], at: usize) -> Result<(Option<Term>, usize), Stop>
    requires { at ≤ length line.now }
    ensures { IsPart line.now result (graph (drop at line.now)) }
{
    match node(alloc, line, at)? {
        Some((term, end)) => {
            let (term, next) = spaced(line, term, end)?;
            Ok((Some(term), next))
        }
        None => Ok((None, at)),
    }
}

/// The place behind a statement's `.`, with what may follow it.
fn dot(line: &[u8], at: usize) -> Result<usize, Stop>
    requires { at ≤ length line.now }
    ensures { IsPlace line.now result (dot (drop at line.now)) }
{
    if at == line.len() || line[at] != b'.' {
        return Err(Stop::Bad(at));
    }
    let next = gap(line, at + 1)?;
    Ok(next)
}

fn ending(line: &[u8], at: usize) -> Result<usize, Stop>
    requires { at ≤ length line.now }
    ensures { IsPlace line.now result (ending (drop at line.now)) }
{
    let next = dot(line, at)?;
    if next < line.len() {
        return Err(Stop::Bad(next));
    }
    Ok(next)
}

fn statement(alloc: Global, names: &Names, line: &[u8], at: usize) -> Result<Quad, Stop>
    requires { at ≤ length line.now }
    ensures { IsWhole line.now result (statement (drop at line.now)) }
{
    let (subject, at) = subject(alloc, line, at)?;
    let (predicate, at) = predicate(alloc, line, at)?;
    let (object, at) = object(alloc, names, line, at)?;
    let (graph, at) = graph(alloc, line, at)?;
    ending(line, at)?;
    Ok(Quad {
        subject,
        predicate,
        object,
        graph,
    })
}

/// What a line says: nothing, or one quad.
pub(crate) fn said(alloc: Global, names: &Names, line: &[u8]) -> Result<Option<Quad>, Stop>
    ensures { IsWhole line.now result (said line.now) }
{
    let at = gap(line, 0)?;
    if at == line.len() {
        return Ok(None);
    }
    let quad = statement(alloc, names, line, at)?;
    Ok(Some(quad))
}
