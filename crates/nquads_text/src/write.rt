// The writer.
ghost use Rattle.std.specs.Prelude.{◌≡◌, ◌≤◌, ◌<◌, ◌+◌, ◌++◌, [], ◌∷◌, false, length, take, drop, OnOk, OnErr, IfOk};
ghost use Rattle.std.specs.List.{flat_map, prefix_len};
ghost use Rattle.std.specs.Io.KnownBytes.{Appends};
ghost use Rattle.ld_io.specs.Faults.{CountsFaults};
ghost use Rattle.ld_io.specs.Sinks.{AppendsFront};
ghost use Rattle.nquads_text.specs.Blocks.{Passes, Takes};
ghost use Rattle.nquads_text.specs.Written.{is_plain, escaped, quoted, annotation, term_text, next_text, triple_text, graph_text, quad_text, written};

use crate::block::{Block, flush, put, put_all};
use case_tables::Datatype;
use ld_io::{Failed, Sink};
use ld_text::Text;
use rdf_terms::{Quad, Term};
use thiserror::Error;

/// How many bytes go to the sink at once.
const BLOCK: usize = 65_536;

/// The sink failed, and its count of faults rose.
#[derive(Clone, Copy, Debug, PartialEq, Eq, Error)]
#[error("write fault")]
pub struct SinkFault;

impl From<Failed> for SinkFault {
    ghost use Rattle.std.specs.Prelude.{⊤};

    ghost from_gives = { λ _ _. ⊤ };

    fn from(_error: Failed) -> SinkFault {
        SinkFault
    }
}

fn is_plain(byte: u8) -> bool
    ensures { result ≡ is_plain byte }
{
    !matches!(byte, b'"' | b'\\' | b'\n' | b'\r')
}

/// How many bytes of a string need no escape, from the front on.
fn plain_len(bytes: &[u8]) -> usize
    ensures value { result ≡ prefix_len is_plain bytes.now }
    ensures within { result ≤ length bytes.now }
{
    let mut len = 0;
    for byte in bytes {
        if !is_plain(*byte) {
            return len;
        }
        len += 1;
    }
    len
}

fn escape_of(byte: u8) -> &'static [u8]
    requires { is_plain byte ≡ false }
    ensures { result.now ≡ escaped byte }
{
    match byte {
        b'"' => b"\\\"",
        b'\\' => b"\\\\",
        b'\n' => b"\\n",
        _ => b"\\r",
    }
}

/// Writes the bytes of a string that need no escape, or else the escape of the first one, and says how many bytes these are.
fn write_run<K: Sink, const N: usize>(
    sink: &mut K,
    block: &mut Block<N>,
    bytes: &[u8],
) -> Result<usize, Failed>
    requires { 0 < length bytes.now }
    ensures bytes { Takes result (K.held sink.old) block.old (K.held sink.new) block.new escaped bytes.now }
    ensures some { IfOk result (λ n. (0 < n) × (n ≤ length bytes.now)) }
    ensures faults { CountsFaults (K.faults sink.old) (K.faults sink.new) result }
{
    let len = plain_len(bytes);
    if len > 0 {
        put(sink, block, &bytes[..len])?;
        return Ok(len);
    }
    put(sink, block, escape_of(bytes[0]))?;
    Ok(1)
}

/// Writes the bytes of a string, escaped where they have to be.
fn write_escaped<K: Sink, const N: usize>(
    sink: &mut K,
    block: &mut Block<N>,
    bytes: &[u8],
) -> Result<(), Failed>
    ensures bytes { Passes result (K.held sink.old) block.old (K.held sink.new) block.new (flat_map escaped bytes.now) }
    ensures faults { CountsFaults (K.faults sink.old) (K.faults sink.new) result }
{
    let mut at = 0;
    while at < bytes.len() {
        at += write_run(sink, block, &bytes[at..])?;
    }
    Ok(())
}

fn write_quoted<K: Sink, const N: usize>(
    sink: &mut K,
    block: &mut Block<N>,
    lexical: &str,
) -> Result<(), Failed>
    ensures bytes { Passes result (K.held sink.old) block.old (K.held sink.new) block.new (quoted lexical.now) }
    ensures faults { CountsFaults (K.faults sink.old) (K.faults sink.new) result }
{
    put(sink, block, b"\"")?;
    write_escaped(sink, block, lexical.as_bytes())?;
    put(sink, block, b"\"")
}

/// Writes what follows a string.
fn write_annotation<K: Sink, const N: usize>(
    sink: &mut K,
    block: &mut Block<N>,
    datatype: &Text,
    language: &Option<Text>,
) -> Result<(), Failed>
    ensures bytes { Passes result (K.held sink.old) block.old (K.held sink.new) block.new (annotation datatype.now language.now) }
    ensures faults { CountsFaults (K.faults sink.old) (K.faults sink.new) result }
{
    if let Some(tag) = language {
        return put_all(sink, block, &[b"@", tag.as_str().as_bytes()]);
    }
    if datatype.as_str() == Datatype::XsdString.name() {
        return Ok(());
    }
    put_all(sink, block, &[b"^^<", datatype.as_str().as_bytes(), b">"])
}

fn write_literal<K: Sink, const N: usize>(
    sink: &mut K,
    block: &mut Block<N>,
    lexical: &Text,
    datatype: &Text,
    language: &Option<Text>,
) -> Result<(), Failed>
    ensures bytes { Passes result (K.held sink.old) block.old (K.held sink.new) block.new (quoted lexical.now ++ annotation datatype.now language.now) }
    ensures faults { CountsFaults (K.faults sink.old) (K.faults sink.new) result }
{
    write_quoted(sink, block, lexical.as_str())?;
    write_annotation(sink, block, datatype, language)
}

fn write_term<K: Sink, const N: usize>(
    sink: &mut K,
    block: &mut Block<N>,
    term: &Term,
) -> Result<(), Failed>
    ensures bytes { Passes result (K.held sink.old) block.old (K.held sink.new) block.new (term_text term.now) }
    ensures faults { CountsFaults (K.faults sink.old) (K.faults sink.new) result }
{
    match term {
        Term::Iri(iri) => put_all(sink, block, &[b"<", iri.as_str().as_bytes(), b">"]),
        Term::Blank(label) => put(sink, block, label.as_str().as_bytes()),
        Term::Literal {
            lexical,
            datatype,
            language,
        } => write_literal(sink, block, lexical, datatype, language),
    }
}

/// Writes a term with a space in front.
fn write_next<K: Sink, const N: usize>(
    sink: &mut K,
    block: &mut Block<N>,
    term: &Term,
) -> Result<(), Failed>
    ensures bytes { Passes result (K.held sink.old) block.old (K.held sink.new) block.new (next_text term.now) }
    ensures faults { CountsFaults (K.faults sink.old) (K.faults sink.new) result }
{
    put(sink, block, b" ")?;
    write_term(sink, block, term)
}

fn write_triple<K: Sink, const N: usize>(
    sink: &mut K,
    block: &mut Block<N>,
    quad: &Quad,
) -> Result<(), Failed>
    ensures bytes { Passes result (K.held sink.old) block.old (K.held sink.new) block.new (triple_text quad.now) }
    ensures faults { CountsFaults (K.faults sink.old) (K.faults sink.new) result }
{
    write_term(sink, block, &quad.subject)?;
    write_next(sink, block, &quad.predicate)?;
    write_next(sink, block, &quad.object)
}

fn write_graph<K: Sink, const N: usize>(
    sink: &mut K,
    block: &mut Block<N>,
    graph: &Option<Term>,
) -> Result<(), Failed>
    ensures bytes { Passes result (K.held sink.old) block.old (K.held sink.new) block.new (graph_text graph.now) }
    ensures faults { CountsFaults (K.faults sink.old) (K.faults sink.new) result }
{
    match graph {
        Some(term) => write_next(sink, block, term),
        None => Ok(()),
    }
}

fn write_quad<K: Sink, const N: usize>(
    sink: &mut K,
    block: &mut Block<N>,
    quad: &Quad,
) -> Result<(), Failed>
    ensures bytes { Passes result (K.held sink.old) block.old (K.held sink.new) block.new (quad_text quad.now) }
    ensures faults { CountsFaults (K.faults sink.old) (K.faults sink.new) result }
{
    write_triple(sink, block, quad)?;
    write_graph(sink, block, &quad.graph)?;
    put(sink, block, b" .\n")
}

/// Writes the quads into the block, and what doesn't fit to the sink.
fn write_each<K: Sink, const N: usize>(
    sink: &mut K,
    block: &mut Block<N>,
    quads: &[Quad],
) -> Result<(), Failed>
    ensures bytes { Passes result (K.held sink.old) block.old (K.held sink.new) block.new (written quads.now) }
    ensures faults { CountsFaults (K.faults sink.old) (K.faults sink.new) result }
{
    for quad in quads {
        write_quad(sink, block, quad)?;
    }
    Ok(())
}

/// Writes quads, a line each (RDF 1.1 N-Quads): one space between terms, ` .` and a line feed. In strings only `"`, `\`, LF
/// and CR are escaped; `xsd:string` and the datatype of a language-tagged string are not written.
///
/// It takes no memory. The bytes go to the sink in blocks of 64 KiB; a text that is longer than a block goes as it is. The
/// sink isn't finished.
///
/// # Errors
///
/// `SinkFault` only where the sink's count of faults rose. Some front of the text was then written.
pub fn write_quads<K: Sink>(quads: &[Quad], sink: &mut K) -> Result<(), SinkFault>
    ensures all { OnOk result (Appends (K.held sink.old) (K.held sink.new) (written quads.now)) }
    ensures front { AppendsFront (K.held sink.old) (K.held sink.new) (written quads.now) }
    ensures faults { CountsFaults (K.faults sink.old) (K.faults sink.new) result }
{
    let mut block: Block<BLOCK> = Block::new();
    write_each(sink, &mut block, quads)?;
    flush(sink, &mut block)?;
    Ok(())
}
