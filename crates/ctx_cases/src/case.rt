// The fields of a case.
use ctx_process::Flags;

/// What is to be shown of a context.
#[derive(Clone, Copy)]
pub(crate) enum Show<'a> {
    /// That there is one.
    Code,
    /// The definition of this term.
    Term(&'a str),
    /// What this text expands to with the vocabulary.
    Iri(&'a str),
    /// Its settings and terms, and those of the contexts before it.
    Context,
    /// How many terms it has.
    Count,
}

/// A case, as its line says it.
#[derive(Clone, Copy)]
pub(crate) struct Case<'a> {
    /// How the last local context is processed.
    pub(crate) flags: Flags,
    /// The base URL.
    pub(crate) base: Option<&'a str>,
    /// The folder of contexts.
    pub(crate) folder: Option<&'a str>,
    /// What is to be shown.
    pub(crate) show: Show<'a>,
    /// The local contexts, with a tab between two of them.
    pub(crate) locals: &'a str,
    /// What is to be shown and the local contexts, as they stand in the line.
    pub(crate) shown: &'a str,
}

/// The flags of a context that no scoped context brought in.
pub(crate) const PLAIN: Flags = Flags {
    override_protected: false,
    propagate: true,
    validate_scoped: true,
};

/// The case that a line says; None where it says none.
pub(crate) fn case_of(line: &str) -> Option<Case<'_>> {
    let (flags, rest) = line.split_once('\t')?;
    let (base, rest) = rest.split_once('\t')?;
    let (folder, shown) = rest.split_once('\t')?;
    let (show, locals) = shown.split_once('\t')?;
    Some(Case {
        flags: flags_of(flags),
        base: field(base),
        folder: field(folder),
        show: show_of(show)?,
        locals,
        shown,
    })
}

fn flags_of(letters: &str) -> Flags {
    Flags {
        override_protected: letters.contains('o'),
        propagate: letters.contains('p'),
        validate_scoped: letters.contains('v'),
    }
}

fn field(text: &str) -> Option<&str> {
    match text {
        "-" => None,
        _ => Some(text),
    }
}

fn show_of(text: &str) -> Option<Show<'_>> {
    let (word, name) = match text.split_once(' ') {
        Some(pair) => pair,
        None => (text, ""),
    };
    match word {
        "code" => Some(Show::Code),
        "term" => Some(Show::Term(name)),
        "iri" => Some(Show::Iri(name)),
        "context" => Some(Show::Context),
        "count" => Some(Show::Count),
        _ => None,
    }
}
