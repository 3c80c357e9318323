//! What a document shows.

/// A command line of a document, with what stands below it.
#[derive(Clone, Copy)]
pub(crate) struct Example<'a> {
    /// The command line.
    pub(crate) command: &'a str,
    /// The lines from below it to the next command or to the end of its block, without the last line feed.
    pub(crate) shown: &'a str,
}

/// The example of a text that begins with its command line.
pub(crate) fn example_of(text: &str) -> Example<'_> {
    match text.split_once('\n') {
        Some((command, shown)) => Example { command, shown },
        None => Example {
            command: text,
            shown: "",
        },
    }
}

/// Whether a text is the lines that are shown, each with its line feed.
pub(crate) fn is_shown(came: &str, shown: &str) -> bool {
    match came.strip_suffix('\n') {
        Some(lines) => lines == shown,
        None => came == shown,
    }
}
