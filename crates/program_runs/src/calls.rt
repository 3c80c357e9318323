//! What a run is asked, and what it is to end with.

/// What stands under a name.
#[derive(Clone, Copy)]
pub struct File<'a> {
    pub name: &'a str,
    pub text: &'a str,
}

/// The words of a run, and what the shelf has.
#[derive(Clone, Copy)]
pub struct Call<'a> {
    pub words: &'a [&'a str],
    pub files: &'a [File<'a>],
}

/// The status of a run, and all that it writes before.
#[derive(Clone, Copy)]
pub struct End<'a> {
    pub status: u8,
    pub text: &'a str,
}
