ghost use Rattle.std.specs.Prelude.{◌≡◌, ◌≤◌, length};
ghost use Rattle.permissions.specs.AccessNames.{el_text, kind_text, el_of, kind_of};

use crate::bits::{El, Kind};

impl El {
    /// The word for the exception level: `el0` or `el1`.
    pub fn name(self) -> &'static str
        ensures text { result.now ≡ el_text self }
        ensures short { length result.now ≡ 3 }
    {
        match self {
            El::El0 => "el0",
            El::El1 => "el1",
        }
    }

    /// The exception level that a word names.
    pub fn named(word: &[u8]) -> Option<El>
        ensures { result ≡ el_of word.now }
    {
        if word == b"el0".as_slice() {
            Some(El::El0)
        } else if word == b"el1".as_slice() {
            Some(El::El1)
        } else {
            None
        }
    }
}

impl Kind {
    /// The word for what an access does: `read`, `write` or `fetch`.
    pub fn name(self) -> &'static str
        ensures text { result.now ≡ kind_text self }
        ensures short { length result.now ≤ 5 }
    {
        match self {
            Kind::Read => "read",
            Kind::Write => "write",
            Kind::Fetch => "fetch",
        }
    }

    /// What an access does that a word names.
    pub fn named(word: &[u8]) -> Option<Kind>
        ensures { result ≡ kind_of word.now }
    {
        if word == b"read".as_slice() {
            Some(Kind::Read)
        } else if word == b"write".as_slice() {
            Some(Kind::Write)
        } else if word == b"fetch".as_slice() {
            Some(Kind::Fetch)
        } else {
            None
        }
    }
}
