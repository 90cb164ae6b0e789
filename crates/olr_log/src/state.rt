//! The states of a log.

ghost use Rattle.std.specs.Prelude.{◌≡◌};
ghost use Rattle.olr_log.specs.States.{size_in, file_size_in, is_native_in, is_broken_in};

/// How a log stands. Lengths are in bytes.
#[derive(Clone, Copy)]
pub enum State {
    /// A file was opened that the program didn't write. All of it is its text.
    Foreign {
        len: usize,
    },
    /// The program's own file was opened. Behind the first line it has so many bytes of text, and none but carriage returns
    /// from the byte `last` on.
    Opened {
        text_len: usize,
        last: usize,
        len: usize,
    },
    /// Records can be written behind the text.
    Ready {
        text_len: usize,
        len: usize,
    },
    /// A call failed, or the padding was cut off. Nothing more can be stored.
    Broken,
}

impl State {
    pub fn is_native(self) -> bool
        ensures { result ≡ is_native_in self }
    {
        !matches!(self, State::Foreign { .. })
    }

    pub fn is_broken(self) -> bool
        ensures { result ≡ is_broken_in self }
    {
        matches!(self, State::Broken)
    }

    /// The length of the text, and 0 if it isn't known.
    pub fn text_len(self) -> usize
        ensures { result ≡ size_in self }
    {
        match self {
            State::Foreign { len } => len,
            State::Opened { text_len, .. } | State::Ready { text_len, .. } => text_len,
            State::Broken => 0,
        }
    }

    /// The length of the file, if it is known.
    pub fn file_len(self) -> Option<usize>
        ensures { result ≡ file_size_in self }
    {
        match self {
            State::Foreign { len } | State::Opened { len, .. } | State::Ready { len, .. } => Some(
                len,
            ),
            State::Broken => None,
        }
    }
}
