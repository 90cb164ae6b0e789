//! Texts of whole records.

ghost use Rattle.std.specs.Prelude.{◌≡◌};
ghost use Rattle.olr_log.specs.Journals as journals;

/// Whether a batch is open after a line, if one was or wasn't before it.
pub fn stays_open(is_open: bool, line: &[u8]) -> bool
    ensures { result ≡ journals.stays_open is_open line.now }
{
    line == b"begin".as_slice() || (is_open && !line.starts_with(b"commit,"))
}

/// Whether a text consists of lines without carriage returns, and each batch in it has its commit.
#[tactic(auto, using(crate::proofs::WholeTexts::reads_none, crate::proofs::WholeTexts::reads_return, crate::proofs::WholeTexts::reads_end))]
pub fn is_whole(text: &[u8]) -> bool
    ensures { result ≡ journals.is_whole text.now }
{
    let mut is_open = false;
    let mut start = 0;
    'bytes: for i in 0..text.len() {
        if text[i] == b'\r' {
            return false;
        }
        if text[i] == b'\n' {
            is_open = stays_open(is_open, &text[start..i]);
            start = i + 1;
        }
    }
    !is_open && start == text.len()
}
