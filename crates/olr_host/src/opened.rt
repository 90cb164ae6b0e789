//! Where the records of a file end that is read and not used as a log. Read, and not proved.

use olr_log::BLOCK;
use std::fs;
use std::io::{self, Read};
use std::os::unix::fs::FileExt;

/// How many bytes of a file have its records: of one that begins with an empty line the whole lines before its padding, which a
/// carriage return begins that ends no line.
fn records_len(file: &fs::File) -> io::Result<u64> {
    let mut block = [0u8; BLOCK];
    let mut len = 0u64;
    let mut lines_len = 0;
    let mut is_return = false;
    for _ in 0..u64::MAX {
        let n = file.read_at(&mut block, len)?;
        if n == 0 && is_return {
            return Ok(lines_len);
        }
        if n == 0 || (len == 0 && block[0] != b'\n') {
            return Ok(u64::MAX);
        }
        for i in 0..n {
            if is_return && block[i] != b'\n' {
                return Ok(lines_len);
            }
            len = len.saturating_add(1);
            is_return = block[i] == b'\r';
            if block[i] == b'\n' {
                lines_len = len;
            }
        }
    }
    Ok(u64::MAX)
}

/// Opens a file to read its records. Those of a log end before its padding: what stands there of a record that was cut is none.
pub fn open_records(rt: &HostRuntime, name: &str) -> io::Result<io::Take<fs::File>> {
    let file = fs::open(rt, name)?;
    let len = if file.metadata()?.is_file() {
        records_len(&file)?
    } else {
        u64::MAX
    };
    Ok(file.take(len))
}
