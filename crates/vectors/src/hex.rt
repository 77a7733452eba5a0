// Bytes in hexadecimal; no bytes are written -.
use crate::fault::Fault;
use std::alloc::Global;
use std::fmt;

pub(crate) fn read(heap: Global, text: &str) -> Result<Vec<u8>, Fault> {
    let mut bytes = Vec::new(heap);
    if text == "-" {
        return Ok(bytes);
    }
    for pair in text.as_bytes().chunks(2) {
        let [high, low] = pair else {
            return Err(Fault::Line);
        };
        bytes.push((digit(*high)? << 4) | digit(*low)?)?;
    }
    Ok(bytes)
}

fn digit(b: u8) -> Result<u8, Fault> {
    match b {
        b'0'..=b'9' => Ok(b - b'0'),
        b'A'..=b'F' => Ok(b - b'A' + 10),
        _ => Err(Fault::Line),
    }
}

// Bytes as they are shown.
#[derive(Drop)]
pub(crate) struct Hex<'a>(pub(crate) &'a [u8]);

impl<'a> fmt::Display for Hex<'a> {
    fn fmt<W: fmt::Write>(&self, f: &mut fmt::Formatter<W>) -> fmt::Result {
        if self.0.is_empty() {
            return f.write_str("-");
        }
        for b in self.0 {
            write!(f, "{b:02X}")?;
        }
        Ok(())
    }
}
